//! What is read of JSON values of their own, and of lists and members of them.
ghost use Rattle.std.specs.Prelude.{◌≡◌, IfOk, IfErr, Option, Some};
ghost use Rattle.serde_json.specs.Data.{Data};
ghost use Rattle.serde_json.specs.Find.{get};
ghost use Rattle.serde_json.specs.View.{view};
ghost use Rattle.join_request.specs.Json.{or_default, list_of};
ghost use Rattle.join_request.specs.Refused.{Refuses};

use crate::error::RequestError;
use col_core::List;
use serde_json::Value;
use std::alloc::Global;

/// What is read of one JSON value, whatever stands beside it.
pub trait FromValue: Drop {
    ghost from_value: { Data → Option Self };

    /// Reads a value of its own.
    fn from_value(alloc: Global, value: &Value) -> Result<Self, RequestError>
        ensures ok { IfOk result (λ found. from_value (view value.now) ≡ Some found) }
        ensures err { IfErr result (Refuses (from_value (view value.now))) };
}

/// A list, made of what is read of each item of a JSON list.
pub fn read_list<T: FromValue>(alloc: Global, value: &Value) -> Result<List<T>, RequestError>
    ensures ok { IfOk result (λ found. list_of T.from_value (view value.now) ≡ Some found) }
    ensures err { IfErr result (Refuses (list_of T.from_value (view value.now))) }
{
    let Some(items) = value.as_array() else {
        return Err(RequestError::Shape);
    };
    let mut found = Vec::new(alloc);
    for item in items {
        found.push(T::from_value(alloc, item)?)?;
    }
    Ok(List::from_vec(found))
}

/// What is read of a member of an object, or the default where the member is missing.
pub fn member_or<T: FromValue>(
    alloc: Global,
    object: &Value,
    name: &str,
    default: T,
) -> Result<T, RequestError>
    ensures ok { IfOk result
        (λ found. or_default default T.from_value (get name.now (view object.now)) ≡ Some found) }
    ensures err { IfErr result
        (Refuses (or_default default T.from_value (get name.now (view object.now)))) }
{
    match object.get(name) {
        Some(value) => T::from_value(alloc, value),
        None => Ok(default),
    }
}

impl FromValue for bool {
    ghost use Rattle.serde_json.specs.Find.{as_bool};

    ghost from_value = { as_bool };

    fn from_value(_alloc: Global, value: &Value) -> Result<bool, RequestError> {
        value.as_bool().ok_or(RequestError::Shape)
    }
}
