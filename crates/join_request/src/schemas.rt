//! Schemas: lists of pairs of a name and a type.
ghost use Rattle.std.specs.Prelude.{◌≡◌, IfOk, IfErr, Some};
ghost use Rattle.serde_json.specs.View.{view};
ghost use Rattle.join_request.specs.Schemas.{schema_of_value};
ghost use Rattle.join_request.specs.Refused.{Refuses};

use crate::error::RequestError;
use crate::from_value::{FromValue, read_list};
use crate::json::{read_pair, read_text};
use crate::types::type_named;
use col_core::{Field, Name, Schema};
use serde_json::Value;
use std::alloc::Global;

impl FromValue for Field {
    ghost use Rattle.join_request.specs.Schemas.{field_of_value};

    ghost from_value = { field_of_value };

    fn from_value(alloc: Global, value: &Value) -> Result<Field, RequestError> {
        let (name, dtype) = read_pair(value)?;
        let name = read_text(name)?;
        let dtype = type_named(read_text(dtype)?)?;
        Ok(Field {
            name: Name::new(alloc, name)?,
            dtype,
        })
    }
}

/// The schema that a value is.
pub fn read_schema(alloc: Global, value: &Value) -> Result<Schema, RequestError>
    ensures ok { IfOk result (λ schema. schema_of_value (view value.now) ≡ Some schema) }
    ensures err { IfErr result (Refuses (schema_of_value (view value.now))) }
{
    let fields = read_list(alloc, value)?;
    Ok(Schema::from_fields(fields.into_vec()))
}
