//! JSON values: how they are read from bytes, and how a reader looks into them.
ghost use Rattle.std.specs.Prelude.{◌≡◌, ◌⊎◌, IfOk, IfErr, Some, None, map};
ghost use Rattle.serde_json.specs.Find.{get, as_str};
ghost use Rattle.serde_json.specs.View.{view, items_view, members_view};
ghost use Rattle.serde_json.specs.Written.{has_float, items_have_float, members_have_float};
ghost use Rattle.join_request.specs.Json.{value_of, is_one_of, only_named, object_of, only_member, pair_of, triple_of};
ghost use Rattle.join_request.specs.Refused.{Refuses};

use crate::error::RequestError;
use serde_json::{Map, Value};
use std::alloc::Global;

/// The value that the bytes spell.
pub fn read_value(alloc: Global, bytes: &[u8]) -> Result<Value, RequestError>
    ensures ok { IfOk result (λ v. value_of bytes.now ≡ Some (view v)) }
    ensures err { IfErr result
        (λ e. (e ≡ RequestError.Memory)
        ⊎ ((e ≡ RequestError.NotJson) × (value_of bytes.now ≡ None))) }
{
    match Value::from_slice(alloc, bytes) {
        Ok(value) => Ok(value),
        Err(e) => Err(if e.is_memory() {
            RequestError::Memory
        } else {
            RequestError::NotJson
        }),
    }
}

/// Whether a number in the value, at any depth, is held as a float.
#[cycle(float)]
pub fn holds_float(value: &Value) -> bool
    ensures { result ≡ has_float (view value.now) }
{
    match value {
        Value::Null => false,
        Value::Bool(_) => false,
        Value::Number(n) => n.is_f64(),
        Value::String(_) => false,
        Value::Array(items) => items_hold_float(items),
        Value::Object(members) => members_hold_float(members),
    }
}

#[cycle(float)]
fn items_hold_float(items: &Vec<Value>) -> bool
    ensures { result ≡ items_have_float (items_view items.now.items) }
{
    for item in items {
        if holds_float(item) {
            return true;
        }
    }
    false
}

#[cycle(float)]
fn members_hold_float(members: &Map<String, Value>) -> bool
    ensures { result ≡ members_have_float (members_view members.now.entries) }
{
    for (_name, member) in members.iter() {
        if holds_float(member) {
            return true;
        }
    }
    false
}

/// The value itself, where it is an object all of whose members have one of these names.
pub fn object_named<'a>(value: &'a Value, names: &[&str]) -> Result<&'a Value, RequestError>
    ensures ok { IfOk result
        (λ found. object_of (map (λ n. n.now) names.now) (view value.now) ≡ Some (view found.now)) }
    ensures err { IfErr result (Refuses (object_of (map (λ n. n.now) names.now) (view value.now))) }
{
    match value.as_object() {
        Some(members) if has_only(members, names) => Ok(value),
        _ => Err(RequestError::Shape),
    }
}

fn has_only(members: &Map<String, Value>, names: &[&str]) -> bool
    ensures { result ≡ only_named (map (λ n. n.now) names.now) (members_view members.now.entries) }
{
    for (name, _member) in members.iter() {
        if !is_among(names, name.as_str()) {
            return false;
        }
    }
    true
}

fn is_among(names: &[&str], name: &str) -> bool
    ensures { result ≡ is_one_of (map (λ n. n.now) names.now) name.now }
{
    for known in names {
        if name == *known {
            return true;
        }
    }
    false
}

/// The member of a name, of an object.
pub fn member<'a>(value: &'a Value, name: &str) -> Result<&'a Value, RequestError>
    ensures ok { IfOk result (λ found. get name.now (view value.now) ≡ Some (view found.now)) }
    ensures err { IfErr result (Refuses (get name.now (view value.now))) }
{
    value.get(name).ok_or(RequestError::Shape)
}

/// The name and the value of the one member of an object.
#[tactic(auto, using(crate::proofs::Pairs::members))]
pub fn only_member(value: &Value) -> Result<(&str, &Value), RequestError>
    ensures ok { IfOk result (λ m. only_member (view value.now) ≡ Some (m.0.now, view m.1.now)) }
    ensures err { IfErr result (Refuses (only_member (view value.now))) }
{
    let Some(members) = value.as_object() else {
        return Err(RequestError::Shape);
    };
    match members.first_key_value() {
        Some((name, found)) if members.len() == 1 => Ok((name.as_str(), found)),
        _ => Err(RequestError::Shape),
    }
}

/// The items of a list of two.
#[tactic(auto, using(crate::proofs::Pairs::no_pairs))]
pub fn read_pair(value: &Value) -> Result<(&Value, &Value), RequestError>
    ensures ok { IfOk result (λ p. pair_of (view value.now) ≡ Some (view p.0.now, view p.1.now)) }
    ensures err { IfErr result (Refuses (pair_of (view value.now))) }
{
    let Some(items) = value.as_array() else {
        return Err(RequestError::Shape);
    };
    match items.as_slice() {
        [first, second] => Ok((first, second)),
        _ => Err(RequestError::Shape),
    }
}

/// The items of a list of three.
#[tactic(auto, using(crate::proofs::Pairs::no_triples))]
pub fn read_triple(value: &Value) -> Result<(&Value, &Value, &Value), RequestError>
    ensures ok { IfOk result
        (λ t. triple_of (view value.now) ≡ Some (view t.0.now, view t.1.now, view t.2.now)) }
    ensures err { IfErr result (Refuses (triple_of (view value.now))) }
{
    let Some(items) = value.as_array() else {
        return Err(RequestError::Shape);
    };
    match items.as_slice() {
        [first, second, third] => Ok((first, second, third)),
        _ => Err(RequestError::Shape),
    }
}

/// The text that a value is.
pub fn read_text(value: &Value) -> Result<&str, RequestError>
    ensures ok { IfOk result (λ text. as_str (view value.now) ≡ Some text.now) }
    ensures err { IfErr result (Refuses (as_str (view value.now))) }
{
    value.as_str().ok_or(RequestError::Shape)
}
