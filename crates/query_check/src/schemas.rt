//! Whether schemas and frames fit one another, and the types of columns that are compared.
ghost use Rattle.std.specs.Prelude.{◌≡◌};
ghost use Rattle.std.specs.List.{list_any};
ghost use Rattle.std.specs.Str.{bytes_eq};
ghost use Rattle.join_model.specs.Refusals.{repeats_name, has_other_frame, have_same_types, has_mixed_filter, literal_type, operand_type, schemas_differ};

use crate::columns::{ref_type, type_under};
use col_core::{DataType, Field, Frame, Name, Schema};
use join_model::{IntLiteral, Operand, Query};

fn has_name(fields: &[Field], name: &str) -> bool
    ensures { result ≡ list_any (λ f. bytes_eq f.name name.now) fields.now }
{
    fields.iter().any(|field| field.name.as_str() == name)
}

// Whether some name stands twice. No memory is taken, so each field is compared with those after it.
#[tactic(auto, using(crate::proofs::Sides::repeats_from))]
fn repeats_name(fields: &[Field]) -> bool
    ensures { result ≡ repeats_name fields.now }
{
    for (i, field) in fields.iter().enumerate() {
        if has_name(&fields[i + 1..], field.name.as_str()) {
            return true;
        }
    }
    false
}

fn has_other_frame(schema: &Schema, frames: &[Frame]) -> bool
    ensures { result ≡ has_other_frame schema.now frames.now }
{
    frames.iter().any(|frame| !frame.schema().is_same(schema))
}

// Whether two key lists have the same types, place by place.
#[tactic(auto, using(list_laws::proofs::Pointwise::place_by_place))]
fn have_same_types(build: &Schema, build_keys: &[Name], probe: &Schema, probe_keys: &[Name]) -> bool
    ensures { result ≡ have_same_types build.now build_keys.now probe.now probe_keys.now }
{
    if build_keys.len() != probe_keys.len() {
        return false;
    }
    for i in 0..build_keys.len() {
        if type_under(build, &build_keys[i]) != type_under(probe, &probe_keys[i]) {
            return false;
        }
    }
    true
}

fn literal_type(literal: IntLiteral) -> DataType
    ensures { result ≡ literal_type literal }
{
    match literal {
        IntLiteral::I8(_) => DataType::Int8,
        IntLiteral::I16(_) => DataType::Int16,
        IntLiteral::I32(_) => DataType::Int32,
        IntLiteral::I64(_) => DataType::Int64,
        IntLiteral::U8(_) => DataType::UInt8,
        IntLiteral::U16(_) => DataType::UInt16,
        IntLiteral::U32(_) => DataType::UInt32,
        IntLiteral::U64(_) => DataType::UInt64,
    }
}

fn operand_type(query: &Query, operand: &Operand) -> DataType
    ensures { result ≡ operand_type query.now operand.now }
{
    match operand {
        Operand::Column(column) => ref_type(query, column),
        Operand::Literal(literal) => literal_type(*literal),
    }
}

fn has_mixed_filter(query: &Query) -> bool
    ensures { result ≡ has_mixed_filter query.now }
{
    match &query.filter {
        Some(filter) => ref_type(query, &filter.left) != operand_type(query, &filter.right),
        None => false,
    }
}

/// Whether a schema repeats a name, a frame has another schema than its side, or two columns that are compared differ in type.
pub fn schemas_differ(query: &Query, build: &[Frame], probe: &[Frame]) -> bool
    ensures { result ≡ schemas_differ query.now build.now probe.now }
{
    let build_keys = query.build_keys.as_slice();
    let probe_keys = query.probe_keys.as_slice();
    repeats_name(query.build_schema.fields())
        || repeats_name(query.probe_schema.fields())
        || has_other_frame(&query.build_schema, build)
        || has_other_frame(&query.probe_schema, probe)
        || !have_same_types(
            &query.build_schema,
            build_keys,
            &query.probe_schema,
            probe_keys,
        )
        || has_mixed_filter(query)
}
