//! Filters: an operation, a column, and a column or a literal.
ghost use Rattle.std.specs.Prelude.{◌≡◌, IfOk, IfErr, Some};
ghost use Rattle.serde_json.specs.View.{view};
ghost use Rattle.col_core.specs.Values.{IsWholeOf};
ghost use Rattle.join_request.specs.Filters.{op_of_text, literal_of, literal_of_value, operand_of_value, comparison_of_value};
ghost use Rattle.join_request.specs.Refused.{Refuses};

use crate::error::RequestError;
use crate::from_value::FromValue;
use crate::json::{only_member, read_text, read_triple};
use crate::leaves::read_integer;
use crate::parts::column_named;
use crate::types::type_named;
use col_core::DataType;
use join_query::{ColumnRef, Filter, FilterOp, IntLiteral, Operand};
use serde_json::Value;
use std::alloc::Global;

impl FromValue for Option<Filter> {
    ghost use Rattle.join_request.specs.Filters.{filter_of_value};

    ghost from_value = { filter_of_value };

    fn from_value(alloc: Global, value: &Value) -> Result<Option<Filter>, RequestError> {
        if value.is_null() {
            return Ok(None);
        }
        Ok(Some(read_comparison(alloc, value)?))
    }
}

/// The comparison that a list of three is.
fn read_comparison(alloc: Global, value: &Value) -> Result<Filter, RequestError>
    ensures ok { IfOk result (λ filter. comparison_of_value (view value.now) ≡ Some filter) }
    ensures err { IfErr result (Refuses (comparison_of_value (view value.now))) }
{
    let (op, left, right) = read_triple(value)?;
    Ok(Filter {
        op: op_named(read_text(op)?)?,
        left: ColumnRef::from_value(alloc, left)?,
        right: read_operand(alloc, right)?,
    })
}

/// The operation that a word names.
fn op_named(text: &str) -> Result<FilterOp, RequestError>
    ensures ok { IfOk result (λ op. op_of_text text.now ≡ Some op) }
    ensures err { IfErr result (Refuses (op_of_text text.now)) }
{
    match text {
        "eq" => Ok(FilterOp::Eq),
        "ne" => Ok(FilterOp::Ne),
        "lt" => Ok(FilterOp::Lt),
        "le" => Ok(FilterOp::Le),
        "gt" => Ok(FilterOp::Gt),
        "ge" => Ok(FilterOp::Ge),
        _ => Err(RequestError::Shape),
    }
}

/// The right side of a comparison that a value is.
fn read_operand(alloc: Global, value: &Value) -> Result<Operand, RequestError>
    ensures ok { IfOk result (λ operand. operand_of_value (view value.now) ≡ Some operand) }
    ensures err { IfErr result (Refuses (operand_of_value (view value.now))) }
{
    match value.as_str() {
        Some(text) => Ok(Operand::Column(column_named(alloc, text)?)),
        None => Ok(Operand::Literal(read_literal(value)?)),
    }
}

/// The literal that a value is.
fn read_literal(value: &Value) -> Result<IntLiteral, RequestError>
    ensures ok { IfOk result (λ literal. literal_of_value (view value.now) ≡ Some literal) }
    ensures err { IfErr result (Refuses (literal_of_value (view value.now))) }
{
    let (name, number) = only_member(value)?;
    let dtype = type_named(name)?;
    let number = read_integer(dtype, number)?;
    literal_of(dtype, number).ok_or(RequestError::Shape)
}

/// A whole number with its type, where that is one of the eight integer types to 64 bits.
fn literal_of(dtype: DataType, number: i128) -> Option<IntLiteral>
    requires { IsWholeOf dtype number }
    ensures { result ≡ literal_of dtype number }
{
    match dtype {
        DataType::Int8 => Some(IntLiteral::I8(number as i8)),
        DataType::Int16 => Some(IntLiteral::I16(number as i16)),
        DataType::Int32 => Some(IntLiteral::I32(number as i32)),
        DataType::Int64 => Some(IntLiteral::I64(number as i64)),
        DataType::UInt8 => Some(IntLiteral::U8(number as u8)),
        DataType::UInt16 => Some(IntLiteral::U16(number as u16)),
        DataType::UInt32 => Some(IntLiteral::U32(number as u32)),
        DataType::UInt64 => Some(IntLiteral::U64(number as u64)),
        _ => None,
    }
}
