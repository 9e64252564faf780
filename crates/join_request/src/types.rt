//! The types of columns, by their texts.
ghost use Rattle.std.specs.Prelude.{◌≡◌, IfOk, IfErr, Some, option_map, codes};
ghost use Rattle.join_request.specs.Types.{type_of_text, decimal_of_text, without_back, bracketed, comma_parts, small_number};
ghost use Rattle.join_request.specs.Refused.{Refuses};

use crate::error::RequestError;
use col_core::{DataType, TimeUnit};

/// The type that a text names.
pub fn type_named(text: &str) -> Result<DataType, RequestError>
    ensures ok { IfOk result (λ dtype. type_of_text text.now ≡ Some dtype) }
    ensures err { IfErr result (Refuses (type_of_text text.now)) }
{
    match text {
        "Boolean" => Ok(DataType::Boolean),
        "Int8" => Ok(DataType::Int8),
        "Int16" => Ok(DataType::Int16),
        "Int32" => Ok(DataType::Int32),
        "Int64" => Ok(DataType::Int64),
        "UInt8" => Ok(DataType::UInt8),
        "UInt16" => Ok(DataType::UInt16),
        "UInt32" => Ok(DataType::UInt32),
        "UInt64" => Ok(DataType::UInt64),
        "Int128" => Ok(DataType::Int128),
        "Date" => Ok(DataType::Date),
        "Time" => Ok(DataType::Time),
        "Datetime(ms)" => Ok(DataType::Datetime(TimeUnit::Milliseconds)),
        "Datetime(us)" => Ok(DataType::Datetime(TimeUnit::Microseconds)),
        "Datetime(ns)" => Ok(DataType::Datetime(TimeUnit::Nanoseconds)),
        "Duration(ms)" => Ok(DataType::Duration(TimeUnit::Milliseconds)),
        "Duration(us)" => Ok(DataType::Duration(TimeUnit::Microseconds)),
        "Duration(ns)" => Ok(DataType::Duration(TimeUnit::Nanoseconds)),
        "String" => Ok(DataType::String),
        "Binary" => Ok(DataType::Binary),
        _ => decimal_named(text).ok_or(RequestError::Shape),
    }
}

/// The decimal type that a text names, as `Decimal(10,2)`.
fn decimal_named(text: &str) -> Option<DataType>
    ensures { result ≡ decimal_of_text text.now }
{
    let (precision, scale) = comma_parts(bracketed(text)?)?;
    let precision = small_number(precision.as_bytes())?;
    let scale = small_number(scale.as_bytes())?;
    if 1 <= precision && precision <= 38 && scale <= precision {
        Some(DataType::Decimal(precision, scale))
    } else {
        None
    }
}

/// What stands in the brackets of a decimal type.
fn bracketed(text: &str) -> Option<&str>
    ensures { option_map (λ inner. inner.now) result ≡ bracketed text.now }
{
    without_bracket(text.strip_prefix("Decimal(")?)
}

/// A text without the bracket at its end.
fn without_bracket(text: &str) -> Option<&str>
    ensures { option_map (λ front. front.now) result ≡ without_back (codes ")") text.now }
{
    text.strip_suffix(")")
}

/// What stands before the first comma and after it.
fn comma_parts(text: &str) -> Option<(&str, &str)>
    ensures { option_map (λ parts. (parts.0.now, parts.1.now)) result ≡ comma_parts text.now }
{
    text.split_once(',')
}

/// The whole number below 100 that decimal digits write, without a leading zero.
fn small_number(digits: &[u8]) -> Option<u8>
    ensures { result ≡ small_number digits.now }
{
    match digits {
        [ones @ b'0'..=b'9'] => Some(*ones - b'0'),
        [tens @ b'1'..=b'9', ones @ b'0'..=b'9'] => Some((*tens - b'0') * 10 + (*ones - b'0')),
        _ => None,
    }
}
