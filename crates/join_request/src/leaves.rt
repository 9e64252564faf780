//! Values of columns, read from JSON values. How the values of a type are read is chosen once a column.
ghost use Rattle.std.specs.Prelude.{◌≡◌, ◌≤ℤ◌, IfOk, IfErr, OnOk, Some, option_map, is_some, true};
ghost use Rattle.std.specs.Char.{is_ascii_digit};
ghost use Rattle.std.specs.List.{list_all};
ghost use Rattle.serde_json.specs.View.{view};
ghost use Rattle.col_core.specs.declared.data_type.DataType.{DataType};
ghost use Rattle.col_core.specs.declared.data_type.DataType.TheVariants.{Boolean, String, Binary};
ghost use Rattle.col_core.specs.Lent.{lent_leaf};
ghost use Rattle.col_core.specs.Values.{Fits, AreBytesOf, IsWholeOf};
ghost use Rattle.join_request.specs.Columns.{grown};
ghost use Rattle.join_request.specs.Leaves.{range_of, integer_in, integer_of_value, without_minus, is_whole_text, whole_of_text, whole_of_value, bytes_of_text, leaf_of_value};
ghost use Rattle.join_request.specs.Refused.{Refuses};

use crate::error::RequestError;
use crate::json::read_text;
use col_core::{ColumnBuilder, DataType, LeafRef};
use hex::FromHexError;
use serde_json::{Number, Value};
use std::alloc::Global;

/// How the values of a type are read.
pub trait ReadLeaf {
    ghost dtype: { Self → DataType };

    /// Appends to a column the value that a JSON value is.
    fn read_leaf(
        &self,
        alloc: Global,
        value: &Value,
        column: &mut ColumnBuilder,
    ) -> Result<(), RequestError>
        requires { column.old.dtype ≡ dtype self.now }
        ensures ok { OnOk result
            (option_map (grown column.old) (leaf_of_value (dtype self.now) (view value.now))
            ≡ Some column.new) }
        ensures err { IfErr result (Refuses (leaf_of_value (dtype self.now) (view value.now))) };
}

/// Truth values.
#[derive(Clone, Copy, Debug)]
pub struct Truths;

impl ReadLeaf for Truths {
    ghost use Rattle.col_core.specs.declared.data_type.DataType.TheVariants.{Boolean};

    ghost dtype = { λ _. Boolean };

    fn read_leaf(
        &self,
        _alloc: Global,
        value: &Value,
        column: &mut ColumnBuilder,
    ) -> Result<(), RequestError> {
        column.push_ref(truth_of(value)?)?;
        Ok(())
    }
}

fn truth_of(value: &Value) -> Result<LeafRef<'_>, RequestError>
    ensures ok { IfOk result
        (λ leaf. leaf_of_value Boolean (view value.now) ≡ Some (lent_leaf leaf)) }
    ensures err { IfErr result (Refuses (leaf_of_value Boolean (view value.now))) }
    ensures fits { IfOk result (λ leaf. Fits Boolean (lent_leaf leaf)) }
{
    if value.is_null() {
        return Ok(LeafRef::Null);
    }
    match value.as_bool() {
        Some(truth) => Ok(LeafRef::Bool(truth)),
        None => Err(RequestError::Shape),
    }
}

/// Texts.
#[derive(Clone, Copy, Debug)]
pub struct Texts;

impl ReadLeaf for Texts {
    ghost use Rattle.col_core.specs.declared.data_type.DataType.TheVariants.{String};

    ghost dtype = { λ _. String };

    fn read_leaf(
        &self,
        _alloc: Global,
        value: &Value,
        column: &mut ColumnBuilder,
    ) -> Result<(), RequestError> {
        column.push_ref(text_of(value)?)?;
        Ok(())
    }
}

fn text_of(value: &Value) -> Result<LeafRef<'_>, RequestError>
    ensures ok { IfOk result
        (λ leaf. leaf_of_value String (view value.now) ≡ Some (lent_leaf leaf)) }
    ensures err { IfErr result (Refuses (leaf_of_value String (view value.now))) }
    ensures fits { IfOk result (λ leaf. Fits String (lent_leaf leaf)) }
{
    if value.is_null() {
        return Ok(LeafRef::Null);
    }
    let text = read_text(value)?;
    Ok(LeafRef::Bytes(small_bytes(text.as_bytes())))
}

/// Bytes, as texts of hexadecimal digits in either case.
#[derive(Clone, Copy, Debug)]
pub struct HexTexts;

impl ReadLeaf for HexTexts {
    ghost use Rattle.col_core.specs.declared.data_type.DataType.TheVariants.{Binary};

    ghost dtype = { λ _. Binary };

    fn read_leaf(
        &self,
        alloc: Global,
        value: &Value,
        column: &mut ColumnBuilder,
    ) -> Result<(), RequestError> {
        if value.is_null() {
            column.push_ref(LeafRef::Null)?;
            return Ok(());
        }
        let bytes = bytes_of_text(alloc, read_text(value)?)?;
        column.push_ref(LeafRef::Bytes(small_bytes(bytes.as_slice())))?;
        Ok(())
    }
}

/// Whole numbers of a type, with the least and the greatest of them.
#[derive(Clone, Copy, Debug)]
pub struct Wholes {
    dtype: DataType,
    least: i128,
    greatest: i128,
    ghost is_range: { range_of dtype ≡ Some (least, greatest) },
}

impl Wholes {
    /// Those of a type of whole numbers.
    pub fn of(dtype: DataType) -> Wholes
        requires { is_some (range_of dtype) ≡ true }
        ensures { result.dtype ≡ dtype }
    {
        let (least, greatest) = range_of(dtype).unwrap();
        Wholes {
            dtype,
            least,
            greatest,
        }
    }

    #[tactic(auto, using(crate::proofs::Ranges::wholes))]
    fn leaf_of(self, value: &Value) -> Result<LeafRef<'_>, RequestError>
        ensures ok { IfOk result
            (λ leaf. leaf_of_value self.dtype (view value.now) ≡ Some (lent_leaf leaf)) }
        ensures err { IfErr result (Refuses (leaf_of_value self.dtype (view value.now))) }
        ensures fits { IfOk result (λ leaf. Fits self.dtype (lent_leaf leaf)) }
    {
        if value.is_null() {
            return Ok(LeafRef::Null);
        }
        Ok(LeafRef::Whole(self.whole_of(value)?))
    }

    // A JSON integer, and at 128 bits also a text.
    fn whole_of(self, value: &Value) -> Result<i128, RequestError>
        ensures ok { IfOk result (λ z. whole_of_value self.dtype (view value.now) ≡ Some z) }
        ensures err { IfErr result (Refuses (whole_of_value self.dtype (view value.now))) }
        ensures fits { IfOk result (IsWholeOf self.dtype) }
    {
        match (self.dtype, value) {
            (DataType::Int128 | DataType::Decimal(_, _), Value::String(text)) => {
                whole_of_text(text.as_str())
            }
            _ => self.integer_of(value),
        }
    }

    #[tactic(auto, using(crate::proofs::Ranges::integers))]
    fn integer_of(self, value: &Value) -> Result<i128, RequestError>
        ensures ok { IfOk result (λ z. integer_of_value self.dtype (view value.now) ≡ Some z) }
        ensures err { IfErr result (Refuses (integer_of_value self.dtype (view value.now))) }
        ensures fits { IfOk result (IsWholeOf self.dtype) }
    {
        integer_between(self.least, self.greatest, value)
    }
}

impl ReadLeaf for Wholes {
    ghost dtype = { λ wholes. wholes.dtype };

    fn read_leaf(
        &self,
        _alloc: Global,
        value: &Value,
        column: &mut ColumnBuilder,
    ) -> Result<(), RequestError> {
        column.push_ref(self.leaf_of(value)?)?;
        Ok(())
    }
}

/// The JSON integer of a type that a value is.
#[tactic(auto, using(crate::proofs::Ranges::integers))]
pub fn read_integer(dtype: DataType, value: &Value) -> Result<i128, RequestError>
    ensures ok { IfOk result (λ z. integer_of_value dtype (view value.now) ≡ Some z) }
    ensures err { IfErr result (Refuses (integer_of_value dtype (view value.now))) }
    ensures fits { IfOk result (IsWholeOf dtype) }
{
    match range_of(dtype) {
        Some((least, greatest)) => integer_between(least, greatest, value),
        None => Err(RequestError::Shape),
    }
}

/// The JSON integer from the least to the greatest that a value is.
fn integer_between(least: i128, greatest: i128, value: &Value) -> Result<i128, RequestError>
    ensures ok { IfOk result (λ z. integer_in (least, greatest) (view value.now) ≡ Some z) }
    ensures err { IfErr result (Refuses (integer_in (least, greatest) (view value.now))) }
    ensures between { IfOk result (λ z. (least ≤ℤ z) × (z ≤ℤ greatest)) }
{
    let number = value
        .as_number()
        .and_then(Number::as_i128)
        .ok_or(RequestError::Shape)?;
    if least <= number && number <= greatest {
        Ok(number)
    } else {
        Err(RequestError::Shape)
    }
}

/// The same bytes, which are numbers below 2^8.
#[inline(always)]
#[tactic(auto, using(col_core::proofs::Bytes::are_bytes))]
fn small_bytes(bytes: &[u8]) -> &[u8]
    ensures same { result.now ≡ bytes.now }
    ensures small { AreBytesOf Binary result.now }
{
    bytes
}

/// The bytes that hexadecimal digits in either case write.
fn bytes_of_text(alloc: Global, text: &str) -> Result<Vec<u8>, RequestError>
    ensures ok { IfOk result (λ bytes. bytes_of_text text.now ≡ Some bytes.items) }
    ensures err { IfErr result (Refuses (bytes_of_text text.now)) }
{
    match hex::decode(alloc, text) {
        Ok(bytes) => Ok(bytes),
        Err(FromHexError::OutOfMemory) => Err(RequestError::Memory),
        Err(_) => Err(RequestError::Shape),
    }
}

/// The least and the greatest whole number of a type, where its values are whole numbers.
fn range_of(dtype: DataType) -> Option<(i128, i128)>
    ensures { result ≡ range_of dtype }
{
    match dtype {
        DataType::Int8 => Some((i128::from(i8::MIN), i128::from(i8::MAX))),
        DataType::Int16 => Some((i128::from(i16::MIN), i128::from(i16::MAX))),
        DataType::Int32 | DataType::Date => Some((i128::from(i32::MIN), i128::from(i32::MAX))),
        DataType::Int64 | DataType::Time | DataType::Datetime(_) | DataType::Duration(_) => {
            Some((i128::from(i64::MIN), i128::from(i64::MAX)))
        }
        DataType::UInt8 => Some((0, i128::from(u8::MAX))),
        DataType::UInt16 => Some((0, i128::from(u16::MAX))),
        DataType::UInt32 => Some((0, i128::from(u32::MAX))),
        DataType::UInt64 => Some((0, i128::from(u64::MAX))),
        DataType::Int128 | DataType::Decimal(_, _) => Some((i128::MIN, i128::MAX)),
        DataType::Boolean | DataType::String | DataType::Binary => None,
    }
}

/// The whole number of 128 bits that a text writes.
fn whole_of_text(text: &str) -> Result<i128, RequestError>
    ensures ok { IfOk result (λ z. whole_of_text text.now ≡ Some z) }
    ensures err { IfErr result (Refuses (whole_of_text text.now)) }
{
    if !is_whole_text(text) {
        return Err(RequestError::Shape);
    }
    match text.parse() {
        Ok(number) => Ok(number),
        Err(_) => Err(RequestError::Shape),
    }
}

/// Whether a text is an optional `-` and 1 to 39 decimal digits.
fn is_whole_text(text: &str) -> bool
    ensures { result ≡ is_whole_text text.now }
{
    let digits = without_minus(text);
    are_digits(digits) && 1 <= digits.len() && digits.len() <= 39
}

fn are_digits(text: &str) -> bool
    ensures { result ≡ list_all is_ascii_digit text.now }
{
    text.bytes().all(|byte| byte.is_ascii_digit())
}

/// A text without the `-` that it may begin with.
fn without_minus(text: &str) -> &str
    ensures { result.now ≡ without_minus text.now }
{
    text.strip_prefix("-").unwrap_or(text)
}
