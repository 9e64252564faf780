//! The bytes of values at the ends of their types, and of rows.
ghost use Rattle.std.specs.Prelude.{IsTrue};
ghost use Rattle.col_core.specs.Values.{Fits};
ghost use Rattle.col_core.specs.Lent.{lent_leaf};
ghost use Rattle.row_code.specs.Spelling.{IsSpelling};

use col_core::{
    BinaryArray, ColumnBuilder, DataType, Field, Frame, LeafRef, Name, Schema, Series, TimeUnit,
};
use row_code::{RowDecoder, encode_columns, encode_rows, row_length};
use std::alloc::{AllocError, Global};

/// A column of one value.
fn one_value(alloc: Global, dtype: DataType, value: LeafRef<'_>) -> Result<Series, AllocError>
    requires { Fits dtype (lent_leaf value) }
{
    let mut built = ColumnBuilder::new(alloc, dtype);
    built.push_ref(value)?;
    built.finish(alloc, Name::new(alloc, "n")?)
}

/// A schema of fields of types.
fn fields(alloc: Global, dtypes: &[DataType]) -> Result<Schema, AllocError> {
    let mut fields = Vec::new(alloc);
    for dtype in dtypes {
        fields.push(Field {
            name: Name::new(alloc, "n")?,
            dtype: *dtype,
        })?;
    }
    Ok(Schema::from_fields(fields))
}

/// Whether an array has these bytes alone, present.
fn are_bytes(array: &BinaryArray, rows: &[&[u8]]) -> bool {
    if array.len() != rows.len() {
        return false;
    }
    for (i, row) in rows.iter().enumerate() {
        if array.get(i) != Some(*row) {
            return false;
        }
    }
    true
}

/// Whether a value is spelled by these bytes.
fn is_spelled(
    alloc: Global,
    dtype: DataType,
    value: LeafRef<'_>,
    bytes: &[u8],
) -> Result<bool, AllocError> {
    if !value.fits(dtype) {
        return Ok(false);
    }
    let columns = [one_value(alloc, dtype, value)?];
    Ok(are_bytes(&encode_rows(alloc, &columns)?, &[bytes]))
}

/// Whether bytes spell a row of a schema.
fn is_row(schema: &Schema, bytes: &[u8]) -> bool
    ensures { IsTrue result → IsSpelling schema.now bytes.now }
{
    match row_length(schema, bytes) {
        Some(n) => n == bytes.len(),
        None => false,
    }
}

/// Whether these bytes are read as the row of one value.
fn is_read(
    alloc: Global,
    dtype: DataType,
    value: LeafRef<'_>,
    bytes: &[u8],
) -> Result<bool, AllocError> {
    let schema = fields(alloc, &[dtype])?;
    if !is_row(&schema, bytes) {
        return Ok(false);
    }
    let mut rows = RowDecoder::new(alloc, &schema)?;
    rows.push_row(bytes)?;
    Ok(has_value(&rows.finish(alloc)?, value))
}

/// Whether a frame has one row, whose first value is this.
fn has_value(frame: &Frame, value: LeafRef<'_>) -> bool {
    match frame.columns() {
        [column, ..] => column.len() == 1 && column.leaf_ref(0).is_same(value),
        [] => false,
    }
}

/// Whether a whole number is spelled by a one and these bytes, and is read from them.
fn is_number(alloc: Global, dtype: DataType, z: i128, bytes: &[u8]) -> Result<bool, AllocError> {
    let value = LeafRef::Whole(z);
    let mut all = vec![in alloc; 1u8]?;
    all.extend_from_slice(bytes)?;
    Ok(is_spelled(alloc, dtype, value, &all)? && is_read(alloc, dtype, value, &all)?)
}

/// Whole numbers at the ends of their types, and their bytes, the lowest first.
const NUMBERS_OF_TYPES: [(DataType, i128, &[u8]); 15] = [
    (DataType::Int8, -128, b"\x80"),
    (DataType::Int16, -32768, b"\x00\x80"),
    (DataType::Int16, 32767, b"\xff\x7f"),
    (DataType::Int32, -2147483648, b"\x00\x00\x00\x80"),
    (
        DataType::Int64,
        9223372036854775807,
        b"\xff\xff\xff\xff\xff\xff\xff\x7f",
    ),
    (DataType::UInt8, 255, b"\xff"),
    (DataType::UInt16, 258, b"\x02\x01"),
    (DataType::UInt32, 4294967295, b"\xff\xff\xff\xff"),
    (
        DataType::UInt64,
        18446744073709551615,
        b"\xff\xff\xff\xff\xff\xff\xff\xff",
    ),
    (
        DataType::Int128,
        i128::MIN,
        b"\x00\x00\x00\x00\x00\x00\x00\x00\x00\x00\x00\x00\x00\x00\x00\x80",
    ),
    (
        DataType::Decimal(38, 2),
        i128::MAX,
        b"\xff\xff\xff\xff\xff\xff\xff\xff\xff\xff\xff\xff\xff\xff\xff\x7f",
    ),
    (DataType::Date, 2147483647, b"\xff\xff\xff\x7f"),
    (DataType::Time, -1, b"\xff\xff\xff\xff\xff\xff\xff\xff"),
    (
        DataType::Datetime(TimeUnit::Milliseconds),
        1,
        b"\x01\x00\x00\x00\x00\x00\x00\x00",
    ),
    (
        DataType::Duration(TimeUnit::Nanoseconds),
        -2,
        b"\xfe\xff\xff\xff\xff\xff\xff\xff",
    ),
];

#[test]
fn numbers(rt: HostRuntime) -> Result<(), AllocError> {
    for (dtype, z, bytes) in NUMBERS_OF_TYPES {
        assert!(rt; is_number(rt.alloc(), dtype, z, bytes)?);
    }
    Ok(())
}

/// Whether a value is spelled by these bytes, and is read from them.
fn is_value(
    alloc: Global,
    dtype: DataType,
    value: LeafRef<'_>,
    bytes: &[u8],
) -> Result<bool, AllocError> {
    Ok(is_spelled(alloc, dtype, value, bytes)? && is_read(alloc, dtype, value, bytes)?)
}

#[test]
fn truths_nulls_and_texts(rt: HostRuntime) -> Result<(), AllocError> {
    let cases: [(DataType, LeafRef<'_>, &[u8]); 7] = [
        (DataType::Boolean, LeafRef::Bool(false), b"\x01\x00"),
        (DataType::Boolean, LeafRef::Bool(true), b"\x01\x01"),
        (DataType::Boolean, LeafRef::Null, b"\x00"),
        (DataType::Int64, LeafRef::Null, b"\x00"),
        (
            DataType::String,
            LeafRef::Bytes(b""),
            b"\x01\x00\x00\x00\x00\x00\x00\x00\x00",
        ),
        (
            DataType::String,
            LeafRef::Bytes(b"ab"),
            b"\x01\x02\x00\x00\x00\x00\x00\x00\x00ab",
        ),
        (
            DataType::Binary,
            LeafRef::Bytes(b"\xff"),
            b"\x01\x01\x00\x00\x00\x00\x00\x00\x00\xff",
        ),
    ];
    for (dtype, value, bytes) in cases {
        assert!(rt; is_value(rt.alloc(), dtype, value, bytes)?);
    }
    Ok(())
}

#[test]
fn fronts_of_bytes(rt: HostRuntime) -> Result<(), AllocError> {
    // A type, bytes, and how many of these spell a row of the type.
    let cases: [(DataType, &[u8], Option<usize>); 8] = [
        (DataType::Boolean, b"\x01\x02", None),
        (DataType::Boolean, b"\x01\x01\x07", Some(2)),
        (DataType::Boolean, b"", None),
        (DataType::Boolean, b"\x02", None),
        (DataType::Int16, b"\x01\x05", None),
        (
            DataType::String,
            b"\x01\x02\x00\x00\x00\x00\x00\x00\x00a",
            None,
        ),
        (
            DataType::String,
            b"\x01\x01\x00\x00\x00\x00\x00\x00\x00\xff",
            None,
        ),
        (
            DataType::Binary,
            b"\x01\x01\x00\x00\x00\x00\x00\x00\x00\xff",
            Some(10),
        ),
    ];
    for (dtype, bytes, wanted) in cases {
        let schema = fields(rt.alloc(), &[dtype])?;
        assert!(rt; row_length(&schema, bytes) == wanted);
    }
    Ok(())
}

/// A column of values, of which those that do not fit the type are left out.
fn column(alloc: Global, dtype: DataType, values: &[LeafRef<'_>]) -> Result<Series, AllocError> {
    let mut built = ColumnBuilder::new(alloc, dtype);
    for value in values {
        if value.fits(dtype) {
            built.push_ref(*value)?;
        }
    }
    built.finish(alloc, Name::new(alloc, "n")?)
}

/// Whether a column has these values.
fn has_values(column: &Series, values: &[LeafRef<'_>]) -> bool {
    if column.len() != values.len() {
        return false;
    }
    for (i, value) in values.iter().enumerate() {
        if !column.leaf_ref(i).is_same(*value) {
            return false;
        }
    }
    true
}

const NUMBERS: [LeafRef<'static>; 2] = [LeafRef::Whole(5), LeafRef::Null];

const TEXTS: [LeafRef<'static>; 2] = [LeafRef::Bytes(b"ab"), LeafRef::Bytes(b"")];

/// The rows 5, "ab" and null, "" of a 16-bit integer and a text.
fn two_rows(alloc: Global) -> Result<Option<Frame>, AllocError> {
    let schema = fields(alloc, &[DataType::Int16, DataType::String])?;
    let numbers = column(alloc, DataType::Int16, &NUMBERS)?;
    let texts = column(alloc, DataType::String, &TEXTS)?;
    Ok(Frame::new(alloc, schema, vec![in alloc; numbers, texts]?).ok())
}

/// Whether these two rows are spelled by bytes.
fn are_spelled(alloc: Global, rows: &[&[u8]]) -> Result<bool, AllocError> {
    let Some(frame) = two_rows(alloc)? else {
        return Ok(false);
    };
    if frame.schema().len() != 2 {
        return Ok(false);
    }
    Ok(are_bytes(&encode_columns(alloc, &frame, &[0, 1])?, rows))
}

/// A decoder that took those of some bytes that are rows of a schema.
fn decoder_of(alloc: Global, schema: &Schema, rows: &[&[u8]]) -> Result<RowDecoder, AllocError> {
    let mut read = RowDecoder::new(alloc, schema)?;
    for bytes in rows {
        if is_row(schema, bytes) {
            read.push_row(bytes)?;
        }
    }
    Ok(read)
}

/// Whether these two rows are read from bytes.
fn are_read(alloc: Global, rows: &[&[u8]]) -> Result<bool, AllocError> {
    let schema = fields(alloc, &[DataType::Int16, DataType::String])?;
    let frame = decoder_of(alloc, &schema, rows)?.finish(alloc)?;
    match frame.columns() {
        [numbers, texts] => Ok(has_values(numbers, &NUMBERS) && has_values(texts, &TEXTS)),
        _ => Ok(false),
    }
}

#[test]
fn rows_of_two_columns(rt: HostRuntime) -> Result<(), AllocError> {
    let first: &[u8] = b"\x01\x05\x00\x01\x02\x00\x00\x00\x00\x00\x00\x00ab";
    let second: &[u8] = b"\x00\x01\x00\x00\x00\x00\x00\x00\x00\x00";
    assert!(rt; are_spelled(rt.alloc(), &[first, second])?);
    assert!(rt; are_read(rt.alloc(), &[first, second])?);
    let schema = fields(rt.alloc(), &[DataType::Int16, DataType::String])?;
    assert!(rt; row_length(&schema, &first[..13]).is_none());
    Ok(())
}
