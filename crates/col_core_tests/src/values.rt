//! Columns of values of every type.
use col_core::{ColumnBuilder, DataType, LeafRef, Name, Series, TimeUnit};
use std::alloc::{AllocError, Global};
use std::process::Abort;

/// A column of values.
pub fn column_of(
    rt: &impl Abort,
    alloc: Global,
    dtype: DataType,
    values: &[LeafRef<'_>],
) -> Result<Series, AllocError> {
    let mut built = ColumnBuilder::new(alloc, dtype);
    for value in values {
        assert!(rt; value.fits(built.dtype()));
        built.push_ref(*value)?;
    }
    built.finish(alloc, Name::new(alloc, "n")?)
}

/// Compares each value of a column with the one that is wanted.
pub fn expect_values(rt: &impl Abort, column: &Series, wanted: &[LeafRef<'_>]) {
    assert!(rt; column.len() == wanted.len());
    for (i, value) in wanted.iter().enumerate() {
        assert!(rt; column.leaf_ref(i).is_same(*value));
    }
}

/// Types, each with two values: the least and the greatest, where there are such.
const VALUES: [(DataType, LeafRef<'static>, LeafRef<'static>); 17] = [
    (DataType::Int8, LeafRef::Whole(-128), LeafRef::Whole(127)),
    (
        DataType::Int16,
        LeafRef::Whole(-32768),
        LeafRef::Whole(32767),
    ),
    (
        DataType::Int32,
        LeafRef::Whole(-2147483648),
        LeafRef::Whole(2147483647),
    ),
    (
        DataType::Int64,
        LeafRef::Whole(-9223372036854775808),
        LeafRef::Whole(9223372036854775807),
    ),
    (DataType::UInt8, LeafRef::Whole(0), LeafRef::Whole(255)),
    (DataType::UInt16, LeafRef::Whole(0), LeafRef::Whole(65535)),
    (
        DataType::UInt32,
        LeafRef::Whole(0),
        LeafRef::Whole(4294967295),
    ),
    (
        DataType::UInt64,
        LeafRef::Whole(0),
        LeafRef::Whole(18446744073709551615),
    ),
    (
        DataType::Int128,
        LeafRef::Whole(i128::MIN),
        LeafRef::Whole(i128::MAX),
    ),
    (
        DataType::Decimal(5, 2),
        LeafRef::Whole(i128::MIN),
        LeafRef::Whole(i128::MAX),
    ),
    (
        DataType::Date,
        LeafRef::Whole(-2147483648),
        LeafRef::Whole(2147483647),
    ),
    (
        DataType::Time,
        LeafRef::Whole(-1),
        LeafRef::Whole(9223372036854775807),
    ),
    (
        DataType::Datetime(TimeUnit::Nanoseconds),
        LeafRef::Whole(-1),
        LeafRef::Whole(1),
    ),
    (
        DataType::Duration(TimeUnit::Milliseconds),
        LeafRef::Whole(-1),
        LeafRef::Whole(1),
    ),
    (DataType::Boolean, LeafRef::Bool(false), LeafRef::Bool(true)),
    (
        DataType::Binary,
        LeafRef::Bytes(b""),
        LeafRef::Bytes(b"\xff"),
    ),
    (
        DataType::String,
        LeafRef::Bytes(b""),
        LeafRef::Bytes(b"\xc3\xa9"),
    ),
];

fn expect_kept(
    rt: &impl Abort,
    alloc: Global,
    dtype: DataType,
    values: &[LeafRef<'_>],
) -> Result<(), AllocError> {
    expect_values(rt, &column_of(rt, alloc, dtype, values)?, values);
    Ok(())
}

#[test]
fn each_type(rt: HostRuntime) -> Result<(), AllocError> {
    for (dtype, first, second) in VALUES {
        expect_kept(&rt, rt.alloc(), dtype, &[first, LeafRef::Null, second])?;
    }
    Ok(())
}

/// Types, and values that are none of theirs.
const OTHERS: [(DataType, LeafRef<'static>); 8] = [
    (DataType::Int8, LeafRef::Whole(128)),
    (DataType::UInt16, LeafRef::Whole(-1)),
    (DataType::UInt64, LeafRef::Whole(18446744073709551616)),
    (DataType::Date, LeafRef::Whole(2147483648)),
    (DataType::Boolean, LeafRef::Whole(0)),
    (DataType::Int64, LeafRef::Bool(true)),
    (DataType::String, LeafRef::Bytes(b"\xff")),
    (DataType::Int64, LeafRef::Bytes(b"1")),
];

#[test]
fn other_values(rt: HostRuntime) {
    for (dtype, value) in OTHERS {
        assert!(rt; !value.fits(dtype));
    }
}
