//! Each type: what its least and greatest values give, and sums past the greatest value.
use crate::columns::{are_values, column};
use crate::groups::reduced;
use col_core::{DataType, LeafRef, Series, TimeUnit};
use reduce_model::ReductionKind;
use std::alloc::{AllocError, Global};

/// Whether a kind gives these values for four groups, of which the first takes the first value, the
/// second the second, third and fifth, the third the fourth, and the last none.
fn gives(
    alloc: Global,
    kind: ReductionKind,
    values: &Series,
    wanted: &[LeafRef<'_>; 4],
) -> Result<bool, AllocError> {
    Ok(are_values(&reduced(alloc, kind, values)?, wanted))
}

/// A type, its least value and its greatest. Of texts and bytes the greatest is one that is greater.
type Ends = (DataType, LeafRef<'static>, LeafRef<'static>);

const ENDS: [Ends; 17] = [
    (DataType::Boolean, LeafRef::Bool(false), LeafRef::Bool(true)),
    (DataType::Int8, LeafRef::Whole(-128), LeafRef::Whole(127)),
    (
        DataType::Int16,
        LeafRef::Whole(-32768),
        LeafRef::Whole(32767),
    ),
    (
        DataType::Int32,
        LeafRef::Whole(-2147483648),
        LeafRef::Whole(2147483647),
    ),
    (
        DataType::Int64,
        LeafRef::Whole(-9223372036854775808),
        LeafRef::Whole(9223372036854775807),
    ),
    (DataType::UInt8, LeafRef::Whole(0), LeafRef::Whole(255)),
    (DataType::UInt16, LeafRef::Whole(0), LeafRef::Whole(65535)),
    (
        DataType::UInt32,
        LeafRef::Whole(0),
        LeafRef::Whole(4294967295),
    ),
    (
        DataType::UInt64,
        LeafRef::Whole(0),
        LeafRef::Whole(18446744073709551615),
    ),
    (
        DataType::Int128,
        LeafRef::Whole(i128::MIN),
        LeafRef::Whole(i128::MAX),
    ),
    (
        DataType::Decimal(38, 2),
        LeafRef::Whole(i128::MIN),
        LeafRef::Whole(i128::MAX),
    ),
    (
        DataType::Date,
        LeafRef::Whole(-2147483648),
        LeafRef::Whole(2147483647),
    ),
    (
        DataType::Time,
        LeafRef::Whole(-9223372036854775808),
        LeafRef::Whole(9223372036854775807),
    ),
    (
        DataType::Datetime(TimeUnit::Milliseconds),
        LeafRef::Whole(-9223372036854775808),
        LeafRef::Whole(9223372036854775807),
    ),
    (
        DataType::Duration(TimeUnit::Nanoseconds),
        LeafRef::Whole(-9223372036854775808),
        LeafRef::Whole(9223372036854775807),
    ),
    (
        DataType::String,
        LeafRef::Bytes(b""),
        LeafRef::Bytes(b"\xf4\x8f\xbf\xbf"),
    ),
    (
        DataType::Binary,
        LeafRef::Bytes(b""),
        LeafRef::Bytes(b"\xff\xff"),
    ),
];

const NULL: LeafRef<'static> = LeafRef::Null;

/// Whether least and greatest pass over nulls, and first and last do not.
fn are_ends(alloc: Global, ends: &Ends) -> Result<bool, AllocError> {
    let (least, greatest) = (ends.1, ends.2);
    let values = column(alloc, ends.0, &[greatest, least, greatest, NULL, NULL])?;
    let by_least = [greatest, least, NULL, NULL];
    let by_greatest = [greatest, greatest, NULL, NULL];
    let by_last = [greatest, NULL, NULL, NULL];
    Ok(
        gives(alloc, ReductionKind::Min, &values, &by_least)?
            && gives(alloc, ReductionKind::First, &values, &by_least)?
            && gives(alloc, ReductionKind::Max, &values, &by_greatest)?
            && gives(alloc, ReductionKind::Last, &values, &by_last)?,
    )
}

#[test]
fn ends_of_each_type(rt: HostRuntime) -> Result<(), AllocError> {
    for ends in &ENDS {
        assert!(rt; are_ends(rt.alloc(), ends)?);
    }
    Ok(())
}

/// A type, its greatest value, and the sum of this and 1.
type Past = (DataType, i128, i128);

const PAST: [Past; 10] = [
    (DataType::Int8, 127, 128),
    (DataType::Int16, 32767, 32768),
    (DataType::Int32, 2147483647, -2147483648),
    (DataType::Int64, 9223372036854775807, -9223372036854775808),
    (DataType::UInt8, 255, 256),
    (DataType::UInt16, 65535, 65536),
    (DataType::UInt32, 4294967295, 0),
    (DataType::UInt64, 18446744073709551615, 0),
    (DataType::Decimal(38, 2), i128::MAX, i128::MIN),
    (
        DataType::Duration(TimeUnit::Nanoseconds),
        9223372036854775807,
        -9223372036854775808,
    ),
];

/// Whether a sum past the greatest value of a type is as wanted: wide enough, or wrapped.
fn is_past(alloc: Global, past: &Past) -> Result<bool, AllocError> {
    let greatest = LeafRef::Whole(past.1);
    let values = column(
        alloc,
        past.0,
        &[greatest, greatest, LeafRef::Whole(1), NULL, NULL],
    )?;
    let wanted = [
        greatest,
        LeafRef::Whole(past.2),
        LeafRef::Whole(0),
        LeafRef::Whole(0),
    ];
    gives(alloc, ReductionKind::Sum, &values, &wanted)
}

#[test]
fn sums_past_the_greatest(rt: HostRuntime) -> Result<(), AllocError> {
    for past in &PAST {
        assert!(rt; is_past(rt.alloc(), past)?);
    }
    Ok(())
}
