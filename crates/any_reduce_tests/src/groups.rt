//! Five values in four groups: what each kind of reduction gives.
ghost use Rattle.std.specs.Prelude.{◌≡◌, length};

use crate::columns::{are_values, column};
use any_reduce::new_reduction;
use col_core::{DataType, LeafRef, Series, TimeUnit};
use group_reduce::GroupedReduction;
use reduce_model::ReductionKind;
use std::alloc::{AllocError, Global};

/// What a reduction gives for four groups, the last one empty, of five values: the second, third and fifth are in group 1.
fn grouped<R: GroupedReduction>(
    alloc: Global,
    reduction: &mut R,
    values: &Series,
) -> Result<Series, AllocError>
    requires dtype { values.now.dtype ≡ (R.shape reduction.old).dtype }
    requires five { length values.now.values ≡ 5 }
{
    reduction.resize(4)?;
    reduction.update_groups(values, &[0, 1, 1, 2, 1], 0)?;
    reduction.finalize(alloc)
}

/// What a kind of reduction gives so.
pub fn reduced(alloc: Global, kind: ReductionKind, values: &Series) -> Result<Series, AllocError> {
    if values.len() != 5 {
        return Err(AllocError);
    }
    match new_reduction(alloc, kind, values.dtype()) {
        Ok(mut reduction) => grouped(alloc, &mut reduction, values),
        Err(_) => Err(AllocError),
    }
}

/// A kind, the type of the values, the values, the type of what is given, and this.
type Case<'a> = (
    ReductionKind,
    DataType,
    [LeafRef<'a>; 5],
    DataType,
    [LeafRef<'a>; 4],
);

/// Whether a case is so.
fn holds(alloc: Global, case: &Case<'_>) -> Result<bool, AllocError> {
    let values = column(alloc, case.1, &case.2)?;
    let given = reduced(alloc, case.0, &values)?;
    Ok(given.dtype() == case.3 && are_values(&given, &case.4))
}

const NULL: LeafRef<'static> = LeafRef::Null;

const SUMS: [Case<'static>; 4] = [
    (
        ReductionKind::Sum,
        DataType::Int8,
        [
            LeafRef::Whole(127),
            LeafRef::Whole(127),
            NULL,
            NULL,
            LeafRef::Whole(127),
        ],
        DataType::Int64,
        [
            LeafRef::Whole(127),
            LeafRef::Whole(254),
            LeafRef::Whole(0),
            LeafRef::Whole(0),
        ],
    ),
    (
        ReductionKind::Sum,
        DataType::UInt32,
        [
            LeafRef::Whole(7),
            LeafRef::Whole(4294967295),
            LeafRef::Whole(1),
            NULL,
            LeafRef::Whole(1),
        ],
        DataType::UInt32,
        [
            LeafRef::Whole(7),
            LeafRef::Whole(1),
            LeafRef::Whole(0),
            LeafRef::Whole(0),
        ],
    ),
    (
        ReductionKind::Sum,
        DataType::Decimal(1, 0),
        [
            LeafRef::Whole(7),
            LeafRef::Whole(9),
            LeafRef::Whole(1),
            NULL,
            NULL,
        ],
        DataType::Decimal(1, 0),
        [
            LeafRef::Whole(7),
            LeafRef::Whole(10),
            LeafRef::Whole(0),
            LeafRef::Whole(0),
        ],
    ),
    (
        ReductionKind::Sum,
        DataType::String,
        [LeafRef::Bytes(b"a"), NULL, NULL, NULL, NULL],
        DataType::String,
        [NULL, NULL, NULL, NULL],
    ),
];

#[test]
fn sums(rt: HostRuntime) -> Result<(), AllocError> {
    for case in &SUMS {
        assert!(rt; holds(rt.alloc(), case)?);
    }
    Ok(())
}

const ENDS: [Case<'static>; 5] = [
    (
        ReductionKind::Min,
        DataType::Int64,
        [
            LeafRef::Whole(3),
            LeafRef::Whole(-2),
            NULL,
            NULL,
            LeafRef::Whole(5),
        ],
        DataType::Int64,
        [LeafRef::Whole(3), LeafRef::Whole(-2), NULL, NULL],
    ),
    (
        ReductionKind::Max,
        DataType::Date,
        [
            LeafRef::Whole(-3),
            LeafRef::Whole(-2),
            NULL,
            NULL,
            LeafRef::Whole(-5),
        ],
        DataType::Date,
        [LeafRef::Whole(-3), LeafRef::Whole(-2), NULL, NULL],
    ),
    (
        ReductionKind::Min,
        DataType::Boolean,
        [
            LeafRef::Bool(true),
            LeafRef::Bool(true),
            LeafRef::Bool(false),
            NULL,
            NULL,
        ],
        DataType::Boolean,
        [LeafRef::Bool(true), LeafRef::Bool(false), NULL, NULL],
    ),
    (
        ReductionKind::Max,
        DataType::String,
        [
            LeafRef::Bytes(b""),
            LeafRef::Bytes(b"ab"),
            LeafRef::Bytes(b"b"),
            NULL,
            NULL,
        ],
        DataType::String,
        [LeafRef::Bytes(b""), LeafRef::Bytes(b"b"), NULL, NULL],
    ),
    (
        ReductionKind::Min,
        DataType::Int128,
        [
            LeafRef::Whole(i128::MAX),
            LeafRef::Whole(i128::MIN),
            LeafRef::Whole(0),
            NULL,
            LeafRef::Whole(1),
        ],
        DataType::Int128,
        [
            LeafRef::Whole(i128::MAX),
            LeafRef::Whole(i128::MIN),
            NULL,
            NULL,
        ],
    ),
];

#[test]
fn least_and_greatest(rt: HostRuntime) -> Result<(), AllocError> {
    for case in &ENDS {
        assert!(rt; holds(rt.alloc(), case)?);
    }
    Ok(())
}

const ENTRIES: [Case<'static>; 5] = [
    (
        ReductionKind::First,
        DataType::UInt8,
        [
            LeafRef::Whole(255),
            NULL,
            LeafRef::Whole(2),
            NULL,
            LeafRef::Whole(4),
        ],
        DataType::UInt8,
        [LeafRef::Whole(255), NULL, NULL, NULL],
    ),
    (
        ReductionKind::Last,
        DataType::UInt8,
        [
            LeafRef::Whole(255),
            NULL,
            LeafRef::Whole(2),
            NULL,
            LeafRef::Whole(4),
        ],
        DataType::UInt8,
        [LeafRef::Whole(255), LeafRef::Whole(4), NULL, NULL],
    ),
    (
        ReductionKind::First,
        DataType::Decimal(5, 2),
        [
            LeafRef::Whole(1),
            LeafRef::Whole(-2),
            LeafRef::Whole(3),
            NULL,
            NULL,
        ],
        DataType::Decimal(5, 2),
        [LeafRef::Whole(1), LeafRef::Whole(-2), NULL, NULL],
    ),
    (
        ReductionKind::Last,
        DataType::Binary,
        [
            NULL,
            LeafRef::Bytes(b"a"),
            LeafRef::Bytes(b"\xff"),
            LeafRef::Bytes(b"z"),
            LeafRef::Bytes(b""),
        ],
        DataType::Binary,
        [NULL, LeafRef::Bytes(b""), LeafRef::Bytes(b"z"), NULL],
    ),
    (
        ReductionKind::Last,
        DataType::Boolean,
        [
            LeafRef::Bool(true),
            LeafRef::Bool(true),
            NULL,
            NULL,
            LeafRef::Bool(false),
        ],
        DataType::Boolean,
        [LeafRef::Bool(true), LeafRef::Bool(false), NULL, NULL],
    ),
];

#[test]
fn first_and_last(rt: HostRuntime) -> Result<(), AllocError> {
    for case in &ENTRIES {
        assert!(rt; holds(rt.alloc(), case)?);
    }
    Ok(())
}

#[test]
fn types_without_a_sum(rt: HostRuntime) {
    for dtype in [
        DataType::Boolean,
        DataType::Int128,
        DataType::Date,
        DataType::Time,
        DataType::Datetime(TimeUnit::Nanoseconds),
    ] {
        assert!(rt; new_reduction(rt.alloc(), ReductionKind::Sum, dtype).is_err());
    }
}
