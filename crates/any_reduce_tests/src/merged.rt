//! The groups of one reduction enter those of another, each entered before under a number of its own.
ghost use Rattle.std.specs.Prelude.{◌≡◌, length, OnOk};
ghost use Rattle.reduce_states.specs.Reductions.{AreAlike};

use crate::columns::{are_values, column};
use any_reduce::new_reduction;
use col_core::{DataType, LeafRef, Series};
use group_reduce::GroupedReduction;
use reduce_model::ReductionKind;
use std::alloc::{AllocError, Global};

/// Makes two groups of it, of which each takes one value of a column, under a number.
pub fn enter<R: GroupedReduction>(
    reduction: &mut R,
    values: &Series,
    number: u32,
) -> Result<(), AllocError>
    requires dtype { values.now.dtype ≡ (R.shape reduction.old).dtype }
    requires two { length values.now.values ≡ 2 }
    ensures alike { AreAlike (R.shape reduction.old) (R.shape reduction.new) }
    ensures two { OnOk result ((R.shape reduction.new).groups ≡ 2) }
{
    reduction.reserve(2)?;
    reduction.resize(2)?;
    reduction.update_groups(values, &[0, 1], number as u64)
}

/// What two groups give, after each group of another reduction entered its like.
fn merged<R: GroupedReduction>(
    alloc: Global,
    reduction: &mut R,
    other: &R,
) -> Result<Series, AllocError>
    requires alike { AreAlike (R.shape reduction.old) (R.shape other.now) }
    requires two { (R.shape reduction.old).groups ≡ 2 }
    requires other_two { (R.shape other.now).groups ≡ 2 }
{
    reduction.combine(other, &[0, 1])?;
    reduction.finalize(alloc)
}

/// Two values, and the number under which they enter.
#[derive(Drop)]
struct Entry<'a> {
    values: &'a Series,
    number: u32,
}

/// What two groups give, that take values and then the groups of another reduction, which takes
/// values of its own.
fn both<R: GroupedReduction>(
    alloc: Global,
    reduction: &mut R,
    first: &Entry<'_>,
    second: &Entry<'_>,
) -> Result<Series, AllocError>
    requires first { first.now.values.now.dtype ≡ (R.shape reduction.old).dtype }
    requires second { second.now.values.now.dtype ≡ (R.shape reduction.old).dtype }
    requires first_two { length first.now.values.now.values ≡ 2 }
    requires second_two { length second.now.values.now.values ≡ 2 }
{
    let mut other = reduction.new_empty();
    enter(reduction, first.values, first.number)?;
    enter(&mut other, second.values, second.number)?;
    merged(alloc, reduction, &other)
}

/// What comes of two reductions of a kind, of which one takes the groups of the other.
fn merged_of(
    alloc: Global,
    kind: ReductionKind,
    first: &Entry<'_>,
    second: &Entry<'_>,
) -> Result<Series, AllocError>
    requires { second.now.values.now.dtype ≡ first.now.values.now.dtype }
{
    if first.values.len() != 2 || second.values.len() != 2 {
        return Err(AllocError);
    }
    match new_reduction(alloc, kind, first.values.dtype()) {
        Ok(mut reduction) => both(alloc, &mut reduction, first, second),
        Err(_) => Err(AllocError),
    }
}

/// Two values that enter under the number 3, two that enter under the number 1, and what a kind gives
/// of them, whichever takes the other.
struct Case<'a> {
    kind: ReductionKind,
    dtype: DataType,
    third: [LeafRef<'a>; 2],
    first: [LeafRef<'a>; 2],
    merged: [LeafRef<'a>; 2],
}

/// Whether a case is so.
fn holds(alloc: Global, case: &Case<'_>) -> Result<bool, AllocError> {
    let third_values = column(alloc, case.dtype, &case.third)?;
    let first_values = column(alloc, case.dtype, &case.first)?;
    let third = Entry {
        values: &third_values,
        number: 3,
    };
    let first = Entry {
        values: &first_values,
        number: 1,
    };
    let taken = merged_of(alloc, case.kind, &third, &first)?;
    let turned = merged_of(alloc, case.kind, &first, &third)?;
    Ok(are_values(&taken, &case.merged) && are_values(&turned, &case.merged))
}

const NULL: LeafRef<'static> = LeafRef::Null;

const CASES: [Case<'static>; 12] = [
    Case {
        kind: ReductionKind::Sum,
        dtype: DataType::Int8,
        third: [LeafRef::Whole(127), NULL],
        first: [LeafRef::Whole(1), NULL],
        merged: [LeafRef::Whole(128), LeafRef::Whole(0)],
    },
    Case {
        kind: ReductionKind::Sum,
        dtype: DataType::UInt64,
        third: [LeafRef::Whole(0xffff_ffff_ffff_ffff), LeafRef::Whole(5)],
        first: [LeafRef::Whole(3), NULL],
        merged: [LeafRef::Whole(2), LeafRef::Whole(5)],
    },
    Case {
        kind: ReductionKind::Min,
        dtype: DataType::Int32,
        third: [LeafRef::Whole(3), NULL],
        first: [LeafRef::Whole(-4), LeafRef::Whole(7)],
        merged: [LeafRef::Whole(-4), LeafRef::Whole(7)],
    },
    Case {
        kind: ReductionKind::Max,
        dtype: DataType::Boolean,
        third: [LeafRef::Bool(false), NULL],
        first: [LeafRef::Bool(true), NULL],
        merged: [LeafRef::Bool(true), NULL],
    },
    Case {
        kind: ReductionKind::Max,
        dtype: DataType::String,
        third: [LeafRef::Bytes(b"b"), NULL],
        first: [LeafRef::Bytes(b"ab"), LeafRef::Bytes(b"")],
        merged: [LeafRef::Bytes(b"b"), LeafRef::Bytes(b"")],
    },
    Case {
        kind: ReductionKind::First,
        dtype: DataType::Int64,
        third: [LeafRef::Whole(7), LeafRef::Whole(8)],
        first: [NULL, LeafRef::Whole(9)],
        merged: [NULL, LeafRef::Whole(9)],
    },
    Case {
        kind: ReductionKind::Last,
        dtype: DataType::Int64,
        third: [LeafRef::Whole(7), NULL],
        first: [NULL, LeafRef::Whole(9)],
        merged: [LeafRef::Whole(7), NULL],
    },
    Case {
        kind: ReductionKind::First,
        dtype: DataType::Boolean,
        third: [LeafRef::Bool(true), LeafRef::Bool(true)],
        first: [LeafRef::Bool(false), NULL],
        merged: [LeafRef::Bool(false), NULL],
    },
    Case {
        kind: ReductionKind::Last,
        dtype: DataType::Boolean,
        third: [LeafRef::Bool(true), NULL],
        first: [LeafRef::Bool(false), LeafRef::Bool(true)],
        merged: [LeafRef::Bool(true), NULL],
    },
    Case {
        kind: ReductionKind::First,
        dtype: DataType::Binary,
        third: [LeafRef::Bytes(b"x"), LeafRef::Bytes(b"y")],
        first: [LeafRef::Bytes(b"\xff"), NULL],
        merged: [LeafRef::Bytes(b"\xff"), NULL],
    },
    Case {
        kind: ReductionKind::Last,
        dtype: DataType::String,
        third: [LeafRef::Bytes(b"x"), NULL],
        first: [LeafRef::Bytes(b"y"), LeafRef::Bytes(b"z")],
        merged: [LeafRef::Bytes(b"x"), NULL],
    },
    Case {
        kind: ReductionKind::First,
        dtype: DataType::Decimal(5, 2),
        third: [LeafRef::Whole(1), LeafRef::Whole(2)],
        first: [NULL, LeafRef::Whole(-3)],
        merged: [NULL, LeafRef::Whole(-3)],
    },
];

#[test]
fn merged_both_ways(rt: HostRuntime) -> Result<(), AllocError> {
    for case in &CASES {
        assert!(rt; holds(rt.alloc(), case)?);
    }
    Ok(())
}
