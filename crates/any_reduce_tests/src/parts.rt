//! Groups that enter others by their indexes, and groups that are parted.
ghost use Rattle.std.specs.Prelude.{◌≡◌, length};

use crate::columns::{are_values, column};
use crate::merged::enter;
use any_reduce::new_reduction;
use col_core::{DataType, LeafRef, Series};
use group_reduce::GroupedReduction;
use reduce_model::ReductionKind;
use std::alloc::{AllocError, Global};

/// What one group gives that the second of two groups enters twice.
fn gathered<R: GroupedReduction>(
    alloc: Global,
    reduction: &R,
    values: &Series,
) -> Result<Series, AllocError>
    requires dtype { values.now.dtype ≡ (R.shape reduction.now).dtype }
    requires two { length values.now.values ≡ 2 }
{
    let mut one = reduction.new_empty();
    let mut other = reduction.new_empty();
    enter(&mut other, values, 0)?;
    one.resize(1)?;
    one.gather_combine(&other, &[1, 1], &[0, 0])?;
    one.finalize(alloc)
}

/// What two groups give, of which the second one takes the first of two others, and then the second.
fn combined<R: GroupedReduction>(
    alloc: Global,
    reduction: &R,
    values: &Series,
) -> Result<Series, AllocError>
    requires dtype { values.now.dtype ≡ (R.shape reduction.now).dtype }
    requires two { length values.now.values ≡ 2 }
{
    let mut one = reduction.new_empty();
    let mut other = reduction.new_empty();
    enter(&mut other, values, 0)?;
    one.resize(2)?;
    one.combine(&other, &[1, 1])?;
    one.finalize(alloc)
}

/// Whether each of some reductions gives one value, as wanted, and has no groups then.
fn give<R: GroupedReduction>(
    alloc: Global,
    parts: &mut [R],
    wanted: &[LeafRef<'_>],
) -> Result<bool, AllocError> {
    let mut right = parts.len() == wanted.len();
    for (i, part) in parts.iter_mut().enumerate() {
        let given = part.finalize(alloc)?;
        right = right && part.num_groups() == 0;
        right = right && i < wanted.len() && are_values(&given, &[wanted[i]]);
    }
    Ok(right)
}

/// Whether two groups, of which the first goes to the second part and the second to the first, give
/// these values in the order of the parts.
fn are_parted<R: GroupedReduction>(
    alloc: Global,
    reduction: &R,
    values: &Series,
    wanted: &[LeafRef<'_>],
) -> Result<bool, AllocError>
    requires dtype { values.now.dtype ≡ (R.shape reduction.now).dtype }
    requires two { length values.now.values ≡ 2 }
{
    let mut whole = reduction.new_empty();
    enter(&mut whole, values, 0)?;
    match whole.partition(alloc, &[1, 1], &[1, 0]) {
        Ok(mut parts) => give(alloc, &mut parts, wanted),
        Err(_) => Err(AllocError),
    }
}

/// Two values, each of which enters a group of its own, and what a kind gives of them: of one group
/// that the second group enters twice; of two groups of which the second takes both; of two parts of
/// one group each, the second group first.
struct Case<'a> {
    kind: ReductionKind,
    dtype: DataType,
    values: [LeafRef<'a>; 2],
    gathered: [LeafRef<'a>; 1],
    combined: [LeafRef<'a>; 2],
    parted: [LeafRef<'a>; 2],
}

/// Whether a reduction without groups does so.
fn is_so<R: GroupedReduction>(
    alloc: Global,
    reduction: &R,
    values: &Series,
    case: &Case<'_>,
) -> Result<bool, AllocError>
    requires dtype { values.now.dtype ≡ (R.shape reduction.now).dtype }
{
    if values.len() != 2 {
        return Ok(false);
    }
    let gathered = gathered(alloc, reduction, values)?;
    let combined = combined(alloc, reduction, values)?;
    Ok(
        are_values(&gathered, &case.gathered)
            && are_values(&combined, &case.combined)
            && are_parted(alloc, reduction, values, &case.parted)?,
    )
}

/// Whether a case is so.
fn holds(alloc: Global, case: &Case<'_>) -> Result<bool, AllocError> {
    let values = column(alloc, case.dtype, &case.values)?;
    match new_reduction(alloc, case.kind, case.dtype) {
        Ok(reduction) => is_so(alloc, &reduction, &values, case),
        Err(_) => Err(AllocError),
    }
}

const NULL: LeafRef<'static> = LeafRef::Null;

const CASES: [Case<'static>; 6] = [
    Case {
        kind: ReductionKind::Sum,
        dtype: DataType::Int64,
        values: [LeafRef::Whole(1), LeafRef::Whole(2)],
        gathered: [LeafRef::Whole(4)],
        combined: [LeafRef::Whole(0), LeafRef::Whole(3)],
        parted: [LeafRef::Whole(2), LeafRef::Whole(1)],
    },
    // The groups of a sum over texts give nulls alone.
    Case {
        kind: ReductionKind::Sum,
        dtype: DataType::String,
        values: [LeafRef::Bytes(b"x"), NULL],
        gathered: [NULL],
        combined: [NULL, NULL],
        parted: [NULL, NULL],
    },
    Case {
        kind: ReductionKind::Min,
        dtype: DataType::Boolean,
        values: [LeafRef::Bool(false), NULL],
        gathered: [NULL],
        combined: [NULL, LeafRef::Bool(false)],
        parted: [NULL, LeafRef::Bool(false)],
    },
    Case {
        kind: ReductionKind::Max,
        dtype: DataType::Int128,
        values: [LeafRef::Whole(i128::MAX), LeafRef::Whole(i128::MIN)],
        gathered: [LeafRef::Whole(i128::MIN)],
        combined: [NULL, LeafRef::Whole(i128::MAX)],
        parted: [LeafRef::Whole(i128::MIN), LeafRef::Whole(i128::MAX)],
    },
    Case {
        kind: ReductionKind::First,
        dtype: DataType::Int8,
        values: [LeafRef::Whole(4), NULL],
        gathered: [NULL],
        combined: [NULL, LeafRef::Whole(4)],
        parted: [NULL, LeafRef::Whole(4)],
    },
    // Of two values under one number the one that is merged later is the last.
    Case {
        kind: ReductionKind::Last,
        dtype: DataType::String,
        values: [LeafRef::Bytes(b"b"), LeafRef::Bytes(b"a")],
        gathered: [LeafRef::Bytes(b"a")],
        combined: [NULL, LeafRef::Bytes(b"a")],
        parted: [LeafRef::Bytes(b"a"), LeafRef::Bytes(b"b")],
    },
];

#[test]
fn gathered_combined_and_parted(rt: HostRuntime) -> Result<(), AllocError> {
    for case in &CASES {
        assert!(rt; holds(rt.alloc(), case)?);
    }
    Ok(())
}
