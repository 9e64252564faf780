//! One group, which values enter under two numbers.
ghost use Rattle.std.specs.Prelude.{◌≡◌};
ghost use Rattle.reduce_states.specs.Reductions.{AreAlike};

use crate::columns::{are_values, column};
use any_reduce::{AnyReduction, new_first_reduction, new_last_reduction};
use col_core::{DataType, LeafRef, Series};
use group_reduce::GroupedReduction;
use std::alloc::{AllocError, Global};

/// Makes one group of it, which a column enters under a number.
fn enter<R: GroupedReduction>(
    reduction: &mut R,
    values: &Series,
    number: u32,
) -> Result<(), AllocError>
    requires { values.now.dtype ≡ (R.shape reduction.old).dtype }
    ensures { AreAlike (R.shape reduction.old) (R.shape reduction.new) }
{
    reduction.resize(1)?;
    reduction.update_group(values, 0, number as u64)
}

/// What the group gives that a column enters under the number 3, and another one under the number 1.
fn entered<R: GroupedReduction>(
    alloc: Global,
    reduction: &mut R,
    third: &Series,
    first: &Series,
) -> Result<Series, AllocError>
    requires third { third.now.dtype ≡ (R.shape reduction.old).dtype }
    requires first { first.now.dtype ≡ (R.shape reduction.old).dtype }
{
    enter(reduction, third, 3)?;
    enter(reduction, first, 1)?;
    reduction.finalize(alloc)
}

/// Whether the first and the last of 7 under the number 3 and a null under the number 1 are these.
fn are_first_and_last(
    alloc: Global,
    first: LeafRef<'_>,
    last: LeafRef<'_>,
) -> Result<bool, AllocError> {
    let seven = column(alloc, DataType::Int64, &[LeafRef::Whole(7)])?;
    let null = column(alloc, DataType::Int64, &[LeafRef::Null])?;
    let least = first_of(alloc, &seven, &null)?;
    Ok(are_values(&least, &[first]) && are_values(&last_of(alloc, &seven, &null)?, &[last]))
}

/// The value under the least number.
fn first_of(alloc: Global, third: &Series, first: &Series) -> Result<Series, AllocError>
    requires { third.now.dtype ≡ first.now.dtype }
{
    let mut reduction: AnyReduction = new_first_reduction(alloc, third.dtype())?;
    entered(alloc, &mut reduction, third, first)
}

/// The value under the greatest number.
fn last_of(alloc: Global, third: &Series, first: &Series) -> Result<Series, AllocError>
    requires { third.now.dtype ≡ first.now.dtype }
{
    let mut reduction: AnyReduction = new_last_reduction(alloc, third.dtype())?;
    entered(alloc, &mut reduction, third, first)
}

#[test]
fn first_and_last_by_number(rt: HostRuntime) -> Result<(), AllocError> {
    assert!(rt; are_first_and_last(rt.alloc(), LeafRef::Null, LeafRef::Whole(7))?);
    Ok(())
}
