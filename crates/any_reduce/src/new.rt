//! Reductions without groups.
ghost use Rattle.std.specs.Prelude.{◌≡◌, [], true, false, IfOk, IfErr, IsOk};
ghost use Rattle.reduce_model.specs.declared.kind.ReductionKind.TheVariants as kinds;
ghost use Rattle.reduce_model.specs.Folds.{has_no_sum, is_unsupported};
ghost use Rattle.any_reduce.specs.declared.new.KindError.TheVariants.{UnsupportedReduction};
ghost use Rattle.any_reduce.specs.Kinds.{new_shape};

use crate::any::AnyReduction;
use any_first_last::{AnyFirst, AnyLast};
use any_min_max::{AnyMax, AnyMin};
use col_core::DataType;
use group_reduce::Stated;
use reduce_model::ReductionKind;
use reduce_sum::{AnySum, has_sum};
use std::alloc::{AllocError, Global};

/// Why there is no reduction of a kind over a column type.
#[derive(Clone, Copy, PartialEq, Eq, Debug)]
pub enum KindError {
    /// 1: the type has no such reduction.
    UnsupportedReduction,
    /// 2: want of memory. A reduction without groups takes none.
    Memory,
}

/// The sum over a column type, without groups yet. Refused are just the types that have no sum.
pub fn new_sum_reduction(alloc: Global, dtype: DataType) -> Result<AnyReduction, KindError>
    ensures shape { IfOk result (λ r. ⟦<AnyReduction as Stated>⟧.shape r ≡ new_shape kinds.Sum dtype) }
    ensures states { IfOk result (λ r. ⟦<AnyReduction as Stated>⟧.holds r []) }
    ensures supported { IfOk result (λ _. has_no_sum dtype ≡ false) }
    ensures refused { IfErr result (λ e. (e ≡ UnsupportedReduction) × (has_no_sum dtype ≡ true)) }
{
    if has_sum(dtype) {
        Ok(AnyReduction::Sum(AnySum::new(alloc, dtype)))
    } else {
        Err(KindError::UnsupportedReduction)
    }
}

/// The least value of a column type, without groups yet.
pub fn new_min_reduction(alloc: Global, dtype: DataType) -> Result<AnyReduction, AllocError>
    ensures shape { IfOk result (λ r. ⟦<AnyReduction as Stated>⟧.shape r ≡ new_shape kinds.Min dtype) }
    ensures states { IfOk result (λ r. ⟦<AnyReduction as Stated>⟧.holds r []) }
    ensures no_memory { IsOk result }
{
    Ok(AnyReduction::Min(AnyMin::new(alloc, dtype)))
}

/// The greatest value of a column type, without groups yet.
pub fn new_max_reduction(alloc: Global, dtype: DataType) -> Result<AnyReduction, AllocError>
    ensures shape { IfOk result (λ r. ⟦<AnyReduction as Stated>⟧.shape r ≡ new_shape kinds.Max dtype) }
    ensures states { IfOk result (λ r. ⟦<AnyReduction as Stated>⟧.holds r []) }
    ensures no_memory { IsOk result }
{
    Ok(AnyReduction::Max(AnyMax::new(alloc, dtype)))
}

/// The first value of a column type, without groups yet.
pub fn new_first_reduction(alloc: Global, dtype: DataType) -> Result<AnyReduction, AllocError>
    ensures shape { IfOk result (λ r. ⟦<AnyReduction as Stated>⟧.shape r ≡ new_shape kinds.First dtype) }
    ensures states { IfOk result (λ r. ⟦<AnyReduction as Stated>⟧.holds r []) }
    ensures no_memory { IsOk result }
{
    Ok(AnyReduction::First(AnyFirst::new(alloc, dtype)))
}

/// The last value of a column type, without groups yet.
pub fn new_last_reduction(alloc: Global, dtype: DataType) -> Result<AnyReduction, AllocError>
    ensures shape { IfOk result (λ r. ⟦<AnyReduction as Stated>⟧.shape r ≡ new_shape kinds.Last dtype) }
    ensures states { IfOk result (λ r. ⟦<AnyReduction as Stated>⟧.holds r []) }
    ensures no_memory { IsOk result }
{
    Ok(AnyReduction::Last(AnyLast::new(alloc, dtype)))
}

/// The reduction of a kind over a column type, without groups yet. Refused are just the sums over
/// types that have none.
pub fn new_reduction(
    alloc: Global,
    kind: ReductionKind,
    dtype: DataType,
) -> Result<AnyReduction, KindError>
    ensures shape { IfOk result (λ r. ⟦<AnyReduction as Stated>⟧.shape r ≡ new_shape kind dtype) }
    ensures states { IfOk result (λ r. ⟦<AnyReduction as Stated>⟧.holds r []) }
    ensures supported { IfOk result (λ _. is_unsupported kind dtype ≡ false) }
    ensures refused { IfErr result (λ e. (e ≡ UnsupportedReduction) × (is_unsupported kind dtype ≡ true)) }
{
    match kind {
        ReductionKind::Sum => new_sum_reduction(alloc, dtype),
        ReductionKind::Min => Ok(AnyReduction::Min(AnyMin::new(alloc, dtype))),
        ReductionKind::Max => Ok(AnyReduction::Max(AnyMax::new(alloc, dtype))),
        ReductionKind::First => Ok(AnyReduction::First(AnyFirst::new(alloc, dtype))),
        ReductionKind::Last => Ok(AnyReduction::Last(AnyLast::new(alloc, dtype))),
    }
}
