//! Reductions of any kind.
ghost use Rattle.std.specs.Prelude.{◌≡◌};
ghost use Rattle.reduce_model.specs.Folds.{reduced_type};
ghost use Rattle.any_reduce.specs.Kinds.{any_shape};

use any_first_last::{AnyFirst, AnyLast};
use any_min_max::{AnyMax, AnyMin};
use col_core::{DataType, IdxSize, Series};
use group_reduce::{GroupedReduction, Stated, parts_in};
use reduce_model::ReductionKind;
use reduce_sum::{AnySum, sum_type};
use std::alloc::{AllocError, Global};

/// A reduction of groups, by its kind.
#[derive(Drop)]
pub enum AnyReduction {
    /// Sums.
    Sum(AnySum),
    /// The least values.
    Min(AnyMin),
    /// The greatest values.
    Max(AnyMax),
    /// The first values.
    First(AnyFirst),
    /// The last values.
    Last(AnyLast),
}

/// The same for the reduction of a variant, whichever it is.
macro_rules! each {
    ($this:expr, $inner:ident => $body:expr) => {
        match $this {
            AnyReduction::Sum($inner) => $body,
            AnyReduction::Min($inner) => $body,
            AnyReduction::Max($inner) => $body,
            AnyReduction::First($inner) => $body,
            AnyReduction::Last($inner) => $body,
        }
    };
}

/// What is made of the reduction of a variant, in the same variant.
macro_rules! each_in {
    ($this:expr, $inner:ident => $body:expr) => {
        match $this {
            AnyReduction::Sum($inner) => AnyReduction::Sum($body),
            AnyReduction::Min($inner) => AnyReduction::Min($body),
            AnyReduction::Max($inner) => AnyReduction::Max($body),
            AnyReduction::First($inner) => AnyReduction::First($body),
            AnyReduction::Last($inner) => AnyReduction::Last($body),
        }
    };
}

/// The same for two reductions of one variant, of which no others are given.
macro_rules! both {
    ($this:expr, $other:expr, $ours:ident, $theirs:ident => $body:expr) => {
        match ($this, $other) {
            (AnyReduction::Sum($ours), AnyReduction::Sum($theirs)) => return $body,
            (AnyReduction::Min($ours), AnyReduction::Min($theirs)) => return $body,
            (AnyReduction::Max($ours), AnyReduction::Max($theirs)) => return $body,
            (AnyReduction::First($ours), AnyReduction::First($theirs)) => return $body,
            (AnyReduction::Last($ours), AnyReduction::Last($theirs)) => return $body,
            _ => unreachable!(),
        }
    };
}

/// The parts of the reduction of a variant, each in the same variant.
macro_rules! parted {
    ($this:expr, $inner:ident, $alloc:expr, $sizes:expr, $idxs:expr) => {
        match $this {
            AnyReduction::Sum($inner) => {
                parts_in($alloc, $inner, $sizes, $idxs, |part| AnyReduction::Sum(part))
            }
            AnyReduction::Min($inner) => {
                parts_in($alloc, $inner, $sizes, $idxs, |part| AnyReduction::Min(part))
            }
            AnyReduction::Max($inner) => {
                parts_in($alloc, $inner, $sizes, $idxs, |part| AnyReduction::Max(part))
            }
            AnyReduction::First($inner) => {
                parts_in($alloc, $inner, $sizes, $idxs, |part| AnyReduction::First(part))
            }
            AnyReduction::Last($inner) => {
                parts_in($alloc, $inner, $sizes, $idxs, |part| AnyReduction::Last(part))
            }
        }
    };
}

impl AnyReduction {
    /// The kind.
    pub fn kind(&self) -> ReductionKind
        ensures { result ≡ (any_shape self.now).kind }
    {
        match self {
            AnyReduction::Sum(_) => ReductionKind::Sum,
            AnyReduction::Min(_) => ReductionKind::Min,
            AnyReduction::Max(_) => ReductionKind::Max,
            AnyReduction::First(_) => ReductionKind::First,
            AnyReduction::Last(_) => ReductionKind::Last,
        }
    }

    /// The type of what the groups give.
    pub fn out_dtype(&self) -> DataType
        ensures { result ≡ reduced_type (any_shape self.now).kind (any_shape self.now).dtype }
    {
        match self {
            AnyReduction::Sum(sums) => sum_type(sums.in_dtype()),
            AnyReduction::Min(least) => least.in_dtype(),
            AnyReduction::Max(greatest) => greatest.in_dtype(),
            AnyReduction::First(first) => first.in_dtype(),
            AnyReduction::Last(last) => last.in_dtype(),
        }
    }
}

impl Stated for AnyReduction {
    ghost use Rattle.any_reduce.specs.Kinds.{any_shape, any_holds};

    ghost shape = { any_shape };

    ghost holds = { any_holds };
}

impl GroupedReduction for AnyReduction {
    ghost use Rattle.any_reduce.specs.Kinds.{any_length, any_are_states};

    ghost long = { any_length };

    ghost states = { any_are_states };

    fn new_empty(&self) -> Self {
        each_in!(self, inner => inner.new_empty())
    }

    fn num_groups(&self) -> IdxSize {
        each!(self, inner => inner.num_groups())
    }

    fn in_dtype(&self) -> DataType {
        each!(self, inner => inner.in_dtype())
    }

    fn is_fixed(&self) -> bool {
        each!(self, inner => inner.is_fixed())
    }

    fn reserve(&mut self, additional: usize) -> Result<(), AllocError> {
        each!(self, inner => inner.reserve(additional))
    }

    fn resize(&mut self, num_groups: IdxSize) -> Result<(), AllocError> {
        each!(self, inner => inner.resize(num_groups))
    }

    fn update_group(
        &mut self,
        values: &Series,
        group_idx: IdxSize,
        seq_id: u64,
    ) -> Result<(), AllocError> {
        each!(self, inner => inner.update_group(values, group_idx, seq_id))
    }

    fn update_groups(
        &mut self,
        values: &Series,
        group_idxs: &[IdxSize],
        seq_id: u64,
    ) -> Result<(), AllocError> {
        each!(self, inner => inner.update_groups(values, group_idxs, seq_id))
    }

    fn combine(&mut self, other: &Self, group_idxs: &[IdxSize]) -> Result<(), AllocError> {
        both!(self, other, ours, theirs => ours.combine(theirs, group_idxs))
    }

    fn gather_combine(
        &mut self,
        other: &Self,
        subset: &[IdxSize],
        group_idxs: &[IdxSize],
    ) -> Result<(), AllocError> {
        both!(self, other, ours, theirs => ours.gather_combine(theirs, subset, group_idxs))
    }

    fn partition(
        self,
        alloc: Global,
        partition_sizes: &[IdxSize],
        partition_idxs: &[IdxSize],
    ) -> Result<Vec<Self>, Self> {
        parted!(self, inner, alloc, partition_sizes, partition_idxs)
    }

    fn finalize(&mut self, alloc: Global) -> Result<Series, AllocError> {
        each!(self, inner => inner.finalize(alloc))
    }
}
