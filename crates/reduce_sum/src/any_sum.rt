//! Sums over columns of any type that has them.
ghost use Rattle.std.specs.Prelude.{◌≡◌, [], true, false, not};
ghost use Rattle.reduce_model.specs.declared.kind.ReductionKind.TheVariants.{Sum};
ghost use Rattle.reduce_model.specs.Folds.{has_no_sum};
ghost use Rattle.reduce_sum.specs.Sums.{kept_as, form_of};

use crate::sums::SumReduce;
use col_core::{DataType, IdxSize, Series};
use group_reduce::{GroupedReduction, NullGroupedReduction, Stated, parts_in};
use std::alloc::{AllocError, Global};

/// A sum, by what keeps its totals: the column type determines which.
#[derive(Drop)]
pub enum AnySum {
    /// Over `Int32`.
    I32(SumReduce<i32>),
    /// Over `UInt32`.
    U32(SumReduce<u32>),
    /// Over `Int64`, `Duration` and the types of 8 and 16 bits.
    I64(SumReduce<i64>),
    /// Over `UInt64`.
    U64(SumReduce<u64>),
    /// Over `Decimal`.
    I128(SumReduce<i128>),
    /// Over `String` and `Binary`.
    Null(NullGroupedReduction),
}

/// The same for the reduction of a variant, whichever it is.
macro_rules! each {
    ($this:expr, $inner:ident => $body:expr) => {
        match $this {
            AnySum::I32($inner) => $body,
            AnySum::U32($inner) => $body,
            AnySum::I64($inner) => $body,
            AnySum::U64($inner) => $body,
            AnySum::I128($inner) => $body,
            AnySum::Null($inner) => $body,
        }
    };
}

/// What is made of the reduction of a variant, in the same variant.
macro_rules! each_in {
    ($this:expr, $inner:ident => $body:expr) => {
        match $this {
            AnySum::I32($inner) => AnySum::I32($body),
            AnySum::U32($inner) => AnySum::U32($body),
            AnySum::I64($inner) => AnySum::I64($body),
            AnySum::U64($inner) => AnySum::U64($body),
            AnySum::I128($inner) => AnySum::I128($body),
            AnySum::Null($inner) => AnySum::Null($body),
        }
    };
}

/// The same for two reductions of one variant.
macro_rules! both {
    ($this:expr, $other:expr, $ours:ident, $theirs:ident => $body:expr) => {
        match ($this, $other) {
            (AnySum::I32($ours), AnySum::I32($theirs)) => return $body,
            (AnySum::U32($ours), AnySum::U32($theirs)) => return $body,
            (AnySum::I64($ours), AnySum::I64($theirs)) => return $body,
            (AnySum::U64($ours), AnySum::U64($theirs)) => return $body,
            (AnySum::I128($ours), AnySum::I128($theirs)) => return $body,
            (AnySum::Null($ours), AnySum::Null($theirs)) => return $body,
            _ => unreachable!(),
        }
    };
}

/// The parts of the reduction of a variant, each in the same variant.
macro_rules! parted {
    ($this:expr, $inner:ident, $alloc:expr, $sizes:expr, $idxs:expr) => {
        match $this {
            AnySum::I32($inner) => {
                parts_in($alloc, $inner, $sizes, $idxs, |part| AnySum::I32(part))
            }
            AnySum::U32($inner) => {
                parts_in($alloc, $inner, $sizes, $idxs, |part| AnySum::U32(part))
            }
            AnySum::I64($inner) => {
                parts_in($alloc, $inner, $sizes, $idxs, |part| AnySum::I64(part))
            }
            AnySum::U64($inner) => {
                parts_in($alloc, $inner, $sizes, $idxs, |part| AnySum::U64(part))
            }
            AnySum::I128($inner) => {
                parts_in($alloc, $inner, $sizes, $idxs, |part| AnySum::I128(part))
            }
            AnySum::Null($inner) => {
                parts_in($alloc, $inner, $sizes, $idxs, |part| AnySum::Null(part))
            }
        }
    };
}

impl AnySum {
    /// No groups yet, over a column type that has sums, as `has_sum` tells.
    pub fn new(alloc: Global, dtype: DataType) -> AnySum
        requires { has_no_sum dtype ≡ false }
        ensures shape { ⟦<AnySum as Stated>⟧.shape result ≡ record { kind = Sum; dtype = dtype; fixed = true; groups = 0; form = form_of (kept_as dtype) } }
        ensures states { ⟦<AnySum as Stated>⟧.holds result [] }
    {
        match dtype {
            DataType::Int32 => AnySum::I32(SumReduce::new(alloc, dtype)),
            DataType::UInt32 => AnySum::U32(SumReduce::new(alloc, dtype)),
            DataType::Int8
            | DataType::UInt8
            | DataType::Int16
            | DataType::UInt16
            | DataType::Int64
            | DataType::Duration(_) => AnySum::I64(SumReduce::new(alloc, dtype)),
            DataType::UInt64 => AnySum::U64(SumReduce::new(alloc, dtype)),
            DataType::Decimal(_, _) => AnySum::I128(SumReduce::new(alloc, dtype)),
            DataType::String | DataType::Binary => AnySum::Null(NullGroupedReduction::new(dtype)),
            _ => unreachable!(),
        }
    }
}

/// Whether there is a sum over columns of a type.
pub fn has_sum(dtype: DataType) -> bool
    ensures { result ≡ not (has_no_sum dtype) }
{
    !matches!(
        dtype,
        DataType::Boolean
            | DataType::Int128
            | DataType::Date
            | DataType::Time
            | DataType::Datetime(_)
    )
}

impl Stated for AnySum {
    ghost use Rattle.reduce_sum.specs.AnySums.{sum_shape, sum_holds};

    ghost shape = { sum_shape };

    ghost holds = { sum_holds };
}

impl GroupedReduction for AnySum {
    ghost use Rattle.reduce_sum.specs.AnySums.{sum_length, sums_are_states};

    ghost long = { sum_length };

    ghost states = { sums_are_states };

    fn new_empty(&self) -> Self {
        each_in!(self, inner => inner.new_empty())
    }

    fn num_groups(&self) -> IdxSize {
        each!(self, inner => inner.num_groups())
    }

    fn in_dtype(&self) -> DataType {
        each!(self, inner => inner.in_dtype())
    }

    fn is_fixed(&self) -> bool {
        each!(self, inner => inner.is_fixed())
    }

    fn reserve(&mut self, additional: usize) -> Result<(), AllocError> {
        each!(self, inner => inner.reserve(additional))
    }

    fn resize(&mut self, num_groups: IdxSize) -> Result<(), AllocError> {
        each!(self, inner => inner.resize(num_groups))
    }

    fn update_group(
        &mut self,
        values: &Series,
        group_idx: IdxSize,
        seq_id: u64,
    ) -> Result<(), AllocError> {
        each!(self, inner => inner.update_group(values, group_idx, seq_id))
    }

    fn update_groups(
        &mut self,
        values: &Series,
        group_idxs: &[IdxSize],
        seq_id: u64,
    ) -> Result<(), AllocError> {
        each!(self, inner => inner.update_groups(values, group_idxs, seq_id))
    }

    fn combine(&mut self, other: &Self, group_idxs: &[IdxSize]) -> Result<(), AllocError> {
        both!(self, other, ours, theirs => ours.combine(theirs, group_idxs))
    }

    fn gather_combine(
        &mut self,
        other: &Self,
        subset: &[IdxSize],
        group_idxs: &[IdxSize],
    ) -> Result<(), AllocError> {
        both!(self, other, ours, theirs => ours.gather_combine(theirs, subset, group_idxs))
    }

    fn partition(
        self,
        alloc: Global,
        partition_sizes: &[IdxSize],
        partition_idxs: &[IdxSize],
    ) -> Result<Vec<Self>, Self> {
        parted!(self, inner, alloc, partition_sizes, partition_idxs)
    }

    fn finalize(&mut self, alloc: Global) -> Result<Series, AllocError> {
        each!(self, inner => inner.finalize(alloc))
    }
}
