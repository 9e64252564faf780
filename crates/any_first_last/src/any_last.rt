//! Last of columns of any type.
ghost use Rattle.std.specs.Prelude.{◌≡◌, [], not};
ghost use Rattle.col_core.specs.declared.data_type.PhysicalType.TheVariants.{Bytes};
ghost use Rattle.reduce_model.specs.declared.kind.ReductionKind.TheVariants as kinds;
ghost use Rattle.kept_values.specs.Kept.{is_kept_as};
ghost use Rattle.any_first_last.specs.AnyFirstLasts.{first_form};

use crate::variants::{both, each, each_in, kept_by, parted};
use col_core::{DataType, IdxSize, Series};
use group_reduce::{GroupedReduction, Stated, VecGroupedReduction, parts_in};
use reduce_first_last::{
    BinaryFirstLastReducer, BoolFirstLastReducer, GenericFirstLastGroupedReduction, Last,
    NumFirstLastReducer,
};
use std::alloc::{AllocError, Global};

/// The last value of a group, by what keeps it: the column type determines which.
#[derive(Drop)]
pub enum AnyLast {
    /// Over `Int8`.
    I8(VecGroupedReduction<NumFirstLastReducer<Last, i8>>),
    /// Over `Int16`.
    I16(VecGroupedReduction<NumFirstLastReducer<Last, i16>>),
    /// Over `Int32` and `Date`.
    I32(VecGroupedReduction<NumFirstLastReducer<Last, i32>>),
    /// Over `Int64`, `Time`, `Datetime` and `Duration`.
    I64(VecGroupedReduction<NumFirstLastReducer<Last, i64>>),
    /// Over `Int128`.
    I128(VecGroupedReduction<NumFirstLastReducer<Last, i128>>),
    /// Over `UInt8`.
    U8(VecGroupedReduction<NumFirstLastReducer<Last, u8>>),
    /// Over `UInt16`.
    U16(VecGroupedReduction<NumFirstLastReducer<Last, u16>>),
    /// Over `UInt32`.
    U32(VecGroupedReduction<NumFirstLastReducer<Last, u32>>),
    /// Over `UInt64`.
    U64(VecGroupedReduction<NumFirstLastReducer<Last, u64>>),
    /// Over `Decimal`.
    Decimal(GenericFirstLastGroupedReduction<Last>),
    /// Over `Boolean`.
    Boolean(VecGroupedReduction<BoolFirstLastReducer<Last>>),
    /// Over `String` and `Binary`.
    Bytes(VecGroupedReduction<BinaryFirstLastReducer<Last>>),
}

impl AnyLast {
    /// No groups yet, over a column type.
    pub fn new(alloc: Global, dtype: DataType) -> AnyLast
        ensures shape { ⟦<AnyLast as Stated>⟧.shape result
            ≡ record { kind = kinds.Last; dtype = dtype; fixed = not (is_kept_as Bytes dtype); groups = 0; form = first_form dtype } }
        ensures states { ⟦<AnyLast as Stated>⟧.holds result [] }
    {
        kept_by!(AnyLast, alloc, dtype)
    }
}

impl Stated for AnyLast {
    ghost use Rattle.any_first_last.specs.AnyLasts.{last_shape, last_holds};

    ghost shape = { last_shape };

    ghost holds = { last_holds };
}

impl GroupedReduction for AnyLast {
    ghost use Rattle.any_first_last.specs.AnyLasts.{last_length, lasts_are_states};

    ghost long = { last_length };

    ghost states = { lasts_are_states };

    fn new_empty(&self) -> Self {
        each_in!(AnyLast, self, inner => inner.new_empty())
    }

    fn num_groups(&self) -> IdxSize {
        each!(AnyLast, self, inner => inner.num_groups())
    }

    fn in_dtype(&self) -> DataType {
        each!(AnyLast, self, inner => inner.in_dtype())
    }

    fn is_fixed(&self) -> bool {
        each!(AnyLast, self, inner => inner.is_fixed())
    }

    fn reserve(&mut self, additional: usize) -> Result<(), AllocError> {
        each!(AnyLast, self, inner => inner.reserve(additional))
    }

    fn resize(&mut self, num_groups: IdxSize) -> Result<(), AllocError> {
        each!(AnyLast, self, inner => inner.resize(num_groups))
    }

    fn update_group(
        &mut self,
        values: &Series,
        group_idx: IdxSize,
        seq_id: u64,
    ) -> Result<(), AllocError> {
        each!(AnyLast, self, inner => inner.update_group(values, group_idx, seq_id))
    }

    fn update_groups(
        &mut self,
        values: &Series,
        group_idxs: &[IdxSize],
        seq_id: u64,
    ) -> Result<(), AllocError> {
        each!(AnyLast, self, inner => inner.update_groups(values, group_idxs, seq_id))
    }

    fn combine(&mut self, other: &Self, group_idxs: &[IdxSize]) -> Result<(), AllocError> {
        both!(AnyLast, self, other, ours, theirs => ours.combine(theirs, group_idxs))
    }

    fn gather_combine(
        &mut self,
        other: &Self,
        subset: &[IdxSize],
        group_idxs: &[IdxSize],
    ) -> Result<(), AllocError> {
        both!(AnyLast, self, other, ours, theirs => ours.gather_combine(theirs, subset, group_idxs))
    }

    fn partition(
        self,
        alloc: Global,
        partition_sizes: &[IdxSize],
        partition_idxs: &[IdxSize],
    ) -> Result<Vec<Self>, Self> {
        parted!(AnyLast, self, inner, alloc, partition_sizes, partition_idxs)
    }

    fn finalize(&mut self, alloc: Global) -> Result<Series, AllocError> {
        each!(AnyLast, self, inner => inner.finalize(alloc))
    }
}
