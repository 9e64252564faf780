//! First of columns of any type.
ghost use Rattle.std.specs.Prelude.{◌≡◌, [], not};
ghost use Rattle.col_core.specs.declared.data_type.PhysicalType.TheVariants.{Bytes};
ghost use Rattle.reduce_model.specs.declared.kind.ReductionKind.TheVariants as kinds;
ghost use Rattle.kept_values.specs.Kept.{is_kept_as};
ghost use Rattle.any_first_last.specs.AnyFirstLasts.{first_form};

use crate::variants::{both, each, each_in, kept_by, parted};
use col_core::{DataType, IdxSize, Series};
use group_reduce::{GroupedReduction, Stated, VecGroupedReduction, parts_in};
use reduce_first_last::{
    BinaryFirstLastReducer, BoolFirstLastReducer, First, GenericFirstLastGroupedReduction,
    NumFirstLastReducer,
};
use std::alloc::{AllocError, Global};

/// The first value of a group, by what keeps it: the column type determines which.
#[derive(Drop)]
pub enum AnyFirst {
    /// Over `Int8`.
    I8(VecGroupedReduction<NumFirstLastReducer<First, i8>>),
    /// Over `Int16`.
    I16(VecGroupedReduction<NumFirstLastReducer<First, i16>>),
    /// Over `Int32` and `Date`.
    I32(VecGroupedReduction<NumFirstLastReducer<First, i32>>),
    /// Over `Int64`, `Time`, `Datetime` and `Duration`.
    I64(VecGroupedReduction<NumFirstLastReducer<First, i64>>),
    /// Over `Int128`.
    I128(VecGroupedReduction<NumFirstLastReducer<First, i128>>),
    /// Over `UInt8`.
    U8(VecGroupedReduction<NumFirstLastReducer<First, u8>>),
    /// Over `UInt16`.
    U16(VecGroupedReduction<NumFirstLastReducer<First, u16>>),
    /// Over `UInt32`.
    U32(VecGroupedReduction<NumFirstLastReducer<First, u32>>),
    /// Over `UInt64`.
    U64(VecGroupedReduction<NumFirstLastReducer<First, u64>>),
    /// Over `Decimal`.
    Decimal(GenericFirstLastGroupedReduction<First>),
    /// Over `Boolean`.
    Boolean(VecGroupedReduction<BoolFirstLastReducer<First>>),
    /// Over `String` and `Binary`.
    Bytes(VecGroupedReduction<BinaryFirstLastReducer<First>>),
}

impl AnyFirst {
    /// No groups yet, over a column type.
    pub fn new(alloc: Global, dtype: DataType) -> AnyFirst
        ensures shape { ⟦<AnyFirst as Stated>⟧.shape result
            ≡ record { kind = kinds.First; dtype = dtype; fixed = not (is_kept_as Bytes dtype); groups = 0; form = first_form dtype } }
        ensures states { ⟦<AnyFirst as Stated>⟧.holds result [] }
    {
        kept_by!(AnyFirst, alloc, dtype)
    }
}

impl Stated for AnyFirst {
    ghost use Rattle.any_first_last.specs.AnyFirsts.{first_shape, first_holds};

    ghost shape = { first_shape };

    ghost holds = { first_holds };
}

impl GroupedReduction for AnyFirst {
    ghost use Rattle.any_first_last.specs.AnyFirsts.{first_length, firsts_are_states};

    ghost long = { first_length };

    ghost states = { firsts_are_states };

    fn new_empty(&self) -> Self {
        each_in!(AnyFirst, self, inner => inner.new_empty())
    }

    fn num_groups(&self) -> IdxSize {
        each!(AnyFirst, self, inner => inner.num_groups())
    }

    fn in_dtype(&self) -> DataType {
        each!(AnyFirst, self, inner => inner.in_dtype())
    }

    fn is_fixed(&self) -> bool {
        each!(AnyFirst, self, inner => inner.is_fixed())
    }

    fn reserve(&mut self, additional: usize) -> Result<(), AllocError> {
        each!(AnyFirst, self, inner => inner.reserve(additional))
    }

    fn resize(&mut self, num_groups: IdxSize) -> Result<(), AllocError> {
        each!(AnyFirst, self, inner => inner.resize(num_groups))
    }

    fn update_group(
        &mut self,
        values: &Series,
        group_idx: IdxSize,
        seq_id: u64,
    ) -> Result<(), AllocError> {
        each!(AnyFirst, self, inner => inner.update_group(values, group_idx, seq_id))
    }

    fn update_groups(
        &mut self,
        values: &Series,
        group_idxs: &[IdxSize],
        seq_id: u64,
    ) -> Result<(), AllocError> {
        each!(AnyFirst, self, inner => inner.update_groups(values, group_idxs, seq_id))
    }

    fn combine(&mut self, other: &Self, group_idxs: &[IdxSize]) -> Result<(), AllocError> {
        both!(AnyFirst, self, other, ours, theirs => ours.combine(theirs, group_idxs))
    }

    fn gather_combine(
        &mut self,
        other: &Self,
        subset: &[IdxSize],
        group_idxs: &[IdxSize],
    ) -> Result<(), AllocError> {
        both!(AnyFirst, self, other, ours, theirs => ours.gather_combine(theirs, subset, group_idxs))
    }

    fn partition(
        self,
        alloc: Global,
        partition_sizes: &[IdxSize],
        partition_idxs: &[IdxSize],
    ) -> Result<Vec<Self>, Self> {
        parted!(
            AnyFirst,
            self,
            inner,
            alloc,
            partition_sizes,
            partition_idxs
        )
    }

    fn finalize(&mut self, alloc: Global) -> Result<Series, AllocError> {
        each!(AnyFirst, self, inner => inner.finalize(alloc))
    }
}
