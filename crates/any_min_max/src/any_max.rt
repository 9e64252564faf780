//! Greatest values of columns of any type.
ghost use Rattle.std.specs.Prelude.{◌≡◌, [], not};
ghost use Rattle.col_core.specs.declared.data_type.PhysicalType.TheVariants as kept;
ghost use Rattle.col_core.specs.Physical.{physical_of};
ghost use Rattle.reduce_model.specs.declared.kind.ReductionKind.TheVariants as kinds;
ghost use Rattle.kept_values.specs.Kept.{is_kept_as, kept_number};

use crate::arms::{both, each, each_in, numbers, parted};
use col_core::{DataType, IdxSize, Series};
use group_reduce::{
    GroupedReduction, Stated, VecGroupedReduction, VecMaskGroupedReduction, parts_in,
};
use reduce_min_max::{BinaryMaxReducer, BinaryReducer, BoolMaxGroupedReduction, Max, NumReducer};
use std::alloc::{AllocError, Global};

/// The greatest value of each group, by how the values of the column type are kept.
#[derive(Drop)]
pub enum AnyMax {
    /// Over `Boolean`.
    Boolean(BoolMaxGroupedReduction),
    /// Over `Int8`.
    I8(VecMaskGroupedReduction<NumReducer<Max<i8>>>),
    /// Over `Int16`.
    I16(VecMaskGroupedReduction<NumReducer<Max<i16>>>),
    /// Over `Int32` and `Date`.
    I32(VecMaskGroupedReduction<NumReducer<Max<i32>>>),
    /// Over `Int64`, `Time`, `Datetime` and `Duration`.
    I64(VecMaskGroupedReduction<NumReducer<Max<i64>>>),
    /// Over `Int128` and `Decimal`.
    I128(VecMaskGroupedReduction<NumReducer<Max<i128>>>),
    /// Over `UInt8`.
    U8(VecMaskGroupedReduction<NumReducer<Max<u8>>>),
    /// Over `UInt16`.
    U16(VecMaskGroupedReduction<NumReducer<Max<u16>>>),
    /// Over `UInt32`.
    U32(VecMaskGroupedReduction<NumReducer<Max<u32>>>),
    /// Over `UInt64`.
    U64(VecMaskGroupedReduction<NumReducer<Max<u64>>>),
    /// Over `String` and `Binary`.
    Bytes(VecGroupedReduction<BinaryMaxReducer>),
}

impl AnyMax {
    /// No groups yet, over a column type.
    pub fn new(alloc: Global, dtype: DataType) -> AnyMax
        ensures shape { ⟦<AnyMax as Stated>⟧.shape result ≡ record { kind = kinds.Max; dtype = dtype; fixed = not (is_kept_as kept.Bytes dtype); groups = 0; form = kept_number (physical_of dtype) } }
        ensures states { ⟦<AnyMax as Stated>⟧.holds result [] }
    {
        match dtype {
            DataType::Boolean => AnyMax::Boolean(BoolMaxGroupedReduction::new(alloc)),
            DataType::Int8 => AnyMax::I8(numbers!(alloc, dtype)),
            DataType::Int16 => AnyMax::I16(numbers!(alloc, dtype)),
            DataType::Int32 | DataType::Date => AnyMax::I32(numbers!(alloc, dtype)),
            DataType::Int64 | DataType::Time | DataType::Datetime(_) | DataType::Duration(_) =>
                AnyMax::I64(numbers!(alloc, dtype)),
            DataType::Int128 | DataType::Decimal(_, _) => AnyMax::I128(numbers!(alloc, dtype)),
            DataType::UInt8 => AnyMax::U8(numbers!(alloc, dtype)),
            DataType::UInt16 => AnyMax::U16(numbers!(alloc, dtype)),
            DataType::UInt32 => AnyMax::U32(numbers!(alloc, dtype)),
            DataType::UInt64 => AnyMax::U64(numbers!(alloc, dtype)),
            DataType::String | DataType::Binary => AnyMax::Bytes(VecGroupedReduction::new(
                alloc,
                dtype,
                BinaryReducer::new(alloc),
            )),
        }
    }
}

impl Stated for AnyMax {
    ghost use Rattle.any_min_max.specs.AnyMaxes.{max_shape, max_holds};

    ghost shape = { max_shape };

    ghost holds = { max_holds };
}

impl GroupedReduction for AnyMax {
    ghost use Rattle.any_min_max.specs.AnyMaxes.{max_length, maxes_are_states};

    ghost long = { max_length };

    ghost states = { maxes_are_states };

    fn new_empty(&self) -> Self {
        each_in!(AnyMax, self, inner => inner.new_empty())
    }

    fn num_groups(&self) -> IdxSize {
        each!(AnyMax, self, inner => inner.num_groups())
    }

    fn in_dtype(&self) -> DataType {
        each!(AnyMax, self, inner => inner.in_dtype())
    }

    fn is_fixed(&self) -> bool {
        each!(AnyMax, self, inner => inner.is_fixed())
    }

    fn reserve(&mut self, additional: usize) -> Result<(), AllocError> {
        each!(AnyMax, self, inner => inner.reserve(additional))
    }

    fn resize(&mut self, num_groups: IdxSize) -> Result<(), AllocError> {
        each!(AnyMax, self, inner => inner.resize(num_groups))
    }

    fn update_group(
        &mut self,
        values: &Series,
        group_idx: IdxSize,
        seq_id: u64,
    ) -> Result<(), AllocError> {
        each!(AnyMax, self, inner => inner.update_group(values, group_idx, seq_id))
    }

    fn update_groups(
        &mut self,
        values: &Series,
        group_idxs: &[IdxSize],
        seq_id: u64,
    ) -> Result<(), AllocError> {
        each!(AnyMax, self, inner => inner.update_groups(values, group_idxs, seq_id))
    }

    fn combine(&mut self, other: &Self, group_idxs: &[IdxSize]) -> Result<(), AllocError> {
        both!(AnyMax, self, other, ours, theirs => ours.combine(theirs, group_idxs))
    }

    fn gather_combine(
        &mut self,
        other: &Self,
        subset: &[IdxSize],
        group_idxs: &[IdxSize],
    ) -> Result<(), AllocError> {
        both!(AnyMax, self, other, ours, theirs => ours.gather_combine(theirs, subset, group_idxs))
    }

    fn partition(
        self,
        alloc: Global,
        partition_sizes: &[IdxSize],
        partition_idxs: &[IdxSize],
    ) -> Result<Vec<Self>, Self> {
        parted!(AnyMax, self, inner, alloc, partition_sizes, partition_idxs)
    }

    fn finalize(&mut self, alloc: Global) -> Result<Series, AllocError> {
        each!(AnyMax, self, inner => inner.finalize(alloc))
    }
}
