//! Sums over texts and bytes, which are null.
ghost use Rattle.std.specs.Prelude.{◌≡◌, [], true, replicate, IfOk};
ghost use Rattle.col_core.specs.declared.leaf.Leaf.TheVariants.{Null};
ghost use Rattle.reduce_model.specs.declared.kind.ReductionKind.TheVariants.{Sum};
ghost use Rattle.reduce_states.specs.States.{start};
ghost use Rattle.group_reduce.specs.Nulls.{are_bytes};

use crate::grouped::{GroupedReduction, Stated};
use col_core::{ColumnBuilder, DataType, IdxSize, LeafRef, Name, Series};
use std::alloc::{AllocError, Global};

/// The sum over texts or bytes: every group is null, whatever enters.
#[derive(Drop)]
pub struct NullGroupedReduction {
    dtype: DataType,
    groups: IdxSize,
    ghost bytes: { are_bytes dtype ≡ true },
}

impl NullGroupedReduction {
    /// No groups yet, of texts or of bytes.
    pub fn new(dtype: DataType) -> Self
        requires { are_bytes dtype ≡ true }
        ensures { (result.groups ≡ 0) × (result.dtype ≡ dtype) }
    {
        NullGroupedReduction { dtype, groups: 0 }
    }
}

impl Stated for NullGroupedReduction {
    ghost shape = { λ r. record { kind = Sum; dtype = r.dtype; fixed = true; groups = r.groups; form = 5 } };

    ghost holds = { λ r xs. xs ≡ replicate r.groups (start Sum r.dtype) };
}

impl GroupedReduction for NullGroupedReduction {
    ghost use Rattle.group_reduce.specs.Nulls.{null_length, null_states};

    ghost long = { λ r xs h. null_length r.groups r.dtype xs h };

    ghost states = { λ r xs h. null_states r.groups r.dtype xs h };

    fn new_empty(&self) -> Self {
        NullGroupedReduction {
            dtype: self.dtype,
            groups: 0,
        }
    }

    fn num_groups(&self) -> IdxSize {
        self.groups
    }

    fn in_dtype(&self) -> DataType {
        self.dtype
    }

    fn is_fixed(&self) -> bool {
        true
    }

    fn reserve(&mut self, _additional: usize) -> Result<(), AllocError> {
        Ok(())
    }

    fn resize(&mut self, num_groups: IdxSize) -> Result<(), AllocError> {
        self.groups = num_groups;
        Ok(())
    }

    fn update_group(
        &mut self,
        _values: &Series,
        _group_idx: IdxSize,
        _seq_id: u64,
    ) -> Result<(), AllocError> {
        Ok(())
    }

    fn update_groups(
        &mut self,
        _values: &Series,
        _group_idxs: &[IdxSize],
        _seq_id: u64,
    ) -> Result<(), AllocError> {
        Ok(())
    }

    fn combine(&mut self, _other: &Self, _group_idxs: &[IdxSize]) -> Result<(), AllocError> {
        Ok(())
    }

    fn gather_combine(
        &mut self,
        _other: &Self,
        _subset: &[IdxSize],
        _group_idxs: &[IdxSize],
    ) -> Result<(), AllocError> {
        Ok(())
    }

    fn partition(
        self,
        alloc: Global,
        partition_sizes: &[IdxSize],
        _partition_idxs: &[IdxSize],
    ) -> Result<Vec<Self>, Self> {
        let mut parts = Vec::new(alloc);
        if parts.reserve(partition_sizes.len()).is_err() {
            return Err(self);
        }
        for n in partition_sizes {
            parts.push_reserved(NullGroupedReduction {
                dtype: self.dtype,
                groups: *n,
            });
        }
        Ok(parts)
    }

    fn finalize(&mut self, alloc: Global) -> Result<Series, AllocError> {
        let column = null_column(alloc, self.dtype, self.groups)?;
        self.groups = 0;
        Ok(column)
    }
}

// A column of nulls.
fn null_column(alloc: Global, dtype: DataType, groups: IdxSize) -> Result<Series, AllocError>
    ensures { IfOk result (λ s. s ≡ record { name = []; dtype = dtype; values = replicate groups Null }) }
{
    let mut column = ColumnBuilder::new(alloc, dtype);
    for _i in 0..groups {
        column.push_ref(LeafRef::Null)?;
    }
    column.finish(alloc, Name::new(alloc, "")?)
}
