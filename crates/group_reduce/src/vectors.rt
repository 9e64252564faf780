//! A kept value for each group.
ghost use Rattle.std.specs.Prelude.{◌≡◌, ◌<◌, ◌^◌, ℕ, List, [], true, length, vec_len};
ghost use Rattle.std.specs.List.{AllZip};
ghost use Rattle.group_reduce.specs.Reducing.{AllFit};

use crate::entering::{enter_group, enter_values, gather_values, merge_values, resize_values};
use crate::grouped::{GroupedReduction, Stated};
use crate::reducer::Reducer;
use crate::wrapped::wrap_all;
use col_core::{DataType, IdxSize, Series};
use group_parts::partition_vec;
use std::alloc::{AllocError, Global};

/// A kept value for each group.
#[derive(Drop)]
pub struct VecGroupedReduction<R: Reducer> {
    values: Vec<R::Value>,
    in_dtype: DataType,
    reducer: R,
    alloc: Global,
    ghost small: { length values.items < 2 ^ 32 },
    ghost served: { R.serves in_dtype ≡ true },
    ghost told: { R.tells_none ≡ true },
    ghost fit: { AllFit R.fits in_dtype values.items },
}

impl<R: Reducer> VecGroupedReduction<R> {
    /// No groups yet.
    pub fn new(alloc: Global, in_dtype: DataType, reducer: R) -> Self
        requires served { R.serves in_dtype ≡ true }
        requires told { R.tells_none ≡ true }
        ensures { (result.values.items ≡ []) × (result.in_dtype ≡ in_dtype) }
    {
        VecGroupedReduction {
            values: Vec::new(alloc),
            in_dtype,
            reducer,
            alloc,
        }
    }
}

impl<R: Reducer> Stated for VecGroupedReduction<R> {
    ghost shape = { λ v. record { kind = R.kind; dtype = v.in_dtype; fixed = R.FIXED; groups = length v.values.items; form = R.form } };

    ghost holds = { λ v xs. AllZip R.stands v.values.items xs };
}

impl<R: Reducer> GroupedReduction for VecGroupedReduction<R> {
    ghost use Rattle.group_reduce.specs.Zips.{AllZip-length, all_states};

    ghost long = { λ v xs h. AllZip-length R.stands v.values.items xs h };

    ghost states = { λ v xs h. all_states R.kind v.in_dtype xs R.plain };

    fn new_empty(&self) -> Self {
        VecGroupedReduction {
            values: Vec::new(self.alloc),
            in_dtype: self.in_dtype,
            reducer: self.reducer,
            alloc: self.alloc,
        }
    }

    fn num_groups(&self) -> IdxSize {
        self.values.len() as u32
    }

    fn in_dtype(&self) -> DataType {
        self.in_dtype
    }

    fn is_fixed(&self) -> bool {
        R::FIXED
    }

    fn reserve(&mut self, additional: usize) -> Result<(), AllocError> {
        self.values.reserve(additional)
    }

    fn resize(&mut self, num_groups: IdxSize) -> Result<(), AllocError> {
        resize_values(self.reducer, &mut self.values, num_groups)
    }

    fn update_group(
        &mut self,
        values: &Series,
        group_idx: IdxSize,
        seq_id: u64,
    ) -> Result<(), AllocError> {
        enter_group(self.reducer, &mut self.values, values, group_idx, seq_id)
    }

    fn update_groups(
        &mut self,
        values: &Series,
        group_idxs: &[IdxSize],
        seq_id: u64,
    ) -> Result<(), AllocError> {
        enter_values(self.reducer, &mut self.values, values, group_idxs, seq_id)
    }

    fn combine(&mut self, other: &Self, group_idxs: &[IdxSize]) -> Result<(), AllocError> {
        merge_values(
            self.reducer,
            &mut self.values,
            &other.values,
            self.in_dtype,
            group_idxs,
        )
    }

    fn gather_combine(
        &mut self,
        other: &Self,
        subset: &[IdxSize],
        group_idxs: &[IdxSize],
    ) -> Result<(), AllocError> {
        gather_values(
            self.reducer,
            &mut self.values,
            &other.values,
            self.in_dtype,
            subset,
            group_idxs,
        )
    }

    fn partition(
        self,
        alloc: Global,
        partition_sizes: &[IdxSize],
        partition_idxs: &[IdxSize],
    ) -> Result<Vec<Self>, Self> {
        let VecGroupedReduction {
            values,
            in_dtype,
            reducer,
            alloc: own,
        } = self;
        let mut parts = Vec::new(alloc);
        if parts.reserve(partition_sizes.len()).is_err() {
            return Err(VecGroupedReduction {
                values,
                in_dtype,
                reducer,
                alloc: own,
            });
        }
        match partition_vec(alloc, values, partition_sizes, partition_idxs) {
            Ok(lists) => {
                let wrap = |list: Vec<R::Value>| -> VecGroupedReduction<R>
                    requires { (length list.items < 2 ^ 32) × AllFit R.fits in_dtype list.items × (R.serves in_dtype ≡ true) × (R.tells_none ≡ true) }
                    ensures { (result.values.items ≡ list.items) × (result.in_dtype ≡ in_dtype) }
                {
                    VecGroupedReduction {
                        values: list,
                        in_dtype,
                        reducer,
                        alloc: own,
                    }
                };
                Ok(wrap_all(parts, lists, wrap))
            }
            Err(values) => Err(VecGroupedReduction {
                values,
                in_dtype,
                reducer,
                alloc: own,
            }),
        }
    }

    fn finalize(&mut self, alloc: Global) -> Result<Series, AllocError> {
        let column = self
            .reducer
            .finish(alloc, &self.values, None, self.in_dtype)?;
        self.values.clear();
        Ok(column)
    }
}
