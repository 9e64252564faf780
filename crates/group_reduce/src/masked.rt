//! A kept value for each group, and a bit that tells whether anything entered it.
ghost use Rattle.std.specs.Prelude.{◌≡◌, ◌<◌, ◌-◌, ◌^◌, List, [], true, not, length, None, slice_set, slice_index_or, IsOk, OnOk, OnErr};
ghost use Rattle.std.specs.List.{list_any};
ghost use Rattle.col_core.specs.declared.data_type.DataType.{DataType};
ghost use Rattle.col_core.specs.Values.{value_at, is_null};
ghost use Rattle.reduce_states.specs.States.{State, start, merge, one};
ghost use Rattle.group_reduce.specs.Reducing.{AllFit};
ghost use Rattle.group_reduce.specs.Masked.{AreMasked, skips_nulls};

use crate::entering::fill_values;
use crate::grouped::{GroupedReduction, Stated};
use crate::reducer::Reducer;
use crate::wrapped::wrap_all;
use col_arrays::MutableBitmap;
use col_core::{DataType, IdxSize, Series};
use group_parts::partition_vec_mask;
use std::alloc::{AllocError, Global};

/// A kept value for each group, and a bit that is set where a value that is not null has entered.
#[derive(Drop)]
pub struct VecMaskGroupedReduction<R: Reducer> {
    values: Vec<R::Value>,
    mask: MutableBitmap,
    in_dtype: DataType,
    reducer: R,
    alloc: Global,
    ghost small: { length values.items < 2 ^ 32 },
    ghost paired: { length mask ≡ length values.items },
    ghost served: { R.serves in_dtype ≡ true },
    ghost skips: { skips_nulls R.kind ≡ true },
    ghost fit: { AllFit R.fits in_dtype values.items },
}

impl<R: Reducer> VecMaskGroupedReduction<R> {
    /// No groups yet. The reducer is of a kind that skips nulls.
    pub fn new(alloc: Global, in_dtype: DataType, reducer: R) -> Self
        requires served { R.serves in_dtype ≡ true }
        requires skips { skips_nulls R.kind ≡ true }
        ensures { (result.values.items ≡ []) × (result.mask ≡ []) × (result.in_dtype ≡ in_dtype) }
    {
        VecMaskGroupedReduction {
            values: Vec::new(alloc),
            mask: MutableBitmap::new(alloc),
            in_dtype,
            reducer,
            alloc,
        }
    }

    /// A value of a column enters a group. After `Err` the groups are as they were.
    fn enter_at(
        &mut self,
        g: usize,
        values: &Series,
        i: usize,
        seq_id: u64,
    ) -> Result<(), AllocError>
        requires dtype { values.now.dtype ≡ self.old.in_dtype }
        requires place { g < length self.old.values.items }
        requires inside { i < length values.now.values }
        requires number { seq_id < 2 ^ 64 - 1 }
        ensures dtype { self.new.in_dtype ≡ self.old.in_dtype }
        ensures long { length self.new.values.items ≡ length self.old.values.items }
        ensures ok { OnOk result ((t : DataType) (xs : List State) → AreMasked R.stands self.old.values.items self.old.mask xs
            → AreMasked R.stands self.new.values.items self.new.mask (slice_set xs g
            (merge R.kind t (slice_index_or xs g (start R.kind t))
            (one R.kind t (record { number = seq_id; value = value_at values.now.values i }))))) }
        ensures err { OnErr result ((self.new.values.items ≡ self.old.values.items) × (self.new.mask ≡ self.old.mask)) }
        ensures fixed { R.FIXED ≡ true → IsOk result }
    {
        if values.leaf_ref(i).is_null() {
            return Ok(());
        }
        self.reducer
            .reduce_at(&mut self.values[g], values, i, seq_id + 1)?;
        self.mask.set(g, true);
        Ok(())
    }

    /// A group of others enters a group. After `Err` the groups are as they were.
    fn merge_at(&mut self, g: usize, other: &Self, j: usize) -> Result<(), AllocError>
        requires dtype { other.now.in_dtype ≡ self.old.in_dtype }
        requires place { g < length self.old.values.items }
        requires from { j < length other.now.values.items }
        ensures dtype { self.new.in_dtype ≡ self.old.in_dtype }
        ensures long { length self.new.values.items ≡ length self.old.values.items }
        ensures ok { OnOk result ((t : DataType) (xs ys : List State) → AreMasked R.stands self.old.values.items self.old.mask xs
            → AreMasked R.stands other.now.values.items other.now.mask ys
            → AreMasked R.stands self.new.values.items self.new.mask (slice_set xs g
            (merge R.kind t (slice_index_or xs g (start R.kind t)) (slice_index_or ys j (start R.kind t))))) }
        ensures err { OnErr result ((self.new.values.items ≡ self.old.values.items) × (self.new.mask ≡ self.old.mask)) }
        ensures fixed { R.FIXED ≡ true → IsOk result }
    {
        self.reducer.combine(&mut self.values[g], &other.values[j])?;
        self.mask.or_pos(g, other.mask.get(j));
        Ok(())
    }
}

/// Whether some value is not null.
fn has_present(values: &Series) -> bool
    ensures { result ≡ list_any (λ v. not (is_null v)) values.now.values }
{
    values.null_count() < values.len()
}

impl<R: Reducer> Stated for VecMaskGroupedReduction<R> {
    ghost shape = { λ v. record { kind = R.kind; dtype = v.in_dtype; fixed = R.FIXED; groups = length v.values.items; form = R.form } };

    ghost holds = { λ v xs. AreMasked R.stands v.values.items v.mask xs };
}

impl<R: Reducer> GroupedReduction for VecMaskGroupedReduction<R> {
    ghost use Rattle.group_reduce.specs.Zips.{AllZip-length, all_states};

    ghost long = { λ v xs h. AllZip-length R.stands v.values.items xs h.stand };

    ghost states = { λ v xs h. all_states R.kind v.in_dtype xs R.plain };

    fn new_empty(&self) -> Self {
        VecMaskGroupedReduction {
            values: Vec::new(self.alloc),
            mask: MutableBitmap::new(self.alloc),
            in_dtype: self.in_dtype,
            reducer: self.reducer,
            alloc: self.alloc,
        }
    }

    fn num_groups(&self) -> IdxSize {
        self.values.len() as u32
    }

    fn in_dtype(&self) -> DataType {
        self.in_dtype
    }

    fn is_fixed(&self) -> bool {
        R::FIXED
    }

    fn reserve(&mut self, additional: usize) -> Result<(), AllocError> {
        self.values.reserve(additional)?;
        self.mask.reserve(additional)
    }

    fn resize(&mut self, num_groups: IdxSize) -> Result<(), AllocError> {
        let held = self.values.len();
        let wanted = num_groups as usize;
        if wanted <= held {
            self.mask.resize(wanted, false)?;
            self.values.truncate(wanted);
            return Ok(());
        }
        self.values.reserve(wanted - held)?;
        self.mask.resize(wanted, false)?;
        fill_values(self.reducer, &mut self.values, num_groups);
        Ok(())
    }

    fn update_group(
        &mut self,
        values: &Series,
        group_idx: IdxSize,
        seq_id: u64,
    ) -> Result<(), AllocError> {
        let g = group_idx as usize;
        self.reducer
            .reduce_ca(&mut self.values[g], values, seq_id + 1)?;
        self.mask.or_pos(g, has_present(values));
        Ok(())
    }

    fn update_groups(
        &mut self,
        values: &Series,
        group_idxs: &[IdxSize],
        seq_id: u64,
    ) -> Result<(), AllocError> {
        for (i, g) in group_idxs.iter().enumerate() {
            self.enter_at(*g as usize, values, i, seq_id)?;
        }
        Ok(())
    }

    fn combine(&mut self, other: &Self, group_idxs: &[IdxSize]) -> Result<(), AllocError> {
        for (i, g) in group_idxs.iter().enumerate() {
            self.merge_at(*g as usize, other, i)?;
        }
        Ok(())
    }

    fn gather_combine(
        &mut self,
        other: &Self,
        subset: &[IdxSize],
        group_idxs: &[IdxSize],
    ) -> Result<(), AllocError> {
        for (i, g) in group_idxs.iter().enumerate() {
            self.merge_at(*g as usize, other, subset[i] as usize)?;
        }
        Ok(())
    }

    fn partition(
        self,
        alloc: Global,
        partition_sizes: &[IdxSize],
        partition_idxs: &[IdxSize],
    ) -> Result<Vec<Self>, Self> {
        let VecMaskGroupedReduction {
            values,
            mask,
            in_dtype,
            reducer,
            alloc: own,
        } = self;
        let mut parts = Vec::new(alloc);
        if parts.reserve(partition_sizes.len()).is_err() {
            return Err(VecMaskGroupedReduction {
                values,
                mask,
                in_dtype,
                reducer,
                alloc: own,
            });
        }
        let bits = mask.freeze();
        match partition_vec_mask(alloc, values, &bits, partition_sizes, partition_idxs) {
            Ok(pairs) => {
                let wrap = |pair: (Vec<R::Value>, MutableBitmap)| -> VecMaskGroupedReduction<R>
                    requires { (length pair.0.items < 2 ^ 32) × (length pair.1 ≡ length pair.0.items) × AllFit R.fits in_dtype pair.0.items × (R.serves in_dtype ≡ true) × (skips_nulls R.kind ≡ true) }
                    ensures { (result.values.items ≡ pair.0.items) × (result.mask ≡ pair.1) × (result.in_dtype ≡ in_dtype) }
                {
                    VecMaskGroupedReduction {
                        values: pair.0,
                        mask: pair.1,
                        in_dtype,
                        reducer,
                        alloc: own,
                    }
                };
                Ok(wrap_all(parts, pairs, wrap))
            }
            Err(values) => Err(VecMaskGroupedReduction {
                values,
                mask: bits.into_mut(),
                in_dtype,
                reducer,
                alloc: own,
            }),
        }
    }

    fn finalize(&mut self, alloc: Global) -> Result<Series, AllocError> {
        let column = self
            .reducer
            .finish(alloc, &self.values, Some(&self.mask), self.in_dtype)?;
        self.values.clear();
        self.mask = MutableBitmap::new(self.alloc);
        Ok(column)
    }
}
