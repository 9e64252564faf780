//! Least and greatest truth values.
ghost use Rattle.std.specs.Prelude.{◌≡◌, ◌<◌, ◌^◌, [], map, length, slice_set, slice_index_or, IfOk};
ghost use Rattle.col_core.specs.declared.data_type.DataType.{DataType};
ghost use Rattle.col_core.specs.declared.data_type.DataType.TheVariants as types;
ghost use Rattle.reduce_model.specs.Folds.{better, fold_of};
ghost use Rattle.reduce_states.specs.States.{merge, start};
ghost use Rattle.kept_values.specs.Kept.{truth_or_null};
ghost use Rattle.reduce_min_max.specs.Best.{order_of};
ghost use Rattle.reduce_min_max.specs.Truths.{truth_state, truth_states};

use crate::side::{Greatest, Least, Side};
use crate::truths::Truths;
use col_core::{ColumnBuilder, DataType, IdxSize, Name, Series};
use group_reduce::{GroupedReduction, Stated, wrap_all};
use kept_values::{lend_truth, truth_of};
use std::alloc::{AllocError, Global};
use std::marker::PhantomData;

/// The least or greatest truth value of each group, as bits.
#[derive(Drop)]
pub struct BoolGroupedReduction<S: Side> {
    truths: Truths,
    alloc: Global,
    side: PhantomData<S>,
    ghost small: { length truths < 2 ^ 32 },
}

/// The least truth value of each group.
pub type BoolMinGroupedReduction = BoolGroupedReduction<Least>;

/// The greatest truth value of each group.
pub type BoolMaxGroupedReduction = BoolGroupedReduction<Greatest>;

impl<S: Side> BoolGroupedReduction<S> {
    /// No groups yet.
    pub fn new(alloc: Global) -> Self
        ensures { result.truths ≡ [] }
    {
        BoolGroupedReduction {
            truths: Truths::new(alloc),
            alloc,
            side: PhantomData,
        }
    }

    /// A truth value enters a group, or nothing does.
    fn merge_at(&mut self, g: usize, truth: Option<bool>)
        requires { g < length self.old.truths }
        ensures long { length self.new.truths ≡ length self.old.truths }
        ensures states { (t : DataType) → truth_states self.new.truths ≡ slice_set (truth_states self.old.truths) g
            (merge S.kind t (slice_index_or (truth_states self.old.truths) g (start S.kind t)) (truth_state truth)) }
    {
        let kept = better_truth::<S>(self.truths.get(g), truth);
        self.truths.set(g, kept);
    }
}

impl<S: Side> Stated for BoolGroupedReduction<S> {
    ghost use Rattle.std.specs.Prelude.{◌≡◌, true, length};
    ghost use Rattle.col_core.specs.declared.data_type.DataType.TheVariants as types;
    ghost use Rattle.reduce_min_max.specs.Truths.{truth_states, truth_form};

    ghost shape = { λ r. record { kind = S.kind; dtype = types.Boolean; fixed = true; groups = length r.truths; form = truth_form } };

    ghost holds = { λ r xs. xs ≡ truth_states r.truths };
}

impl<S: Side> GroupedReduction for BoolGroupedReduction<S> {
    ghost use Rattle.std.specs.Prelude.{◌≡◌};
    ghost use Rattle.col_core.specs.declared.data_type.DataType.TheVariants as types;
    ghost use Rattle.group_reduce.specs.Zips.{all_states};
    ghost use Rattle.reduce_min_max.specs.BestLaws.{not_a_sum};
    ghost use Rattle.reduce_min_max.specs.TruthLaws.{truths_long};

    ghost long = { λ r xs h. truths_long r.truths xs h };

    ghost states = { λ r xs h. all_states S.kind types.Boolean xs (not_a_sum S.kind S.kind_law) };

    fn new_empty(&self) -> Self {
        Self::new(self.alloc)
    }

    fn num_groups(&self) -> IdxSize {
        self.truths.len() as u32
    }

    fn in_dtype(&self) -> DataType {
        DataType::Boolean
    }

    fn is_fixed(&self) -> bool {
        true
    }

    fn reserve(&mut self, additional: usize) -> Result<(), AllocError> {
        self.truths.reserve(additional)
    }

    fn resize(&mut self, num_groups: IdxSize) -> Result<(), AllocError> {
        self.truths.resize(num_groups as usize)
    }

    fn update_group(
        &mut self,
        values: &Series,
        group_idx: IdxSize,
        _seq_id: u64,
    ) -> Result<(), AllocError> {
        self.merge_at(group_idx as usize, best_truth::<S>(values));
        Ok(())
    }

    fn update_groups(
        &mut self,
        values: &Series,
        group_idxs: &[IdxSize],
        _seq_id: u64,
    ) -> Result<(), AllocError> {
        for (i, g) in group_idxs.iter().enumerate() {
            self.merge_at(*g as usize, truth_of(values.leaf_ref(i)));
        }
        Ok(())
    }

    fn combine(&mut self, other: &Self, group_idxs: &[IdxSize]) -> Result<(), AllocError> {
        for (i, g) in group_idxs.iter().enumerate() {
            self.merge_at(*g as usize, other.truths.get(i));
        }
        Ok(())
    }

    fn gather_combine(
        &mut self,
        other: &Self,
        subset: &[IdxSize],
        group_idxs: &[IdxSize],
    ) -> Result<(), AllocError> {
        for (i, g) in group_idxs.iter().enumerate() {
            self.merge_at(*g as usize, other.truths.get(subset[i] as usize));
        }
        Ok(())
    }

    fn partition(
        self,
        alloc: Global,
        partition_sizes: &[IdxSize],
        partition_idxs: &[IdxSize],
    ) -> Result<Vec<Self>, Self> {
        let mut parts = Vec::new(alloc);
        if parts.reserve(partition_sizes.len()).is_err() {
            return Err(self);
        }
        match self.truths.dealt(alloc, partition_sizes, partition_idxs) {
            Ok(lists) => {
                let own = self.alloc;
                let wrap = |truths: Truths| -> BoolGroupedReduction<S>
                    requires { length truths < 2 ^ 32 }
                    ensures { result.truths ≡ truths }
                {
                    BoolGroupedReduction {
                        truths,
                        alloc: own,
                        side: PhantomData,
                    }
                };
                Ok(wrap_all(parts, lists, wrap))
            }
            Err(_) => Err(self),
        }
    }

    fn finalize(&mut self, alloc: Global) -> Result<Series, AllocError> {
        let column = truth_column(alloc, &self.truths)?;
        self.truths = Truths::new(self.alloc);
        Ok(column)
    }
}

/// The better of two truth values, either of which may be missing.
fn better_truth<S: Side>(a: Option<bool>, b: Option<bool>) -> Option<bool>
    ensures { truth_or_null result ≡ better (order_of S.kind) (truth_or_null a) (truth_or_null b) }
{
    match (a, b) {
        (Some(x), Some(y)) => Some(S::better(x, y)),
        (None, _) => b,
        (_, None) => a,
    }
}

/// The least or greatest truth value of a column.
fn best_truth<S: Side>(values: &Series) -> Option<bool>
    requires { values.now.dtype ≡ types.Boolean }
    ensures { (t : DataType) → truth_or_null result ≡ fold_of S.kind t values.now.values }
{
    let mut best = None;
    for i in 0..values.len() {
        best = better_truth::<S>(best, truth_of(values.leaf_ref(i)));
    }
    best
}

/// A column with an empty name of truth values, null where one is missing.
fn truth_column(alloc: Global, truths: &Truths) -> Result<Series, AllocError>
    ensures { IfOk result (λ s. s ≡ record { name = []; dtype = types.Boolean; values = map truth_or_null truths.now }) }
{
    let mut column = ColumnBuilder::new(alloc, DataType::Boolean);
    for i in 0..truths.len() {
        column.push_ref(lend_truth(truths.get(i)))?;
    }
    column.finish(alloc, Name::new(alloc, "")?)
}
