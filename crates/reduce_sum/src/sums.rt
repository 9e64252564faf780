//! A total for each group.
ghost use Rattle.std.specs.Prelude.{◌≡◌, ◌<◌, ◌≤◌, ◌^◌, [], true, false, length, vec_capacity};
ghost use Rattle.col_core.specs.declared.data_type.DataType.{DataType};
ghost use Rattle.reduce_model.specs.declared.kind.ReductionKind.TheVariants.{Sum};
ghost use Rattle.reduce_model.specs.Folds.{has_no_sum, reduced_type};
ghost use Rattle.reduce_states.specs.States.{start};
ghost use Rattle.reduce_states.specs.Moves.{cut_or_filled};
ghost use Rattle.reduce_sum.specs.Sums.{kept_as, form_of, total_states};

use crate::adding::{add_totals, add_totals_at, add_values, with_values};
use crate::types::SumType;
use col_core::{DataType, IdxSize, Name, Series};
use group_parts::partition_vec;
use group_reduce::{GroupedReduction, Stated, wrap_all};
use std::alloc::{AllocError, Global};
use std::mem::replace;

/// A total for each group: the sum of the values that entered, which wraps in `T`. A null adds
/// nothing.
#[derive(Drop)]
pub struct SumReduce<T: SumType> {
    totals: Vec<T>,
    in_dtype: DataType,
    alloc: Global,
    ghost small: { length totals.items < 2 ^ 32 },
    ghost sums: { has_no_sum in_dtype ≡ false },
    ghost kept: { kept_as in_dtype ≡ T.kept },
}

impl<T: SumType> SumReduce<T> {
    /// No groups yet. `T` keeps the sums over the column type.
    pub fn new(alloc: Global, in_dtype: DataType) -> Self
        requires sums { has_no_sum in_dtype ≡ false }
        requires kept { kept_as in_dtype ≡ T.kept }
        ensures { (result.totals.items ≡ []) × (result.in_dtype ≡ in_dtype) }
    {
        SumReduce {
            totals: Vec::new(alloc),
            in_dtype,
            alloc,
        }
    }

    /// The same reduction with other totals.
    fn with_totals(&self, totals: Vec<T>) -> Self
        requires { length totals.items < 2 ^ 32 }
        ensures { (result.totals.items ≡ totals.items) × (result.in_dtype ≡ self.now.in_dtype) }
    {
        SumReduce {
            totals,
            in_dtype: self.in_dtype,
            alloc: self.alloc,
        }
    }
}

impl<T: SumType> Stated for SumReduce<T> {
    ghost shape = { λ s. record { kind = Sum; dtype = s.in_dtype; fixed = true; groups = length s.totals.items; form = form_of T.kept } };

    ghost holds = { λ s xs. xs ≡ total_states T.value s.in_dtype s.totals.items };
}

impl<T: SumType> GroupedReduction for SumReduce<T> {
    ghost use Rattle.reduce_sum.specs.Sums.{total_states_length, totals_are_states};

    ghost long = { λ s xs h. total_states_length T.value s.in_dtype s.totals.items xs h };

    ghost states = { λ s xs h. totals_are_states T.value s.in_dtype s.totals.items xs h };

    fn new_empty(&self) -> Self {
        self.with_totals(Vec::new(self.alloc))
    }

    fn num_groups(&self) -> IdxSize {
        self.totals.len() as u32
    }

    fn in_dtype(&self) -> DataType {
        self.in_dtype
    }

    fn is_fixed(&self) -> bool {
        true
    }

    fn reserve(&mut self, additional: usize) -> Result<(), AllocError> {
        self.totals.reserve(additional)
    }

    fn resize(&mut self, num_groups: IdxSize) -> Result<(), AllocError> {
        let held = self.totals.len();
        let wanted = num_groups as usize;
        if wanted <= held {
            self.totals.truncate(wanted);
            return Ok(());
        }
        self.totals.reserve(wanted - held)?;
        fill_totals(&mut self.totals, num_groups);
        Ok(())
    }

    fn update_group(
        &mut self,
        values: &Series,
        group_idx: IdxSize,
        _seq_id: u64,
    ) -> Result<(), AllocError> {
        let total = self.totals[group_idx as usize];
        self.totals[group_idx as usize] = with_values(total, values);
        Ok(())
    }

    fn update_groups(
        &mut self,
        values: &Series,
        group_idxs: &[IdxSize],
        _seq_id: u64,
    ) -> Result<(), AllocError> {
        add_values(&mut self.totals, values, group_idxs);
        Ok(())
    }

    fn combine(&mut self, other: &Self, group_idxs: &[IdxSize]) -> Result<(), AllocError> {
        add_totals(&mut self.totals, &other.totals, group_idxs);
        Ok(())
    }

    fn gather_combine(
        &mut self,
        other: &Self,
        subset: &[IdxSize],
        group_idxs: &[IdxSize],
    ) -> Result<(), AllocError> {
        add_totals_at(&mut self.totals, &other.totals, subset, group_idxs);
        Ok(())
    }

    fn partition(
        self,
        alloc: Global,
        partition_sizes: &[IdxSize],
        partition_idxs: &[IdxSize],
    ) -> Result<Vec<Self>, Self> {
        let mut parts = Vec::new(alloc);
        if parts.reserve(partition_sizes.len()).is_err() {
            return Err(self);
        }
        let empty = self.new_empty();
        match partition_vec(alloc, self.totals, partition_sizes, partition_idxs) {
            Ok(lists) => {
                let part = |totals: Vec<T>| -> SumReduce<T>
                    requires { length totals.items < 2 ^ 32 }
                    ensures { (result.totals.items ≡ totals.items) × (result.in_dtype ≡ empty.in_dtype) }
                { empty.with_totals(totals) };
                Ok(wrap_all(parts, lists, part))
            }
            Err(totals) => Err(empty.with_totals(totals)),
        }
    }

    fn finalize(&mut self, alloc: Global) -> Result<Series, AllocError> {
        let name = Name::new(alloc, "")?;
        let mut chunks = Vec::with_capacity(alloc, 1)?;
        let totals = replace(&mut self.totals, Vec::new(self.alloc));
        let chunk = T::into_chunk(totals);
        let _count = chunk.len();
        chunks.push_reserved(chunk);
        Ok(Series::from_chunks(name, sum_type(self.in_dtype), chunks))
    }
}

/// The type of a sum over a column type.
pub fn sum_type(dtype: DataType) -> DataType
    ensures { result ≡ reduced_type Sum dtype }
{
    match dtype {
        DataType::Int8 | DataType::UInt8 | DataType::Int16 | DataType::UInt16 => DataType::Int64,
        _ => dtype,
    }
}

/// Adds totals of nothing until there are so many, for which there is room.
fn fill_totals<T: SumType>(totals: &mut Vec<T>, num_groups: IdxSize)
    requires fewer { length totals.old.items ≤ num_groups }
    requires room { num_groups ≤ vec_capacity totals.old }
    ensures long { length totals.new.items ≡ num_groups }
    ensures states { (t : DataType) → total_states T.value t totals.new.items
        ≡ cut_or_filled (start Sum t) (total_states T.value t totals.old.items) num_groups }
{
    let held = totals.len();
    let wanted = num_groups as usize;
    for _i in held..wanted {
        totals.push_reserved(T::zero());
    }
}
