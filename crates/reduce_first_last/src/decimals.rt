//! First or last of decimals.
ghost use Rattle.std.specs.Prelude.{◌≡◌, true, []};
ghost use Rattle.reduce_first_last.specs.Numbers.{is_decimal};

use crate::kept::Numbered;
use crate::numbers::NumFirstLastReducer;
use crate::policy::Policy;
use col_core::{DataType, IdxSize, LeafRef, MutableBitmap, Series};
use group_reduce::{GroupedReduction, Reducer, Stated, VecGroupedReduction, parts_in};
use std::alloc::{AllocError, Global};

/// Keeps the first or last decimal of a group as a number of 128 bits, or a null.
pub struct DecimalFirstLastReducer<P: Policy> {
    numbers: NumFirstLastReducer<P, i128>,
}

impl<P: Policy> Clone for DecimalFirstLastReducer<P> {
    fn clone(&self) -> Result<Self, AllocError> {
        Ok(*self)
    }
}

impl<P: Policy> Copy for DecimalFirstLastReducer<P> {}

impl<P: Policy> Reducer for DecimalFirstLastReducer<P> {
    ghost use Rattle.std.specs.Prelude.{◌≡◌, true};
    ghost use Rattle.reduce_first_last.specs.Numbers.{is_decimal, numbered_state, decimal_form};
    ghost use Rattle.kept_values.specs.Kept.{number_or_null};
    ghost use Rattle.reduce_first_last.specs.NumberLaws.{not_a_sum};

    type Value = Numbered<Option<i128>>;

    const FIXED: bool = true;

    ghost FIXED = { true };

    ghost kind = { P.kind };

    ghost form = { decimal_form };

    ghost serves = { is_decimal };

    ghost tells_none = { true };

    ghost fits = { λ t v. true };

    ghost stands = { λ v x. x ≡ numbered_state v.number (number_or_null (λ z. z) v.value) };

    ghost plain = { not_a_sum P.kind P.kind_law };

    fn init(&self) -> Numbered<Option<i128>> {
        self.numbers.init()
    }

    fn combine(
        &self,
        a: &mut Numbered<Option<i128>>,
        b: &Numbered<Option<i128>>,
    ) -> Result<(), AllocError> {
        self.numbers.combine(a, b)
    }

    fn reduce_one(
        &self,
        a: &mut Numbered<Option<i128>>,
        b: LeafRef<'_>,
        seq_id: u64,
    ) -> Result<(), AllocError> {
        self.numbers.reduce_one(a, b, seq_id)
    }

    fn reduce_ca(
        &self,
        v: &mut Numbered<Option<i128>>,
        ca: &Series,
        seq_id: u64,
    ) -> Result<(), AllocError> {
        self.numbers.reduce_ca(v, ca, seq_id)
    }

    fn finish(
        &self,
        alloc: Global,
        v: &[Numbered<Option<i128>>],
        m: Option<&MutableBitmap>,
        dtype: DataType,
    ) -> Result<Series, AllocError> {
        self.numbers.finish(alloc, v, m, dtype)
    }
}

/// First or last of decimals.
#[derive(Drop)]
pub struct GenericFirstLastGroupedReduction<P: Policy>
where
    DecimalFirstLastReducer<P>: Reducer,
{
    decimals: VecGroupedReduction<DecimalFirstLastReducer<P>>,
}

impl<P: Policy> GenericFirstLastGroupedReduction<P> {
    /// No groups yet, of decimals.
    pub fn new(alloc: Global, in_dtype: DataType) -> Self
        requires { is_decimal in_dtype ≡ true }
        ensures { (result.decimals.values.items ≡ []) × (result.decimals.in_dtype ≡ in_dtype) }
    {
        let reducer = DecimalFirstLastReducer {
            numbers: NumFirstLastReducer::new(),
        };
        GenericFirstLastGroupedReduction {
            decimals: VecGroupedReduction::new(alloc, in_dtype, reducer),
        }
    }
}

impl<P: Policy> Stated for GenericFirstLastGroupedReduction<P> {
    ghost use Rattle.std.specs.Prelude.{◌≡◌, true, length};
    ghost use Rattle.std.specs.List.{AllZip};
    ghost use Rattle.kept_values.specs.Kept.{number_or_null};
    ghost use Rattle.reduce_first_last.specs.Numbers.{numbered_state, decimal_form};

    ghost shape = { λ r. record { kind = P.kind; dtype = r.decimals.in_dtype; fixed = true; groups = length r.decimals.values.items; form = decimal_form } };

    ghost holds = { λ r xs. AllZip (λ v x. x ≡ numbered_state v.number (number_or_null (λ z. z) v.value)) r.decimals.values.items xs };
}

impl<P: Policy> GroupedReduction for GenericFirstLastGroupedReduction<P> {
    ghost use Rattle.std.specs.Prelude.{◌≡◌};
    ghost use Rattle.group_reduce.specs.Zips.{AllZip-length, all_states};
    ghost use Rattle.kept_values.specs.Kept.{number_or_null};
    ghost use Rattle.reduce_first_last.specs.Numbers.{numbered_state};
    ghost use Rattle.reduce_first_last.specs.NumberLaws.{not_a_sum};

    ghost long = { λ r xs h. AllZip-length (λ v x. x ≡ numbered_state v.number (number_or_null (λ z. z) v.value)) r.decimals.values.items xs h };

    ghost states = { λ r xs h. all_states P.kind r.decimals.in_dtype xs (not_a_sum P.kind P.kind_law) };

    fn new_empty(&self) -> Self {
        GenericFirstLastGroupedReduction {
            decimals: self.decimals.new_empty(),
        }
    }

    fn num_groups(&self) -> IdxSize {
        self.decimals.num_groups()
    }

    fn in_dtype(&self) -> DataType {
        self.decimals.in_dtype()
    }

    fn is_fixed(&self) -> bool {
        self.decimals.is_fixed()
    }

    fn reserve(&mut self, additional: usize) -> Result<(), AllocError> {
        self.decimals.reserve(additional)
    }

    fn resize(&mut self, num_groups: IdxSize) -> Result<(), AllocError> {
        self.decimals.resize(num_groups)
    }

    fn update_group(
        &mut self,
        values: &Series,
        group_idx: IdxSize,
        seq_id: u64,
    ) -> Result<(), AllocError> {
        self.decimals.update_group(values, group_idx, seq_id)
    }

    fn update_groups(
        &mut self,
        values: &Series,
        group_idxs: &[IdxSize],
        seq_id: u64,
    ) -> Result<(), AllocError> {
        self.decimals.update_groups(values, group_idxs, seq_id)
    }

    fn combine(&mut self, other: &Self, group_idxs: &[IdxSize]) -> Result<(), AllocError> {
        self.decimals.combine(&other.decimals, group_idxs)
    }

    fn gather_combine(
        &mut self,
        other: &Self,
        subset: &[IdxSize],
        group_idxs: &[IdxSize],
    ) -> Result<(), AllocError> {
        self.decimals
            .gather_combine(&other.decimals, subset, group_idxs)
    }

    fn partition(
        self,
        alloc: Global,
        partition_sizes: &[IdxSize],
        partition_idxs: &[IdxSize],
    ) -> Result<Vec<Self>, Self> {
        let GenericFirstLastGroupedReduction { decimals } = self;
        parts_in(alloc, decimals, partition_sizes, partition_idxs, |part| {
            GenericFirstLastGroupedReduction { decimals: part }
        })
    }

    fn finalize(&mut self, alloc: Global) -> Result<Series, AllocError> {
        self.decimals.finalize(alloc)
    }
}
