//! The reducer of a first or last truth value.
use crate::kept::{Numbered, replaces};
use crate::policy::Policy;
use col_core::{DataType, LeafRef, MutableBitmap, Series};
use group_reduce::Reducer;
use kept_values::{GivesValues, finished_column, lend_truth, truth_of};
use std::alloc::{AllocError, Global};
use std::marker::PhantomData;

/// Keeps the first or last truth value of a group, or a null.
pub struct BoolFirstLastReducer<P: Policy> {
    policy: PhantomData<P>,
}

impl<P: Policy> Clone for BoolFirstLastReducer<P> {
    fn clone(&self) -> Result<Self, AllocError> {
        Ok(*self)
    }
}

impl<P: Policy> Copy for BoolFirstLastReducer<P> {}

impl<P: Policy> BoolFirstLastReducer<P> {
    /// The reducer.
    pub fn new() -> Self {
        BoolFirstLastReducer {
            policy: PhantomData,
        }
    }
}

impl<P: Policy> GivesValues for BoolFirstLastReducer<P> {
    ghost use Rattle.std.specs.Prelude.{◌≡◌, true};
    ghost use Rattle.reduce_states.specs.States.{out};
    ghost use Rattle.col_core.specs.declared.data_type.PhysicalType.TheVariants as kept;
    ghost use Rattle.kept_values.specs.Kept.{truth_or_null, is_kept_as};
    ghost use Rattle.reduce_first_last.specs.Numbers.{numbered_state};

    type Kept = Numbered<Option<bool>>;

    ghost given = { λ v. out (numbered_state v.number (truth_or_null v.value)) };

    ghost is_of = { λ t v. is_kept_as kept.Boolean t ≡ true };

    fn give(kept: &Numbered<Option<bool>>) -> LeafRef<'_> {
        if kept.number == 0 {
            LeafRef::Null
        } else {
            lend_truth(kept.value)
        }
    }
}

impl<P: Policy> Reducer for BoolFirstLastReducer<P> {
    ghost use Rattle.std.specs.Prelude.{◌≡◌, true};
    ghost use Rattle.col_core.specs.declared.data_type.PhysicalType.TheVariants as kept;
    ghost use Rattle.kept_values.specs.Kept.{truth_or_null, is_kept_as, kept_number};
    ghost use Rattle.reduce_first_last.specs.Numbers.{numbered_state};
    ghost use Rattle.reduce_first_last.specs.NumberLaws.{not_a_sum};

    type Value = Numbered<Option<bool>>;

    const FIXED: bool = true;

    ghost FIXED = { true };

    ghost kind = { P.kind };

    ghost form = { kept_number kept.Boolean };

    ghost serves = { is_kept_as kept.Boolean };

    ghost tells_none = { true };

    ghost fits = { λ t v. true };

    ghost stands = { λ v x. x ≡ numbered_state v.number (truth_or_null v.value) };

    ghost plain = { not_a_sum P.kind P.kind_law };

    fn init(&self) -> Numbered<Option<bool>> {
        Numbered {
            value: None,
            number: 0,
        }
    }

    fn combine(
        &self,
        a: &mut Numbered<Option<bool>>,
        b: &Numbered<Option<bool>>,
    ) -> Result<(), AllocError> {
        if replaces::<P>(b.number, a.number) {
            a.value = b.value;
            a.number = b.number;
        }
        Ok(())
    }

    fn reduce_one(
        &self,
        a: &mut Numbered<Option<bool>>,
        b: LeafRef<'_>,
        seq_id: u64,
    ) -> Result<(), AllocError> {
        if replaces::<P>(seq_id, a.number) {
            a.value = truth_of(b);
            a.number = seq_id;
        }
        Ok(())
    }

    fn reduce_ca(
        &self,
        v: &mut Numbered<Option<bool>>,
        ca: &Series,
        seq_id: u64,
    ) -> Result<(), AllocError> {
        let len = ca.len();
        if len == 0 {
            return Ok(());
        }
        self.reduce_at(v, ca, P::index(len), seq_id)
    }

    fn finish(
        &self,
        alloc: Global,
        v: &[Numbered<Option<bool>>],
        m: Option<&MutableBitmap>,
        dtype: DataType,
    ) -> Result<Series, AllocError> {
        finished_column::<Self>(alloc, v, m, dtype)
    }
}
