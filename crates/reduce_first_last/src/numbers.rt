//! The reducer of a first or last number.
use crate::kept::{Numbered, replaces};
use crate::policy::Policy;
use col_core::{DataType, LeafRef, MutableBitmap, Series};
use group_reduce::Reducer;
use kept_values::{ColumnNumber, GivesValues, finished_column, lend_number, number_of};
use std::alloc::{AllocError, Global};
use std::marker::PhantomData;

/// Keeps the first or last number of a group, or a null.
pub struct NumFirstLastReducer<P: Policy, T: ColumnNumber> {
    policy: PhantomData<P>,
    of: PhantomData<T>,
}

impl<P: Policy, T: ColumnNumber> Clone for NumFirstLastReducer<P, T> {
    fn clone(&self) -> Result<Self, AllocError> {
        Ok(*self)
    }
}

impl<P: Policy, T: ColumnNumber> Copy for NumFirstLastReducer<P, T> {}

impl<P: Policy, T: ColumnNumber> NumFirstLastReducer<P, T> {
    /// The reducer.
    pub fn new() -> Self {
        NumFirstLastReducer {
            policy: PhantomData,
            of: PhantomData,
        }
    }
}

impl<P: Policy, T: ColumnNumber> GivesValues for NumFirstLastReducer<P, T> {
    ghost use Rattle.std.specs.Prelude.{◌≡◌, true};
    ghost use Rattle.reduce_states.specs.States.{out};
    ghost use Rattle.kept_values.specs.Kept.{number_or_null, is_kept_as};
    ghost use Rattle.reduce_first_last.specs.Numbers.{numbered_state};

    type Kept = Numbered<Option<T>>;

    ghost given = { λ v. out (numbered_state v.number (number_or_null T.value v.value)) };

    ghost is_of = { λ t v. is_kept_as T.physical t ≡ true };

    fn give(kept: &Numbered<Option<T>>) -> LeafRef<'_> {
        if kept.number == 0 {
            LeafRef::Null
        } else {
            lend_number(kept.value)
        }
    }
}

impl<P: Policy, T: ColumnNumber> Reducer for NumFirstLastReducer<P, T> {
    ghost use Rattle.std.specs.Prelude.{◌≡◌, true};
    ghost use Rattle.kept_values.specs.Kept.{number_or_null, is_kept_as, kept_number};
    ghost use Rattle.reduce_first_last.specs.Numbers.{numbered_state};
    ghost use Rattle.reduce_first_last.specs.NumberLaws.{not_a_sum};

    type Value = Numbered<Option<T>>;

    const FIXED: bool = true;

    ghost FIXED = { true };

    ghost kind = { P.kind };

    ghost form = { kept_number T.physical };

    ghost serves = { is_kept_as T.physical };

    ghost tells_none = { true };

    ghost fits = { λ t v. true };

    ghost stands = { λ v x. x ≡ numbered_state v.number (number_or_null T.value v.value) };

    ghost plain = { not_a_sum P.kind P.kind_law };

    fn init(&self) -> Numbered<Option<T>> {
        Numbered {
            value: None,
            number: 0,
        }
    }

    fn combine(
        &self,
        a: &mut Numbered<Option<T>>,
        b: &Numbered<Option<T>>,
    ) -> Result<(), AllocError> {
        if replaces::<P>(b.number, a.number) {
            a.value = b.value;
            a.number = b.number;
        }
        Ok(())
    }

    fn reduce_one(
        &self,
        a: &mut Numbered<Option<T>>,
        b: LeafRef<'_>,
        seq_id: u64,
    ) -> Result<(), AllocError> {
        if replaces::<P>(seq_id, a.number) {
            a.value = number_of(b);
            a.number = seq_id;
        }
        Ok(())
    }

    fn reduce_ca(
        &self,
        v: &mut Numbered<Option<T>>,
        ca: &Series,
        seq_id: u64,
    ) -> Result<(), AllocError> {
        let len = ca.len();
        if len == 0 {
            return Ok(());
        }
        self.reduce_at(v, ca, P::index(len), seq_id)
    }

    fn finish(
        &self,
        alloc: Global,
        v: &[Numbered<Option<T>>],
        m: Option<&MutableBitmap>,
        dtype: DataType,
    ) -> Result<Series, AllocError> {
        finished_column::<Self>(alloc, v, m, dtype)
    }
}
