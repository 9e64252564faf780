//! The reducer of a least or greatest number.
ghost use Rattle.col_core.specs.declared.data_type.DataType.{DataType};
ghost use Rattle.reduce_states.specs.States.{State, merge};
ghost use Rattle.reduce_min_max.specs.Best.{IsBestSoFar};

use crate::numeric::NumericReduction;
use col_core::{DataType, LeafRef, MutableBitmap, Native, Series};
use group_reduce::Reducer;
use kept_values::{GivesValues, finished_column, lend_number, number_of};
use std::alloc::{AllocError, Global};
use std::marker::PhantomData;

/// Keeps the least or greatest number of a group. A group that has none keeps the number that gives
/// way to every other, which it does not tell apart from itself.
pub struct NumReducer<R: NumericReduction> {
    of: PhantomData<R>,
}

impl<R: NumericReduction> Clone for NumReducer<R> {
    fn clone(&self) -> Result<Self, AllocError> {
        Ok(*self)
    }
}

impl<R: NumericReduction> Copy for NumReducer<R> {}

impl<R: NumericReduction> NumReducer<R> {
    /// The reducer.
    pub fn new() -> Self {
        NumReducer { of: PhantomData }
    }
}

impl<R: NumericReduction> GivesValues for NumReducer<R> {
    ghost use Rattle.std.specs.Prelude.{◌≡◌, true};
    ghost use Rattle.col_core.specs.declared.leaf.Leaf.TheVariants as leaves;
    ghost use Rattle.kept_values.specs.Kept.{is_kept_as};

    type Kept = R::Elem;

    ghost given = { λ v. leaves.Whole (R.Elem.value v) };

    ghost is_of = { λ t v. is_kept_as R.Elem.physical t ≡ true };

    fn give(kept: &R::Elem) -> LeafRef<'_> {
        lend_number(Some(*kept))
    }
}

impl<R: NumericReduction> Reducer for NumReducer<R> {
    ghost use Rattle.std.specs.Prelude.{◌≡◌, true, false};
    ghost use Rattle.group_reduce.specs.Masked.{skips_nulls};
    ghost use Rattle.kept_values.specs.Kept.{is_kept_as, kept_number};
    ghost use Rattle.reduce_min_max.specs.Best.{IsBestSoFar};
    ghost use Rattle.reduce_min_max.specs.BestLaws.{not_a_sum};

    type Value = R::Elem;

    const FIXED: bool = true;

    ghost FIXED = { true };

    ghost kind = { R.kind };

    ghost form = { kept_number R.Elem.physical };

    ghost serves = { is_kept_as R.Elem.physical };

    ghost tells_none = { false };

    ghost fits = { λ t v. true };

    ghost stands = { λ v x. IsBestSoFar R.start (R.Elem.value v) x };

    ghost plain = { not_a_sum R.kind R.kind_law };

    fn init(&self) -> R::Elem {
        R::init()
    }

    fn combine(&self, a: &mut R::Elem, b: &R::Elem) -> Result<(), AllocError> {
        enter::<R>(a, *b);
        Ok(())
    }

    fn reduce_one(&self, a: &mut R::Elem, b: LeafRef<'_>, _seq_id: u64) -> Result<(), AllocError> {
        if let Some(number) = number_of(b) {
            enter::<R>(a, number);
        }
        Ok(())
    }

    fn reduce_ca(&self, v: &mut R::Elem, ca: &Series, _seq_id: u64) -> Result<(), AllocError> {
        if let Some(best) = R::reduce_ca(ca) {
            enter::<R>(v, best);
        }
        Ok(())
    }

    fn finish(
        &self,
        alloc: Global,
        v: &[R::Elem],
        m: Option<&MutableBitmap>,
        dtype: DataType,
    ) -> Result<Series, AllocError> {
        finished_column::<Self>(alloc, v, m, dtype)
    }
}

/// A number enters a kept one.
fn enter<R: NumericReduction>(kept: &mut R::Elem, number: R::Elem)
    ensures { (t : DataType) (x y : State) → IsBestSoFar R.start (R.Elem.value kept.old) x → IsBestSoFar R.start (R.Elem.value number) y
        → IsBestSoFar R.start (R.Elem.value kept.new) (merge R.kind t x y) }
{
    know_number(*kept);
    know_number(number);
    *kept = R::combine(*kept, number);
}

/// Tells that a number is one of its type. It has no effect, and none is compiled.
#[inline(always)]
fn know_number<T: Native>(number: T)
    ensures { T.fits (T.value number) }
{
    let _number = number.to_whole();
}
