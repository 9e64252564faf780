//! The reducer of a first or last bytes.
use crate::kept::{Numbered, replaces};
use crate::policy::Policy;
use col_core::{Blob, DataType, LeafRef, MutableBitmap, Series};
use group_reduce::Reducer;
use kept_values::{GivesValues, bytes_of, finished_column, lend_bytes};
use std::alloc::{AllocError, Global};
use std::marker::PhantomData;

/// Keeps the first or last bytes of a group, or a null.
pub struct BinaryFirstLastReducer<P: Policy> {
    alloc: Global,
    policy: PhantomData<P>,
}

impl<P: Policy> Clone for BinaryFirstLastReducer<P> {
    fn clone(&self) -> Result<Self, AllocError> {
        Ok(*self)
    }
}

impl<P: Policy> Copy for BinaryFirstLastReducer<P> {}

impl<P: Policy> BinaryFirstLastReducer<P> {
    /// The reducer, which keeps bytes in memory of `alloc`.
    pub fn new(alloc: Global) -> Self {
        BinaryFirstLastReducer {
            alloc,
            policy: PhantomData,
        }
    }
}

impl<P: Policy> GivesValues for BinaryFirstLastReducer<P> {
    ghost use Rattle.std.specs.Prelude.{◌≡◌, true};
    ghost use Rattle.col_core.specs.Values.{is_text};
    ghost use Rattle.reduce_states.specs.States.{out};
    ghost use Rattle.col_core.specs.declared.data_type.PhysicalType.TheVariants as kept;
    ghost use Rattle.kept_values.specs.Kept.{bytes_or_null, is_kept_as};
    ghost use Rattle.reduce_first_last.specs.Numbers.{numbered_state};

    type Kept = Numbered<Option<Blob>>;

    ghost given = { λ v. out (numbered_state v.number (bytes_or_null v.value)) };

    ghost is_of = { λ t v. (is_kept_as kept.Bytes t ≡ true) × (is_text t (bytes_or_null v.value) ≡ true) };

    fn give(kept: &Numbered<Option<Blob>>) -> LeafRef<'_> {
        if kept.number == 0 {
            LeafRef::Null
        } else {
            lend_bytes(&kept.value)
        }
    }
}

impl<P: Policy> Reducer for BinaryFirstLastReducer<P> {
    ghost use Rattle.std.specs.Prelude.{◌≡◌, true, false};
    ghost use Rattle.col_core.specs.Values.{is_text};
    ghost use Rattle.col_core.specs.declared.data_type.PhysicalType.TheVariants as kept;
    ghost use Rattle.kept_values.specs.Kept.{bytes_or_null, is_kept_as, kept_number};
    ghost use Rattle.reduce_first_last.specs.Numbers.{numbered_state};
    ghost use Rattle.reduce_first_last.specs.NumberLaws.{not_a_sum};

    type Value = Numbered<Option<Blob>>;

    const FIXED: bool = false;

    ghost FIXED = { false };

    ghost kind = { P.kind };

    ghost form = { kept_number kept.Bytes };

    ghost serves = { is_kept_as kept.Bytes };

    ghost tells_none = { true };

    ghost fits = { λ t v. is_text t (bytes_or_null v.value) };

    ghost stands = { λ v x. x ≡ numbered_state v.number (bytes_or_null v.value) };

    ghost plain = { not_a_sum P.kind P.kind_law };

    fn init(&self) -> Numbered<Option<Blob>> {
        Numbered {
            value: None,
            number: 0,
        }
    }

    fn combine(
        &self,
        a: &mut Numbered<Option<Blob>>,
        b: &Numbered<Option<Blob>>,
    ) -> Result<(), AllocError> {
        if replaces::<P>(b.number, a.number) {
            a.value = bytes_of(self.alloc, lend_bytes(&b.value))?;
            a.number = b.number;
        }
        Ok(())
    }

    fn reduce_one(
        &self,
        a: &mut Numbered<Option<Blob>>,
        b: LeafRef<'_>,
        seq_id: u64,
    ) -> Result<(), AllocError> {
        if replaces::<P>(seq_id, a.number) {
            a.value = bytes_of(self.alloc, b)?;
            a.number = seq_id;
        }
        Ok(())
    }

    fn reduce_ca(
        &self,
        v: &mut Numbered<Option<Blob>>,
        ca: &Series,
        seq_id: u64,
    ) -> Result<(), AllocError> {
        let len = ca.len();
        if len == 0 {
            return Ok(());
        }
        self.reduce_at(v, ca, P::index(len), seq_id)
    }

    fn finish(
        &self,
        alloc: Global,
        v: &[Numbered<Option<Blob>>],
        m: Option<&MutableBitmap>,
        dtype: DataType,
    ) -> Result<Series, AllocError> {
        finished_column::<Self>(alloc, v, m, dtype)
    }
}
