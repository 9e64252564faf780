//! The reducers of least and greatest bytes.
ghost use Rattle.std.specs.Prelude.{◌≡◌, true, fold, map, option_copied, OnOk, OnErr};
ghost use Rattle.col_core.specs.declared.data_type.DataType.{DataType};
ghost use Rattle.col_core.specs.declared.data_type.PhysicalType.TheVariants as kept;
ghost use Rattle.col_core.specs.declared.leaf.Leaf.TheVariants as leaves;
ghost use Rattle.col_core.specs.Values.{item_leaf, is_text};
ghost use Rattle.reduce_model.specs.Folds.{better, fold_of};
ghost use Rattle.kept_values.specs.Kept.{bytes_or_null, is_kept_as};
ghost use Rattle.reduce_min_max.specs.Best.{order_of};

use crate::side::{Greatest, Least, Side};
use col_core::{BinaryArray, Blob, DataType, LeafRef, MutableBitmap, Series};
use group_reduce::Reducer;
use kept_values::{GivesValues, byte_array, finished_column, lend_bytes};
use std::alloc::{AllocError, Global};
use std::marker::PhantomData;

/// Keeps the least or greatest bytes of a group, if it has any. Only what is kept at the end of a
/// scan takes memory.
pub struct BinaryReducer<S: Side> {
    alloc: Global,
    side: PhantomData<S>,
}

/// Keeps the least bytes of a group.
pub type BinaryMinReducer = BinaryReducer<Least>;

/// Keeps the greatest bytes of a group.
pub type BinaryMaxReducer = BinaryReducer<Greatest>;

impl<S: Side> Clone for BinaryReducer<S> {
    fn clone(&self) -> Result<Self, AllocError> {
        Ok(*self)
    }
}

impl<S: Side> Copy for BinaryReducer<S> {}

impl<S: Side> BinaryReducer<S> {
    /// The reducer, which keeps bytes in memory of `alloc`.
    pub fn new(alloc: Global) -> Self {
        BinaryReducer {
            alloc,
            side: PhantomData,
        }
    }
}

impl<S: Side> GivesValues for BinaryReducer<S> {
    ghost use Rattle.std.specs.Prelude.{◌≡◌, true};
    ghost use Rattle.col_core.specs.declared.data_type.PhysicalType.TheVariants as kept;
    ghost use Rattle.col_core.specs.Values.{is_text};
    ghost use Rattle.kept_values.specs.Kept.{bytes_or_null, is_kept_as};

    type Kept = Option<Blob>;

    ghost given = { bytes_or_null };

    ghost is_of = { λ t v. (is_kept_as kept.Bytes t ≡ true) × (is_text t (bytes_or_null v) ≡ true) };

    fn give(kept: &Option<Blob>) -> LeafRef<'_> {
        lend_bytes(kept)
    }
}

impl<S: Side> Reducer for BinaryReducer<S> {
    ghost use Rattle.std.specs.Prelude.{◌≡◌, true, false};
    ghost use Rattle.col_core.specs.declared.data_type.PhysicalType.TheVariants as kept;
    ghost use Rattle.col_core.specs.Values.{is_text};
    ghost use Rattle.reduce_states.specs.States.{present};
    ghost use Rattle.kept_values.specs.Kept.{bytes_or_null, is_kept_as, kept_number};
    ghost use Rattle.reduce_min_max.specs.BestLaws.{not_a_sum};

    type Value = Option<Blob>;

    const FIXED: bool = false;

    ghost FIXED = { false };

    ghost kind = { S.kind };

    ghost form = { kept_number kept.Bytes };

    ghost serves = { is_kept_as kept.Bytes };

    ghost tells_none = { true };

    ghost fits = { λ t v. is_text t (bytes_or_null v) };

    ghost stands = { λ v x. x ≡ present (bytes_or_null v) };

    ghost plain = { not_a_sum S.kind S.kind_law };

    fn init(&self) -> Option<Blob> {
        None
    }

    fn combine(&self, a: &mut Option<Blob>, b: &Option<Blob>) -> Result<(), AllocError> {
        match b {
            Some(bytes) => enter::<S>(self.alloc, a, bytes.as_slice()),
            None => Ok(()),
        }
    }

    fn reduce_one(
        &self,
        a: &mut Option<Blob>,
        b: LeafRef<'_>,
        _seq_id: u64,
    ) -> Result<(), AllocError> {
        match b {
            LeafRef::Bytes(bytes) => enter::<S>(self.alloc, a, bytes),
            _ => Ok(()),
        }
    }

    fn reduce_ca(&self, v: &mut Option<Blob>, ca: &Series, _seq_id: u64) -> Result<(), AllocError> {
        match best_of_column::<S>(ca) {
            Some(bytes) => enter::<S>(self.alloc, v, bytes),
            None => Ok(()),
        }
    }

    fn finish(
        &self,
        alloc: Global,
        v: &[Option<Blob>],
        m: Option<&MutableBitmap>,
        dtype: DataType,
    ) -> Result<Series, AllocError> {
        finished_column::<Self>(alloc, v, m, dtype)
    }
}

/// Bytes enter what is kept, which is copied only if they are better. After `Err` it is as it was.
fn enter<S: Side>(alloc: Global, kept: &mut Option<Blob>, bytes: &[u8]) -> Result<(), AllocError>
    ensures ok { OnOk result (bytes_or_null kept.new
        ≡ better (order_of S.kind) (bytes_or_null kept.old) (leaves.Bytes bytes.now)) }
    ensures fits { (t : DataType) → is_text t (bytes_or_null kept.old) ≡ true
        → is_text t (leaves.Bytes bytes.now) ≡ true → is_text t (bytes_or_null kept.new) ≡ true }
    ensures err { OnErr result (kept.new ≡ kept.old) }
{
    if let Some(held) = kept {
        if !S::beats(bytes, held.as_slice()) {
            return Ok(());
        }
    }
    *kept = Some(Blob::new(alloc, bytes)?);
    Ok(())
}

/// The least or greatest bytes of a column.
fn best_of_column<S: Side>(ca: &Series) -> Option<&[u8]>
    requires { is_kept_as kept.Bytes ca.now.dtype ≡ true }
    ensures best { (t : DataType) → bytes_or_null (option_copied result) ≡ fold_of S.kind t ca.now.values }
    ensures text { is_text ca.now.dtype (bytes_or_null (option_copied result)) ≡ true }
{
    let mut best = None;
    for chunk in ca.chunks() {
        best = best_of_array::<S>(best, byte_array(chunk));
    }
    best
}

/// The best of bytes and of the present bytes of an array.
fn best_of_array<'a, S: Side>(so_far: Option<&'a [u8]>, items: &'a BinaryArray) -> Option<&'a [u8]>
    ensures { bytes_or_null (option_copied result) ≡ fold (better (order_of S.kind))
        (bytes_or_null (option_copied so_far.entry)) (map (item_leaf (λ b. leaves.Bytes b)) items.now) }
{
    let mut best = so_far;
    for i in 0..items.len() {
        best = better_bytes::<S>(best, items.get(i));
    }
    best
}

/// The better of two bytes, either of which may be missing. Of two that tie the first stays.
fn better_bytes<'a, S: Side>(a: Option<&'a [u8]>, b: Option<&'a [u8]>) -> Option<&'a [u8]>
    ensures { bytes_or_null (option_copied result) ≡ better (order_of S.kind)
        (bytes_or_null (option_copied a.entry)) (bytes_or_null (option_copied b.entry)) }
{
    match (a, b) {
        (Some(old), Some(new)) => { if S::beats(new, old) { b } else { a } }
        (None, _) => b,
        (_, None) => a,
    }
}
