//! Lists whose items are wrapped one by one.
ghost use Rattle.std.specs.Prelude.{◌≡◌, ◌≤◌, ◌<◌, ℕ, List, [], length, vec_len, vec_capacity, slice_get, slice_index_or, IfOk, IfErr, IsSomeAnd};
ghost use Rattle.std.specs.List.{All, AllZip};
ghost use Rattle.group_parts.specs.Parts.{dealt, AreSizes};
ghost use Rattle.reduce_states.specs.States.{State};
ghost use Rattle.reduce_states.specs.Reductions.{Stays};

use crate::grouped::{GroupedReduction, Stated};
use col_core::IdxSize;
use std::alloc::Global;

/// Each part is wrapped and put at the end of `out`, which is empty and has the room.
pub fn wrap_all<S: Drop, T, F: Fn(S) -> T + Drop>(mut out: Vec<T>, parts: Vec<S>, wrap: F) -> Vec<T>
    requires empty { out.items ≡ [] }
    requires room { vec_len parts ≤ vec_capacity out }
    requires can { All (λ s. F.pre wrap s) parts.items }
    ensures { AllZip (λ s t. F.post wrap s t) parts.items result.items }
{
    let count = parts.len();
    let mut left = parts.into_iter();
    for _i in 0..count {
        match left.next() {
            Some(part) => out.push_reserved(wrap(part)),
            None => unreachable!(),
        }
    }
    out
}

/// `partition` of `inner`, with `wrap` round each part: what an enum over reductions hands the call
/// on by. `wrap` keeps what contracts see.
pub fn parts_in<S: GroupedReduction, T: Stated + Drop, F: Fn(S) -> T + Drop>(
    alloc: Global,
    inner: S,
    partition_sizes: &[IdxSize],
    partition_idxs: &[IdxSize],
    wrap: F,
) -> Result<Vec<T>, T>
    requires can { (s : S) → F.pre wrap s }
    requires shapes { (s : S) (t : T) → F.post wrap s t → T.shape t ≡ S.shape s }
    requires holds { (s : S) (t : T) (xs : List State) → F.post wrap s t → S.holds s xs → T.holds t xs }
    requires lengths { length partition_idxs.now ≡ (S.shape inner).groups }
    requires sizes { AreSizes partition_sizes.now partition_idxs.now }
    ensures parts { IfOk result (λ v. vec_len v ≡ length partition_sizes.now) }
    ensures shapes { IfOk result (λ v. (p : ℕ) → p < length partition_sizes.now
        → IsSomeAnd (slice_get v.items p) (λ r. T.shape r ≡ record (S.shape inner) { groups = slice_index_or partition_sizes.now p 0 })) }
    ensures ok { IfOk result (λ v. (xs : List State) → S.holds inner xs → (p : ℕ) → p < length partition_sizes.now
        → IsSomeAnd (slice_get v.items p) (λ r. T.holds r (dealt p partition_idxs.now xs))) }
    ensures err { IfErr result (λ back. (T.shape back ≡ S.shape inner) × Stays (S.holds inner) (T.holds back)) }
{
    let mut out = Vec::new(alloc);
    if out.reserve(partition_sizes.len()).is_err() {
        return Err(wrap(inner));
    }
    match inner.partition(alloc, partition_sizes, partition_idxs) {
        Ok(parts) => Ok(wrap_all(out, parts, wrap)),
        Err(back) => Err(wrap(back)),
    }
}
