//! The items of a list, each to the part that its index names.
ghost use Rattle.std.specs.Prelude.{◌≡◌, ◌<◌, ◌≤◌, ℕ, [], length, vec_len, vec_capacity, slice_get, IfOk, IfErr, IsSomeAnd};
ghost use Rattle.std.specs.List.{zip};
ghost use Rattle.group_parts.specs.Parts.{dealt, AreSizes};

use col_arrays::{Bitmap, IdxSize, MutableBitmap};
use std::alloc::{AllocError, Global};

/// Item `i` goes to list `partition_idxs[i]`, in order. `Err` is want of memory, and hands `v` back.
pub fn partition_vec<T: Drop>(
    alloc: Global,
    v: Vec<T>,
    partition_sizes: &[IdxSize],
    partition_idxs: &[IdxSize],
) -> Result<Vec<Vec<T>>, Vec<T>>
    requires lengths { length partition_idxs.now ≡ vec_len v }
    requires sizes { AreSizes partition_sizes.now partition_idxs.now }
    ensures parts { IfOk result (λ lists. vec_len lists ≡ length partition_sizes.now) }
    ensures ok { IfOk result (λ lists. (p : ℕ) → p < length partition_sizes.now
        → IsSomeAnd (slice_get lists.items p) (λ list. list.items ≡ dealt p partition_idxs.now v.items)) }
    ensures err { IfErr result (λ back. back.items ≡ v.items) }
{
    let mut lists: Vec<Vec<T>> = Vec::new(alloc);
    if lists.reserve(partition_sizes.len()).is_err() {
        return Err(v);
    }
    for n in partition_sizes {
        let mut list = Vec::new(alloc);
        if list.reserve(*n as usize).is_err() {
            return Err(v);
        }
        lists.push_reserved(list);
    }
    let mut items = v.into_iter();
    for p in partition_idxs {
        match items.next() {
            Some(item) => lists[*p as usize].push_reserved(item),
            None => unreachable!(),
        }
    }
    Ok(lists)
}

/// Bit `i` goes to list `partition_idxs[i]`, in order.
pub fn partition_mask(
    alloc: Global,
    m: &Bitmap,
    partition_sizes: &[IdxSize],
    partition_idxs: &[IdxSize],
) -> Result<Vec<MutableBitmap>, AllocError>
    requires lengths { length partition_idxs.now ≡ length m.now }
    requires sizes { AreSizes partition_sizes.now partition_idxs.now }
    ensures parts { IfOk result (λ masks. vec_len masks ≡ length partition_sizes.now) }
    ensures ok { IfOk result (λ masks. (p : ℕ) → p < length partition_sizes.now
        → IsSomeAnd (slice_get masks.items p) (λ mask. mask ≡ dealt p partition_idxs.now m.now)) }
{
    let mut masks = Vec::new(alloc);
    masks.reserve(partition_sizes.len())?;
    for n in partition_sizes {
        let mut mask = MutableBitmap::new(alloc);
        mask.reserve(*n as usize)?;
        masks.push(mask)?;
    }
    let mut i = 0;
    for p in partition_idxs {
        masks[*p as usize].push(m.get(i))?;
        i += 1;
    }
    Ok(masks)
}

/// Item `i` and bit `i` go to pair `partition_idxs[i]`, in order. `Err` is want of memory, and hands `v` back.
pub fn partition_vec_mask<T: Drop>(
    alloc: Global,
    v: Vec<T>,
    m: &Bitmap,
    partition_sizes: &[IdxSize],
    partition_idxs: &[IdxSize],
) -> Result<Vec<(Vec<T>, MutableBitmap)>, Vec<T>>
    requires lengths { length partition_idxs.now ≡ vec_len v }
    requires bits { length m.now ≡ vec_len v }
    requires sizes { AreSizes partition_sizes.now partition_idxs.now }
    ensures parts { IfOk result (λ pairs. vec_len pairs ≡ length partition_sizes.now) }
    ensures ok { IfOk result (λ pairs. (p : ℕ) → p < length partition_sizes.now
        → IsSomeAnd (slice_get pairs.items p) (λ pair. (pair.0.items ≡ dealt p partition_idxs.now v.items) × (pair.1 ≡ dealt p partition_idxs.now m.now))) }
    ensures err { IfErr result (λ back. back.items ≡ v.items) }
{
    let mut pairs = Vec::new(alloc);
    if pairs.reserve(partition_sizes.len()).is_err() {
        return Err(v);
    }
    let Ok(masks) = partition_mask(alloc, m, partition_sizes, partition_idxs) else {
        return Err(v);
    };
    let lists = partition_vec(alloc, v, partition_sizes, partition_idxs)?;
    Ok(paired(pairs, lists, masks))
}

// The lists and the masks, two by two.
fn paired<T: Drop>(
    mut pairs: Vec<(Vec<T>, MutableBitmap)>,
    lists: Vec<Vec<T>>,
    masks: Vec<MutableBitmap>,
) -> Vec<(Vec<T>, MutableBitmap)>
    requires empty { pairs.items ≡ [] }
    requires lengths { vec_len masks ≡ vec_len lists }
    requires room { vec_len lists ≤ vec_capacity pairs }
    ensures { result.items ≡ zip lists.items masks.items }
{
    let count = lists.len();
    let mut left = lists.into_iter();
    let mut bits = masks.into_iter();
    for _i in 0..count {
        match left.next() {
            Some(list) => match bits.next() {
                Some(mask) => pairs.push_reserved((list, mask)),
                None => unreachable!(),
            },
            None => unreachable!(),
        }
    }
    pairs
}
