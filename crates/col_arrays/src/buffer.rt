//! Texts or bytes in one buffer.
ghost use Rattle.std.specs.Prelude.{◌≡◌, ◌<◌, ◌≤◌, ◌+◌, ◌-◌, ◌^◌, [], ◌∷◌, ◌++◌, Some, length, map, take, drop, OnOk, OnErr, IfOk, slice_get, vec_len, vec_capacity};
ghost use Rattle.std.specs.List.{All};
ghost use Rattle.col_arrays.specs.Buffer.{byte_items, opened, AreOffsets, AreBytes};

use crate::IdxSize;
use std::alloc::{AllocError, Global};
use std::marker::Model;

/// Texts or bytes, one after the other in one buffer: item `i` goes from offset `i` up to offset
/// `i + 1`. While there is no item the first offset may be left out.
#[derive(Debug, Drop)]
pub(crate) struct BinaryBuffer {
    bytes: Vec<u8>,
    offsets: Vec<u64>,
}

impl Model for BinaryBuffer {
    ghost use Rattle.std.specs.Prelude.{List, ℕ};
    ghost use Rattle.col_arrays.specs.Buffer.{byte_items, opened, AreOffsets};

    ghost Value = { List (List ℕ) };

    ghost view = { λ p. byte_items p.bytes.items (opened p.offsets.items) };

    ghost invariant = { λ p. AreOffsets p.bytes.items (opened p.offsets.items) };
}

impl BinaryBuffer {
    /// No items yet.
    #[tactic(auto, using(crate::proofs::Offsets::sizes))]
    pub(crate) fn new(alloc: Global) -> Self
        ensures { result ≡ [] }
    {
        BinaryBuffer {
            bytes: Vec::new(alloc),
            offsets: Vec::new(alloc),
        }
    }

    /// The bytes between the offsets.
    #[tactic(auto, using(crate::proofs::Offsets::sizes))]
    pub(crate) fn from_parts(bytes: Vec<u8>, offsets: Vec<u64>) -> Self
        requires { AreOffsets bytes.items offsets.items }
        ensures { result ≡ byte_items bytes.items offsets.items }
    {
        BinaryBuffer { bytes, offsets }
    }

    /// The number of items.
    #[inline(always)]
    #[tactic(auto, using(crate::proofs::Offsets::sizes))]
    pub(crate) fn len(&self) -> usize
        ensures len { result ≡ length self.now }
        ensures bytes { All AreBytes self.now }
    {
        know_bytes(&self.bytes);
        self.offsets.len().saturating_sub(1)
    }

    /// The item at a place.
    #[inline(always)]
    pub(crate) fn get(&self, i: usize) -> &[u8]
        requires { i < length self.now }
        ensures { slice_get self.now i ≡ Some result.now }
    {
        let start = self.offsets[i] as usize;
        let end = self.offsets[i + 1] as usize;
        &self.bytes[start..end]
    }

    /// The allocator that the items are kept by.
    pub(crate) fn allocator(&self) -> Global {
        *self.bytes.allocator()
    }

    /// Makes room for the offsets of `n` more items.
    pub(crate) fn reserve(&mut self, n: usize) -> Result<(), AllocError>
        ensures { self.new ≡ self.old }
    {
        self.offsets.reserve(n.saturating_add(1))
    }

    /// Appends an item. After `Err` the items are as they were.
    #[inline(always)]
    #[tactic(auto, using(crate::proofs::Offsets::pushes))]
    pub(crate) fn push(&mut self, item: &[u8]) -> Result<(), AllocError>
        ensures ok { OnOk result (self.new ≡ self.old ++ item.now ∷ []) }
        ensures err { OnErr result (self.new ≡ self.old) }
    {
        self.offsets.reserve(2)?;
        self.bytes.extend_from_slice(item)?;
        end_item(&mut self.offsets, self.bytes.len() as u64);
        Ok(())
    }

    /// Appends `len` items of another buffer from a place on: one range of bytes, with its
    /// offsets moved. After `Err` the items are as they were.
    pub(crate) fn extend_from_range(
        &mut self,
        source: &Self,
        start: usize,
        len: usize,
    ) -> Result<(), AllocError>
        requires { start + len ≤ length source.now }
        ensures ok { OnOk result (self.new ≡ self.old ++ take len (drop start source.now)) }
        ensures err { OnErr result (self.new ≡ self.old) }
    {
        if len == 0 {
            return Ok(());
        }
        let first = source.offsets[start];
        let last = source.offsets[start + len];
        self.offsets.reserve(len.saturating_add(1))?;
        let base = self.bytes.len() as u64;
        let bytes = &source.bytes[first as usize..last as usize];
        self.bytes.extend_from_slice(bytes)?;
        let ends = &source.offsets[start + 1..start + len + 1];
        end_items(&mut self.offsets, ends, first, base);
        Ok(())
    }

    /// The items at indexes, in the order of the indexes.
    pub(crate) fn take(&self, alloc: Global, idxs: &[IdxSize]) -> Result<Self, AllocError>
        requires { All (λ i. i < length self.now) idxs.now }
        ensures { IfOk result (λ taken. map Some taken ≡ map (slice_get self.now) idxs.now) }
    {
        let mut taken = BinaryBuffer::new(alloc);
        taken.reserve(idxs.len())?;
        for idx in idxs {
            taken.push(self.get(*idx as usize))?;
        }
        Ok(taken)
    }
}

/// Tells what a byte holds.
#[inline(always)]
fn know_bytes(bytes: &[u8])
    ensures { AreBytes bytes.now }
{}

/// Makes the first offset stand, for which there is room.
#[inline(always)]
fn open_offsets(offsets: &mut Vec<u64>)
    requires room { vec_len offsets.old < vec_capacity offsets.old }
    ensures items { offsets.new.items ≡ opened offsets.old.items }
    ensures len { vec_len offsets.new ≤ vec_len offsets.old + 1 }
    ensures capacity { vec_capacity offsets.new ≡ vec_capacity offsets.old }
{
    if offsets.is_empty() {
        offsets.push_reserved(0);
    }
}

/// Ends items at offsets that are moved from `first` to `base`, for which there is room.
fn end_items(offsets: &mut Vec<u64>, ends: &[u64], first: u64, base: u64)
    requires room { vec_len offsets.old + length ends.now + 1 ≤ vec_capacity offsets.old }
    requires above { All (λ end. first ≤ end) ends.now }
    requires small { All (λ end. base + (end - first) < 2 ^ 64) ends.now }
    ensures { offsets.new.items ≡ opened offsets.old.items ++ map (λ end. base + (end - first)) ends.now }
{
    open_offsets(offsets);
    for end in ends {
        offsets.push_reserved(base + (*end - first));
    }
}

/// Ends an item at an offset, for which there is room.
#[inline(always)]
fn end_item(offsets: &mut Vec<u64>, end: u64)
    requires room { vec_len offsets.old + 2 ≤ vec_capacity offsets.old }
    ensures { offsets.new.items ≡ opened offsets.old.items ++ end ∷ [] }
{
    open_offsets(offsets);
    offsets.push_reserved(end);
}
