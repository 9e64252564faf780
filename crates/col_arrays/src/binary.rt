//! Arrays of texts or bytes, of which some may be null.
ghost use Rattle.std.specs.Prelude.{◌≡◌, ◌↔◌, ◌<◌, ◌≤◌, ◌+◌, ℕ, Bool, List, [], ◌∷◌, ◌++◌, Some, true, false, IsTrue, length, map, take, drop, OnOk, OnErr, IfOk, IfSome, MatchOption, option_and_then, slice_index_or, option_copied, slice_get};
ghost use Rattle.std.specs.List.{All};
ghost use Rattle.col_arrays.specs.Items.{item_of, stored, presence, all_present, nulls, with_validity};
ghost use Rattle.col_arrays.specs.Buffer.{byte_items, AreOffsets, AreBytes};

use crate::IdxSize;
use crate::bitmap::Bitmap;
use crate::buffer::BinaryBuffer;
use crate::validity::Validity;
use std::alloc::{AllocError, Global};
use std::marker::Model;

/// Texts or bytes, of which some may be null. All items lie in one buffer. Contracts see a list
/// of items: the bytes that are stored, also under a null, and whether the item is present.
#[derive(Debug, Drop)]
pub struct BinaryArray {
    stored: BinaryBuffer,
    validity: Validity,
}

impl Model for BinaryArray {
    ghost use Rattle.std.specs.Prelude.{◌≡◌, List, ℕ, Bool, length};
    ghost use Rattle.std.specs.List.{zip};

    ghost Value = { List (List ℕ × Bool) };

    ghost view = { λ a. zip a.stored a.validity };

    ghost invariant = { λ a. length a.validity ≡ length a.stored };
}

impl BinaryArray {
    /// No items yet.
    pub fn new(alloc: Global) -> Self
        ensures { result ≡ [] }
    {
        BinaryArray {
            stored: BinaryBuffer::new(alloc),
            validity: Validity::new(None, 0),
        }
    }

    /// Whether offsets cut the bytes: they start at 0, ascend, and end at the number of bytes.
    pub fn are_offsets(bytes: &[u8], offsets: &[u64]) -> bool
        ensures { IsTrue result ↔ AreOffsets bytes.now offsets.now }
    {
        match offsets.len().checked_sub(1) {
            Some(last) => {
                offsets[0] == 0 && offsets[last] == bytes.len() as u64 && offsets.is_sorted()
            }
            None => false,
        }
    }

    /// The bytes between each offset and the next, none of them null.
    #[tactic(auto, using(crate::proofs::Items::views))]
    pub fn from_parts(bytes: Vec<u8>, offsets: Vec<u64>) -> Self
        requires { AreOffsets bytes.items offsets.items }
        ensures { result ≡ all_present (byte_items bytes.items offsets.items) }
    {
        let stored = BinaryBuffer::from_parts(bytes, offsets);
        let validity = Validity::new(None, stored.len());
        BinaryArray { stored, validity }
    }

    /// The same bytes, null where the bit of `validity` is not set. Without a bitmap none is null.
    #[tactic(auto, using(crate::proofs::Items::views))]
    pub fn with_validity(self, validity: Option<Bitmap>) -> Self
        requires { IfSome validity (λ bits. length bits ≡ length self) }
        ensures { result ≡ with_validity self validity }
    {
        let BinaryArray {
            stored,
            validity: _,
        } = self;
        let validity = Validity::new(validity, stored.len());
        BinaryArray { stored, validity }
    }

    /// Which items are present: `None` only where no item is null.
    #[tactic(auto, using(crate::proofs::Items::views))]
    pub fn validity(&self) -> Option<&Bitmap>
        ensures { MatchOption result (All (λ item. item.1 ≡ true) self.now) (λ bits. bits.now ≡ presence self.now) }
    {
        self.validity.bits()
    }

    /// The number of items, nulls among them.
    #[inline(always)]
    #[tactic(auto, using(crate::proofs::Items::views))]
    pub fn len(&self) -> usize
        ensures len { result ≡ length self.now }
        ensures bytes { All AreBytes (stored self.now) }
    {
        self.stored.len()
    }

    /// The number of nulls.
    #[tactic(auto, using(crate::proofs::Items::views))]
    pub fn null_count(&self) -> usize
        ensures { result ≡ nulls self.now }
    {
        self.validity.null_count()
    }

    /// The bytes that are stored at a place, under a null too.
    #[inline(always)]
    #[tactic(auto, using(crate::proofs::Items::finds))]
    pub fn value(&self, i: usize) -> &[u8]
        requires { i < length self.now }
        ensures { slice_get (stored self.now) i ≡ Some result.now }
    {
        self.stored.get(i)
    }

    /// The bytes at a place, or `None` for a null.
    #[inline(always)]
    #[tactic(auto, using(crate::proofs::Items::finds))]
    pub fn get(&self, i: usize) -> Option<&[u8]>
        requires { i < length self.now }
        ensures { option_copied result ≡ option_and_then item_of (slice_get self.now i) }
    {
        let value = self.stored.get(i);
        if self.validity.get(i) {
            Some(value)
        } else {
            None
        }
    }

    /// The items at indexes, in the order of the indexes.
    pub fn take(&self, alloc: Global, idxs: &[IdxSize]) -> Result<Self, AllocError>
        requires { All (λ i. i < length self.now) idxs.now }
        ensures { IfOk result (λ taken. map Some taken ≡ map (slice_get self.now) idxs.now) }
    {
        let stored = self.stored.take(alloc, idxs)?;
        let validity = self.validity.take(alloc, idxs)?;
        Ok(BinaryArray { stored, validity })
    }

    /// Appends an item. After `Err` the array is as it was.
    #[inline(always)]
    #[tactic(auto, using(crate::proofs::Items::pushes))]
    pub fn push(&mut self, value: &[u8], present: bool) -> Result<(), AllocError>
        ensures ok { OnOk result (self.new ≡ self.old ++ (value.now, present) ∷ []) }
        ensures err { OnErr result (self.new ≡ self.old) }
    {
        let len = self.stored.len();
        self.validity.push(self.stored.allocator(), present)?;
        let pushed = self.stored.push(value);
        if pushed.is_err() {
            self.validity.truncate(len);
        }
        pushed
    }

    /// Appends a null, under which no bytes are stored. After `Err` the array is as it was.
    #[inline(always)]
    pub fn push_null(&mut self) -> Result<(), AllocError>
        ensures ok { OnOk result (self.new ≡ self.old ++ ([], false) ∷ []) }
        ensures err { OnErr result (self.new ≡ self.old) }
    {
        self.push(&[], false)
    }

    /// Appends the item at a place of another array. After `Err` the array is as it was.
    #[inline(always)]
    #[tactic(auto, using(crate::proofs::Items::finds))]
    pub fn push_from(&mut self, source: &Self, i: usize) -> Result<(), AllocError>
        requires { i < length source.now }
        ensures ok { OnOk result ((d : List ℕ × Bool) → self.new ≡ self.old ++ slice_index_or source.now i d ∷ []) }
        ensures err { OnErr result (self.new ≡ self.old) }
    {
        self.push(source.stored.get(i), source.validity.get(i))
    }

    /// Appends `len` items of another array from a place on. After `Err` the array is as it was.
    #[tactic(auto, using(crate::proofs::Items::extends))]
    pub fn extend_from_range(
        &mut self,
        source: &Self,
        start: usize,
        len: usize,
    ) -> Result<(), AllocError>
        requires { start + len ≤ length source.now }
        ensures ok { OnOk result (self.new ≡ self.old ++ take len (drop start source.now)) }
        ensures err { OnErr result (self.new ≡ self.old) }
    {
        let before = self.stored.len();
        let alloc = self.stored.allocator();
        self.validity
            .extend_from_range(alloc, &source.validity, start, len)?;
        let extended = self.stored.extend_from_range(&source.stored, start, len);
        if extended.is_err() {
            self.validity.truncate(before);
        }
        extended
    }
}
