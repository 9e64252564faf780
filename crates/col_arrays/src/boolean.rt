//! Arrays of truth values, of which some may be null.
ghost use Rattle.std.specs.Prelude.{◌≡◌, ◌<◌, ◌≤◌, ◌+◌, [], ◌∷◌, ◌++◌, Bool, Some, true, false, length, map, take, drop, OnOk, OnErr, IfOk, IfSome, MatchOption, option_and_then, slice_index_or, slice_get};
ghost use Rattle.std.specs.List.{All};
ghost use Rattle.col_arrays.specs.Items.{item_of, stored, presence, all_present, nulls, with_validity};

use crate::IdxSize;
use crate::bitmap::Bitmap;
use crate::validity::Validity;
use std::alloc::{AllocError, Global};
use std::marker::Model;

/// Truth values, of which some may be null. Contracts see a list of items: the bit that is
/// stored, also under a null, and whether it is present.
#[derive(Debug, Drop)]
pub struct BooleanArray {
    stored: Bitmap,
    validity: Validity,
}

impl Model for BooleanArray {
    ghost use Rattle.std.specs.Prelude.{◌≡◌, List, Bool, length};
    ghost use Rattle.std.specs.List.{zip};

    ghost Value = { List (Bool × Bool) };

    ghost view = { λ a. zip a.stored a.validity };

    ghost invariant = { λ a. length a.validity ≡ length a.stored };
}

impl BooleanArray {
    /// No items yet.
    pub fn new(alloc: Global) -> Self
        ensures { result ≡ [] }
    {
        BooleanArray {
            stored: Bitmap::new(alloc),
            validity: Validity::new(None, 0),
        }
    }

    /// The bits, none of them null.
    #[tactic(auto, using(crate::proofs::Items::views))]
    pub fn from_bitmap(values: Bitmap) -> Self
        ensures { result ≡ all_present values }
    {
        let validity = Validity::new(None, values.len());
        BooleanArray {
            stored: values,
            validity,
        }
    }

    /// The same bits, null where the bit of `validity` is not set. Without a bitmap none is null.
    #[tactic(auto, using(crate::proofs::Items::views))]
    pub fn with_validity(self, validity: Option<Bitmap>) -> Self
        requires { IfSome validity (λ bits. length bits ≡ length self) }
        ensures { result ≡ with_validity self validity }
    {
        let BooleanArray {
            stored,
            validity: _,
        } = self;
        let validity = Validity::new(validity, stored.len());
        BooleanArray { stored, validity }
    }

    /// Which items are present: `None` only where no item is null.
    #[tactic(auto, using(crate::proofs::Items::views))]
    pub fn validity(&self) -> Option<&Bitmap>
        ensures { MatchOption result (All (λ item. item.1 ≡ true) self.now) (λ bits. bits.now ≡ presence self.now) }
    {
        self.validity.bits()
    }

    /// The number of items, nulls among them.
    #[inline(always)]
    #[tactic(auto, using(crate::proofs::Items::views))]
    pub fn len(&self) -> usize
        ensures { result ≡ length self.now }
    {
        self.stored.len()
    }

    /// The number of nulls.
    #[tactic(auto, using(crate::proofs::Items::views))]
    pub fn null_count(&self) -> usize
        ensures { result ≡ nulls self.now }
    {
        self.validity.null_count()
    }

    /// What is stored, under nulls too.
    #[tactic(auto, using(crate::proofs::Items::views))]
    pub fn values(&self) -> &Bitmap
        ensures { result.now ≡ stored self.now }
    {
        &self.stored
    }

    /// The truth value at a place, or `None` for a null.
    #[inline(always)]
    #[tactic(auto, using(crate::proofs::Items::finds))]
    pub fn get(&self, i: usize) -> Option<bool>
        requires { i < length self.now }
        ensures { result ≡ option_and_then item_of (slice_get self.now i) }
    {
        let value = self.stored.get(i);
        if self.validity.get(i) {
            Some(value)
        } else {
            None
        }
    }

    /// The items at indexes, in the order of the indexes.
    pub fn take(&self, alloc: Global, idxs: &[IdxSize]) -> Result<Self, AllocError>
        requires { All (λ i. i < length self.now) idxs.now }
        ensures { IfOk result (λ taken. map Some taken ≡ map (slice_get self.now) idxs.now) }
    {
        let stored = self.stored.take(alloc, idxs)?;
        let validity = self.validity.take(alloc, idxs)?;
        Ok(BooleanArray { stored, validity })
    }

    /// Appends an item. After `Err` the array is as it was.
    #[inline(always)]
    #[tactic(auto, using(crate::proofs::Items::pushes))]
    pub fn push(&mut self, value: bool, present: bool) -> Result<(), AllocError>
        ensures ok { OnOk result (self.new ≡ self.old ++ (value, present) ∷ []) }
        ensures err { OnErr result (self.new ≡ self.old) }
    {
        let len = self.stored.len();
        self.validity.push(self.stored.allocator(), present)?;
        let pushed = self.stored.push(value);
        if pushed.is_err() {
            self.validity.truncate(len);
        }
        pushed
    }

    /// Appends a null, under which false is stored. After `Err` the array is as it was.
    #[inline(always)]
    pub fn push_null(&mut self) -> Result<(), AllocError>
        ensures ok { OnOk result (self.new ≡ self.old ++ (false, false) ∷ []) }
        ensures err { OnErr result (self.new ≡ self.old) }
    {
        self.push(false, false)
    }

    /// Appends the item at a place of another array. After `Err` the array is as it was.
    #[inline(always)]
    #[tactic(auto, using(crate::proofs::Items::finds))]
    pub fn push_from(&mut self, source: &Self, i: usize) -> Result<(), AllocError>
        requires { i < length source.now }
        ensures ok { OnOk result ((d : Bool × Bool) → self.new ≡ self.old ++ slice_index_or source.now i d ∷ []) }
        ensures err { OnErr result (self.new ≡ self.old) }
    {
        self.push(source.stored.get(i), source.validity.get(i))
    }

    /// Appends `len` items of another array from a place on. After `Err` the array is as it was.
    #[tactic(auto, using(crate::proofs::Items::extends))]
    pub fn extend_from_range(
        &mut self,
        source: &Self,
        start: usize,
        len: usize,
    ) -> Result<(), AllocError>
        requires { start + len ≤ length source.now }
        ensures ok { OnOk result (self.new ≡ self.old ++ take len (drop start source.now)) }
        ensures err { OnErr result (self.new ≡ self.old) }
    {
        let before = self.stored.len();
        let alloc = self.stored.allocator();
        self.stored.extend_from_range(&source.stored, start, len)?;
        let extended = self
            .validity
            .extend_from_range(alloc, &source.validity, start, len);
        if extended.is_err() {
            self.stored.truncate(before);
        }
        extended
    }
}
