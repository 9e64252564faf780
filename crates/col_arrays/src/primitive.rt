//! Arrays of numbers, of which some may be null.
ghost use Rattle.std.specs.Prelude.{◌≡◌, ◌<◌, ◌≤◌, ◌+◌, Bool, [], ◌∷◌, ◌++◌, Some, true, false, length, map, take, drop, OnOk, OnErr, IfOk, IfSome, MatchOption, option_and_then, slice_index_or, slice_get, vec_len, vec_capacity};
ghost use Rattle.std.specs.List.{All};
ghost use Rattle.col_arrays.specs.Items.{item_of, stored, presence, all_present, nulls, with_validity, AreNumbers};

use crate::IdxSize;
use crate::bitmap::Bitmap;
use crate::native::Native;
use crate::validity::Validity;
use std::alloc::{AllocError, Global};
use std::marker::Model;

/// Numbers, of which some may be null. Contracts see a list of items: the number that is
/// stored, also under a null, and whether it is present.
#[derive(Debug, Drop)]
pub struct PrimitiveArray<T: Native> {
    stored: Vec<T>,
    validity: Validity,
}

impl<T: Native> Model for PrimitiveArray<T> {
    ghost use Rattle.std.specs.Prelude.{◌≡◌, List, Bool, length};
    ghost use Rattle.std.specs.List.{zip};
    ghost use Rattle.std.specs.Coded.{coded_list, coded×, coded_bool};

    ghost Value = { List (T × Bool) };

    ghost coded = { coded_list (coded× T.code coded_bool) };

    ghost use Rattle.col_arrays.specs.Items.{AreNumbers};

    ghost view = { λ a. zip a.stored.items a.validity };

    ghost invariant = { λ a. (length a.validity ≡ length a.stored.items) × AreNumbers T.value T.fits a.stored.items };
}

impl<T: Native> PrimitiveArray<T> {
    /// No items yet.
    pub fn new(alloc: Global) -> Self
        ensures { result ≡ [] }
    {
        PrimitiveArray {
            stored: Vec::new(alloc),
            validity: Validity::new(None, 0),
        }
    }

    /// The values, none of them null.
    #[tactic(auto, using(crate::proofs::Items::views))]
    pub fn from_vec(values: Vec<T>) -> Self
        ensures { result ≡ all_present values.items }
    {
        know_numbers(&values);
        let validity = Validity::new(None, values.len());
        PrimitiveArray {
            stored: values,
            validity,
        }
    }

    /// The same values, null where the bit of `validity` is not set. Without a bitmap none is null.
    #[tactic(auto, using(crate::proofs::Items::views))]
    pub fn with_validity(self, validity: Option<Bitmap>) -> Self
        requires { IfSome validity (λ bits. length bits ≡ length self) }
        ensures { result ≡ with_validity self validity }
    {
        let PrimitiveArray {
            stored,
            validity: _,
        } = self;
        let validity = Validity::new(validity, stored.len());
        PrimitiveArray { stored, validity }
    }

    /// Which items are present: `None` only where no item is null.
    #[tactic(auto, using(crate::proofs::Items::views))]
    pub fn validity(&self) -> Option<&Bitmap>
        ensures { MatchOption result (All (λ item. item.1 ≡ true) self.now) (λ bits. bits.now ≡ presence self.now) }
    {
        self.validity.bits()
    }

    /// The number of items, nulls among them.
    #[inline(always)]
    #[tactic(auto, using(crate::proofs::Items::views))]
    pub fn len(&self) -> usize
        ensures len { result ≡ length self.now }
        ensures numbers { AreNumbers T.value T.fits (stored self.now) }
    {
        self.stored.len()
    }

    /// The number of nulls.
    #[tactic(auto, using(crate::proofs::Items::views))]
    pub fn null_count(&self) -> usize
        ensures { result ≡ nulls self.now }
    {
        self.validity.null_count()
    }

    /// What is stored, under nulls too.
    #[inline(always)]
    #[tactic(auto, using(crate::proofs::Items::views))]
    pub fn values(&self) -> &[T]
        ensures values { result.now ≡ stored self.now }
        ensures numbers { AreNumbers T.value T.fits result.now }
    {
        &self.stored
    }

    /// The value at a place, or `None` for a null.
    #[inline(always)]
    #[tactic(auto, using(crate::proofs::Items::finds))]
    pub fn get(&self, i: usize) -> Option<T>
        requires { i < length self.now }
        ensures { result ≡ option_and_then item_of (slice_get self.now i) }
    {
        let value = self.stored[i];
        if self.validity.get(i) {
            Some(value)
        } else {
            None
        }
    }

    /// The items at indexes, in the order of the indexes.
    pub fn take(&self, alloc: Global, idxs: &[IdxSize]) -> Result<Self, AllocError>
        requires { All (λ i. i < length self.now) idxs.now }
        ensures { IfOk result (λ taken. map Some taken ≡ map (slice_get self.now) idxs.now) }
    {
        let stored = take_values(alloc, &self.stored, idxs)?;
        let validity = self.validity.take(alloc, idxs)?;
        Ok(PrimitiveArray { stored, validity })
    }

    /// Appends an item. After `Err` the array is as it was.
    #[inline(always)]
    #[tactic(auto, using(crate::proofs::Items::pushes))]
    pub fn push(&mut self, value: T, present: bool) -> Result<(), AllocError>
        ensures ok { OnOk result (self.new ≡ self.old ++ (value, present) ∷ []) }
        ensures err { OnErr result (self.new ≡ self.old) }
    {
        let alloc = *self.stored.allocator();
        let _number = value.to_whole();
        self.stored.reserve(1)?;
        self.validity.push(alloc, present)?;
        self.stored.push_reserved(value);
        Ok(())
    }

    /// Appends the item at a place of another array. After `Err` the array is as it was.
    #[inline(always)]
    #[tactic(auto, using(crate::proofs::Items::finds))]
    pub fn push_from(&mut self, source: &Self, i: usize) -> Result<(), AllocError>
        requires { i < length source.now }
        ensures ok { OnOk result ((d : T × Bool) → self.new ≡ self.old ++ slice_index_or source.now i d ∷ []) }
        ensures err { OnErr result (self.new ≡ self.old) }
    {
        self.push(source.stored[i], source.validity.get(i))
    }

    /// Appends `len` items of another array from a place on. After `Err` the array is as it was.
    #[tactic(auto, using(crate::proofs::Items::extends))]
    pub fn extend_from_range(
        &mut self,
        source: &Self,
        start: usize,
        len: usize,
    ) -> Result<(), AllocError>
        requires { start + len ≤ length source.now }
        ensures ok { OnOk result (self.new ≡ self.old ++ take len (drop start source.now)) }
        ensures err { OnErr result (self.new ≡ self.old) }
    {
        let alloc = *self.stored.allocator();
        self.stored.reserve(len)?;
        self.validity
            .extend_from_range(alloc, &source.validity, start, len)?;
        extend_reserved(&mut self.stored, &source.stored[start..start + len]);
        Ok(())
    }

    /// Appends a null, under which 0 is stored. After `Err` the array is as it was.
    #[inline(always)]
    pub fn push_null(&mut self) -> Result<(), AllocError>
        ensures ok { OnOk result (self.new ≡ self.old ++ (T.zero, false) ∷ []) }
        ensures err { OnErr result (self.new ≡ self.old) }
    {
        self.push(T::zero(), false)
    }
}

/// Tells that values are numbers of their type. The loop has no effect, and none is compiled.
#[inline(always)]
fn know_numbers<T: Native>(values: &[T])
    ensures { AreNumbers T.value T.fits values.now }
{
    for value in values {
        let _number = value.to_whole();
    }
}

/// Appends values, for which there is room.
#[inline(always)]
fn extend_reserved<T: Copy>(values: &mut Vec<T>, more: &[T])
    requires { vec_len values.old + length more.now ≤ vec_capacity values.old }
    ensures { values.new.items ≡ values.old.items ++ more.now }
{
    let _there_is_room = values.extend_from_slice(more);
}

/// The values at indexes, in the order of the indexes.
fn take_values<T: Copy>(alloc: Global, values: &[T], idxs: &[IdxSize]) -> Result<Vec<T>, AllocError>
    requires { All (λ i. i < length values.now) idxs.now }
    ensures { IfOk result (λ taken. map Some taken.items ≡ map (slice_get values.now) idxs.now) }
{
    let mut taken = Vec::with_capacity(alloc, idxs.len())?;
    for idx in idxs {
        taken.push_reserved(values[*idx as usize]);
    }
    Ok(taken)
}
