//! Which items of an array are present.
ghost use Rattle.std.specs.Prelude.{◌≡◌, ◌<◌, ◌≤◌, ◌+◌, [], ◌∷◌, ◌++◌, Some, true, false, length, map, take, drop, not, replicate, slice_get, slice_index_or, MatchOption, IfSome, OnOk, OnErr, IfOk};
ghost use Rattle.std.specs.List.{All, count_by};
ghost use Rattle.col_arrays.specs.Items.{validity_of};

use crate::IdxSize;
use crate::bitmap::Bitmap;
use std::alloc::{AllocError, Global};
use std::marker::Model;

/// Which items are present, with no bits kept until the first null. Contracts see a list of
/// truth values.
#[derive(Debug, Drop)]
pub(crate) struct Validity {
    bits: Option<Bitmap>,
    len: usize,
}

impl Model for Validity {
    ghost use Rattle.std.specs.Prelude.{◌≡◌, List, Bool, length};
    ghost use Rattle.col_arrays.specs.Items.{validity_of};

    ghost Value = { List Bool };

    ghost view = { λ v. validity_of v.len v.bits };

    ghost invariant = { λ v. length (validity_of v.len v.bits) ≡ v.len };
}

impl Validity {
    /// `len` items, none of them null where there are no bits.
    pub(crate) fn new(bits: Option<Bitmap>, len: usize) -> Self
        requires { IfSome bits (λ b. length b ≡ len) }
        ensures bits { result ≡ validity_of len bits }
        ensures long { length result ≡ len }
    {
        Validity { bits, len }
    }

    /// The bits, or `None` where no item is null.
    pub(crate) fn bits(&self) -> Option<&Bitmap>
        ensures { MatchOption result (All (λ present. present ≡ true) self.now) (λ bits. bits.now ≡ self.now) }
    {
        self.bits.as_ref()
    }

    /// Whether the item at a place is present.
    #[inline(always)]
    pub(crate) fn get(&self, i: usize) -> bool
        requires { i < length self.now }
        ensures { result ≡ slice_index_or self.now i false }
    {
        match &self.bits {
            Some(bits) => bits.get(i),
            None => true,
        }
    }

    /// The number of nulls.
    pub(crate) fn null_count(&self) -> usize
        ensures { result ≡ count_by not self.now }
    {
        match &self.bits {
            Some(bits) => bits.unset_bits(),
            None => 0,
        }
    }

    /// Appends whether one more item is present. After `Err` nothing has changed.
    #[inline(always)]
    pub(crate) fn push(&mut self, alloc: Global, present: bool) -> Result<(), AllocError>
        ensures ok { OnOk result (self.new ≡ self.old ++ present ∷ []) }
        ensures err { OnErr result (self.new ≡ self.old) }
    {
        let len = self.len.checked_add(1).ok_or(AllocError)?;
        if let Some(bits) = &mut self.bits {
            bits.push(present)?;
        } else if !present {
            let mut bits = Bitmap::new(alloc);
            bits.resize(self.len, true)?;
            bits.push(false)?;
            self.bits = Some(bits);
        }
        self.len = len;
        Ok(())
    }

    /// Appends `n` items that are present. After `Err` nothing has changed.
    #[tactic(auto, using(crate::proofs::Items::more_present))]
    fn extend_present(&mut self, n: usize) -> Result<(), AllocError>
        ensures ok { OnOk result (self.new ≡ self.old ++ replicate n true) }
        ensures err { OnErr result (self.new ≡ self.old) }
    {
        let len = self.len.checked_add(n).ok_or(AllocError)?;
        if let Some(bits) = &mut self.bits {
            bits.resize(len, true)?;
        }
        self.len = len;
        Ok(())
    }

    /// Appends the validity that some bits say. After `Err` nothing has changed.
    fn extend_from_bits(
        &mut self,
        alloc: Global,
        more: &Bitmap,
        start: usize,
        n: usize,
    ) -> Result<(), AllocError>
        requires { start + n ≤ length more.now }
        ensures ok { OnOk result (self.new ≡ self.old ++ take n (drop start more.now)) }
        ensures err { OnErr result (self.new ≡ self.old) }
    {
        let len = self.len.checked_add(n).ok_or(AllocError)?;
        if let Some(bits) = &mut self.bits {
            bits.extend_from_range(more, start, n)?;
        } else {
            let mut bits = Bitmap::new(alloc);
            bits.resize(self.len, true)?;
            bits.extend_from_range(more, start, n)?;
            self.bits = Some(bits);
        }
        self.len = len;
        Ok(())
    }

    /// Appends the validity of `len` items of another list from a place on. After `Err` nothing
    /// has changed.
    #[tactic(auto, using(crate::proofs::Items::more_present))]
    pub(crate) fn extend_from_range(
        &mut self,
        alloc: Global,
        source: &Self,
        start: usize,
        len: usize,
    ) -> Result<(), AllocError>
        requires { start + len ≤ length source.now }
        ensures ok { OnOk result (self.new ≡ self.old ++ take len (drop start source.now)) }
        ensures err { OnErr result (self.new ≡ self.old) }
    {
        match &source.bits {
            Some(bits) => self.extend_from_bits(alloc, bits, start, len),
            None => self.extend_present(len),
        }
    }

    /// Keeps the validity of the first `n` items.
    pub(crate) fn truncate(&mut self, n: usize)
        ensures { self.new ≡ take n self.old }
    {
        if n < self.len {
            if let Some(bits) = &mut self.bits {
                bits.truncate(n);
            }
            self.len = n;
        }
    }

    /// The validity at indexes, in the order of the indexes.
    pub(crate) fn take(&self, alloc: Global, idxs: &[IdxSize]) -> Result<Self, AllocError>
        requires { All (λ i. i < length self.now) idxs.now }
        ensures { IfOk result (λ taken. map Some taken ≡ map (slice_get self.now) idxs.now) }
    {
        match &self.bits {
            Some(bits) => {
                let taken = bits.take(alloc, idxs)?;
                Ok(Validity {
                    bits: Some(taken),
                    len: idxs.len(),
                })
            }
            None => Ok(Validity {
                bits: None,
                len: idxs.len(),
            }),
        }
    }
}
