//! Truth values, of which some are missing.
ghost use Rattle.std.specs.Prelude.{◌≡◌, ◌<◌, ℕ, [], ◌∷◌, ◌++◌, None, length, slice_set, slice_index_or, slice_get, vec_len, OnOk, OnErr, IfOk, IsSomeAnd};
ghost use Rattle.group_parts.specs.Parts.{dealt, AreSizes};
ghost use Rattle.reduce_states.specs.Moves.{cut_or_filled};

use col_core::{IdxSize, MutableBitmap};
use std::alloc::{AllocError, Global};
use std::cmp::max;
use std::marker::Model;

/// Truth values, of which some are missing, as bits of values and of presence. Contracts see a list
/// of optional truth values. There may be more bits of values than of presence.
#[derive(Drop)]
pub struct Truths {
    values: MutableBitmap,
    mask: MutableBitmap,
}

impl Model for Truths {
    ghost use Rattle.std.specs.Prelude.{◌≤◌, Bool, List, Option, length};
    ghost use Rattle.reduce_min_max.specs.Truths.{optional_bits};

    ghost Value = { List (Option Bool) };

    ghost view = { λ b. optional_bits b.values b.mask };

    ghost invariant = { λ b. length b.mask ≤ length b.values };
}

#[tactic(auto, using(crate::proofs::OptionalBits::bits))]
impl Truths {
    /// None yet.
    pub(crate) fn new(alloc: Global) -> Self
        ensures { result ≡ [] }
    {
        Truths {
            values: MutableBitmap::new(alloc),
            mask: MutableBitmap::new(alloc),
        }
    }

    /// How many there are, missing ones among them.
    pub(crate) fn len(&self) -> usize
        ensures { result ≡ length self.now }
    {
        self.mask.len()
    }

    /// The one at a place.
    pub(crate) fn get(&self, i: usize) -> Option<bool>
        requires { i < length self.now }
        ensures { result ≡ slice_index_or self.now i None }
    {
        if self.mask.get(i) {
            Some(self.values.get(i))
        } else {
            None
        }
    }

    /// Writes the one at a place.
    pub(crate) fn set(&mut self, i: usize, truth: Option<bool>)
        requires { i < length self.old }
        ensures { self.new ≡ slice_set self.old i truth }
    {
        self.values.set(i, truth.unwrap_or(false));
        self.mask.set(i, truth.is_some());
    }

    /// Appends one. After `Err` they are as they were.
    pub(crate) fn push(&mut self, truth: Option<bool>) -> Result<(), AllocError>
        ensures ok { OnOk result (self.new ≡ self.old ++ truth ∷ []) }
        ensures err { OnErr result (self.new ≡ self.old) }
    {
        self.values.resize(self.mask.len(), false)?;
        self.values.push(truth.unwrap_or(false))?;
        self.mask.push(truth.is_some())
    }

    /// Cuts off all past the first `n`, or appends missing ones until there are `n`. After `Err` they
    /// are as they were.
    pub(crate) fn resize(&mut self, n: usize) -> Result<(), AllocError>
        ensures ok { OnOk result (self.new ≡ cut_or_filled None self.old n) }
        ensures err { OnErr result (self.new ≡ self.old) }
    {
        let bits = max(n, self.values.len());
        self.values.resize(bits, false)?;
        self.mask.resize(n, false)
    }

    /// Those of each part, in order: the one at place `i` goes to part `partition_idxs[i]`.
    pub(crate) fn dealt(
        &self,
        alloc: Global,
        partition_sizes: &[IdxSize],
        partition_idxs: &[IdxSize],
    ) -> Result<Vec<Truths>, AllocError>
        requires lengths { length partition_idxs.now ≡ length self.now }
        requires sizes { AreSizes partition_sizes.now partition_idxs.now }
        ensures parts { IfOk result (λ v. vec_len v ≡ length partition_sizes.now) }
        ensures ok { IfOk result (λ v. (p : ℕ) → p < length partition_sizes.now
            → IsSomeAnd (slice_get v.items p) (λ part. part ≡ dealt p partition_idxs.now self.now)) }
    {
        let mut parts = Vec::with_capacity(alloc, partition_sizes.len())?;
        for n in partition_sizes {
            let mut part = Truths::new(alloc);
            part.reserve(*n as usize)?;
            parts.push_reserved(part);
        }
        for (i, p) in partition_idxs.iter().enumerate() {
            parts[*p as usize].push(self.get(i))?;
        }
        Ok(parts)
    }

    /// Makes room for `n` more, and changes none.
    pub(crate) fn reserve(&mut self, n: usize) -> Result<(), AllocError>
        ensures { self.new ≡ self.old }
    {
        self.values.reserve(n)?;
        self.mask.reserve(n)
    }
}
