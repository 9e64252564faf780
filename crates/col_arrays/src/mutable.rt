//! Bits that change.
ghost use Rattle.std.specs.Prelude.{◌≡◌, ◌<◌, ◌-◌, [], ◌∷◌, ◌++◌, ◌&&◌, ◌||◌, false, length, take, replicate, slice_set, slice_index_or, OnOk, OnErr};

use crate::bitmap::Bitmap;
use std::alloc::{AllocError, Global};
use std::marker::Model;

/// Bits that can be changed and appended to. Contracts see a list of bits.
#[derive(Debug, Drop)]
pub struct MutableBitmap {
    bits: Bitmap,
}

impl Model for MutableBitmap {
    ghost use Rattle.std.specs.Prelude.{List, Bool};

    ghost Value = { List Bool };

    ghost view = { λ m. m.bits };
}

impl MutableBitmap {
    /// No bits yet.
    pub fn new(alloc: Global) -> Self
        ensures { result ≡ [] }
    {
        MutableBitmap {
            bits: Bitmap::new(alloc),
        }
    }

    /// The same bits, to be changed.
    pub(crate) fn from_bitmap(bits: Bitmap) -> Self
        ensures { result ≡ bits }
    {
        MutableBitmap { bits }
    }

    /// The number of bits.
    pub fn len(&self) -> usize
        ensures { result ≡ length self.now }
    {
        self.bits.len()
    }

    /// The bit at a place.
    pub fn get(&self, i: usize) -> bool
        requires { i < length self.now }
        ensures { result ≡ slice_index_or self.now i false }
    {
        self.bits.get(i)
    }

    /// Appends a bit. After `Err` the bits are as they were.
    pub fn push(&mut self, bit: bool) -> Result<(), AllocError>
        ensures ok { OnOk result (self.new ≡ self.old ++ bit ∷ []) }
        ensures err { OnErr result (self.new ≡ self.old) }
    {
        self.bits.push(bit)
    }

    /// Cuts the bits off after the first `n`, or appends copies of `bit` until there are `n`.
    /// After `Err` the bits are as they were.
    pub fn resize(&mut self, n: usize, bit: bool) -> Result<(), AllocError>
        ensures ok { OnOk result (self.new ≡ take n self.old ++ replicate (n - length self.old) bit) }
        ensures err { OnErr result (self.new ≡ self.old) }
    {
        self.bits.resize(n, bit)
    }

    /// Makes room for `n` more bits, and changes none.
    pub fn reserve(&mut self, n: usize) -> Result<(), AllocError>
        ensures { self.new ≡ self.old }
    {
        self.bits.reserve(n)
    }

    /// Writes the bit at a place.
    pub fn set(&mut self, i: usize, bit: bool)
        requires { i < length self.old }
        ensures { self.new ≡ slice_set self.old i bit }
    {
        self.bits.set(i, bit);
    }

    /// Keeps the bit at a place only where `bit` is set too.
    pub fn and_pos(&mut self, i: usize, bit: bool)
        requires { i < length self.old }
        ensures { self.new ≡ slice_set self.old i (slice_index_or self.old i false && bit) }
    {
        let both = self.bits.get(i) && bit;
        self.bits.set(i, both);
    }

    /// Sets the bit at a place where `bit` is set.
    pub fn or_pos(&mut self, i: usize, bit: bool)
        requires { i < length self.old }
        ensures { self.new ≡ slice_set self.old i (slice_index_or self.old i false || bit) }
    {
        let either = self.bits.get(i) || bit;
        self.bits.set(i, either);
    }

    /// The same bits, that no longer change.
    pub fn freeze(self) -> Bitmap
        ensures { result ≡ self }
    {
        self.bits
    }
}
