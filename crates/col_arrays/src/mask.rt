//! Bits that are borrowed.
ghost use Rattle.std.specs.Prelude.{◌≡◌, ◌<◌, ◌≤◌, ◌*◌, length, take, drop, false, slice_index_or};
ghost use Rattle.std.specs.List.{count_by};
ghost use Rattle.std.specs.Simd.Lanes.{mask_l};
ghost use Rattle.col_arrays.specs.Bits.{bits_of};

use crate::bits::{read_bit, word_of};
use std::cmp::min;
use std::marker::Model;

/// Bits of someone else's bytes, from an offset on. Contracts see a list of bits.
#[derive(Debug, Drop)]
pub struct BitMask<'a> {
    bytes: &'a [u8],
    offset: usize,
    len: usize,
}

impl<'a> Model for BitMask<'a> {
    ghost use Rattle.std.specs.Prelude.{◌≤◌, ◌<◌, ◌+◌, ◌*◌, ◌^◌, List, Bool, length};
    ghost use Rattle.col_arrays.specs.Bits.{bits_from};

    ghost Value = { List Bool };

    ghost view = { λ m. bits_from m.bytes.now m.offset m.len };

    ghost invariant = { λ m. (m.offset + m.len ≤ 8 * length m.bytes.now) × (m.offset + m.len < 2 ^ 64) };
}

impl<'a> BitMask<'a> {
    /// The first `len` bits of the bytes.
    pub fn new(bytes: &'a [u8], len: usize) -> Self
        requires { len ≤ 8 * length bytes.now }
        ensures { result ≡ bits_of bytes.now len }
    {
        BitMask {
            bytes,
            offset: 0,
            len,
        }
    }

    /// The number of bits.
    #[tactic(auto, using(crate::proofs::BitLists::reads))]
    pub fn len(&self) -> usize
        ensures { result ≡ length self.now }
    {
        self.len
    }

    /// The bit at a place.
    #[tactic(auto, using(crate::proofs::BitLists::reads))]
    pub fn get(&self, i: usize) -> bool
        requires { i < length self.now }
        ensures { result ≡ slice_index_or self.now i false }
    {
        read_bit(self.bytes, self.offset + i)
    }

    /// The bits before a place, and those from it on.
    #[tactic(auto, using(crate::proofs::BitLists::cuts))]
    pub fn split_at(self, i: usize) -> (Self, Self)
        requires { i ≤ length self }
        ensures front { result.0 ≡ take i self.entry }
        ensures back { result.1 ≡ drop i self.entry }
    {
        let front = BitMask {
            bytes: self.bytes,
            offset: self.offset,
            len: i,
        };
        let back = BitMask {
            bytes: self.bytes,
            offset: self.offset + i,
            len: self.len - i,
        };
        (front, back)
    }

    /// Up to 64 bits from a place on, which may lie past the end: bit `j` of the answer is bit
    /// `offset + j`, and 0 past the length.
    pub fn lanes(&self, offset: usize) -> u64
        ensures { result ≡ mask_l (take 64 (drop offset self.now)) }
    {
        if offset >= self.len {
            return 0;
        }
        let count = min(64, self.len - offset);
        let first = self.offset + offset;
        let last = first + count - 1;
        let word = word_of(&self.bytes[first / 8..last / 8 + 1]) >> (first % 8);
        (word & (u64::MAX >> (64 - count)) as u128) as u64
    }

    /// The number of bits that are set, counted a word at a time.
    pub fn set_bits(&self) -> usize
        ensures { result ≡ count_by (λ bit. bit) self.now }
    {
        let mut set = 0;
        for word in 0..self.len.div_ceil(64) {
            set += self.lanes(64 * word).count_ones() as usize;
        }
        set
    }
}
