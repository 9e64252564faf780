//! Bits that are owned.
ghost use Rattle.std.specs.Prelude.{◌≡◌, ◌<◌, ◌≤◌, ◌-◌, ◌+◌, ◌*◌, ◌%◌, [], ◌∷◌, ◌++◌, Bool, Some, false, true, length, map, take, drop, not, replicate, slice_get, slice_set, slice_index_or, OnOk, OnErr, IfOk};
ghost use Rattle.std.specs.List.{All, count_by};
ghost use Rattle.std.specs.Simd.Lanes.{mask_l};
ghost use Rattle.col_arrays.specs.Bits.{bits_of, low_bits};

use crate::IdxSize;
use crate::bits::{make_place, read_bit, write_bit};
use crate::mask::BitMask;
use crate::mutable::MutableBitmap;
use std::alloc::{AllocError, Global};
use std::cmp::min;
use std::marker::Model;

/// Bits, packed in bytes with the lowest bit of a byte first. Bits of the bytes past the length
/// are hidden. Contracts see a list of bits.
#[derive(Debug, Drop)]
pub struct Bitmap {
    bytes: Vec<u8>,
    len: usize,
}

impl Model for Bitmap {
    ghost use Rattle.std.specs.Prelude.{◌≤◌, ◌*◌, List, Bool, length};
    ghost use Rattle.col_arrays.specs.Bits.{bits_of};

    ghost Value = { List Bool };

    ghost view = { λ b. bits_of b.bytes.items b.len };

    ghost invariant = { λ b. b.len ≤ 8 * length b.bytes.items };
}

impl Bitmap {
    /// No bits yet.
    pub(crate) fn new(alloc: Global) -> Self
        ensures { result ≡ [] }
    {
        Bitmap {
            bytes: Vec::new(alloc),
            len: 0,
        }
    }

    /// The first `len` bits of the bytes. Later bits are hidden.
    pub fn from_u8_vec(bytes: Vec<u8>, len: usize) -> Self
        requires { len ≤ 8 * length bytes.items }
        ensures { result ≡ bits_of bytes.items len }
    {
        Bitmap { bytes, len }
    }

    /// The number of bits.
    #[inline(always)]
    #[tactic(auto, using(crate::proofs::BitLists::reads))]
    pub fn len(&self) -> usize
        ensures { result ≡ length self.now }
    {
        self.len
    }

    /// The bit at a place.
    #[inline(always)]
    #[tactic(auto, using(crate::proofs::BitLists::reads))]
    pub fn get(&self, i: usize) -> bool
        requires { i < length self.now }
        ensures { result ≡ slice_index_or self.now i false }
    {
        read_bit(&self.bytes, i)
    }

    /// The number of bits that are not set, counted a word at a time.
    pub fn unset_bits(&self) -> usize
        ensures { result ≡ count_by not self.now }
    {
        self.len - self.mask().set_bits()
    }

    /// The same bits, borrowed.
    pub fn mask(&self) -> BitMask<'_>
        ensures { result ≡ self.now }
    {
        BitMask::new(&self.bytes, self.len)
    }

    /// The same bits, to be changed.
    pub fn into_mut(self) -> MutableBitmap
        ensures { result ≡ self }
    {
        MutableBitmap::from_bitmap(self)
    }

    /// The allocator that the bits are kept by.
    pub(crate) fn allocator(&self) -> Global {
        *self.bytes.allocator()
    }

    /// Appends a bit. After `Err` the bits are as they were.
    #[inline(always)]
    pub(crate) fn push(&mut self, bit: bool) -> Result<(), AllocError>
        ensures ok { OnOk result (self.new ≡ self.old ++ bit ∷ []) }
        ensures err { OnErr result (self.new ≡ self.old) }
    {
        let len = self.len.checked_add(1).ok_or(AllocError)?;
        make_place(&mut self.bytes, self.len)?;
        write_bit(&mut self.bytes, self.len, bit);
        self.len = len;
        Ok(())
    }

    /// Writes the bit at a place.
    #[tactic(auto, using(crate::proofs::BitLists::reads))]
    pub(crate) fn set(&mut self, i: usize, bit: bool)
        requires { i < length self.old }
        ensures { self.new ≡ slice_set self.old i bit }
    {
        write_bit(&mut self.bytes, i, bit);
    }

    /// Makes room for `n` more bits.
    pub(crate) fn reserve(&mut self, n: usize) -> Result<(), AllocError>
        ensures { self.new ≡ self.old }
    {
        let len = self.len.checked_add(n).ok_or(AllocError)?;
        let used = self.bytes.len();
        self.bytes.reserve((len / 8 + 1).saturating_sub(used))
    }

    /// Keeps the first `n` bits.
    #[tactic(auto, using(crate::proofs::BitLists::cuts))]
    pub(crate) fn truncate(&mut self, n: usize)
        ensures { self.new ≡ take n self.old }
    {
        if n < self.len {
            self.len = n;
        }
    }

    /// Appends the `n` lowest bits of a word, after bits that fill their bytes. After `Err` the
    /// bits are as they were.
    fn push_word(&mut self, word: u64, n: usize) -> Result<(), AllocError>
        requires full { length self.old % 8 ≡ 0 }
        requires few { n ≤ 64 }
        ensures ok { OnOk result (self.new ≡ self.old ++ low_bits word n) }
        ensures err { OnErr result (self.new ≡ self.old) }
    {
        let len = self.len.checked_add(n).ok_or(AllocError)?;
        self.bytes.truncate(self.len / 8);
        self.bytes.extend_from_slice(&word.to_le_bytes())?;
        self.len = len;
        Ok(())
    }

    /// The number of bits that the last byte lacks.
    fn spare(&self) -> usize
        ensures few { result < 8 }
        ensures full { (length self.now + result) % 8 ≡ 0 }
    {
        (8 - self.len() % 8) % 8
    }

    /// Appends `n` copies of a bit, one by one. After `Err` the bits are as they were.
    #[tactic(auto, using(crate::proofs::Items::copies))]
    fn extend_bit(&mut self, n: usize, bit: bool) -> Result<(), AllocError>
        ensures ok { OnOk result (self.new ≡ self.old ++ replicate n bit) }
        ensures err { OnErr result (self.new ≡ self.old) }
    {
        let before = self.len();
        for _i in 0..n {
            let pushed = self.push(bit);
            if pushed.is_err() {
                self.truncate(before);
                return pushed;
            }
        }
        Ok(())
    }

    /// Appends `n` copies of a bit, a word at a time, after bits that fill their bytes. After
    /// `Err` the bits are as they were.
    #[tactic(auto, using(crate::proofs::Packed::words))]
    fn fill(&mut self, n: usize, bit: bool) -> Result<(), AllocError>
        requires full { length self.old % 8 ≡ 0 }
        ensures ok { OnOk result (self.new ≡ self.old ++ replicate n bit) }
        ensures err { OnErr result (self.new ≡ self.old) }
    {
        let before = self.len();
        let word = if bit { u64::MAX } else { 0 };
        for k in 0..n.div_ceil(64) {
            let pushed = self.push_word(word, min(64, n - 64 * k));
            if pushed.is_err() {
                self.truncate(before);
                return pushed;
            }
        }
        Ok(())
    }

    /// Cuts the bits off after the first `n`, or appends copies of `bit` until there are `n`.
    /// After `Err` the bits are as they were.
    pub(crate) fn resize(&mut self, n: usize, bit: bool) -> Result<(), AllocError>
        ensures ok { OnOk result (self.new ≡ take n self.old ++ replicate (n - length self.old) bit) }
        ensures err { OnErr result (self.new ≡ self.old) }
    {
        let len = self.len();
        if n <= len {
            self.truncate(n);
            return Ok(());
        }
        let more = n - len;
        self.reserve(more)?;
        let first = min(self.spare(), more);
        self.extend_bit(first, bit)?;
        if first < more {
            let filled = self.fill(more - first, bit);
            if filled.is_err() {
                self.truncate(len);
                return filled;
            }
        }
        Ok(())
    }

    /// Appends `len` bits of another bitmap from a place on, one by one. After `Err` the bits are
    /// as they were.
    #[tactic(auto, using(crate::proofs::Items::more_bits))]
    fn extend_from_bits(
        &mut self,
        source: &Self,
        start: usize,
        len: usize,
    ) -> Result<(), AllocError>
        requires { start + len ≤ length source.now }
        ensures ok { OnOk result (self.new ≡ self.old ++ take len (drop start source.now)) }
        ensures err { OnErr result (self.new ≡ self.old) }
    {
        let before = self.len();
        let _bits = source.len();
        for i in 0..len {
            let pushed = self.push(source.get(start + i));
            if pushed.is_err() {
                self.truncate(before);
                return pushed;
            }
        }
        Ok(())
    }

    /// Appends `len` bits of another bitmap from a place on, a word at a time, after bits that
    /// fill their bytes. After `Err` the bits are as they were.
    #[tactic(auto, using(crate::proofs::Packed::words))]
    fn extend_from_words(
        &mut self,
        source: &Self,
        start: usize,
        len: usize,
    ) -> Result<(), AllocError>
        requires full { length self.old % 8 ≡ 0 }
        requires within { start + len ≤ length source.now }
        ensures ok { OnOk result (self.new ≡ self.old ++ take len (drop start source.now)) }
        ensures err { OnErr result (self.new ≡ self.old) }
    {
        let before = self.len();
        let _bits = source.len();
        let mask = source.mask();
        for k in 0..len.div_ceil(64) {
            let at = 64 * k;
            let pushed = self.push_word(mask.lanes(start + at), min(64, len - at));
            if pushed.is_err() {
                self.truncate(before);
                return pushed;
            }
        }
        Ok(())
    }

    /// Appends `len` bits of another bitmap from a place on. After `Err` the bits are as they were.
    pub(crate) fn extend_from_range(
        &mut self,
        source: &Self,
        start: usize,
        len: usize,
    ) -> Result<(), AllocError>
        requires { start + len ≤ length source.now }
        ensures ok { OnOk result (self.new ≡ self.old ++ take len (drop start source.now)) }
        ensures err { OnErr result (self.new ≡ self.old) }
    {
        let before = self.len();
        let _bits = source.len();
        self.reserve(len)?;
        let first = min(self.spare(), len);
        self.extend_from_bits(source, start, first)?;
        if first < len {
            let extended = self.extend_from_words(source, start + first, len - first);
            if extended.is_err() {
                self.truncate(before);
                return extended;
            }
        }
        Ok(())
    }

    /// Up to 64 bits at indexes as a word, the first lowest.
    fn gather(&self, idxs: &[IdxSize]) -> u64
        requires few { length idxs.now ≤ 64 }
        requires within { All (λ i. i < length self.now) idxs.now }
        ensures { result ≡ mask_l (map (λ i. slice_index_or self.now i false) idxs.now) }
    {
        let mut word = 0;
        for (k, idx) in idxs.iter().enumerate() {
            word |= u64::from(self.get(*idx as usize)) << k;
        }
        word
    }

    /// The bits at indexes, in the order of the indexes.
    pub(crate) fn take(&self, alloc: Global, idxs: &[IdxSize]) -> Result<Self, AllocError>
        requires { All (λ i. i < length self.now) idxs.now }
        ensures { IfOk result (λ taken. map Some taken ≡ map (slice_get self.now) idxs.now) }
    {
        let mut taken = Bitmap::new(alloc);
        taken.reserve(idxs.len())?;
        for k in 0..idxs.len().div_ceil(64) {
            let at = 64 * k;
            let n = min(64, idxs.len() - at);
            taken.push_word(self.gather(&idxs[at..at + n]), n)?;
        }
        Ok(taken)
    }
}
