//! Bits that are packed in bytes, the lowest bit of a byte first.
ghost use Rattle.std.specs.Prelude.{◌≡◌, ◌≢◌, ◌<◌, ◌≤◌, ◌*◌, ◌==◌, ◌/◌, ◌%◌, ◌^◌, ℕ, length, OnOk, OnErr};
ghost use Rattle.col_arrays.specs.Bits.{bit_at};

use std::alloc::AllocError;

/// Bit `i` of the bytes.
#[inline(always)]
pub(crate) fn read_bit(bytes: &[u8], i: usize) -> bool
    requires { i < 8 * length bytes.now }
    ensures { result ≡ bit_at bytes.now i }
{
    bytes[i / 8] >> (i % 8) & 1 == 1
}

/// Writes bit `i`, and no other.
#[inline(always)]
pub(crate) fn write_bit(bytes: &mut [u8], i: usize, bit: bool)
    requires { i < 8 * length bytes.old }
    ensures written { bit_at bytes.new i ≡ bit }
    ensures others { (k : ℕ) → k ≢ i → bit_at bytes.new k ≡ bit_at bytes.old k }
{
    let mask = 1u8 << (i % 8);
    if bit {
        bytes[i / 8] |= mask;
    } else {
        bytes[i / 8] &= !mask;
    }
}

/// Makes sure that bit `i` has its place, and changes no bit before it.
#[inline(always)]
#[tactic(auto, using(crate::proofs::BitLists::bit_before))]
pub(crate) fn make_place(bytes: &mut Vec<u8>, i: usize) -> Result<(), AllocError>
    requires { i ≤ 8 * length bytes.old.items }
    ensures ok { OnOk result (i < 8 * length bytes.new.items) }
    ensures before { (k : ℕ) → k < i → bit_at bytes.new.items k ≡ bit_at bytes.old.items k }
    ensures err { OnErr result (bytes.new.items ≡ bytes.old.items) }
{
    if i / 8 == bytes.len() {
        bytes.push(0)?;
    }
    Ok(())
}

/// The bytes as one number, the first byte lowest.
pub(crate) fn word_of(bytes: &[u8]) -> u128
    requires { length bytes.now ≤ 9 }
    ensures bits { (i : ℕ) → bit_at bytes.now i ≡ (result / 2 ^ i % 2 == 1) }
{
    let mut word = 0u128;
    for (k, byte) in bytes.iter().enumerate() {
        word |= (*byte as u128) << (8 * k);
    }
    word
}
