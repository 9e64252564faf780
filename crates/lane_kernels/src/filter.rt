//! Filters: the items whose mask bit is set, in order.
ghost use Rattle.std.specs.Prelude.{◌≡◌, ◌≤◌, ◌<◌, ◌*◌, ◌%◌, ◌++◌, length, count_ones, IfOk, OnErr};
ghost use Rattle.lane_kernels.specs.Positions.{filtered, word_bits, word_of, in_blocks, filtered_blocks, unread, unread_mask};

use col_arrays::{BitMask, Bitmap, MutableBitmap};
use std::alloc::{AllocError, Global};

/// The bits of `word` at the set bits of `mask`, moved to the low end in order. `count` is the
/// number of set bits of `mask`.
pub fn pext64_polyfill(word: u64, mask: u64, count: u32) -> u64
    requires { count ≡ count_ones mask }
    ensures { result ≡ word_of (filtered (word_bits word) (word_bits mask)) }
{
    let mut out = 0;
    let mut kept = 0;
    let mut i = 0u32;
    while kept < count {
        if mask >> i & 1 == 1 {
            out |= (word >> i & 1) << kept;
            kept += 1;
        }
        i += 1;
    }
    out
}

/// The bits whose mask bit is set, in order.
pub fn filter_boolean_kernel(
    alloc: Global,
    bits: &Bitmap,
    mask: &Bitmap,
) -> Result<Bitmap, AllocError>
    requires { length mask.now ≡ length bits.now }
    ensures { IfOk result (λ kept. kept ≡ filtered bits.now mask.now) }
{
    let mut kept = MutableBitmap::new(alloc);
    kept.reserve(mask.mask().set_bits())?;
    for i in 0..bits.len() {
        if mask.get(i) {
            kept.push(bits.get(i))?;
        }
    }
    Ok(kept.freeze())
}

/// Filters whole blocks of 64 values: appends those whose mask bit is set, and lends back the
/// values and mask bytes that were not read. After `Err` `out` is as it was.
pub fn filter_u8_avx512vbmi2<'a>(
    values: &'a [u8],
    mask_bytes: &'a [u8],
    out: &mut Vec<u8>,
) -> Result<(&'a [u8], &'a [u8]), AllocError>
    requires { in_blocks 64 (length values.now) ≤ 8 * length mask_bytes.now }
    ensures ok { IfOk result
        (λ _. out.new.items ≡ out.old.items ++ filtered_blocks 64 values.now mask_bytes.now) }
    ensures values { IfOk result (λ rest. rest.0.now ≡ unread 64 values.now) }
    ensures mask { IfOk result (λ rest. rest.1.now ≡ unread_mask 64 values.now mask_bytes.now) }
    ensures err { OnErr result (out.new.items ≡ out.old.items) }
{
    filter_blocks(64, values, mask_bytes, out)
}

/// Filters whole blocks of 32 values, as `filter_u8_avx512vbmi2` does of 64.
pub fn filter_u16_avx512vbmi2<'a>(
    values: &'a [u16],
    mask_bytes: &'a [u8],
    out: &mut Vec<u16>,
) -> Result<(&'a [u16], &'a [u8]), AllocError>
    requires { in_blocks 32 (length values.now) ≤ 8 * length mask_bytes.now }
    ensures ok { IfOk result
        (λ _. out.new.items ≡ out.old.items ++ filtered_blocks 32 values.now mask_bytes.now) }
    ensures values { IfOk result (λ rest. rest.0.now ≡ unread 32 values.now) }
    ensures mask { IfOk result (λ rest. rest.1.now ≡ unread_mask 32 values.now mask_bytes.now) }
    ensures err { OnErr result (out.new.items ≡ out.old.items) }
{
    filter_blocks(32, values, mask_bytes, out)
}

/// Filters whole blocks of 16 values, as `filter_u8_avx512vbmi2` does of 64.
pub fn filter_u32_avx512f<'a>(
    values: &'a [u32],
    mask_bytes: &'a [u8],
    out: &mut Vec<u32>,
) -> Result<(&'a [u32], &'a [u8]), AllocError>
    requires { in_blocks 16 (length values.now) ≤ 8 * length mask_bytes.now }
    ensures ok { IfOk result
        (λ _. out.new.items ≡ out.old.items ++ filtered_blocks 16 values.now mask_bytes.now) }
    ensures values { IfOk result (λ rest. rest.0.now ≡ unread 16 values.now) }
    ensures mask { IfOk result (λ rest. rest.1.now ≡ unread_mask 16 values.now mask_bytes.now) }
    ensures err { OnErr result (out.new.items ≡ out.old.items) }
{
    filter_blocks(16, values, mask_bytes, out)
}

/// Filters whole blocks of 8 values, as `filter_u8_avx512vbmi2` does of 64.
pub fn filter_u64_avx512f<'a>(
    values: &'a [u64],
    mask_bytes: &'a [u8],
    out: &mut Vec<u64>,
) -> Result<(&'a [u64], &'a [u8]), AllocError>
    requires { in_blocks 8 (length values.now) ≤ 8 * length mask_bytes.now }
    ensures ok { IfOk result
        (λ _. out.new.items ≡ out.old.items ++ filtered_blocks 8 values.now mask_bytes.now) }
    ensures values { IfOk result (λ rest. rest.0.now ≡ unread 8 values.now) }
    ensures mask { IfOk result (λ rest. rest.1.now ≡ unread_mask 8 values.now mask_bytes.now) }
    ensures err { OnErr result (out.new.items ≡ out.old.items) }
{
    filter_blocks(8, values, mask_bytes, out)
}

/// Filters whole blocks of `block` values, which fill whole mask bytes.
fn filter_blocks<'a, T: Copy>(
    block: usize,
    values: &'a [T],
    mask_bytes: &'a [u8],
    out: &mut Vec<T>,
) -> Result<(&'a [T], &'a [u8]), AllocError>
    requires some { 0 < block }
    requires bytes { block % 8 ≡ 0 }
    requires masked { in_blocks block (length values.now) ≤ 8 * length mask_bytes.now }
    ensures ok { IfOk result
        (λ _. out.new.items ≡ out.old.items ++ filtered_blocks block values.now mask_bytes.now) }
    ensures values { IfOk result (λ rest. rest.0.now ≡ unread block values.now) }
    ensures mask { IfOk result (λ rest. rest.1.now ≡ unread_mask block values.now mask_bytes.now) }
    ensures err { OnErr result (out.new.items ≡ out.old.items) }
{
    let n = values.len() / block * block;
    filter_values(&values[..n], &BitMask::new(mask_bytes, n), out)?;
    Ok((&values[n..], &mask_bytes[n / 8..]))
}

/// Appends the values whose mask bit is set. After `Err` `out` is as it was.
fn filter_values<T: Copy>(values: &[T], mask: &BitMask, out: &mut Vec<T>) -> Result<(), AllocError>
    requires { length mask.now ≡ length values.now }
    ensures ok { IfOk result (λ _. out.new.items ≡ out.old.items ++ filtered values.now mask.now) }
    ensures err { OnErr result (out.new.items ≡ out.old.items) }
{
    out.reserve(mask.set_bits())?;
    for (i, value) in values.iter().enumerate() {
        if mask.get(i) {
            out.push_reserved(*value);
        }
    }
    Ok(())
}
