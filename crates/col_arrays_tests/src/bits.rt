//! Bits.
use col_arrays::{Bitmap, MutableBitmap};
use std::alloc::{AllocError, Global};
use std::process::Abort;

/// Compares each bit with the one that is wanted.
fn expect_bits(rt: &impl Abort, bits: &Bitmap, wanted: &[bool]) {
    assert!(rt; bits.len() == wanted.len());
    for (i, bit) in wanted.iter().enumerate() {
        assert!(rt; bits.get(i) == *bit);
    }
}

#[test]
fn packed(rt: HostRuntime) -> Result<(), AllocError> {
    let bits = Bitmap::from_u8_vec(vec![in rt.alloc(); 5u8]?, 3);
    expect_bits(&rt, &bits, &[true, false, true]);
    Ok(())
}

/// `n` bits, all set but the last.
fn all_but_the_last(alloc: Global, n: usize) -> Result<Bitmap, AllocError> {
    let mut bits = MutableBitmap::new(alloc);
    bits.resize(n, true)?;
    if bits.len() > 0 {
        bits.set(bits.len() - 1, false);
    }
    Ok(bits.freeze())
}

/// The number of unset bits, the first 64 bits, and the 64 from the eighth on.
fn expect_words(rt: &impl Abort, bits: &Bitmap, first: u64, later: u64) {
    assert!(rt; bits.unset_bits() == bits.len().min(1));
    assert!(rt; bits.mask().lanes(0) == first);
    assert!(rt; bits.mask().lanes(8) == later);
}

#[test]
fn sizes(rt: HostRuntime) -> Result<(), AllocError> {
    for (n, first, later) in [
        (0, 0, 0),
        (1, 0, 0),
        (63, 0x3fff_ffff_ffff_ffff, 0x3f_ffff_ffff_ffff),
        (64, 0x7fff_ffff_ffff_ffff, 0x7f_ffff_ffff_ffff),
        (65, u64::MAX, 0xff_ffff_ffff_ffff),
    ] {
        expect_words(&rt, &all_but_the_last(rt.alloc(), n)?, first, later);
    }
    Ok(())
}
