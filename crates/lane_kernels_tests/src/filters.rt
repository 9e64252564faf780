//! Filters.
use crate::fixtures::{bitmap_of, word_of};
use lane_kernels::{
    filter_boolean_kernel, filter_u8_avx512vbmi2, filter_u16_avx512vbmi2, filter_u32_avx512f,
    filter_u64_avx512f, pext64_polyfill,
};
use std::alloc::AllocError;

/// A filter keeps so many of a hundred nines, all bits of the mask being set, and so many numbers and
/// bytes of the mask are not read.
macro_rules! expect_block {
    ($rt:ident, $filter:ident, $kept:expr, $rest:expr, $unread:expr) => {
        let mut kept = Vec::new($rt.alloc());
        let (rest, unread) = $filter(&[9; 100], &[0xff; 13], &mut kept)?;
        assert!($rt; kept.len() == $kept);
        assert!($rt; kept[0] == 9);
        assert!($rt; rest.len() == $rest);
        assert!($rt; unread.len() == $unread);
    };
}

#[test]
fn bytes(rt: HostRuntime) -> Result<(), AllocError> {
    expect_block!(rt, filter_u8_avx512vbmi2, 64, 36, 5);
    Ok(())
}

#[test]
fn shorts(rt: HostRuntime) -> Result<(), AllocError> {
    expect_block!(rt, filter_u16_avx512vbmi2, 96, 4, 1);
    Ok(())
}

#[test]
fn words(rt: HostRuntime) -> Result<(), AllocError> {
    expect_block!(rt, filter_u32_avx512f, 96, 4, 1);
    Ok(())
}

#[test]
fn long_words(rt: HostRuntime) -> Result<(), AllocError> {
    expect_block!(rt, filter_u64_avx512f, 96, 4, 1);
    Ok(())
}

#[test]
fn words_of_bits(rt: HostRuntime) {
    for (word, mask, kept) in [(u64::MAX, 10u64, 3), (5, 0, 0), (5, u64::MAX, 5)] {
        assert!(rt; pext64_polyfill(word, mask, mask.count_ones()) == kept);
    }
}

#[test]
fn bits(rt: HostRuntime) -> Result<(), AllocError> {
    let all = bitmap_of(rt.alloc(), &[true, false, true])?;
    let mask = bitmap_of(rt.alloc(), &[false, true, true])?;
    assert!(rt; all.len() == mask.len());
    assert!(rt; word_of(filter_boolean_kernel(rt.alloc(), &all, &mask))? == 0b10);
    Ok(())
}
