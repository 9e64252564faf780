//! Comparisons. The bits of an answer stand in a word, the first lowest.
use crate::fixtures::{array_of, word_of};
use col_arrays::{Native, PrimitiveArray};
use lane_kernels::{TotalEqKernel, TotalOrdKernel};
use std::alloc::{AllocError, Global};
use std::process::Abort;

// The answers to `==`, `!=`, `<` and `<=` of two arrays.
fn expect_arrays<T: Native>(
    rt: &impl Abort,
    alloc: Global,
    left: &PrimitiveArray<T>,
    right: &PrimitiveArray<T>,
    wanted: [u64; 4],
) -> Result<(), AllocError> {
    assert!(rt; right.len() == left.len());
    assert!(rt; word_of(left.tot_eq_kernel(alloc, right))? == wanted[0]);
    assert!(rt; word_of(left.tot_ne_kernel(alloc, right))? == wanted[1]);
    assert!(rt; word_of(left.tot_lt_kernel(alloc, right))? == wanted[2]);
    assert!(rt; word_of(left.tot_le_kernel(alloc, right))? == wanted[3]);
    Ok(())
}

// The answers to `==`, `!=`, `<`, `<=`, `>` and `>=` of an array and a number.
fn expect_number<T: Native>(
    rt: &impl Abort,
    alloc: Global,
    left: &PrimitiveArray<T>,
    right: &T,
    wanted: [u64; 6],
) -> Result<(), AllocError> {
    assert!(rt; word_of(left.tot_eq_kernel_broadcast(alloc, right))? == wanted[0]);
    assert!(rt; word_of(left.tot_ne_kernel_broadcast(alloc, right))? == wanted[1]);
    assert!(rt; word_of(left.tot_lt_kernel_broadcast(alloc, right))? == wanted[2]);
    assert!(rt; word_of(left.tot_le_kernel_broadcast(alloc, right))? == wanted[3]);
    assert!(rt; word_of(left.tot_gt_kernel_broadcast(alloc, right))? == wanted[4]);
    assert!(rt; word_of(left.tot_ge_kernel_broadcast(alloc, right))? == wanted[5]);
    Ok(())
}

// The answers to `==`, `!=`, `<` and `<=` of two lists of items.
fn expect_items<T: Native>(
    rt: &impl Abort,
    alloc: Global,
    left: &[Option<T>],
    right: &[Option<T>],
    wanted: [u64; 4],
) -> Result<(), AllocError> {
    let left = array_of(alloc, left)?;
    let right = array_of(alloc, right)?;
    expect_arrays(rt, alloc, &left, &right, wanted)
}

/// The ends of a type's range and a null over 0, beside the same from behind.
macro_rules! expect_ends {
    ($rt:ident, $number:ident, $wanted:expr) => {
        let left = [Some($number::MIN), Some($number::MAX), None];
        let right = [Some($number::MAX), None, Some($number::MIN)];
        expect_items(&$rt, $rt.alloc(), &left, &right, $wanted)?
    };
}

#[test]
fn arrays(rt: HostRuntime) -> Result<(), AllocError> {
    // 0 is more than the least number, or it is that.
    expect_ends!(rt, i8, [0b000, 0b111, 0b001, 0b001]);
    expect_ends!(rt, i64, [0b000, 0b111, 0b001, 0b001]);
    expect_ends!(rt, u8, [0b100, 0b011, 0b001, 0b101]);
    expect_ends!(rt, u64, [0b100, 0b011, 0b001, 0b101]);
    Ok(())
}

#[test]
fn numbers(rt: HostRuntime) -> Result<(), AllocError> {
    let left = array_of(rt.alloc(), &[Some(-1i8), Some(0), Some(1), None])?;
    let wanted = [0b1010, 0b0101, 0b0001, 0b1011, 0b0100, 0b1110];
    expect_number(&rt, rt.alloc(), &left, &0, wanted)
}
