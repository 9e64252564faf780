//! Choices between two sides.
use crate::fixtures::{array_of, bitmap_of};
use col_arrays::{Bitmap, PrimitiveArray};
use lane_kernels::IfThenElseKernel;
use std::alloc::{AllocError, Global};
use std::process::Abort;

// Whether an answer has these items.
fn are_items(
    answer: Result<PrimitiveArray<i8>, AllocError>,
    wanted: &[Option<i8>],
) -> Result<bool, AllocError> {
    let items = answer?;
    if items.len() != wanted.len() {
        return Ok(false);
    }
    for (i, item) in wanted.iter().enumerate() {
        if items.get(i) != *item {
            return Ok(false);
        }
    }
    Ok(true)
}

// The choices by a mask: of two arrays, of 9 and an array, of an array and 9, and of 8 and 9.
fn expect_choices(
    rt: &impl Abort,
    alloc: Global,
    mask: &Bitmap,
    left: &PrimitiveArray<i8>,
    right: &PrimitiveArray<i8>,
    wanted: [&[Option<i8>]; 4],
) -> Result<(), AllocError> {
    assert!(rt; left.len() == mask.len() && right.len() == mask.len());
    let all = PrimitiveArray::if_then_else(alloc, mask, left, right);
    assert!(rt; are_items(all, wanted[0])?);
    let all = PrimitiveArray::if_then_else_broadcast_true(alloc, mask, 9, right);
    assert!(rt; are_items(all, wanted[1])?);
    let all = PrimitiveArray::if_then_else_broadcast_false(alloc, mask, left, 9);
    assert!(rt; are_items(all, wanted[2])?);
    let all = PrimitiveArray::if_then_else_broadcast_both(alloc, mask, 8, 9);
    assert!(rt; are_items(all, wanted[3])?);
    Ok(())
}

#[test]
fn choices(rt: HostRuntime) -> Result<(), AllocError> {
    let mask = bitmap_of(rt.alloc(), &[true, false, false, true])?;
    let left = array_of(rt.alloc(), &[Some(1), Some(2), None, None])?;
    let right = array_of(rt.alloc(), &[Some(-1), None, Some(-3), Some(-4)])?;
    let wanted: [&[Option<i8>]; 4] = [
        &[Some(1), None, Some(-3), None],
        &[Some(9), None, Some(-3), Some(9)],
        &[Some(1), Some(9), Some(9), None],
        &[Some(8), Some(9), Some(9), Some(8)],
    ];
    expect_choices(&rt, rt.alloc(), &mask, &left, &right, wanted)
}
