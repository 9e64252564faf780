//! The least and the greatest.
use crate::fixtures::array_of;
use col_arrays::PrimitiveArray;
use lane_kernels::MinMaxKernel;
use std::alloc::{AllocError, Global};
use std::process::Abort;

// Each form of each call on the present values of an array.
fn expect_extremes(
    rt: &impl Abort,
    array: &PrimitiveArray<i8>,
    least: Option<i8>,
    greatest: Option<i8>,
) {
    let both = least.zip(greatest);
    assert!(rt; array.min_ignore_nan_kernel() == least);
    assert!(rt; array.min_propagate_nan_kernel() == least);
    assert!(rt; array.max_ignore_nan_kernel() == greatest);
    assert!(rt; array.max_propagate_nan_kernel() == greatest);
    assert!(rt; array.min_max_ignore_nan_kernel() == both);
    assert!(rt; array.min_max_propagate_nan_kernel() == both);
}

// The extremes of items, after which a number stands under a null.
fn expect_of(
    rt: &impl Abort,
    alloc: Global,
    items: &[Option<i8>],
    least: Option<i8>,
    greatest: Option<i8>,
) -> Result<(), AllocError> {
    let mut array = array_of(alloc, items)?;
    array.push(-100, false)?;
    expect_extremes(rt, &array, least, greatest);
    Ok(())
}

#[test]
fn extremes(rt: HostRuntime) -> Result<(), AllocError> {
    let rows: [(&[Option<i8>], Option<i8>, Option<i8>); 3] = [
        (&[Some(7), None, Some(-3), Some(5)], Some(-3), Some(7)),
        (&[None], None, None),
        (&[Some(-128)], Some(-128), Some(-128)),
    ];
    for (items, least, greatest) in rows {
        expect_of(&rt, rt.alloc(), items, least, greatest)?;
    }
    Ok(())
}

#[test]
fn slices(rt: HostRuntime) {
    let numbers = [9u64, 0, u64::MAX];
    assert!(rt; numbers.as_slice().min_ignore_nan_kernel() == Some(0));
    assert!(rt; numbers.as_slice().max_ignore_nan_kernel() == Some(u64::MAX));
}
