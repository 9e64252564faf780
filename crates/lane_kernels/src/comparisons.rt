//! Comparisons of arrays, and of an array with a number. They read what is stored, under nulls too.
ghost use Rattle.std.specs.Prelude.{◌≡◌, ℤ, List, length, IfOk, int_lt};
ghost use Rattle.std.specs.Ordering.{int_eq};
ghost use Rattle.lane_kernels.specs.Positions.{compared_bits, compared_with, int_ne, int_le, int_gt, int_ge};

use crate::order::{AtLeast, AtMost, Comparison, Equal, Greater, Less, NotEqual};
use col_arrays::{Bitmap, MutableBitmap, Native, PrimitiveArray};
use std::alloc::{AllocError, Global};

/// Comparisons for equality. Bit `i` of an answer is the comparison of what is stored at `i`.
pub trait TotalEqKernel {
    type Scalar: Drop;

    // What is stored.
    ghost stored: { Self → List Self.Scalar };

    // The whole number of a value.
    ghost value: { Self.Scalar → ℤ };

    /// `==` with another array.
    fn tot_eq_kernel(&self, alloc: Global, other: &Self) -> Result<Bitmap, AllocError>
        requires { length (stored other.now) ≡ length (stored self.now) }
        ensures { IfOk result
            (λ bits. bits ≡ compared_bits int_eq value (stored self.now) (stored other.now)) };

    /// `!=` with another array.
    fn tot_ne_kernel(&self, alloc: Global, other: &Self) -> Result<Bitmap, AllocError>
        requires { length (stored other.now) ≡ length (stored self.now) }
        ensures { IfOk result
            (λ bits. bits ≡ compared_bits int_ne value (stored self.now) (stored other.now)) };

    /// `==` of each value with `other`.
    fn tot_eq_kernel_broadcast(
        &self,
        alloc: Global,
        other: &Self::Scalar,
    ) -> Result<Bitmap, AllocError>
        ensures { IfOk result
            (λ bits. bits ≡ compared_with int_eq value (stored self.now) other.now) };

    /// `!=` of each value with `other`.
    fn tot_ne_kernel_broadcast(
        &self,
        alloc: Global,
        other: &Self::Scalar,
    ) -> Result<Bitmap, AllocError>
        ensures { IfOk result
            (λ bits. bits ≡ compared_with int_ne value (stored self.now) other.now) };
}

/// Comparisons by order. Bit `i` of an answer is the comparison of what is stored at `i`.
pub trait TotalOrdKernel {
    type Scalar: Drop;

    // What is stored.
    ghost stored: { Self → List Self.Scalar };

    // The whole number of a value.
    ghost value: { Self.Scalar → ℤ };

    /// `<` with another array.
    fn tot_lt_kernel(&self, alloc: Global, other: &Self) -> Result<Bitmap, AllocError>
        requires { length (stored other.now) ≡ length (stored self.now) }
        ensures { IfOk result
            (λ bits. bits ≡ compared_bits int_lt value (stored self.now) (stored other.now)) };

    /// `<=` with another array.
    fn tot_le_kernel(&self, alloc: Global, other: &Self) -> Result<Bitmap, AllocError>
        requires { length (stored other.now) ≡ length (stored self.now) }
        ensures { IfOk result
            (λ bits. bits ≡ compared_bits int_le value (stored self.now) (stored other.now)) };

    /// `<` of each value with `other`.
    fn tot_lt_kernel_broadcast(
        &self,
        alloc: Global,
        other: &Self::Scalar,
    ) -> Result<Bitmap, AllocError>
        ensures { IfOk result
            (λ bits. bits ≡ compared_with int_lt value (stored self.now) other.now) };

    /// `<=` of each value with `other`.
    fn tot_le_kernel_broadcast(
        &self,
        alloc: Global,
        other: &Self::Scalar,
    ) -> Result<Bitmap, AllocError>
        ensures { IfOk result
            (λ bits. bits ≡ compared_with int_le value (stored self.now) other.now) };

    /// `>` of each value with `other`.
    fn tot_gt_kernel_broadcast(
        &self,
        alloc: Global,
        other: &Self::Scalar,
    ) -> Result<Bitmap, AllocError>
        ensures { IfOk result
            (λ bits. bits ≡ compared_with int_gt value (stored self.now) other.now) };

    /// `>=` of each value with `other`.
    fn tot_ge_kernel_broadcast(
        &self,
        alloc: Global,
        other: &Self::Scalar,
    ) -> Result<Bitmap, AllocError>
        ensures { IfOk result
            (λ bits. bits ≡ compared_with int_ge value (stored self.now) other.now) };
}

impl<T: Native> TotalEqKernel for PrimitiveArray<T> {
    ghost use Rattle.col_arrays.specs.Items.{stored as stored_of};

    type Scalar = T;

    ghost stored = { λ items. stored_of items };

    ghost value = { T.value };

    fn tot_eq_kernel(&self, alloc: Global, other: &Self) -> Result<Bitmap, AllocError> {
        compare_arrays::<Equal, T>(alloc, self.values(), other.values())
    }

    fn tot_ne_kernel(&self, alloc: Global, other: &Self) -> Result<Bitmap, AllocError> {
        compare_arrays::<NotEqual, T>(alloc, self.values(), other.values())
    }

    fn tot_eq_kernel_broadcast(&self, alloc: Global, other: &T) -> Result<Bitmap, AllocError> {
        compare_each::<Equal, T>(alloc, self.values(), *other)
    }

    fn tot_ne_kernel_broadcast(&self, alloc: Global, other: &T) -> Result<Bitmap, AllocError> {
        compare_each::<NotEqual, T>(alloc, self.values(), *other)
    }
}

impl<T: Native> TotalOrdKernel for PrimitiveArray<T> {
    ghost use Rattle.col_arrays.specs.Items.{stored as stored_of};

    type Scalar = T;

    ghost stored = { λ items. stored_of items };

    ghost value = { T.value };

    fn tot_lt_kernel(&self, alloc: Global, other: &Self) -> Result<Bitmap, AllocError> {
        compare_arrays::<Less, T>(alloc, self.values(), other.values())
    }

    fn tot_le_kernel(&self, alloc: Global, other: &Self) -> Result<Bitmap, AllocError> {
        compare_arrays::<AtMost, T>(alloc, self.values(), other.values())
    }

    fn tot_lt_kernel_broadcast(&self, alloc: Global, other: &T) -> Result<Bitmap, AllocError> {
        compare_each::<Less, T>(alloc, self.values(), *other)
    }

    fn tot_le_kernel_broadcast(&self, alloc: Global, other: &T) -> Result<Bitmap, AllocError> {
        compare_each::<AtMost, T>(alloc, self.values(), *other)
    }

    fn tot_gt_kernel_broadcast(&self, alloc: Global, other: &T) -> Result<Bitmap, AllocError> {
        compare_each::<Greater, T>(alloc, self.values(), *other)
    }

    fn tot_ge_kernel_broadcast(&self, alloc: Global, other: &T) -> Result<Bitmap, AllocError> {
        compare_each::<AtLeast, T>(alloc, self.values(), *other)
    }
}

/// The comparison of the numbers at each place.
fn compare_arrays<C: Comparison, T: Native>(
    alloc: Global,
    left: &[T],
    right: &[T],
) -> Result<Bitmap, AllocError>
    requires { length right.now ≡ length left.now }
    ensures { IfOk result (λ bits. bits ≡ compared_bits C.holds T.value left.now right.now) }
{
    let mut bits = MutableBitmap::new(alloc);
    bits.reserve(left.len())?;
    for i in 0..left.len() {
        bits.push(C::compare(left[i], right[i]))?;
    }
    Ok(bits.freeze())
}

/// The comparison of each number with one number.
fn compare_each<C: Comparison, T: Native>(
    alloc: Global,
    left: &[T],
    right: T,
) -> Result<Bitmap, AllocError>
    ensures { IfOk result (λ bits. bits ≡ compared_with C.holds T.value left.now right) }
{
    let mut bits = MutableBitmap::new(alloc);
    bits.reserve(left.len())?;
    for i in 0..left.len() {
        bits.push(C::compare(left[i], right))?;
    }
    Ok(bits.freeze())
}
