//! The choice between two sides, position by position.
ghost use Rattle.std.specs.Prelude.{◌≡◌, ◌<◌, [], ◌∷◌, ◌++◌, List, Bool, true, length, replicate, slice_index_or, IfOk, OnOk};
ghost use Rattle.lane_kernels.specs.Positions.{chosen};

use col_arrays::{Bitmap, Native, PrimitiveArray};
use std::alloc::{AllocError, Global};

/// Choices by a mask. The item of an answer at `i`, its value and its validity, is that of the
/// first side where bit `i` of the mask is set, and else that of the second. A number that stands
/// for a side is never null.
pub trait IfThenElseKernel: Sized {
    type Scalar: Drop;

    // The items, each with whether it is present.
    ghost items: { Self → List (Self.Scalar × Bool) };

    /// Between two arrays.
    fn if_then_else(
        alloc: Global,
        mask: &Bitmap,
        if_true: &Self,
        if_false: &Self,
    ) -> Result<Self, AllocError>
        requires long_true { length (items if_true.now) ≡ length mask.now }
        requires long_false { length (items if_false.now) ≡ length mask.now }
        ensures { IfOk result
            (λ all. items all ≡ chosen mask.now (items if_true.now) (items if_false.now)) };

    /// Between a number and an array.
    fn if_then_else_broadcast_true(
        alloc: Global,
        mask: &Bitmap,
        if_true: Self::Scalar,
        if_false: &Self,
    ) -> Result<Self, AllocError>
        requires { length (items if_false.now) ≡ length mask.now }
        ensures { IfOk result (λ all. items all
            ≡ chosen mask.now (replicate (length mask.now) (if_true, true)) (items if_false.now)) };

    /// Between an array and a number.
    fn if_then_else_broadcast_false(
        alloc: Global,
        mask: &Bitmap,
        if_true: &Self,
        if_false: Self::Scalar,
    ) -> Result<Self, AllocError>
        requires { length (items if_true.now) ≡ length mask.now }
        ensures { IfOk result (λ all. items all
            ≡ chosen mask.now (items if_true.now) (replicate (length mask.now) (if_false, true))) };

    /// Between two numbers.
    fn if_then_else_broadcast_both(
        alloc: Global,
        mask: &Bitmap,
        if_true: Self::Scalar,
        if_false: Self::Scalar,
    ) -> Result<Self, AllocError>
        ensures { IfOk result (λ all. items all
            ≡ chosen mask.now (replicate (length mask.now) (if_true, true))
            (replicate (length mask.now) (if_false, true))) };
}

impl<T: Native> IfThenElseKernel for PrimitiveArray<T> {
    type Scalar = T;

    ghost items = { λ all. all };

    fn if_then_else(
        alloc: Global,
        mask: &Bitmap,
        if_true: &Self,
        if_false: &Self,
    ) -> Result<Self, AllocError> {
        choose(alloc, mask, if_true, if_false)
    }

    fn if_then_else_broadcast_true(
        alloc: Global,
        mask: &Bitmap,
        if_true: T,
        if_false: &Self,
    ) -> Result<Self, AllocError> {
        choose(alloc, mask, &Repeated::new(if_true, mask.len()), if_false)
    }

    fn if_then_else_broadcast_false(
        alloc: Global,
        mask: &Bitmap,
        if_true: &Self,
        if_false: T,
    ) -> Result<Self, AllocError> {
        choose(alloc, mask, if_true, &Repeated::new(if_false, mask.len()))
    }

    fn if_then_else_broadcast_both(
        alloc: Global,
        mask: &Bitmap,
        if_true: T,
        if_false: T,
    ) -> Result<Self, AllocError> {
        let if_true = Repeated::new(if_true, mask.len());
        choose(alloc, mask, &if_true, &Repeated::new(if_false, mask.len()))
    }
}

/// One side of a choice.
trait Side<T: Native> {
    // Its items, each with whether it is present.
    ghost items: { Self → List (T × Bool) };

    /// Appends the item at a place to `out`.
    fn push_item(&self, i: usize, out: &mut PrimitiveArray<T>) -> Result<(), AllocError>
        requires { i < length (items self.now) }
        ensures { OnOk result ((d : T × Bool)
            → out.new ≡ out.old ++ slice_index_or (items self.now) i d ∷ []) };
}

impl<T: Native> Side<T> for PrimitiveArray<T> {
    ghost items = { λ all. all };

    fn push_item(&self, i: usize, out: &mut PrimitiveArray<T>) -> Result<(), AllocError> {
        out.push_from(self, i)
    }
}

/// One number that stands at each of `len` places.
#[derive(Drop)]
struct Repeated<T: Drop> {
    value: T,
    len: usize,
}

impl<T: Drop> Repeated<T> {
    fn new(value: T, len: usize) -> Self
        ensures value { result.value ≡ value }
        ensures len { result.len ≡ len }
    {
        Repeated { value, len }
    }
}

impl<T: Native> Side<T> for Repeated<T> {
    ghost items = { λ all. replicate all.len (all.value, true) };

    fn push_item(&self, i: usize, out: &mut PrimitiveArray<T>) -> Result<(), AllocError> {
        out.push(self.value, true)
    }
}

/// The items that the mask names, of two sides.
fn choose<T: Native, A: Side<T>, B: Side<T>>(
    alloc: Global,
    mask: &Bitmap,
    if_true: &A,
    if_false: &B,
) -> Result<PrimitiveArray<T>, AllocError>
    requires long_true { length (A.items if_true.now) ≡ length mask.now }
    requires long_false { length (B.items if_false.now) ≡ length mask.now }
    ensures { IfOk result
        (λ all. all ≡ chosen mask.now (A.items if_true.now) (B.items if_false.now)) }
{
    let mut all = PrimitiveArray::new(alloc);
    for i in 0..mask.len() {
        if mask.get(i) {
            if_true.push_item(i, &mut all)?;
        } else {
            if_false.push_item(i, &mut all)?;
        }
    }
    Ok(all)
}
