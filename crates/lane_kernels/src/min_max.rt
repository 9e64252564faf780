//! The least and the greatest of the present values.
ghost use Rattle.std.specs.Prelude.{◌≡◌, ℤ, List, [], ◌∷◌, ◌++◌, length, MatchOption};
ghost use Rattle.lane_kernels.specs.Positions.{filtered, present_values, IsBest, IsLeast, IsGreatest};

use crate::order::{Greater, Less, Order};
use col_arrays::{Bitmap, Native, PrimitiveArray};

/// The least and the greatest of the present values: `None` exactly where no value is present. No
/// number is a NaN, so the two forms of each call are equal.
pub trait MinMaxKernel {
    type Scalar: Drop;

    // The present values.
    ghost present: { Self → List Self.Scalar };

    // The whole number of a value.
    ghost value: { Self.Scalar → ℤ };

    /// The least.
    fn min_ignore_nan_kernel(&self) -> Option<Self::Scalar>
        ensures { MatchOption result (present self.now ≡ []) (IsLeast value (present self.now)) };

    /// The greatest.
    fn max_ignore_nan_kernel(&self) -> Option<Self::Scalar>
        ensures { MatchOption result (present self.now ≡ []) (IsGreatest value (present self.now)) };

    /// The least, and then the greatest.
    fn min_max_ignore_nan_kernel(&self) -> Option<(Self::Scalar, Self::Scalar)>
        ensures { MatchOption result (present self.now ≡ [])
            (λ both. IsLeast value (present self.now) both.0
            × IsGreatest value (present self.now) both.1) }
    {
        Some((self.min_ignore_nan_kernel()?, self.max_ignore_nan_kernel()?))
    }

    /// The least.
    fn min_propagate_nan_kernel(&self) -> Option<Self::Scalar>
        ensures { MatchOption result (present self.now ≡ []) (IsLeast value (present self.now)) }
    {
        self.min_ignore_nan_kernel()
    }

    /// The greatest.
    fn max_propagate_nan_kernel(&self) -> Option<Self::Scalar>
        ensures { MatchOption result (present self.now ≡ []) (IsGreatest value (present self.now)) }
    {
        self.max_ignore_nan_kernel()
    }

    /// The least, and then the greatest.
    fn min_max_propagate_nan_kernel(&self) -> Option<(Self::Scalar, Self::Scalar)>
        ensures { MatchOption result (present self.now ≡ [])
            (λ both. IsLeast value (present self.now) both.0
            × IsGreatest value (present self.now) both.1) }
    {
        self.min_max_ignore_nan_kernel()
    }
}

impl<T: Native> MinMaxKernel for PrimitiveArray<T> {
    type Scalar = T;

    ghost present = { λ items. present_values items };

    ghost value = { T.value };

    fn min_ignore_nan_kernel(&self) -> Option<T> {
        best_present::<Less, T>(self)
    }

    fn max_ignore_nan_kernel(&self) -> Option<T> {
        best_present::<Greater, T>(self)
    }
}

impl<T: Native> MinMaxKernel for &[T] {
    type Scalar = T;

    ghost present = { λ values. values.now };

    ghost value = { T.value };

    fn min_ignore_nan_kernel(&self) -> Option<T> {
        best::<Less, T>(*self)
    }

    fn max_ignore_nan_kernel(&self) -> Option<T> {
        best::<Greater, T>(*self)
    }
}

/// The best value of an array: the one that no other beats.
fn best_present<C: Order, T: Native>(items: &PrimitiveArray<T>) -> Option<T>
    ensures { MatchOption result (present_values items.now ≡ [])
        (IsBest C.holds T.value (present_values items.now)) }
{
    match items.validity() {
        Some(validity) => best_where::<C, T>(items.values(), validity),
        None => best::<C, T>(items.values()),
    }
}

/// The best of some values.
fn best<C: Order, T: Native>(values: &[T]) -> Option<T>
    ensures { MatchOption result (values.now ≡ []) (IsBest C.holds T.value values.now) }
{
    let mut best = None;
    for i in 0..values.len() {
        best = Some(better::<C, T>(best, values[i]));
    }
    best
}

/// The best of the values whose bit is set.
fn best_where<C: Order, T: Native>(values: &[T], validity: &Bitmap) -> Option<T>
    requires { length validity.now ≡ length values.now }
    ensures { MatchOption result (filtered values.now validity.now ≡ [])
        (IsBest C.holds T.value (filtered values.now validity.now)) }
{
    let mut best = None;
    for i in 0..values.len() {
        if validity.get(i) {
            best = Some(better::<C, T>(best, values[i]));
        }
    }
    best
}

/// The best of some values so far and of one more.
fn better<C: Order, T: Native>(best: Option<T>, value: T) -> T
    ensures { (so_far : List T)
        → MatchOption best (so_far ≡ []) (IsBest C.holds T.value so_far)
        → IsBest C.holds T.value (so_far ++ value ∷ []) result }
{
    match best {
        Some(best) => { if C::compare(value, best) { value } else { best } }
        None => value,
    }
}
