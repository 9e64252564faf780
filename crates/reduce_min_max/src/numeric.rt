//! Least and greatest of numbers.
ghost use Rattle.std.specs.Prelude.{◌≡◌, ℤ, Bool, true, map};
ghost use Rattle.col_core.specs.declared.data_type.DataType.{DataType};
ghost use Rattle.col_core.specs.Values.{number_leaf};
ghost use Rattle.reduce_model.specs.declared.kind.ReductionKind.{ReductionKind};
ghost use Rattle.reduce_model.specs.Folds.{fold_of, better};
ghost use Rattle.group_reduce.specs.Masked.{skips_nulls};
ghost use Rattle.kept_values.specs.Kept.{number_or_null, is_kept_as};
ghost use Rattle.reduce_min_max.specs.Best.{better_whole, order_of};

use col_core::{PrimitiveArray, Series};
use kept_values::ColumnNumber;
use lane_kernels::MinMaxKernel;
use num_traits::Bounded;
use std::marker::PhantomData;

/// Least or greatest of the numbers of a type.
pub trait NumericReduction {
    type Elem: ColumnNumber;

    // Least or greatest.
    ghost kind: { ReductionKind };

    // The number that gives way to every number of the type.
    ghost start: { ℤ };

    /// The number that gives way to every other.
    fn init() -> Self::Elem
        ensures { Self.Elem.value result ≡ start };

    /// The lesser or the greater of two numbers.
    fn combine(a: Self::Elem, b: Self::Elem) -> Self::Elem
        ensures { Self.Elem.value result ≡ better_whole kind (Self.Elem.value a) (Self.Elem.value b) };

    /// The least or the greatest of the present numbers of an array: `None` exactly where there is
    /// none.
    fn reduce_array(items: &PrimitiveArray<Self::Elem>) -> Option<Self::Elem>
        ensures { (t : DataType) → number_or_null Self.Elem.value result ≡ fold_of kind t (map (number_leaf Self.Elem.value) items.now) };

    /// The least or the greatest of the present numbers of a column: `None` exactly where there is
    /// none.
    fn reduce_ca(ca: &Series) -> Option<Self::Elem>
        requires { is_kept_as Self.Elem.physical ca.now.dtype ≡ true }
        ensures { (t : DataType) → number_or_null Self.Elem.value result ≡ fold_of kind t ca.now.values }
    {
        let mut best = None;
        for chunk in ca.chunks() {
            let items = Self::Elem::array_of(chunk);
            best = match (best, Self::reduce_array(items)) {
                (Some(a), Some(b)) => Some(Self::combine(a, b)),
                (None, next) => next,
                (_, None) => best,
            };
        }
        best
    }

    ghost kind_law: { skips_nulls Self.kind ≡ true };

    ghost start_law: { (z : ℤ) → Self.Elem.fits z
        → (better_whole Self.kind Self.start z ≡ z) × (better_whole Self.kind z Self.start ≡ z) };
}

/// The least of the numbers of a type.
pub struct Min<T: ColumnNumber> {
    of: PhantomData<T>,
}

/// The greatest of the numbers of a type.
pub struct Max<T: ColumnNumber> {
    of: PhantomData<T>,
}

impl<T: ColumnNumber> NumericReduction for Min<T> {
    ghost use Rattle.std.specs.Prelude.{refl};
    ghost use Rattle.reduce_model.specs.declared.kind.ReductionKind.TheVariants as kinds;
    ghost use Rattle.reduce_min_max.specs.BestLaws.{high_gives_way};

    type Elem = T;

    ghost kind = { kinds.Min };

    ghost kind_law = { refl };

    ghost start = { T.high };

    ghost start_law = { λ z f. high_gives_way T.high z ((T.bounds_law z T.exact_law).0 f).1 };

    fn init() -> T {
        <T as Bounded>::max_value()
    }

    fn combine(a: T, b: T) -> T {
        if b < a { b } else { a }
    }

    fn reduce_array(items: &PrimitiveArray<T>) -> Option<T> {
        items.min_ignore_nan_kernel()
    }
}

impl<T: ColumnNumber> NumericReduction for Max<T> {
    ghost use Rattle.std.specs.Prelude.{refl};
    ghost use Rattle.reduce_model.specs.declared.kind.ReductionKind.TheVariants as kinds;
    ghost use Rattle.reduce_min_max.specs.BestLaws.{low_gives_way};

    type Elem = T;

    ghost kind = { kinds.Max };

    ghost kind_law = { refl };

    ghost start = { T.low };

    ghost start_law = { λ z f. low_gives_way T.low z ((T.bounds_law z T.exact_law).0 f).0 };

    fn init() -> T {
        <T as Bounded>::min_value()
    }

    fn combine(a: T, b: T) -> T {
        if a < b { b } else { a }
    }

    fn reduce_array(items: &PrimitiveArray<T>) -> Option<T> {
        items.max_ignore_nan_kernel()
    }
}
