//! Comparisons of two numbers, by the whole numbers that they stand for.
ghost use Rattle.std.specs.Prelude.{◌≡◌, ℤ, Bool, true, false};

use col_arrays::Native;

/// A comparison of two numbers.
pub(crate) trait Comparison {
    // Whether it holds of two whole numbers.
    ghost holds: { ℤ → ℤ → Bool };

    /// Whether it holds of the two numbers.
    fn compare<T: Native>(x: T, y: T) -> bool
        ensures { result ≡ holds (T.value x) (T.value y) };
}

/// `==`
pub(crate) struct Equal;

/// `!=`
pub(crate) struct NotEqual;

/// `<`
pub(crate) struct Less;

/// `<=`
pub(crate) struct AtMost;

/// `>`
pub(crate) struct Greater;

/// `>=`
pub(crate) struct AtLeast;

impl Comparison for Equal {
    ghost use Rattle.std.specs.Ordering.{int_eq};

    ghost holds = { int_eq };

    fn compare<T: Native>(x: T, y: T) -> bool {
        x == y
    }
}

impl Comparison for NotEqual {
    ghost use Rattle.lane_kernels.specs.Positions.{int_ne};

    ghost holds = { int_ne };

    fn compare<T: Native>(x: T, y: T) -> bool {
        x != y
    }
}

impl Comparison for Less {
    ghost use Rattle.std.specs.Prelude.{int_lt};

    ghost holds = { int_lt };

    fn compare<T: Native>(x: T, y: T) -> bool {
        x < y
    }
}

impl Comparison for AtMost {
    ghost use Rattle.lane_kernels.specs.Positions.{int_le};

    ghost holds = { int_le };

    fn compare<T: Native>(x: T, y: T) -> bool {
        x <= y
    }
}

impl Comparison for Greater {
    ghost use Rattle.lane_kernels.specs.Positions.{int_gt};

    ghost holds = { int_gt };

    fn compare<T: Native>(x: T, y: T) -> bool {
        x > y
    }
}

impl Comparison for AtLeast {
    ghost use Rattle.lane_kernels.specs.Positions.{int_ge};

    ghost holds = { int_ge };

    fn compare<T: Native>(x: T, y: T) -> bool {
        x >= y
    }
}

/// A comparison that is an order: what beats a number beats all that did not beat that number.
pub(crate) trait Order: Comparison {
    ghost beats_law: { (x y z : ℤ) → Self.holds x y ≡ true → Self.holds z y ≡ false
        → Self.holds z x ≡ false };

    ghost tie_law: { (x : ℤ) → Self.holds x x ≡ false };
}

impl Order for Less {
    ghost use Rattle.lane_kernels.specs.OrderLaws.{less_beats, less_tie};

    ghost beats_law = { less_beats };

    ghost tie_law = { less_tie };
}

impl Order for Greater {
    ghost use Rattle.lane_kernels.specs.OrderLaws.{greater_beats, less_tie};

    ghost beats_law = { greater_beats };

    ghost tie_law = { less_tie };
}
