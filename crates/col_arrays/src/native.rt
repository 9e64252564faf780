//! The types of the numbers in arrays.
ghost use Rattle.std.specs.Prelude.{◌≡◌, ℤ, ◌+ℤ◌, unsigned_abs};
ghost use Rattle.std.specs.Int.{w8, w16, w32, w64, w128};
ghost use Rattle.std.proofs.Common.{ap};
ghost use Rattle.col_arrays.specs.Wraps.{signed-wrap_add, unsigned-wrap_add};

use num_traits::{PrimInt, WrappingAdd};

/// A type of whole numbers that an array can hold. `T.value x` is the whole number of `x`,
/// `T.fits z` says that the type has the whole number `z`, and `T::zero()` is its start value.
pub trait Native: PrimInt + WrappingAdd {
    /// The whole number.
    fn to_whole(self) -> i128
        ensures value { result ≡ Self.value self }
        ensures fits { Self.fits (Self.value self) };

    /// The value that stands for a whole number of the type.
    fn from_whole(z: i128) -> Self
        requires { Self.fits z }
        ensures { Self.value result ≡ z };

    // Values that stand for one whole number are the same.
    ghost same_law: { (a b : Self) → Self.value a ≡ Self.value b → a ≡ b };

    // A sum that wraps on the way wraps to what the whole sum wraps to.
    ghost wrap_add_law: { (x y : ℤ) → Self.wrap (Self.wrap x +ℤ y) ≡ Self.wrap (x +ℤ y) };
}

impl Native for i8 {
    fn to_whole(self) -> i128 {
        self as i128
    }

    fn from_whole(z: i128) -> Self {
        z as i8
    }

    ghost same_law = { λ a b e. e };

    ghost wrap_add_law = { signed-wrap_add w8 };
}

impl Native for i16 {
    fn to_whole(self) -> i128 {
        self as i128
    }

    fn from_whole(z: i128) -> Self {
        z as i16
    }

    ghost same_law = { λ a b e. e };

    ghost wrap_add_law = { signed-wrap_add w16 };
}

impl Native for i32 {
    fn to_whole(self) -> i128 {
        self as i128
    }

    fn from_whole(z: i128) -> Self {
        z as i32
    }

    ghost same_law = { λ a b e. e };

    ghost wrap_add_law = { signed-wrap_add w32 };
}

impl Native for i64 {
    fn to_whole(self) -> i128 {
        self as i128
    }

    fn from_whole(z: i128) -> Self {
        z as i64
    }

    ghost same_law = { λ a b e. e };

    ghost wrap_add_law = { signed-wrap_add w64 };
}

impl Native for i128 {
    fn to_whole(self) -> i128 {
        self
    }

    fn from_whole(z: i128) -> Self {
        z
    }

    ghost same_law = { λ a b e. e };

    ghost wrap_add_law = { signed-wrap_add w128 };
}

impl Native for u8 {
    fn to_whole(self) -> i128 {
        self as i128
    }

    fn from_whole(z: i128) -> Self {
        z as u8
    }

    ghost same_law = { λ a b e. ap unsigned_abs e };

    ghost wrap_add_law = { unsigned-wrap_add 8 };
}

impl Native for u16 {
    fn to_whole(self) -> i128 {
        self as i128
    }

    fn from_whole(z: i128) -> Self {
        z as u16
    }

    ghost same_law = { λ a b e. ap unsigned_abs e };

    ghost wrap_add_law = { unsigned-wrap_add 16 };
}

impl Native for u32 {
    fn to_whole(self) -> i128 {
        self as i128
    }

    fn from_whole(z: i128) -> Self {
        z as u32
    }

    ghost same_law = { λ a b e. ap unsigned_abs e };

    ghost wrap_add_law = { unsigned-wrap_add 32 };
}

impl Native for u64 {
    fn to_whole(self) -> i128 {
        self as i128
    }

    fn from_whole(z: i128) -> Self {
        z as u64
    }

    ghost same_law = { λ a b e. ap unsigned_abs e };

    ghost wrap_add_law = { unsigned-wrap_add 64 };
}
