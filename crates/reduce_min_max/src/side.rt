//! Least, or greatest.
ghost use Rattle.std.specs.Prelude.{◌≡◌, true};
ghost use Rattle.std.specs.Ordering.{is_gt};
ghost use Rattle.col_core.specs.declared.leaf.Leaf.TheVariants as leaves;
ghost use Rattle.reduce_model.specs.declared.kind.ReductionKind.{ReductionKind};
ghost use Rattle.reduce_model.specs.Orders.{least_by};
ghost use Rattle.group_reduce.specs.Masked.{skips_nulls};
ghost use Rattle.reduce_min_max.specs.Best.{order_of};

/// Least, or greatest.
pub trait Side {
    // Least, or greatest.
    ghost kind: { ReductionKind };

    /// Whether bytes are better than others. Bytes are ordered by their bytes, as words are by
    /// their letters.
    fn beats(new: &[u8], old: &[u8]) -> bool
        ensures { result ≡ is_gt (order_of kind (leaves.Bytes old.now) (leaves.Bytes new.now)) };

    /// The better of two truth values. False is below true.
    fn better(a: bool, b: bool) -> bool
        ensures { leaves.Bool result ≡ least_by (order_of kind) (leaves.Bool a) (leaves.Bool b) };

    ghost kind_law: { skips_nulls Self.kind ≡ true };
}

/// Least.
pub struct Least;

/// Greatest.
pub struct Greatest;

impl Side for Least {
    ghost use Rattle.std.specs.Prelude.{refl};
    ghost use Rattle.reduce_model.specs.declared.kind.ReductionKind.TheVariants as kinds;

    ghost kind = { kinds.Min };

    ghost kind_law = { refl };

    fn beats(new: &[u8], old: &[u8]) -> bool {
        old.cmp(new).is_gt()
    }

    fn better(a: bool, b: bool) -> bool {
        a && b
    }
}

impl Side for Greatest {
    ghost use Rattle.std.specs.Prelude.{refl};
    ghost use Rattle.reduce_model.specs.declared.kind.ReductionKind.TheVariants as kinds;

    ghost kind = { kinds.Max };

    ghost kind_law = { refl };

    fn beats(new: &[u8], old: &[u8]) -> bool {
        new.cmp(old).is_gt()
    }

    fn better(a: bool, b: bool) -> bool {
        a || b
    }
}
