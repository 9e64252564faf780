//! First, or last.
ghost use Rattle.std.specs.Prelude.{◌≡◌, ◌<◌, true};
ghost use Rattle.reduce_model.specs.declared.kind.ReductionKind.{ReductionKind};
ghost use Rattle.reduce_first_last.specs.Numbers.{goes_by_number, kept_place, replaces};

/// First, or last. Numbers are one above sequence numbers, and 0 is the number of no value.
pub trait Policy {
    // First, or last.
    ghost kind: { ReductionKind };

    /// The place of the value that is kept of so many that enter at once.
    fn index(len: usize) -> usize
        requires { 0 < len }
        ensures { result ≡ kept_place kind len };

    /// Whether a value with the number `new` takes the place of one with the number `old`.
    fn should_replace(new: u64, old: u64) -> bool
        ensures { result ≡ replaces kind new old };

    ghost kind_law: { goes_by_number Self.kind ≡ true };
}

/// The value with the least number, and of several the one that entered first.
pub struct First;

/// The value with the greatest number, and of several the one that entered last.
pub struct Last;

impl Policy for First {
    ghost use Rattle.std.specs.Prelude.{refl};
    ghost use Rattle.reduce_model.specs.declared.kind.ReductionKind.TheVariants as kinds;

    ghost kind = { kinds.First };

    ghost kind_law = { refl };

    fn index(_len: usize) -> usize {
        0
    }

    fn should_replace(new: u64, old: u64) -> bool {
        new.wrapping_sub(1) < old.wrapping_sub(1)
    }
}

impl Policy for Last {
    ghost use Rattle.std.specs.Prelude.{refl};
    ghost use Rattle.reduce_model.specs.declared.kind.ReductionKind.TheVariants as kinds;

    ghost kind = { kinds.Last };

    ghost kind_law = { refl };

    fn index(len: usize) -> usize {
        len - 1
    }

    fn should_replace(new: u64, old: u64) -> bool {
        new >= old
    }
}
