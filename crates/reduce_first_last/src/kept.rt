//! Values that are kept with a number.
ghost use Rattle.std.specs.Prelude.{◌≡◌, if◌then◌else◌};
ghost use Rattle.col_core.specs.declared.data_type.DataType.{DataType};
ghost use Rattle.col_core.specs.declared.leaf.Leaf.{Leaf};
ghost use Rattle.reduce_states.specs.States.{merge};
ghost use Rattle.reduce_first_last.specs.Numbers.{numbered_state};

use crate::policy::Policy;

/// A kept value and its number: one above the sequence number by which it entered, and 0 where
/// nothing entered.
#[derive(Drop)]
pub struct Numbered<V: Drop> {
    pub(crate) value: V,
    pub(crate) number: u64,
}

/// Whether a value with the number `new` takes the place of one with the number `old` where they
/// are merged.
pub(crate) fn replaces<P: Policy>(new: u64, old: u64) -> bool
    ensures { (t : DataType) (kept other : Leaf) → merge P.kind t (numbered_state old kept) (numbered_state new other)
        ≡ (if result then numbered_state new other else numbered_state old kept) }
{
    P::should_replace(new, old)
}
