//! Columns of what kept values give.
ghost use Rattle.std.specs.Prelude.{◌≡◌, ◌<◌, ℕ, Bool, false, cond, List, [], map, length, slice_index_or, IfOk, MatchOption};
ghost use Rattle.std.specs.List.{All};
ghost use Rattle.std.specs.Option.{ForSome};
ghost use Rattle.col_core.specs.declared.data_type.DataType.{DataType};
ghost use Rattle.col_core.specs.declared.leaf.Leaf.{Leaf};
ghost use Rattle.col_core.specs.declared.leaf.Leaf.TheVariants as leaves;
ghost use Rattle.col_core.specs.Lent.{lent_leaf};
ghost use Rattle.col_core.specs.Values.{Fits};
ghost use Rattle.group_reduce.specs.Reducing.{all_shown};
ghost use Rattle.kept_values.specs.Shown.{shown_values};

use col_core::{ColumnBuilder, DataType, LeafRef, MutableBitmap, Name, Series};
use std::alloc::{AllocError, Global};

/// Kept values that each give a value of a column.
pub trait GivesValues {
    type Kept;

    // The value that a kept value gives.
    ghost given: { Self.Kept → Leaf };

    // Whether that is a value of a column type.
    ghost is_of: { DataType → Self.Kept → Type 0 };

    /// The value that is given, lent.
    fn give(kept: &Self::Kept) -> LeafRef<'_>
        ensures value { lent_leaf result ≡ given kept.now }
        ensures fits { (t : DataType) → is_of t kept.now → Fits t (lent_leaf result) };
}

/// A column with an empty name of what kept values give. An item is null where its bit of a given
/// `mask` is not set.
pub fn finished_column<G: GivesValues>(
    alloc: Global,
    kept: &[G::Kept],
    mask: Option<&MutableBitmap>,
    dtype: DataType,
) -> Result<Series, AllocError>
    requires mask { ForSome mask (λ bits. length bits.now ≡ length kept.now) }
    requires fit { All (G.is_of dtype) kept.now }
    ensures name { IfOk result (λ s. s.name ≡ []) }
    ensures dtype { IfOk result (λ s. s.dtype ≡ dtype) }
    ensures values { (bits : List Bool) → MatchOption mask.entry (bits ≡ all_shown (length kept.now)) (λ m. bits ≡ m.now)
        → IfOk result (λ s. s.values ≡ shown_values (map G.given kept.now) bits) }
{
    let mut column = ColumnBuilder::new(alloc, dtype);
    for i in 0..kept.len() {
        column.push_ref(shown(mask, i, G::give(&kept[i])))?;
    }
    column.finish(alloc, Name::new(alloc, "")?)
}

/// An item, or a null where a mask hides it.
fn shown<'a>(mask: Option<&MutableBitmap>, i: usize, item: LeafRef<'a>) -> LeafRef<'a>
    requires { ForSome mask (λ bits. i < length bits.now) }
    ensures value { (bits : List Bool) (n : ℕ) → i < n → MatchOption mask.entry (bits ≡ all_shown n) (λ m. bits ≡ m.now)
        → lent_leaf result ≡ cond (slice_index_or bits i false) (lent_leaf item.entry) leaves.Null }
    ensures fits { (t : DataType) → Fits t (lent_leaf item.entry) → Fits t (lent_leaf result) }
{
    if is_shown(mask, i) {
        item
    } else {
        LeafRef::Null
    }
}

/// Whether a mask shows an item. No mask hides any.
fn is_shown(mask: Option<&MutableBitmap>, i: usize) -> bool
    requires { ForSome mask (λ bits. i < length bits.now) }
    ensures { (bits : List Bool) (n : ℕ) → i < n → MatchOption mask.entry (bits ≡ all_shown n) (λ m. bits ≡ m.now)
        → result ≡ slice_index_or bits i false }
{
    match mask {
        Some(bits) => bits.get(i),
        None => true,
    }
}
