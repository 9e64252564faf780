//! The reductions of a local state, one column after the other.
ghost use Rattle.std.specs.Prelude.{◌≡◌, ◌-◌, ◌<◌, ◌^◌, ℕ, List as Items, [], map, length, slice_index_or, IfOk, OnOk};
ghost use Rattle.std.specs.List.{All};
ghost use Rattle.list_laws.specs.Each.{Each};
ghost use Rattle.list_laws.specs.Places.{PairsFrom, At};
ghost use Rattle.reduce_states.specs.Reductions.{Shape, AreAlike};
ghost use Rattle.group_locals.specs.Locals.{sized};
ghost use Rattle.group_locals.specs.Columns.{EntersColumn, CombinesColumn, AreEmptied};

use col_core::{IdxSize, List, Series};
use group_reduce::GroupedReduction;
use std::alloc::{AllocError, Global};

/// Values with one number enter a reduction.
fn enter_column<R: GroupedReduction>(
    reduction: &mut R,
    groups: IdxSize,
    values: &Series,
    group_idxs: &[IdxSize],
    seq_id: u64,
) -> Result<(), AllocError>
    requires dtype { values.now.dtype ≡ (R.shape reduction.old).dtype }
    requires lengths { length values.now.values ≡ length group_idxs.now }
    requires places { All (λ g. g < groups) group_idxs.now }
    requires number { seq_id < 2 ^ 64 - 1 }
    ensures { OnOk result (EntersColumn R.shape R.holds groups group_idxs.now seq_id
        values.now.values reduction.old reduction.new) }
{
    reduction.resize(groups)?;
    reduction.update_groups(values, group_idxs, seq_id)
}

/// The columns of some rows enter their reductions.
pub(crate) fn enter_columns<R: GroupedReduction>(
    reductions: &mut List<R>,
    groups: IdxSize,
    values: &[&Series],
    group_idxs: &[IdxSize],
    seq_id: u64,
) -> Result<(), AllocError>
    requires types { map (λ v. v.now.dtype) values.now ≡ map (λ a. (R.shape a).dtype) reductions.old }
    requires heights { Each (λ v. length v.now.values ≡ length group_idxs.now) values.now }
    requires places { All (λ g. g < groups) group_idxs.now }
    requires number { seq_id < 2 ^ 64 - 1 }
    ensures { OnOk result (PairsFrom (λ r a b. EntersColumn R.shape R.holds groups group_idxs.now
        seq_id (slice_index_or (map (λ v. v.now.values) values.now) r []) a b) 0
        reductions.old reductions.new) }
{
    for (r, column) in values.iter().enumerate() {
        enter_column(reductions.item_mut(r), groups, column, group_idxs, seq_id)?;
    }
    Ok(())
}

/// The groups of another reduction enter a reduction.
fn combine_column<R: GroupedReduction>(
    reduction: &mut R,
    groups: IdxSize,
    other: &R,
    group_idxs: &[IdxSize],
) -> Result<(), AllocError>
    requires alike { AreAlike (R.shape reduction.old) (R.shape other.now) }
    requires lengths { (R.shape other.now).groups ≡ length group_idxs.now }
    requires places { All (λ g. g < groups) group_idxs.now }
    ensures { OnOk result (CombinesColumn R.shape R.holds groups group_idxs.now reduction.old
        other.now reduction.new) }
{
    reduction.resize(groups)?;
    reduction.combine(other, group_idxs)
}

/// The groups of other reductions enter reductions of the same kinds and types.
pub(crate) fn combine_columns<R: GroupedReduction>(
    reductions: &mut List<R>,
    groups: IdxSize,
    others: &[R],
    group_idxs: &[IdxSize],
) -> Result<(), AllocError>
    requires alike { (shapes : Items Shape) × (n : ℕ)
        × (map R.shape reductions.old ≡ map (sized n) shapes)
        × (map R.shape others.now ≡ map (sized (length group_idxs.now)) shapes) }
    requires places { All (λ g. g < groups) group_idxs.now }
    ensures { OnOk result (PairsFrom (λ r a b. At (λ o. CombinesColumn R.shape R.holds groups
        group_idxs.now a o b) r others.now) 0 reductions.old reductions.new) }
{
    for (r, other) in others.iter().enumerate() {
        combine_column(reductions.item_mut(r), groups, other, group_idxs)?;
    }
    Ok(())
}

/// Reductions like others, without groups.
pub(crate) fn emptied<R: GroupedReduction>(
    alloc: Global,
    reductions: &[R],
) -> Result<List<R>, AllocError>
    ensures { IfOk result (λ v. AreEmptied R.shape R.holds reductions.now v) }
{
    let mut empty = Vec::with_capacity(alloc, reductions.len())?;
    for reduction in reductions {
        empty.push(reduction.new_empty())?;
    }
    Ok(List::from_vec(empty))
}
