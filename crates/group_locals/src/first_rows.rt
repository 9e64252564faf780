//! The first rows of the groups of a local state.
ghost use Rattle.std.specs.Prelude.{◌≡◌, ◌+◌, ◌<◌, ◌≤◌, ◌^◌, min, length, slice_set, slice_index_or, OnOk};
ghost use Rattle.std.specs.List.{All, range_with_len};
ghost use Rattle.reduce_states.specs.Moves.{entered, cut_or_filled};
ghost use Rattle.group_locals.specs.Rows.{top};

use col_core::{IdxSize, List};
use std::alloc::AllocError;

/// A first row for each group: none yet where a group is new.
fn fill_rows(first_rows: &mut List<IdxSize>, groups: IdxSize) -> Result<(), AllocError>
    requires { length first_rows.old ≤ groups }
    ensures { OnOk result (first_rows.new ≡ cut_or_filled top first_rows.old groups) }
{
    for _group in first_rows.len()..groups as usize {
        if first_rows.push(IdxSize::MAX).is_err() {
            return Err(AllocError);
        }
    }
    Ok(())
}

/// A row's number enters the first row of its group.
fn note_row(first_rows: &mut List<IdxSize>, group: IdxSize, row: IdxSize)
    requires { group < length first_rows.old }
    ensures { first_rows.new
        ≡ slice_set first_rows.old group (min (slice_index_or first_rows.old group top) row) }
{
    let first = first_rows.item_mut(group as usize);
    *first = (*first).min(row);
}

/// Row numbers, counted from `first_row`, enter the first rows of their groups.
pub(crate) fn note_rows(
    first_rows: &mut List<IdxSize>,
    groups: IdxSize,
    group_idxs: &[IdxSize],
    first_row: IdxSize,
) -> Result<(), AllocError>
    requires more { length first_rows.old ≤ groups }
    requires places { All (λ g. g < groups) group_idxs.now }
    requires rows { first_row + length group_idxs.now < 2 ^ 32 }
    ensures { OnOk result (first_rows.new ≡ entered top min (cut_or_filled top first_rows.old groups)
        group_idxs.now (range_with_len first_row (length group_idxs.now))) }
{
    fill_rows(first_rows, groups)?;
    let mut row = first_row;
    for group in group_idxs {
        note_row(first_rows, *group, row);
        row += 1;
    }
    Ok(())
}

/// The first rows of other groups enter the first rows of their groups.
pub(crate) fn merge_rows(
    first_rows: &mut List<IdxSize>,
    groups: IdxSize,
    group_idxs: &[IdxSize],
    others: &[IdxSize],
) -> Result<(), AllocError>
    requires more { length first_rows.old ≤ groups }
    requires places { All (λ g. g < groups) group_idxs.now }
    requires lengths { length others.now ≡ length group_idxs.now }
    ensures { OnOk result (first_rows.new ≡ entered top min (cut_or_filled top first_rows.old groups)
        group_idxs.now others.now) }
{
    fill_rows(first_rows, groups)?;
    for (i, group) in group_idxs.iter().enumerate() {
        note_row(first_rows, *group, others[i]);
    }
    Ok(())
}
