//! Morsels of rows, each grouped in the local state that its number gives.
ghost use Rattle.std.specs.Prelude.{◌≡◌, ◌+◌, ◌<◌, ◌≤◌, ◌^◌, ◌%◌, [], map, flat_map, length, IfOk, OnOk};
ghost use Rattle.hash_keys.specs.Views.{keys_of};
ghost use Rattle.key_groups.specs.Groups.{bytes_of};
ghost use Rattle.list_laws.specs.Each.{Each};
ghost use Rattle.list_laws.specs.Places.{ChangedAt};
ghost use Rattle.join_laws.specs.Locals.{entries_from};
ghost use Rattle.group_locals.specs.Rows.{keyed_rows};
ghost use Rattle.group_locals.specs.Locals.{Grouping, LocalsFit, RowsFit, LocalTakes, AreFresh, kept, grouping_of};
ghost use Rattle.group_locals.specs.History.{LocalHolds};

use crate::local::LocalState;
use col_core::{IdxSize, List, Series};
use group_reduce::GroupedReduction;
use hash_keys::HashKeys;
use key_groups::RowEncodedHashGrouper;
use std::alloc::{AllocError, Global};
use std::sync::ledger::Ledger;
use step_count::Steps;

/// So many local states without groups, whose keys and reductions are like those given.
pub fn new_locals<R: GroupedReduction>(
    alloc: Global,
    grouper: &RowEncodedHashGrouper,
    reductions: &List<R>,
    count: usize,
) -> Result<Vec<LocalState<R>>, AllocError>
    ensures count { IfOk result (λ v. length v.items ≡ count) }
    ensures fit { IfOk result (λ v.
        LocalsFit R.shape (grouping_of grouper.now (map R.shape reductions.now)) v.items) }
    ensures new { IfOk result (λ v. Each (LocalHolds R.holds
        (grouping_of grouper.now (map R.shape reductions.now)) []) v.items) }
{
    let mut locals = Vec::with_capacity(alloc, count)?;
    for _state in 0..count {
        locals.push(LocalState::new_empty(alloc, grouper, reductions)?)?;
    }
    Ok(locals)
}

/// The rows of a morsel enter the local state `morsel_no` modulo the number of local states; the
/// first of them has the number `first_row` among all rows. At most one step a row is taken. For
/// want of memory only that local state has changed.
pub fn group_morsel<R: GroupedReduction, L: Ledger>(
    alloc: Global,
    locals: &mut [LocalState<R>],
    keys: HashKeys,
    values: &[&Series],
    morsel_no: u64,
    first_row: IdxSize,
    steps: &mut Steps<L>,
) -> Result<(), AllocError>
    requires some { 0 < length locals.old }
    requires fit { (of : Grouping) × LocalsFit R.shape of locals.old
        × RowsFit of keys (map (λ v. v.now) values.now) }
    requires number { morsel_no < 2 ^ 33 }
    requires rows { first_row + length (keys_of keys) < 2 ^ 32 }
    requires fresh { AreFresh first_row (length (keys_of keys)) (flat_map kept locals.old) }
    ensures changed { ChangedAt (λ l m. OnOk result (LocalTakes R.shape R.holds
        (entries_from morsel_no first_row (keyed_rows (bytes_of (keys_of keys))
        (map (λ v. v.now.values) values.now))) l m))
        (morsel_no % length locals.old) locals.old locals.new }
    ensures fit { OnOk result ((of : Grouping) → LocalsFit R.shape of locals.old
        → LocalsFit R.shape of locals.new) }
    ensures cost { steps.new ≤ steps.old + length (keys_of keys) }
{
    let place = (morsel_no % locals.len() as u64) as usize;
    locals[place].take_rows(alloc, keys, values, morsel_no, first_row, steps)
}
