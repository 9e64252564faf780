//! A local state: the groups of some morsels.
ghost use Rattle.std.specs.Prelude.{◌≡◌, ◌+◌, ◌-◌, ◌<◌, ◌≤◌, ◌^◌, [], map, length, IfOk, OnOk};
ghost use Rattle.hash_keys.specs.Views.{keys_of};
ghost use Rattle.key_groups.specs.Groups.{bytes_of, with_keys};

use crate::columns::{combine_columns, emptied, enter_columns};
use crate::first_rows::{merge_rows, note_rows};
use col_core::{IdxSize, List, Series};
use group_reduce::GroupedReduction;
use hash_keys::HashKeys;
use key_groups::{Grouper, RowEncodedHashGrouper};
use std::alloc::{AllocError, Global};
use std::sync::ledger::Ledger;
use step_count::Steps;

/// The groups of some morsels: their keys, for each group the least number of a row of it, and its
/// state for each reduction.
#[derive(Drop)]
pub struct LocalState<R> {
    /// The keys, which number the groups.
    pub grouper: RowEncodedHashGrouper,
    /// The reductions, with a state for each group.
    pub reductions: List<R>,
    /// The least number of a row of each group.
    pub first_rows: List<IdxSize>,
}

impl<R: GroupedReduction> LocalState<R> {
    ghost use Rattle.join_laws.specs.Locals.{entries_from};
    ghost use Rattle.group_locals.specs.Rows.{keyed_rows};
    ghost use Rattle.group_locals.specs.Locals.{Grouping, IsOf, LocalFits, RowsFit, LocalTakes};
    ghost use Rattle.group_locals.specs.Merging.{LocalMerges};
    ghost use Rattle.group_locals.specs.Columns.{AreEmptied};

    /// A local state without groups, whose keys and reductions are like those given.
    pub fn new_empty(
        alloc: Global,
        grouper: &RowEncodedHashGrouper,
        reductions: &List<R>,
    ) -> Result<Self, AllocError>
        ensures grouper { IfOk result (λ l. l.grouper ≡ record grouper.now { keys = [] }) }
        ensures first_rows { IfOk result (λ l. l.first_rows ≡ []) }
        ensures reductions { IfOk result (λ l.
            AreEmptied R.shape R.holds reductions.now l.reductions) }
    {
        let grouper = grouper.new_empty(alloc)?;
        let reductions = emptied(alloc, reductions.as_slice())?;
        Ok(LocalState {
            grouper,
            reductions,
            first_rows: List::new(alloc),
        })
    }

    /// Rows enter their groups: their keys, and a column for each reduction. `morsel_no` is the
    /// number of their morsel, `first_row` that of the first of them among all rows.
    pub fn take_rows<L: Ledger>(
        &mut self,
        alloc: Global,
        keys: HashKeys,
        values: &[&Series],
        morsel_no: u64,
        first_row: IdxSize,
        steps: &mut Steps<L>,
    ) -> Result<(), AllocError>
        requires fits { (of : Grouping) × LocalFits R.shape of self.old
            × RowsFit of keys (map (λ v. v.now) values.now) }
        requires number { morsel_no < 2 ^ 64 - 1 }
        requires rows { first_row + length (keys_of keys) < 2 ^ 32 }
        requires few { length (with_keys self.old.grouper.keys (bytes_of (keys_of keys)))
            < 2 ^ 32 }
        ensures ok { OnOk result (LocalTakes R.shape R.holds (entries_from morsel_no first_row
            (keyed_rows (bytes_of (keys_of keys)) (map (λ v. v.now.values) values.now)))
            self.old self.new) }
        ensures cost { steps.new ≤ steps.old + length (keys_of keys) }
    {
        let mut group_idxs = Vec::new(alloc);
        self.grouper.insert_keys(keys, &mut group_idxs, steps)?;
        let groups = self.grouper.num_groups();
        note_rows(&mut self.first_rows, groups, &group_idxs, first_row)?;
        enter_columns(&mut self.reductions, groups, values, &group_idxs, morsel_no)
    }

    /// The groups of another local state enter the groups of this one.
    pub fn absorb<L: Ledger>(
        &mut self,
        alloc: Global,
        other: &LocalState<R>,
        steps: &mut Steps<L>,
    ) -> Result<(), AllocError>
        requires fits { (of : Grouping) × IsOf R.shape of self.old × LocalFits R.shape of other.now }
        requires long { length self.old.first_rows ≡ length self.old.grouper.keys }
        requires few { length (with_keys self.old.grouper.keys other.now.grouper.keys) < 2 ^ 32 }
        ensures ok { OnOk result (LocalMerges R.shape R.holds self.old other.now self.new) }
        ensures cost { steps.new ≤ steps.old + length other.now.grouper.keys }
    {
        let mut group_idxs = Vec::new(alloc);
        self.grouper
            .combine(&other.grouper, &mut group_idxs, steps)?;
        let groups = self.grouper.num_groups();
        merge_rows(
            &mut self.first_rows,
            groups,
            &group_idxs,
            other.first_rows.as_slice(),
        )?;
        combine_columns(
            &mut self.reductions,
            groups,
            other.reductions.as_slice(),
            &group_idxs,
        )
    }
}
