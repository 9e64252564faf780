//! Morsels of joined rows, each grouped in the local state that its number gives.
ghost use Rattle.std.specs.Prelude.{◌≡◌, ◌+◌, ◌<◌, ◌≤◌, ◌^◌, ◌%◌, None, map, flat_map, length, OnOk};
ghost use Rattle.std.specs.List.{All};
ghost use Rattle.list_laws.specs.Places.{ChangedAt};
ghost use Rattle.join_laws.specs.Locals.{entries_from};
ghost use Rattle.any_reduce.specs.Kinds.{any_shape, any_holds};
ghost use Rattle.group_locals.specs.Locals.{LocalsFit, LocalTakes, AreFresh, kept};
ghost use Rattle.join_model.specs.Answers.{joined_schema};
ghost use Rattle.join_model.specs.Refusals.{unknown_column};
ghost use Rattle.join_groups.specs.Keyed.{HasGroup, grouping_of_query, keyed_row};

use crate::columns::reduction_columns;
use crate::keys::group_keys;
use any_reduce::AnyReduction;
use col_core::{Frame, IdxSize};
use group_locals::LocalState;
use join_query::Query;
use std::alloc::{AllocError, Global};
use std::sync::ledger::Ledger;
use step_count::Steps;

/// The joined rows of a morsel enter the local state `morsel_no` modulo the number of local states;
/// the first of them has the number `first_row` among all rows. Morsels may come in any order, as
/// long as no two rows have one number. At most one step a row is taken. For want of memory only
/// that local state has changed.
pub fn group_morsel<L: Ledger>(
    alloc: Global,
    query: &Query,
    locals: &mut [LocalState<AnyReduction>],
    morsel_no: u64,
    first_row: IdxSize,
    rows: &Frame,
    steps: &mut Steps<L>,
) -> Result<(), AllocError>
    requires known { unknown_column query.now ≡ None }
    requires joined { rows.now.schema ≡ joined_schema query.now }
    requires some { 0 < length locals.old }
    requires fit { LocalsFit any_shape (grouping_of_query query.now) locals.old }
    requires number { morsel_no < 2 ^ 33 }
    requires rows { first_row + length rows.now.rows < 2 ^ 32 }
    requires fresh { AreFresh first_row (length rows.now.rows) (flat_map kept locals.old) }
    ensures changed { ChangedAt (λ l m. OnOk result (LocalTakes any_shape any_holds
        (entries_from morsel_no first_row (map (keyed_row query.now) rows.now.rows)) l m))
        (morsel_no % length locals.old) locals.old locals.new }
    ensures fit { OnOk result (LocalsFit any_shape (grouping_of_query query.now) locals.new) }
    ensures spelled { OnOk result (All (HasGroup query.now) rows.now.rows) }
    ensures cost { steps.new ≤ steps.old + length rows.now.rows }
{
    let columns = reduction_columns(alloc, query, rows)?;
    let keys = group_keys(alloc, query, rows)?;
    group_locals::group_morsel(alloc, locals, keys, &columns, morsel_no, first_row, steps)
}
