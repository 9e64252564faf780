//! Local states merged into one table of groups.
ghost use Rattle.std.specs.Prelude.{◌≡◌, ◌+◌, ◌<◌, ◌≤◌, false, map, length, IfOk};
ghost use Rattle.any_reduce.specs.Kinds.{any_shape, any_holds};
ghost use Rattle.group_locals.specs.Locals.{LocalsFit};
ghost use Rattle.group_locals.specs.Merging.{keys_in};
ghost use Rattle.join_model.specs.Refusals.{lacks_keys};
ghost use Rattle.join_groups.specs.Keyed.{grouping_of_query};
ghost use Rattle.join_groups.specs.Merged.{AreMergedRows};

use crate::table::group_rows;
use any_reduce::AnyReduction;
use col_core::{Frame, List};
use group_locals::LocalState;
use join_query::Query;
use key_groups::RowEncodedHashGrouper;
use std::alloc::{AllocError, Global};
use std::sync::ledger::Ledger;
use step_count::Steps;

/// The groups of all local states, and the groupers of the local states, as they were.
#[derive(Drop)]
pub struct Merged {
    /// One row a group: its key, and then what each reduction gives.
    pub groups: Frame,
    /// The groupers, in the order of the local states.
    pub locals: List<RowEncodedHashGrouper>,
}

/// The groups of all local states as a table: each key once, by its least first row, and beside it
/// for each reduction what the merge of the key's states gives, in the order of the local states. At
/// most one step a group of each local state is taken.
pub fn merge_groups<L: Ledger>(
    alloc: Global,
    query: &Query,
    locals: Vec<LocalState<AnyReduction>>,
    steps: &mut Steps<L>,
) -> Result<Merged, AllocError>
    requires keys { lacks_keys query.now ≡ false }
    requires some { 0 < length locals.items }
    requires fit { LocalsFit any_shape (grouping_of_query query.now) locals.items }
    ensures groups { IfOk result
        (λ m. AreMergedRows any_holds query.now locals.items m.groups) }
    ensures groupers { IfOk result (λ m. m.locals ≡ map (λ l. l.grouper) locals.items) }
    ensures cost { steps.new ≤ steps.old + length (keys_in locals.items) }
{
    let group_locals::Merged { groups, locals } = group_locals::merge_groups(alloc, locals, steps)?;
    let groups = group_rows(alloc, query, groups)?;
    Ok(Merged { groups, locals })
}
