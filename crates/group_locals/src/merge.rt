//! Local states merged.
ghost use Rattle.std.specs.Prelude.{◌≡◌, ◌+◌, ◌<◌, ◌≤◌, map, length, IfOk};
ghost use Rattle.group_locals.specs.Locals.{Grouping, LocalsFit};
ghost use Rattle.group_locals.specs.Merging.{MergesAll, keys_in};
ghost use Rattle.group_locals.specs.Orders.{AreMergedGroups};

use crate::groups::Merged;
use crate::local::LocalState;
use crate::order::{groupers_of, ordered_groups};
use group_reduce::GroupedReduction;
use std::alloc::{AllocError, Global};
use std::sync::ledger::Ledger;
use step_count::Steps;

/// All local states, in their order, merged into a new one.
fn merge_locals<R: GroupedReduction, L: Ledger>(
    alloc: Global,
    locals: &[LocalState<R>],
    steps: &mut Steps<L>,
) -> Result<LocalState<R>, AllocError>
    requires some { 0 < length locals.now }
    requires fit { (of : Grouping) × LocalsFit R.shape of locals.now }
    ensures ok { IfOk result (λ whole. (of : Grouping) → LocalsFit R.shape of locals.now
        → MergesAll R.shape R.holds of locals.now whole) }
    ensures cost { steps.new ≤ steps.old + length (keys_in locals.now) }
{
    let first = &locals[0];
    let mut whole = LocalState::new_empty(alloc, &first.grouper, &first.reductions)?;
    for local in locals {
        whole.absorb(alloc, local, steps)?;
    }
    Ok(whole)
}

/// The groups of all local states, each key once, by its least first row: each reduction gives what
/// the merge of the key's states does, in the order of the local states. At most one step a group of
/// each local state is taken.
pub fn merge_groups<R: GroupedReduction, L: Ledger>(
    alloc: Global,
    locals: Vec<LocalState<R>>,
    steps: &mut Steps<L>,
) -> Result<Merged, AllocError>
    requires some { 0 < length locals.items }
    requires fit { (of : Grouping) × LocalsFit R.shape of locals.items }
    ensures groups { IfOk result (λ m. (of : Grouping) → LocalsFit R.shape of locals.items
        → AreMergedGroups R.holds of locals.items m.groups) }
    ensures groupers { IfOk result (λ m. m.locals ≡ map (λ l. l.grouper) locals.items) }
    ensures cost { steps.new ≤ steps.old + length (keys_in locals.items) }
{
    let whole = merge_locals(alloc, &locals, steps)?;
    let groups = ordered_groups(alloc, whole)?;
    let locals = groupers_of(alloc, locals)?;
    Ok(Merged { groups, locals })
}
