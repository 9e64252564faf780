//! Groups in the order of their first rows.
ghost use Rattle.std.specs.Prelude.{◌≡◌, ◌<◌, ◌≤◌, ◌^◌, ℕ, List as Items, [], map, length, slice_index_or, IfOk, OnOk};
ghost use Rattle.std.specs.List.{All, range_with_len};
ghost use Rattle.list_laws.specs.Each.{Each};
ghost use Rattle.list_laws.specs.Places.{PairsFrom};
ghost use Rattle.group_locals.specs.Locals.{sized};
ghost use Rattle.group_locals.specs.Orders.{IsOrder, FinishedColumn, AreOrderedGroups};

use crate::groups::Groups;
use crate::local::LocalState;
use col_core::{IdxSize, List, Series};
use group_reduce::GroupedReduction;
use key_groups::{Grouper, RowEncodedHashGrouper};
use std::alloc::{AllocError, Global};

/// The first row of a group, or 0 where there is no such group.
fn first_row_of(first_rows: &[IdxSize], group: IdxSize) -> IdxSize
    ensures { result ≡ slice_index_or first_rows.now group 0 }
{
    match first_rows.get(group as usize) {
        Some(first_row) => *first_row,
        None => 0,
    }
}

/// The numbers of so many groups.
fn group_numbers(alloc: Global, count: usize) -> Result<Vec<IdxSize>, AllocError>
    requires { count < 2 ^ 32 }
    ensures { IfOk result (λ v. v.items ≡ range_with_len 0 count) }
{
    let mut numbers = Vec::with_capacity(alloc, count)?;
    for group in 0..count as IdxSize {
        numbers.push(group)?;
    }
    Ok(numbers)
}

/// The groups in the order of their first rows.
fn order_by_first(alloc: Global, first_rows: &[IdxSize]) -> Result<Vec<IdxSize>, AllocError>
    requires { length first_rows.now < 2 ^ 32 }
    ensures { IfOk result (λ v. IsOrder first_rows.now v.items) }
{
    let mut order = group_numbers(alloc, first_rows.len())?;
    order.sort_unstable_by_key(|group| first_row_of(first_rows, *group));
    Ok(order)
}

/// What a reduction gives for its groups, in an order.
fn finish_column<R: GroupedReduction>(
    alloc: Global,
    reduction: &mut R,
    order: &[IdxSize],
) -> Result<Series, AllocError>
    requires { All (λ g. g < (R.shape reduction.old).groups) order.now }
    ensures { IfOk result (FinishedColumn R.shape R.holds order.now reduction.old) }
{
    reduction.finalize(alloc)?.take(alloc, order)
}

/// What reductions give for their groups, in an order.
fn finish_columns<R: GroupedReduction>(
    alloc: Global,
    reductions: &mut List<R>,
    order: &[IdxSize],
) -> Result<List<Series>, AllocError>
    requires { Each (λ a. All (λ g. g < (R.shape a).groups) order.now) reductions.old }
    ensures { IfOk result (λ v.
        PairsFrom (λ r a c. FinishedColumn R.shape R.holds order.now a c) 0 reductions.old v) }
{
    let mut columns = Vec::with_capacity(alloc, reductions.len())?;
    for r in 0..reductions.len() {
        columns.push(finish_column(alloc, reductions.item_mut(r), order)?)?;
    }
    Ok(List::from_vec(columns))
}

/// The groups of a local state, in the order of their first rows.
pub(crate) fn ordered_groups<R: GroupedReduction>(
    alloc: Global,
    whole: LocalState<R>,
) -> Result<Groups, AllocError>
    requires few { length whole.grouper.keys < 2 ^ 32 }
    requires long { length whole.first_rows ≡ length whole.grouper.keys }
    requires groups { Each (λ a. (R.shape a).groups ≡ length whole.grouper.keys) whole.reductions }
    ensures { IfOk result (AreOrderedGroups R.shape R.holds whole) }
{
    let LocalState {
        grouper,
        mut reductions,
        first_rows,
    } = whole;
    let order = order_by_first(alloc, first_rows.as_slice())?;
    let columns = finish_columns(alloc, &mut reductions, &order)?;
    Ok(Groups {
        grouper,
        order: List::from_vec(order),
        columns,
    })
}

/// The groupers of local states.
pub(crate) fn groupers_of<R: GroupedReduction>(
    alloc: Global,
    locals: Vec<LocalState<R>>,
) -> Result<List<RowEncodedHashGrouper>, AllocError>
    ensures { IfOk result (λ v. v ≡ map (λ l. l.grouper) locals.items) }
{
    let mut groupers = Vec::with_capacity(alloc, locals.len())?;
    for local in locals {
        let LocalState {
            grouper,
            reductions: _,
            first_rows: _,
        } = local;
        groupers.push(grouper)?;
    }
    Ok(List::from_vec(groupers))
}
