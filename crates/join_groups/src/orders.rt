//! Morsels of joined rows, grouped in any order.
ghost use Rattle.std.specs.Prelude.{◌≡◌, ◌↔◌, ◌+◌, ◌*◌, ◌<◌, ◌≤◌, ◌^◌, [], None, false, true, eqb, nat_lt, map, length, count_by, IsTrue, IfOk, OnOk};
ghost use Rattle.std.specs.List.{All, list_all, range_with_len};
ghost use Rattle.list_laws.specs.Orders.{IsWhole};
ghost use Rattle.join_laws.specs.Locals.{first_row};
ghost use Rattle.any_reduce.specs.Kinds.{any_shape, any_holds};
ghost use Rattle.join_model.specs.Answers.{group_schema, joined_schema};
ghost use Rattle.join_model.specs.Groups.{group_rows};
ghost use Rattle.join_model.specs.Joined.{rows_of};
ghost use Rattle.join_model.specs.Refusals.{is_good_plan, lacks_keys, unknown_column, unsupported_reduction};
ghost use Rattle.join_groups.specs.History.{HaveTaken, answer_locals, morsel_rows};

use crate::locals::new_locals;
use crate::merge::{Merged, merge_groups};
use crate::morsels::group_morsel;
use any_reduce::AnyReduction;
use col_core::{Frame, IdxSize};
use group_locals::LocalState;
use join_query::Query;
use std::alloc::{AllocError, Global};
use std::sync::ledger::Ledger;
use step_count::Steps;

/// How many times a number stands in an order.
fn times(order: &[u32], number: usize) -> usize
    ensures { result ≡ count_by (λ x. eqb x number) order.now }
{
    order.iter().filter(|x| **x as usize == number).count()
}

/// Whether each number of an order is below a count.
fn are_below(count: usize, order: &[u32]) -> bool
    ensures { result ≡ list_all (λ x. nat_lt x count) order.now }
{
    order.iter().all(|number| (*number as usize) < count)
}

/// Whether each number below a count stands in an order once.
fn stand_once(count: usize, order: &[u32]) -> bool
    ensures { result
        ≡ list_all (λ k. eqb (count_by (λ x. eqb x k) order.now) 1) (range_with_len 0 count) }
{
    (0..count).all(|number| times(order, number) == 1)
}

/// Whether each number below a count stands in an order once, and no other number does.
///
/// No memory is taken: each number is looked for in the whole order, so the time grows with the
/// count times the length of the order.
pub fn order_is_whole(count: usize, order: &[u32]) -> bool
    ensures { IsTrue result ↔ IsWhole count order.now }
{
    are_below(count, order) && stand_once(count, order)
}

/// The number of the first row of each morsel, among the rows of all morsels.
fn first_rows(alloc: Global, morsels: &[Frame]) -> Result<Vec<IdxSize>, AllocError>
    requires { length (rows_of morsels.now) < 2 ^ 32 }
    ensures { IfOk result (λ v. v.items
        ≡ map (first_row (morsel_rows morsels.now)) (range_with_len 0 (length morsels.now))) }
{
    let mut first_rows = Vec::with_capacity(alloc, morsels.len())?;
    let mut row = 0;
    for morsel in morsels {
        first_rows.push(row)?;
        row += morsel.height() as IdxSize;
    }
    Ok(first_rows)
}

/// The morsels enter local states that have taken nothing, in an order, each with its number and with
/// that of its first row. At most one step a row is taken.
fn group_each<L: Ledger>(
    alloc: Global,
    query: &Query,
    locals: &mut [LocalState<AnyReduction>],
    morsels: &[Frame],
    first_rows: &[IdxSize],
    order: &[u32],
    steps: &mut Steps<L>,
) -> Result<(), AllocError>
    requires known { unknown_column query.now ≡ None }
    requires joined { All (λ m. m.schema ≡ joined_schema query.now) morsels.now }
    requires some { 0 < length locals.old }
    requires new { HaveTaken any_shape any_holds query.now (morsel_rows morsels.now) [] locals.old }
    requires rows { length (rows_of morsels.now) < 2 ^ 32 }
    requires firsts { first_rows.now
        ≡ map (first_row (morsel_rows morsels.now)) (range_with_len 0 (length morsels.now)) }
    requires whole { IsWhole (length morsels.now) order.now }
    ensures taken { OnOk result (HaveTaken any_shape any_holds query.now (morsel_rows morsels.now)
        order.now locals.new) }
    ensures cost { steps.new ≤ steps.old + length (rows_of morsels.now) }
{
    for number in order {
        let i = *number as usize;
        group_morsel(
            alloc,
            query,
            locals,
            *number as u64,
            first_rows[i],
            &morsels[i],
            steps,
        )?;
    }
    Ok(())
}

/// The groups of the rows of all morsels, which reach the local states in an order: morsel `i` enters
/// the local state `i` modulo the number of local states, and its rows are numbered on from those of
/// the morsels of lower numbers.
///
/// The groups are the same whatever the order. The keys of each local state stand in the order in
/// which its morsels reached it. At most two steps a row are taken.
pub fn group_in_order<L: Ledger>(
    alloc: Global,
    query: &Query,
    morsels: &[Frame],
    order: &[u32],
    steps: &mut Steps<L>,
) -> Result<Merged, AllocError>
    requires keys { lacks_keys query.now ≡ false }
    requires known { unknown_column query.now ≡ None }
    requires supported { unsupported_reduction query.now ≡ None }
    requires plan { is_good_plan query.now.plan ≡ true }
    requires joined { All (λ m. m.schema ≡ joined_schema query.now) morsels.now }
    requires rows { length (rows_of morsels.now) < 2 ^ 32 }
    requires whole { IsWhole (length morsels.now) order.now }
    ensures groups { IfOk result
        (λ m. m.groups ≡ record {
          schema = group_schema query.now;
          rows = group_rows query.now (rows_of morsels.now);
        }) }
    ensures locals { IfOk result
        (λ m. m.locals ≡ answer_locals query.now (morsel_rows morsels.now) order.now) }
    ensures cost { steps.new ≤ steps.old + 2 * length (rows_of morsels.now) }
{
    let first_rows = first_rows(alloc, morsels)?;
    let mut locals = new_locals(alloc, query)?;
    group_each(
        alloc,
        query,
        &mut locals,
        morsels,
        &first_rows,
        order,
        steps,
    )?;
    merge_groups(alloc, query, locals, steps)
}
