//! The join as a whole.
ghost use Rattle.std.specs.Prelude.{◌≡◌, ◌+◌, ◌*◌, ◌<◌, ◌≤◌, ◌⊎◌, List as Items, length, IfOk, IfErr, IsOk, OnOk, true, false};
ghost use Rattle.std.specs.List.{range_with_len};
ghost use Rattle.col_core.specs.Tables.{Row};
ghost use Rattle.join_laws.specs.Locals.{rows_of_morsels};
ghost use Rattle.join_laws.specs.Partitions.{unmarked};
ghost use Rattle.join_model.specs.Answers.{answer_rows, answer_groups, group_schema, joined_schema};
ghost use Rattle.join_model.specs.Filtered.{kept_rows};
ghost use Rattle.join_model.specs.Groups.{group_rows};
ghost use Rattle.join_model.specs.Joined.{joined_rows, rows_of};
ghost use Rattle.join_model.specs.Refusals.{checked_refusal, refusal_of, is_good_plan, lists_too_many};
ghost use Rattle.join_probes.specs.AnswerTables.{answer_tables};
ghost use Rattle.join_probes.specs.Probed.{IsBuilt};
ghost use Rattle.join_groups.specs.History.{answer_locals};
ghost use Rattle.join_engine.specs.AnswerLocals.{answer_groupers, joined_morsels};
ghost use Rattle.join_engine.specs.Listed.{kept_of_each, CanAnswer, CanGroup, IsListing, ListingFails};

use crate::listing::{Listing, no_rows};
use crate::outer::take_unmatched;
use crate::probe::take_probe;
use chunked_idx_table::RowEncodedChunkedIdxTable;
use col_core::{Frame, List};
use join_groups::merge_groups;
use join_model::{Query, QueryError};
use join_pairs::{Built, build_tables};
use key_groups::RowEncodedHashGrouper;
use query_check::check_query;
use std::alloc::{AllocError, Global};
use std::sync::ledger::Ledger;
use step_count::Steps;

/// The two tables of an answer, the tables that the build side was looked up in, and the groupers of the local states.
#[derive(Drop)]
pub struct Answer {
    /// The joined rows that pass the filter.
    pub rows: Frame,
    /// One row for each group of these.
    pub groups: Frame,
    /// The keys of the build side, one table a partition of the plan. A key is marked where some probe row joins it.
    pub tables: List<RowEncodedChunkedIdxTable>,
    /// The group keys of each local state of the plan, by first appearance.
    pub locals: List<RowEncodedHashGrouper>,
}

/// The answer of listed rows: those that were kept, and the groups of all local states.
fn grouped_answer<L: Ledger>(
    alloc: Global,
    query: &Query,
    listing: Listing,
    tables: List<RowEncodedChunkedIdxTable>,
    steps: &mut Steps<L>,
) -> Result<Answer, AllocError>
    requires can { CanGroup query.now }
    requires plan { is_good_plan query.now.plan ≡ true }
    requires listed { (ms : Items (Items Row)) × IsListing query.now ms listing }
    ensures rows { IfOk result (λ a. (ms : Items (Items Row)) → IsListing query.now ms listing
        → a.rows ≡ record {
          schema = joined_schema query.now;
          rows = rows_of_morsels (kept_of_each query.now ms);
        }) }
    ensures groups { IfOk result (λ a. (ms : Items (Items Row)) → IsListing query.now ms listing
        → a.groups ≡ record {
          schema = group_schema query.now;
          rows = group_rows query.now (rows_of_morsels (kept_of_each query.now ms));
        }) }
    ensures locals { IfOk result (λ a. (ms : Items (Items Row)) → IsListing query.now ms listing
        → a.locals ≡ answer_locals query.now (kept_of_each query.now ms)
        (range_with_len 0 (length ms))) }
    ensures tables { IfOk result (λ a. a.tables ≡ tables) }
    ensures cost { OnOk result (steps.new ≤ steps.old + length listing.kept.rows) }
{
    let rows = listing.kept.finish(alloc)?;
    let merged = merge_groups(alloc, query, listing.locals, steps)?;
    Ok(Answer {
        rows,
        groups: merged.groups,
        tables,
        locals: merged.locals,
    })
}

/// The joined rows of both sides, listed: those of the probe side morsel by morsel, and then the unmatched build rows.
fn listed_rows<L: Ledger>(
    alloc: Global,
    query: &Query,
    build: &[Frame],
    built: &mut Built,
    probe: &[Frame],
    steps: &mut Steps<L>,
) -> Result<Listing, QueryError>
    requires can { CanAnswer query.now build.now probe.now }
    requires built { IsBuilt query.now build.now unmarked built.old }
    ensures listed { IfOk result
        (IsListing query.now (joined_morsels query.now build.now probe.now)) }
    ensures fails { IfErr result (ListingFails query.now
        (joined_rows query.now (rows_of build.now) (rows_of probe.now))) }
    ensures tables { OnOk result
        (built.new.tables ≡ answer_tables query.now build.now probe.now) }
    ensures cost { IfOk result (λ listing.
        steps.new ≤ steps.old + length (rows_of probe.now) + length listing.kept.rows) }
{
    let listing = no_rows(alloc, query)?;
    let listing = take_probe(alloc, query, build, built, probe, listing, steps)?;
    take_unmatched(alloc, query, build, built, listing, steps)
}

/// The answer to a query that is not refused, but where its joined list is longer than the plan allows.
fn joined_answer<L: Ledger>(
    alloc: Global,
    query: &Query,
    build: &[Frame],
    probe: &[Frame],
    steps: &mut Steps<L>,
) -> Result<Answer, QueryError>
    requires can { CanAnswer query.now build.now probe.now }
    ensures rows { IfOk result (λ a. a.rows ≡ answer_rows query.now build.now probe.now) }
    ensures groups { IfOk result (λ a. a.groups ≡ answer_groups query.now build.now probe.now) }
    ensures tables { IfOk result (λ a. a.tables ≡ answer_tables query.now build.now probe.now) }
    ensures locals { IfOk result (λ a. a.locals ≡ answer_groupers query.now build.now probe.now) }
    ensures few { IfOk result (λ _. lists_too_many query.now build.now probe.now ≡ false) }
    ensures refused { IfErr result
        (λ e. (e ≡ QueryError.Memory)
        ⊎ ((e ≡ QueryError.TooLarge) × (lists_too_many query.now build.now probe.now ≡ true))) }
    ensures steps { OnOk result (steps.new
        ≤ steps.old + length (rows_of build.now) + length (rows_of probe.now)
        + 2 * length (kept_rows query.now (rows_of build.now) (rows_of probe.now))) }
{
    let mut built = build_tables(alloc, query, build, steps)?;
    let listing = listed_rows(alloc, query, build, &mut built, probe, steps)?;
    Ok(grouped_answer(alloc, query, listing, built.tables, steps)?)
}

/// Joins, filters, groups and reduces the rows of whole frames: Ok holds exactly the two answer tables, the tables of the
/// build side, and the groupers of the local states.
///
/// What `check_query` refuses is refused by the same cause. A joined list that is longer than the plan allows is found as its
/// pairs are counted, before their rows are gathered, so memory may end first; a query without a refusal is answered, unless
/// memory ends.
///
/// A step is a search in a map of keys: at most one a build row, one a probe row and two a kept row.
#[tactic(auto, using(crate::proofs::Parts::checked))]
pub fn stream_join_aggregate<L: Ledger>(
    alloc: Global,
    query: &Query,
    build: &[Frame],
    probe: &[Frame],
    steps: &mut Steps<L>,
) -> Result<Answer, QueryError>
    ensures rows { IfOk result (λ a. a.rows ≡ answer_rows query.now build.now probe.now) }
    ensures groups { IfOk result (λ a. a.groups ≡ answer_groups query.now build.now probe.now) }
    ensures accepted { IfOk result (λ _. refusal_of query.now build.now probe.now ≡ None) }
    ensures refused { IfErr result
        (λ e. (e ≡ QueryError.Memory) ⊎ (refusal_of query.now build.now probe.now ≡ Some e)) }
    ensures memory { result ≡ Err QueryError.Memory
        → checked_refusal query.now build.now probe.now ≡ None }
    ensures complete { refusal_of query.now build.now probe.now ≡ None → IsOk result
        ⊎ (result ≡ Err QueryError.Memory) }
    ensures tables { IfOk result (λ a. a.tables ≡ answer_tables query.now build.now probe.now) }
    ensures locals { IfOk result (λ a. a.locals ≡ answer_groupers query.now build.now probe.now) }
    ensures steps { OnOk result (steps.new
        ≤ steps.old + length (rows_of build.now) + length (rows_of probe.now)
        + 2 * length (kept_rows query.now (rows_of build.now) (rows_of probe.now))) }
{
    check_query(query, build, probe)?;
    joined_answer(alloc, query, build, probe, steps)
}
