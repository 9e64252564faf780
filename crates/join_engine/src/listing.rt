//! The rows that are listed: joined, filtered, kept and grouped.
ghost use Rattle.std.specs.Prelude.{◌≡◌, ◌+◌, ◌<◌, ◌≤◌, ◌^◌, [], ◌∷◌, ◌++◌, false, List as Items, map, filter, length, IfOk, OnOk};
ghost use Rattle.std.specs.List.{All};
ghost use Rattle.col_core.specs.Tables.{Row};
ghost use Rattle.join_query.specs.declared.limits.TheConstants.{MAX_ROWS};
ghost use Rattle.join_model.specs.Answers.{joined_schema};
ghost use Rattle.join_model.specs.Filtered.{passes};
ghost use Rattle.join_model.specs.Refusals.{filter_is_unsupported, has_mixed_filter};
ghost use Rattle.join_probes.specs.Probed.{pair_row, IsPair};
ghost use Rattle.join_engine.specs.Listed.{CanGroup, CanList, CostsRows, IsListing};

use any_reduce::AnyReduction;
use col_core::{Frame, IdxSize};
use join_groups::{LocalState, group_morsel, new_locals};
use join_model::Query;
use join_pairs::{Pair, filter_rows, join_rows};
use pair_rows::{FrameBuilder, joined_schema};
use std::alloc::{AllocError, Global};
use std::sync::ledger::Ledger;
use step_count::Steps;

/// The joined rows that are listed so far.
#[derive(Drop)]
pub(crate) struct Listing {
    /// Their number, before the filter.
    pub listed: u64,
    /// Those that pass the filter.
    pub kept: FrameBuilder,
    /// The number of morsels that they came in.
    pub morsels: u64,
    /// The groups of the kept rows, in the local state of their morsel.
    pub locals: Vec<LocalState<AnyReduction>>,
}

/// No rows yet.
pub(crate) fn no_rows(alloc: Global, query: &Query) -> Result<Listing, AllocError>
    requires can { CanGroup query.now }
    ensures { IfOk result (λ listing. IsListing query.now [] listing) }
{
    let kept = FrameBuilder::new(alloc, joined_schema(alloc, query)?)?;
    Ok(Listing {
        listed: 0,
        kept,
        morsels: 0,
        locals: new_locals(alloc, query)?,
    })
}

/// The joined rows that pass the filter. Where there is none, the rows are handed back as they are.
#[tactic(auto, using(crate::proofs::Listed::all_kept))]
fn passing(alloc: Global, query: &Query, rows: Frame) -> Result<Frame, AllocError>
    requires joined { rows.schema ≡ joined_schema query.now }
    requires integers { filter_is_unsupported query.now ≡ false }
    requires one_type { has_mixed_filter query.now ≡ false }
    requires few { length rows.rows ≤ MAX_ROWS }
    ensures schema { IfOk result (λ f. f.schema ≡ joined_schema query.now) }
    ensures rows { IfOk result (λ f. f.rows ≡ filter (passes query.now) rows.rows) }
{
    match &query.filter {
        Some(_) => filter_rows(alloc, query, &rows),
        None => Ok(rows),
    }
}

/// Lists the rows of the pairs of a morsel, and groups those that are kept.
pub(crate) fn take_pairs<L: Ledger>(
    alloc: Global,
    query: &Query,
    morsel: &Frame,
    build: &[Frame],
    pairs: &[Pair],
    listing: Listing,
    steps: &mut Steps<L>,
) -> Result<Listing, AllocError>
    requires can { CanList query.now build.now }
    requires same { morsel.now.schema ≡ query.now.probe_schema }
    requires pairs { All (IsPair morsel.now build.now) pairs.now }
    requires listed { (ms : Items (Items Row)) × IsListing query.now ms listing }
    requires few { listing.listed + length pairs.now ≤ query.now.plan.rows }
    requires number { listing.morsels < 2 ^ 33 }
    ensures listed { IfOk result (λ after. (ms : Items (Items Row)) → IsListing query.now ms listing
        → IsListing query.now
        (ms ++ map (pair_row query.now morsel.now build.now) pairs.now ∷ []) after) }
    ensures morsels { IfOk result (λ after. after.morsels ≡ listing.morsels + 1) }
    ensures cost { IfOk result (CostsRows 0 listing steps.old steps.new) }
{
    let joined = join_rows(alloc, query, morsel, build, pairs)?;
    let passing = passing(alloc, query, joined)?;
    let Listing {
        listed,
        kept,
        morsels,
        mut locals,
    } = listing;
    let first_row = kept.height() as IdxSize;
    group_morsel(
        alloc,
        query,
        &mut locals,
        morsels,
        first_row,
        &passing,
        steps,
    )?;
    Ok(Listing {
        listed: listed + pairs.len() as u64,
        kept: kept.append(&passing)?,
        morsels: morsels + 1,
        locals,
    })
}
