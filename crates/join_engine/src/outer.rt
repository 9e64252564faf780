//! The build rows that no probe row joins.
ghost use Rattle.std.specs.Prelude.{◌≡◌, ◌+◌, ◌<◌, ◌≤◌, ◌^◌, ◌++◌, false, None, Some, List as Items, map, length, IfOk, IfErr};
ghost use Rattle.std.specs.List.{All};
ghost use Rattle.col_core.specs.Places.{IsPlace};
ghost use Rattle.col_core.specs.Tables.{Row};
ghost use Rattle.list_laws.specs.Runs.{runs};
ghost use Rattle.join_laws.specs.Locals.{rows_of_morsels};
ghost use Rattle.join_model.specs.Joined.{rows_of, joined_rows};
ghost use Rattle.join_model.specs.Refusals.{is_too_large};
ghost use Rattle.join_engine.specs.Listed.{outer_pair, outer_row, outer_rows, rows_of_each, CanList, CostsRows, HasListed, IsListing, ListingFails};

use crate::listing::{Listing, take_pairs};
use col_core::{Frame, RowPlace};
use join_model::{Query, QueryError};
use join_pairs::{Built, Pair, unmatched_rows};
use pair_rows::FrameBuilder;
use std::alloc::{AllocError, Global};
use std::sync::ledger::Ledger;
use step_count::Steps;

/// Build rows as pairs without a probe row.
fn outer_pairs(alloc: Global, places: &[RowPlace]) -> Result<Vec<Pair>, AllocError>
    ensures { IfOk result (λ pairs. pairs.items ≡ map outer_pair places.now) }
{
    places
        .iter()
        .map(|place| Pair {
            probe: None,
            build: Some(*place),
        })
        .collect(alloc)
}

/// Lists build rows beside nulls, as many at a time as a morsel has.
fn take_outer<L: Ledger>(
    alloc: Global,
    query: &Query,
    build: &[Frame],
    places: &[RowPlace],
    listing: Listing,
    steps: &mut Steps<L>,
) -> Result<Listing, AllocError>
    requires can { CanList query.now build.now }
    requires places { All (IsPlace build.now) places.now }
    requires listed { (ms : Items (Items Row)) × IsListing query.now ms listing }
    requires few { listing.listed + length places.now ≤ query.now.plan.rows }
    requires number { listing.morsels + length places.now < 2 ^ 33 }
    ensures listed { IfOk result (λ after. (ms : Items (Items Row)) → IsListing query.now ms listing
        → IsListing query.now (ms ++ runs query.now.plan.morsel
        (map (outer_row query.now build.now) places.now)) after) }
    ensures cost { IfOk result (CostsRows 0 listing steps.old steps.new) }
{
    let none = FrameBuilder::new(alloc, query.probe_schema.try_clone(alloc)?)?.finish(alloc)?;
    let mut listing = listing;
    for chunk in places.chunks(query.plan.morsel as usize) {
        let pairs = outer_pairs(alloc, chunk)?;
        listing = take_pairs(alloc, query, &none, build, &pairs, listing, steps)?;
    }
    Ok(listing)
}

/// Lists the build rows that joined no probe row beside nulls, where the query keeps them. They are
/// counted before any is gathered.
pub(crate) fn take_unmatched<L: Ledger>(
    alloc: Global,
    query: &Query,
    build: &[Frame],
    built: &Built,
    listing: Listing,
    steps: &mut Steps<L>,
) -> Result<Listing, QueryError>
    requires can { CanList query.now build.now }
    requires few { is_too_large build.now ≡ false }
    requires number { listing.morsels < 2 ^ 31 }
    requires listed { (ms : Items (Items Row))
        × HasListed query.now build.now ms built.now listing }
    ensures listed { IfOk result (λ after. (ms : Items (Items Row))
        → HasListed query.now build.now ms built.now listing
        → IsListing query.now (rows_of_each query.now build.now ms
        ++ runs query.now.plan.morsel (outer_rows query.now build.now (rows_of_morsels ms)))
        after) }
    ensures fails { IfErr result (λ e. (ms : Items (Items Row))
        → HasListed query.now build.now ms built.now listing
        → ListingFails query.now
        (joined_rows query.now (rows_of build.now) (rows_of_morsels ms)) e) }
    ensures cost { IfOk result (CostsRows 0 listing steps.old steps.new) }
{
    if !query.keep_build {
        return Ok(listing);
    }
    let places = unmatched_rows(alloc, query, built)?;
    if places.len() as u64 > query.plan.rows - listing.listed {
        return Err(QueryError::TooLarge);
    }
    Ok(take_outer(alloc, query, build, places.as_slice(), listing, steps)?)
}
