//! The probe side, morsel by morsel.
ghost use Rattle.std.specs.Prelude.{◌≡◌, ◌+◌, ◌<◌, ◌≤◌, ◌^◌, [], ◌∷◌, false, List as Items, length, IfOk, IfErr};
ghost use Rattle.col_core.specs.Tables.{Row};
ghost use Rattle.list_laws.specs.Runs.{runs};
ghost use Rattle.join_model.specs.Joined.{rows_of};
ghost use Rattle.join_model.specs.Refusals.{is_too_large};
ghost use Rattle.join_probes.specs.Keys.{AllHave};
ghost use Rattle.join_engine.specs.Listed.{probe_morsels, rows_of_probes, CanList, CostsRows, FailsWithMore, HasListed, IsQueryErrorOf, ListingFails, ListsMore};

use crate::listing::{Listing, take_pairs};
use col_core::Frame;
use join_model::{Query, QueryError};
use join_pairs::{Built, ProbeError, probe_morsel};
use std::alloc::Global;
use std::cmp::min;
use std::sync::ledger::Ledger;
use step_count::Steps;

/// A probe's error as the query's.
fn query_error(error: ProbeError) -> QueryError
    ensures { IsQueryErrorOf error result }
{
    match error {
        ProbeError::TooLarge => QueryError::TooLarge,
        ProbeError::Memory => QueryError::Memory,
    }
}

/// Probes the rows of a morsel and lists the rows of its pairs, as many as the plan still allows.
fn take_morsel<L: Ledger>(
    alloc: Global,
    query: &Query,
    build: &[Frame],
    built: &mut Built,
    morsel: &Frame,
    listing: Listing,
    steps: &mut Steps<L>,
) -> Result<Listing, QueryError>
    requires can { CanList query.now build.now }
    requires same { morsel.now.schema ≡ query.now.probe_schema }
    requires few { length morsel.now.rows < 2 ^ 31 }
    requires listed { (ms : Items (Items Row))
        × HasListed query.now build.now ms built.old listing }
    requires number { listing.morsels < 2 ^ 33 }
    ensures listed { IfOk result
        (ListsMore query.now build.now (morsel.now.rows ∷ []) built.old listing built.new) }
    ensures fails { IfErr result
        (FailsWithMore query.now build.now morsel.now.rows built.old listing) }
    ensures morsels { IfOk result (λ after. after.morsels ≡ listing.morsels + 1) }
    ensures cost { IfOk result
        (CostsRows (length morsel.now.rows) listing steps.old steps.new) }
{
    let most = query.plan.rows - listing.listed;
    let pairs = probe_morsel(alloc, query, built, morsel, most, steps).map_err(query_error)?;
    Ok(take_pairs(
        alloc,
        query,
        morsel,
        build,
        pairs.as_slice(),
        listing,
        steps,
    )?)
}

/// Takes a frame cut into morsels of the plan's size, of which the last may be smaller.
fn take_slices<L: Ledger>(
    alloc: Global,
    query: &Query,
    build: &[Frame],
    built: &mut Built,
    frame: &Frame,
    listing: Listing,
    steps: &mut Steps<L>,
) -> Result<Listing, QueryError>
    requires can { CanList query.now build.now }
    requires same { frame.now.schema ≡ query.now.probe_schema }
    requires few { length frame.now.rows < 2 ^ 31 }
    requires listed { (ms : Items (Items Row))
        × HasListed query.now build.now ms built.old listing }
    requires number { listing.morsels + length frame.now.rows < 2 ^ 33 }
    ensures listed { IfOk result
        (ListsMore query.now build.now (runs query.now.plan.morsel frame.now.rows)
        built.old listing built.new) }
    ensures fails { IfErr result
        (FailsWithMore query.now build.now frame.now.rows built.old listing) }
    ensures morsels { IfOk result
        (λ after. after.morsels ≤ listing.morsels + length frame.now.rows) }
    ensures cost { IfOk result
        (CostsRows (length frame.now.rows) listing steps.old steps.new) }
{
    let mut listing = listing;
    let mut start = 0;
    while start < frame.height() {
        let len = min(query.plan.morsel as usize, frame.height() - start);
        let morsel = frame.slice(alloc, start, len)?;
        listing = take_morsel(alloc, query, build, built, &morsel, listing, steps)?;
        start += len;
    }
    Ok(listing)
}

/// Takes a frame. One that is no more than a morsel is not copied, and an empty one is not probed.
fn take_frame<L: Ledger>(
    alloc: Global,
    query: &Query,
    build: &[Frame],
    built: &mut Built,
    frame: &Frame,
    listing: Listing,
    steps: &mut Steps<L>,
) -> Result<Listing, QueryError>
    requires can { CanList query.now build.now }
    requires same { frame.now.schema ≡ query.now.probe_schema }
    requires few { length frame.now.rows < 2 ^ 31 }
    requires listed { (ms : Items (Items Row))
        × HasListed query.now build.now ms built.old listing }
    requires number { listing.morsels + length frame.now.rows < 2 ^ 33 }
    ensures listed { IfOk result
        (ListsMore query.now build.now (runs query.now.plan.morsel frame.now.rows)
        built.old listing built.new) }
    ensures fails { IfErr result
        (FailsWithMore query.now build.now frame.now.rows built.old listing) }
    ensures morsels { IfOk result
        (λ after. after.morsels ≤ listing.morsels + length frame.now.rows) }
    ensures cost { IfOk result
        (CostsRows (length frame.now.rows) listing steps.old steps.new) }
{
    let height = frame.height();
    if height == 0 {
        Ok(listing)
    } else if height as u64 <= query.plan.morsel {
        take_morsel(alloc, query, build, built, frame, listing, steps)
    } else {
        take_slices(alloc, query, build, built, frame, listing, steps)
    }
}

/// Takes all frames of the probe side, after none.
pub(crate) fn take_probe<L: Ledger>(
    alloc: Global,
    query: &Query,
    build: &[Frame],
    built: &mut Built,
    probe: &[Frame],
    listing: Listing,
    steps: &mut Steps<L>,
) -> Result<Listing, QueryError>
    requires can { CanList query.now build.now }
    requires have { AllHave query.now.probe_schema probe.now }
    requires few { is_too_large probe.now ≡ false }
    requires none { HasListed query.now build.now [] built.old listing }
    ensures listed { IfOk result (λ after.
        HasListed query.now build.now (probe_morsels query.now probe.now) built.new after) }
    ensures fails { IfErr result
        (ListingFails query.now (rows_of_probes query.now build.now (rows_of probe.now))) }
    ensures morsels { IfOk result
        (λ after. after.morsels ≤ listing.morsels + length (rows_of probe.now)) }
    ensures cost { IfOk result
        (CostsRows (length (rows_of probe.now)) listing steps.old steps.new) }
{
    let mut listing = listing;
    for frame in probe {
        listing = take_frame(alloc, query, build, built, frame, listing, steps)?;
    }
    Ok(listing)
}
