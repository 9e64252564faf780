//! The build rows that no probe row has joined.
ghost use Rattle.std.specs.Prelude.{◌≡◌, ℕ, Bool, false, List as Items, map, filter, IfOk};
ghost use Rattle.std.specs.List.{All};
ghost use Rattle.col_core.specs.Places.{row_of, IsPlace};
ghost use Rattle.col_core.specs.Tables.{Table};
ghost use Rattle.join_laws.specs.Outer.{is_outer};
ghost use Rattle.join_model.specs.Joined.{rows_of};
ghost use Rattle.join_model.specs.Refusals.{is_too_large};
ghost use Rattle.join_probes.specs.Keys.{build_key};
ghost use Rattle.join_probes.specs.Probed.{CanJoin, IsBuilt};

use crate::plan::table_plan;
use col_core::{List, RowPlace};
use join_model::Query;
use join_tables::Built;
use std::alloc::{AllocError, Global};

/// The places of the build rows whose key is null or not marked, in build order.
#[tactic(auto, using(crate::proofs::Plans::good_plan))]
pub fn unmatched_rows(
    alloc: Global,
    query: &Query,
    built: &Built,
) -> Result<List<RowPlace>, AllocError>
    requires can { CanJoin query.now }
    requires built { (build : Items Table) × (marked : Items ℕ → Bool)
        × IsBuilt query.now build marked built.now × (is_too_large build ≡ false) }
    ensures rows { IfOk result (λ places. (build : Items Table) (marked : Items ℕ → Bool)
        → IsBuilt query.now build marked built.now → is_too_large build ≡ false
        → map (row_of build) places
        ≡ filter (λ b. is_outer marked (build_key query.now b)) (rows_of build)) }
    ensures inside { IfOk result (λ places. (build : Items Table) (marked : Items ℕ → Bool)
        → IsBuilt query.now build marked built.now → is_too_large build ≡ false
        → All (IsPlace build) places) }
{
    join_tables::unmatched_rows(alloc, &table_plan(query), built)
}
