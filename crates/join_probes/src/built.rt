//! The tables of a query's build frames.
ghost use Rattle.std.specs.Prelude.{◌≡◌, ◌+◌, ◌<◌, ◌≤◌, ◌^◌, false, map, length, IfOk, OnOk};
ghost use Rattle.std.specs.List.{All};
ghost use Rattle.hash_keys.specs.Views.{keys_of, state_of};
ghost use Rattle.join_laws.specs.Partitions.{unmarked};
ghost use Rattle.join_model.specs.Joined.{rows_of};
ghost use Rattle.join_model.specs.Refusals.{is_too_large};
ghost use Rattle.join_probes.specs.Keys.{AllHave, AreKnown, HasKey};
ghost use Rattle.join_probes.specs.Probed.{build_frame_keys, CanJoin, IsBuilt};

use crate::keys::side_keys;
use crate::plan::table_plan;
use col_core::Frame;
use hash_keys::HashKeys;
use join_model::Query;
use join_tables::Built;
use key_parts::PlRandomState;
use std::alloc::{AllocError, Global};
use std::sync::ledger::Ledger;
use step_count::Steps;

/// The keys of each build frame, hashed under a state.
#[tactic(auto, using(crate::proofs::BuildFrames::frame_by_frame))]
fn build_keys(
    alloc: Global,
    query: &Query,
    build: &[Frame],
    state: PlRandomState,
) -> Result<Vec<HashKeys>, AllocError>
    requires known { AreKnown query.now.build_schema query.now.build_keys }
    requires have { AllHave query.now.build_schema build.now }
    requires few { length (rows_of build.now) < 2 ^ 31 }
    ensures keys { IfOk result (λ keys.
        map keys_of keys.items ≡ build_frame_keys query.now build.now) }
    ensures state { IfOk result (λ keys. All (λ k. state_of k ≡ state) keys.items) }
    ensures spelled { IfOk result (λ _.
        All (HasKey query.now.build_schema query.now.build_keys) (rows_of build.now)) }
{
    let schema = &query.build_schema;
    let names = query.build_keys.as_slice();
    let mut keys = Vec::with_capacity(alloc, build.len())?;
    for frame in build {
        keys.push(side_keys(alloc, query.null_equal, schema, names, frame, state)?)?;
    }
    Ok(keys)
}

/// The tables of the build side, one a partition of the query's plan, with no key marked. At most
/// one step a build row is taken.
#[tactic(auto, using(crate::proofs::Plans::good_plan))]
pub fn build_tables<L: Ledger>(
    alloc: Global,
    query: &Query,
    build: &[Frame],
    steps: &mut Steps<L>,
) -> Result<Built, AllocError>
    requires can { CanJoin query.now }
    requires have { AllHave query.now.build_schema build.now }
    requires few { is_too_large build.now ≡ false }
    ensures built { IfOk result (λ built. IsBuilt query.now build.now unmarked built) }
    ensures cost { OnOk result (steps.new ≤ steps.old + length (rows_of build.now)) }
{
    let plan = table_plan(query);
    let keys = build_keys(alloc, query, build, plan.state)?;
    join_tables::build_tables(alloc, &plan, &keys, steps)
}
