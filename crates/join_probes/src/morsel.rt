//! The pairs of a morsel of the probe side.
ghost use Rattle.std.specs.Prelude.{◌≡◌, ℕ, ◌+◌, ◌<◌, ◌≤◌, ◌^◌, Bool, false, ◌||◌, List as Items};
ghost use Rattle.std.specs.Prelude.{[], ◌∷◌, map, length, IfOk, IfErr, OnOk, OnErr};
ghost use Rattle.std.specs.List.{flat_map, All};
ghost use Rattle.col_core.specs.Tables.{Table};
ghost use Rattle.join_model.specs.Joined.{rows_of, rows_of_probe};
ghost use Rattle.join_model.specs.Refusals.{is_too_large};
ghost use Rattle.join_probes.specs.Keys.{HasKey};
ghost use Rattle.join_probes.specs.Probed.{is_joined, pair_row, CanJoin, IsBuilt, IsBuiltMore};
ghost use Rattle.join_probes.specs.Probed.{IsPair, MorselFails};

use crate::keys::side_keys;
use crate::plan::table_plan;
use col_core::{Frame, List};
use join_model::Query;
use join_tables::{Built, Pair, ProbeError};
use std::alloc::Global;
use std::sync::ledger::Ledger;
use step_count::Steps;

/// The pairs of a morsel's rows in their order: each with the build rows that it joins, in build
/// order, or alone where it joins none and the query keeps it. Each key that the morsel joins is
/// marked. At most one step a row is taken. After an error some of these keys may have been marked.
#[tactic(auto, using(crate::proofs::Plans::good_plan, crate::proofs::Calls::morsel_keys))]
pub fn probe_morsel<L: Ledger>(
    alloc: Global,
    query: &Query,
    built: &mut Built,
    morsel: &Frame,
    most: u64,
    steps: &mut Steps<L>,
) -> Result<List<Pair>, ProbeError>
    requires can { CanJoin query.now }
    requires same { morsel.now.schema ≡ query.now.probe_schema }
    requires few { is_too_large (morsel.now ∷ []) ≡ false }
    requires most { most < 2 ^ 32 }
    requires built { (build : Items Table) × (marked : Items ℕ → Bool)
        × IsBuilt query.now build marked built.old }
    ensures rows { IfOk result (λ pairs. (build : Items Table) (marked : Items ℕ → Bool)
        → IsBuilt query.now build marked built.old
        → map (pair_row query.now morsel.now build) pairs
        ≡ flat_map (rows_of_probe query.now (rows_of build)) morsel.now.rows) }
    ensures inside { IfOk result (λ pairs. (build : Items Table) (marked : Items ℕ → Bool)
        → IsBuilt query.now build marked built.old
        → All (IsPair morsel.now build) pairs) }
    ensures within { IfOk result (λ pairs. length pairs ≤ most) }
    ensures marked { OnOk result ((build : Items Table) (marked : Items ℕ → Bool)
        → IsBuilt query.now build marked built.old
        → IsBuilt query.now build (λ k. marked k || is_joined query.now morsel.now.rows k) built.new) }
    ensures spelled { OnOk result
        (All (HasKey query.now.probe_schema query.now.probe_keys) morsel.now.rows) }
    ensures places { built.new.places ≡ built.old.places }
    ensures fails { IfErr result (λ e. (build : Items Table) (marked : Items ℕ → Bool)
        → IsBuilt query.now build marked built.old
        → MorselFails most (flat_map (rows_of_probe query.now (rows_of build)) morsel.now.rows) e) }
    ensures err { OnErr result ((build : Items Table) (marked : Items ℕ → Bool)
        → IsBuilt query.now build marked built.old
        → IsBuiltMore query.now build marked morsel.now.rows built.new) }
    ensures cost { OnOk result (steps.new ≤ steps.old + length morsel.now.rows) }
{
    let plan = table_plan(query);
    let keys = side_keys(
        alloc,
        query.null_equal,
        &query.probe_schema,
        query.probe_keys.as_slice(),
        morsel,
        plan.state,
    )?;
    join_tables::probe_morsel(alloc, &plan, built, &keys, most, steps)
}
