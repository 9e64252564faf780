//! How the tables of a query are built and probed.
ghost use Rattle.std.specs.Prelude.{◌≡◌, true};
ghost use Rattle.join_model.specs.Refusals.{is_good_plan};
ghost use Rattle.join_probes.specs.Probed.{plan_of};

use join_model::Query;
use join_tables::TablePlan;
use key_parts::{HashPartitioner, IdxSize, PlRandomState};

/// How the tables of a query are built and probed.
#[tactic(auto, using(crate::proofs::Plans::good_plan))]
pub fn table_plan(query: &Query) -> TablePlan
    requires { is_good_plan query.now.plan ≡ true }
    ensures { result ≡ plan_of query.now }
{
    let plan = &query.plan;
    TablePlan {
        state: PlRandomState {
            seed: plan.seed,
            mask: plan.mask,
        },
        partitioner: HashPartitioner::new(plan.partitions as usize, plan.pseed),
        limit: plan.limit as IdxSize,
        keep_probe: query.keep_probe,
    }
}
