//! Callers of the engine.
ghost use Rattle.std.specs.Prelude.{◌≡◌, ◌<◌, ◌⊎◌, length, Some, None, Err, IsOk, IfOk, IfErr};
ghost use Rattle.join_model.specs.Answers.{answer_groups, answer_rows};
ghost use Rattle.join_model.specs.Refusals.{refusal_of};

use col_core::Frame;
use join_engine::{Query, QueryError, stream_join_aggregate};
use std::alloc::Global;
use std::marker::Brand;
use std::sync::ledger::{Blank, Ledger};
use step_count::Steps;

/// The number of groups of a join.
pub fn count_groups<L: Ledger>(
    alloc: Global,
    query: &Query,
    build: &[Frame],
    probe: &[Frame],
    steps: &mut Steps<L>,
) -> Result<usize, QueryError>
    ensures groups { IfOk result (λ n.
        n ≡ length (answer_groups query.now build.now probe.now).rows) }
    ensures answered { refusal_of query.now build.now probe.now ≡ None
        → IsOk result ⊎ (result ≡ Err QueryError.Memory) }
{
    match stream_join_aggregate(alloc, query, build, probe, steps) {
        Ok(answer) => Ok(answer.groups.height()),
        Err(e) => Err(e),
    }
}

/// `joined_rows` with a counter of steps.
fn joined_from<L: Ledger>(
    alloc: Global,
    query: &Query,
    build: &[Frame],
    probe: &[Frame],
    blank: Blank,
) -> Result<Frame, QueryError>
    requires name { blank.name ≡ L.name }
    requires parts { blank.parts ≡ L.parts }
    requires some { 0 < L.parts }
    ensures rows { IfOk result (λ rows. rows ≡ answer_rows query.now build.now probe.now) }
    ensures refused { IfErr result (λ e. (e ≡ QueryError.Memory)
        ⊎ (refusal_of query.now build.now probe.now ≡ Some e)) }
{
    let mut steps = Steps::<L>::new(blank);
    match stream_join_aggregate(alloc, query, build, probe, &mut steps) {
        Ok(answer) => Ok(answer.rows),
        Err(e) => Err(e),
    }
}

/// The joined rows that pass the filter. The steps are not counted.
pub fn joined_rows(
    alloc: Global,
    query: &Query,
    build: &[Frame],
    probe: &[Frame],
) -> Result<Frame, QueryError>
    ensures rows { IfOk result (λ rows. rows ≡ answer_rows query.now build.now probe.now) }
    ensures refused { IfErr result (λ e. (e ≡ QueryError.Memory)
        ⊎ (refusal_of query.now build.now probe.now ≡ Some e)) }
{
    joined_from::<Brand>(alloc, query, build, probe, Blank::new(1))
}
