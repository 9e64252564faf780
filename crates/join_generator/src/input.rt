//! A query with its frames.
ghost use Rattle.std.specs.Prelude.{◌≡◌, ◌*◌, ◌<◌, ◌≤◌, [], ◌∷◌, length, None, IfOk};
ghost use Rattle.join_model.specs.Joined.{rows_of, joined_rows};
ghost use Rattle.join_model.specs.Refusals.{refusal_of};
ghost use Rattle.join_generator.specs.Generated.{generated_query, build_table, probe_table};

use crate::columns::{build_frame, probe_frame};
use crate::draws::Draws;
use crate::query::generated_query;
use col_core::{Frame, List};
use join_model::Query;
use std::alloc::{AllocError, Global};

/// A query and the frames of both of its sides.
#[derive(Debug, Drop)]
pub struct Generated {
    pub query: Query,
    pub build: List<Frame>,
    pub probe: List<Frame>,
}

fn only_frame(alloc: Global, frame: Frame) -> Result<List<Frame>, AllocError>
    ensures { IfOk result (λ frames. frames ≡ frame ∷ []) }
{
    Ok(List::from_vec(vec![in alloc; frame]?))
}

/// The query and the frames.
fn make(alloc: Global, n: u32) -> Result<Generated, AllocError>
    requires some { 0 < n }
    requires most { n ≤ 100000 }
    ensures query { IfOk result (λ made. made.query ≡ generated_query) }
    ensures build { IfOk result (λ made. made.build ≡ build_table n ∷ []) }
    ensures probe { IfOk result (λ made. made.probe ≡ probe_table n ∷ []) }
{
    let mut draws = Draws::new();
    let build = build_frame(alloc, n, &mut draws)?;
    let probe = probe_frame(alloc, n, &mut draws)?;
    let query = generated_query(alloc)?;
    let build = only_frame(alloc, build)?;
    let probe = only_frame(alloc, probe)?;
    Ok(Generated {
        query,
        build,
        probe,
    })
}

/// The query, a frame of `n` build rows, and one of four times as many probe rows, `n` from 1 to
/// 100,000. The joined list has at most nine times as many rows, and the query is not refused.
pub fn generate(alloc: Global, n: u32) -> Result<Generated, AllocError>
    requires some { 0 < n }
    requires most { n ≤ 100000 }
    ensures query { IfOk result (λ made. made.query ≡ generated_query) }
    ensures build { IfOk result (λ made. made.build ≡ build_table n ∷ []) }
    ensures probe { IfOk result (λ made. made.probe ≡ probe_table n ∷ []) }
    ensures few { IfOk result (λ made.
        length (joined_rows made.query (rows_of made.build) (rows_of made.probe)) ≤ 9 * n) }
    ensures accepted { IfOk result (λ made. refusal_of made.query made.build made.probe ≡ None) }
{
    let made = make(alloc, n)?;
    Ok(made)
}
