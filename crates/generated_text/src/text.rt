//! The text for a number.
ghost use Rattle.std.specs.Prelude.{◌≡◌, ◌<◌, ◌≤◌, None, IfOk};
ghost use Rattle.join_model.specs.Answers.{answer_rows, answer_groups};
ghost use Rattle.join_model.specs.Refusals.{refusal_of};
ghost use Rattle.generated_text.specs.Lines.{generated_text};

use crate::lines::answer_lines;
use col_core::Blob;
use join_engine::{Answer, QueryError, stream_join_aggregate};
use join_generator::{Generated, generate};
use join_text::TextError;
use std::alloc::{AllocError, Global};
use std::sync::ledger::Ledger;
use step_count::Steps;

/// The answer to an input that is not refused.
fn answer_of<L: Ledger>(
    alloc: Global,
    input: &Generated,
    steps: &mut Steps<L>,
) -> Result<Answer, AllocError>
    requires { refusal_of input.now.query input.now.build input.now.probe ≡ None }
    ensures rows { IfOk result
        (λ a. a.rows ≡ answer_rows input.now.query input.now.build input.now.probe) }
    ensures groups { IfOk result
        (λ a. a.groups ≡ answer_groups input.now.query input.now.build input.now.probe) }
{
    let build = input.build.as_slice();
    let probe = input.probe.as_slice();
    match stream_join_aggregate(alloc, &input.query, build, probe, steps) {
        Ok(answer) => Ok(answer),
        Err(QueryError::Memory) => Err(AllocError),
        Err(_) => unreachable!(),
    }
}

/// The lines for the answer to the generated input of `n` build rows, from 1 to 100,000.
pub fn generated_text<L: Ledger>(
    alloc: Global,
    n: u32,
    steps: &mut Steps<L>,
) -> Result<Blob, TextError>
    requires some { 0 < n }
    requires most { n ≤ 100000 }
    ensures { IfOk result (λ text. text ≡ generated_text n) }
{
    let input = generate(alloc, n)?;
    let answer = answer_of(alloc, &input, steps)?;
    answer_lines(alloc, &answer)
}
