//! What is written for a request.
ghost use Rattle.std.specs.Prelude.{◌≡◌, IfOk, IfErr, Ok};
ghost use Rattle.join_command.specs.Replies.{reply_of, reply_to, IsCause};

use crate::ToolError;
use col_core::Blob;
use join_engine::stream_join_aggregate;
use join_text::{Request, answer_text, read_request};
use std::alloc::Global;
use std::sync::ledger::Ledger;
use step_count::Steps;

/// The text that answers the bytes of a request, or why there is none.
pub fn answer_request<L: Ledger>(
    alloc: Global,
    bytes: &[u8],
    steps: &mut Steps<L>,
) -> Result<Blob, ToolError>
    ensures answered { IfOk result (λ text. reply_to bytes.now ≡ Ok text) }
    ensures refused { IfErr result (IsCause (reply_to bytes.now)) }
{
    let request = read_request(alloc, bytes)?;
    reply(alloc, &request, steps)
}

fn reply<L: Ledger>(
    alloc: Global,
    request: &Request,
    steps: &mut Steps<L>,
) -> Result<Blob, ToolError>
    ensures answered { IfOk result (λ text. reply_of (Ok request.now) ≡ Ok text) }
    ensures refused { IfErr result (IsCause (reply_of (Ok request.now))) }
{
    let build = request.build.as_slice();
    let probe = request.probe.as_slice();
    let answer = stream_join_aggregate(alloc, &request.query, build, probe, steps)?;
    Ok(answer_text(alloc, &answer)?)
}
