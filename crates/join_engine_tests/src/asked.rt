//! Answers to requests, and how many searches they take.
ghost use Rattle.std.specs.Prelude.{◌≡◌, ◌<◌, ◌≤◌, ◌+◌, ◌*◌, IfOk};

use col_core::Frame;
use join_engine::{Answer, stream_join_aggregate};
use join_query::Query;
use join_request::{Request, read_request};
use std::alloc::Global;
use std::marker::Brand;
use std::slice::from_ref;
use std::sync::ledger::{Blank, Ledger};
use std::test::Fail;
use step_count::Steps;

/// The request that a text is.
pub fn request_of(alloc: Global, text: &str) -> Result<Request, Fail> {
    read_request(alloc, text.as_bytes()).map_err(|_| Fail::from("no request"))
}

fn answer_from<L: Ledger>(
    alloc: Global,
    query: &Query,
    build: &[Frame],
    probe: &[Frame],
    blank: Blank,
) -> Result<Answer, Fail>
    requires name { blank.name ≡ L.name }
    requires parts { blank.parts ≡ L.parts }
    requires some { 0 < L.parts }
{
    let mut steps = Steps::<L>::new(blank);
    stream_join_aggregate(alloc, query, build, probe, &mut steps).map_err(|_| Fail::from("refused"))
}

/// The answer to a query that is not refused.
pub fn answer(
    alloc: Global,
    query: &Query,
    build: &[Frame],
    probe: &[Frame],
) -> Result<Answer, Fail> {
    answer_from::<Brand>(alloc, query, build, probe, Blank::new(1))
}

/// The answer over one frame a side, where neither side nor the answer has more rows than `most`.
#[tactic(auto, using(crate::proofs::Searches::searches_within))]
fn counted<L: Ledger>(
    alloc: Global,
    query: &Query,
    build: &Frame,
    probe: &Frame,
    most: usize,
    steps: &mut Steps<L>,
) -> Result<Answer, Fail>
    ensures { IfOk result (λ _. steps.new ≤ steps.old + 4 * most) }
{
    let given = match stream_join_aggregate(alloc, query, from_ref(build), from_ref(probe), steps) {
        Ok(given) => given,
        Err(_) => return Err(Fail::from("refused")),
    };
    if build.height() > most || probe.height() > most || given.rows.height() > most {
        return Err(Fail::from("more rows"));
    }
    Ok(given)
}

fn counted_from<L: Ledger>(
    alloc: Global,
    query: &Query,
    build: &Frame,
    probe: &Frame,
    most: usize,
    blank: Blank,
) -> Result<Answer, Fail>
    requires name { blank.name ≡ L.name }
    requires parts { blank.parts ≡ L.parts }
    requires some { 0 < L.parts }
{
    let mut steps = Steps::<L>::new(blank);
    counted(alloc, query, build, probe, most, &mut steps)
}

/// The same, in at most four searches for each of so many rows.
pub fn answer_within(
    alloc: Global,
    query: &Query,
    build: &Frame,
    probe: &Frame,
    most: usize,
) -> Result<Answer, Fail> {
    counted_from::<Brand>(alloc, query, build, probe, most, Blank::new(1))
}
