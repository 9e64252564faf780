//! Runs of the program over streams in memory.
ghost use Rattle.std.specs.Prelude.{◌≡◌, ◌<◌, ◌≤◌};

use col_core::List;
use join_command::run_tool;
use join_text::{MemorySink, MemorySource, Source};
use std::alloc::{AllocError, Global};
use std::marker::Brand;
use std::sync::ledger::{Blank, Ledger};
use step_count::Steps;

/// A request whose answer is `EXAMPLE_TEXT`.
pub const EXAMPLE: &str =
    r#"{"build":{"schema":[["id","Int64"],["name","String"]],"frames":[[[1,"Ann"],[2,"Bo"]],[[1,"Cy"]]]},"probe":{"schema":[["cust","Int64"],["amt","Int64"]],"frames":[[[1,5],[3,7],[2,1]]]},"join":{"build":["id"],"probe":["cust"]},"group":["build.name"],"reduce":[["sum","probe.amt"]]}"#;

pub const EXAMPLE_TEXT: &str =
    "J,probe.cust,probe.amt,build.id,build.name\nJ,1,5,1,Ann\nJ,1,5,1,Cy\nJ,2,1,2,Bo\nG,build.name,sum(probe.amt)\nG,Ann,5\nG,Cy,5\nG,Bo,1\n";

/// A source of these bytes.
pub fn source_of(
    alloc: Global,
    bytes: &[u8],
    piece: usize,
    fail_at: &[u64],
) -> Result<MemorySource, AllocError>
    requires { 1 ≤ piece }
{
    let bytes = bytes.to_vec(alloc)?;
    let fail_at = List::from_vec(fail_at.to_vec(alloc)?);
    Ok(MemorySource::new(bytes, piece, fail_at))
}

/// An empty sink with room for every text of these tests.
pub fn sink(alloc: Global, piece: usize, fail_at: &[u64]) -> Result<MemorySink, AllocError>
    requires { 1 ≤ piece }
{
    let fail_at = List::from_vec(fail_at.to_vec(alloc)?);
    MemorySink::new(alloc, 4096, piece, fail_at)
}

/// How a run ended: its status, and the streams that it wrote to.
#[derive(Drop)]
pub struct Ended {
    status: u8,
    out: MemorySink,
    errors: MemorySink,
}

impl Ended {
    /// Whether the run had this status and wrote this text and this line.
    pub fn is(&self, status: u8, text: &[u8], line: &str) -> bool {
        self.status == status && self.out.bytes() == text && self.errors.bytes() == line.as_bytes()
    }
}

/// Runs the program over a source and into a sink that takes so much a call and fails at some calls.
pub fn run_into<S: Source>(
    alloc: Global,
    source: &mut S,
    piece: usize,
    fail_at: &[u64],
) -> Result<Ended, AllocError>
    requires { 1 ≤ piece }
{
    let mut out = sink(alloc, piece, fail_at)?;
    let mut errors = sink(alloc, piece, &[])?;
    let status = run(alloc, &[], source, &mut out, &mut errors);
    Ok(Ended {
        status,
        out,
        errors,
    })
}

/// Runs the program over a request, into a sink of one byte a call that fails at some calls.
pub fn run_example(alloc: Global, request: &[u8], fail_at: &[u64]) -> Result<Ended, AllocError> {
    let mut source = source_of(alloc, request, 8192, &[])?;
    run_into(alloc, &mut source, 1, fail_at)
}

/// Runs the program.
pub fn run<S: Source>(
    alloc: Global,
    words: &[String],
    source: &mut S,
    out: &mut MemorySink,
    errors: &mut MemorySink,
) -> u8 {
    run_uncounted::<_, Brand>(alloc, words, source, out, errors, Blank::new(1))
}

fn run_uncounted<S: Source, L: Ledger>(
    alloc: Global,
    words: &[String],
    source: &mut S,
    out: &mut MemorySink,
    errors: &mut MemorySink,
    blank: Blank,
) -> u8
    requires name { blank.name ≡ L.name }
    requires parts { blank.parts ≡ L.parts }
    requires some { 0 < L.parts }
{
    let mut steps = Steps::<L>::new(blank);
    run_tool(alloc, words, source, out, errors, &mut steps)
}
