//! The program: answers the request on standard input, or with `gen N` a generated input, and tells on
//! standard error what it refuses.
//!
//! `main` makes the three standard streams, takes the words after the program's name, and ends with
//! the status of [`run_tool`], on whose clauses all rests (`join_command`).
#![tactic(auto)]

ghost use Rattle.std.specs.Prelude.{◌≡◌, ◌<◌};

pub use join_command::run_tool;
use join_command::{ToolError, report};
use join_text::{Sink, Source, StdSink, StdSource};
use std::alloc::Global;
use std::env;
use std::io::ErrorKind;
use std::marker::Brand;
use std::process::ExitCode;
use std::rt::Env;
use std::sync::ledger::{Blank, Ledger};
use step_count::Steps;

/// The words after the program's name. A word that is not UTF-8 is in no command.
fn words<R: Env + AllocGlobal>(rt: &R) -> Result<Vec<String>, ToolError> {
    match env::args(rt) {
        Ok(args) => Ok(args.skip(1).collect(rt.alloc())?),
        Err(e) if e.kind() == ErrorKind::OutOfMemory => Err(ToolError::Memory),
        Err(_) => Err(ToolError::Usage),
    }
}

/// Runs the program and counts no steps.
fn run_uncounted<S: Source, O: Sink, E: Sink, L: Ledger>(
    alloc: Global,
    words: &[String],
    source: &mut S,
    out: &mut O,
    errors: &mut E,
    blank: Blank,
) -> u8
    requires name { blank.name ≡ L.name }
    requires parts { blank.parts ≡ L.parts }
    requires some { 0 < L.parts }
{
    let mut steps = Steps::<L>::new(blank);
    run_tool(alloc, words, source, out, errors, &mut steps)
}

fn main(rt: HostRuntime) -> ExitCode {
    let mut source = StdSource::new(rt.stdin());
    let mut out = StdSink::new(rt.stdout());
    let mut errors = StdSink::new(rt.stderr());
    let status = match words(&rt) {
        Ok(words) => run_uncounted::<_, _, _, Brand>(
            rt.alloc(),
            &words,
            &mut source,
            &mut out,
            &mut errors,
            Blank::new(1),
        ),
        Err(e) => report(&mut errors, e),
    };
    ExitCode::from(status)
}
