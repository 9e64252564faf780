//! Words that are no command.
use crate::runs::{EXAMPLE, run, sink, source_of};
use std::alloc::Global;
use std::test::Fail;

const USAGE: &str = "usage: join_tool or join_tool gen N\n";

/// Whether these words are refused, with nothing read.
fn is_refused(alloc: Global, words: &[&str]) -> Result<bool, Fail> {
    let mut given = Vec::new(alloc);
    for word in words {
        given.push(String::from_str(alloc, *word)?)?;
    }
    let mut source = source_of(alloc, EXAMPLE.as_bytes(), 8192, &[])?;
    let mut out = sink(alloc, 4096, &[])?;
    let mut errors = sink(alloc, 4096, &[])?;
    let status = run(alloc, &given, &mut source, &mut out, &mut errors);
    let is_told = out.bytes().is_empty() && errors.bytes() == USAGE.as_bytes();
    Ok(status == 2 && is_told && source.calls() == 0)
}

#[test]
fn words_that_are_no_command(rt: HostRuntime) -> Result<(), Fail> {
    let cases: [&[&str]; 7] = [
        &["gen", "0"],
        &["gen", "01"],
        &["gen", "100001"],
        &["gen", "1", "2"],
        &["gen"],
        &[""],
        &["--help"],
    ];
    for case in cases {
        assert!(rt; is_refused(rt.alloc(), case)?);
    }
    Ok(())
}
