//! Generated inputs, and the lines that are written for them.
use crate::runs::{EXAMPLE, run, sink, source_of};
use join_text::MemorySink;
use std::alloc::Global;
use std::process::Abort;
use std::test::Fail;

/// The lines for one build row.
const ONE: &str = "G,7,-490,-375,437,437,-236\nG,7,-490,-375,437,437,-236\nhash 4b299694c22670a5\n";

/// The lines for 1000 build rows.
const THOUSAND: &str =
    "G,78,2550,-475,485,105,-101\nG,55,599,-496,442,-33,-346\nhash 8f4e81576616076c\n";

// The words `gen` and a number end with this status and have written this text, and nothing is read.
fn expect_lines(
    rt: &impl Abort,
    alloc: Global,
    number: &str,
    mut out: MemorySink,
    status: u8,
    text: &[u8],
) -> Result<(), Fail> {
    let mut words = Vec::new(alloc);
    words.push(String::from_str(alloc, "gen")?)?;
    words.push(String::from_str(alloc, number)?)?;
    let mut source = source_of(alloc, EXAMPLE.as_bytes(), 8192, &[])?;
    let mut errors = sink(alloc, 4096, &[])?;
    let ended = run(alloc, &words, &mut source, &mut out, &mut errors);
    assert_eq!(rt; ended, status, "{number}");
    assert_eq!(rt; out.bytes(), text, "{number}");
    assert_eq!(rt; source.calls(), 0, "{number}");
    Ok(())
}

#[test]
fn generated_inputs(rt: HostRuntime) -> Result<(), Fail> {
    let alloc = rt.alloc();
    for (number, text) in [("1", ONE), ("1000", THOUSAND), ("1000", THOUSAND)] {
        let out = sink(alloc, 4096, &[])?;
        expect_lines(&rt, alloc, number, out, 0, text.as_bytes())?;
    }
    let out = sink(alloc, 1, &[3])?;
    expect_lines(&rt, alloc, "1", out, 7, b"G,7")
}
