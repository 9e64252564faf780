//! Streams that fail, and requests that are too long.
ghost use Rattle.std.specs.Prelude.{None};

use crate::runs::{EXAMPLE, EXAMPLE_TEXT, run, run_example, run_into, sink, source_of};
use join_text::{Source, Took};
use std::alloc::Global;
use std::test::Fail;

/// Whether a source of one byte a call that fails at a call ends the run there, with nothing written.
fn ends_at_read(alloc: Global, call: u64) -> Result<bool, Fail> {
    let mut source = source_of(alloc, EXAMPLE.as_bytes(), 1, &[call])?;
    let ended = run_into(alloc, &mut source, 1, &[])?;
    let has_ended = ended.is(3, b"".as_slice(), "read fault\n");
    Ok(has_ended && source.calls() == call.wrapping_add(1))
}

#[test]
fn a_source_that_fails_at_each_call(rt: HostRuntime) -> Result<(), Fail> {
    // One call for each byte, and one for the end.
    let calls = EXAMPLE.len() as u64 + 1;
    for call in 0..calls {
        assert!(rt; ends_at_read(rt.alloc(), call)?, "call {call}");
    }
    assert!(rt; !ends_at_read(rt.alloc(), calls)?);
    Ok(())
}

#[test]
fn a_sink_that_fails_at_each_call(rt: HostRuntime) -> Result<(), Fail> {
    let text = EXAMPLE_TEXT.as_bytes();
    for held in 0..text.len() {
        let ended = run_example(rt.alloc(), EXAMPLE.as_bytes(), &[held as u64])?;
        assert!(rt; ended.is(7, &text[..held], "write fault\n"), "call {held}");
    }
    let ended = run_example(rt.alloc(), EXAMPLE.as_bytes(), &[text.len() as u64])?;
    assert!(rt; ended.is(0, text, ""));
    Ok(())
}

#[test]
fn errors_that_fail_change_no_status(rt: HostRuntime) -> Result<(), Fail> {
    let mut source = source_of(rt.alloc(), b"{", 8192, &[])?;
    let mut out = sink(rt.alloc(), 1, &[])?;
    let mut errors = sink(rt.alloc(), 1, &[0])?;
    let status = run(rt.alloc(), &[], &mut source, &mut out, &mut errors);
    assert_eq!(rt; status, 5);
    assert!(rt; errors.bytes().is_empty());
    assert!(rt; out.bytes().is_empty());
    Ok(())
}

/// A source of so many spaces, which it does not tell.
#[derive(Drop)]
struct Spaces(usize);

impl Source for Spaces {
    ghost left = { λ _. None };

    ghost faults = { λ _. 0 };

    fn read(&mut self, buf: &mut [u8]) -> Took {
        let count = self.0.min(buf.len());
        if count == 0 {
            return Took::End;
        }
        buf[..count].fill(b' ');
        self.0 -= count;
        Took::Got(count)
    }
}

#[test]
fn a_request_that_is_too_long(rt: HostRuntime) -> Result<(), Fail> {
    let mut source = Spaces((1 << 28) + 1);
    let ended = run_into(rt.alloc(), &mut source, 4096, &[])?;
    assert!(rt; ended.is(4, b"".as_slice(), "request too long\n"));
    Ok(())
}
