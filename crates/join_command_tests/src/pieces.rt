//! The example in pieces of several lengths, and cut off at each place.
ghost use Rattle.std.specs.Prelude.{◌≤◌};

use crate::runs::{EXAMPLE, EXAMPLE_TEXT, run_example, run_into, source_of};
use std::alloc::Global;
use std::test::Fail;

/// Whether the example is read to its end and answered in pieces of a length.
fn is_answered(alloc: Global, piece: usize) -> Result<bool, Fail>
    requires { 1 ≤ piece }
{
    let mut source = source_of(alloc, EXAMPLE.as_bytes(), piece, &[])?;
    let ended = run_into(alloc, &mut source, piece, &[])?;
    Ok(ended.is(0, EXAMPLE_TEXT.as_bytes(), "") && source.left().is_empty())
}

#[test]
fn the_example_in_pieces(rt: HostRuntime) -> Result<(), Fail> {
    for piece in [1, 2, 7, 8192] {
        assert!(rt; piece >= 1);
        assert!(rt; is_answered(rt.alloc(), piece)?, "piece {piece}");
    }
    Ok(())
}

#[test]
fn the_example_cut_off(rt: HostRuntime) -> Result<(), Fail> {
    for end in 0..EXAMPLE.len() {
        let ended = run_example(rt.alloc(), &EXAMPLE.as_bytes()[..end], &[])?;
        assert!(rt; ended.is(5, b"".as_slice(), "not JSON\n"), "{end}");
    }
    Ok(())
}
