//! Sources and sinks of bytes, each with a count of its faults.
//!
//! [`Source`] and [`Sink`] are the outside as programs see it: bytes left and bytes held, where they
//! are told, and how many calls failed. There are those over memory, which fail when they are told to,
//! and those over std's readers and writers, which tell no bytes. What is promised: a call gives or
//! takes a front of the bytes or fails without loss, and counts a fault exactly where it fails; and
//! [`read_to_end`] and [`write_all`] are whole, or say why not and stop at the first fault. Begin with
//! these two; `specs/Sources` and `specs/Sinks` say what one call does.
#![tactic(auto)]

mod memory_sink;
mod memory_source;
mod sink;
mod source;
mod standard;
mod whole;

pub use memory_sink::MemorySink;
pub use memory_source::MemorySource;
pub use sink::{Put, Sink};
pub use source::{Source, Took};
pub use standard::{StdSink, StdSource};
pub use whole::{PIECE, ReadError, WriteFault, read_to_end, write_all};
