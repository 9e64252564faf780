//! Reads to the end and writes of a whole text, over any source and sink.
ghost use Rattle.std.specs.Prelude.{◌≡◌, ◌≤◌, length, is_err, IfOk, IfErr, OnOk, OnErr};
ghost use Rattle.std.specs.Io.KnownBytes.{append_known};
ghost use Rattle.byte_streams.specs.Faults.{faults_after};
ghost use Rattle.byte_streams.specs.Whole.{ReadWhole, StopsReading, GrowsByFront, is_read_fault};

use crate::{Put, Sink, Source, Took};
use std::alloc::Global;

/// How many bytes are read at a time.
pub const PIECE: usize = 8192;

/// Why a source was not read to its end.
#[derive(Clone, Copy, PartialEq, Eq, Debug)]
pub enum ReadError {
    /// The source failed, and nothing was read after that.
    Fault,
    /// There was more than the caller wants. At most a piece more was taken.
    TooLong,
    /// Memory was wanted and not found. Nothing else is said of when this comes.
    Memory,
}

/// A sink failed before a write was whole.
#[derive(Clone, Copy, PartialEq, Eq, Debug)]
pub struct WriteFault;

/// Reads to the end of a source, for as long as that takes at most `most` bytes and the source does not fail.
pub fn read_to_end<S: Source>(
    alloc: Global,
    source: &mut S,
    most: usize,
) -> Result<Vec<u8>, ReadError>
    ensures whole { IfOk result (λ bytes.
        ReadWhole (S.left source.old) (S.left source.new) bytes.items) }
    ensures within { IfOk result (λ bytes. length bytes.items ≤ most) }
    ensures stopped { IfErr result (λ e.
        StopsReading e most (S.left source.old) (S.left source.new)) }

    // One fault where the source failed, and else none.
    ensures counted { S.faults source.new ≡
        faults_after (is_read_fault result) (S.faults source.old) }
    ensures never_falls { S.faults source.old ≤ S.faults source.new }
{
    let mut bytes = Vec::new(alloc);
    let mut piece = [0; PIECE];
    loop {
        match source.read(&mut piece) {
            Took::Got(count) => {
                if count > most - bytes.len() {
                    return Err(ReadError::TooLong);
                }
                if bytes.extend_from_slice(&piece[..count]).is_err() {
                    return Err(ReadError::Memory);
                }
            }
            Took::End => return Ok(bytes),
            Took::Failed => return Err(ReadError::Fault),
        }
    }
}

/// Writes all the bytes, for as long as the sink does not fail. It takes no memory.
pub fn write_all<K: Sink>(sink: &mut K, bytes: &[u8]) -> Result<(), WriteFault>
    ensures whole { OnOk result (K.held sink.new ≡ append_known (K.held sink.old) bytes.now) }
    ensures front { OnErr result (GrowsByFront (K.held sink.old) (K.held sink.new) bytes.now) }

    // One fault where the write is not whole, and else none.
    ensures counted { K.faults sink.new ≡ faults_after (is_err result) (K.faults sink.old) }
    ensures never_falls { K.faults sink.old ≤ K.faults sink.new }
{
    let mut written = 0;
    while written < bytes.len() {
        match sink.write(&bytes[written..]) {
            Put::Took(count) => written += count,
            Put::Failed => return Err(WriteFault),
        }
    }
    Ok(())
}
