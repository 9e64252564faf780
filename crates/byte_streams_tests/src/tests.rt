//! Sources and sinks in memory, over the readers and writers of the standard library, and whole reads and writes.
use byte_streams::{
    MemorySink, MemorySource, Put, ReadError, Sink, Source, StdSink, StdSource, Took, WriteFault,
    read_to_end, write_all,
};
use item_list::List;
use std::alloc::{AllocError, Global};
use std::io;
use std::io::{BufWriter, ErrorKind, Read, Write};
use std::process::Abort;
use std::test::Fail;

const LETTERS: &[u8] = b"abcde";

/// A source of the letters, in pieces, that fails in some calls.
fn source_of(
    rt: &impl Abort,
    alloc: Global,
    piece: usize,
    fail_at: &[u64],
) -> Result<MemorySource, AllocError> {
    assert!(rt; piece >= 1);
    let bytes = LETTERS.to_vec(alloc)?;
    Ok(MemorySource::new(bytes, piece, List::from_vec(fail_at.to_vec(alloc)?)))
}

/// A sink with room for some bytes, which takes pieces and fails in some calls.
fn sink_of(
    rt: &impl Abort,
    alloc: Global,
    room: usize,
    piece: usize,
    fail_at: &[u64],
) -> Result<MemorySink, AllocError> {
    assert!(rt; piece >= 1);
    MemorySink::new(alloc, room, piece, List::from_vec(fail_at.to_vec(alloc)?))
}

/// Reads into a buffer of four answer so.
fn expect_reads<S: Source>(rt: &impl Abort, source: &mut S, answers: &[Took]) {
    let mut buf = [0; 4];
    for answer in answers {
        assert!(rt; source.read(&mut buf) == *answer);
    }
}

/// Writes of the letters answer so.
fn expect_writes<K: Sink>(rt: &impl Abort, sink: &mut K, answers: &[Put]) {
    for answer in answers {
        assert!(rt; sink.write(LETTERS) == *answer);
    }
}

#[test]
fn a_source_gives_pieces_and_fails_when_told(rt: HostRuntime) -> Result<(), AllocError> {
    use Took::{End, Failed, Got};
    let mut source = source_of(&rt, rt.alloc(), 3, &[1, 4])?;
    expect_reads(&rt, &mut source, &[Got(3), Failed, Got(2), End, Failed]);
    assert!(rt; source.left().is_empty() && source.calls() == 5 && source.faults() == 2);
    Ok(())
}

#[test]
fn a_sink_takes_pieces_and_fails_when_full_or_told(rt: HostRuntime) -> Result<(), AllocError> {
    use Put::{Failed, Took};
    let mut sink = sink_of(&rt, rt.alloc(), 4, 3, &[0])?;
    expect_writes(&rt, &mut sink, &[Failed, Took(3), Took(1), Failed]);
    assert!(rt; sink.bytes() == b"abca".as_slice() && sink.calls() == 4 && sink.faults() == 2);
    Ok(())
}

/// A reader that only fails.
#[derive(Drop)]
struct Broken;

impl Read for Broken {
    fn read(&mut self, _buf: &mut [u8]) -> io::Result<usize> {
        Err(io::Error::from(ErrorKind::Other))
    }
}

#[test]
fn readers_are_sources(rt: HostRuntime) {
    let mut source = StdSource::new(LETTERS);
    expect_reads(&rt, &mut source, &[Took::Got(4), Took::Got(1), Took::End]);
    assert!(rt; source.faults() == 0);
    let mut broken = StdSource::new(Broken);
    expect_reads(&rt, &mut broken, &[Took::Failed, Took::Failed]);
    assert!(rt; broken.faults() == 2);
}

/// A writer that takes all bytes, and whose flush fails.
#[derive(Drop)]
struct Stuck;

impl Write for Stuck {
    fn write(&mut self, buf: &[u8]) -> io::Result<usize> {
        Ok(buf.len())
    }

    fn flush(&mut self) -> io::Result<()> {
        Err(io::Error::from(ErrorKind::Other))
    }
}

#[test]
fn writers_are_sinks(rt: HostRuntime) {
    let mut room: &mut [u8] = &mut [0; 7];
    let mut sink = StdSink::new(&mut room);
    expect_writes(&rt, &mut sink, &[Put::Took(5), Put::Took(2), Put::Failed]);
    assert!(rt; sink.faults() == 1);
    let mut stuck = StdSink::new(Stuck);
    expect_writes(&rt, &mut stuck, &[Put::Failed]);
}

#[test]
fn a_sink_flushes_in_each_call(rt: HostRuntime) -> Result<(), Fail> {
    let mut buffered = BufWriter::new(rt.alloc(), Vec::new(rt.alloc()))?;
    let mut sink = StdSink::new(&mut buffered);
    expect_writes(&rt, &mut sink, &[Put::Took(5), Put::Took(5)]);
    assert!(rt; buffered.buffer().is_empty());
    assert!(rt; buffered.get_ref().as_slice() == b"abcdeabcde".as_slice());
    Ok(())
}

/// Whether a whole read of at most so many bytes gives the letters, or else this error.
fn reads(
    rt: &impl Abort,
    alloc: Global,
    fail_at: &[u64],
    most: usize,
    error: Option<ReadError>,
) -> Result<bool, AllocError> {
    let mut source = source_of(rt, alloc, 2, fail_at)?;
    match read_to_end(alloc, &mut source, most) {
        Ok(bytes) => Ok(error.is_none() && bytes.as_slice() == LETTERS),
        Err(e) => Ok(error == Some(e)),
    }
}

#[test]
fn whole_reads(rt: HostRuntime) -> Result<(), AllocError> {
    let rows: [(&[u64], usize, Option<ReadError>); 5] = [
        (&[], 5, None),
        (&[], 4, Some(ReadError::TooLong)),
        (&[0], 9, Some(ReadError::Fault)),
        (&[2], 9, Some(ReadError::Fault)),
        (&[3], 9, Some(ReadError::Fault)),
    ];
    for (fail_at, most, error) in rows {
        assert!(rt; reads(&rt, rt.alloc(), fail_at, most, error)?);
    }
    Ok(())
}

/// What a whole write of the letters, a byte a call, answers, and the bytes that are held then.
fn expect_whole(
    rt: &impl Abort,
    alloc: Global,
    fail_at: &[u64],
    wanted: Result<(), WriteFault>,
    held: &[u8],
) -> Result<(), AllocError> {
    let mut sink = sink_of(rt, alloc, 5, 1, fail_at)?;
    assert!(rt; write_all(&mut sink, LETTERS) == wanted);
    assert!(rt; sink.bytes() == held);
    Ok(())
}

#[test]
fn whole_writes(rt: HostRuntime) -> Result<(), AllocError> {
    let rows: [(&[u64], Result<(), WriteFault>, &[u8]); 4] = [
        (&[], Ok(()), LETTERS),
        (&[0], Err(WriteFault), b""),
        (&[4], Err(WriteFault), b"abcd"),
        (&[5], Ok(()), LETTERS),
    ];
    for (fail_at, wanted, held) in rows {
        expect_whole(&rt, rt.alloc(), fail_at, wanted, held)?;
    }
    Ok(())
}
