//! Calls of a table, each under its conditions, and what the last of them replies.
ghost use Rattle.std.specs.Prelude.{◌≡◌, ◌+◌, ◌<◌, ◌^◌, length, IfOk, IsTrue};
ghost use Rattle.std.specs.List.{All};
ghost use Rattle.hash_keys.specs.Views.{keys_of, state_of};
ghost use Rattle.chunked_idx_table_tests.specs.Room.{HasRoom};

use chunked_idx_table::{ChunkedIdxTable, RowEncodedChunkedIdxTable};
use col_arrays::BinaryArray;
use hash_keys::{HashKeys, RowEncodedKeys};
use key_parts::{ChunkId, IdxSize, PlRandomState};
use std::alloc::{AllocError, Global};
use std::marker::Brand;
use std::sync::ledger::{Blank, Ledger};
use step_count::Steps;

/// The key of a row: a number, or null.
pub type Row = Option<u32>;

/// A position, as its chunk and its row, or the null position.
pub type Place = Option<(u32, u32)>;

/// A call. Null rows are tracked.
#[derive(Clone, Copy)]
pub enum Call<'a> {
    Insert(&'a [Row]),
    Probe(&'a [Row], Asked),
    ProbeSubset(&'a [Row], &'a [IdxSize], Asked),
    Unmarked { offset: IdxSize, limit: IdxSize },
}

/// How a probe is asked.
#[derive(Clone, Copy)]
pub struct Asked {
    pub marks: bool,
    pub emit: bool,
    pub limit: IdxSize,
}

/// What a call replies: positions, with the indexes of probed rows beside them, and its answer.
#[derive(Drop)]
pub struct Reply {
    pub positions: Vec<ChunkId>,
    pub indexes: Vec<IdxSize>,
    pub answer: IdxSize,
}

impl Reply {
    pub fn new(alloc: Global) -> Reply {
        Reply {
            positions: Vec::new(alloc),
            indexes: Vec::new(alloc),
            answer: 0,
        }
    }
}

/// The keys of rows, each the bytes of its number, under the state of a table.
fn keys_for<T: ChunkedIdxTable>(
    alloc: Global,
    table: &T,
    rows: &[Row],
) -> Result<HashKeys, AllocError>
    requires { length rows.now < 2 ^ 31 }
    ensures keys { IfOk result (λ k. length (keys_of k) ≡ length rows.now) }
    ensures state { IfOk result (λ k. state_of k ≡ (T.seen table.now).state) }
{
    let mut keys = BinaryArray::new(alloc);
    for row in rows {
        push_key(&mut keys, *row)?;
    }
    let keys = RowEncodedKeys::from_array(alloc, table.state(), keys)?;
    Ok(HashKeys::RowEncoded(keys))
}

fn push_key(keys: &mut BinaryArray, row: Row) -> Result<(), AllocError>
    ensures { IfOk result (λ _. length keys.new ≡ length keys.old + 1) }
{
    match row {
        Some(number) => keys.push(&number.to_le_bytes(), true),
        None => keys.push_null(),
    }
}

/// Whether a table has room for a chunk of so many rows.
fn has_room<T: ChunkedIdxTable>(table: &T, rows: usize) -> bool
    ensures { IsTrue result → HasRoom (T.seen table.now) rows }
{
    let taken = u64::from(table.num_keys()) + u64::from(table.num_null_rows());
    rows < 0x8000_0000 && table.num_chunks() < u32::MAX && taken + (rows as u64) < 0x1_0000_0000
}

/// Whether each index is below a length, of which there is room for as many indexes.
fn are_below(idxs: &[IdxSize], len: usize) -> bool
    ensures { IsTrue result → All (λ i. i < len) idxs.now }
{
    for i in idxs {
        if *i as usize >= len {
            return false;
        }
    }
    true
}

/// Inserts the keys of rows; where there is no room it fails as for want of memory.
fn insert<T: ChunkedIdxTable, L: Ledger>(
    alloc: Global,
    table: &mut T,
    rows: &[Row],
    steps: &mut Steps<L>,
) -> Result<(), AllocError> {
    if !has_room(table, rows.len()) {
        return Err(AllocError);
    }
    let keys = keys_for(alloc, table, rows)?;
    table.insert_key_chunk(keys, true, steps)
}

/// Probes the keys of rows.
fn probe<T: ChunkedIdxTable, L: Ledger>(
    alloc: Global,
    table: &mut T,
    rows: &[Row],
    asked: Asked,
    reply: &mut Reply,
    steps: &mut Steps<L>,
) -> Result<(), AllocError> {
    if rows.len() >= 0x8000_0000 {
        return Err(AllocError);
    }
    let keys = keys_for(alloc, table, rows)?;
    reply.answer = table.probe(
        &keys,
        &mut reply.positions,
        &mut reply.indexes,
        asked.marks,
        asked.emit,
        asked.limit,
        steps,
    )?;
    Ok(())
}

/// Probes the keys of some rows, at indexes below their number.
fn probe_subset<T: ChunkedIdxTable, L: Ledger>(
    alloc: Global,
    table: &mut T,
    rows: &[Row],
    subset: &[IdxSize],
    asked: Asked,
    reply: &mut Reply,
    steps: &mut Steps<L>,
) -> Result<(), AllocError> {
    if rows.len() >= 0x8000_0000 || subset.len() >= 0x8000_0000 || !are_below(subset, rows.len()) {
        return Err(AllocError);
    }
    let keys = keys_for(alloc, table, rows)?;
    reply.answer = table.probe_subset(
        &keys,
        subset,
        &mut reply.positions,
        &mut reply.indexes,
        asked.marks,
        asked.emit,
        asked.limit,
        steps,
    )?;
    Ok(())
}

/// Lists unmarked keys, under a limit of at least 1.
pub fn list_unmarked<T: ChunkedIdxTable>(
    table: &T,
    offset: IdxSize,
    limit: IdxSize,
    reply: &mut Reply,
) -> Result<(), AllocError> {
    reply.indexes.clear();
    reply.answer = table.unmarked_keys(&mut reply.positions, offset, limit.max(1))?;
    Ok(())
}

/// Makes a call; an insertion leaves the reply as it was.
pub fn make_call<T: ChunkedIdxTable, L: Ledger>(
    alloc: Global,
    table: &mut T,
    call: Call<'_>,
    reply: &mut Reply,
    steps: &mut Steps<L>,
) -> Result<(), AllocError> {
    match call {
        Call::Insert(rows) => insert(alloc, table, rows, steps),
        Call::Probe(rows, asked) => probe(alloc, table, rows, asked, reply, steps),
        Call::ProbeSubset(rows, subset, asked) => {
            probe_subset(alloc, table, rows, subset, asked, reply, steps)
        }
        Call::Unmarked { offset, limit } => list_unmarked(table, offset, limit, reply),
    }
}

fn called_from<L: Ledger>(
    alloc: Global,
    calls: &[Call<'_>],
    blank: Blank,
) -> Result<(RowEncodedChunkedIdxTable, Reply), AllocError>
    requires name { blank.name ≡ L.name }
    requires parts { blank.parts ≡ L.parts }
    requires some { 0 < L.parts }
{
    let mut steps = Steps::<L>::new(blank);
    let mut table = RowEncodedChunkedIdxTable::new(alloc, PlRandomState::DEFAULT)?;
    let mut reply = Reply::new(alloc);
    for call in calls {
        make_call(alloc, &mut table, *call, &mut reply, &mut steps)?;
    }
    Ok((table, reply))
}

/// A new table after some calls, and what the last of them replies.
pub fn called(
    alloc: Global,
    calls: &[Call<'_>],
) -> Result<(RowEncodedChunkedIdxTable, Reply), AllocError> {
    called_from::<Brand>(alloc, calls, Blank::new(1))
}
