//! Many rows of one key, many null rows, and many keys of one hash, each under a limit of 1.
ghost use Rattle.std.specs.Prelude.{◌≡◌, ◌<◌};

use crate::calls::{Asked, Call, Reply, Row, called, list_unmarked, make_call};
use chunked_idx_table::RowEncodedChunkedIdxTable;
use key_parts::{ChunkId, IdxSize, PlRandomState};
use std::alloc::{AllocError, Global};
use std::marker::Brand;
use std::sync::ledger::{Blank, Ledger};
use std::test::Fail;
use step_count::Steps;

const SINGLE: Asked = Asked {
    marks: false,
    emit: false,
    limit: 1,
};

fn repeated(alloc: Global, row: Row, count: u32) -> Result<Vec<Row>, AllocError> {
    let mut rows = Vec::new(alloc);
    for _i in 0..count {
        rows.push(row)?;
    }
    Ok(rows)
}

/// Whether the reply has the rows of chunk 0 in order, so many, beside index 0.
fn has_all(reply: &Reply, count: u32) -> bool {
    for i in 0..count {
        let at = i as usize;
        if at >= reply.positions.len() || reply.positions[at] != ChunkId::store(0, i) {
            return false;
        }
        if at >= reply.indexes.len() || reply.indexes[at] != 0 {
            return false;
        }
    }
    reply.positions.len() == count as usize && reply.indexes.len() == count as usize
}

fn one_key(alloc: Global) -> Result<bool, AllocError> {
    let rows = repeated(alloc, Some(7), 70_000)?;
    let probe = Call::Probe(&[Some(7)], SINGLE);
    let (_table, reply) = called(alloc, &[Call::Insert(&rows), probe])?;
    Ok(has_all(&reply, 70_000) && reply.answer == 1)
}

#[test]
fn matches_of_one_key_are_not_cut(rt: HostRuntime) -> Result<(), Fail> {
    assert!(rt; one_key(rt.alloc())?);
    Ok(())
}

/// Whether the reply is the position of a row of chunk 0, and answers 1.
fn is_single(reply: &Reply, row: IdxSize) -> bool {
    reply.positions.as_slice() == [ChunkId::store(0, row)].as_slice() && reply.answer == 1
}

fn null_rows(alloc: Global) -> Result<bool, AllocError> {
    let rows = repeated(alloc, None, 1000)?;
    let (table, mut reply) = called(alloc, &[Call::Insert(&rows)])?;
    for offset in 0..1000 {
        list_unmarked(&table, offset, 1, &mut reply)?;
        if !is_single(&reply, offset) {
            return Ok(false);
        }
    }
    list_unmarked(&table, 1000, 1, &mut reply)?;
    Ok(reply.positions.is_empty() && reply.answer == 0)
}

#[test]
fn null_rows_resumed(rt: HostRuntime) -> Result<(), Fail> {
    assert!(rt; null_rows(rt.alloc())?);
    Ok(())
}

/// The numbers below 1,000, as rows, upward and downward, and as indexes.
#[derive(Drop)]
struct Numbers {
    upward: Vec<Row>,
    downward: Vec<Row>,
    indexes: Vec<IdxSize>,
}

fn thousand(alloc: Global) -> Result<Numbers, AllocError> {
    let mut upward = Vec::new(alloc);
    let mut downward = Vec::new(alloc);
    let mut indexes = Vec::new(alloc);
    for i in 0..1000u32 {
        upward.push(Some(i))?;
        downward.push(Some(999 - i))?;
        indexes.push(i)?;
    }
    Ok(Numbers {
        upward,
        downward,
        indexes,
    })
}

/// The probe of the rows from an index on, or of all of them where there is no row before or none
/// after.
fn rest(numbers: &Numbers, from: usize) -> Call<'_> {
    if from == 0 || from >= numbers.indexes.len() {
        return Call::Probe(&numbers.downward, SINGLE);
    }
    Call::ProbeSubset(&numbers.downward, &numbers.indexes[from..], SINGLE)
}

fn one_hash_from<L: Ledger>(alloc: Global, blank: Blank) -> Result<bool, AllocError>
    requires name { blank.name ≡ L.name }
    requires parts { blank.parts ≡ L.parts }
    requires some { 0 < L.parts }
{
    let mut steps = Steps::<L>::new(blank);
    let state = PlRandomState {
        seed: PlRandomState::DEFAULT_SEED,
        mask: 0,
    };
    let mut table = RowEncodedChunkedIdxTable::new(alloc, state)?;
    let mut reply = Reply::new(alloc);
    let numbers = thousand(alloc)?;
    let chunk = Call::Insert(&numbers.upward);
    make_call(alloc, &mut table, chunk, &mut reply, &mut steps)?;
    for i in 0..1000u32 {
        let call = rest(&numbers, i as usize);
        make_call(alloc, &mut table, call, &mut reply, &mut steps)?;
        if !is_single(&reply, 999 - i) || reply.indexes.as_slice() != [i].as_slice() {
            return Ok(false);
        }
    }
    Ok(true)
}

fn one_hash(alloc: Global) -> Result<bool, AllocError> {
    one_hash_from::<Brand>(alloc, Blank::new(1))
}

#[test]
fn keys_of_one_hash_resumed(rt: HostRuntime) -> Result<(), Fail> {
    assert!(rt; one_hash(rt.alloc())?);
    Ok(())
}
