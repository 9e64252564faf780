//! What tables tell of themselves.
use crate::calls::{Call, called};
use chunked_idx_table::{ChunkedIdxTable, new_chunked_idx_table};
use col_core::Schema;
use key_parts::{ChunkId, PlRandomState};
use std::alloc::{AllocError, Global};
use std::test::Fail;

#[test]
fn empty_tables(rt: HostRuntime) -> Result<(), Fail> {
    let state = PlRandomState { seed: 1, mask: 2 };
    let table = new_chunked_idx_table(rt.alloc(), &Schema::new(rt.alloc()), state)?;
    let mut empty = table.new_empty(rt.alloc())?;
    empty.reserve(3)?;
    assert_eq!(rt; empty.num_keys(), 0);
    assert_eq!(rt; empty.num_null_rows(), 0);
    assert_eq!(rt; empty.num_chunks(), 0);
    assert!(rt; empty.state() == state);
    Ok(())
}

/// Whether key `i` is a number at some words, which are not marked.
fn is_key_at<T: ChunkedIdxTable>(table: &T, i: u32, number: u32, words: &[u64]) -> bool {
    i < table.num_keys()
        && table.key(i) == number.to_le_bytes().as_slice()
        && table.positions(i) == words
        && !table.is_marked(i)
}

fn tells_rows(alloc: Global) -> Result<bool, AllocError> {
    let chunks = [
        Call::Insert(&[Some(2), None, Some(1)]),
        Call::Insert(&[Some(2)]),
    ];
    let (table, _reply) = called(alloc, &chunks)?;
    Ok(
        table.num_chunks() == 2
            && table.num_keys() == 2
            && is_key_at(&table, 0, 2, &[0, 1])
            && is_key_at(&table, 1, 1, &[0x2_0000_0000])
            && table.num_null_rows() == 1
            && table.null_rows() == [ChunkId::store(0, 1)].as_slice(),
    )
}

#[test]
fn rows_by_key(rt: HostRuntime) -> Result<(), Fail> {
    assert!(rt; tells_rows(rt.alloc())?);
    Ok(())
}
