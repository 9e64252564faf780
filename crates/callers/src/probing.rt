//! A caller of the probe table.
ghost use Rattle.std.specs.Prelude.{◌≡◌, ◌<◌, ◌^◌, false, true, map, length, IfOk, OnOk};
ghost use Rattle.std.specs.List.{All, flat_map};
ghost use Rattle.key_parts.specs.Positions.{position};
ghost use Rattle.hash_keys.specs.Views.{keys_of, state_of};
ghost use Rattle.chunked_idx_table.specs.Tables.{empty_table};
ghost use Rattle.chunked_idx_table.specs.Inserts.{with_chunk};
ghost use Rattle.chunked_idx_table.specs.Probes.{row_matches};

use chunked_idx_table::{ChunkedIdxTable, RowEncodedChunkedIdxTable};
use hash_keys::HashKeys;
use key_parts::{ChunkId, IdxSize};
use std::alloc::{AllocError, Global};
use std::sync::ledger::Ledger;
use step_count::Steps;

/// A table of the rows of one chunk, those of null keys too.
pub fn table_of<L: Ledger>(
    alloc: Global,
    keys: HashKeys,
    steps: &mut Steps<L>,
) -> Result<RowEncodedChunkedIdxTable, AllocError>
    requires { length (keys_of keys) < 2 ^ 31 }
    ensures { IfOk result (λ t. t ≡ with_chunk true (empty_table (state_of keys)) (keys_of keys)) }
{
    let mut table = RowEncodedChunkedIdxTable::new(alloc, keys.state())?;
    table.insert_key_chunk(keys, true, steps)?;
    Ok(table)
}

/// The positions that some rows join, in the order of the rows. Each probe stops at the limit, and
/// the next one goes on where it stopped. Nothing is marked.
pub fn all_matches<L: Ledger>(
    alloc: Global,
    table: &mut RowEncodedChunkedIdxTable,
    keys: &HashKeys,
    rows: &[IdxSize],
    limit: IdxSize,
    steps: &mut Steps<L>,
) -> Result<Vec<ChunkId>, AllocError>
    requires same_state { state_of keys.now ≡ table.old.state }
    requires inside { All (λ i. i < length (keys_of keys.now)) rows.now }
    requires few { length rows.now < 2 ^ 32 }
    ensures matches { IfOk result (λ v. map position v.items
        ≡ flat_map (row_matches table.old (keys_of keys.now) false) rows.now) }
    ensures unmarked { OnOk result (table.new ≡ table.old) }
{
    let mut matches = Vec::new(alloc);
    let mut reply = Vec::new(alloc);
    let mut reply_rows = Vec::new(alloc);
    let mut done = 0;
    while done < rows.len() {
        let left = &rows[done..];
        let (mark, keep) = (false, false);
        done += table.probe_subset(
            keys,
            left,
            &mut reply,
            &mut reply_rows,
            mark,
            keep,
            limit,
            steps,
        )? as usize;
        matches.extend_from_slice(&reply)?;
    }
    Ok(matches)
}
