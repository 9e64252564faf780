//! The build rows that no probe row has joined.
ghost use Rattle.std.specs.Prelude.{◌≡◌, ℕ, ◌+◌, ◌*◌, ◌<◌, ◌^◌, Bool, List as Items, ◌++◌, Some};
ghost use Rattle.std.specs.Prelude.{IfOk, OnOk, map, length, IsPermutation};
ghost use Rattle.std.specs.List.{flat_map, All};
ghost use Rattle.hash_keys.specs.Keys.{Key};
ghost use Rattle.key_parts.specs.Positions.{Position, position};
ghost use Rattle.chunked_idx_table.specs.Probes.{items};
ghost use Rattle.list_laws.specs.Ascending.{Rises};
ghost use Rattle.join_laws.specs.Partitions.{row_of, InPlaces, TableFits, item_rows, outer_rows};
ghost use Rattle.join_tables.specs.Tables.{StandsFor, part_of};

use crate::built::Built;
use crate::places::Places;
use crate::plan::TablePlan;
use chunked_idx_table::{ChunkedIdxTable, RowEncodedChunkedIdxTable};
use col_core::{List, RowPlace};
use key_parts::{ChunkId, IdxSize};
use std::alloc::{AllocError, Global};

/// Appends the build rows of some positions.
fn take_positions(
    places: &Places,
    partition: usize,
    ids: &[ChunkId],
    rows: &mut Vec<RowPlace>,
) -> Result<(), AllocError>
    requires { (xs : Items Position) × (map position ids.now ≡ map (λ x. Some x) xs)
        × All (InPlaces places.now partition) xs }
    ensures { OnOk result ((xs : Items Position) → map position ids.now ≡ map (λ x. Some x) xs
        → rows.new.items ≡ rows.old.items ++ map (row_of places.now partition) xs) }
{
    for id in ids {
        rows.push(places.build_row(partition, *id))?;
    }
    Ok(())
}

/// Appends the build rows of a table's null rows and unmarked keys.
fn take_unmatched(
    places: &Places,
    partition: usize,
    table: &RowEncodedChunkedIdxTable,
    limit: IdxSize,
    ids: &mut Vec<ChunkId>,
    rows: &mut Vec<RowPlace>,
) -> Result<(), AllocError>
    requires some { 0 < limit }
    requires fits { TableFits places.now partition table.now }
    requires few { length (items table.now) < 2 ^ 32 }
    ensures { OnOk result (rows.new.items
        ≡ rows.old.items ++ item_rows places.now partition table.now) }
{
    let mut done = 0;
    loop {
        let taken = table.unmarked_keys(ids, done, limit)?;
        if taken == 0 {
            return Ok(());
        }
        take_positions(places, partition, ids, rows)?;
        done += taken;
    }
}

/// A number that rises with the build order.
fn place_number(place: RowPlace) -> u64
    ensures { result ≡ place.frame * 4294967296 + place.row }
{
    u64::from(place.frame) * 4_294_967_296 + u64::from(place.row)
}

/// Sorts places into build order.
fn sort_places(places: &mut Vec<RowPlace>)
    ensures same { IsPermutation places.old.items places.new.items }
    ensures rises { Rises (λ p. p.frame * 4294967296 + p.row) places.new.items }
{
    places.sort_unstable_by_key(|place| place_number(*place));
}

/// The build rows of unmarked keys and of null keys, in build order.
pub fn unmatched_rows(
    alloc: Global,
    plan: &TablePlan,
    built: &Built,
) -> Result<List<RowPlace>, AllocError>
    requires some { 0 < plan.now.limit }
    requires stands { (frames : Items (Items Key)) × (marked : Items ℕ → Bool)
        × StandsFor plan.now frames marked built.now
        × (length (flat_map (λ keys. keys) frames) < 2 ^ 31) }
    ensures { IfOk result (λ rows. (frames : Items (Items Key)) (marked : Items ℕ → Bool)
        → StandsFor plan.now frames marked built.now
        → length (flat_map (λ keys. keys) frames) < 2 ^ 31
        → rows ≡ outer_rows (part_of plan.now) frames marked) }
{
    let _partitions = plan.partitioner.num_partitions();
    let mut rows = Vec::new(alloc);
    let mut ids = Vec::new(alloc);
    for (p, table) in built.tables.as_slice().iter().enumerate() {
        take_unmatched(&built.places, p, table, plan.limit, &mut ids, &mut rows)?;
    }
    sort_places(&mut rows);
    Ok(List::from_vec(rows))
}
