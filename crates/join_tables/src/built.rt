//! The tables of the build side, one a partition.
ghost use Rattle.std.specs.Prelude.{◌≡◌, ℕ, ◌+◌, ◌<◌, ◌≤◌, ◌^◌, [], IfOk, OnOk, map, length};
ghost use Rattle.std.specs.Prelude.{get_or, replicate};
ghost use Rattle.std.specs.List.{All, flat_map};
ghost use Rattle.hash_keys.specs.Views.{keys_of, state_of};
ghost use Rattle.chunked_idx_table.specs.Tables.{empty_table};
ghost use Rattle.join_laws.specs.Partitions.{no_table, with_parts, AreBelow, HasRoom, unmarked};
ghost use Rattle.join_tables.specs.Tables.{StandsFor, HaveState};

use crate::deal::{deal, empty_lists};
use crate::places::{FramePlaces, Places};
use crate::plan::TablePlan;
use chunked_idx_table::{ChunkedIdxTable, RowEncodedChunkedIdxTable};
use col_core::List;
use hash_keys::HashKeys;
use key_parts::{IdxSize, PlRandomState};
use std::alloc::{AllocError, Global};
use std::sync::ledger::Ledger;
use step_count::Steps;

/// The tables of the build side, one a partition, and where their rows stand.
#[derive(Drop)]
pub struct Built {
    /// The table of each partition. A position's chunk is the number of a build frame, its row the
    /// number of a row among those of the frame that are of the partition.
    pub tables: List<RowEncodedChunkedIdxTable>,
    /// The build row of each position.
    pub places: Places,
}

/// Tables without a row, one a partition.
fn empty_tables(
    alloc: Global,
    state: PlRandomState,
    count: usize,
) -> Result<List<RowEncodedChunkedIdxTable>, AllocError>
    ensures { IfOk result (λ v. v ≡ replicate count (empty_table state)) }
{
    let mut tables = Vec::new(alloc);
    for _i in 0..count {
        tables.push(RowEncodedChunkedIdxTable::new(alloc, state)?)?;
    }
    Ok(List::from_vec(tables))
}

/// Takes the keys of a frame, each into the table of its partition.
fn insert_parts<L: Ledger>(
    alloc: Global,
    keys: &HashKeys,
    lists: &[Vec<IdxSize>],
    tables: &mut List<RowEncodedChunkedIdxTable>,
    steps: &mut Steps<L>,
) -> Result<(), AllocError>
    requires one_each { length lists.now ≡ length tables.old }
    requires inside { AreBelow (length (keys_of keys.now)) (map (λ v. v.items) lists.now) }
    requires room { (p : ℕ) → HasRoom (length (keys_of keys.now)) (get_or tables.old p no_table) }
    requires same_state { HaveState (state_of keys.now) tables.old }
    ensures ok { OnOk result (tables.new
        ≡ with_parts (keys_of keys.now) (map (λ v. v.items) lists.now) tables.old) }
    ensures cost { OnOk result (steps.new
        ≤ steps.old + length (flat_map (λ v. v.items) lists.now)) }
{
    for p in 0..lists.len() {
        let part = keys.gather(alloc, &lists[p])?;
        tables.item_mut(p).insert_key_chunk(part, true, steps)?;
    }
    Ok(())
}

/// The tables of the build side, unmarked: one a partition of the plan, with the plan's state. The
/// null keys are tracked in table 0. At most one step a build row is taken.
pub fn build_tables<L: Ledger>(
    alloc: Global,
    plan: &TablePlan,
    frames: &[HashKeys],
    steps: &mut Steps<L>,
) -> Result<Built, AllocError>
    requires same_state { All (λ keys. state_of keys ≡ plan.now.state) frames.now }
    requires few_frames { length frames.now < 2 ^ 31 }
    requires few_rows { length (flat_map keys_of frames.now) < 2 ^ 31 }
    ensures stands { IfOk result (λ built.
        StandsFor plan.now (map keys_of frames.now) unmarked built) }
    ensures cost { OnOk result (steps.new ≤ steps.old + length (flat_map keys_of frames.now)) }
{
    let partitions = plan.partitioner.num_partitions();
    let mut tables = empty_tables(alloc, plan.state, partitions)?;
    let mut lists = empty_lists(alloc, partitions)?;
    let mut places = Places::new(alloc);
    for keys in frames {
        deal(keys, &plan.partitioner, &mut lists)?;
        places.push(FramePlaces::new(alloc, &lists)?)?;
        insert_parts(alloc, keys, &lists, &mut tables, steps)?;
    }
    Ok(Built { tables, places })
}
