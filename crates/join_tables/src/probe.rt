//! Probes of the tables, and the pairs that they give.
ghost use Rattle.std.specs.Prelude.{◌≡◌, ℕ, ◌+◌, ◌<◌, ◌≤◌, ◌^◌, Bool, ◌||◌, List as Items, []};
ghost use Rattle.std.specs.Prelude.{◌++◌, IfOk, IfErr, OnOk, OnErr, map, length, get_or, take};
ghost use Rattle.std.specs.List.{flat_map, All};
ghost use Rattle.hash_keys.specs.Keys.{Key};
ghost use Rattle.hash_keys.specs.Views.{keys_of, state_of};
ghost use Rattle.chunked_idx_table.specs.Probes.{joins_any};
ghost use Rattle.join_laws.specs.Partitions.{no_table, AreBelow, AreFronts, TableFits};
ghost use Rattle.join_laws.specs.Partitions.{marked_parts};
ghost use Rattle.join_tables.specs.Tables.{HaveState, StandsFor, StandsForMore, pairs_of};
ghost use Rattle.join_tables.specs.Tables.{ProbeFails};
ghost use Rattle.join_tables.specs.Probing.{found_in, all_found_in, with_rows_marked, MarksFront};

use crate::built::Built;
use crate::deal::{deal, empty_lists};
use crate::error::ProbeError;
use crate::order::in_row_order;
use crate::places::Places;
use crate::plan::TablePlan;
use crate::reply::{Reply, take_reply};
use chunked_idx_table::{ChunkedIdxTable, RowEncodedChunkedIdxTable};
use col_core::List;
use hash_keys::HashKeys;
use join_laws::Pair;
use key_parts::IdxSize;
use std::alloc::Global;
use std::sync::ledger::Ledger;
use step_count::Steps;

/// A morsel's keys, the places of the build rows, and how tables are probed.
#[derive(Drop)]
pub(crate) struct Probing<'a> {
    pub keys: &'a HashKeys,
    pub places: &'a Places,
    pub plan: &'a TablePlan,
}

/// Probes a table for some rows, up to the limit, and appends their pairs. Says how many rows are
/// answered.
fn probe_run<L: Ledger>(
    probing: &Probing,
    partition: usize,
    table: &mut RowEncodedChunkedIdxTable,
    rows: &[IdxSize],
    room: u64,
    reply: &mut Reply,
    pairs: &mut Vec<Pair>,
    steps: &mut Steps<L>,
) -> Result<usize, ProbeError>
    requires same_state { state_of probing.now.keys.now ≡ table.old.state }
    requires inside { All (λ i. i < length (keys_of probing.now.keys.now)) rows.now }
    requires few { length rows.now < 2 ^ 32 }
    requires some { 0 < length rows.now }
    requires fits { TableFits probing.now.places.now partition table.old }
    requires within { length pairs.old.items ≤ room }
    ensures some { IfOk result (λ n. 0 < n) }
    ensures front { IfOk result (λ n. n ≤ length rows.now) }
    ensures pairs { IfOk result (λ n. pairs.new.items ≡ pairs.old.items
        ++ found_in probing.now table.old partition (take n rows.now)) }
    ensures within { OnOk result (length pairs.new.items ≤ room) }
    ensures marked { IfOk result (λ n. table.new
        ≡ with_rows_marked probing.now table.old (take n rows.now)) }
    ensures fails { IfErr result (ProbeFails room (pairs.old.items
        ++ found_in probing.now table.old partition rows.now)) }
    ensures err { OnErr result (MarksFront probing.now table.old rows.now table.new) }
    ensures cost { IfOk result (λ n. steps.new ≤ steps.old + n) }
{
    let taken = table.probe_subset(
        probing.keys,
        rows,
        &mut reply.positions,
        &mut reply.rows,
        true,
        probing.plan.keep_probe,
        probing.plan.limit,
        steps,
    )?;
    if reply.positions.len() as u64 > room - pairs.len() as u64 {
        return Err(ProbeError::TooLarge);
    }
    take_reply(probing.places, partition, reply, pairs)?;
    Ok(taken as usize)
}

/// The pairs of some rows by probes of a table, each under the limit, resumed until no row is left.
fn probe_part<L: Ledger>(
    alloc: Global,
    probing: &Probing,
    partition: usize,
    table: &mut RowEncodedChunkedIdxTable,
    rows: &[IdxSize],
    room: u64,
    steps: &mut Steps<L>,
) -> Result<Vec<Pair>, ProbeError>
    requires same_state { state_of probing.now.keys.now ≡ table.old.state }
    requires inside { All (λ i. i < length (keys_of probing.now.keys.now)) rows.now }
    requires few { length rows.now < 2 ^ 32 }
    requires fits { TableFits probing.now.places.now partition table.old }
    ensures pairs { IfOk result (λ v. v.items
        ≡ found_in probing.now table.old partition rows.now) }
    ensures within { IfOk result (λ v. length v.items ≤ room) }
    ensures marked { OnOk result (table.new
        ≡ with_rows_marked probing.now table.old rows.now) }
    ensures fails { IfErr result (ProbeFails room
        (found_in probing.now table.old partition rows.now)) }
    ensures err { OnErr result (MarksFront probing.now table.old rows.now table.new) }
    ensures cost { OnOk result (steps.new ≤ steps.old + length rows.now) }
{
    let mut pairs = Vec::new(alloc);
    let mut reply = Reply::new(alloc);
    let mut done = 0;
    while done < rows.len() {
        done += probe_run(
            probing,
            partition,
            table,
            &rows[done..],
            room,
            &mut reply,
            &mut pairs,
            steps,
        )?;
    }
    Ok(pairs)
}

/// The pairs of the rows of each partition, at most so many in all.
fn probe_parts<L: Ledger>(
    alloc: Global,
    probing: &Probing,
    tables: &mut List<RowEncodedChunkedIdxTable>,
    lists: &[Vec<IdxSize>],
    most: u64,
    steps: &mut Steps<L>,
) -> Result<Vec<Vec<Pair>>, ProbeError>
    requires one_each { length lists.now ≡ length tables.old }
    requires same_state { HaveState (state_of probing.now.keys.now) tables.old }
    requires inside { AreBelow (length (keys_of probing.now.keys.now))
        (map (λ v. v.items) lists.now) }
    requires few { length (keys_of probing.now.keys.now) < 2 ^ 31 }
    requires fits { (p : ℕ) → TableFits probing.now.places.now p (get_or tables.old p no_table) }
    ensures found { IfOk result (λ v. map (λ q. q.items) v.items
        ≡ all_found_in probing.now tables.old (map (λ v. v.items) lists.now)) }
    ensures within { IfOk result (λ v. length (flat_map (λ q. q.items) v.items) ≤ most) }
    ensures marked { OnOk result (tables.new ≡ marked_parts (keys_of probing.now.keys.now)
        (map (λ v. v.items) lists.now) tables.old) }
    ensures fails { IfErr result (ProbeFails most (flat_map (λ q. q)
        (all_found_in probing.now tables.old (map (λ v. v.items) lists.now)))) }
    ensures err { OnErr result (AreFronts (keys_of probing.now.keys.now)
        (map (λ v. v.items) lists.now) tables.old tables.new) }
    ensures long { length tables.new ≡ length tables.old }
    ensures cost { OnOk result (steps.new
        ≤ steps.old + length (flat_map (λ v. v.items) lists.now)) }
{
    let mut found = Vec::new(alloc);
    let mut room = most;
    for p in 0..lists.len() {
        let pairs = probe_part(
            alloc,
            probing,
            p,
            tables.item_mut(p),
            &lists[p],
            room,
            steps,
        )?;
        room -= pairs.len() as u64;
        found.push(pairs)?;
    }
    Ok(found)
}

/// The pairs of a morsel's rows in their order: each with the build rows that it joins, in build
/// order, or alone where it joins none and the plan keeps it. Each matched key is marked, and the
/// places stay. The tables are probed under the plan's limit, and at most one step a row is taken.
/// After an error some of the keys that the morsel joins may have been marked.
pub fn probe_morsel<L: Ledger>(
    alloc: Global,
    plan: &TablePlan,
    built: &mut Built,
    keys: &HashKeys,
    most: u64,
    steps: &mut Steps<L>,
) -> Result<List<Pair>, ProbeError>
    requires same_state { state_of keys.now ≡ plan.now.state }
    requires few { length (keys_of keys.now) < 2 ^ 31 }
    requires most { most < 2 ^ 32 }
    requires stands { (frames : Items (Items Key)) × (marked : Items ℕ → Bool)
        × StandsFor plan.now frames marked built.old }
    ensures pairs { IfOk result (λ pairs. (frames : Items (Items Key)) (marked : Items ℕ → Bool)
        → StandsFor plan.now frames marked built.old
        → pairs ≡ pairs_of plan.now frames (keys_of keys.now)) }
    ensures within { IfOk result (λ pairs. length pairs ≤ most) }
    ensures marked { OnOk result ((frames : Items (Items Key)) (marked : Items ℕ → Bool)
        → StandsFor plan.now frames marked built.old
        → StandsFor plan.now frames (λ k. marked k || joins_any (keys_of keys.now) k) built.new) }
    ensures places { built.new.places ≡ built.old.places }
    ensures fails { IfErr result (λ e. (frames : Items (Items Key)) (marked : Items ℕ → Bool)
        → StandsFor plan.now frames marked built.old
        → ProbeFails most (pairs_of plan.now frames (keys_of keys.now)) e) }
    ensures err { OnErr result ((frames : Items (Items Key)) (marked : Items ℕ → Bool)
        → StandsFor plan.now frames marked built.old
        → StandsForMore plan.now frames marked (keys_of keys.now) built.new) }
    ensures cost { OnOk result (steps.new ≤ steps.old + length (keys_of keys.now)) }
{
    let mut lists = empty_lists(alloc, plan.partitioner.num_partitions())?;
    deal(keys, &plan.partitioner, &mut lists)?;
    let probing = Probing {
        keys,
        places: &built.places,
        plan,
    };
    let found = probe_parts(alloc, &probing, &mut built.tables, &lists, most, steps)?;
    let pairs = in_row_order(alloc, &plan.partitioner, keys, &found)?;
    Ok(List::from_vec(pairs))
}
