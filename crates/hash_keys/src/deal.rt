//! Rows dealt to the partitions of their keys.
ghost use Rattle.std.specs.Prelude.{◌≡◌, ◌<◌, ◌≤◌, ◌==◌, ℕ, Bool, List, [], ◌∷◌, ◌++◌, cond, map, length, slice_index_or, OnOk, OnErr, IsTrue};
ghost use Rattle.key_parts.specs.Hashes.{hash_of};
ghost use Rattle.key_parts.specs.Partitions.{partition_of};
ghost use Rattle.key_parts.specs.Sketches.{with_hashes};
ghost use Rattle.hash_keys.specs.Keys.{key_at};
ghost use Rattle.hash_keys.specs.Dealt.{goes_to, deals, deals_front, hash_in, sketched, sketched_front};

use crate::row_encoded::RowEncodedKeys;
use col_arrays::IdxSize;
use key_parts::{CardinalitySketch, HashPartitioner};
use std::alloc::AllocError;

impl RowEncodedKeys {
    /// The rows of each partition, in their order, one list a partition. A null key's row goes to
    /// list 0 where `partition_nulls` says so, and else nowhere. With `BUILD_SKETCHES` the sketch of
    /// a partition takes the hashes of its present keys; without it no sketch is touched. After
    /// `Err` the lists and the sketches are those of the first so many rows.
    pub fn gen_partition_idxs<const BUILD_SKETCHES: bool>(
        &self,
        partitioner: &HashPartitioner,
        partition_idxs: &mut [Vec<IdxSize>],
        sketches: &mut [CardinalitySketch],
        partition_nulls: bool,
    ) -> Result<(), AllocError>
        requires lists { length partition_idxs.old ≡ partitioner.now.partitions }
        requires sketches { IsTrue BUILD_SKETCHES → length sketches.old ≡ partitioner.now.partitions }
        ensures lists { OnOk result (map (λ v. v.items) partition_idxs.new ≡ deals (partition_of self.now.state partitioner.now) partition_nulls partitioner.now.partitions self.now.keys) }
        ensures sketches { OnOk result (sketches.new ≡ cond BUILD_SKETCHES (sketched (partition_of self.now.state partitioner.now) (hash_of self.now.state) sketches.old self.now.keys) sketches.old) }
        ensures err { OnErr result ((n : ℕ) × (n < length self.now.keys) × (map (λ v. v.items) partition_idxs.new ≡ deals_front (partition_of self.now.state partitioner.now) partition_nulls partitioner.now.partitions self.now.keys n) × (sketches.new ≡ cond BUILD_SKETCHES (sketched_front (partition_of self.now.state partitioner.now) (hash_of self.now.state) sketches.old self.now.keys n) sketches.old)) }
    {
        self.deal_rows(
            partitioner,
            partition_idxs,
            sketches,
            partition_nulls,
            BUILD_SKETCHES,
        )
    }

    /// Deals the rows one after the other.
    fn deal_rows(
        &self,
        partitioner: &HashPartitioner,
        partition_idxs: &mut [Vec<IdxSize>],
        sketches: &mut [CardinalitySketch],
        partition_nulls: bool,
        build_sketches: bool,
    ) -> Result<(), AllocError>
        requires lists { length partition_idxs.old ≡ partitioner.now.partitions }
        requires sketches { IsTrue build_sketches → length sketches.old ≡ partitioner.now.partitions }
        ensures lists { OnOk result (map (λ v. v.items) partition_idxs.new ≡ deals (partition_of self.now.state partitioner.now) partition_nulls partitioner.now.partitions self.now.keys) }
        ensures sketches { OnOk result (sketches.new ≡ cond build_sketches (sketched (partition_of self.now.state partitioner.now) (hash_of self.now.state) sketches.old self.now.keys) sketches.old) }
        ensures err { OnErr result ((n : ℕ) × (n < length self.now.keys) × (map (λ v. v.items) partition_idxs.new ≡ deals_front (partition_of self.now.state partitioner.now) partition_nulls partitioner.now.partitions self.now.keys n) × (sketches.new ≡ cond build_sketches (sketched_front (partition_of self.now.state partitioner.now) (hash_of self.now.state) sketches.old self.now.keys n) sketches.old)) }
    {
        clear_lists(partition_idxs);
        for i in 0..self.len() {
            self.deal_row(
                partitioner,
                i,
                partition_idxs,
                sketches,
                partition_nulls,
                build_sketches,
            )?;
        }
        Ok(())
    }

    /// Deals a row. After `Err` nothing has changed.
    fn deal_row(
        &self,
        partitioner: &HashPartitioner,
        i: usize,
        partition_idxs: &mut [Vec<IdxSize>],
        sketches: &mut [CardinalitySketch],
        partition_nulls: bool,
        build_sketches: bool,
    ) -> Result<(), AllocError>
        requires in_bounds { i < length self.now.keys }
        requires lists { length partition_idxs.old ≡ partitioner.now.partitions }
        requires sketches { IsTrue build_sketches → length sketches.old ≡ partitioner.now.partitions }
        ensures lists { OnOk result ((p : ℕ) → slice_index_or (map (λ v. v.items) partition_idxs.new) p [] ≡ slice_index_or (map (λ v. v.items) partition_idxs.old) p [] ++ cond (goes_to (partition_of self.now.state partitioner.now) partition_nulls p (key_at self.now.keys i)) (i ∷ []) []) }
        ensures sketches { OnOk result ((p : ℕ) → slice_index_or sketches.new p [] ≡ with_hashes (slice_index_or sketches.old p []) (cond build_sketches (hash_in (partition_of self.now.state partitioner.now) (hash_of self.now.state) p (key_at self.now.keys i)) [])) }
        ensures err { OnErr result (map (λ v. v.items) partition_idxs.new ≡ map (λ v. v.items) partition_idxs.old) }
        ensures untouched { OnErr result (sketches.new ≡ sketches.old) }
    {
        let _few = self.len();
        let partition = self.partition(partitioner, i);
        match self.key(i) {
            Some(_) => {
                push_row(partition_idxs, partition, i as IdxSize)?;
                if build_sketches {
                    let hash = self.hash(i);
                    insert_hash(sketches, partition, hash);
                }
            }
            None => {
                if partition_nulls {
                    push_row(partition_idxs, partition, i as IdxSize)?;
                }
            }
        }
        Ok(())
    }

    /// The partition of a key, or 0 of a null.
    #[tactic(auto, unfolding(key_parts::specs::Partitions::partition_of))]
    pub(crate) fn partition(&self, partitioner: &HashPartitioner, i: usize) -> usize
        requires { i < length self.now.keys }
        ensures partition { result ≡ partition_of self.now.state partitioner.now (key_at self.now.keys i) }
        ensures below { result < partitioner.now.partitions }
    {
        match self.key(i) {
            Some(_) => partitioner.hash_to_partition(self.hash(i)),
            None => {
                let _some = partitioner.num_partitions();
                0
            }
        }
    }
}

/// Empties each list.
pub fn clear_lists(lists: &mut [Vec<IdxSize>])
    ensures { (p : ℕ) → slice_index_or (map (λ v. v.items) lists.new) p [] ≡ [] }
{
    for list in lists.iter_mut() {
        list.clear();
    }
}

/// Appends a row to the list of a partition. After `Err` nothing has changed.
pub fn push_row(
    lists: &mut [Vec<IdxSize>],
    partition: usize,
    row: IdxSize,
) -> Result<(), AllocError>
    requires { partition < length lists.old }
    ensures ok { OnOk result ((p : ℕ) → slice_index_or (map (λ v. v.items) lists.new) p [] ≡ slice_index_or (map (λ v. v.items) lists.old) p [] ++ cond (partition == p) (row ∷ []) []) }
    ensures err { OnErr result (map (λ v. v.items) lists.new ≡ map (λ v. v.items) lists.old) }
{
    lists[partition].push(row)?;
    Ok(())
}

/// Takes a hash into the sketch of a partition.
pub fn insert_hash(sketches: &mut [CardinalitySketch], partition: usize, hash: u64)
    requires { partition < length sketches.old }
    ensures { (p : ℕ) → slice_index_or sketches.new p [] ≡ with_hashes (slice_index_or sketches.old p []) (cond (partition == p) (hash ∷ []) []) }
{
    sketches[partition].insert(hash);
}
