//! Keys at places, and what stands by partition taken back in the order of the keys.
ghost use Rattle.std.specs.Prelude.{◌≡◌, ◌<◌, ◌≤◌, ◌^◌, ◌+◌, ℕ, Some, [], ◌∷◌, ◌++◌, map, take, length, slice_index, slice_index_or, replicate, IfOk, OnOk, OnErr};
ghost use Rattle.std.specs.List.{range_with_len};
ghost use Rattle.key_parts.specs.Partitions.{partition_of};
ghost use Rattle.key_parts.specs.Positions.{position};
ghost use Rattle.hash_keys.specs.Keys.{key_at};
ghost use Rattle.hash_keys.specs.Gathered.{count_in, numbered, positions_from};

use crate::row_encoded::RowEncodedKeys;
use col_arrays::IdxSize;
use key_parts::{ChunkId, HashPartitioner};
use std::alloc::{AllocError, Global};

impl RowEncodedKeys {
    /// Appends positions: key `i` gives the next `gathers_per_key[i]` of its partition, each the
    /// partition and a number in it from 0. A null key has partition 0. After `Err` nothing has
    /// changed.
    pub fn gen_partitioned_gather_idxs(
        &self,
        alloc: Global,
        partitioner: &HashPartitioner,
        gathers_per_key: &[IdxSize],
        gather_idxs: &mut Vec<ChunkId>,
    ) -> Result<(), AllocError>
        requires counts { length gathers_per_key.now ≡ length self.now.keys }
        requires few { (p : ℕ) → count_in (λ i. partition_of self.now.state partitioner.now (key_at self.now.keys i)) (slice_index gathers_per_key.now) p (range_with_len 0 (length self.now.keys)) < 2 ^ 32 }
        ensures ok { OnOk result (map position gather_idxs.new.items ≡ map position gather_idxs.old.items ++ map (λ x. Some x) (numbered (λ i. partition_of self.now.state partitioner.now (key_at self.now.keys i)) (slice_index gathers_per_key.now) (range_with_len 0 (length self.now.keys)) (λ _. 0))) }
        ensures err { OnErr result (gather_idxs.new.items ≡ gather_idxs.old.items) }
    {
        let kept = gather_idxs.len();
        let gathered = self.push_gathers(alloc, partitioner, gathers_per_key, gather_idxs);
        if gathered.is_err() {
            gather_idxs.truncate(kept);
        }
        gathered
    }

    /// Appends the positions. After `Err` some of them may stand behind what was there.
    fn push_gathers(
        &self,
        alloc: Global,
        partitioner: &HashPartitioner,
        gathers_per_key: &[IdxSize],
        gather_idxs: &mut Vec<ChunkId>,
    ) -> Result<(), AllocError>
        requires counts { length gathers_per_key.now ≡ length self.now.keys }
        requires few { (p : ℕ) → count_in (λ i. partition_of self.now.state partitioner.now (key_at self.now.keys i)) (slice_index gathers_per_key.now) p (range_with_len 0 (length self.now.keys)) < 2 ^ 32 }
        ensures ok { OnOk result (map position gather_idxs.new.items ≡ map position gather_idxs.old.items ++ map (λ x. Some x) (numbered (λ i. partition_of self.now.state partitioner.now (key_at self.now.keys i)) (slice_index gathers_per_key.now) (range_with_len 0 (length self.now.keys)) (λ _. 0))) }
        ensures kept { take (length gather_idxs.old.items) gather_idxs.new.items ≡ gather_idxs.old.items }
    {
        let mut next = vec![in alloc; 0u32; partitioner.num_partitions()]?;
        for i in 0..self.len() {
            let partition = self.partition(partitioner, i);
            let start = next[partition];
            let count = gathers_per_key[i];
            push_positions(gather_idxs, partition as IdxSize, start, count)?;
            next[partition] = start + count;
        }
        Ok(())
    }
}

/// Appends so many positions of a partition, from a number on.
fn push_positions(
    gather_idxs: &mut Vec<ChunkId>,
    partition: IdxSize,
    start: IdxSize,
    count: IdxSize,
) -> Result<(), AllocError>
    requires partition { partition < 65536 }
    requires few { start + count < 2 ^ 32 }
    ensures ok { OnOk result (map position gather_idxs.new.items ≡ map position gather_idxs.old.items ++ map (λ x. Some x) (positions_from partition start count)) }
    ensures kept { take (length gather_idxs.old.items) gather_idxs.new.items ≡ gather_idxs.old.items }
{
    for j in 0..count {
        gather_idxs.push(ChunkId::store(partition, start + j))?;
    }
    Ok(())
}
