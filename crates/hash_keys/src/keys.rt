//! Keys of rows, whichever way they are kept.
ghost use Rattle.std.specs.Prelude.{◌≡◌, ◌<◌, ◌^◌, ◌==◌, ◌++◌, ◌⊎◌, ℕ, Some, map, length, slice_index, IfOk, IfSome, OnOk, OnErr, option_copied};
ghost use Rattle.std.specs.List.{All, range_with_len};
ghost use Rattle.col_core.specs.Tables.{selected};
ghost use Rattle.key_parts.specs.Hashes.{hash_of};
ghost use Rattle.key_parts.specs.Partitions.{partition_of};
ghost use Rattle.key_parts.specs.Positions.{position};
ghost use Rattle.hash_keys.specs.Dealt.{deals, deals_front, sketched, sketched_front};
ghost use Rattle.hash_keys.specs.Gathered.{count_in, keys_at, numbered};
ghost use Rattle.hash_keys.specs.Keys.{key_at};
ghost use Rattle.hash_keys.specs.Rows.{row_keys};
ghost use Rattle.row_code.specs.Spelling.{IsRowOf};

use crate::row_encoded::RowEncodedKeys;
use col_arrays::IdxSize;
use col_core::Frame;
use key_parts::{CardinalitySketch, ChunkId, HashPartitioner, PlRandomState};
use std::alloc::{AllocError, Global};

/// Keys of rows with their hashes.
#[derive(Debug, Drop)]
pub enum HashKeys {
    /// Each key is the bytes of its row.
    RowEncoded(RowEncodedKeys),
}

impl HashKeys {
    ghost use Rattle.hash_keys.specs.Views.{keys_of, state_of};

    /// The keys of the rows of a frame. A key is null exactly where nulls are not valid and a value
    /// of the row is null. The keys are encoded as rows, forced or not.
    pub fn from_df(
        alloc: Global,
        df: &Frame,
        random_state: PlRandomState,
        null_is_valid: bool,
        _force_row_encoding: bool,
    ) -> Result<HashKeys, AllocError>
        requires few { length df.now.rows < 2 ^ 32 }
        ensures keys { IfOk result (λ k. keys_of k ≡ row_keys null_is_valid df.now) }
        ensures state { IfOk result (λ k. state_of k ≡ random_state) }
        ensures rows { IfOk result (λ _. All (IsRowOf df.now.schema) df.now.rows) }
    {
        let keys = RowEncodedKeys::from_df(alloc, df, random_state, null_is_valid)?;
        Ok(HashKeys::RowEncoded(keys))
    }

    /// The keys of the rows of some columns of a frame, by their places, as `from_df` has them of
    /// all.
    pub fn from_columns(
        alloc: Global,
        df: &Frame,
        places: &[usize],
        random_state: PlRandomState,
        null_is_valid: bool,
    ) -> Result<HashKeys, AllocError>
        requires in_bounds { All (λ i. i < length df.now.schema) places.now }
        requires few { length df.now.rows < 2 ^ 32 }
        ensures keys { IfOk result (λ k. keys_of k ≡ row_keys null_is_valid (selected places.now df.now)) }
        ensures state { IfOk result (λ k. state_of k ≡ random_state) }
        ensures rows { IfOk result (λ _. All (IsRowOf (selected places.now df.now).schema) (selected places.now df.now).rows) }
    {
        let keys = RowEncodedKeys::from_columns(alloc, df, places, random_state, null_is_valid)?;
        Ok(HashKeys::RowEncoded(keys))
    }

    /// The number of keys, nulls among them.
    pub fn len(&self) -> usize
        ensures count { result ≡ length (keys_of self.now) }
        ensures few { result < 2 ^ 32 }
    {
        match self {
            HashKeys::RowEncoded(keys) => keys.len(),
        }
    }

    /// Whether there is no key.
    pub fn is_empty(&self) -> bool
        ensures { result ≡ (length (keys_of self.now) == 0) }
    {
        match self {
            HashKeys::RowEncoded(keys) => keys.is_empty(),
        }
    }

    /// The bytes of a key, or `None` for a null.
    pub fn key(&self, i: usize) -> Option<&[u8]>
        requires { i < length (keys_of self.now) }
        ensures { option_copied result ≡ key_at (keys_of self.now) i }
    {
        match self {
            HashKeys::RowEncoded(keys) => keys.key(i),
        }
    }

    /// The hash of a key. Nothing is said of a null's.
    pub fn hash(&self, i: usize) -> u64
        requires { i < length (keys_of self.now) }
        ensures { IfSome (key_at (keys_of self.now) i) (λ key. result ≡ hash_of (state_of self.now) key) }
    {
        match self {
            HashKeys::RowEncoded(keys) => keys.hash(i),
        }
    }

    /// The state that the keys are hashed under.
    pub fn state(&self) -> PlRandomState
        ensures { result ≡ state_of self.now }
    {
        match self {
            HashKeys::RowEncoded(keys) => keys.state(),
        }
    }

    /// The keys at indexes, in the order of the indexes.
    pub fn gather(&self, alloc: Global, idxs: &[IdxSize]) -> Result<HashKeys, AllocError>
        requires in_bounds { All (λ i. i < length (keys_of self.now)) idxs.now }
        requires few { length idxs.now < 2 ^ 32 }
        ensures keys { IfOk result (λ k. keys_of k ≡ keys_at (keys_of self.now) idxs.now) }
        ensures state { IfOk result (λ k. state_of k ≡ state_of self.now) }
    {
        match self {
            HashKeys::RowEncoded(keys) => Ok(HashKeys::RowEncoded(keys.gather(alloc, idxs)?)),
        }
    }

    /// The rows of each partition, in their order, one list a partition. A null key's row goes to
    /// list 0 where `partition_nulls` says so, and else nowhere. Each sketch takes the hashes of
    /// its partition's present keys. After `Err` the lists and the sketches are those of the first
    /// so many rows.
    pub fn gen_partition_idxs(
        &self,
        partitioner: &HashPartitioner,
        partition_idxs: &mut [Vec<IdxSize>],
        sketches: &mut [CardinalitySketch],
        partition_nulls: bool,
    ) -> Result<(), AllocError>
        requires lists { length partition_idxs.old ≡ partitioner.now.partitions }
        requires sketches { (length sketches.old ≡ 0) ⊎ (length sketches.old ≡ partitioner.now.partitions) }
        ensures lists { OnOk result (map (λ v. v.items) partition_idxs.new ≡ deals (partition_of (state_of self.now) partitioner.now) partition_nulls partitioner.now.partitions (keys_of self.now)) }
        ensures sketches { OnOk result (sketches.new ≡ sketched (partition_of (state_of self.now) partitioner.now) (hash_of (state_of self.now)) sketches.old (keys_of self.now)) }
        ensures err { OnErr result ((n : ℕ) × (n < length (keys_of self.now)) × (map (λ v. v.items) partition_idxs.new ≡ deals_front (partition_of (state_of self.now) partitioner.now) partition_nulls partitioner.now.partitions (keys_of self.now) n) × (sketches.new ≡ sketched_front (partition_of (state_of self.now) partitioner.now) (hash_of (state_of self.now)) sketches.old (keys_of self.now) n)) }
    {
        match self {
            HashKeys::RowEncoded(keys) => {
                if sketches.is_empty() {
                    keys.gen_partition_idxs::<false>(
                        partitioner,
                        partition_idxs,
                        sketches,
                        partition_nulls,
                    )
                } else {
                    keys.gen_partition_idxs::<true>(
                        partitioner,
                        partition_idxs,
                        sketches,
                        partition_nulls,
                    )
                }
            }
        }
    }

    /// Appends positions: key `i` gives the next `gathers_per_key[i]` of its partition, each the
    /// partition and a number in it from 0. A null key has partition 0. After `Err` nothing has
    /// changed.
    pub fn gen_partitioned_gather_idxs(
        &self,
        alloc: Global,
        partitioner: &HashPartitioner,
        gathers_per_key: &[IdxSize],
        gather_idxs: &mut Vec<ChunkId>,
    ) -> Result<(), AllocError>
        requires counts { length gathers_per_key.now ≡ length (keys_of self.now) }
        requires few { (p : ℕ) → count_in (λ i. partition_of (state_of self.now) partitioner.now (key_at (keys_of self.now) i)) (slice_index gathers_per_key.now) p (range_with_len 0 (length (keys_of self.now))) < 2 ^ 32 }
        ensures ok { OnOk result (map position gather_idxs.new.items ≡ map position gather_idxs.old.items ++ map (λ x. Some x) (numbered (λ i. partition_of (state_of self.now) partitioner.now (key_at (keys_of self.now) i)) (slice_index gathers_per_key.now) (range_with_len 0 (length (keys_of self.now))) (λ _. 0))) }
        ensures err { OnErr result (gather_idxs.new.items ≡ gather_idxs.old.items) }
    {
        let keys = self.row_encoded();
        keys.gen_partitioned_gather_idxs(alloc, partitioner, gathers_per_key, gather_idxs)
    }

    /// The keys as the bytes of their rows.
    fn row_encoded(&self) -> &RowEncodedKeys
        ensures keys { result.now.keys ≡ keys_of self.now }
        ensures state { result.now.state ≡ state_of self.now }
    {
        match self {
            HashKeys::RowEncoded(keys) => keys,
        }
    }
}
