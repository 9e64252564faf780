//! A grouper whose keys are the bytes of their rows.
ghost use Rattle.std.specs.Prelude.{◌≡◌, ◌+◌, ◌<◌, ◌⊎◌, ◌^◌, ◌++◌, [], ◌∷◌, Some, IfOk, OnOk, OnErr};
ghost use Rattle.std.specs.Prelude.{ℕ, map, cond, false, length, slice_get, slice_index_or, bytes_eq};
ghost use Rattle.key_parts.specs.Hashes.{hash_of};
ghost use Rattle.key_parts.specs.Partitions.{partition_of};
ghost use Rattle.key_parts.specs.Sketches.{with_hashes};
ghost use Rattle.hash_keys.specs.Dealt.{goes_to, hash_in};
ghost use Rattle.row_code.specs.Spelling.{IsSpelling};
ghost use Rattle.list_laws.specs.Distinct.{with_new};
ghost use Rattle.key_groups.specs.Groups.{no_groups, key_at};
ghost use Rattle.key_groups.specs.Taken.{index_in};

use crate::grouper::Grouper;
use byte_map::{BytesIndexMap, Found};
use col_core::{Frame, Schema};
use hash_keys::{HashKeys, clear_lists, insert_hash, push_row};
use key_parts::{CardinalitySketch, HashPartitioner, IdxSize, PlRandomState};
use row_code::RowDecoder;
use std::alloc::{AllocError, Global};
use std::marker::Model;
use std::sync::ledger::Ledger;
use step_count::Steps;

/// A grouper over a map from key bytes.
#[derive(Drop)]
pub struct RowEncodedHashGrouper {
    key_schema: Schema,
    random_state: PlRandomState,
    known: BytesIndexMap<()>,
}

impl Model for RowEncodedHashGrouper {
    ghost use Rattle.byte_map.specs.Entries.{keys_of};
    ghost use Rattle.key_groups.specs.Groups.{KeyGroups};
    ghost use Rattle.key_groups.specs.Kept.{AreKept};

    ghost Value = { KeyGroups };

    ghost view = { λ g. record {
      keys = keys_of g.known.entries;
      schema = g.key_schema;
      state = g.random_state;
    } };

    ghost invariant = { λ g. AreKept g.key_schema g.random_state g.known.entries };
}

/// A grouper without keys, under a schema of at least one field.
pub fn new_hash_grouper(
    alloc: Global,
    key_schema: Schema,
    random_state: PlRandomState,
) -> Result<RowEncodedHashGrouper, AllocError>
    requires { 0 < length key_schema }
    ensures { IfOk result (λ g. g ≡ no_groups key_schema random_state) }
{
    RowEncodedHashGrouper::new(alloc, key_schema, random_state)
}

impl RowEncodedHashGrouper {
    /// A grouper without keys, under a schema of at least one field.
    pub fn new(
        alloc: Global,
        key_schema: Schema,
        random_state: PlRandomState,
    ) -> Result<Self, AllocError>
        requires { 0 < length key_schema }
        ensures { IfOk result (λ g. g ≡ no_groups key_schema random_state) }
    {
        Ok(RowEncodedHashGrouper {
            key_schema,
            random_state,
            known: BytesIndexMap::new(alloc)?,
        })
    }

    /// A key and its hash.
    fn hashed_key(&self, i: IdxSize) -> (u64, &[u8])
        requires { i < length self.now.keys }
        ensures key { result.1.now ≡ key_at self.now.keys i }
        ensures hash { result.0 ≡ hash_of self.now.state result.1.now }
        ensures spelled { IsSpelling self.now.schema result.1.now }
    {
        self.known.key_at(i)
    }

    /// The index of a key, which is added where it is new. After `Err` nothing has changed.
    fn find_or_add<L: Ledger>(
        &mut self,
        hash: u64,
        key: &[u8],
        steps: &mut Steps<L>,
    ) -> Result<IdxSize, AllocError>
        requires hashed { hash ≡ hash_of self.old.state key.now }
        requires spelled { IsSpelling self.old.schema key.now }
        requires few { length (with_new bytes_eq self.old.keys key.now) < 2 ^ 32 }
        ensures ok { OnOk result (self.new
            ≡ record self.old { keys = with_new bytes_eq self.old.keys key.now }) }
        ensures index { IfOk result (λ i. i ≡ index_in bytes_eq self.new.keys key.now) }
        ensures err { OnErr result (self.new ≡ self.old) }
        ensures cost { steps.new ≡ steps.old + 1 }
    {
        match self.known.find_or_push(hash, key, (), steps) {
            Ok(Found::Old(i, _)) => return Ok(i),
            Ok(Found::New(i)) => return Ok(i),
            Err(_) => Err(AllocError),
        }
    }

    /// A key comes, and its index is put at the end. After `Err` nothing has changed.
    fn take_key<L: Ledger>(
        &mut self,
        hash: u64,
        key: &[u8],
        group_idxs: &mut Vec<IdxSize>,
        steps: &mut Steps<L>,
    ) -> Result<(), AllocError>
        requires hashed { hash ≡ hash_of self.old.state key.now }
        requires spelled { IsSpelling self.old.schema key.now }
        requires few { length (with_new bytes_eq self.old.keys key.now) < 2 ^ 32 }
        ensures ok { OnOk result (self.new
            ≡ record self.old { keys = with_new bytes_eq self.old.keys key.now }) }
        ensures index { OnOk result (group_idxs.new.items
            ≡ group_idxs.old.items ++ index_in bytes_eq self.new.keys key.now ∷ []) }
        ensures cost { OnOk result (steps.new ≡ steps.old + 1) }
        ensures err { OnErr result (self.new ≡ self.old) }
        ensures err_indexes { OnErr result (group_idxs.new.items ≡ group_idxs.old.items) }
        ensures err_cost { OnErr result ((steps.new ≡ steps.old) ⊎ (steps.new ≡ steps.old + 1)) }
    {
        group_idxs.reserve(1)?;
        let index = self.find_or_add(hash, key, steps)?;
        group_idxs.push_reserved(index);
        Ok(())
    }

    /// Deals a key. After `Err` nothing has changed.
    fn deal_key(
        &self,
        partitioner: &HashPartitioner,
        i: IdxSize,
        partition_idxs: &mut [Vec<IdxSize>],
        sketches: &mut [CardinalitySketch],
    ) -> Result<(), AllocError>
        requires in_bounds { i < length self.now.keys }
        requires lists { length partition_idxs.old ≡ partitioner.now.partitions }
        requires sketches { (length sketches.old ≡ 0)
            ⊎ (length sketches.old ≡ partitioner.now.partitions) }
        ensures lists { OnOk result ((p : ℕ) → slice_index_or (map (λ v. v.items)
            partition_idxs.new) p []
            ≡ slice_index_or (map (λ v. v.items) partition_idxs.old) p []
            ++ cond (goes_to (partition_of self.now.state partitioner.now) false p
            (Some (key_at self.now.keys i))) (i ∷ []) []) }
        ensures sketches { OnOk result ((p : ℕ) → p < length sketches.old
            → slice_index_or sketches.new p []
            ≡ with_hashes (slice_index_or sketches.old p [])
            (hash_in (partition_of self.now.state partitioner.now) (hash_of self.now.state) p
            (Some (key_at self.now.keys i)))) }
        ensures err { OnErr result (map (λ v. v.items) partition_idxs.new
            ≡ map (λ v. v.items) partition_idxs.old) }
        ensures untouched { OnErr result (sketches.new ≡ sketches.old) }
    {
        let (hash, _key) = self.hashed_key(i);
        let partition = partitioner.hash_to_partition(hash);
        push_row(partition_idxs, partition, i)?;
        if !sketches.is_empty() {
            insert_hash(sketches, partition, hash);
        }
        Ok(())
    }
}

impl Grouper for RowEncodedHashGrouper {
    ghost seen = { λ g. g };

    fn new_empty(&self, alloc: Global) -> Result<Self, AllocError> {
        let key_schema = self.key_schema.try_clone(alloc)?;
        RowEncodedHashGrouper::new(alloc, key_schema, self.random_state)
    }

    fn reserve(&mut self, additional: usize) -> Result<(), AllocError> {
        self.known.reserve(additional)
    }

    fn num_groups(&self) -> IdxSize {
        self.known.len()
    }

    fn state(&self) -> PlRandomState {
        self.random_state
    }

    fn key_schema(&self) -> &Schema {
        &self.key_schema
    }

    fn key(&self, i: IdxSize) -> &[u8] {
        self.known.key_at(i).1
    }

    fn insert_keys<L: Ledger>(
        &mut self,
        keys: HashKeys,
        group_idxs: &mut Vec<IdxSize>,
        steps: &mut Steps<L>,
    ) -> Result<(), AllocError> {
        group_idxs.clear();
        for i in 0..keys.len() {
            match keys.key(i) {
                Some(key) => self.take_key(keys.hash(i), key, group_idxs, steps)?,
                None => unreachable!(),
            }
        }
        Ok(())
    }

    fn combine<L: Ledger>(
        &mut self,
        other: &Self,
        group_idxs: &mut Vec<IdxSize>,
        steps: &mut Steps<L>,
    ) -> Result<(), AllocError> {
        group_idxs.clear();
        for i in 0..other.num_groups() {
            let (hash, key) = other.hashed_key(i);
            self.take_key(hash, key, group_idxs, steps)?;
        }
        Ok(())
    }

    fn gather_combine<L: Ledger>(
        &mut self,
        other: &Self,
        subset: &[IdxSize],
        group_idxs: &mut Vec<IdxSize>,
        steps: &mut Steps<L>,
    ) -> Result<(), AllocError> {
        group_idxs.clear();
        for i in subset {
            let (hash, key) = other.hashed_key(*i);
            self.take_key(hash, key, group_idxs, steps)?;
        }
        Ok(())
    }

    fn gen_partition_idxs(
        &self,
        partitioner: &HashPartitioner,
        partition_idxs: &mut [Vec<IdxSize>],
        sketches: &mut [CardinalitySketch],
    ) -> Result<(), AllocError> {
        clear_lists(partition_idxs);
        for i in 0..self.num_groups() {
            self.deal_key(partitioner, i, partition_idxs, sketches)?;
        }
        Ok(())
    }

    fn get_keys_in_group_order(&self, alloc: Global) -> Result<Frame, AllocError> {
        let mut rows = RowDecoder::new(alloc, self.key_schema())?;
        for i in 0..self.num_groups() {
            rows.push_row(self.key(i))?;
        }
        rows.finish(alloc)
    }
}
