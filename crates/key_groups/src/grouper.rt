//! What every grouper does.
ghost use Rattle.std.specs.Prelude.{◌≡◌, ◌+◌, ◌<◌, ◌⊎◌, ◌^◌, List, [], Some, IfOk, OnOk, OnErr};
ghost use Rattle.std.specs.Prelude.{map, length, slice_get, is_some, true, false, bytes_eq};
ghost use Rattle.std.specs.List.{All};
ghost use Rattle.key_parts.specs.Hashes.{hash_of};
ghost use Rattle.key_parts.specs.Partitions.{partition_of};
ghost use Rattle.hash_keys.specs.Dealt.{deals, sketched};
ghost use Rattle.hash_keys.specs.Views.{keys_of, state_of};
ghost use Rattle.col_core.specs.Tables.{Row};
ghost use Rattle.row_code.specs.Spelling.{row_spelling, IsRowOf, IsSpelling};
ghost use Rattle.list_laws.specs.Distinct.{NoRepeat};
ghost use Rattle.key_groups.specs.Groups.{KeyGroups, no_groups, with_keys, bytes_of, keys_at};
ghost use Rattle.key_groups.specs.Dealt.{all_present, DealtFront};
ghost use Rattle.key_groups.specs.Taken.{TookKeys, TookFront};

use col_core::{Frame, Schema};
use hash_keys::HashKeys;
use key_parts::{CardinalitySketch, HashPartitioner, IdxSize, PlRandomState};
use std::alloc::{AllocError, Global};
use std::sync::ledger::Ledger;
use step_count::Steps;

/// Distinct keys, numbered in order of insertion: the index of a key is its place, and never
/// changes. Each key spells a row of a key schema and comes hashed under a state, and every call
/// keeps both.
///
/// The three calls by which keys come clear `group_idxs` and put there the index of each key that
/// came, in order. A key that is new goes to the end. Each key is one step of search. After `Err`
/// the first so many keys have come, and `group_idxs` has just their indexes; the refused key has
/// changed nothing.
pub trait Grouper: Sized + Drop {
    // The grouper as contracts see it.
    ghost seen: { Self → KeyGroups };

    /// No keys, under the same schema and state.
    fn new_empty(&self, alloc: Global) -> Result<Self, AllocError>
        ensures { IfOk result (λ g. seen g
            ≡ no_groups (seen self.now).schema (seen self.now).state) };

    /// Makes room for so many more keys. The grouper is as it was, for want of memory too.
    fn reserve(&mut self, additional: usize) -> Result<(), AllocError>
        ensures { seen self.new ≡ seen self.old };

    /// The number of keys, which are distinct and spell rows of the schema.
    fn num_groups(&self) -> IdxSize
        ensures count { result ≡ length (seen self.now).keys }
        ensures distinct { NoRepeat bytes_eq (seen self.now).keys }
        ensures spelled { All (IsSpelling (seen self.now).schema) (seen self.now).keys };

    /// The state that keys are hashed under.
    fn state(&self) -> PlRandomState
        ensures { result ≡ (seen self.now).state };

    /// The key schema.
    fn key_schema(&self) -> &Schema
        ensures { result.now ≡ (seen self.now).schema };

    /// The bytes of a key.
    fn key(&self, i: IdxSize) -> &[u8]
        requires { i < length (seen self.now).keys }
        ensures { slice_get (seen self.now).keys i ≡ Some result.now };

    /// The keys come in order. None is null.
    fn insert_keys<L: Ledger>(
        &mut self,
        keys: HashKeys,
        group_idxs: &mut Vec<IdxSize>,
        steps: &mut Steps<L>,
    ) -> Result<(), AllocError>
        requires present { All (λ k. is_some k ≡ true) (keys_of keys) }
        requires spelled { All (IsSpelling (seen self.old).schema) (bytes_of (keys_of keys)) }
        requires same_state { state_of keys ≡ (seen self.old).state }
        requires few { length (with_keys (seen self.old).keys (bytes_of (keys_of keys)))
            < 2 ^ 32 }
        ensures schema { (seen self.new).schema ≡ (seen self.old).schema }
        ensures state { (seen self.new).state ≡ (seen self.old).state }
        ensures ok { OnOk result (TookKeys bytes_eq (bytes_of (keys_of keys)) (seen self.old).keys
            (seen self.new).keys group_idxs.new.items) }
        ensures cost { OnOk result (steps.new ≡ steps.old + length (keys_of keys)) }
        ensures err { OnErr result (TookFront bytes_eq (bytes_of (keys_of keys))
            (seen self.old).keys (seen self.new).keys group_idxs.new.items steps.old steps.new) };

    /// The keys of another grouper come, in its order.
    fn combine<L: Ledger>(
        &mut self,
        other: &Self,
        group_idxs: &mut Vec<IdxSize>,
        steps: &mut Steps<L>,
    ) -> Result<(), AllocError>
        requires same_state { (seen other.now).state ≡ (seen self.old).state }
        requires same_schema { (seen other.now).schema ≡ (seen self.old).schema }
        requires few { length (with_keys (seen self.old).keys (seen other.now).keys) < 2 ^ 32 }
        ensures schema { (seen self.new).schema ≡ (seen self.old).schema }
        ensures state { (seen self.new).state ≡ (seen self.old).state }
        ensures ok { OnOk result (TookKeys bytes_eq (seen other.now).keys (seen self.old).keys
            (seen self.new).keys group_idxs.new.items) }
        ensures cost { OnOk result (steps.new ≡ steps.old + length (seen other.now).keys) }
        ensures err { OnErr result (TookFront bytes_eq (seen other.now).keys
            (seen self.old).keys (seen self.new).keys group_idxs.new.items steps.old steps.new) };

    /// The keys of another grouper at some indexes come, in the order of the indexes.
    fn gather_combine<L: Ledger>(
        &mut self,
        other: &Self,
        subset: &[IdxSize],
        group_idxs: &mut Vec<IdxSize>,
        steps: &mut Steps<L>,
    ) -> Result<(), AllocError>
        requires same_state { (seen other.now).state ≡ (seen self.old).state }
        requires same_schema { (seen other.now).schema ≡ (seen self.old).schema }
        requires inside { All (λ i. i < length (seen other.now).keys) subset.now }
        requires few { length (with_keys (seen self.old).keys
            (keys_at (seen other.now).keys subset.now)) < 2 ^ 32 }
        ensures schema { (seen self.new).schema ≡ (seen self.old).schema }
        ensures state { (seen self.new).state ≡ (seen self.old).state }
        ensures ok { OnOk result (TookKeys bytes_eq (keys_at (seen other.now).keys subset.now)
            (seen self.old).keys (seen self.new).keys group_idxs.new.items) }
        ensures cost { OnOk result (steps.new ≡ steps.old + length subset.now) }
        ensures err { OnErr result (TookFront bytes_eq (keys_at (seen other.now).keys subset.now)
            (seen self.old).keys (seen self.new).keys group_idxs.new.items steps.old steps.new) };

    /// The indexes of the keys of each partition, in their order, one list a partition. Each
    /// sketch, where there are any, takes the hashes of its partition's keys. After `Err` the lists
    /// and the sketches are those of the first so many keys.
    fn gen_partition_idxs(
        &self,
        partitioner: &HashPartitioner,
        partition_idxs: &mut [Vec<IdxSize>],
        sketches: &mut [CardinalitySketch],
    ) -> Result<(), AllocError>
        requires lists { length partition_idxs.old ≡ partitioner.now.partitions }
        requires sketches { (length sketches.old ≡ 0)
            ⊎ (length sketches.old ≡ partitioner.now.partitions) }
        ensures lists { OnOk result (map (λ v. v.items) partition_idxs.new
            ≡ deals (partition_of (seen self.now).state partitioner.now) false
            partitioner.now.partitions (all_present (seen self.now).keys)) }
        ensures sketches { OnOk result (sketches.new
            ≡ sketched (partition_of (seen self.now).state partitioner.now)
            (hash_of (seen self.now).state) sketches.old (all_present (seen self.now).keys)) }
        ensures err { OnErr result (DealtFront (partition_of (seen self.now).state partitioner.now)
            (hash_of (seen self.now).state) partitioner.now.partitions sketches.old
            (all_present (seen self.now).keys) (map (λ v. v.items) partition_idxs.new) sketches.new) };

    /// The rows that the keys spell, in their order: row `i` is that of key `i`.
    fn get_keys_in_group_order(&self, alloc: Global) -> Result<Frame, AllocError>
        ensures { IfOk result (λ f. (rows : List Row) → All (IsRowOf (seen self.now).schema) rows
            → (seen self.now).keys ≡ map (row_spelling (seen self.now).schema) rows
            → f ≡ record { schema = (seen self.now).schema; rows = rows }) };
}
