//! What every probe table does.
ghost use Rattle.std.specs.Prelude.{◌≡◌, ℕ, ◌+◌, ◌-◌, ◌<◌, ◌^◌, [], Some, IfOk, OnOk, OnErr};
ghost use Rattle.std.specs.Prelude.{map, take, drop, length, slice_get};
ghost use Rattle.std.specs.List.{All, flat_map};
ghost use Rattle.key_parts.specs.Positions.{position};
ghost use Rattle.hash_keys.specs.Views.{keys_of, state_of};
ghost use Rattle.chunked_idx_table.specs.Replies.{processed};
ghost use Rattle.chunked_idx_table.specs.Tables.{ProbeTable, empty_table, table_keys, size_of};
ghost use Rattle.chunked_idx_table.specs.Tables.{AreDistinct, HavePositions};
ghost use Rattle.chunked_idx_table.specs.Inserts.{with_chunk, searches, InsertsFront};
ghost use Rattle.chunked_idx_table.specs.Probes.{keys_at, all_rows, items};
ghost use Rattle.chunked_idx_table.specs.Probes.{Answered, AnswersFront};
ghost use Rattle.chunked_idx_table.specs.Resumed.{probed};
ghost use Rattle.chunked_idx_table.specs.Words.{position_kept};

use hash_keys::HashKeys;
use key_parts::{ChunkId, IdxSize, PlRandomState};
use std::alloc::{AllocError, Global};
use std::sync::ledger::Ledger;
use step_count::Steps;

/// The rows of a join's build side, in chunks, by their keys. A position is a chunk and a row of
/// it. Keys are found under the table's state, and come hashed under it.
///
/// A present key that is inserted or probed takes one step of search, a null key none.
pub trait ChunkedIdxTable: Drop {
    /// The table as contracts see it.
    ghost seen: { Self → ProbeTable };

    /// A table without a row, under the same state.
    fn new_empty(&self, alloc: Global) -> Result<Self, AllocError>
        ensures { IfOk result (λ t. seen t ≡ empty_table (seen self.now).state) };

    /// Makes room for so many more keys. The table is as it was, for want of memory too.
    fn reserve(&mut self, additional: usize) -> Result<(), AllocError>
        ensures { seen self.new ≡ seen self.old };

    /// The number of keys. They are distinct, and each has a position.
    fn num_keys(&self) -> IdxSize
        ensures count { result ≡ length (seen self.now).entries }
        ensures distinct { AreDistinct (seen self.now) }
        ensures some { HavePositions (seen self.now) };

    /// The number of null positions. With the keys they are fewer than 2^32.
    fn num_null_rows(&self) -> IdxSize
        ensures count { result ≡ length (seen self.now).nulls }
        ensures few { size_of (seen self.now) < 2 ^ 32 };

    /// The number of chunks that were inserted.
    fn num_chunks(&self) -> u32
        ensures { result ≡ (seen self.now).chunks };

    /// The state that keys are hashed under.
    fn state(&self) -> PlRandomState
        ensures { result ≡ (seen self.now).state };

    /// The bytes of a key.
    fn key(&self, i: IdxSize) -> &[u8]
        requires { i < length (seen self.now).entries }
        ensures { slice_get (table_keys (seen self.now)) i ≡ Some result.now };

    /// Whether a key was matched by a probe that marks.
    fn is_marked(&self, i: IdxSize) -> bool
        requires { i < length (seen self.now).entries }
        ensures { slice_get (map (λ e. e.marked) (seen self.now).entries) i ≡ Some result };

    /// The positions of a key, in order of insertion: the words of their ids, of which the top bit
    /// is to be ignored.
    fn positions(&self, i: IdxSize) -> &[u64]
        requires { i < length (seen self.now).entries }
        ensures { slice_get (map (λ e. e.positions) (seen self.now).entries) i
            ≡ Some (map position_kept result.now) };

    /// The positions of the null keys, in order of insertion.
    fn null_rows(&self) -> &[ChunkId]
        ensures { map position result.now ≡ map (λ x. Some x) (seen self.now).nulls };

    /// Takes the rows of a chunk in order: a position for each, under its key, or with the null
    /// positions where the key is null and these are tracked. Then the chunk number rises, for a
    /// chunk without rows too.
    fn insert_key_chunk<L: Ledger>(
        &mut self,
        keys: HashKeys,
        track_unmatchable: bool,
        steps: &mut Steps<L>,
    ) -> Result<(), AllocError>
        requires few_rows { length (keys_of keys) < 2 ^ 31 }
        requires few_chunks { (seen self.old).chunks < 2 ^ 32 - 1 }
        requires few { size_of (with_chunk track_unmatchable (seen self.old) (keys_of keys))
            < 2 ^ 32 }
        requires same_state { state_of keys ≡ (seen self.old).state }
        ensures ok { OnOk result (seen self.new
            ≡ with_chunk track_unmatchable (seen self.old) (keys_of keys)) }
        ensures cost { OnOk result (steps.new ≡ steps.old + searches (keys_of keys)) }
        ensures err { OnErr result (InsertsFront track_unmatchable (seen self.old) (keys_of keys)
            (seen self.new) steps.old steps.new) };

    /// Answers keys in order, and stops after the first at which there are as many matches as the
    /// limit, or more. Each match of a key is a position in `table_match` beside the key's index in
    /// `probe_match`, both cleared before. A key without a match, or a null key, has no match, or
    /// one null id where that is asked by `emit_unmatched`. With `mark_matches` the keys that were
    /// matched are marked. The answer is the number of keys that were answered, at least one where
    /// there is any.
    fn probe<L: Ledger>(
        &mut self,
        hash_keys: &HashKeys,
        table_match: &mut Vec<ChunkId>,
        probe_match: &mut Vec<IdxSize>,
        mark_matches: bool,
        emit_unmatched: bool,
        limit: IdxSize,
        steps: &mut Steps<L>,
    ) -> Result<IdxSize, AllocError>
        requires same_state { state_of hash_keys.now ≡ (seen self.old).state }
        ensures count { IfOk result (λ n. n
            ≡ probed (seen self.old) (keys_of hash_keys.now) emit_unmatched limit
            (all_rows (keys_of hash_keys.now))) }
        ensures ok { IfOk result (λ n. Answered mark_matches emit_unmatched (seen self.old)
            (keys_of hash_keys.now)
            (take n (all_rows (keys_of hash_keys.now))) (seen self.new)
            (map position table_match.new.items) probe_match.new.items) }
        ensures cost { IfOk result (λ n. steps.new
            ≡ steps.old + searches (keys_at (keys_of hash_keys.now)
            (take n (all_rows (keys_of hash_keys.now))))) }
        ensures err { OnErr result (AnswersFront mark_matches emit_unmatched (seen self.old)
            (keys_of hash_keys.now) (all_rows (keys_of hash_keys.now)) (seen self.new)
            (map position table_match.new.items) probe_match.new.items steps.old steps.new) };

    /// `probe` of the keys at some indexes, in their order, beside these indexes.
    fn probe_subset<L: Ledger>(
        &mut self,
        hash_keys: &HashKeys,
        subset: &[IdxSize],
        table_match: &mut Vec<ChunkId>,
        probe_match: &mut Vec<IdxSize>,
        mark_matches: bool,
        emit_unmatched: bool,
        limit: IdxSize,
        steps: &mut Steps<L>,
    ) -> Result<IdxSize, AllocError>
        requires inside { All (λ i. i < length (keys_of hash_keys.now)) subset.now }
        requires few { length subset.now < 2 ^ 32 }
        requires same_state { state_of hash_keys.now ≡ (seen self.old).state }
        ensures count { IfOk result (λ n. n
            ≡ probed (seen self.old) (keys_of hash_keys.now) emit_unmatched limit subset.now) }
        ensures ok { IfOk result (λ n. Answered mark_matches emit_unmatched (seen self.old)
            (keys_of hash_keys.now)
            (take n subset.now) (seen self.new)
            (map position table_match.new.items) probe_match.new.items) }
        ensures cost { IfOk result (λ n. steps.new
            ≡ steps.old + searches (keys_at (keys_of hash_keys.now) (take n subset.now))) }
        ensures err { OnErr result (AnswersFront mark_matches emit_unmatched (seen self.old)
            (keys_of hash_keys.now) subset.now (seen self.new)
            (map position table_match.new.items) probe_match.new.items steps.old steps.new) };

    /// Lists, into `out`, which is cleared before, what the items of the table give from an offset
    /// on: first the null positions, one an item, and then the keys, each with all its positions,
    /// unless it is marked. It stops after the first item at which there are as many positions as
    /// the limit, or more. The answer is the number of items, 0 past the end.
    fn unmarked_keys(
        &self,
        out: &mut Vec<ChunkId>,
        offset: IdxSize,
        limit: IdxSize,
    ) -> Result<IdxSize, AllocError>
        requires { 0 < limit }
        ensures count { IfOk result (λ n. n ≡ processed (λ x. x) limit
            (drop offset (items (seen self.now)))) }
        ensures ok { IfOk result (λ n. map position out.new.items
            ≡ map (λ x. Some x) (flat_map (λ x. x) (take n
            (drop offset (items (seen self.now)))))) }
        ensures err { OnErr result (out.new.items ≡ []) };
}
