//! A table whose keys are the bytes of their rows.
ghost use Rattle.std.specs.Prelude.{◌≡◌, ℕ, ◌+◌, ◌-◌, ◌<◌, ◌^◌, ◌++◌, ◌&&◌, [], ◌∷◌, List, Bool};
ghost use Rattle.std.specs.Prelude.{Some, None, IfOk, IfSome, OnOk, OnErr};
ghost use Rattle.std.specs.Prelude.{map, take, drop, length, get_or, cond, is_some, option_copied};
ghost use Rattle.std.specs.List.{All, flat_map};
ghost use Rattle.key_parts.specs.Positions.{position};
ghost use Rattle.key_parts.specs.Hashes.{hash_of};
ghost use Rattle.hash_keys.specs.Keys.{Key};
ghost use Rattle.hash_keys.specs.Views.{keys_of, state_of};
ghost use Rattle.chunked_idx_table.specs.Replies.{processed};
ghost use Rattle.chunked_idx_table.specs.Tables.{empty_table, size_of};
ghost use Rattle.chunked_idx_table.specs.Inserts.{with_position, with_rows, searches};
ghost use Rattle.chunked_idx_table.specs.Probes.{found, matches, marked_more, is_key, key_index};
ghost use Rattle.chunked_idx_table.specs.Probes.{keys_at, items};
ghost use Rattle.chunked_idx_table.specs.Probes.{asked_rows, Answered, AnswersFront};
ghost use Rattle.chunked_idx_table.specs.Resumed.{probed};
ghost use Rattle.chunked_idx_table.specs.Words.{position_kept};

use crate::table::ChunkedIdxTable;
use crate::words::{
    Words, is_marked, mark, push_matches, push_positions, push_unmatched, push_word,
};
use byte_map::{BytesIndexMap, Found};
use col_core::Schema;
use hash_keys::HashKeys;
use key_parts::{ChunkId, IdxSize, PlRandomState};
use std::alloc::{AllocError, Global};
use std::marker::Model;
use std::sync::ledger::Ledger;
use step_count::Steps;

/// A table over a map from key bytes.
#[derive(Drop)]
pub struct RowEncodedChunkedIdxTable {
    alloc: Global,
    random_state: PlRandomState,
    known: BytesIndexMap<Words>,
    nulls: Vec<ChunkId>,
    num_chunks: u32,
}

impl Model for RowEncodedChunkedIdxTable {
    ghost use Rattle.std.specs.Prelude.{map};
    ghost use Rattle.chunked_idx_table.specs.Tables.{ProbeTable};
    ghost use Rattle.chunked_idx_table.specs.Words.{key_entry, position_at, AreKept};

    ghost Value = { ProbeTable };

    ghost view = { λ t. record {
      entries = map key_entry t.known.entries;
      nulls = map position_at t.nulls.items;
      chunks = t.num_chunks;
      state = t.random_state;
    } };

    ghost invariant = { λ t. AreKept t.random_state t.known.entries t.nulls.items };
}

impl RowEncodedChunkedIdxTable {
    /// A table without a row.
    pub fn new(alloc: Global, random_state: PlRandomState) -> Result<Self, AllocError>
        ensures { IfOk result (λ t. t ≡ empty_table random_state) }
    {
        Ok(RowEncodedChunkedIdxTable {
            alloc,
            random_state,
            known: BytesIndexMap::new(alloc)?,
            nulls: Vec::new(alloc),
            num_chunks: 0,
        })
    }

    /// Where a key stands.
    fn find<L: Ledger>(&self, hash: u64, key: &[u8], steps: &mut Steps<L>) -> Option<u32>
        requires { hash ≡ hash_of self.now.state key.now }
        ensures at { result ≡ key_index key.now self.now }
        ensures absent { result ≡ None → found self.now.entries key.now ≡ [] }
        ensures unmarked { result ≡ None → marked_more (λ k. is_key k (Some key.now)) self.now
            ≡ self.now }
        ensures cost { steps.new ≡ steps.old + 1 }
    {
        self.known.index_of(hash, key, steps)
    }

    /// The words of the key that stands at an index: its matches.
    fn words(&self, at: u32) -> &[u64]
        requires { at < length self.now.entries }
        ensures { (key : List ℕ) (emit : Bool) → key_index key self.now ≡ Some at
            → matches self.now.entries emit (Some key)
            ≡ map (λ word. Some (position_kept word)) result.now }
    {
        self.known.value_at(at).as_slice()
    }

    /// Marks the key that stands at an index.
    fn mark_key(&mut self, at: u32, key: &[u8])
        requires { key_index key.now self.old ≡ Some at }
        ensures { self.new ≡ marked_more (λ k. is_key k (Some key.now)) self.old }
    {
        let _count = self.known.len();
        mark(self.known.value_at_mut(at));
    }

    /// Appends the matches of a key beside an index, and marks the key. For want of memory nothing
    /// has changed.
    fn answer<L: Ledger>(
        &mut self,
        key: Option<&[u8]>,
        hash: u64,
        index: IdxSize,
        table_match: &mut Vec<ChunkId>,
        probe_match: &mut Vec<IdxSize>,
        marks: bool,
        emit: bool,
        steps: &mut Steps<L>,
    ) -> Result<(), AllocError>
        requires { IfSome key (λ k. hash ≡ hash_of self.old.state k.now) }
        ensures positions { OnOk result (map position table_match.new.items
            ≡ map position table_match.old.items
            ++ matches self.old.entries emit (option_copied key.entry)) }
        ensures indexes { OnOk result (probe_match.new.items
            ≡ probe_match.old.items
            ++ map (λ _. index) (matches self.old.entries emit (option_copied key.entry))) }
        ensures marked { OnOk result (self.new
            ≡ marked_more (λ k. marks && is_key k (option_copied key.entry)) self.old) }
        ensures err { OnErr result (table_match.new.items ≡ table_match.old.items) }
        ensures err_indexes { OnErr result (probe_match.new.items ≡ probe_match.old.items) }
        ensures err_marks { OnErr result (self.new ≡ self.old) }
        ensures cost { steps.new ≡ steps.old + cond (is_some key.entry) 1 0 }
    {
        let Some(key) = key else {
            return push_unmatched(emit, index, table_match, probe_match);
        };
        let Some(at) = self.find(hash, key, steps) else {
            return push_unmatched(emit, index, table_match, probe_match);
        };
        push_matches(self.words(at), index, table_match, probe_match)?;
        if marks {
            self.mark_key(at, key);
        }
        Ok(())
    }

    /// Probes all keys, or those of a subset.
    fn probe_asked<L: Ledger>(
        &mut self,
        hash_keys: &HashKeys,
        subset: Option<&[IdxSize]>,
        table_match: &mut Vec<ChunkId>,
        probe_match: &mut Vec<IdxSize>,
        mark_matches: bool,
        emit_unmatched: bool,
        limit: IdxSize,
        steps: &mut Steps<L>,
    ) -> Result<IdxSize, AllocError>
        requires inside { All (λ i. i < length (keys_of hash_keys.now))
            (asked_rows (keys_of hash_keys.now) (option_copied subset)) }
        requires few { IfSome subset (λ rows. length rows.now < 2 ^ 32) }
        requires same_state { state_of hash_keys.now ≡ self.old.state }
        ensures count { IfOk result (λ n. n
            ≡ probed self.old (keys_of hash_keys.now) emit_unmatched limit
            (asked_rows (keys_of hash_keys.now) (option_copied subset.entry))) }
        ensures ok { IfOk result (λ n. Answered mark_matches emit_unmatched self.old
            (keys_of hash_keys.now)
            (take n (asked_rows (keys_of hash_keys.now) (option_copied subset.entry))) self.new
            (map position table_match.new.items) probe_match.new.items) }
        ensures cost { IfOk result (λ n. steps.new
            ≡ steps.old + searches (keys_at (keys_of hash_keys.now)
            (take n (asked_rows (keys_of hash_keys.now) (option_copied subset.entry))))) }
        ensures err { OnErr result (AnswersFront mark_matches emit_unmatched self.old
            (keys_of hash_keys.now)
            (asked_rows (keys_of hash_keys.now) (option_copied subset.entry)) self.new
            (map position table_match.new.items) probe_match.new.items steps.old steps.new) }
    {
        table_match.clear();
        probe_match.clear();
        let count = number_asked(hash_keys, subset);
        for i in 0..count {
            let row = asked_row(subset, i);
            let key = hash_keys.key(row as usize);
            let hash = hash_keys.hash(row as usize);
            self.answer(
                key,
                hash,
                row,
                table_match,
                probe_match,
                mark_matches,
                emit_unmatched,
                steps,
            )?;
            if table_match.len() >= limit as usize {
                return Ok(i + 1);
            }
        }
        Ok(count)
    }

    /// Appends a word to those of the key that stands at an index. For want of memory nothing has
    /// changed.
    fn add_at(&mut self, at: u32, key: &[u8], word: u64) -> Result<(), AllocError>
        requires { key_index key.now self.old ≡ Some at }
        ensures ok { OnOk result (self.new
            ≡ record self.old {
              entries = with_position self.old.entries key.now (position_kept word);
            }) }
        ensures err { OnErr result (self.new ≡ self.old) }
    {
        push_word(self.known.value_at_mut(at), word)?;
        Ok(())
    }

    /// Takes a word for a key. For want of memory nothing has changed.
    fn insert_present<L: Ledger>(
        &mut self,
        hash: u64,
        key: &[u8],
        word: u64,
        steps: &mut Steps<L>,
    ) -> Result<(), AllocError>
        requires hashed { hash ≡ hash_of self.old.state key.now }
        requires unmarked { word < 2 ^ 63 }
        requires few { length (with_position self.old.entries key.now (position_kept word))
            + length self.old.nulls < 2 ^ 32 }
        ensures ok { OnOk result (self.new
            ≡ record self.old {
              entries = with_position self.old.entries key.now (position_kept word);
            }) }
        ensures err { OnErr result (self.new ≡ self.old) }
        ensures cost { steps.new ≡ steps.old + 1 }
    {
        let mut first = Words::new(self.alloc);
        first.push_reserved(word);
        match self.known.find_or_push(hash, key, first, steps) {
            Ok(Found::Old(at, _)) => self.add_at(at, key, word),
            Ok(Found::New(_)) => Ok(()),
            Err(_) => Err(AllocError),
        }
    }

    /// Takes a row of the next chunk. For want of memory nothing has changed.
    fn insert_row<L: Ledger>(
        &mut self,
        key: Option<&[u8]>,
        hash: u64,
        row: IdxSize,
        track: bool,
        steps: &mut Steps<L>,
    ) -> Result<(), AllocError>
        requires hashed { IfSome key (λ k. hash ≡ hash_of self.old.state k.now) }
        requires row { row < 2 ^ 31 }
        requires few { size_of (with_rows track self.old
            ((option_copied key, record { chunk = self.old.chunks; row = row }) ∷ [])) < 2 ^ 32 }
        ensures ok { OnOk result (self.new ≡ with_rows track self.old
            ((option_copied key.entry, record { chunk = self.old.chunks; row = row }) ∷ [])) }
        ensures err { OnErr result (self.new ≡ self.old) }
        ensures cost { steps.new ≡ steps.old + cond (is_some key.entry) 1 0 }
    {
        let id = ChunkId::store(self.num_chunks, row);
        if let Some(key) = key {
            return self.insert_present(hash, key, id.into_inner(), steps);
        }
        if track {
            self.nulls.push(id)?;
        }
        Ok(())
    }

    /// Appends what an item gives. For want of memory nothing has changed.
    fn push_item(&self, i: u32, out: &mut Vec<ChunkId>) -> Result<(), AllocError>
        requires { i < size_of self.now }
        ensures ok { OnOk result (map position out.new.items
            ≡ map position out.old.items ++ map (λ x. Some x) (get_or (items self.now) i [])) }
        ensures err { OnErr result (out.new.items ≡ out.old.items) }
    {
        let nulls = self.nulls.len() as u32;
        if i < nulls {
            out.push(self.nulls[i as usize])?;
            return Ok(());
        }
        let words = self.known.value_at(i - nulls).as_slice();
        if is_marked(words) {
            return Ok(());
        }
        push_positions(words, out)
    }

    /// Lists what the items from an offset on give, until there are as many positions as the limit,
    /// or more.
    fn list_items(&self, out: &mut Vec<ChunkId>, offset: u32, limit: u32) -> Result<u32, AllocError>
        requires { out.old.items ≡ [] }
        ensures count { IfOk result (λ n. n ≡ processed (λ x. x) limit
            (drop offset (items self.now))) }
        ensures ok { IfOk result (λ n. map position out.new.items
            ≡ map (λ x. Some x) (flat_map (λ x. x) (take n (drop offset (items self.now))))) }
    {
        let count = (self.num_keys() + self.num_null_rows()).saturating_sub(offset);
        for i in 0..count {
            self.push_item(offset + i, out)?;
            if out.len() >= limit as usize {
                return Ok(i + 1);
            }
        }
        Ok(count)
    }
}

/// A table without a row, for keys of these fields. Whatever the fields are, their keys are the bytes
/// of rows, so that the schema is not read.
pub fn new_chunked_idx_table(
    alloc: Global,
    _key_schema: &Schema,
    random_state: PlRandomState,
) -> Result<RowEncodedChunkedIdxTable, AllocError>
    ensures { IfOk result (λ t. t ≡ empty_table random_state) }
{
    RowEncodedChunkedIdxTable::new(alloc, random_state)
}

/// How many rows are asked for.
fn number_asked(hash_keys: &HashKeys, subset: Option<&[IdxSize]>) -> u32
    requires { IfSome subset (λ rows. length rows.now < 2 ^ 32) }
    ensures { result ≡ length (asked_rows (keys_of hash_keys.now) (option_copied subset.entry)) }
{
    match subset {
        Some(rows) => rows.len() as u32,
        None => hash_keys.len() as u32,
    }
}

/// The row that is asked for in the i-th place.
fn asked_row(subset: Option<&[IdxSize]>, i: u32) -> IdxSize
    requires { IfSome subset (λ rows. i < length rows.now) }
    ensures { (keys : List Key) → i < length (asked_rows keys (option_copied subset.entry))
        → result ≡ get_or (asked_rows keys (option_copied subset.entry)) i 0 }
{
    match subset {
        Some(rows) => rows[i as usize],
        None => i,
    }
}

impl ChunkedIdxTable for RowEncodedChunkedIdxTable {
    ghost seen = { λ t. t };

    fn new_empty(&self, alloc: Global) -> Result<Self, AllocError> {
        RowEncodedChunkedIdxTable::new(alloc, self.random_state)
    }

    fn reserve(&mut self, additional: usize) -> Result<(), AllocError> {
        self.known.reserve(additional)
    }

    fn num_keys(&self) -> IdxSize {
        self.known.len()
    }

    fn num_null_rows(&self) -> IdxSize {
        self.nulls.len() as u32
    }

    fn num_chunks(&self) -> u32 {
        self.num_chunks
    }

    fn state(&self) -> PlRandomState {
        self.random_state
    }

    fn key(&self, i: IdxSize) -> &[u8] {
        self.known.key_at(i).1
    }

    fn is_marked(&self, i: IdxSize) -> bool {
        is_marked(self.known.value_at(i).as_slice())
    }

    fn positions(&self, i: IdxSize) -> &[u64] {
        self.known.value_at(i).as_slice()
    }

    fn null_rows(&self) -> &[ChunkId] {
        &self.nulls
    }

    fn insert_key_chunk<L: Ledger>(
        &mut self,
        keys: HashKeys,
        track_unmatchable: bool,
        steps: &mut Steps<L>,
    ) -> Result<(), AllocError> {
        for row in 0..keys.len() {
            let key = keys.key(row);
            let hash = keys.hash(row);
            self.insert_row(key, hash, row as u32, track_unmatchable, steps)?;
        }
        self.num_chunks += 1;
        Ok(())
    }

    fn probe<L: Ledger>(
        &mut self,
        hash_keys: &HashKeys,
        table_match: &mut Vec<ChunkId>,
        probe_match: &mut Vec<IdxSize>,
        mark_matches: bool,
        emit_unmatched: bool,
        limit: IdxSize,
        steps: &mut Steps<L>,
    ) -> Result<IdxSize, AllocError> {
        self.probe_asked(
            hash_keys,
            None,
            table_match,
            probe_match,
            mark_matches,
            emit_unmatched,
            limit,
            steps,
        )
    }

    fn probe_subset<L: Ledger>(
        &mut self,
        hash_keys: &HashKeys,
        subset: &[IdxSize],
        table_match: &mut Vec<ChunkId>,
        probe_match: &mut Vec<IdxSize>,
        mark_matches: bool,
        emit_unmatched: bool,
        limit: IdxSize,
        steps: &mut Steps<L>,
    ) -> Result<IdxSize, AllocError> {
        self.probe_asked(
            hash_keys,
            Some(subset),
            table_match,
            probe_match,
            mark_matches,
            emit_unmatched,
            limit,
            steps,
        )
    }

    fn unmarked_keys(
        &self,
        out: &mut Vec<ChunkId>,
        offset: IdxSize,
        limit: IdxSize,
    ) -> Result<IdxSize, AllocError> {
        out.clear();
        match self.list_items(out, offset, limit) {
            Ok(count) => Ok(count),
            Err(failed) => {
                out.clear();
                Err(failed)
            }
        }
    }
}
