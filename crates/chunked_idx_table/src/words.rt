//! The words of positions: with a mark in the top bit of a first one.
ghost use Rattle.std.specs.Prelude.{◌≡◌, ◌<◌, ◌++◌, [], ◌∷◌, true, map, length, Some, OnOk, OnErr};
ghost use Rattle.key_parts.specs.Positions.{position};
ghost use Rattle.chunked_idx_table.specs.Probes.{or_null};
ghost use Rattle.chunked_idx_table.specs.Words.{position_kept, has_mark};

use key_parts::{ChunkId, IdxSize};
use smallvec::SmallVec;
use std::alloc::AllocError;

/// The positions of a key as words, of which most keys have one.
pub(crate) type Words = SmallVec<u64, 1>;

const MARK: u64 = 0x8000_0000_0000_0000;

/// The id of the position that a word stands for.
pub(crate) fn id_of(word: u64) -> ChunkId
    ensures { position result ≡ Some (position_kept word) }
{
    ChunkId::from_inner(word % MARK)
}

/// Whether the key of these words is marked.
pub(crate) fn is_marked(words: &[u64]) -> bool
    requires { 0 < length words.now }
    ensures { result ≡ has_mark words.now }
{
    words[0] >= MARK
}

/// Marks the key of these words.
pub(crate) fn mark(words: &mut Words)
    requires { 0 < length words.old.items }
    ensures same { map position_kept words.new.items ≡ map position_kept words.old.items }
    ensures marked { has_mark words.new.items ≡ true }
    ensures some { 0 < length words.new.items }
{
    let words = words.as_mut_slice();
    words[0] = words[0] % MARK + MARK;
}

/// Appends a word to those of a key.
pub(crate) fn push_word(words: &mut Words, word: u64) -> Result<(), AllocError>
    requires { 0 < length words.old.items }
    ensures added { OnOk result (map position_kept words.new.items
        ≡ map position_kept words.old.items ++ position_kept word ∷ []) }
    ensures mark { OnOk result (has_mark words.new.items ≡ has_mark words.old.items) }
    ensures some { 0 < length words.new.items }
    ensures err { OnErr result (words.new ≡ words.old) }
{
    words.push(word)?;
    Ok(())
}

/// Appends the positions of a key. For want of memory nothing has changed.
pub(crate) fn push_positions(words: &[u64], out: &mut Vec<ChunkId>) -> Result<(), AllocError>
    ensures ok { OnOk result (map position out.new.items
        ≡ map position out.old.items ++ map (λ word. Some (position_kept word)) words.now) }
    ensures err { OnErr result (out.new.items ≡ out.old.items) }
{
    out.reserve(words.len())?;
    for word in words {
        out.push_reserved(id_of(*word));
    }
    Ok(())
}

/// Appends the matches of a key, each beside its index. For want of memory nothing has changed.
pub(crate) fn push_matches(
    words: &[u64],
    index: IdxSize,
    table_match: &mut Vec<ChunkId>,
    probe_match: &mut Vec<IdxSize>,
) -> Result<(), AllocError>
    ensures positions { OnOk result (map position table_match.new.items
        ≡ map position table_match.old.items ++ map (λ word. Some (position_kept word)) words.now) }
    ensures indexes { OnOk result (probe_match.new.items ≡ probe_match.old.items
        ++ map (λ _. index) words.now) }
    ensures err { OnErr result (table_match.new.items ≡ table_match.old.items) }
    ensures err_indexes { OnErr result (probe_match.new.items ≡ probe_match.old.items) }
{
    probe_match.reserve(words.len())?;
    push_positions(words, table_match)?;
    for _word in words {
        probe_match.push_reserved(index);
    }
    Ok(())
}

/// Appends what a key without a match has. For want of memory nothing has changed.
pub(crate) fn push_unmatched(
    emit: bool,
    index: IdxSize,
    table_match: &mut Vec<ChunkId>,
    probe_match: &mut Vec<IdxSize>,
) -> Result<(), AllocError>
    ensures positions { OnOk result (map position table_match.new.items
        ≡ map position table_match.old.items ++ or_null emit []) }
    ensures indexes { OnOk result (probe_match.new.items ≡ probe_match.old.items
        ++ map (λ _. index) (or_null emit [])) }
    ensures err { OnErr result (table_match.new.items ≡ table_match.old.items) }
    ensures err_indexes { OnErr result (probe_match.new.items ≡ probe_match.old.items) }
{
    if emit {
        table_match.reserve(1)?;
        probe_match.reserve(1)?;
        table_match.push_reserved(ChunkId::null());
        probe_match.push_reserved(index);
    }
    Ok(())
}
