//! Columns.
ghost use Rattle.std.specs.Prelude.{◌≡◌, ◌<◌, ◌≤◌, ◌+◌, ◌^◌, ◌++◌, not, length, take, drop, IfOk, IfErr, IfSome, OnOk, OnErr, None};
ghost use Rattle.std.specs.List.{All, count_by, list_any, range_with_len};
ghost use Rattle.std.specs.Option.{unwrap_or};
ghost use Rattle.col_core.specs.declared.series.ColumnError.TheVariants.{Memory};
ghost use Rattle.col_core.specs.Lent.{lent_leaf};
ghost use Rattle.col_core.specs.Refusals.{column_refusal};
ghost use Rattle.col_core.specs.Tables.{Column, leaves_of, chunk_leaves, values_at, taken, chunk_physical, AreChunksOf, IsWellKept, IsOfKind, is_of_kind};
ghost use Rattle.col_core.specs.Values.{value_at, Fits, is_null, is_text};

use crate::IdxSize;
use crate::chunk::Chunk;
use crate::data_type::DataType;
use crate::leaf::{Leaf, LeafRef};
use crate::text::Name;
use std::alloc::{AllocError, Global};
use std::cmp::min;
use std::marker::Model;

/// A column: a name, a type and chunks. Contracts see the values, and not how they are cut
/// into chunks.
#[derive(Debug, Drop)]
pub struct Series {
    name: Name,
    dtype: DataType,
    chunks: Vec<Chunk>,
}

impl Model for Series {
    ghost use Rattle.col_core.specs.Tables.{Column, leaves_of, AreChunksOf};

    ghost Value = { Column };

    ghost view = { λ s.
        record { name = s.name; dtype = s.dtype; values = leaves_of s.chunks.items } };

    ghost invariant = { λ s. AreChunksOf s.dtype s.chunks.items };
}

/// Why chunks make no column.
#[derive(Clone, Copy, PartialEq, Eq, Debug)]
pub enum ColumnError {
    /// 1: a chunk is not of the type's physical kind.
    WrongPhysical,
    /// 2: the type is `String`, and a present item is not UTF-8.
    NotUtf8,
    /// 3: want of memory.
    Memory,
}

#[tactic(auto, using(crate::proofs::Leaves::steps))]
impl Series {
    /// A column of the chunks' values, one chunk after the other. The refusals come in the order
    /// of `ColumnError`, the first that holds; no chunk at all makes an empty column of any type.
    #[tactic(auto, using(crate::proofs::Accepted::accepts))]
    pub fn new(
        _alloc: Global,
        name: Name,
        dtype: DataType,
        chunks: Vec<Chunk>,
    ) -> Result<Series, ColumnError>
        requires { length (leaves_of chunks.items) < 2 ^ 64 }
        ensures ok { IfOk result
            (λ s. s ≡ record { name = name; dtype = dtype; values = leaves_of chunks.items }) }
        ensures accepted { IfOk result (λ _. column_refusal dtype chunks.items ≡ None) }
        ensures refused { IfErr result
            (λ e. e ≡ unwrap_or (column_refusal dtype chunks.items) Memory) }
    {
        know_kept(&chunks);
        match refusal_of(dtype, &chunks) {
            Some(refusal) => Err(refusal),
            None => Ok(Series::from_chunks(name, dtype, chunks)),
        }
    }

    /// A column of chunks that are of its type.
    pub fn from_chunks(name: Name, dtype: DataType, chunks: Vec<Chunk>) -> Series
        requires { AreChunksOf dtype chunks.items }
        ensures { result ≡ record { name = name; dtype = dtype; values = leaves_of chunks.items } }
    {
        Series {
            name,
            dtype,
            chunks,
        }
    }

    /// The same column under another name.
    pub(crate) fn with_name(self, name: Name) -> Series
        ensures named { result ≡ record self { name = name } }
        ensures fits { All (Fits result.dtype) result.values }
    {
        Series { name, ..self }
    }

    /// The column's name.
    pub fn name(&self) -> &Name
        ensures { result.now ≡ self.now.name }
    {
        &self.name
    }

    /// The column's type, which every value fits: where it is `String`, every present value is
    /// UTF-8.
    pub fn dtype(&self) -> DataType
        ensures dtype { result ≡ self.now.dtype }
        ensures fits { All (Fits result) self.now.values }
    {
        self.dtype
    }

    /// The chunks, whose values one chunk after the other are the column's.
    pub fn chunks(&self) -> &[Chunk]
        ensures values { leaves_of result.now ≡ self.now.values }
        ensures fit { AreChunksOf self.now.dtype result.now }
    {
        &self.chunks
    }

    /// The chunk of a column of one chunk.
    #[tactic(auto, using(crate::proofs::Leaves::ones))]
    pub(crate) fn only_chunk(&self) -> Option<&Chunk>
        ensures kind { IfSome result (λ chunk. IsOfKind self.now.dtype chunk.now) }
        ensures values { IfSome result (λ chunk. chunk_leaves chunk.now ≡ self.now.values) }
    {
        match self.chunks() {
            [chunk] => Some(chunk),
            _ => None,
        }
    }

    /// The number of values, nulls among them.
    pub fn len(&self) -> usize
        ensures { result ≡ length self.now.values }
    {
        let mut n = 0;
        for chunk in self.chunks() {
            n += chunk.len();
        }
        n
    }

    /// The number of nulls.
    #[tactic(auto, using(crate::proofs::Leaves::tallies))]
    pub fn null_count(&self) -> usize
        ensures { result ≡ count_by is_null self.now.values }
    {
        let mut n = 0;
        for chunk in self.chunks() {
            n += chunk.null_count();
        }
        n
    }

    /// The chunk that holds the value at a place, and its place there.
    #[inline(always)]
    #[tactic(auto, using(crate::proofs::Leaves::steps, crate::proofs::Leaves::ones))]
    pub(crate) fn chunk_at(&self, i: usize) -> (&Chunk, usize)
        requires { i < length self.now.values }
        ensures within { result.1 < length (chunk_leaves result.0.now) }
        ensures value { value_at (chunk_leaves result.0.now) result.1 ≡ value_at self.now.values i }
        ensures kind { IsOfKind self.now.dtype result.0.now }
        ensures fits { Fits self.now.dtype (value_at self.now.values i) }
    {
        match self.chunks() {
            [chunk] => (chunk, i),
            _ => self.chunk_past(i),
        }
    }

    /// The same, past the chunks before it.
    fn chunk_past(&self, i: usize) -> (&Chunk, usize)
        requires { i < length self.now.values }
        ensures within { result.1 < length (chunk_leaves result.0.now) }
        ensures value { value_at (chunk_leaves result.0.now) result.1 ≡ value_at self.now.values i }
        ensures kind { IsOfKind self.now.dtype result.0.now }
        ensures fits { Fits self.now.dtype (value_at self.now.values i) }
    {
        let mut place = i;
        for chunk in self.chunks() {
            let n = chunk.len();
            if place < n {
                return (chunk, place);
            }
            place -= n;
        }
        unreachable!()
    }

    /// The value at a place, lent. It fits the type.
    #[inline(always)]
    pub fn leaf_ref(&self, i: usize) -> LeafRef<'_>
        requires { i < length self.now.values }
        ensures value { lent_leaf result ≡ value_at self.now.values i }
        ensures fits { Fits self.now.dtype (lent_leaf result) }
    {
        let (chunk, place) = self.chunk_at(i);
        chunk.leaf_ref(place)
    }

    /// A copy of the value at a place, which fits the type.
    pub fn leaf(&self, alloc: Global, i: usize) -> Result<Leaf, AllocError>
        requires { i < length self.now.values }
        ensures value { IfOk result (λ v. v ≡ value_at self.now.values i) }
        ensures fits { IfOk result (λ v. Fits self.now.dtype v) }
    {
        self.leaf_ref(i).to_leaf(alloc)
    }

    /// The values at indexes, in the order of the indexes, in one chunk under the same name.
    #[tactic(auto, using(crate::proofs::Leaves::ones))]
    pub fn take(&self, alloc: Global, idxs: &[IdxSize]) -> Result<Series, AllocError>
        requires in_bounds { All (λ i. i < length self.now.values) idxs.now }
        ensures { IfOk result (λ s. s ≡ taken idxs.now self.now) }
    {
        let chunk = self.taken_chunk(alloc, idxs)?;
        let name = Name::new(alloc, self.name().as_str())?;
        Series::from_chunk(alloc, name, self.dtype(), chunk)
    }

    /// The chunk of the values at indexes. In a column of several chunks each value is looked up.
    fn taken_chunk(&self, alloc: Global, idxs: &[IdxSize]) -> Result<Chunk, AllocError>
        requires in_bounds { All (λ i. i < length self.now.values) idxs.now }
        ensures values { IfOk result (λ c. chunk_leaves c ≡ values_at self.now.values idxs.now) }
        ensures kind { IfOk result (IsOfKind self.now.dtype) }
    {
        match self.chunks() {
            [chunk] => chunk.take(alloc, idxs),
            _ => self.looked_up_chunk(alloc, idxs),
        }
    }

    /// The chunk of the values at indexes, each looked up among the chunks.
    #[tactic(auto, using(crate::proofs::Leaves::looks))]
    fn looked_up_chunk(&self, alloc: Global, idxs: &[IdxSize]) -> Result<Chunk, AllocError>
        requires in_bounds { All (λ i. i < length self.now.values) idxs.now }
        ensures values { IfOk result (λ c. chunk_leaves c ≡ values_at self.now.values idxs.now) }
        ensures kind { IfOk result (IsOfKind self.now.dtype) }
    {
        let mut taken = Chunk::new(alloc, self.dtype().physical());
        for idx in idxs {
            let (chunk, place) = self.chunk_at(*idx as usize);
            taken.push_from(chunk, place)?;
        }
        Ok(taken)
    }

    /// An equal column, in one chunk.
    #[tactic(auto, using(crate::proofs::Leaves::ones))]
    pub fn try_clone(&self, alloc: Global) -> Result<Series, AllocError>
        ensures { IfOk result (λ s. s ≡ self.now) }
    {
        let chunk = self.whole_chunk(alloc)?;
        let name = Name::new(alloc, self.name().as_str())?;
        Series::from_chunk(alloc, name, self.dtype(), chunk)
    }

    /// The same column in one chunk. A column of one chunk is handed back as it is.
    pub fn rechunk(self, alloc: Global) -> Result<Series, AllocError>
        ensures { IfOk result (λ s. s ≡ self) }
    {
        match self.chunks() {
            [_] => Ok(self),
            _ => self.try_clone(alloc),
        }
    }

    /// The chunk of all values.
    fn whole_chunk(&self, alloc: Global) -> Result<Chunk, AllocError>
        ensures values { IfOk result (λ c. chunk_leaves c ≡ self.now.values) }
        ensures kind { IfOk result (IsOfKind self.now.dtype) }
    {
        self.joined_chunk(alloc, 0, self.len())
    }

    /// The `len` values from `start` on, in one chunk under the same name.
    #[tactic(auto, using(crate::proofs::Leaves::ones))]
    pub(crate) fn slice(
        &self,
        alloc: Global,
        start: usize,
        len: usize,
    ) -> Result<Series, AllocError>
        requires in_bounds { start + len ≤ length self.now.values }
        ensures { IfOk result (λ s. s ≡ taken (range_with_len start len) self.now) }
    {
        let chunk = self.joined_chunk(alloc, start, len)?;
        let name = Name::new(alloc, self.name().as_str())?;
        Series::from_chunk(alloc, name, self.dtype(), chunk)
    }

    /// The chunk of the `len` values from `start` on.
    #[tactic(auto, using(crate::proofs::Leaves::joins))]
    fn joined_chunk(&self, alloc: Global, start: usize, len: usize) -> Result<Chunk, AllocError>
        requires in_bounds { start + len ≤ length self.now.values }
        ensures values { IfOk result (λ c. chunk_leaves c ≡ take len (drop start self.now.values)) }
        ensures kind { IfOk result (IsOfKind self.now.dtype) }
    {
        let mut joined = Chunk::new(alloc, self.dtype().physical());
        let mut skip = start;
        let mut rest = len;
        for chunk in self.chunks() {
            let skipped = min(skip, chunk.len());
            let count = min(rest, chunk.len() - skipped);
            joined.extend_from_range(chunk, skipped, count)?;
            skip -= skipped;
            rest -= count;
        }
        Ok(joined)
    }

    /// Appends the `len` values from `start` on to a chunk of the same kind. After `Err` the chunk
    /// is as it was.
    #[tactic(auto, using(crate::proofs::Leaves::runs))]
    pub(crate) fn append_range(
        &self,
        target: &mut Chunk,
        start: usize,
        len: usize,
    ) -> Result<(), AllocError>
        requires kind { IsOfKind self.now.dtype target.old }
        requires in_bounds { start + len ≤ length self.now.values }
        ensures ok { OnOk result
            (chunk_leaves target.new
            ≡ chunk_leaves target.old ++ take len (drop start self.now.values)) }
        ensures err { OnErr result (target.new ≡ target.old) }
        ensures kind { chunk_physical target.new ≡ chunk_physical target.old }
        ensures fits { All (Fits self.now.dtype) (take len (drop start self.now.values)) }
    {
        match self.chunks() {
            [chunk] => target.extend_from_range(chunk, start, len),
            _ => {
                let run = self.joined_chunk(*self.chunks.allocator(), start, len)?;
                target.extend_from_range(&run, 0, len)
            }
        }
    }

    /// A column of one chunk, all of whose values fit the type.
    #[tactic(auto, using(crate::proofs::Leaves::ones))]
    pub(crate) fn from_chunk(
        alloc: Global,
        name: Name,
        dtype: DataType,
        chunk: Chunk,
    ) -> Result<Series, AllocError>
        requires kind { IsOfKind dtype chunk }
        requires fits { All (Fits dtype) (chunk_leaves chunk) }
        ensures { IfOk result
            (λ s. s ≡ record { name = name; dtype = dtype; values = chunk_leaves chunk }) }
    {
        let _count = chunk.len();
        Ok(Series::from_chunks(name, dtype, vec![in alloc; chunk]?))
    }
}

/// Tells how the values of chunks are kept. The loop has no effect, and none is compiled.
#[inline(always)]
fn know_kept(chunks: &[Chunk])
    ensures { All IsWellKept chunks.now }
{
    for chunk in chunks {
        let _count = chunk.len();
    }
}

/// The first cause for which chunks make no column, but for memory.
fn refusal_of(dtype: DataType, chunks: &[Chunk]) -> Option<ColumnError>
    ensures { result ≡ column_refusal dtype chunks.now }
{
    if has_other_kind(dtype, chunks) {
        return Some(ColumnError::WrongPhysical);
    }
    if has_invalid_utf8(dtype, chunks) {
        return Some(ColumnError::NotUtf8);
    }
    None
}

/// Whether some chunk is not of the type's physical kind.
fn has_other_kind(dtype: DataType, chunks: &[Chunk]) -> bool
    ensures { result ≡ list_any (λ chunk. not (is_of_kind dtype chunk)) chunks.now }
{
    chunks.iter().any(|chunk| !chunk.is_of_kind(dtype))
}

/// Whether some present item is no text, where the type is one of texts.
#[tactic(auto, using(crate::proofs::Leaves::bad))]
fn has_invalid_utf8(dtype: DataType, chunks: &[Chunk]) -> bool
    ensures { result ≡ list_any (λ value. not (is_text dtype value)) (leaves_of chunks.now) }
{
    for chunk in chunks {
        if chunk.has_invalid_utf8(dtype) {
            return true;
        }
    }
    false
}
