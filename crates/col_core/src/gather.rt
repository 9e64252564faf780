//! Columns of rows of several frames.
ghost use Rattle.std.specs.Prelude.{◌≡◌, ◌<◌, [], ◌∷◌, ◌++◌, map, length, Some, OnOk, OnErr, IfOk, IfSome};
ghost use Rattle.std.specs.List.{All};
ghost use Rattle.col_core.specs.declared.data_type.PhysicalType.{PhysicalType};
ghost use Rattle.col_core.specs.declared.data_type.PhysicalType.TheVariants as kept;
ghost use Rattle.col_core.specs.Places.{IsPlaceIn, IsWithin, placed_value, picked, type_at};
ghost use Rattle.col_core.specs.Tables.{Column, chunk_leaves, chunk_physical, column_of, IsOfKind};
ghost use Rattle.col_core.specs.Values.{Fits};

use crate::chunk::Chunk;
use crate::data_type::{DataType, PhysicalType};
use crate::frame::Frame;
use crate::items::ValueArray;
use crate::row_place::RowPlace;
use crate::series::Series;
use crate::text::Name;
use col_arrays::{BinaryArray, BooleanArray, PrimitiveArray};
use std::alloc::{AllocError, Global};

/// The values of a column of some frames at places, null where there is no place, in one chunk
/// under a name. The type is that of the column in each frame.
pub fn gather_column(
    alloc: Global,
    name: Name,
    dtype: DataType,
    frames: &[Frame],
    column: usize,
    places: &[Option<RowPlace>],
) -> Result<Series, AllocError>
    requires types { All (λ frame. type_at frame.schema column ≡ Some dtype) frames.now }
    requires in_bounds { All (IsPlaceIn frames.now) places.now }
    ensures { IfOk result
        (λ s. s ≡ record {
          name = name;
          dtype = dtype;
          values = map (placed_value frames.now column) places.now;
        }) }
{
    let sources = columns_at(alloc, dtype, frames, column)?;
    let chunk = gather_chunk(alloc, dtype, &sources, places)?;
    Series::from_chunk(alloc, name, dtype, chunk)
}

/// The column at a place of each frame.
fn columns_at<'a>(
    alloc: Global,
    dtype: DataType,
    frames: &'a [Frame],
    column: usize,
) -> Result<Vec<&'a Series>, AllocError>
    requires types { All (λ frame. type_at frame.schema column ≡ Some dtype) frames.now }
    ensures types { IfOk result
        (λ sources. All (λ source. source.now.dtype ≡ dtype) sources.items) }
    ensures fits { IfOk result
        (λ sources. All (λ source. All (Fits dtype) source.now.values) sources.items) }
    ensures values { IfOk result
        (λ sources. map (λ source. source.now.values) sources.items ≡ map
        (λ frame. column_of column frame.rows) frames.now) }
{
    let mut sources = Vec::with_capacity(alloc, frames.len())?;
    for frame in frames {
        let source = frame.column(column);
        let _dtype = source.dtype();
        sources.push(source)?;
    }
    Ok(sources)
}

/// The chunk of the values at places of columns of a type.
fn gather_chunk(
    alloc: Global,
    dtype: DataType,
    sources: &[&Series],
    places: &[Option<RowPlace>],
) -> Result<Chunk, AllocError>
    requires types { All (λ source. source.now.dtype ≡ dtype) sources.now }
    requires within { All (IsWithin (map (λ source. source.now.values) sources.now)) places.now }
    ensures values { IfOk result
        (λ c. chunk_leaves c
        ≡ map (picked (map (λ source. source.now.values) sources.now)) places.now) }
    ensures kind { IfOk result (IsOfKind dtype) }
{
    match only_chunks(alloc, dtype, sources)? {
        Some(chunks) => gather_chunks(alloc, dtype.physical(), &chunks, places),
        None => gather_values(alloc, dtype, sources, places),
    }
}

/// The chunks of columns where each has one chunk.
#[tactic(auto, using(crate::proofs::Places::kinds))]
fn only_chunks<'a>(
    alloc: Global,
    dtype: DataType,
    sources: &[&'a Series],
) -> Result<Option<Vec<&'a Chunk>>, AllocError>
    requires types { All (λ source. source.now.dtype ≡ dtype) sources.now }
    ensures kinds { IfOk result
        (λ found. IfSome found (λ chunks. All (λ chunk. IsOfKind dtype chunk.now) chunks.items)) }
    ensures values { IfOk result
        (λ found. IfSome found
        (λ chunks. map (λ chunk. chunk_leaves chunk.now) chunks.items ≡ map
        (λ source. source.now.values) sources.now)) }
{
    let mut chunks = Vec::with_capacity(alloc, sources.len())?;
    for source in sources {
        match source.only_chunk() {
            Some(chunk) => chunks.push(chunk)?,
            None => return Ok(None),
        }
    }
    Ok(Some(chunks))
}

/// The values at places of columns, value by value.
fn gather_values(
    alloc: Global,
    dtype: DataType,
    sources: &[&Series],
    places: &[Option<RowPlace>],
) -> Result<Chunk, AllocError>
    requires types { All (λ source. source.now.dtype ≡ dtype) sources.now }
    requires within { All (IsWithin (map (λ source. source.now.values) sources.now)) places.now }
    ensures values { IfOk result
        (λ c. chunk_leaves c
        ≡ map (picked (map (λ source. source.now.values) sources.now)) places.now) }
    ensures kind { IfOk result (IsOfKind dtype) }
{
    let mut gathered = Chunk::new(alloc, dtype.physical());
    for place in places {
        push_picked(&mut gathered, dtype, sources, *place)?;
    }
    Ok(gathered)
}

fn push_picked(
    gathered: &mut Chunk,
    dtype: DataType,
    sources: &[&Series],
    place: Option<RowPlace>,
) -> Result<(), AllocError>
    requires types { All (λ source. source.now.dtype ≡ dtype) sources.now }
    requires within { IsWithin (map (λ source. source.now.values) sources.now) place }
    requires kind { IsOfKind dtype gathered.old }
    ensures ok { OnOk result
        (chunk_leaves gathered.new
        ≡ chunk_leaves gathered.old
        ++ picked (map (λ source. source.now.values) sources.now) place ∷ []) }
    ensures kind { chunk_physical gathered.new ≡ chunk_physical gathered.old }
{
    match place {
        Some(place) => {
            let (chunk, row) = sources[place.frame as usize].chunk_at(place.row as usize);
            gathered.push_from(chunk, row)
        }
        None => gathered.push_null(),
    }
}

/// The chunk of the values at places of chunks of a physical type.
fn gather_chunks(
    alloc: Global,
    physical: PhysicalType,
    chunks: &[&Chunk],
    places: &[Option<RowPlace>],
) -> Result<Chunk, AllocError>
    requires kinds { All (λ chunk. chunk_physical chunk.now ≡ physical) chunks.now }
    requires within { All (IsWithin (map (λ chunk. chunk_leaves chunk.now) chunks.now)) places.now }
    ensures values { IfOk result
        (λ c. chunk_leaves c
        ≡ map (picked (map (λ chunk. chunk_leaves chunk.now) chunks.now)) places.now) }
    ensures kind { IfOk result (λ c. chunk_physical c ≡ physical) }
{
    match physical {
        PhysicalType::Boolean => gather_arrays::<BooleanArray>(alloc, chunks, places),
        PhysicalType::I8 => gather_arrays::<PrimitiveArray<i8>>(alloc, chunks, places),
        PhysicalType::I16 => gather_arrays::<PrimitiveArray<i16>>(alloc, chunks, places),
        PhysicalType::I32 => gather_arrays::<PrimitiveArray<i32>>(alloc, chunks, places),
        PhysicalType::I64 => gather_arrays::<PrimitiveArray<i64>>(alloc, chunks, places),
        PhysicalType::I128 => gather_arrays::<PrimitiveArray<i128>>(alloc, chunks, places),
        PhysicalType::U8 => gather_arrays::<PrimitiveArray<u8>>(alloc, chunks, places),
        PhysicalType::U16 => gather_arrays::<PrimitiveArray<u16>>(alloc, chunks, places),
        PhysicalType::U32 => gather_arrays::<PrimitiveArray<u32>>(alloc, chunks, places),
        PhysicalType::U64 => gather_arrays::<PrimitiveArray<u64>>(alloc, chunks, places),
        PhysicalType::Bytes => gather_arrays::<BinaryArray>(alloc, chunks, places),
    }
}

/// An array that a chunk can hold.
trait ChunkArray: ValueArray {
    // How the items are kept.
    ghost kind: { PhysicalType };

    /// The array of a chunk.
    fn of_chunk(chunk: &Chunk) -> &Self
        requires { chunk_physical chunk.now ≡ kind }
        ensures { Self.values result.now ≡ chunk_leaves chunk.now };

    /// The chunk of an array.
    fn into_chunk(self) -> Chunk
        ensures values { chunk_leaves result ≡ Self.values self }
        ensures kind { chunk_physical result ≡ kind };
}

/// The chunk of the items at places of chunks that hold arrays of one type.
fn gather_arrays<A: ChunkArray + Drop>(
    alloc: Global,
    chunks: &[&Chunk],
    places: &[Option<RowPlace>],
) -> Result<Chunk, AllocError>
    requires kinds { All (λ chunk. chunk_physical chunk.now ≡ A.kind) chunks.now }
    requires within { All (IsWithin (map (λ chunk. chunk_leaves chunk.now) chunks.now)) places.now }
    ensures values { IfOk result
        (λ c. chunk_leaves c
        ≡ map (picked (map (λ chunk. chunk_leaves chunk.now) chunks.now)) places.now) }
    ensures kind { IfOk result (λ c. chunk_physical c ≡ A.kind) }
{
    let mut arrays = Vec::with_capacity(alloc, chunks.len())?;
    for chunk in chunks {
        arrays.push(A::of_chunk(chunk))?;
    }
    Ok(gather_items(alloc, &arrays, places)?.into_chunk())
}

/// The items at places of arrays.
fn gather_items<A: ValueArray + Drop>(
    alloc: Global,
    sources: &[&A],
    places: &[Option<RowPlace>],
) -> Result<A, AllocError>
    requires { All (IsWithin (map (λ source. A.values source.now) sources.now)) places.now }
    ensures { IfOk result
        (λ a. A.values a
        ≡ map (picked (map (λ source. A.values source.now) sources.now)) places.now) }
{
    let mut gathered = A::empty(alloc);
    for place in places {
        push_item_at(&mut gathered, sources, *place)?;
    }
    Ok(gathered)
}

#[inline(always)]
fn push_item_at<A: ValueArray>(
    gathered: &mut A,
    sources: &[&A],
    place: Option<RowPlace>,
) -> Result<(), AllocError>
    requires { IsWithin (map (λ source. A.values source.now) sources.now) place }
    ensures { OnOk result
        (A.values gathered.new
        ≡ A.values gathered.old
        ++ picked (map (λ source. A.values source.now) sources.now) place ∷ []) }
{
    match place {
        Some(place) => gathered.push_item(sources[place.frame as usize], place.row as usize),
        None => gathered.push_missing(),
    }
}

impl ChunkArray for BooleanArray {
    ghost kind = { kept.Boolean };

    fn of_chunk(chunk: &Chunk) -> &Self {
        match chunk {
            Chunk::Boolean(items) => items,
            _ => unreachable!(),
        }
    }

    fn into_chunk(self) -> Chunk {
        Chunk::Boolean(self)
    }
}

impl ChunkArray for PrimitiveArray<i8> {
    ghost kind = { kept.I8 };

    fn of_chunk(chunk: &Chunk) -> &Self {
        match chunk {
            Chunk::I8(items) => items,
            _ => unreachable!(),
        }
    }

    fn into_chunk(self) -> Chunk {
        Chunk::I8(self)
    }
}

impl ChunkArray for PrimitiveArray<i16> {
    ghost kind = { kept.I16 };

    fn of_chunk(chunk: &Chunk) -> &Self {
        match chunk {
            Chunk::I16(items) => items,
            _ => unreachable!(),
        }
    }

    fn into_chunk(self) -> Chunk {
        Chunk::I16(self)
    }
}

impl ChunkArray for PrimitiveArray<i32> {
    ghost kind = { kept.I32 };

    fn of_chunk(chunk: &Chunk) -> &Self {
        match chunk {
            Chunk::I32(items) => items,
            _ => unreachable!(),
        }
    }

    fn into_chunk(self) -> Chunk {
        Chunk::I32(self)
    }
}

impl ChunkArray for PrimitiveArray<i64> {
    ghost kind = { kept.I64 };

    fn of_chunk(chunk: &Chunk) -> &Self {
        match chunk {
            Chunk::I64(items) => items,
            _ => unreachable!(),
        }
    }

    fn into_chunk(self) -> Chunk {
        Chunk::I64(self)
    }
}

impl ChunkArray for PrimitiveArray<i128> {
    ghost kind = { kept.I128 };

    fn of_chunk(chunk: &Chunk) -> &Self {
        match chunk {
            Chunk::I128(items) => items,
            _ => unreachable!(),
        }
    }

    fn into_chunk(self) -> Chunk {
        Chunk::I128(self)
    }
}

impl ChunkArray for PrimitiveArray<u8> {
    ghost kind = { kept.U8 };

    fn of_chunk(chunk: &Chunk) -> &Self {
        match chunk {
            Chunk::U8(items) => items,
            _ => unreachable!(),
        }
    }

    fn into_chunk(self) -> Chunk {
        Chunk::U8(self)
    }
}

impl ChunkArray for PrimitiveArray<u16> {
    ghost kind = { kept.U16 };

    fn of_chunk(chunk: &Chunk) -> &Self {
        match chunk {
            Chunk::U16(items) => items,
            _ => unreachable!(),
        }
    }

    fn into_chunk(self) -> Chunk {
        Chunk::U16(self)
    }
}

impl ChunkArray for PrimitiveArray<u32> {
    ghost kind = { kept.U32 };

    fn of_chunk(chunk: &Chunk) -> &Self {
        match chunk {
            Chunk::U32(items) => items,
            _ => unreachable!(),
        }
    }

    fn into_chunk(self) -> Chunk {
        Chunk::U32(self)
    }
}

impl ChunkArray for PrimitiveArray<u64> {
    ghost kind = { kept.U64 };

    fn of_chunk(chunk: &Chunk) -> &Self {
        match chunk {
            Chunk::U64(items) => items,
            _ => unreachable!(),
        }
    }

    fn into_chunk(self) -> Chunk {
        Chunk::U64(self)
    }
}

impl ChunkArray for BinaryArray {
    ghost kind = { kept.Bytes };

    fn of_chunk(chunk: &Chunk) -> &Self {
        match chunk {
            Chunk::Bytes(items) => items,
            _ => unreachable!(),
        }
    }

    fn into_chunk(self) -> Chunk {
        Chunk::Bytes(self)
    }
}
