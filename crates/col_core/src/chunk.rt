//! The pieces of a column.
ghost use Rattle.std.specs.Prelude.{◌≡◌, ◌<◌, ◌≤◌, ◌+◌, [], ◌∷◌, ◌++◌, not, take, drop, length, OnOk, OnErr, IfOk};
ghost use Rattle.std.specs.List.{All, count_by, list_any};
ghost use Rattle.col_core.specs.declared.leaf.Leaf.TheVariants as leaves;
ghost use Rattle.col_core.specs.Lent.{lent_leaf};
ghost use Rattle.col_core.specs.Physical.{IsKept};
ghost use Rattle.col_core.specs.Tables.{chunk_leaves, chunk_physical, is_of_kind, values_at};
ghost use Rattle.col_core.specs.Values.{value_at, is_null, is_text};

use crate::data_type::{DataType, PhysicalType, same_type};
use crate::items::{ValueArray, has_invalid_utf8};
use crate::leaf::LeafRef;
use col_arrays::{BinaryArray, BooleanArray, IdxSize, PrimitiveArray};
use std::alloc::{AllocError, Global};

/// A piece of a column: an array of one physical type. Contracts see the values of its items.
#[derive(Debug, Drop)]
pub enum Chunk {
    /// The values of `Boolean`.
    Boolean(BooleanArray),
    /// The values of `Int8`.
    I8(PrimitiveArray<i8>),
    /// The values of `Int16`.
    I16(PrimitiveArray<i16>),
    /// The values of `Int32` and `Date`.
    I32(PrimitiveArray<i32>),
    /// The values of `Int64`, `Time`, `Datetime` and `Duration`.
    I64(PrimitiveArray<i64>),
    /// The values of `Int128` and `Decimal`.
    I128(PrimitiveArray<i128>),
    /// The values of `UInt8`.
    U8(PrimitiveArray<u8>),
    /// The values of `UInt16`.
    U16(PrimitiveArray<u16>),
    /// The values of `UInt32`.
    U32(PrimitiveArray<u32>),
    /// The values of `UInt64`.
    U64(PrimitiveArray<u64>),
    /// The values of `String` and `Binary`.
    Bytes(BinaryArray),
}

/// The same for the array of a chunk, whichever it is.
macro_rules! with_array {
    ($chunk:expr, $items:ident => $body:expr) => {
        match $chunk {
            Chunk::Boolean($items) => $body,
            Chunk::I8($items) => $body,
            Chunk::I16($items) => $body,
            Chunk::I32($items) => $body,
            Chunk::I64($items) => $body,
            Chunk::I128($items) => $body,
            Chunk::U8($items) => $body,
            Chunk::U16($items) => $body,
            Chunk::U32($items) => $body,
            Chunk::U64($items) => $body,
            Chunk::Bytes($items) => $body,
        }
    };
}

/// A chunk of what is made of the array of a chunk, whichever it is.
macro_rules! map_array {
    ($chunk:expr, $items:ident => $body:expr) => {
        match $chunk {
            Chunk::Boolean($items) => Ok(Chunk::Boolean($body?)),
            Chunk::I8($items) => Ok(Chunk::I8($body?)),
            Chunk::I16($items) => Ok(Chunk::I16($body?)),
            Chunk::I32($items) => Ok(Chunk::I32($body?)),
            Chunk::I64($items) => Ok(Chunk::I64($body?)),
            Chunk::I128($items) => Ok(Chunk::I128($body?)),
            Chunk::U8($items) => Ok(Chunk::U8($body?)),
            Chunk::U16($items) => Ok(Chunk::U16($body?)),
            Chunk::U32($items) => Ok(Chunk::U32($body?)),
            Chunk::U64($items) => Ok(Chunk::U64($body?)),
            Chunk::Bytes($items) => Ok(Chunk::Bytes($body?)),
        }
    };
}

/// The array of a chunk of the same physical type as one that is an array of this kind.
macro_rules! array_of {
    ($chunk:expr, $kind:path) => {
        match $chunk {
            $kind(items) => items,
            _ => unreachable!(),
        }
    };
}

impl Chunk {
    /// A chunk of a physical type, without items yet.
    pub fn new(alloc: Global, physical: PhysicalType) -> Chunk
        ensures kind { chunk_physical result ≡ physical }
        ensures empty { chunk_leaves result ≡ [] }
    {
        match physical {
            PhysicalType::Boolean => Chunk::Boolean(BooleanArray::new(alloc)),
            PhysicalType::I8 => Chunk::I8(PrimitiveArray::new(alloc)),
            PhysicalType::I16 => Chunk::I16(PrimitiveArray::new(alloc)),
            PhysicalType::I32 => Chunk::I32(PrimitiveArray::new(alloc)),
            PhysicalType::I64 => Chunk::I64(PrimitiveArray::new(alloc)),
            PhysicalType::I128 => Chunk::I128(PrimitiveArray::new(alloc)),
            PhysicalType::U8 => Chunk::U8(PrimitiveArray::new(alloc)),
            PhysicalType::U16 => Chunk::U16(PrimitiveArray::new(alloc)),
            PhysicalType::U32 => Chunk::U32(PrimitiveArray::new(alloc)),
            PhysicalType::U64 => Chunk::U64(PrimitiveArray::new(alloc)),
            PhysicalType::Bytes => Chunk::Bytes(BinaryArray::new(alloc)),
        }
    }

    /// How the items are kept.
    pub fn physical(&self) -> PhysicalType
        ensures { result ≡ chunk_physical self.now }
    {
        match self {
            Chunk::Boolean(_) => PhysicalType::Boolean,
            Chunk::I8(_) => PhysicalType::I8,
            Chunk::I16(_) => PhysicalType::I16,
            Chunk::I32(_) => PhysicalType::I32,
            Chunk::I64(_) => PhysicalType::I64,
            Chunk::I128(_) => PhysicalType::I128,
            Chunk::U8(_) => PhysicalType::U8,
            Chunk::U16(_) => PhysicalType::U16,
            Chunk::U32(_) => PhysicalType::U32,
            Chunk::U64(_) => PhysicalType::U64,
            Chunk::Bytes(_) => PhysicalType::Bytes,
        }
    }

    /// Whether the values of a type are kept as the items are.
    pub fn is_of_kind(&self, dtype: DataType) -> bool
        ensures { result ≡ is_of_kind dtype self.now }
    {
        dtype.physical() == self.physical()
    }

    /// The number of items, nulls among them. Each is kept as the physical type tells.
    pub fn len(&self) -> usize
        ensures len { result ≡ length (chunk_leaves self.now) }
        ensures kept { All (IsKept (chunk_physical self.now)) (chunk_leaves self.now) }
    {
        with_array!(self, items => items.count())
    }

    /// The number of nulls.
    pub fn null_count(&self) -> usize
        ensures { result ≡ count_by is_null (chunk_leaves self.now) }
    {
        with_array!(self, items => items.count_null())
    }

    /// Whether some present item is no text, where the type is one of texts.
    #[tactic(auto, using(crate::proofs::Texts::whole_texts))]
    pub(crate) fn has_invalid_utf8(&self, dtype: DataType) -> bool
        ensures { result ≡ list_any (λ value. not (is_text dtype value)) (chunk_leaves self.now) }
    {
        match self {
            Chunk::Bytes(items) => same_type(dtype, DataType::String) && has_invalid_utf8(items),
            _ => false,
        }
    }

    /// The value at a place, lent.
    #[inline(always)]
    pub fn leaf_ref(&self, i: usize) -> LeafRef<'_>
        requires { i < length (chunk_leaves self.now) }
        ensures value { lent_leaf result ≡ value_at (chunk_leaves self.now) i }
        ensures kept { IsKept (chunk_physical self.now) (lent_leaf result) }
    {
        with_array!(self, items => items.lent(i))
    }

    /// Appends a value. After `Err` the values are as they were.
    #[inline(always)]
    pub fn push_ref(&mut self, value: LeafRef<'_>) -> Result<(), AllocError>
        requires { IsKept (chunk_physical self.old) (lent_leaf value) }
        ensures ok { OnOk result
            (chunk_leaves self.new ≡ chunk_leaves self.old ++ lent_leaf value.entry ∷ []) }
        ensures err { OnErr result (self.new ≡ self.old) }
        ensures kind { chunk_physical self.new ≡ chunk_physical self.old }
    {
        with_array!(self, items => items.push_value(value))
    }

    /// Appends a null. After `Err` the values are as they were.
    pub fn push_null(&mut self) -> Result<(), AllocError>
        ensures ok { OnOk result
            (chunk_leaves self.new ≡ chunk_leaves self.old ++ leaves.Null ∷ []) }
        ensures err { OnErr result (self.new ≡ self.old) }
        ensures kind { chunk_physical self.new ≡ chunk_physical self.old }
    {
        with_array!(self, items => items.push_missing())
    }

    /// Appends the item at a place of a chunk of the same physical type. After `Err` the values are
    /// as they were.
    pub fn push_from(&mut self, source: &Chunk, i: usize) -> Result<(), AllocError>
        requires same_kind { chunk_physical source.now ≡ chunk_physical self.old }
        requires in_bounds { i < length (chunk_leaves source.now) }
        ensures ok { OnOk result
            (chunk_leaves self.new
            ≡ chunk_leaves self.old ++ value_at (chunk_leaves source.now) i ∷ []) }
        ensures err { OnErr result (self.new ≡ self.old) }
        ensures kind { chunk_physical self.new ≡ chunk_physical self.old }
    {
        match self {
            Chunk::Boolean(items) => items.push_item(array_of!(source, Chunk::Boolean), i),
            Chunk::I8(items) => items.push_item(array_of!(source, Chunk::I8), i),
            Chunk::I16(items) => items.push_item(array_of!(source, Chunk::I16), i),
            Chunk::I32(items) => items.push_item(array_of!(source, Chunk::I32), i),
            Chunk::I64(items) => items.push_item(array_of!(source, Chunk::I64), i),
            Chunk::I128(items) => items.push_item(array_of!(source, Chunk::I128), i),
            Chunk::U8(items) => items.push_item(array_of!(source, Chunk::U8), i),
            Chunk::U16(items) => items.push_item(array_of!(source, Chunk::U16), i),
            Chunk::U32(items) => items.push_item(array_of!(source, Chunk::U32), i),
            Chunk::U64(items) => items.push_item(array_of!(source, Chunk::U64), i),
            Chunk::Bytes(items) => items.push_item(array_of!(source, Chunk::Bytes), i),
        }
    }

    /// The values at indexes, in the order of the indexes.
    pub fn take(&self, alloc: Global, idxs: &[IdxSize]) -> Result<Chunk, AllocError>
        requires { All (λ i. i < length (chunk_leaves self.now)) idxs.now }
        ensures values { IfOk result
            (λ taken. chunk_leaves taken ≡ values_at (chunk_leaves self.now) idxs.now) }
        ensures kind { IfOk result (λ taken. chunk_physical taken ≡ chunk_physical self.now) }
    {
        map_array!(self, items => items.take_items(alloc, idxs))
    }

    /// Appends `len` values of a chunk of the same physical type, from `start` on. After `Err` the
    /// values are as they were.
    pub fn extend_from_range(
        &mut self,
        source: &Chunk,
        start: usize,
        len: usize,
    ) -> Result<(), AllocError>
        requires same_kind { chunk_physical source.now ≡ chunk_physical self.old }
        requires in_bounds { start + len ≤ length (chunk_leaves source.now) }
        ensures ok { OnOk result
            (chunk_leaves self.new
            ≡ chunk_leaves self.old ++ take len (drop start (chunk_leaves source.now))) }
        ensures err { OnErr result (self.new ≡ self.old) }
        ensures kind { chunk_physical self.new ≡ chunk_physical self.old }
    {
        match self {
            Chunk::Boolean(items) => {
                items.extend_items(array_of!(source, Chunk::Boolean), start, len)
            }
            Chunk::I8(items) => { items.extend_items(array_of!(source, Chunk::I8), start, len) }
            Chunk::I16(items) => { items.extend_items(array_of!(source, Chunk::I16), start, len) }
            Chunk::I32(items) => { items.extend_items(array_of!(source, Chunk::I32), start, len) }
            Chunk::I64(items) => { items.extend_items(array_of!(source, Chunk::I64), start, len) }
            Chunk::I128(items) => { items.extend_items(array_of!(source, Chunk::I128), start, len) }
            Chunk::U8(items) => { items.extend_items(array_of!(source, Chunk::U8), start, len) }
            Chunk::U16(items) => { items.extend_items(array_of!(source, Chunk::U16), start, len) }
            Chunk::U32(items) => { items.extend_items(array_of!(source, Chunk::U32), start, len) }
            Chunk::U64(items) => { items.extend_items(array_of!(source, Chunk::U64), start, len) }
            Chunk::Bytes(items) => {
                items.extend_items(array_of!(source, Chunk::Bytes), start, len)
            }
        }
    }
}
