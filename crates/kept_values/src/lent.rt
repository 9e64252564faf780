//! Values of columns that are kept, and lent again.
ghost use Rattle.std.specs.Prelude.{◌≡◌, map, IfOk};
ghost use Rattle.col_core.specs.declared.data_type.PhysicalType.TheVariants as kept;
ghost use Rattle.col_core.specs.declared.leaf.Leaf.TheVariants as leaves;
ghost use Rattle.col_core.specs.Lent.{lent_leaf};
ghost use Rattle.col_core.specs.Tables.{chunk_leaves, chunk_physical};
ghost use Rattle.col_core.specs.Values.{item_leaf};
ghost use Rattle.col_core.specs.Physical.{IsTruth, IsNumber, HasBytes};
ghost use Rattle.kept_values.specs.Kept.{number_or_null, truth_or_null, bytes_or_null};

use crate::number::ColumnNumber;
use col_core::{BinaryArray, Blob, Chunk, LeafRef};
use std::alloc::{AllocError, Global};

/// The number that is lent, or `None` for a null.
pub fn number_of<T: ColumnNumber>(item: LeafRef<'_>) -> Option<T>
    requires { IsNumber T.fits (lent_leaf item) }
    ensures { number_or_null T.value result ≡ lent_leaf item.entry }
{
    match item {
        LeafRef::Whole(z) => Some(T::from_whole(z)),
        _ => None,
    }
}

/// A number, lent, or a null for `None`.
pub fn lend_number<T: ColumnNumber>(number: Option<T>) -> LeafRef<'static>
    ensures value { lent_leaf result ≡ number_or_null T.value number }
    ensures kept { IsNumber T.fits (lent_leaf result) }
{
    match number {
        Some(number) => LeafRef::Whole(number.to_whole()),
        None => LeafRef::Null,
    }
}

/// The truth value that is lent, or `None` for a null.
pub fn truth_of(item: LeafRef<'_>) -> Option<bool>
    requires { IsTruth (lent_leaf item) }
    ensures { truth_or_null result ≡ lent_leaf item.entry }
{
    match item {
        LeafRef::Bool(b) => Some(b),
        _ => None,
    }
}

/// A truth value, lent, or a null for `None`.
pub fn lend_truth(truth: Option<bool>) -> LeafRef<'static>
    ensures value { lent_leaf result ≡ truth_or_null truth }
    ensures kept { IsTruth (lent_leaf result) }
{
    match truth {
        Some(truth) => LeafRef::Bool(truth),
        None => LeafRef::Null,
    }
}

/// The bytes of a chunk that keeps bytes.
pub fn byte_array(chunk: &Chunk) -> &BinaryArray
    requires { chunk_physical chunk.now ≡ kept.Bytes }
    ensures { chunk_leaves chunk.now ≡ map (item_leaf (λ b. leaves.Bytes b)) result.now }
{
    match chunk {
        Chunk::Bytes(items) => items,
        _ => unreachable!(),
    }
}

/// A copy of the bytes that are lent, or `None` for a null.
pub fn bytes_of(alloc: Global, item: LeafRef<'_>) -> Result<Option<Blob>, AllocError>
    requires { HasBytes (lent_leaf item) }
    ensures { IfOk result (λ kept. bytes_or_null kept ≡ lent_leaf item.entry) }
{
    match item {
        LeafRef::Bytes(bytes) => Ok(Some(Blob::new(alloc, bytes)?)),
        _ => Ok(None),
    }
}

/// Bytes, lent, or a null for `None`.
pub fn lend_bytes(bytes: &Option<Blob>) -> LeafRef<'_>
    ensures value { lent_leaf result ≡ bytes_or_null bytes.now }
    ensures kept { HasBytes (lent_leaf result) }
{
    match bytes {
        Some(bytes) => LeafRef::Bytes(bytes.as_slice()),
        None => LeafRef::Null,
    }
}
