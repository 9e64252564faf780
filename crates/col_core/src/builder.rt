//! Columns that grow.
ghost use Rattle.std.specs.Prelude.{◌≡◌, ◌<◌, ◌≤◌, ◌+◌, [], ◌∷◌, ◌++◌, length, take, drop, OnOk, OnErr, IfOk};
ghost use Rattle.col_core.specs.Lent.{lent_leaf};
ghost use Rattle.col_core.specs.Tables.{Column, Growing};
ghost use Rattle.col_core.specs.Values.{value_at, Fits};

use crate::chunk::Chunk;
use crate::data_type::DataType;
use crate::leaf::{Leaf, LeafRef};
use crate::series::Series;
use crate::text::Name;
use std::alloc::{AllocError, Global};
use std::marker::Model;

/// A column that grows, in one chunk. Contracts see its type and its values so far.
#[derive(Drop)]
pub struct ColumnBuilder {
    dtype: DataType,
    chunk: Chunk,
}

impl Model for ColumnBuilder {
    ghost use Rattle.col_core.specs.Lent.{lent_leaf};
    ghost use Rattle.col_core.specs.Tables.{Growing, chunk_leaves, IsBuilt};

    ghost Value = { Growing };

    ghost view = { λ b. record { dtype = b.dtype; values = chunk_leaves b.chunk } };

    ghost invariant = { λ b. IsBuilt b.dtype b.chunk };
}

impl ColumnBuilder {
    /// An empty column of a type.
    pub fn new(alloc: Global, dtype: DataType) -> ColumnBuilder
        ensures { result ≡ record { dtype = dtype; values = [] } }
    {
        ColumnBuilder {
            dtype,
            chunk: Chunk::new(alloc, dtype.physical()),
        }
    }

    /// The number of values so far.
    pub fn len(&self) -> usize
        ensures { result ≡ length self.now.values }
    {
        self.chunk.len()
    }

    /// The type of the column.
    pub fn dtype(&self) -> DataType
        ensures { result ≡ self.now.dtype }
    {
        self.dtype
    }

    /// Appends a value that fits the type, as `LeafRef::fits` tells. After `Err` the column is as it
    /// was.
    #[tactic(auto, using(crate::proofs::Leaves::grows))]
    pub fn push_ref(&mut self, value: LeafRef<'_>) -> Result<(), AllocError>
        requires { Fits self.old.dtype (lent_leaf value) }
        ensures ok { OnOk result
            (self.new ≡
            record {
              dtype = self.old.dtype;
              values = self.old.values ++ lent_leaf value.entry ∷ [];
            }) }
        ensures err { OnErr result (self.new ≡ self.old) }
    {
        self.chunk.push_ref(value)?;
        Ok(())
    }

    /// Appends a value that fits the type. After `Err` the column is as it was.
    pub fn push_leaf(&mut self, value: &Leaf) -> Result<(), AllocError>
        requires { Fits self.old.dtype value.now }
        ensures ok { OnOk result
            (self.new ≡
            record { dtype = self.old.dtype; values = self.old.values ++ value.now ∷ [] }) }
        ensures err { OnErr result (self.new ≡ self.old) }
    {
        self.push_ref(value.as_ref())
    }

    /// Appends the value at a place of a column of the same type. After `Err` the column is as it
    /// was.
    #[tactic(auto, using(crate::proofs::Leaves::grows))]
    pub fn push_from(&mut self, source: &Series, i: usize) -> Result<(), AllocError>
        requires same_type { source.now.dtype ≡ self.old.dtype }
        requires in_bounds { i < length source.now.values }
        ensures ok { OnOk result
            (self.new ≡
            record {
              dtype = self.old.dtype;
              values = self.old.values ++ value_at source.now.values i ∷ [];
            }) }
        ensures err { OnErr result (self.new ≡ self.old) }
    {
        let (chunk, place) = source.chunk_at(i);
        self.chunk.push_from(chunk, place)?;
        Ok(())
    }

    /// Appends `len` values of a column of the same type, from `start` on. After `Err` the column is
    /// as it was.
    #[tactic(auto, using(crate::proofs::Leaves::grows))]
    pub fn extend_from_range(
        &mut self,
        source: &Series,
        start: usize,
        len: usize,
    ) -> Result<(), AllocError>
        requires same_type { source.now.dtype ≡ self.old.dtype }
        requires in_bounds { start + len ≤ length source.now.values }
        ensures ok { OnOk result
            (self.new ≡
            record {
              dtype = self.old.dtype;
              values = self.old.values ++ take len (drop start source.now.values);
            }) }
        ensures err { OnErr result (self.new ≡ self.old) }
    {
        source.append_range(&mut self.chunk, start, len)?;
        Ok(())
    }

    /// The column, in one chunk.
    pub fn finish(self, alloc: Global, name: Name) -> Result<Series, AllocError>
        ensures { IfOk result
            (λ s. s ≡ record { name = name; dtype = self.dtype; values = self.values }) }
    {
        let ColumnBuilder { dtype, chunk } = self;
        Series::from_chunk(alloc, name, dtype, chunk)
    }
}
