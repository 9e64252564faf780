//! Frames that grow.
ghost use Rattle.std.specs.Prelude.{◌≡◌, ◌<◌, ◌^◌, ◌+◌, ◌++◌, [], map, length, IfOk};
ghost use Rattle.std.specs.List.{All};
ghost use Rattle.col_core.specs.Values.{Fits};
ghost use Rattle.pair_rows.specs.Growing.{empty_column};

use col_core::{ColumnBuilder, Field, Frame, Name, Schema, Series};
use std::alloc::{AllocError, Global};
use std::marker::Model;

/// A frame that grows by whole frames of its schema, each column in one chunk. Contracts see its
/// schema and its rows so far.
#[derive(Drop)]
pub struct FrameBuilder {
    schema: Schema,
    columns: Vec<ColumnBuilder>,
    height: usize,
}

impl Model for FrameBuilder {
    ghost use Rattle.col_core.specs.Tables.{Table};
    ghost use Rattle.pair_rows.specs.Growing.{growing_rows, AreGrowing};

    ghost Value = { Table };

    ghost view = { λ b.
        record { schema = b.schema; rows = growing_rows b.columns.items b.height } };

    ghost invariant = { λ b. AreGrowing b.schema b.columns.items b.height };
}

/// A column without values for each field.
fn empty_columns(alloc: Global, fields: &[Field]) -> Result<Vec<ColumnBuilder>, AllocError>
    ensures { IfOk result (λ columns. columns.items ≡ map empty_column fields.now) }
{
    fields
        .iter()
        .map(|field| ColumnBuilder::new(alloc, field.dtype))
        .collect(alloc)
}

/// A column under a field's name. Its values fit its type.
fn finish_column(alloc: Global, column: ColumnBuilder, field: &Field) -> Result<Series, AllocError>
    ensures column { IfOk result (λ s. s ≡ record { name = field.now.name; dtype = column.dtype; values = column.values }) }
    ensures fits { IfOk result (λ s. All (Fits s.dtype) s.values) }
{
    let finished = column.finish(alloc, Name::new(alloc, field.name.as_str())?)?;
    let _dtype = finished.dtype();
    Ok(finished)
}

#[tactic(auto, using(crate::proofs::Growing::growing))]
impl FrameBuilder {
    /// No rows of a schema.
    pub fn new(alloc: Global, schema: Schema) -> Result<FrameBuilder, AllocError>
        ensures { IfOk result (λ b. b ≡ record { schema = schema; rows = [] }) }
    {
        let columns = empty_columns(alloc, schema.fields())?;
        Ok(FrameBuilder {
            schema,
            columns,
            height: 0,
        })
    }

    /// The number of rows so far.
    pub fn height(&self) -> usize
        ensures { result ≡ length self.now.rows }
    {
        self.height
    }

    /// Appends the rows of a frame of the schema. For want of memory the builder is given up.
    pub fn append(self, rows: &Frame) -> Result<FrameBuilder, AllocError>
        requires schema { rows.now.schema ≡ self.schema }
        requires few { length self.rows + length rows.now.rows < 2 ^ 64 }
        ensures { IfOk result
            (λ b. b ≡ record { schema = self.schema; rows = self.rows ++ rows.now.rows }) }
    {
        let FrameBuilder {
            schema,
            mut columns,
            height,
        } = self;
        for i in 0..columns.len() {
            columns[i].extend_from_range(rows.column(i), 0, rows.height())?;
        }
        Ok(FrameBuilder {
            schema,
            columns,
            height: height + rows.height(),
        })
    }

    /// The frame, each column in one chunk.
    pub fn finish(self, alloc: Global) -> Result<Frame, AllocError>
        ensures { IfOk result (λ f. f ≡ record { schema = self.schema; rows = self.rows }) }
    {
        let FrameBuilder {
            schema,
            columns,
            height,
        } = self;
        let mut finished = Vec::with_capacity(alloc, columns.len())?;
        for column in columns {
            let field = schema.field(finished.len());
            finished.push(finish_column(alloc, column, field)?)?;
        }
        Ok(Frame::from_columns(schema, finished, height))
    }
}
