//! Frames: columns of one height, which contracts see as rows.
ghost use Rattle.std.specs.Prelude.{◌≡◌, ◌<◌, ◌≤◌, ◌+◌, length, take, drop, IfOk, map, slice_get, Some, None, IfErr, IsTrue};
ghost use Rattle.std.specs.Option.{unwrap_or};
ghost use Rattle.col_core.specs.declared.frame.FrameError.TheVariants.{Memory};
ghost use Rattle.col_core.specs.Refusals.{frame_refusal, height_of, differ_in_height, has_types};
ghost use Rattle.std.specs.List.{All};
ghost use Rattle.col_core.specs.Tables.{Table, Column, column_of, rows_at, rows_from, values_of, header, AreColumnsOf, AreWide, FitsSchema, selected};
ghost use Rattle.col_core.specs.Values.{Fits};

use crate::IdxSize;
use crate::schema::{Field, Schema};
use crate::series::Series;
use crate::text::Name;
use std::alloc::{AllocError, Global};
use std::marker::Model;

/// Columns of one height under a schema. Contracts see the schema and the rows.
#[derive(Debug, Drop)]
pub struct Frame {
    schema: Schema,
    columns: Vec<Series>,
    height: usize,
}

impl Model for Frame {
    ghost use Rattle.col_core.specs.Tables.{Table, rows_from, values_of, AreColumnsOf};

    ghost Value = { Table };

    ghost view = { λ f.
        record { schema = f.schema; rows = rows_from f.height (values_of f.columns.items) } };

    ghost invariant = { λ f. AreColumnsOf f.schema f.columns.items f.height };
}

/// Why columns make no frame.
#[derive(Clone, Copy, PartialEq, Eq, Debug)]
pub enum FrameError {
    /// 1: there is not one column for each field.
    Width,
    /// 2: two columns differ in length.
    Height,
    /// 3: a column's type is not its field's.
    WrongType,
    /// 4: want of memory.
    Memory,
}

impl From<AllocError> for FrameError {
    ghost use Rattle.std.specs.Prelude.{◌≡◌};
    ghost use Rattle.col_core.specs.declared.frame.FrameError.TheVariants.{Memory};

    ghost from_gives = { λ _ e. e ≡ Memory };

    fn from(_error: AllocError) -> FrameError {
        FrameError::Memory
    }
}

#[tactic(auto, using(crate::proofs::Rows::row_facts))]
impl Frame {
    /// A frame of columns, each under its field's name. The refusals come in the order of
    /// `FrameError`, the first that holds; a frame without columns has height 0.
    pub fn new(alloc: Global, schema: Schema, columns: Vec<Series>) -> Result<Frame, FrameError>
        ensures ok { IfOk result
            (λ f. f ≡ record {
              schema = schema;
              rows = rows_from (height_of columns.items) (values_of columns.items);
            }) }
        ensures accepted { IfOk result (λ _. frame_refusal schema columns.items ≡ None) }
        ensures refused { IfErr result
            (λ e. e ≡ unwrap_or (frame_refusal schema columns.items) Memory) }
    {
        if let Some(refusal) = refusal_of(&schema, &columns) {
            return Err(refusal);
        }
        let height = height_of(&columns);
        let columns = columns_named(alloc, &schema, columns)?;
        Ok(Frame::from_columns(schema, columns, height))
    }

    /// A frame of columns that stand under the schema.
    pub fn from_columns(schema: Schema, columns: Vec<Series>, height: usize) -> Frame
        requires { AreColumnsOf schema columns.items height }
        ensures { result
            ≡ record { schema = schema; rows = rows_from height (values_of columns.items) } }
    {
        Frame {
            schema,
            columns,
            height,
        }
    }

    /// The number of rows, each of which fits the schema.
    pub fn height(&self) -> usize
        ensures height { result ≡ length self.now.rows }
        ensures wide { AreWide self.now }
        ensures fits { All (FitsSchema self.now.schema) self.now.rows }
    {
        self.height
    }

    /// The fields of the columns, in order.
    pub fn schema(&self) -> &Schema
        ensures { result.now ≡ self.now.schema }
    {
        &self.schema
    }

    /// All columns, in order.
    pub fn columns(&self) -> &[Series]
        ensures under { AreColumnsOf self.now.schema result.now (length self.now.rows) }
        ensures rows { self.now.rows ≡ rows_from (length self.now.rows) (values_of result.now) }
    {
        &self.columns
    }

    /// The column at a place.
    pub fn column(&self, i: usize) -> &Series
        requires { i < length self.now.schema }
        ensures values { result.now.values ≡ column_of i self.now.rows }
        ensures header { slice_get self.now.schema i ≡ Some (header result.now) }
        ensures fits { All (Fits result.now.dtype) result.now.values }
    {
        let _ = &self.height;
        &self.columns[i]
    }

    /// The rows at indexes, in the order of the indexes, each column in one chunk.
    pub fn take(&self, alloc: Global, idxs: &[IdxSize]) -> Result<Frame, AllocError>
        requires in_bounds { All (λ i. i < length self.now.rows) idxs.now }
        ensures { IfOk result
            (λ f. f ≡ record { schema = self.now.schema; rows = rows_at self.now.rows idxs.now }) }
    {
        let mut columns = Vec::new(alloc);
        for column in self.columns() {
            columns.push(column.take(alloc, idxs)?)?;
        }
        Ok(Frame::from_columns(self.schema.try_clone(alloc)?, columns, idxs.len()))
    }

    /// Some of the columns, by their places, each in one chunk.
    #[tactic(auto, using(crate::proofs::Rows::row_facts, crate::proofs::Rows::fields))]
    pub fn select(&self, alloc: Global, places: &[usize]) -> Result<Frame, AllocError>
        requires in_bounds { All (λ i. i < length self.now.schema) places.now }
        ensures { IfOk result (λ f. f ≡ selected places.now self.now) }
    {
        let mut columns = Vec::new(alloc);
        for place in places {
            columns.push(self.column(*place).try_clone(alloc)?)?;
        }
        let schema = self.schema().select(alloc, places)?;
        Ok(Frame::from_columns(schema, columns, self.height()))
    }

    /// The `len` rows from `start` on, each column in one chunk.
    pub fn slice(&self, alloc: Global, start: usize, len: usize) -> Result<Frame, AllocError>
        requires in_bounds { start + len ≤ length self.now.rows }
        ensures { IfOk result
            (λ f. f ≡ record {
              schema = self.now.schema;
              rows = take len (drop start self.now.rows);
            }) }
    {
        let mut columns = Vec::new(alloc);
        for column in self.columns() {
            columns.push(column.slice(alloc, start, len)?)?;
        }
        Ok(Frame::from_columns(self.schema.try_clone(alloc)?, columns, len))
    }
}

/// The first cause for which columns make no frame, but for memory.
fn refusal_of(schema: &Schema, columns: &[Series]) -> Option<FrameError>
    ensures { result ≡ frame_refusal schema.now columns.now }
{
    if columns.len() != schema.len() {
        return Some(FrameError::Width);
    }
    if differ_in_height(columns) {
        return Some(FrameError::Height);
    }
    if !has_types(schema.fields(), columns) {
        return Some(FrameError::WrongType);
    }
    None
}

fn height_of(columns: &[Series]) -> usize
    ensures { result ≡ height_of columns.now }
{
    match columns {
        [] => 0,
        [first, ..] => first.len(),
    }
}

fn differ_in_height(columns: &[Series]) -> bool
    ensures { result ≡ differ_in_height columns.now }
{
    let height = height_of(columns);
    columns.iter().any(|column| column.len() != height)
}

#[tactic(auto, using(list_laws::proofs::Pointwise::place_by_place))]
fn has_types(fields: &[Field], columns: &[Series]) -> bool
    requires { length columns.now ≡ length fields.now }
    ensures { result ≡ has_types fields.now columns.now }
{
    for i in 0..fields.len() {
        if fields[i].dtype != columns[i].dtype() {
            return false;
        }
    }
    true
}

/// The columns, each under its field's name.
#[tactic(auto, using(crate::proofs::Named::naming))]
fn columns_named(
    alloc: Global,
    schema: &Schema,
    columns: Vec<Series>,
) -> Result<Vec<Series>, AllocError>
    requires types { IsTrue (has_types schema.now columns.items) }
    ensures headers { IfOk result (λ named. map header named.items ≡ schema.now) }
    ensures values { IfOk result (λ named. values_of named.items ≡ values_of columns.items) }
    ensures fits { IfOk result
        (λ named. All (λ column. All (Fits column.dtype) column.values) named.items) }
{
    let mut named = Vec::new(alloc);
    for column in columns {
        let field = schema.field(named.len());
        named.push(column.with_name(Name::new(alloc, field.name.as_str())?))?;
    }
    Ok(named)
}
