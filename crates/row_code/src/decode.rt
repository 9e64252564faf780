//! Bytes as rows.
ghost use Rattle.std.specs.Prelude.{◌≡◌, ◌++◌, [], ◌∷◌, List, map, drop, length, OnOk, OnErr, IfOk};
ghost use Rattle.std.specs.List.{All};
ghost use Rattle.col_arrays.specs.Items.{stored};
ghost use Rattle.col_core.specs.declared.schema.Field.{Field};
ghost use Rattle.col_core.specs.Tables.{Row, header, column_of, values_of, rows_from, AreColumnsOf};
ghost use Rattle.col_core.specs.Values.{Fits};
ghost use Rattle.row_code.specs.Spelling.{row_spelling, IsRowOf, IsSpelling, HasValueInFront};

use crate::read::read_value;
use col_arrays::BinaryArray;
use col_core::{ColumnBuilder, Field, Frame, Name, Schema, Series};
use std::alloc::{AllocError, Global};
use std::marker::Model;

/// Rows that are read back from their bytes. Contracts see the schema, and the bytes of the rows
/// taken so far.
#[derive(Debug, Drop)]
pub struct RowDecoder {
    schema: Schema,
    taken: BinaryArray,
}

impl Model for RowDecoder {
    ghost use Rattle.std.specs.List.{All};
    ghost use Rattle.col_arrays.specs.Items.{stored};
    ghost use Rattle.row_code.specs.Spelling.{Spelled, IsSpelling};

    ghost Value = { Spelled };

    ghost view = { λ d. record { schema = d.schema; rows = stored d.taken } };

    ghost invariant = { λ d. All (IsSpelling d.schema) (stored d.taken) };
}

impl RowDecoder {
    /// No rows of a schema yet.
    pub fn new(alloc: Global, schema: &Schema) -> Result<Self, AllocError>
        ensures { IfOk result (λ d. d ≡ record { schema = schema.now; rows = [] }) }
    {
        Ok(RowDecoder {
            schema: schema.try_clone(alloc)?,
            taken: BinaryArray::new(alloc),
        })
    }

    /// Takes the bytes of a row of the schema, all that `row_length` finds. After `Err` the row is
    /// not taken.
    pub fn push_row(&mut self, bytes: &[u8]) -> Result<(), AllocError>
        requires { IsSpelling self.old.schema bytes.now }
        ensures ok { OnOk result (self.new ≡ record { schema = self.old.schema; rows = self.old.rows ++ bytes.now ∷ [] }) }
        ensures err { OnErr result (self.new ≡ self.old) }
    {
        self.taken.push(bytes, true)?;
        Ok(())
    }

    /// The rows whose bytes were taken, in order, each column in one chunk.
    pub fn finish(self, alloc: Global) -> Result<Frame, AllocError>
        ensures { IfOk result (λ f. (rows : List Row) → All (IsRowOf self.schema) rows → self.rows ≡ map (row_spelling self.schema) rows → f ≡ record { schema = self.schema; rows = rows }) }
    {
        let RowDecoder { schema, taken } = self;
        let columns = read_columns(alloc, schema.fields(), &taken)?;
        Ok(Frame::from_columns(schema, columns, taken.len()))
    }
}

/// The columns of rows of some fields, from their bytes.
fn read_columns(
    alloc: Global,
    fields: &[Field],
    taken: &BinaryArray,
) -> Result<Vec<Series>, AllocError>
    requires { All (IsSpelling fields.now) (stored taken.now) }
    ensures columns { IfOk result (λ v. AreColumnsOf fields.now v.items (length taken.now)) }
    ensures rows { IfOk result (λ v. (rows : List Row) → All (IsRowOf fields.now) rows → stored taken.now ≡ map (row_spelling fields.now) rows → rows_from (length taken.now) (values_of v.items) ≡ rows) }
{
    let mut rests = lent_items(alloc, taken)?;
    let mut columns = Vec::with_capacity(alloc, fields.len())?;
    for field in fields {
        columns.push(read_column(alloc, field, &mut rests)?)?;
    }
    Ok(columns)
}

/// The bytes of items, lent.
fn lent_items<'a>(alloc: Global, items: &'a BinaryArray) -> Result<Vec<&'a [u8]>, AllocError>
    ensures { IfOk result (λ v. map (λ b. b.now) v.items ≡ stored items.now) }
{
    let mut lent = Vec::with_capacity(alloc, items.len())?;
    for i in 0..items.len() {
        lent.push(items.value(i))?;
    }
    Ok(lent)
}

/// The column of the values of a field that each of these begins with, in place of which what
/// follows it is left.
fn read_column<'a>(
    alloc: Global,
    field: &Field,
    rows: &mut Vec<&'a [u8]>,
) -> Result<Series, AllocError>
    requires { All (λ r. HasValueInFront field.now.dtype r.now) rows.old.items }
    ensures header { IfOk result (λ s. header s ≡ field.now) }
    ensures fits { IfOk result (λ s. All (Fits s.dtype) s.values) }
    ensures read { IfOk result (λ s. (fields : List Field) (whole : List Row) → All (IsRowOf (field.now ∷ fields)) whole → map (λ b. b.now) rows.old.items ≡ map (row_spelling (field.now ∷ fields)) whole → (s.values ≡ column_of 0 whole) × (map (λ b. b.now) rows.new.items ≡ map (λ row. row_spelling fields (drop 1 row)) whole)) }
{
    let name = Name::new(alloc, field.name.as_str())?;
    let mut values = ColumnBuilder::new(alloc, field.dtype);
    *rows = read_values(alloc, field, rows, &mut values)?;
    let column = values.finish(alloc, name)?;
    let _dtype = column.dtype();
    Ok(column)
}

/// Appends the values of a field that each of these begins with, and gives what follows it.
fn read_values<'a>(
    alloc: Global,
    field: &Field,
    rows: &[&'a [u8]],
    values: &mut ColumnBuilder,
) -> Result<Vec<&'a [u8]>, AllocError>
    requires some { All (λ r. HasValueInFront field.now.dtype r.now) rows.now }
    requires empty { values.old ≡ record { dtype = field.now.dtype; values = [] } }
    ensures dtype { values.new.dtype ≡ field.now.dtype }
    ensures read { IfOk result (λ rests. (fields : List Field) (whole : List Row) → All (IsRowOf (field.now ∷ fields)) whole → map (λ b. b.now) rows.now ≡ map (row_spelling (field.now ∷ fields)) whole → (values.new.values ≡ column_of 0 whole) × (map (λ b. b.now) rests.items ≡ map (λ row. row_spelling fields (drop 1 row)) whole)) }
{
    let mut rests = Vec::with_capacity(alloc, rows.len())?;
    for row in rows {
        match read_value(field.dtype, row) {
            Some((value, rest)) => {
                values.push_ref(value)?;
                rests.push(rest)?;
            }
            None => unreachable!(),
        }
    }
    Ok(rests)
}
