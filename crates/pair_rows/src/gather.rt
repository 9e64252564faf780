//! Rows of frames gathered by their places, column by column.
ghost use Rattle.std.specs.Prelude.{◌≡◌, ◌<◌, ◌++◌, length, IfOk, OnOk, map};
ghost use Rattle.std.specs.List.{All};
ghost use Rattle.col_core.specs.Tables.{header, rows_from, values_of};
ghost use Rattle.col_core.specs.Values.{Fits};
ghost use Rattle.col_core.specs.Places.{IsPlaceIn};
ghost use Rattle.join_probes.specs.Keys.{AllHave};
ghost use Rattle.pair_rows.specs.Gathered.{gathered, gathered_column};

use col_core::{Field, Frame, Name, RowPlace, Schema, Series, gather_column};
use std::alloc::{AllocError, Global};

/// A column of the rows at places, its name after a prefix.
#[tactic(auto, using(crate::proofs::Gathered::gathering))]
fn gathered_column(
    alloc: Global,
    prefix: &str,
    schema: &Schema,
    frames: &[Frame],
    places: &[Option<RowPlace>],
    c: usize,
) -> Result<Series, AllocError>
    requires have { AllHave schema.now frames.now }
    requires places { All (IsPlaceIn frames.now) places.now }
    requires column { c < length schema.now }
    ensures { IfOk result (λ s. s ≡ gathered_column prefix.now schema.now frames.now places.now c) }
{
    let field = schema.field(c);
    let name = Name::joined(alloc, prefix, field.name.as_str())?;
    gather_column(alloc, name, field.dtype, frames, c, places)
}

/// Appends all columns of the rows at places, their names after a prefix.
pub fn gather(
    alloc: Global,
    prefix: &str,
    schema: &Schema,
    frames: &[Frame],
    places: &[Option<RowPlace>],
    columns: &mut Vec<Series>,
) -> Result<(), AllocError>
    requires have { AllHave schema.now frames.now }
    requires places { All (IsPlaceIn frames.now) places.now }
    ensures { OnOk result
        (columns.new.items
        ≡ columns.old.items ++ gathered prefix.now schema.now frames.now places.now) }
{
    for c in 0..schema.len() {
        columns.push(gathered_column(alloc, prefix, schema, frames, places, c)?)?;
    }
    Ok(())
}

/// The schema of columns: their names and types, which their values fit.
fn schema_of_columns(alloc: Global, columns: &[Series]) -> Result<Schema, AllocError>
    ensures headers { IfOk result (λ s. s ≡ map header columns.now) }
    ensures fits { IfOk result (λ _. All (λ c. All (Fits c.dtype) c.values) columns.now) }
{
    let mut fields = Vec::new(alloc);
    for column in columns {
        fields.push(Field {
            name: Name::new(alloc, column.name().as_str())?,
            dtype: column.dtype(),
        })?;
    }
    Ok(Schema::from_fields(fields))
}

/// The frame of columns of one height, under their own names and types.
pub fn frame_of_columns(
    alloc: Global,
    columns: Vec<Series>,
    height: usize,
) -> Result<Frame, AllocError>
    requires { All (λ c. length c.values ≡ height) columns.items }
    ensures { IfOk result
        (λ f. f ≡ record {
          schema = map header columns.items;
          rows = rows_from height (values_of columns.items);
        }) }
{
    let schema = schema_of_columns(alloc, &columns)?;
    Ok(Frame::from_columns(schema, columns, height))
}
