//! Frames: lists of rows, which are read to columns.
ghost use Rattle.std.specs.Prelude.{◌≡◌, ◌⊎◌, IfOk, IfErr, OnOk, Some, IsTrue, false, map, length, option_map};
ghost use Rattle.serde_json.specs.Data.{array};
ghost use Rattle.serde_json.specs.View.{view, items_view};
ghost use Rattle.std.specs.List.{All};
ghost use Rattle.col_core.specs.Tables.{header};
ghost use Rattle.col_core.specs.Values.{Fits};
ghost use Rattle.join_request.specs.Frames.{row_of_value, frame_of_value, frames_of_value, frame_of_rows};
ghost use Rattle.join_request.specs.Columns.{leaf_in, are_wide, row_views, rows_view, height_under, grown};
ghost use Rattle.join_request.specs.Json.{each};
ghost use Rattle.join_request.specs.Refused.{Refuses};

use crate::error::RequestError;
use crate::leaves::{HexTexts, ReadLeaf, Texts, Truths, Wholes};
use col_core::{ColumnBuilder, DataType, Field, Frame, List, Name, Schema, Series};
use serde_json::Value;
use std::alloc::Global;

/// The frames that a value is, under a schema.
pub fn read_frames(
    alloc: Global,
    schema: &Schema,
    value: &Value,
) -> Result<List<Frame>, RequestError>
    ensures ok { IfOk result (λ frames. frames_of_value schema.now (view value.now) ≡ Some frames) }
    ensures err { IfErr result (Refuses (frames_of_value schema.now (view value.now))) }
{
    let Some(items) = value.as_array() else {
        return Err(RequestError::Shape);
    };
    let mut frames = Vec::new(alloc);
    for item in items {
        frames.push(read_frame(alloc, schema, item)?)?;
    }
    Ok(List::from_vec(frames))
}

/// The frame that a value is.
#[tactic(auto, using(crate::proofs::Rows::none_if_narrow))]
fn read_frame(alloc: Global, schema: &Schema, value: &Value) -> Result<Frame, RequestError>
    ensures ok { IfOk result (λ frame. frame_of_value schema.now (view value.now) ≡ Some frame) }
    ensures err { IfErr result (Refuses (frame_of_value schema.now (view value.now))) }
{
    let Some(rows) = value.as_array() else {
        return Err(RequestError::Shape);
    };
    let rows = wide_rows(alloc, rows, schema.len())?;
    frame_of_rows(alloc, schema, &rows)
}

/// The items of rows, each of which is a list of as many.
#[tactic(auto, using(crate::proofs::Rows::widths))]
fn wide_rows<'a>(
    alloc: Global,
    rows: &'a [Value],
    width: usize,
) -> Result<Vec<&'a [Value]>, RequestError>
    ensures ok { IfOk result
        (λ wide. row_views (map (λ row. row.now) wide.items) ≡ map view rows.now) }
    ensures wide { IfOk result (λ _. IsTrue (are_wide width (items_view rows.now))) }
    ensures err { IfErr result
        (λ e. (e ≡ RequestError.Memory)
        ⊎ ((e ≡ RequestError.Shape) × (are_wide width (items_view rows.now) ≡ false))) }
{
    let mut wide = Vec::with_capacity(alloc, rows.len())?;
    for row in rows {
        match row.as_array() {
            Some(items) if items.len() == width => wide.push(items.as_slice())?,
            _ => return Err(RequestError::Shape),
        }
    }
    Ok(wide)
}

/// The frame of rows, each of an item for each field. Without a field they are no rows.
fn frame_of_rows(alloc: Global, schema: &Schema, rows: &[&[Value]]) -> Result<Frame, RequestError>
    requires { IsTrue (are_wide (length schema.now) (rows_view (map (λ row. row.now) rows.now))) }
    ensures ok { IfOk result
        (λ frame. option_map (frame_of_rows schema.now)
        (each (row_of_value schema.now) (rows_view (map (λ row. row.now) rows.now)))
        ≡ Some frame) }
    ensures err { IfErr result
        (Refuses (each (row_of_value schema.now) (rows_view (map (λ row. row.now) rows.now)))) }
{
    let mut columns = Vec::new(alloc);
    for i in 0..schema.len() {
        columns.push(read_column(alloc, schema.field(i), i, rows)?)?;
    }
    let height = height_under(schema, rows.len());
    Ok(Frame::from_columns(schema.try_clone(alloc)?, columns, height))
}

/// The height of the frame of as many rows.
fn height_under(schema: &Schema, rows: usize) -> usize
    ensures { result ≡ height_under schema.now rows }
{
    if schema.len() == 0 { 0 } else { rows }
}

/// The column of a field, whose values stand at one place of each row.
#[tactic(auto, using(crate::proofs::Ranges::has_range))]
fn read_column(
    alloc: Global,
    field: &Field,
    i: usize,
    rows: &[&[Value]],
) -> Result<Series, RequestError>
    ensures ok { IfOk result
        (λ column. each (leaf_in i field.now.dtype) (rows_view (map (λ row. row.now) rows.now))
        ≡ Some column.values) }
    ensures header { IfOk result (λ column. header column ≡ field.now) }
    ensures fits { IfOk result (λ column. All (Fits column.dtype) column.values) }
    ensures err { IfErr result
        (Refuses (each (leaf_in i field.now.dtype) (rows_view (map (λ row. row.now) rows.now)))) }
{
    match field.dtype {
        DataType::Boolean => read_values(alloc, &Truths, field, i, rows),
        DataType::String => read_values(alloc, &Texts, field, i, rows),
        DataType::Binary => read_values(alloc, &HexTexts, field, i, rows),
        dtype => read_values(alloc, &Wholes::of(dtype), field, i, rows),
    }
}

/// The column of a field, whose values are read in one way.
fn read_values<R: ReadLeaf>(
    alloc: Global,
    reader: &R,
    field: &Field,
    i: usize,
    rows: &[&[Value]],
) -> Result<Series, RequestError>
    requires { field.now.dtype ≡ R.dtype reader.now }
    ensures ok { IfOk result
        (λ column. each (leaf_in i field.now.dtype) (rows_view (map (λ row. row.now) rows.now))
        ≡ Some column.values) }
    ensures header { IfOk result (λ column. header column ≡ field.now) }
    ensures fits { IfOk result (λ column. All (Fits column.dtype) column.values) }
    ensures err { IfErr result
        (Refuses (each (leaf_in i field.now.dtype) (rows_view (map (λ row. row.now) rows.now)))) }
{
    let mut values = ColumnBuilder::new(alloc, field.dtype);
    for row in rows {
        push_item(alloc, reader, &mut values, *row, i)?;
    }
    let column = values.finish(alloc, Name::new(alloc, field.name.as_str())?)?;
    // Each value fits the type, as the type is asked for.
    let _dtype = column.dtype();
    Ok(column)
}

/// Appends to a column the value at a place of a row.
fn push_item<R: ReadLeaf>(
    alloc: Global,
    reader: &R,
    values: &mut ColumnBuilder,
    row: &[Value],
    i: usize,
) -> Result<(), RequestError>
    requires { values.old.dtype ≡ R.dtype reader.now }
    ensures ok { OnOk result
        (option_map (grown values.old) (leaf_in i (R.dtype reader.now) (array (items_view row.now)))
        ≡ Some values.new) }
    ensures err { IfErr result
        (Refuses (leaf_in i (R.dtype reader.now) (array (items_view row.now)))) }
{
    let Some(item) = row.get(i) else {
        return Err(RequestError::Shape);
    };
    reader.read_leaf(alloc, item, values)
}
