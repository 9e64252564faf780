//! Groups as a table.
ghost use Rattle.std.specs.Prelude.{◌≡◌, ◌<◌, ◌++◌, None, map, length, IfOk};
ghost use Rattle.std.specs.List.{All};
ghost use Rattle.col_core.specs.Refusals.{frame_refusal, height_of};
ghost use Rattle.col_core.specs.Tables.{header, rows_at, rows_from, values_of};
ghost use Rattle.row_code.specs.Spelling.{IsRowOf, row_spelling};
ghost use Rattle.join_model.specs.Answers.{group_schema, reduction_field};
ghost use Rattle.join_groups.specs.Keyed.{group_fields};
ghost use Rattle.join_groups.specs.Merged.{AreGroupRows};

use crate::keys::group_fields;
use crate::names::reduction_name;
use col_core::{Field, Frame, FrameError, IdxSize, List, Schema, Series};
use group_locals::Groups;
use join_query::Query;
use key_groups::{Grouper, RowEncodedHashGrouper};
use std::alloc::{AllocError, Global};

/// The tuples that the keys of a grouper spell, in the order of the keys.
fn key_rows(alloc: Global, grouper: &RowEncodedHashGrouper) -> Result<Frame, AllocError>
    ensures schema { IfOk result (λ f. f.schema ≡ grouper.now.schema) }
    ensures fit { IfOk result (λ f. All (IsRowOf grouper.now.schema) f.rows) }
    ensures spelled { IfOk result (λ f.
        grouper.now.keys ≡ map (row_spelling grouper.now.schema) f.rows) }
{
    let _count = grouper.num_groups();
    grouper.get_keys_in_group_order(alloc)
}

/// The columns of rows in an order.
fn ordered_columns(
    alloc: Global,
    rows: &Frame,
    order: &[IdxSize],
) -> Result<Vec<Series>, AllocError>
    requires { All (λ i. i < length rows.now.rows) order.now }
    ensures headers { IfOk result (λ v. map header v.items ≡ rows.now.schema) }
    ensures lengths { IfOk result (λ v. All (λ c. length c.values ≡ length order.now) v.items) }
    ensures rows { IfOk result (λ v.
        rows_from (length order.now) (values_of v.items) ≡ rows_at rows.now.rows order.now) }
{
    let mut columns = Vec::with_capacity(alloc, rows.schema().len())?;
    for column in rows.columns() {
        columns.push(column.take(alloc, order)?)?;
    }
    Ok(columns)
}

/// The schema of groups: their keys, and then the reductions with the types of what they give.
fn group_schema(alloc: Global, query: &Query, given: &[Series]) -> Result<Schema, AllocError>
    requires { map (λ c. c.dtype) given.now
        ≡ map (λ r. (reduction_field query.now r).dtype) query.now.reductions }
    ensures { IfOk result (λ schema. schema ≡ group_schema query.now) }
{
    let mut fields = group_fields(alloc, query)?;
    for (r, reduction) in query.reductions.as_slice().iter().enumerate() {
        fields.push(Field {
            name: reduction_name(alloc, reduction)?,
            dtype: given[r].dtype(),
        })?;
    }
    Ok(Schema::from_fields(fields))
}

/// Columns, and then other columns.
fn joined_columns(mut columns: Vec<Series>, more: List<Series>) -> Result<Vec<Series>, AllocError>
    ensures { IfOk result (λ v. v.items ≡ columns.items ++ more) }
{
    for column in more.into_vec() {
        columns.push(column)?;
    }
    Ok(columns)
}

/// A frame of columns under a schema that fits them.
fn frame_under(alloc: Global, schema: Schema, columns: Vec<Series>) -> Result<Frame, AllocError>
    requires { frame_refusal schema columns.items ≡ None }
    ensures { IfOk result
        (λ f. f ≡ record {
          schema = schema;
          rows = rows_from (height_of columns.items) (values_of columns.items);
        }) }
{
    match Frame::new(alloc, schema, columns) {
        Ok(frame) => Ok(frame),
        Err(FrameError::Memory) => Err(AllocError),
        Err(_) => unreachable!(),
    }
}

/// Groups as a table: the tuples of their keys, and then what the reductions give.
pub(crate) fn group_rows(alloc: Global, query: &Query, groups: Groups) -> Result<Frame, AllocError>
    requires some { 0 < length query.now.group_keys }
    requires schema { groups.grouper.schema ≡ group_fields query.now }
    requires order { All (λ i. i < length groups.grouper.keys) groups.order }
    requires types { map (λ c. c.dtype) groups.columns
        ≡ map (λ r. (reduction_field query.now r).dtype) query.now.reductions }
    requires heights { All (λ c. length c.values ≡ length groups.order) groups.columns }
    ensures { IfOk result (AreGroupRows query.now groups) }
{
    let Groups {
        grouper,
        order,
        columns: given,
    } = groups;
    let schema = group_schema(alloc, query, given.as_slice())?;
    let keys = key_rows(alloc, &grouper)?;
    let columns = ordered_columns(alloc, &keys, order.as_slice())?;
    frame_under(alloc, schema, joined_columns(columns, given)?)
}
