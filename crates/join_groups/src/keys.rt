//! The group keys of joined rows.
ghost use Rattle.std.specs.Prelude.{◌≡◌, ◌<◌, ◌^◌, Some, None, map, length, IfOk};
ghost use Rattle.std.specs.List.{All};
ghost use Rattle.hash_keys.specs.Views.{keys_of, state_of};
ghost use Rattle.join_model.specs.Answers.{joined_schema};
ghost use Rattle.join_model.specs.ColumnRefs.{place_of};
ghost use Rattle.join_model.specs.Refusals.{unknown_column};
ghost use Rattle.join_groups.specs.Keyed.{HasGroup, IsKnown, group_bytes, group_fields, plan_state};

use crate::names::ref_name;
use col_core::{Field, Frame};
use hash_keys::HashKeys;
use join_query::{ColumnRef, Query, Side};
use key_parts::PlRandomState;
use query_check::ref_type;
use std::alloc::{AllocError, Global};

/// The fields of a query's group keys.
pub(crate) fn group_fields(alloc: Global, query: &Query) -> Result<Vec<Field>, AllocError>
    ensures { IfOk result (λ fields. fields.items ≡ group_fields query.now) }
{
    let mut fields = Vec::with_capacity(alloc, query.group_keys.len())?;
    for column in query.group_keys.as_slice() {
        fields.push(Field {
            name: ref_name(alloc, column)?,
            dtype: ref_type(query, column),
        })?;
    }
    Ok(fields)
}

/// The state that a query's group keys are hashed under.
pub(crate) fn plan_state(query: &Query) -> PlRandomState
    ensures { result ≡ plan_state query.now }
{
    PlRandomState {
        seed: query.plan.seed,
        mask: query.plan.mask,
    }
}

/// Where a column stands among those of joined rows.
fn joined_place(query: &Query, rows: &Frame, column: &ColumnRef) -> usize
    requires joined { rows.now.schema ≡ joined_schema query.now }
    requires known { IsKnown query.now column.now }
    ensures { place_of query.now column.now ≡ Some result }
{
    let _width = rows.schema().len();
    let name = column.name.as_str();
    match column.side {
        Side::Probe => query.probe_schema.position(name).unwrap(),
        Side::Build => query.probe_schema.len() + query.build_schema.position(name).unwrap(),
    }
}

/// Where the columns of the group keys stand among those of joined rows.
fn group_places(alloc: Global, query: &Query, rows: &Frame) -> Result<Vec<usize>, AllocError>
    requires known { unknown_column query.now ≡ None }
    requires joined { rows.now.schema ≡ joined_schema query.now }
    ensures { IfOk result (λ places.
        map (place_of query.now) query.now.group_keys ≡ map (λ i. Some i) places.items) }
{
    let mut places = Vec::with_capacity(alloc, query.group_keys.len())?;
    for column in query.group_keys.as_slice() {
        places.push(joined_place(query, rows, column))?;
    }
    Ok(places)
}

/// The group keys of joined rows, hashed under the plan's seed and mask. A null is a value like any
/// other, so no key is null.
pub(crate) fn group_keys(alloc: Global, query: &Query, rows: &Frame) -> Result<HashKeys, AllocError>
    requires known { unknown_column query.now ≡ None }
    requires joined { rows.now.schema ≡ joined_schema query.now }
    requires few { length rows.now.rows < 2 ^ 32 }
    ensures keys { IfOk result (λ k.
        keys_of k ≡ map (λ row. Some (group_bytes query.now row)) rows.now.rows) }
    ensures state { IfOk result (λ k. state_of k ≡ plan_state query.now) }
    ensures spelled { IfOk result (λ _. All (HasGroup query.now) rows.now.rows) }
{
    let places = group_places(alloc, query, rows)?;
    HashKeys::from_columns(alloc, rows, &places, plan_state(query), true)
}
