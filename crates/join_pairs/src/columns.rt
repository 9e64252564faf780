//! The columns of joined rows that a query names.
ghost use Rattle.std.specs.Prelude.{◌≡◌, true, is_some, map};
ghost use Rattle.col_core.specs.Schemas.{type_named};
ghost use Rattle.join_model.specs.Answers.{joined_schema};
ghost use Rattle.join_model.specs.ColumnRefs.{schema_of, ref_value, ref_type};

use col_core::{Frame, Series};
use join_query::{ColumnRef, Query, Side};

/// The column of joined rows that a reference names. Its side has such a column.
pub fn joined_column<'a>(query: &Query, rows: &'a Frame, column: &ColumnRef) -> &'a Series
    requires joined { rows.now.schema ≡ joined_schema query.now }
    requires known { is_some (type_named column.now.name (schema_of query.now column.now.side))
        ≡ true }
    ensures values { result.now.values ≡ map (ref_value query.now column.now) rows.now.rows }
    ensures dtype { result.now.dtype ≡ ref_type query.now column.now }
{
    let name = column.name.as_str();
    let place = match column.side {
        Side::Probe => query.probe_schema.position(name).unwrap(),
        Side::Build => {
            let _width = rows.schema().len();
            query.probe_schema.len() + query.build_schema.position(name).unwrap()
        }
    };
    rows.column(place)
}
