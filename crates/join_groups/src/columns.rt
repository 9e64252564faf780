//! The columns of joined rows that a query reduces.
ghost use Rattle.std.specs.Prelude.{◌≡◌, None, map, IfOk};
ghost use Rattle.join_model.specs.Answers.{joined_schema};
ghost use Rattle.join_model.specs.ColumnRefs.{ref_type, ref_value};
ghost use Rattle.join_model.specs.Refusals.{unknown_column};

use col_core::{Frame, Series};
use join_pairs::joined_column;
use join_query::Query;
use std::alloc::{AllocError, Global};

/// The column of each reduction.
pub(crate) fn reduction_columns<'a>(
    alloc: Global,
    query: &Query,
    rows: &'a Frame,
) -> Result<Vec<&'a Series>, AllocError>
    requires known { unknown_column query.now ≡ None }
    requires joined { rows.now.schema ≡ joined_schema query.now }
    ensures types { IfOk result (λ v.
        map (λ c. c.now.dtype) v.items ≡ map (λ r. ref_type query.now r.column) query.now.reductions) }
    ensures values { IfOk result (λ v. map (λ c. c.now.values) v.items
        ≡ map (λ r. map (ref_value query.now r.column) rows.now.rows) query.now.reductions) }
{
    let mut columns = Vec::with_capacity(alloc, query.reductions.len())?;
    for reduction in query.reductions.as_slice() {
        columns.push(joined_column(query, rows, &reduction.column))?;
    }
    Ok(columns)
}
