//! The names of an answer's columns.
ghost use Rattle.std.specs.Prelude.{◌≡◌, IfOk};
ghost use Rattle.join_model.specs.Answers.{reduction_name};
ghost use Rattle.join_model.specs.ColumnRefs.{ref_name};

use col_core::Name;
use join_query::{ColumnRef, Reduction, kind_name, side_prefix};
use std::alloc::{AllocError, Global};

/// A column's name in the answer.
pub(crate) fn ref_name(alloc: Global, column: &ColumnRef) -> Result<Name, AllocError>
    ensures { IfOk result (λ n. n ≡ ref_name column.now) }
{
    Name::joined(alloc, side_prefix(column.side), column.name.as_str())
}

/// A reduction's name in the answer.
pub(crate) fn reduction_name(alloc: Global, reduction: &Reduction) -> Result<Name, AllocError>
    ensures { IfOk result (λ n. n ≡ reduction_name reduction.now) }
{
    let column = ref_name(alloc, &reduction.column)?;
    let closed = Name::joined(alloc, column.as_str(), ")")?;
    let opened = Name::joined(alloc, "(", closed.as_str())?;
    Name::joined(alloc, kind_name(reduction.kind), opened.as_str())
}
