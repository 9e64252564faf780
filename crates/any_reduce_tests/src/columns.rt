//! Columns, and what they hold.
ghost use Rattle.std.specs.Prelude.{◌≡◌, IfOk};

use col_core::{ColumnBuilder, DataType, LeafRef, Name, Series};
use std::alloc::{AllocError, Global};

/// A column of values, of which those that do not fit are left out.
pub fn column(alloc: Global, dtype: DataType, values: &[LeafRef<'_>]) -> Result<Series, AllocError>
    ensures { IfOk result (λ s. s.dtype ≡ dtype) }
{
    let mut built = ColumnBuilder::new(alloc, dtype);
    for value in values {
        push(&mut built, *value)?;
    }
    built.finish(alloc, Name::new(alloc, "v")?)
}

/// Appends a value, if it fits.
fn push(built: &mut ColumnBuilder, value: LeafRef<'_>) -> Result<(), AllocError>
    ensures { built.new.dtype ≡ built.old.dtype }
{
    if value.fits(built.dtype()) {
        built.push_ref(value)?;
    }
    Ok(())
}

/// Whether a column has these values alone.
pub fn are_values(column: &Series, wanted: &[LeafRef<'_>]) -> bool {
    if column.len() != wanted.len() {
        return false;
    }
    for (i, value) in wanted.iter().enumerate() {
        if !column.leaf_ref(i).is_same(*value) {
            return false;
        }
    }
    true
}
