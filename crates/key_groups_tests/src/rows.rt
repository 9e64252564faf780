//! Groupers of single numbers.
use callers::row_groups;
use col_core::{ColumnBuilder, DataType, Field, Frame, LeafRef, Name, Schema, Series};
use key_groups::{Grouper, RowEncodedHashGrouper};
use key_parts::{IdxSize, PlRandomState};
use std::alloc::Global;
use std::sync::ledger::Ledger;
use std::test::Fail;
use step_count::Steps;

/// Appends a number, if it fits.
fn push(built: &mut ColumnBuilder, number: i128) -> Result<(), Fail> {
    let value = LeafRef::Whole(number);
    if value.fits(built.dtype()) {
        built.push_ref(value)?;
    }
    Ok(())
}

/// A column of 64-bit numbers.
fn column(alloc: Global, numbers: &[i128]) -> Result<Series, Fail> {
    let mut built = ColumnBuilder::new(alloc, DataType::Int64);
    for number in numbers {
        push(&mut built, *number)?;
    }
    Ok(built.finish(alloc, Name::new(alloc, "k")?)?)
}

fn schema(alloc: Global) -> Result<Schema, Fail> {
    let name = Name::new(alloc, "k")?;
    let fields = vec![in alloc;
        Field {
            name,
            dtype: DataType::Int64
        },
    ]?;
    Ok(Schema::from_fields(fields))
}

/// A frame of the column alone.
fn frame(alloc: Global, numbers: &[i128]) -> Result<Frame, Fail> {
    let columns = vec![in alloc; column(alloc, numbers)?]?;
    Frame::new(alloc, schema(alloc)?, columns).map_err(|_| Fail::from("frame"))
}

/// A new grouper to which numbers came, and their indexes.
pub fn grouper<L: Ledger>(
    alloc: Global,
    numbers: &[i128],
    idxs: &mut Vec<IdxSize>,
    steps: &mut Steps<L>,
) -> Result<RowEncodedHashGrouper, Fail> {
    let rows = frame(alloc, numbers)?;
    if rows.schema().len() == 0 || rows.height() > 1000 {
        return Err(Fail::from("rows"));
    }
    Ok(row_groups(alloc, &rows, PlRandomState::DEFAULT, idxs, steps)?)
}

/// Whether a frame has these numbers alone, in its one column.
fn are_numbers(rows: &Frame, numbers: &[i128]) -> bool {
    if rows.schema().len() != 1 || rows.height() != numbers.len() {
        return false;
    }
    let column = rows.column(0);
    let mut right = column.len() == numbers.len();
    for (i, number) in numbers.iter().enumerate() {
        right = right && i < column.len() && column.leaf_ref(i).is_same(LeafRef::Whole(*number));
    }
    right
}

/// Whether the keys of a grouper, in their order, are these numbers.
pub fn has_keys(
    alloc: Global,
    grouper: &RowEncodedHashGrouper,
    numbers: &[i128],
) -> Result<bool, Fail> {
    Ok(are_numbers(&grouper.get_keys_in_group_order(alloc)?, numbers))
}
