//! A join of half a million rows with as many, each with one partner, in groups of one row. It takes at most 2,000,000
//! searches. Loops over pairs of rows, or over pairs of groups, would not end in the time that a test has.
ghost use Rattle.col_core.specs.declared.data_type.DataType.TheVariants.{Int64};
ghost use Rattle.col_core.specs.Values.{Fits};

use crate::asked::{answer_within, request_of};
use col_core::{ColumnBuilder, DataType, Frame, Leaf, LeafRef, Name, Schema, Series};
use std::alloc::Global;
use std::test::Fail;

const COUNT: u32 = 500_000;

const REQUEST: &str =
    r#"{"build":{"schema":[["id","Int64"]],"frames":[]},"probe":{"schema":[["id","Int64"]],"frames":[]},"join":{"build":["id"],"probe":["id"]},"group":["probe.id"],"reduce":[["sum","build.id"]]}"#;

fn whole_leaf(value: i64) -> Leaf
    ensures { Fits Int64 result }
{
    Leaf::Whole(value as i128)
}

/// The number of a row that is counted from the last one.
fn from_last(row: u32) -> i64 {
    i64::from((COUNT - 1).wrapping_sub(row))
}

/// The numbers below `COUNT`, ascending or descending.
fn numbers(alloc: Global, descends: bool) -> Result<Series, Fail> {
    let mut built = ColumnBuilder::new(alloc, DataType::Int64);
    for row in 0..COUNT {
        let number = if descends {
            from_last(row)
        } else {
            i64::from(row)
        };
        built.push_leaf(&whole_leaf(number))?;
    }
    Ok(built.finish(alloc, Name::new(alloc, "id")?)?)
}

fn side(alloc: Global, schema: &Schema, descends: bool) -> Result<Frame, Fail> {
    let columns = vec![in alloc; numbers(alloc, descends)?]?;
    Frame::new(alloc, schema.try_clone(alloc)?, columns).map_err(|_| Fail::from("frame"))
}

/// Whether a column has each number below `COUNT` once, the greatest first.
fn descends(column: &Series) -> bool {
    let mut right = column.len() == COUNT as usize;
    for row in 0..COUNT {
        let place = row as usize;
        if place < column.len() {
            right = right && is_number(column.leaf_ref(place), from_last(row));
        }
    }
    right
}

fn is_number(leaf: LeafRef<'_>, number: i64) -> bool {
    match leaf {
        LeafRef::Whole(found) => found == i128::from(number),
        _ => false,
    }
}

/// Whether a table is of two columns that both descend.
fn both_descend(table: &Frame) -> bool {
    let mut right = table.columns().len() == 2;
    for column in table.columns() {
        right = right && descends(column);
    }
    right
}

#[test]
fn half_a_million_rows(rt: HostRuntime) -> Result<(), Fail> {
    let alloc = rt.alloc();
    let asked = request_of(alloc, REQUEST)?.query;
    let build = side(alloc, &asked.build_schema, false)?;
    let probe = side(alloc, &asked.probe_schema, true)?;
    let given = answer_within(alloc, &asked, &build, &probe, COUNT as usize)?;
    assert!(rt; both_descend(&given.rows));
    assert!(rt; both_descend(&given.groups));
    Ok(())
}
