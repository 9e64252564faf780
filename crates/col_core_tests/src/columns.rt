//! Columns made of others.
use crate::chunks::days;
use crate::values::expect_values;
use col_core::{ColumnBuilder, IdxSize, LeafRef, Name, Series};
use std::alloc::{AllocError, Global};
use std::process::Abort;
use std::test::Fail;

#[test]
fn values_at_indexes(rt: HostRuntime) -> Result<(), Fail> {
    let idxs: [IdxSize; 3] = [1, 0, 1];
    let days = days(rt.alloc())?;
    assert!(rt; days.len() == 2);
    let taken = days.take(rt.alloc(), &idxs)?;
    expect_values(
        &rt,
        &taken,
        &[LeafRef::Null, LeafRef::Whole(3), LeafRef::Null],
    );
    Ok(())
}

/// The last value of a column, and then a run of it.
fn last_and_run(
    rt: &impl Abort,
    alloc: Global,
    source: &Series,
    start: usize,
    len: usize,
) -> Result<Series, AllocError> {
    assert!(rt; start <= source.len() && len <= source.len() - start && source.len() > 0);
    let mut all = ColumnBuilder::new(alloc, source.dtype());
    all.push_from(source, source.len() - 1)?;
    all.extend_from_range(source, start, len)?;
    all.finish(alloc, Name::new(alloc, "n")?)
}

#[test]
fn runs(rt: HostRuntime) -> Result<(), Fail> {
    let days = days(rt.alloc())?;
    let run = last_and_run(&rt, rt.alloc(), &days, 0, 2)?;
    expect_values(
        &rt,
        &run,
        &[LeafRef::Null, LeafRef::Whole(3), LeafRef::Null],
    );
    Ok(())
}
