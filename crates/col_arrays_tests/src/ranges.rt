//! Ranges of an array, appended to another.
use col_arrays::PrimitiveArray;
use std::alloc::{AllocError, Global};
use std::process::Abort;

/// Numbers of items, and where a range of these starts and how long it is: none and all, and ends inside a byte and a word.
const RANGES: [(usize, usize, usize); 9] = [
    (0, 0, 0),
    (1, 0, 1),
    (63, 0, 63),
    (64, 0, 64),
    (65, 0, 65),
    (65, 3, 5),
    (65, 62, 3),
    (130, 5, 120),
    (130, 130, 0),
];

/// The numbers from 0 up, the first and the last null.
fn numbers(alloc: Global, n: usize) -> Result<PrimitiveArray<i64>, AllocError> {
    let mut items = PrimitiveArray::new(alloc);
    for i in 0..n {
        items.push((i & 0xff) as i64, i != 0 && i != n.saturating_sub(1))?;
    }
    Ok(items)
}

/// Compares the items of an array from the third on with those of another from a place on.
fn expect_range(
    rt: &impl Abort,
    all: &PrimitiveArray<i64>,
    source: &PrimitiveArray<i64>,
    start: usize,
    len: usize,
) {
    assert!(rt; all.len() >= 3 && all.len() - 3 == len);
    assert!(rt; start <= source.len() && len <= source.len() - start);
    for i in 0..len {
        assert!(rt; all.get(i + 3) == source.get(start + i));
    }
}

/// Appends a range of `n` numbers to three others.
fn expect_appended(
    rt: &impl Abort,
    alloc: Global,
    n: usize,
    start: usize,
    len: usize,
) -> Result<(), AllocError> {
    let source = numbers(alloc, n)?;
    let mut all = numbers(alloc, 3)?;
    assert!(rt; start <= source.len() && len <= source.len() - start);
    all.extend_from_range(&source, start, len)?;
    expect_range(rt, &all, &source, start, len);
    Ok(())
}

#[test]
fn number_ranges(rt: HostRuntime) -> Result<(), AllocError> {
    for (n, start, len) in RANGES {
        expect_appended(&rt, rt.alloc(), n, start, len)?;
    }
    Ok(())
}
