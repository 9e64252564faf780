//! Arrays built of items, of parts, and taken at indexes.
use col_arrays::{BinaryArray, BooleanArray, IdxSize};
use std::alloc::{AllocError, Global};
use std::process::Abort;

// Truth values, and nulls over false.
fn truths(alloc: Global, items: &[Option<bool>]) -> Result<BooleanArray, AllocError> {
    let mut built = BooleanArray::new(alloc);
    for item in items {
        match item {
            Some(truth) => built.push(*truth, true)?,
            None => built.push_null()?,
        }
    }
    Ok(built)
}

// Compares each truth value, or null, with the one that is wanted.
fn expect_truths(rt: &impl Abort, truths: &BooleanArray, wanted: &[Option<bool>]) {
    assert!(rt; truths.len() == wanted.len());
    for (i, truth) in wanted.iter().enumerate() {
        assert!(rt; truths.get(i) == *truth);
    }
}

#[test]
fn some_truths(rt: HostRuntime) -> Result<(), AllocError> {
    let source = truths(rt.alloc(), &[Some(true), None, Some(false)])?;
    let idxs: [IdxSize; 3] = [2, 1, 0];
    assert!(rt; source.len() == 3);
    let taken = source.take(rt.alloc(), &idxs)?;
    expect_truths(&rt, &taken, &[Some(false), None, Some(true)]);
    Ok(())
}

// Texts, and nulls over the empty text.
fn texts(alloc: Global, items: &[Option<&[u8]>]) -> Result<BinaryArray, AllocError> {
    let mut built = BinaryArray::new(alloc);
    for item in items {
        match item {
            Some(text) => built.push(*text, true)?,
            None => built.push_null()?,
        }
    }
    Ok(built)
}

// Compares each text, or null, with the one that is wanted.
fn expect_texts(rt: &impl Abort, texts: &BinaryArray, wanted: &[Option<&[u8]>]) {
    assert!(rt; texts.len() == wanted.len());
    for (i, text) in wanted.iter().enumerate() {
        assert!(rt; texts.get(i) == *text);
    }
}

#[test]
fn some_texts(rt: HostRuntime) -> Result<(), AllocError> {
    let items = [Some(b"ab".as_slice()), None, Some(b"")];
    expect_texts(&rt, &texts(rt.alloc(), &items)?, &items);
    Ok(())
}

// The items that bytes are, each from one offset to the next.
fn parts(
    rt: &impl Abort,
    alloc: Global,
    bytes: &[u8],
    offsets: &[u64],
) -> Result<BinaryArray, AllocError> {
    let bytes = Vec::from_slice(alloc, bytes)?;
    let offsets = Vec::from_slice(alloc, offsets)?;
    assert!(rt; BinaryArray::are_offsets(&bytes, &offsets));
    Ok(BinaryArray::from_parts(bytes, offsets))
}

#[test]
fn texts_of_parts(rt: HostRuntime) -> Result<(), AllocError> {
    let texts = parts(&rt, rt.alloc(), b"abc", &[0, 2, 2, 3])?;
    expect_texts(&rt, &texts, &[Some(b"ab"), Some(b""), Some(b"c")]);
    Ok(())
}
