//! Groups as text.
use col_core::{Frame, LeafRef};
use join_groups::Merged;
use key_groups::Grouper;
use std::alloc::Global;
use std::str;
use std::test::Fail;

fn push_value(alloc: Global, text: &mut String, value: LeafRef<'_>) -> Result<(), Fail> {
    match value {
        LeafRef::Null => text.push_str("null")?,
        LeafRef::Bool(truth) => text.push_str(format!(in alloc; "{truth}")?.as_str())?,
        LeafRef::Whole(number) => text.push_str(format!(in alloc; "{number}")?.as_str())?,
        LeafRef::Bytes(bytes) => match str::from_utf8(bytes) {
            Ok(shown) => text.push_str(shown)?,
            Err(_) => text.push_str("?")?,
        },
    }
    Ok(text.push_str(" ")?)
}

fn push_row(alloc: Global, text: &mut String, frame: &Frame, row: usize) -> Result<(), Fail> {
    for column in frame.columns() {
        if row < column.len() {
            push_value(alloc, text, column.leaf_ref(row))?;
        }
    }
    Ok(text.push_str("; ")?)
}

/// The values of each row, and after each row a semicolon.
pub fn frame_text(alloc: Global, frame: &Frame) -> Result<String, Fail> {
    let mut text = String::new(alloc);
    for row in 0..frame.height() {
        push_row(alloc, &mut text, frame, row)?;
    }
    Ok(text)
}

/// The keys of each local state, and after each a stroke.
pub fn locals_text(alloc: Global, merged: &Merged) -> Result<String, Fail> {
    let mut text = String::new(alloc);
    for grouper in merged.locals.as_slice() {
        let keys = grouper.get_keys_in_group_order(alloc)?;
        text.push_str(frame_text(alloc, &keys)?.as_str())?;
        text.push_str("/ ")?;
    }
    Ok(text)
}
