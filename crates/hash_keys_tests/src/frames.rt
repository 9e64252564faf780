//! The keys of the rows of a frame.
use col_core::{ColumnBuilder, DataType, Field, Frame, LeafRef, Name, Schema, Series};
use hash_keys::HashKeys;
use key_parts::PlRandomState;
use std::alloc::{AllocError, Global};
use std::test::Fail;

/// A column of 8 bits: 1 and a null.
fn column(alloc: Global) -> Result<Series, AllocError> {
    let mut built = ColumnBuilder::new(alloc, DataType::Int8);
    built.push_ref(LeafRef::Whole(1))?;
    built.push_ref(LeafRef::Null)?;
    built.finish(alloc, Name::new(alloc, "k")?)
}

fn schema(alloc: Global) -> Result<Schema, AllocError> {
    let name = Name::new(alloc, "k")?;
    let fields = vec![in alloc;
        Field {
            name,
            dtype: DataType::Int8
        },
    ]?;
    Ok(Schema::from_fields(fields))
}

/// A frame of the column alone.
fn frame(alloc: Global) -> Result<Frame, AllocError> {
    let schema = schema(alloc)?;
    let columns = vec![in alloc; column(alloc)?]?;
    Frame::new(alloc, schema, columns).map_err(|_| AllocError)
}

/// Whether the keys of a frame of two rows are as wanted.
fn are_keys(
    alloc: Global,
    rows: &Frame,
    null_is_valid: bool,
    first: Option<&[u8]>,
    second: Option<&[u8]>,
) -> Result<bool, AllocError> {
    if rows.height() != 2 {
        return Ok(false);
    }
    let keys = HashKeys::from_df(alloc, rows, PlRandomState::DEFAULT, null_is_valid, false)?;
    Ok(keys.len() == 2 && keys.key(0) == first && keys.key(1) == second)
}

#[test]
fn keys_of_rows(rt: HostRuntime) -> Result<(), Fail> {
    let rows = frame(rt.alloc())?;
    assert!(rt; are_keys(rt.alloc(), &rows, false, Some(b"\x01\x01"), None)?);
    assert!(rt; are_keys(rt.alloc(), &rows, true, Some(b"\x01\x01"), Some(b"\x00"))?);
    Ok(())
}
