//! A reducer of bytes, call by call.
ghost use Rattle.std.specs.Prelude.{◌≡◌, ◌<◌, true, length, OnOk};
ghost use Rattle.col_core.specs.declared.data_type.DataType.TheVariants.{String};
ghost use Rattle.col_core.specs.Values.{is_text};
ghost use Rattle.kept_values.specs.Kept.{bytes_or_null};

use crate::columns::{are_values, column};
use col_core::{Blob, DataType, LeafRef, Series};
use group_reduce::Reducer;
use reduce_min_max::BinaryMinReducer;
use std::alloc::{AllocError, Global};

/// A column of texts enters, then the first text of another one, and then a null.
fn take(
    reducer: &BinaryMinReducer,
    kept: &mut Option<Blob>,
    all: &Series,
    one: &Series,
) -> Result<(), AllocError>
    requires all { all.now.dtype ≡ String }
    requires one { one.now.dtype ≡ String }
    requires some { 0 < length one.now.values }
    requires text { is_text String (bytes_or_null kept.old) ≡ true }
    ensures { OnOk result (is_text String (bytes_or_null kept.new) ≡ true) }
{
    reducer.reduce_ca(kept, all, 1)?;
    reducer.reduce_at(kept, one, 0, 1)?;
    reducer.reduce_one(kept, LeafRef::Null, 1)
}

/// The least of "b", a null, "ab" and a null, and then of the state of "c".
fn least(alloc: Global) -> Result<Series, AllocError> {
    let all = column(
        alloc,
        DataType::String,
        &[LeafRef::Bytes(b"b"), LeafRef::Null],
    )?;
    let one = column(alloc, DataType::String, &[LeafRef::Bytes(b"ab")])?;
    let third = column(alloc, DataType::String, &[LeafRef::Bytes(b"c")])?;
    if one.len() == 0 {
        return Err(AllocError);
    }
    let reducer = BinaryMinReducer::new(alloc);
    let mut kept = reducer.init();
    let mut other = reducer.init();
    take(&reducer, &mut kept, &all, &one)?;
    reducer.reduce_ca(&mut other, &third, 1)?;
    reducer.combine(&mut kept, &other)?;
    let states = vec![in alloc; kept]?;
    reducer.finish(alloc, &states, None, DataType::String)
}

#[test]
fn least_bytes(rt: HostRuntime) -> Result<(), AllocError> {
    assert!(rt; are_values(&least(rt.alloc())?, &[LeafRef::Bytes(b"ab")]));
    Ok(())
}
