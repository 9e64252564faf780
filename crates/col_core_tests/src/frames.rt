//! Schemas and frames: names, which frames are refused, and their rows.
use crate::chunks::days;
use crate::values::{column_of, expect_values};
use col_core::{DataType, Field, Frame, FrameError, LeafRef, Name, Schema, Series};
use std::alloc::{AllocError, Global};
use std::process::Abort;
use std::test::Fail;

/// The schema of fields of types, which all have one name.
fn schema_of(alloc: Global, dtypes: &[DataType]) -> Result<Schema, AllocError> {
    let mut fields = Vec::new(alloc);
    for dtype in dtypes {
        let name = Name::joined(alloc, "build.", "a")?;
        fields.push(Field {
            name,
            dtype: *dtype,
        })?;
    }
    Ok(Schema::from_fields(fields))
}

#[test]
fn schemas(rt: HostRuntime) -> Result<(), AllocError> {
    let schema = schema_of(rt.alloc(), &[DataType::Int8, DataType::Date])?;
    assert!(rt; schema.position("build.a") == Some(0));
    assert!(rt; schema.position("a") == None);
    assert!(rt; schema.type_of("build.a") == Some(DataType::Int8));
    Ok(())
}

/// Columns of so many ones, of 8 bits.
fn ones(
    rt: &impl Abort,
    alloc: Global,
    columns: &[&[LeafRef<'_>]],
) -> Result<Vec<Series>, AllocError> {
    let mut made = Vec::new(alloc);
    for values in columns {
        made.push(column_of(rt, alloc, DataType::Int8, *values)?)?;
    }
    Ok(made)
}

/// Why columns of 8-bit integers make no frame under fields of types.
fn refusal(
    rt: &impl Abort,
    alloc: Global,
    dtypes: &[DataType],
    columns: &[&[LeafRef<'_>]],
) -> Result<Option<FrameError>, AllocError> {
    let columns = ones(rt, alloc, columns)?;
    Ok(Frame::new(alloc, schema_of(alloc, dtypes)?, columns).err())
}

const ONE: &[LeafRef<'static>] = &[LeafRef::Whole(1)];

const TWO: &[LeafRef<'static>] = &[LeafRef::Whole(1), LeafRef::Null];

#[test]
fn refused_frames(rt: HostRuntime) -> Result<(), AllocError> {
    let rows: [(&[DataType], &[&[LeafRef<'static>]], Option<FrameError>); 5] = [
        (
            &[DataType::Date, DataType::Int8],
            &[ONE],
            Some(FrameError::Width),
        ),
        (
            &[DataType::Date, DataType::Int8],
            &[ONE, TWO],
            Some(FrameError::Height),
        ),
        (
            &[DataType::Date, DataType::Int8],
            &[ONE, ONE],
            Some(FrameError::WrongType),
        ),
        (&[DataType::Int8, DataType::Int8], &[TWO, TWO], None),
        (&[], &[], None),
    ];
    for (dtypes, columns, wanted) in rows {
        assert!(rt; refusal(&rt, rt.alloc(), dtypes, columns)? == wanted);
    }
    Ok(())
}

/// A frame of one column, of days.
fn frame_of(alloc: Global, column: Series) -> Result<Frame, Fail> {
    let columns = vec![in alloc; column]?;
    let schema = schema_of(alloc, &[DataType::Date])?;
    Ok(Frame::new(alloc, schema, columns).ok().ok_or("no frame")?)
}

/// Compares the values of the only column of a frame with those that are wanted.
fn expect_column(rt: &impl Abort, frame: &Frame, wanted: &[LeafRef<'_>]) {
    assert!(rt; frame.columns().len() == 1);
    expect_values(rt, &frame.columns()[0], wanted);
}

#[test]
fn rows(rt: HostRuntime) -> Result<(), Fail> {
    let frame = frame_of(rt.alloc(), days(rt.alloc())?)?;
    assert!(rt; frame.height() == 2);
    expect_column(
        &rt,
        &frame.take(rt.alloc(), &[1, 0])?,
        &[LeafRef::Null, LeafRef::Whole(3)],
    );
    expect_column(&rt, &frame.slice(rt.alloc(), 1, 1)?, &[LeafRef::Null]);
    Ok(())
}
