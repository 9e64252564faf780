//! Texts of tables, against literal bytes.
ghost use Rattle.std.specs.Prelude.{◌≡◌, length, IfOk};
ghost use Rattle.col_core.specs.Values.{Fits};
ghost use Rattle.col_core.specs.Tables.{header};

use col_core::{Blob, ColumnBuilder, DataType, Field, Frame, Leaf, Name, Schema, Series};
use std::alloc::{AllocError, Global};
use std::process::Abort;
use std::test::Fail;
use table_text::{frame_text, tables_text};

fn text_leaf(alloc: Global, text: &str) -> Result<Leaf, AllocError>
    ensures { IfOk result (λ value. Fits DataType.String value) }
{
    Ok(Leaf::Bytes(Blob::new(alloc, text.as_bytes())?))
}

// A column of one value and one null.
fn column(alloc: Global, name: &str, dtype: DataType, value: &Leaf) -> Result<Series, AllocError>
    requires { Fits dtype value.now }
    ensures header { IfOk result (λ s. header s ≡ record { name = name.now; dtype = dtype }) }
    ensures height { IfOk result (λ s. length s.values ≡ 2) }
{
    let mut built = ColumnBuilder::new(alloc, dtype);
    built.push_leaf(value)?;
    built.push_leaf(&Leaf::Null)?;
    built.finish(alloc, Name::new(alloc, name)?)
}

// A frame of one column of two rows.
fn frame(alloc: Global, name: &str, dtype: DataType, value: &Leaf) -> Result<Frame, AllocError>
    requires { Fits dtype value.now }
{
    let mut fields = Vec::new(alloc);
    fields.push(Field {
        name: Name::new(alloc, name)?,
        dtype,
    })?;
    let mut columns = Vec::new(alloc);
    columns.push(column(alloc, name, dtype, value)?)?;
    Ok(Frame::from_columns(Schema::from_fields(fields), columns, 2))
}

fn no_columns(alloc: Global) -> Frame {
    Frame::from_columns(Schema::new(alloc), Vec::new(alloc), 0)
}

// The text of a frame, marked `J`, is this one.
fn expect_text(rt: &impl Abort, alloc: Global, frame: &Frame, wanted: &str) -> Result<(), Fail> {
    let text = frame_text(alloc, "J", frame).ok().ok_or("no text")?;
    assert_eq!(rt; text.as_slice(), wanted.as_bytes());
    Ok(())
}

// The frame of a text and a null, in a column `\k`, is written with this field for the text.
fn expect_field(rt: &impl Abort, alloc: Global, text: &str, field: &str) -> Result<(), Fail> {
    let value = text_leaf(alloc, text)?;
    let frame = frame(alloc, "\\k", DataType::String, &value)?;
    let wanted = format!(in alloc; "J,\\k\nJ,{field}\nJ,\\N\n")?;
    expect_text(rt, alloc, &frame, wanted.as_str())
}

#[test]
fn writes_texts_quoted_where_they_need_it(rt: HostRuntime) -> Result<(), Fail> {
    for (text, field) in [
        ("Ann", "Ann"),
        ("", ""),
        ("a,b", "\"a,b\""),
        ("say \"x\"", "\"say \"\"x\"\"\""),
        ("a\rb", "\"a\rb\""),
        ("a\nb", "\"a\nb\""),
        ("\\N", "\\\\N"),
        ("\\", "\\\\"),
        ("\\,", "\"\\\\,\""),
        ("a\\N", "a\\N"),
        ("é 😀", "é 😀"),
    ] {
        expect_field(&rt, rt.alloc(), text, field)?;
    }
    Ok(())
}

// The text of two frames, the first marked `J`.
fn expect_two(
    rt: &impl Abort,
    alloc: Global,
    first: &Frame,
    second: &Frame,
    wanted: &str,
) -> Result<(), Fail> {
    let text = tables_text(alloc, "J", first, "", second)
        .ok()
        .ok_or("no text")?;
    assert_eq!(rt; text.as_slice(), wanted.as_bytes());
    Ok(())
}

fn numbers(alloc: Global) -> Result<Frame, AllocError> {
    frame(
        alloc,
        "amt, €",
        DataType::Int64,
        &Leaf::Whole(-9223372036854775808),
    )
}

fn bytes(alloc: Global) -> Result<Frame, AllocError> {
    frame(
        alloc,
        "v",
        DataType::Binary,
        &Leaf::Bytes(Blob::new(alloc, &[10, 255])?),
    )
}

#[test]
fn writes_two_tables_of_numbers_and_bytes(rt: HostRuntime) -> Result<(), Fail> {
    let numbers = numbers(rt.alloc())?;
    let wanted = "J,\"amt, €\"\nJ,-9223372036854775808\nJ,\\N\n,v\n,0aff\n,\\N\n";
    expect_two(&rt, rt.alloc(), &numbers, &bytes(rt.alloc())?, wanted)
}

#[test]
fn writes_a_table_without_columns(rt: HostRuntime) -> Result<(), Fail> {
    expect_text(&rt, rt.alloc(), &no_columns(rt.alloc()), "J\n")
}
