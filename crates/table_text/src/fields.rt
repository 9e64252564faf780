//! The fields of values.
ghost use Rattle.std.specs.Prelude.{◌≡◌, ◌++◌, OnOk};
ghost use Rattle.std.specs.Fmt.{signed_decimal};
ghost use Rattle.csv.specs.Writing.{writer_setup};
ghost use Rattle.hex.specs.Hex.{encode_lower};
ghost use Rattle.col_core.specs.Lent.{lent_leaf};
ghost use Rattle.table_text.specs.Fields.{value_text, bytes_text, backslash};
ghost use Rattle.table_text.specs.Records.{settings};
ghost use Rattle.table_text.specs.Writers.{standing, with_field};

use crate::TextError;
use crate::writer::write_field;
use col_core::{DataType, LeafRef};
use csv::Writer;
use itoa::Buffer;
use std::alloc::AllocError;

/// Writes the field of a value in a column of a type. `spare` is a buffer to be used again.
pub fn write_value(
    writer: &mut Writer<Vec<u8>>,
    spare: &mut Vec<u8>,
    dtype: DataType,
    value: LeafRef<'_>,
) -> Result<(), TextError>
    requires { writer_setup writer.old ≡ settings }
    ensures setup { OnOk result (writer_setup writer.new ≡ settings) }
    ensures field { OnOk result (standing writer.new ≡
        with_field (standing writer.old) (value_text dtype (lent_leaf value.entry))) }
{
    match value {
        LeafRef::Null => write_field(writer, b"\\N"),
        LeafRef::Bool(true) => write_field(writer, b"true"),
        LeafRef::Bool(false) => write_field(writer, b"false"),
        LeafRef::Whole(number) => write_number(writer, number),
        LeafRef::Bytes(bytes) => write_bytes(writer, spare, dtype, bytes),
    }
}

/// Writes a number in decimal. One that fits in 64 bits is divided as such, which takes a part of the time.
fn write_number(writer: &mut Writer<Vec<u8>>, number: i128) -> Result<(), TextError>
    requires { writer_setup writer.old ≡ settings }
    ensures setup { OnOk result (writer_setup writer.new ≡ settings) }
    ensures field { OnOk result (standing writer.new ≡
        with_field (standing writer.old) (signed_decimal number)) }
{
    let mut digits = Buffer::new();
    let text = match i64::try_from(number) {
        Ok(short) => digits.format(short),
        Err(_) => digits.format(number),
    };
    write_field(writer, text.as_bytes())
}

/// Writes the field of bytes in a column of a type. A text is borrowed as it is where nothing stands
/// in front of it.
fn write_bytes(
    writer: &mut Writer<Vec<u8>>,
    spare: &mut Vec<u8>,
    dtype: DataType,
    bytes: &[u8],
) -> Result<(), TextError>
    requires { writer_setup writer.old ≡ settings }
    ensures setup { OnOk result (writer_setup writer.new ≡ settings) }
    ensures field { OnOk result (standing writer.new ≡
        with_field (standing writer.old) (bytes_text dtype bytes.now)) }
{
    if dtype == DataType::Binary {
        fill_digits(spare, bytes)?;
        return write_field(writer, spare);
    }
    if bytes.starts_with(b"\\") {
        fill_escaped(spare, bytes)?;
        return write_field(writer, spare);
    }
    write_field(writer, bytes)
}

/// Makes the buffer hold a backslash and then bytes.
fn fill_escaped(spare: &mut Vec<u8>, bytes: &[u8]) -> Result<(), AllocError>
    ensures { OnOk result (spare.new.items ≡ backslash ++ bytes.now) }
{
    spare.clear();
    spare.push(b'\\')?;
    spare.extend_from_slice(bytes)
}

/// Makes the buffer hold the digits of bytes, in lower-case hexadecimal.
fn fill_digits(spare: &mut Vec<u8>, bytes: &[u8]) -> Result<(), AllocError>
    ensures { OnOk result (spare.new.items ≡ encode_lower bytes.now) }
{
    spare.clear();
    spare.resize(2 * bytes.len(), 0)?;
    if hex::encode_to_slice(bytes, spare).is_err() {
        unreachable!()
    }
    Ok(())
}
