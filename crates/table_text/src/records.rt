//! The records of a table, each written field by field.
ghost use Rattle.std.specs.Prelude.{◌≡◌, ◌<◌, ◌++◌, [], length, slice_index_or, OnOk};
ghost use Rattle.csv.specs.Writing.{row_text};
ghost use Rattle.table_text.specs.Records.{settings, header_record, row_record};
ghost use Rattle.table_text.specs.Writers.{IsBetweenRecords, text_so_far};

use crate::TextError;
use crate::fields::write_value;
use crate::writer::{end_record, write_field};
use col_core::{Frame, Schema};
use csv::Writer;

/// Writes the header record: the mark, and the names of the columns.
pub fn write_header(
    writer: &mut Writer<Vec<u8>>,
    mark: &str,
    schema: &Schema,
) -> Result<(), TextError>
    requires { IsBetweenRecords writer.old }
    ensures between { OnOk result (IsBetweenRecords writer.new) }
    ensures text { OnOk result (text_so_far writer.new ≡
        text_so_far writer.old ++ row_text settings (header_record mark.now schema.now)) }
{
    write_field(writer, mark.as_bytes())?;
    for field in schema.fields() {
        write_field(writer, field.name.as_str().as_bytes())?;
    }
    end_record(writer)
}

/// Writes the record of the row at a place: the mark, and its values.
pub fn write_row(
    writer: &mut Writer<Vec<u8>>,
    spare: &mut Vec<u8>,
    mark: &str,
    table: &Frame,
    i: usize,
) -> Result<(), TextError>
    requires between { IsBetweenRecords writer.old }
    requires place { i < length table.now.rows }
    ensures between { OnOk result (IsBetweenRecords writer.new) }
    ensures text { OnOk result (text_so_far writer.new ≡ text_so_far writer.old
        ++ row_text settings (row_record mark.now table.now.schema
        (slice_index_or table.now.rows i []))) }
{
    write_field(writer, mark.as_bytes())?;
    for column in table.columns() {
        write_value(writer, spare, column.dtype(), column.leaf_ref(i))?;
    }
    end_record(writer)
}
