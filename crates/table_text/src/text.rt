//! The texts of tables.
ghost use Rattle.std.specs.Prelude.{◌≡◌, ◌++◌, ◌<◌, [], length, slice_index_or, IfOk, OnOk};
ghost use Rattle.csv.specs.Writing.{row_text};
ghost use Rattle.table_text.specs.Records.{row_record, settings, table_records, records_text};
ghost use Rattle.table_text.specs.Writers.{IsBetweenRecords, text_so_far};

use crate::TextError;
use crate::records::{write_header, write_row};
use crate::writer::{record_writer, written_text};
use col_core::{Blob, Frame};
use csv::Writer;
use std::alloc::Global;

/// The text of a table: its header, and one record a row, in row order.
///
/// Commas stand between fields, fields that need it are quoted, and a line feed ends each record. The
/// first field of each record is `mark`. The header has the names of the columns, and each other
/// record the values of a row: `\N` for a null, whole numbers in decimal, bytes in lower-case
/// hexadecimal, and a text with one more `\` in front if it begins with one. It takes memory for
/// the text and for one field at a time.
pub fn frame_text(alloc: Global, mark: &str, frame: &Frame) -> Result<Blob, TextError>
    ensures { IfOk result (λ text. text ≡ records_text (table_records mark.now frame.now)) }
{
    let mut writer = record_writer(alloc);
    write_table(alloc, &mut writer, mark, frame)?;
    Ok(Blob::from_vec(written_text(writer)?))
}

/// The text of two tables, one after the other, each as [`frame_text`] writes it. Their widths may differ.
pub fn tables_text(
    alloc: Global,
    first_mark: &str,
    first: &Frame,
    second_mark: &str,
    second: &Frame,
) -> Result<Blob, TextError>
    ensures { IfOk result (λ text. text ≡ records_text (
        table_records first_mark.now first.now ++ table_records second_mark.now second.now)) }
{
    let mut writer = record_writer(alloc);
    write_table(alloc, &mut writer, first_mark, first)?;
    write_table(alloc, &mut writer, second_mark, second)?;
    Ok(Blob::from_vec(written_text(writer)?))
}

/// The text of one row of a table, as [`frame_text`] writes its record.
pub fn record_text(alloc: Global, mark: &str, table: &Frame, i: usize) -> Result<Blob, TextError>
    requires { i < length table.now.rows }
    ensures { IfOk result (λ text. text ≡ row_text settings
        (row_record mark.now table.now.schema (slice_index_or table.now.rows i []))) }
{
    let mut writer = record_writer(alloc);
    let mut spare = Vec::new(alloc);
    write_row(&mut writer, &mut spare, mark, table, i)?;
    Ok(Blob::from_vec(written_text(writer)?))
}

/// Writes the records of a table, each with the mark as its first field.
fn write_table(
    alloc: Global,
    writer: &mut Writer<Vec<u8>>,
    mark: &str,
    table: &Frame,
) -> Result<(), TextError>
    requires { IsBetweenRecords writer.old }
    ensures between { OnOk result (IsBetweenRecords writer.new) }
    ensures text { OnOk result (text_so_far writer.new ≡
        text_so_far writer.old ++ records_text (table_records mark.now table.now)) }
{
    let mut spare = Vec::new(alloc);
    write_header(writer, mark, table.schema())?;
    for i in 0..table.height() {
        write_row(writer, &mut spare, mark, table, i)?;
    }
    Ok(())
}
