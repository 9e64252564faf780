//! A writer of records into memory.
ghost use Rattle.std.specs.Prelude.{◌≡◌, [], IfOk, OnOk};
ghost use Rattle.csv.specs.Writing.{writer_setup};
ghost use Rattle.table_text.specs.Records.{settings};
ghost use Rattle.table_text.specs.Writers.{IsBetweenRecords, standing, with_field, ended, text_so_far};

use crate::TextError;
use csv::{QuoteStyle, Terminator, Writer, WriterBuilder};
use std::alloc::Global;

/// A writer that has written no record yet. The records of two tables differ in length.
pub fn record_writer(alloc: Global) -> Writer<Vec<u8>>
    ensures between { IsBetweenRecords result }
    ensures empty { text_so_far result ≡ [] }
{
    WriterBuilder::new()
        .delimiter(b',')
        .quote(b'"')
        .quote_style(QuoteStyle::Necessary)
        .terminator(Terminator::Any(b'\n'))
        .flexible(true)
        .from_writer(Vec::new(alloc))
}

/// Writes the next field of a record.
#[tactic(auto, unfolding(crate::specs::Writers::with_field))]
pub fn write_field(writer: &mut Writer<Vec<u8>>, field: &[u8]) -> Result<(), TextError>
    requires { writer_setup writer.old ≡ settings }
    ensures setup { OnOk result (writer_setup writer.new ≡ settings) }
    ensures field { OnOk result (standing writer.new ≡
        with_field (standing writer.old) field.now) }
{
    match writer.write_field(field) {
        Ok(()) => Ok(()),
        Err(e) => Err(TextError::of_writer(e)),
    }
}

/// Ends a record.
#[tactic(auto, unfolding(crate::specs::Writers::ended))]
pub fn end_record(writer: &mut Writer<Vec<u8>>) -> Result<(), TextError>
    requires { writer_setup writer.old ≡ settings }
    ensures between { OnOk result (IsBetweenRecords writer.new) }
    ensures text { OnOk result (text_so_far writer.new ≡ ended (standing writer.old)) }
{
    match writer.end_record() {
        Ok(()) => Ok(()),
        Err(e) => Err(TextError::of_writer(e)),
    }
}

/// What a writer has written.
pub fn written_text(writer: Writer<Vec<u8>>) -> Result<Vec<u8>, TextError>
    ensures { IfOk result (λ text. text.items ≡ text_so_far writer) }
{
    match writer.into_inner() {
        Ok(text) => Ok(text),
        Err(e) => Err(TextError::of_io(e.error())),
    }
}
