//! Tables as comma-separated text.
//!
//! [`frame_text`] writes one table and [`tables_text`] two, one after the other: a header record with
//! the names of the columns, and then one record a row. The first field of each record is a mark, by
//! which the tables of one text are told apart. [`record_text`] writes a single row.
//!
//! What is promised: the bytes are the text of the records that `table_records` lists, in
//! `specs/Records`, with the fields of `specs/Fields`; csv's reader gives these records back
//! (`text_reads_back`), and no two values of a column have one field (`fields_tell_values_apart`).
//! Begin with [`frame_text`]; the worked texts are in `examples.rt`.
#![tactic(auto)]

mod error;
mod examples;
mod fields;
mod laws;
mod records;
mod text;
mod writer;

pub use error::TextError;
pub use examples::{field_text_examples, record_text_examples};
pub use laws::{fields_tell_values_apart, text_reads_back};
pub use text::{frame_text, record_text, tables_text};
