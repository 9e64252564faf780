//! Rows as bytes, and back.
#![tactic(auto)]

mod decode;
mod encode;
mod laws;
mod read;

pub use decode::RowDecoder;
pub use encode::{encode_columns, encode_rows};
pub use laws::spellings_are_apart;
pub use read::row_length;
