//! Keys of rows with their hashes.
#![tactic(auto)]

mod deal;
mod gather;
mod keys;
mod row_encoded;
mod rows;

pub use deal::{clear_lists, insert_hash, push_row};
pub use keys::HashKeys;
pub use row_encoded::RowEncodedKeys;
