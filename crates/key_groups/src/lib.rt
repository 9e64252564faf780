//! The numbering of keys: each distinct key has an index, in order of insertion, which never
//! changes.
#![tactic(auto)]

mod grouper;
mod row_encoded;

pub use grouper::Grouper;
pub use row_encoded::{RowEncodedHashGrouper, new_hash_grouper};
