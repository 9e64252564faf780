//! The probe table: the keys of build rows with the positions of these rows, in chunks, and what
//! probes and lists of unmarked keys reply under limits.
#![tactic(auto)]

mod laws;
mod row_encoded;
mod table;
mod words;

pub use laws::{few_pairs_under_a_limit, probes_resume, unmarked_keys_resume};
pub use row_encoded::{RowEncodedChunkedIdxTable, new_chunked_idx_table};
pub use table::ChunkedIdxTable;
