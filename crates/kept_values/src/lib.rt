//! What reducers share: the numbers of columns by their type, values that are kept and lent, and the
//! column of what kept values give.
#![tactic(auto)]

mod finished;
mod lent;
mod number;

pub use finished::{GivesValues, finished_column};
pub use lent::{byte_array, bytes_of, lend_bytes, lend_number, lend_truth, number_of, truth_of};
pub use number::ColumnNumber;
