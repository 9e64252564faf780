//! Least and greatest: numbers, bytes and truth values.
//!
//! Nulls are skipped, and a group without a present value gives null.
#![tactic(auto)]

mod bytes;
mod numbers;
mod numeric;
mod side;
mod truth_groups;
mod truths;

pub use bytes::{BinaryMaxReducer, BinaryMinReducer, BinaryReducer};
pub use numbers::NumReducer;
pub use numeric::{Max, Min, NumericReduction};
pub use side::{Greatest, Least, Side};
pub use truth_groups::{BoolGroupedReduction, BoolMaxGroupedReduction, BoolMinGroupedReduction};
