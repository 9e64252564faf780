//! Sums of groups: one total a group, kept in the type that the column type names.
#![tactic(auto)]

mod adding;
mod any_sum;
mod sums;
mod types;

pub use any_sum::{AnySum, has_sum};
pub use sums::{SumReduce, sum_type};
pub use types::SumType;
