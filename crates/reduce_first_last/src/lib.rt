//! First and last: numbers, decimals, bytes and truth values.
//!
//! A null is taken as a value, and a group that no value entered gives null. Which of two values
//! stays goes by their sequence numbers.
#![tactic(auto)]

mod bytes;
mod decimals;
mod kept;
mod numbers;
mod policy;
mod truths;

pub use bytes::BinaryFirstLastReducer;
pub use decimals::GenericFirstLastGroupedReduction;
pub use kept::Numbered;
pub use numbers::NumFirstLastReducer;
pub use policy::{First, Last, Policy};
pub use truths::BoolFirstLastReducer;
