//! Reductions, and what each gives for the values of a group.
//!
//! [`ReductionKind`] names them; `fold_of` in `specs/Folds` is the plain fold of each in row order,
//! and `reduced_type` the type of what it gives. Worked answers stand in `examples.rt`, as clauses.
#![tactic(auto)]

mod examples;
mod kind;

pub use examples::{least_and_greatest_examples, place_examples, sum_examples};
pub use kind::ReductionKind;
