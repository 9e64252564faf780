//! A large input from a number: a query and the frames of both of its sides.
//!
//! [`generate`] makes them, the same for the same number each time. What is promised: the query, the
//! build rows and the probe rows are those of `specs/Generated`, and the joined list is short. The
//! numbers are drawn one after another by [`Draws`]. Begin with [`generate`].
#![tactic(auto)]

mod columns;
mod draws;
mod examples;
mod fields;
mod input;
mod numbers;
mod query;
mod word;

pub use draws::Draws;
pub use examples::generated_examples;
pub use input::{Generated, generate};
pub use query::generated_query;
pub use word::{MOST_ROWS, number_of_word};
