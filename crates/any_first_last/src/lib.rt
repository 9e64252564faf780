//! First and last of columns of any type.
//!
//! [`AnyFirst`] and [`AnyLast`] hand each call on to the reduction of the column's type, all of
//! which have the contract of `GroupedReduction`. What the two share is in `variants.rt`.
#![tactic(auto)]

mod any_first;
mod any_last;
mod variants;

pub use any_first::AnyFirst;
pub use any_last::AnyLast;
