//! Least and greatest of each group, over columns of any type.
//!
//! [`AnyMin`] and [`AnyMax`] hand each call on to the reduction that keeps the values of the column
//! type. The macros of `arms.rt` do so for each variant.
#![tactic(auto)]

mod any_max;
mod any_min;
mod arms;

pub use any_max::AnyMax;
pub use any_min::AnyMin;
