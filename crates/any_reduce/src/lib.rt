//! Reductions of groups of any kind, over columns of any type.
//!
//! [`AnyReduction`] hands each call on to the reduction of its kind, all of which have the contract
//! of `GroupedReduction`. Begin with `any.rt`.
#![tactic(auto)]

mod any;
mod new;

pub use any::AnyReduction;
pub use new::{
    KindError, new_first_reduction, new_last_reduction, new_max_reduction, new_min_reduction,
    new_reduction, new_sum_reduction,
};
