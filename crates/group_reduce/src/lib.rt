//! Reductions of groups: what they are, and the two representations that are generic in how a state is kept.
#![tactic(auto)]

mod entering;
mod grouped;
mod masked;
mod nulls;
mod reducer;
mod vectors;
mod wrapped;

pub use grouped::{GroupedReduction, Stated};
pub use masked::VecMaskGroupedReduction;
pub use nulls::NullGroupedReduction;
pub use reducer::Reducer;
pub use vectors::VecGroupedReduction;
pub use wrapped::{parts_in, wrap_all};
