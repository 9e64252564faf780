//! Groups of joined rows over local states.
#![tactic(auto)]

mod columns;
mod keys;
mod locals;
mod merge;
mod morsels;
mod names;
mod orders;
mod table;

pub use group_locals::LocalState;
pub use locals::new_locals;
pub use merge::{Merged, merge_groups};
pub use morsels::group_morsel;
pub use orders::{group_in_order, order_is_whole};
