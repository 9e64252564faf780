//! Groups by local states, and their merge.
//!
//! Rows come in morsels, each of which enters one of several local states by [`group_morsel`], and
//! [`merge_groups`] makes the groups of all of them. What is promised: in whatever order the morsels
//! come and however many states there are, the groups are those of all rows by the number of their
//! morsel, each key once by its first row, and each reduction gives the plain fold of its values
//! (`groups_end` in `proofs/End`). Keys are bytes here, and reductions whatever implements
//! `GroupedReduction`. The words are in `specs/Locals`, `specs/Orders` and `specs/History`.
#![tactic(auto)]

mod columns;
mod first_rows;
mod groups;
mod local;
mod merge;
mod morsels;
mod order;

pub use groups::{Groups, Merged};
pub use local::LocalState;
pub use merge::merge_groups;
pub use morsels::{group_morsel, new_locals};
