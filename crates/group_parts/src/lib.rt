//! Lists and bits that are dealt into parts by an index for each item.
//!
//! What is promised: each part has its items, in order, and a list that finds no memory comes back
//! whole. The caller says how many items each part has, and must be right (`AreSizes` in
//! `specs/Parts`). Begin with [`partition_vec`].
#![tactic(auto)]

mod partition;

pub use partition::{partition_mask, partition_vec, partition_vec_mask};
