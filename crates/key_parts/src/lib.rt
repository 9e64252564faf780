//! The hash of key bytes, and what is made of a hash: its partition and its place in a sketch. Beside
//! them the positions of rows in chunks.
#![tactic(auto)]

mod chunk_id;
mod hash;
mod partition;
mod sketch;

pub use chunk_id::ChunkId;
pub use hash::PlRandomState;
pub use partition::HashPartitioner;
pub use sketch::{CardinalitySketch, HyperLogLog};

/// Places of rows and of chunks.
pub type IdxSize = u32;
