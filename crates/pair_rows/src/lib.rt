//! Joined rows as frames: the rows of pairs, gathered column by column, and a frame that grows.
//!
//! What is promised: [`join_rows`] gives the rows of the pairs under the joined schema (`pair_row` in
//! `specs/Probed` of `join_probes`), and a [`FrameBuilder`] holds the rows of all frames that it took,
//! in order. Begin with `joined.rt`.
#![tactic(auto)]

mod builder;
mod gather;
mod joined;
mod schema;

pub use builder::FrameBuilder;
pub use gather::frame_of_columns;
pub use joined::join_rows;
pub use schema::joined_schema;
