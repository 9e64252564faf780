//! Places of rows.
use crate::IdxSize;

/// The place of a row of some frames: the number of its frame, and its place there.
#[derive(Clone, Copy, PartialEq, Eq, Debug)]
pub struct RowPlace {
    /// The number of the frame.
    pub frame: IdxSize,
    /// The place in the frame.
    pub row: IdxSize,
}
