//! Laws of the join over lists: tables by partition and local states give the nested-loop rows and
//! the groups.
//!
//! There are lemmas alone, and the struct that they speak of. Begin with `partners_are` in
//! `proofs/Deals` (a probe by partition finds what a loop over all build rows finds),
//! `unmatched_sorted` in `proofs/BuildOrder`, and `merged_column` in `proofs/Groups` (local states,
//! in any order of morsels). The words are in `specs/Deals`, `specs/Partitions` and `specs/Locals`.
#![tactic(auto)]

use col_core::{IdxSize, RowPlace};

/// A probe row beside a build row. `None` is a row of nulls: of a probe row that joins no build
/// row, or of a build row that no probe row joins.
#[derive(Clone, Copy, PartialEq, Eq, Debug)]
pub struct Pair {
    /// The row of the morsel.
    pub probe: Option<IdxSize>,
    /// The place of the build row.
    pub build: Option<RowPlace>,
}
