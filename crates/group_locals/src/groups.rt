//! The groups of all local states.
use col_core::{IdxSize, List, Series};
use key_groups::RowEncodedHashGrouper;

/// Groups in the order of their first rows.
#[derive(Drop)]
pub struct Groups {
    /// The keys, which number the groups.
    pub grouper: RowEncodedHashGrouper,
    /// The numbers of the groups, in order.
    pub order: List<IdxSize>,
    /// For each reduction what it gives for each group, in order, in a column without a name.
    pub columns: List<Series>,
}

/// The groups of all local states, and the groupers of the local states, as they were.
#[derive(Drop)]
pub struct Merged {
    /// The groups.
    pub groups: Groups,
    /// The groupers.
    pub locals: List<RowEncodedHashGrouper>,
}
