//! How tables are built and probed.
use key_parts::{HashPartitioner, IdxSize, PlRandomState};

/// How the tables of a join are built and probed.
#[derive(Debug, Drop)]
pub struct TablePlan {
    /// Under which state the keys of both sides are hashed.
    pub state: PlRandomState,
    /// How keys are dealt to the tables.
    pub partitioner: HashPartitioner,
    /// The number of matches at which a probe of a table stops.
    pub limit: IdxSize,
    /// Whether a probe row that joins no build row gives a pair.
    pub keep_probe: bool,
}
