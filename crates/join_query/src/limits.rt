//! The limits of queries, and the plan of a query that names none.
use crate::query::Plan;

/// The greatest number of partitions of the build side.
pub const MAX_PARTITIONS: u64 = 65_536;
/// The greatest number of local states.
pub const MAX_STATES: u64 = 65_536;
/// The greatest number of pairs at which a probe stops.
pub const MAX_LIMIT: u64 = 2_147_483_647;
/// The greatest number of rows of a morsel.
pub const MAX_MORSEL: u64 = 2_147_483_647;
/// The greatest length of the joined list before the filter that a plan may allow.
pub const MAX_ROWS: u64 = 4_294_967_295;

/// A side has fewer rows than this, and fewer frames.
pub const SIDE_LIMIT: usize = 1 << 31;

/// The plan of a query that names none. Its seed and its factor are those of the 64-bit FNV-1a and Fibonacci hashes.
pub const DEFAULT_PLAN: Plan = Plan {
    partitions: 8,
    states: 4,
    limit: 4096,
    morsel: 65_536,
    rows: MAX_ROWS,
    seed: 0xcbf2_9ce4_8422_2325,
    mask: u64::MAX,
    pseed: 0x9e37_79b9_7f4a_7c15,
};
