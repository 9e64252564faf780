//! The tables of a join's build side, by partition, and what probes of them give.
//!
//! [`build_tables`] puts the keys of the build frames into probe tables, one a partition, and notes
//! where their rows stand; [`probe_morsel`] gives the pairs of some probe rows with the build rows
//! that they join, and marks the keys of these; [`unmatched_rows`] gives the build rows that nothing
//! has joined. What is promised: the pairs are those of a loop over all build rows, in its order,
//! whatever the partitions and the limit of a probe (`probed_are` of `join_laws`), and each marked
//! key is one that a probe row joins. Keys come ready made, hashed under the plan's state.
#![tactic(auto)]

mod built;
mod deal;
mod error;
mod order;
mod outer;
mod places;
mod plan;
mod probe;
mod reply;

pub use built::{Built, build_tables};
pub use error::ProbeError;
pub use join_laws::Pair;
pub use outer::unmatched_rows;
pub use places::Places;
pub use plan::TablePlan;
pub use probe::probe_morsel;
