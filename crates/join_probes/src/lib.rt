//! The tables of a query's build side, the pairs of a morsel and the outer rows, on frames.
//!
//! [`build_tables`] makes the keys of the build frames and puts them into tables, one a partition;
//! [`probe_morsel`] gives the pairs of a morsel's rows with the build rows that they join, and marks
//! the keys of these; [`unmatched_rows`] gives the build rows that nothing has joined. What is
//! promised is in the words of `join_model`: the pairs, as rows, are `rows_of_probe` of each row in
//! turn, whatever the plan's partitions and limit. `IsBuilt` of `specs/Probed` says what tables stand
//! for under marks that are any test of the key, `HasProbed` what they stand for once some rows have
//! been probed.
#![tactic(auto)]

mod built;
mod keys;
mod morsel;
mod outer;
mod plan;

pub use built::build_tables;
pub use join_tables::{Built, Pair, ProbeError, TablePlan};
pub use keys::key_places;
pub use morsel::probe_morsel;
pub use outer::unmatched_rows;
pub use plan::table_plan;
