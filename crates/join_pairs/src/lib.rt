//! Pairs of rows and joined rows: the columns that a query names, and the rows that pass its filter.
//!
//! What is promised: [`filter_rows`] gives the rows that pass, in order (`passes` in `specs/Filtered`
//! of `join_model`); [`joined_column`] the column that a reference names. Begin with `filter.rt`; the
//! masks of comparisons stand in `mask.rt`. The calls of `join_probes` on tables and pairs and
//! [`join_rows`] of `pair_rows` are re-exported, so that what becomes of a morsel stands in one place.
#![tactic(auto)]

mod columns;
mod filter;
mod mask;

pub use columns::joined_column;
pub use filter::filter_rows;
pub use join_laws::Pair;
pub use join_probes::{Built, ProbeError, build_tables, probe_morsel, unmatched_rows};
pub use join_tables::Places;
pub use pair_rows::join_rows;
