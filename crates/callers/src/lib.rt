//! Small callers of crates that serve on their own: the probe table, the grouper, the reductions
//! and the engine. Each shows how the calls go together and what a caller can conclude from their
//! clauses. The page `CALLING.md` of each of these crates explains its caller.
#![tactic(auto)]

mod joining;
mod numbering;
mod probing;
mod reducing;

pub use joining::{count_groups, joined_rows};
pub use numbering::row_groups;
pub use probing::{all_matches, table_of};
pub use reducing::reduced_groups;
