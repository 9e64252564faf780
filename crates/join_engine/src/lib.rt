//! The join: the rows of both sides that join, their groups, and the two answer tables.
//!
//! What is promised of [`stream_join_aggregate`]: Ok holds exactly `answer_rows` and
//! `answer_groups`; each error but `Memory` is the first refusal of the query, with its place; and
//! a query without a refusal is answered, unless memory runs out. Begin there. The words are in
//! `join_model`, whose names of queries are re-exported, as are [`check_query`] and the calls of
//! `join_groups` on local states.
#![tactic(auto)]

mod engine;
mod listing;
mod outer;
mod probe;

pub use col_core::RowPlace;
pub use engine::{Answer, stream_join_aggregate};
pub use join_groups::{LocalState, Merged, group_morsel, merge_groups, new_locals};
pub use join_model::{
    ColumnRef, DEFAULT_PLAN, Filter, FilterOp, IntLiteral, Operand, Plan, Query, QueryError,
    Reduction, ReductionKind, Side,
};
pub use query_check::check_query;
