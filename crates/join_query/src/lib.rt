//! Queries and their parts, and why a query is refused: types alone.
//!
//! [`Query`] is a join with its filter, groups, reductions and [`Plan`]; [`QueryError`] the causes
//! of a refusal, with the numbers that a program prints; the limits and the default plan are
//! constants. `join_model` says what a query's answer is. Begin with `query.rt`.
#![tactic(auto)]

mod error;
mod limits;
mod names;
mod query;

pub use error::QueryError;
pub use limits::{
    DEFAULT_PLAN, MAX_LIMIT, MAX_MORSEL, MAX_PARTITIONS, MAX_ROWS, MAX_STATES, SIDE_LIMIT,
};
pub use names::{kind_name, side_prefix};
pub use query::{ColumnRef, Filter, FilterOp, IntLiteral, Operand, Plan, Query, Reduction, Side};
pub use reduce_model::ReductionKind;
