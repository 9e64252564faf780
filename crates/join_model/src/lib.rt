//! What a query's answer is: the nested-loop rows, the groups, the two answer tables and the first
//! refusal.
//!
//! There are definitions alone, and worked answers of them as clauses in `examples.rt`. Begin with
//! `answer_rows` and `answer_groups` in `specs/Answers`, and with `refusal_of` in `specs/Refusals`.
//! The names of `join_query` are re-exported.
#![tactic(auto)]

mod examples;

pub use examples::{
    accepted_examples, filter_example, inner_join_example, null_key_example, outer_join_example,
    refusal_examples, report_example,
};
pub use join_query::{
    ColumnRef, DEFAULT_PLAN, Filter, FilterOp, IntLiteral, MAX_LIMIT, MAX_MORSEL, MAX_PARTITIONS,
    MAX_ROWS, MAX_STATES, Operand, Plan, Query, QueryError, Reduction, ReductionKind, SIDE_LIMIT,
    Side, kind_name, side_prefix,
};
