//! Which queries are refused before a row is read.
//!
//! [`check_query`] gives the first cause, in the order of `checked_refusal` (`specs/Refusals` of
//! `join_model`), with its place where it has one. It takes no memory. Each cause is tested by a
//! function of the name that its word has.
#![tactic(auto)]

mod check;
mod columns;
mod schemas;

pub use check::check_query;
pub use columns::ref_type;
