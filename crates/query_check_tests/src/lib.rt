//! Tests of `query_check`: a query is accepted, and refused by each cause and by the first of two.
#![tactic(auto)]

#[cfg(test)]
mod queries;
#[cfg(test)]
mod tests;
