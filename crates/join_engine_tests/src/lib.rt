//! Tests of `join_engine`: what its answers hold beside the two tables, and a big join. What requests show stands in `examples/`.
#![tactic(auto)]

#[cfg(test)]
mod asked;
#[cfg(test)]
mod big;
#[cfg(test)]
mod parts;
