//! Tests of `join_probes` and of `join_rows` over it: the pairs of small frames, the build rows that
//! are left, and the joined rows, under many plans.
#![tactic(auto)]

#[cfg(test)]
mod sides;
#[cfg(test)]
mod told;
