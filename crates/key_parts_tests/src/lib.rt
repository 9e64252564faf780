//! Tests of hashes, partitions, sketches and positions at concrete values.
#![tactic(auto)]

#[cfg(test)]
mod tests;
