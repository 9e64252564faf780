//! Tests of sources and sinks at concrete values.
#![tactic(auto)]

#[cfg(test)]
mod tests;
