//! Tests of the texts of tables at concrete values.
#![tactic(auto)]

#[cfg(test)]
mod tests;
