//! Tests of rows as bytes, and back.
#![tactic(auto)]

#[cfg(test)]
mod tests;
