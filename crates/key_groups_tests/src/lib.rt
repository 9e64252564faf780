//! Tests of the grouper: which indexes its calls give, and what it lists of its keys.
#![tactic(auto)]

#[cfg(test)]
mod merged;
#[cfg(test)]
mod rows;
