//! Tests of requests at concrete values.
#![tactic(auto)]

#[cfg(test)]
mod example;
#[cfg(test)]
mod queries;
#[cfg(test)]
mod refusals;
#[cfg(test)]
mod types;
