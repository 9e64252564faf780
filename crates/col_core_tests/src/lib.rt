//! Tests of columns and frames.
#![tactic(auto)]

#[cfg(test)]
mod chunks;
#[cfg(test)]
mod columns;
#[cfg(test)]
mod frames;
#[cfg(test)]
mod values;
