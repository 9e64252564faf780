//! Tests of bits and arrays.
#![tactic(auto)]

#[cfg(test)]
mod arrays;
#[cfg(test)]
mod bits;
#[cfg(test)]
mod numbers;
#[cfg(test)]
mod ranges;
