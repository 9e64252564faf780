//! Tests of kernels.
#![tactic(auto)]

#[cfg(test)]
mod choices;
#[cfg(test)]
mod comparisons;
#[cfg(test)]
mod extremes;
#[cfg(test)]
mod filters;
#[cfg(test)]
mod fixtures;
