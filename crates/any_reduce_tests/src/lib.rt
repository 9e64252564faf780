//! Tests of reductions of each kind, over columns of each way in which values are kept.
#![tactic(auto)]

#[cfg(test)]
mod bytes;
#[cfg(test)]
mod columns;
#[cfg(test)]
mod groups;
#[cfg(test)]
mod merged;
#[cfg(test)]
mod numbers;
#[cfg(test)]
mod parts;
#[cfg(test)]
mod types;
