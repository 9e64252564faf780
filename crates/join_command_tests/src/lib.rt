//! Tests of `run_tool` over streams in memory. What requests alone show stands in `examples/`.
#![tactic(auto)]

#[cfg(test)]
mod faults;
#[cfg(test)]
mod generated;
#[cfg(test)]
mod pieces;
#[cfg(test)]
mod runs;
#[cfg(test)]
mod words;
