//! Tests of keys with their hashes: which rows go to which partition, and what is taken back.
#![tactic(auto)]

#[cfg(test)]
mod frames;
#[cfg(test)]
mod keys;
#[cfg(test)]
mod positions;
