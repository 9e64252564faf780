//! Tests of `byte_map`: a few keys, and many keys of one hash.
#![tactic(auto)]

#[cfg(test)]
mod tests;
