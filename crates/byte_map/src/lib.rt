//! A map from key bytes to values, in order of insertion, that counts its searches.
#![tactic(auto)]

mod iter;
mod map;

pub use iter::HashKeysIter;
pub use map::{BytesIndexMap, Found, Refused};
