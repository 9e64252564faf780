//! States of reductions: what is kept of the values of a group, how states are merged, and the laws
//! of both.
//!
//! There are laws alone: merging is associative and, where sequence numbers differ, goes either way
//! round; the state of nothing is neutral; and the state of entries in order gives the plain fold.
//! Begin with `laws.rt`; the words are in `specs/States`.
#![tactic(auto)]

pub mod laws;
