//! Tests of `join_groups`: which orders are whole, and what morsels give in any order and over any
//! number of local states.
#![tactic(auto)]

#[cfg(test)]
mod asked;
#[cfg(test)]
mod locals;
#[cfg(test)]
mod morsels;
#[cfg(test)]
mod shown;
#[cfg(test)]
mod whole;
