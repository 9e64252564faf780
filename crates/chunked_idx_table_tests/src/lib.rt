//! Tests of `chunked_idx_table`: what its calls reply, for few rows and for many.
#![tactic(auto)]

#[cfg(test)]
mod calls;
#[cfg(test)]
mod many;
#[cfg(test)]
mod replies;
#[cfg(test)]
mod tables;
