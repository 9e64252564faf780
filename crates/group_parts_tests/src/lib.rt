//! Tests of `group_parts`: lists and masks that are dealt into parts.
#![tactic(auto)]

#[cfg(test)]
mod parts;
