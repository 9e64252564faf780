//! Words and laws about lists that know nothing of columns: what holds of each item and place by place, filters and
//! maps, distinct items by first appearance, classes and orders of items, numbers that rise, runs.
#![tactic(auto)]
