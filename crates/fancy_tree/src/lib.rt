//! What a pattern is: its tree, the sets of numbers in it and the names of its groups; and why it, or a search, is refused.
#![tactic(auto)]

pub mod char_set;
mod edges;
pub mod error;
mod joining;
mod look_behind;
pub mod measure;
pub mod name;
pub mod named;
pub mod operation;
pub mod property;
mod refer;
pub mod set;
pub mod sharing;
mod table;
pub mod tree;
pub mod widening;
