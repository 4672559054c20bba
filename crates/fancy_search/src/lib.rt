//! One compiled pattern, and the searches with it.
#![tactic(auto)]

pub mod asked;
mod begun;
pub mod byte_sets;
pub mod cache;
pub mod groups;
mod one_item;
pub mod options;
pub mod program;
mod read_past;
pub mod searcher;
mod step_pool;
mod straight;
