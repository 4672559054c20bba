//! The runner, the engine for easy patterns: it follows each pair of an instruction and a place at most once.
#![tactic(auto)]

mod backlog;
mod first_item;
pub mod notes;
pub mod pair;
pub mod patience;
pub mod refusal;
mod row;
pub mod runner;
pub mod search;
mod start;
mod sweep;
pub mod table;
pub mod threads;
