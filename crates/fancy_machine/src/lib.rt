//! The backtracking machine, for patterns that no runner can follow.
#![tactic(auto)]

pub mod asked;
mod atoms;
mod attempt;
mod choice;
mod condition;
mod denials;
mod front;
mod read;
mod runs;
pub mod search;
mod seen;
mod step;
mod texts;
pub mod units;
