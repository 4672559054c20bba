//! Explanations of errors, for who writes a pattern: what is wrong, where, and what to do.
#![tactic(auto)]

mod class_fault;
mod columns;
mod explain;
mod hints;
mod writing;

pub use explain::Explain;
