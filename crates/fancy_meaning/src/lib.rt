//! What a pattern does: its definition, and laws of it.
//!
//! The definition is a backtracking search written as equations: `trace` says what a pattern does from a state, in order of
//! preference, and `search` which outcome is the answer. No engine and no code is named here.
#![tactic(auto)]

pub mod byte_laws;
pub mod laws;
pub mod options;
pub mod reading;
