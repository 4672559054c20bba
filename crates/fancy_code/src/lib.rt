//! What a pattern finds in a haystack: its definition, its code, and what all engines share.
#![tactic(auto)]

pub mod attempt;
mod branching;
mod choosing;
pub mod classify;
pub mod code;
pub mod compile;
mod emitter;
pub mod found;
pub mod items;
mod marking;
mod prefilter;
pub mod slot;
pub mod step;
mod text;
