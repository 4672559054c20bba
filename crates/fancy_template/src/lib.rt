//! Templates: texts in which a mark is before the name or the number of a group; what they expand to, and which groups
//! they may name.
#![tactic(auto)]

mod check;
pub mod expander;
mod expansion;
pub mod groups;
pub mod laws;
mod scan;
pub mod steps;
pub mod write;
