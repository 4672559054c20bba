//! The way that an attempt follows, and what it keeps below it: saved branches, open regions, and what undoes writes to groups.
#![tactic(auto)]

pub mod best;
pub mod layer;
pub mod log;
pub mod trail;
