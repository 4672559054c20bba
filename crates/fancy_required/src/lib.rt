//! What every match goes on to.
#![tactic(auto)]

pub mod ends;
pub mod seldom;
pub mod told;
