//! At which bytes the ways of a choice of hard code may go on, and where the byte leads.
#![tactic(auto)]

pub mod atoms;
pub mod choices;
pub mod denials;
pub mod front;
pub mod prices;
pub mod splits;
