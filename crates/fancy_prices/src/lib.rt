//! What attempts with hard code cost where they die, told by the byte that stands at a position and what stands before it.
#![tactic(auto)]

mod around;
pub mod entries;
pub mod facts;
pub mod free;
pub mod kinds;
pub mod price;
pub mod rows;
