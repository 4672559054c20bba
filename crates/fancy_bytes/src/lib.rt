//! Which bytes a match can begin with, and which every haystack with a match has.
#![tactic(auto)]

pub mod byte_set;
pub mod edges;
pub mod items;
pub mod lacking;
pub mod members;
pub mod opening;
pub mod reads;
pub mod required;
pub mod rows;
pub mod start;
