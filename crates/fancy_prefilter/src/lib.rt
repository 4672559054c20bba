//! Where a match may begin: what tells it, and the scans of haystacks by that.
#![tactic(auto)]

pub mod branches;
pub mod candidates;
pub mod choice;
mod half_tables;
pub mod key_scan;
pub mod key_table;
pub mod letters;
pub mod literal;
mod marks;
pub mod prefilter;
mod probes;
pub mod reach;
mod region;
pub mod scan;
pub mod seek;
pub mod text;
pub mod window;
