//! Haystacks, what is asked of them, and the matches in them. Every offset is in bytes from the
//! start of the haystack.
#![tactic(auto)]

pub mod bytes;
pub mod characters;
pub mod forms;
pub mod input;
pub mod last_lines;
pub mod lines;
pub mod matches;
pub mod places;
pub mod refusal;
pub mod regex_input;
pub mod span;
pub mod work;
