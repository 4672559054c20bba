//! The texts of files, what is done with each, and what the program tells of it and writes of what was found; lists of rules.
#![tactic(auto)]

mod console;
mod content;
mod diff;
mod explained;
mod fault;
mod hard_forms;
mod inputs;
mod json;
mod kinds;
mod lines;
mod matches;
mod outcome;
mod paint;
mod rules;
mod text;

pub use console::{Console, Terminals};
pub use content::Content;
pub use diff::Diff;
pub use explained::{write_byte_set, write_group_name};
pub use fault::{Fault, RuleFault};
pub use hard_forms::first_hard_form;
pub use inputs::{TextWork, each_text, is_standard_input, read_all};
pub use json::{write_json_group, write_json_place};
pub use kinds::{Part, character_width, write_highlighted, write_token};
pub use matches::{MatchWriter, write_rest, write_up_to};
pub use outcome::Outcome;
pub use rules::{Rule, Severity, read_rules};
pub use text::{Place, Text, wide};
