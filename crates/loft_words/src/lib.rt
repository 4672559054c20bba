//! The words of the program `loft`: what help and the manual page say of them, and the command that a row of them asks for.
#![tactic(auto)]

mod asked;
mod manual;
mod program;
mod requests;
mod words;

pub use asked::{
    Colours, Command, PatternOptions, PatternWork, Replacement, Report, RulesWork, Task, Way,
};
pub use manual::write_manual;
pub use requests::{Request, read_words};
