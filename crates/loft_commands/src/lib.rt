//! The commands of the program `loft`, which searches and changes files by patterns.
//!
//! | Command | Writes |
//! |---|---|
//! | `find` | the lines that match, each with its place |
//! | `replace` | the texts with matches replaced, to standard output or in place |
//! | `split` | the pieces between matches |
//! | `tokens` | the tokens of files by the patterns of a list of rules |
//! | `check` | where the rules of a list match |
//! | `explain` | how a pattern is read |
//! | `manual` | the manual page |
//!
//! The status is 0 where something was found, 1 where nothing was, 2 where there was a fault. A file with a fault is named on the
//! second writer, and the others are still done.
#![tactic(auto)]

mod check;
mod commands;
mod explain;
mod find;
mod in_place;
mod json;
mod patterns;
mod preview;
mod replace;
mod rewrite;
mod search;
mod split;
mod tasks;
mod tokens;

pub use commands::run;
pub use loft_texts::Terminals;
