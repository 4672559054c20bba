//! Patterns of the dialect: how they are read, and which texts are patterns.
#![tactic(auto)]

mod blank;
mod build;
mod count;
mod escape;
pub mod flags;
pub mod groups;
pub mod laws;
mod lexeme;
pub mod parse;
mod parser;
mod reference;
mod resolve;

pub use fancy_tree::{error, name, tree};
