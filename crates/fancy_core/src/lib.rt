//! Regexes: the text of a pattern with its program, and what users ask of them.
#![tactic(auto)]

pub mod attempt;
pub mod cached;
pub mod captures;
mod capturing;
pub mod iter;
mod limits;
pub mod names;
pub mod regex;
mod replace;
pub mod replacer;
mod rewriting;
pub mod split;
pub mod starts;
