//! Reading a class, as `[a-z&&[^q]]`, and an escape that stands for a character or names a set.
#![tactic(auto)]

mod chain;
mod class_builder;
pub mod class_item;
pub mod context;
pub mod cursor;
pub mod escape;
mod item;
pub mod named_sets;
mod posix;
mod property;
mod reader;
pub mod refusal;
pub mod words;
