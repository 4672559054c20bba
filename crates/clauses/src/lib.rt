//! What may be relied on: each public call of `fancy_regex`, with all that its contract promises.
//!
//! Each function here makes one call and hands its answer on. Its clauses are the promise: which value, when each refusal comes,
//! and what stands after it. But for [`memory`] they name `fancy_regex` alone. If the library promised less, this crate would not be
//! proved.
//!
//! | To | See |
//! |---|---|
//! | build a regex | [`regexes`], [`options`], [`builder`] |
//! | ask whether it matches, and find the first match with its groups | [`searches`] |
//! | find all matches | [`lists`] |
//! | say where to search | [`inputs`] |
//! | read a match, and its groups | [`matches`], [`groups`] |
//! | split a text | [`splits`] |
//! | replace matches, and search for a text itself | [`replacements`] |
//! | expand a template | [`templates`] |
//! | ask several patterns | [`sets`] |
//! | cut a text into tokens | [`tokens`] |
//! | read an error | [`errors`] |
//! | tell lines and columns, and explain an error | [`lines`] |
//! | read a regex | [`regexes`] |
//! | see what a search costs | [`costs`] |
//! | see what a search of a hard pattern keeps | [`memory`] |
//! | see with which bytes a match begins, and which it needs | [`byte_sets`] |
//! | reason further | [`laws`] |
//!
//! In a clause `x.now` is what a reference points to, `x.old` and `x.new` a value before and after the call, and `result` what is
//! returned. docs/DEFINITIONS.md explains each definition.
#![tactic(auto)]

pub mod builder;
pub mod byte_sets;
pub mod costs;
pub mod errors;
pub mod groups;
pub mod inputs;
pub mod laws;
pub mod lines;
pub mod lists;
pub mod matches;
pub mod memory;
pub mod options;
pub mod regexes;
pub mod replacements;
pub mod searches;
pub mod sets;
pub mod splits;
pub mod templates;
pub mod tokens;
