//! The library for C. A handle owns a regex or a set; each call borrows it for as long as it runs.
//!
//! Nothing else crosses but numbers, slices and the structs of [`plain`]. `bindings/c/fancy_regex.h` is the same interface as C
//! reads it, and says what is left to the caller. Each answer is a number of [`answers`].
#![tactic(auto)]

mod answers;
mod buffers;
mod faults;
mod handed;
mod handle;
mod lists;
mod plain;
mod reading;
mod regexes;
mod sets;
mod texts;
mod under_way;
