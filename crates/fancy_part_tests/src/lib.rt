//! Tests of the library's parts that no call of `fancy_regex` shows by itself: the sets, the trees and the code of patterns, haystacks
//! and errors, each asked of its own crate. So they need not wait for the crates above these. What the program `calls` can be asked for
//! are rows in `crates/calls/rows.txt`.
#![tactic(auto)]

#[cfg(test)]
mod asking;
#[cfg(test)]
mod classes;
#[cfg(test)]
mod code;
#[cfg(test)]
mod errors;
#[cfg(test)]
mod haystacks;
#[cfg(test)]
mod trees;
