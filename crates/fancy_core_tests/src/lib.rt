//! Tests of searches, groups and lists, and of templates, replacers and replaced texts, through the names of `fancy_core` that
//! `fancy_regex` passes on: so they need not wait for that. What the program `calls` can be asked for are rows in
//! `crates/calls/rows.txt`: here are values that a caller makes, the names of groups, and what the searches of a list count together.
#![tactic(auto)]

#[cfg(test)]
mod asking;
#[cfg(test)]
mod captures;
#[cfg(test)]
mod inputs;
#[cfg(test)]
mod last_lines;
#[cfg(test)]
mod lists;
#[cfg(test)]
mod readme;
#[cfg(test)]
mod refusals;
#[cfg(test)]
mod replacement;
#[cfg(test)]
mod templates;
#[cfg(test)]
mod units;
#[cfg(test)]
mod words;
