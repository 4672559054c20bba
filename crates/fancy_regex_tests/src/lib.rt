//! Tests of builders, of byte sets, and of pattern sets and tokens, through public names, and of the commands of `fre`, what they
//! write and their statuses. What the program `calls` can be asked for are rows in `crates/calls/rows.txt`: here are values that a
//! caller makes and changes, and writers that fail.
#![tactic(auto)]

#[cfg(test)]
mod asking;
#[cfg(test)]
mod builders;
#[cfg(test)]
mod byte_sets;
#[cfg(test)]
mod commands;
#[cfg(test)]
mod options;
#[cfg(test)]
mod pattern_sets;
#[cfg(test)]
mod tokens;
