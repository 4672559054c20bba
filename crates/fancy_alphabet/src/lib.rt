//! What plain code tells apart at a place: what is read there, and what stands beside it.
//!
//! An automaton steps by what is seen at a place. Plain code tells only some of it apart: characters that no instruction tests for
//! by itself, and that are in the same sets, are of one class, and a place's sides matter as far as the code tests places. So the
//! code of `\b[a-z]+` has three classes of ASCII characters, its letters, the other word characters and the rest, and two kinds of
//! sides.
#![tactic(auto)]

pub mod alike;
pub mod classes;
pub mod effect;
pub mod side;
pub mod sight;
