//! An automaton for easy patterns: all ways through the code at once, in order of preference.
//!
//! At a place of the haystack a row of instructions waits, the preferred one first. A step follows each of them to the
//! instructions that read an item, and leads to the row of those that go on after the item that is there. A step is
//! computed once for a row and what is seen, the item and both sides of the place. It is remembered in a cell, to which a table leads.
//! Of ASCII characters that no instruction tells apart one stands for all. As long as nothing was found, one more
//! way begins at each place, as the last one of its row.
//!
//! The code of `a|ab` begins with a split. The row at 0 of `ab` is that instruction alone. On `a` the step leads to the row of
//! two ways: the one of `a`, at whose end the code matches, and the one of `ab`, which still reads a `b`. At 1 the first
//! way ends with an outcome, which hides the second one: the match is `a`, and no way waits any more.
//!
//! Where a match began is told by where its way did: each way has the number of the way that it comes from. While all ways that wait began
//! at one place, that place is kept alone.
#![tactic(auto)]

mod amid;
mod anchored;
pub mod earliest;
pub mod follow;
pub mod front;
pub mod hop;
pub mod search;
pub mod sole;
mod told;
pub mod worth;
