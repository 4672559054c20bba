//! What an automaton for easy patterns remembers: its states, and the transitions between them.
//!
//! At a place of the haystack a row of instructions waits, the preferred one first: a state. A step follows each of them to the
//! instructions that read an item, and leads to the row of those that go on after the item that is there. A step is
//! computed once for a row and what is seen, the item and both sides of the place. It is remembered in a cell, to which a table
//! leads. Of the ASCII characters that no instruction tells apart one stands for all.
//!
//! Where a match began is told by where its way did: each way has the number of the way that it comes from, so a search goes on from where
//! those began that wait to where those did after a step (`Starts`).
#![tactic(auto)]

pub mod cells;
pub mod closure;
pub mod hints;
pub mod join;
pub mod marks;
pub mod origin;
pub mod plain;
pub mod rows;
pub mod slots;
pub mod starts;
pub mod step;
pub mod transitions;
pub mod way;
