//! What the runner comes to in a search that it begins and the automaton may go on with, or that the automaton leads.

use crate::cache::Kept;
use fancy_automaton::search::Candidate;
use fancy_code::found::Found;
use fancy_input::input::Request;

/// What a search that was begun came to.
pub(crate) enum Begun {
    /// Its end, with what was found.
    Ended(Option<Found>),
    /// Nothing so far: this is still to be searched for.
    Left(Request),
}

/// What a search came to that the automaton led.
#[derive(Clone, Copy)]
pub(crate) struct Led {
    /// What was found.
    pub(crate) found: Option<Found>,
    /// What is kept for the next search.
    pub(crate) kept: Kept,
}

/// The attempts by the runner in a search that the automaton led.
#[derive(Clone, Copy)]
pub(crate) struct Attempts {
    /// Where they began.
    pub(crate) from: Candidate,
    /// The match, if one was found.
    pub(crate) found: Option<Found>,
    /// How many steps they took.
    pub(crate) steps: usize,
}
