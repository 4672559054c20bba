//! The alternatives that the code of a pattern opens with.

use crate::key_table::KeyTable;
use crate::text::Text;
use fancy_tree::tree::Assertion;

/// With so many alternatives code opens wide: it is worth to tell first which of them may match.
pub const WIDE: usize = 12;

/// What the code of a pattern has before its alternatives.
#[derive(Clone, Copy)]
pub struct Lead {
    /// The test of the place, if there is one. It comes first.
    pub test: Option<Assertion>,
    /// The group that begins then, if one does.
    pub group: Option<usize>,
    /// The instruction after these.
    pub at: usize,
}

/// The alternatives that the code of a pattern opens with, and a table that tells which of them may match at a place.
#[derive(Drop)]
pub struct Branches {
    /// What comes before all of them.
    pub lead: Lead,
    /// The first instruction of each alternative, in order of preference.
    pub heads: Vec<usize>,
    /// The text that each of them begins with.
    pub texts: Vec<Text>,
    /// The numbers of the alternatives, by the bytes that stand at their first places.
    pub table: KeyTable,
}
