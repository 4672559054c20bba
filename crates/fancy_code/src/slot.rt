//! What is known of a group.

use fancy_input::span::Span;

/// What is known of a group: where it began last, as a byte offset, and where its text stands if it has taken part.
#[derive(Clone, Copy, PartialEq, Eq, Debug)]
pub struct Slot {
    /// Where the group began last.
    pub from: usize,
    /// Where its text stands; `None` where it has taken no part.
    pub span: Option<Span>,
}

/// A slot that nothing was written to.
pub const EMPTY: Slot = Slot {
    from: 0,
    span: None,
};
