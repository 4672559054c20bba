//! What parentheses open.

ghost use Rattle.std.specs.Prelude.{◌≡◌, ◌≤◌, ◌<◌, IfSome, length};
ghost use Rattle.fancy_syntax.specs.Grammar.{mark_here, parentheses, asks};
ghost use Rattle.fancy_syntax.specs.Views.{opening_found};

use fancy_tree::tree::Tree;

/// A group that captures nothing, and does more than keep its parts together.
#[derive(Clone, Copy)]
pub enum Grouping {
    /// `(?>`: an atomic group.
    Atomic,
    /// `(?=`, and negated `(?!`.
    LookAhead { negated: bool },
    /// `(?<=`, and negated `(?<!`.
    LookBehind { negated: bool },
}

/// What a parenthesis opens.
#[derive(Drop)]
pub(crate) enum Opening {
    /// Flags up to the end of the enclosing group, as `(?m)`.
    Setting,
    /// `(?:` or flags and a colon, a group that captures nothing; also `(` where groups without a name capture nothing.
    Plain,
    /// `(`, the capturing group of this number.
    Capture(usize),
    /// `(?>`, `(?=`, `(?!`, `(?<=` or `(?<!`.
    Marked(Grouping),
    /// A whole `(?P=n)`, the reference with this index.
    Reference { folded: bool, index: usize },
    /// `(?(`, a condition and `)`: the body of a conditional with this condition.
    Chooses(Box<Tree>),
    /// `(?(`: the condition of a conditional, where it is a pattern.
    Condition,
}

impl Opening {
    /// How many parentheses are open after it.
    pub(crate) fn parentheses(&self) -> u32
        ensures { result ≡ parentheses (opening_found self.now) }
    {
        match self {
            Opening::Chooses(_) | Opening::Condition => 2,
            _ => 1,
        }
    }

    /// Whether a condition follows.
    pub(crate) fn asks(&self) -> bool
        ensures { result ≡ asks (opening_found self.now) }
    {
        matches!(self, Opening::Condition)
    }
}

/// The group whose mark stands here, with its parenthesis, and how many characters that has.
pub(crate) fn mark(text: &[char]) -> Option<(Grouping, usize)>
    ensures value { result ≡ mark_here text.now }
    ensures room { IfSome result (λ m. m.1 ≤ length text.now) }
    ensures some { IfSome result (λ m. 0 < m.1) }
{
    if text.starts_with(&['(', '?', '>']) {
        Some((Grouping::Atomic, 3))
    } else if text.starts_with(&['(', '?', '=']) {
        Some((Grouping::LookAhead { negated: false }, 3))
    } else if text.starts_with(&['(', '?', '!']) {
        Some((Grouping::LookAhead { negated: true }, 3))
    } else if text.starts_with(&['(', '?', '<', '=']) {
        Some((Grouping::LookBehind { negated: false }, 4))
    } else if text.starts_with(&['(', '?', '<', '!']) {
        Some((Grouping::LookBehind { negated: true }, 4))
    } else {
        None
    }
}
