//! Operators between sets.

ghost use Rattle.std.specs.Prelude.{◌≡◌};

/// What an operator between two sets keeps.
#[derive(Clone, Copy, Debug, PartialEq, Eq)]
pub enum Operation {
    /// What is in one of them.
    Union,
    /// `&&`: what is in both.
    Intersection,
    /// `--`: what is in the first alone.
    Difference,
    /// `~~`: what is in one of them, and not in both.
    SymmetricDifference,
}

impl Operation {
    ghost use Rattle.fancy_tree.specs.Members.{applied};

    /// Whether a number is kept, by whether it is in either set.
    pub fn keeps(self, a: bool, b: bool) -> bool
        ensures { result ≡ applied self a b }
    {
        match self {
            Operation::Union => a || b,
            Operation::Intersection => a && b,
            Operation::Difference => a && !b,
            Operation::SymmetricDifference => a != b,
        }
    }
}
