//! What attempts cost that find nothing.

ghost use Rattle.std.specs.Prelude.{◌≡◌, ◌+◌, ◌≤◌, suc, true, IfSome, Some};
ghost use Rattle.fancy_prices.specs.Prices.{IsNothing};

/// The greatest number of choices, or of returns, that is told.
const MOST: u8 = u8::MAX;

/// What an attempt costs that finds nothing.
#[derive(Clone, Copy, PartialEq, Eq)]
pub struct Price {
    /// How many choices it opens.
    pub marks: u8,
    /// How many of them it takes back.
    pub returns: u8,
}

impl Price {
    /// It opens no choice.
    pub fn nothing() -> Price
        ensures { IsNothing result }
    {
        Price {
            marks: 0,
            returns: 0,
        }
    }

    /// It opens one choice, and takes none back.
    pub(crate) fn denied() -> Price
        ensures { (result.marks ≡ 1) × (result.returns ≡ 0) }
    {
        Price {
            marks: 1,
            returns: 0,
        }
    }

    /// Nothing, if that is told.
    pub(crate) fn nothing_if(told: bool) -> Option<Price>
        ensures { IfSome result (λ p. IsNothing p × (told ≡ true)) }
    {
        if told {
            return Some(Price::nothing());
        }
        None
    }

    /// Whether no choice is opened.
    #[inline]
    pub(crate) fn is_nothing(self) -> bool
        ensures { result ≡ true → IsNothing self }
    {
        self.marks == 0 && self.returns == 0
    }

    /// The price, if it is nothing.
    pub(crate) fn if_nothing(self) -> Option<Price>
        ensures { IfSome result (λ p. IsNothing self × IsNothing p) }
    {
        Price::nothing_if(self.is_nothing())
    }

    /// The same with so many choices more that are opened, and not taken back. `None` where they are more than is told.
    pub fn and(self, marks: u8) -> Option<Price>
        ensures { IfSome result
            (λ p. (p.marks ≡ self.marks + marks) × (p.returns ≡ self.returns)) }
    {
        let marks = self.marks as u32 + marks as u32;
        if marks > MOST as u32 {
            return None;
        }
        Some(Price {
            marks: marks as u8,
            returns: self.returns,
        })
    }

    /// That of a choice of two ways which cost so much. `None` where it is more than is told.
    pub fn or(self, other: Price) -> Option<Price>
        ensures { IfSome result (λ p. (p.marks ≡ suc (self.marks + other.marks)) × (p.returns ≡ self.returns + suc other.returns)) }
    {
        let marks = self.marks as u32 + other.marks as u32 + 1;
        let returns = self.returns as u32 + other.returns as u32 + 1;
        if marks > MOST as u32 || returns > MOST as u32 {
            return None;
        }
        Some(Price {
            marks: marks as u8,
            returns: returns as u8,
        })
    }
}
