//! What a command tells the caller of the program.

ghost use Rattle.std.specs.Prelude.{◌≡◌, ◌↔◌, true, false};

/// What a command came to.
#[derive(Clone, Copy)]
pub struct Outcome {
    /// Whether something was found.
    pub found: bool,
    /// Whether there was a fault.
    pub faulted: bool,
}

impl Outcome {
    /// Nothing found, and no fault.
    pub fn new() -> Outcome
        ensures found { result.found ≡ false }
        ensures faulted { result.faulted ≡ false }
    {
        Outcome {
            found: false,
            faulted: false,
        }
    }

    /// The status: 2 where there was a fault, else 0 where something was found, else 1.
    pub fn status(self) -> u8
        ensures fault { self.faulted ≡ true ↔ result ≡ 2 }
        ensures found { (self.faulted ≡ false) × (self.found ≡ true) ↔ result ≡ 0 }
        ensures none { (self.faulted ≡ false) × (self.found ≡ false) ↔ result ≡ 1 }
    {
        if self.faulted {
            2
        } else if self.found {
            0
        } else {
            1
        }
    }
}
