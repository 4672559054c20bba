//! Why a class is refused.

ghost use Rattle.std.specs.Prelude.{◌≡◌};
ghost use Rattle.fancy_class.specs.declared.refusal.ClassRefusal.TheVariants.{Memory};

use fancy_tree::error::ParseErrorKind;
use std::alloc::{AllocError, AllocFailed};

/// Why a class, or an item of one, could not be read.
#[derive(Clone, Copy)]
pub enum ClassRefusal {
    /// A growth was refused.
    Memory,
    /// The text is not written as it has to be.
    Invalid(ParseErrorKind),
}

impl From<AllocError> for ClassRefusal {
    ghost from_gives = { λ _ e. e ≡ Memory };

    fn from(_error: AllocError) -> ClassRefusal {
        ClassRefusal::Memory
    }
}

impl<T: Drop> From<AllocFailed<T>> for ClassRefusal {
    ghost from_gives = { λ _ e. e ≡ Memory };

    fn from(_error: AllocFailed<T>) -> ClassRefusal {
        ClassRefusal::Memory
    }
}
