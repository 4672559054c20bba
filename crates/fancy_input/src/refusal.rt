//! Why a search gives no answer.

ghost use Rattle.std.specs.Prelude.{◌≡◌};
ghost use Rattle.fancy_input.specs.declared.refusal.SearchRefusal.TheVariants.{Memory};

use std::alloc::{AllocError, AllocFailed};

/// Why a search gives no answer.
#[derive(Clone, Copy, PartialEq, Eq, Debug)]
pub enum SearchRefusal {
    /// Memory ran out.
    Memory,
    /// More returns were needed than the limit allows.
    Returns,
    /// More choices stood open than the limit allows.
    Choices,
    /// More work was needed than the limit allows: steps, and what counts as such.
    Steps,
}

impl From<AllocError> for SearchRefusal {
    ghost from_gives = { λ _ e. e ≡ Memory };

    fn from(_error: AllocError) -> SearchRefusal {
        SearchRefusal::Memory
    }
}

impl<T: Drop> From<AllocFailed<T>> for SearchRefusal {
    ghost from_gives = { λ _ e. e ≡ Memory };

    fn from(_error: AllocFailed<T>) -> SearchRefusal {
        SearchRefusal::Memory
    }
}
