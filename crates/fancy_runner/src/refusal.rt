//! Why the runner gives no answer.

ghost use Rattle.std.specs.Prelude.{◌≡◌};
ghost use Rattle.fancy_runner.specs.Refusals.{refusal_of};
ghost use Rattle.fancy_runner.specs.declared.refusal.RunnerRefusal.TheVariants.{Memory as OutOfMemory};

use fancy_input::refusal::SearchRefusal;
use std::alloc::{AllocError, AllocFailed};

/// Why the runner gives no answer.
#[derive(Clone, Copy, PartialEq, Eq, Debug)]
pub enum RunnerRefusal {
    /// Memory ran out.
    Memory,
    /// More steps were needed than the limit allows.
    Steps,
}

impl From<AllocError> for RunnerRefusal {
    ghost from_gives = { λ _ e. e ≡ OutOfMemory };

    fn from(_error: AllocError) -> RunnerRefusal {
        RunnerRefusal::Memory
    }
}

impl<T: Drop> From<AllocFailed<T>> for RunnerRefusal {
    ghost from_gives = { λ _ e. e ≡ OutOfMemory };

    fn from(_error: AllocFailed<T>) -> RunnerRefusal {
        RunnerRefusal::Memory
    }
}

impl From<RunnerRefusal> for SearchRefusal {
    ghost from_gives = { λ refusal e. e ≡ refusal_of refusal };

    fn from(refusal: RunnerRefusal) -> SearchRefusal {
        match refusal {
            RunnerRefusal::Memory => SearchRefusal::Memory,
            RunnerRefusal::Steps => SearchRefusal::Steps,
        }
    }
}
