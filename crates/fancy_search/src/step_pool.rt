//! Steps of the automaton that outlive a search.

ghost use Rattle.std.specs.Prelude.{◌≡◌, IfSome};
ghost use Rattle.fancy_search.specs.StepsOf.{AreStepsOf};

use crate::cache::RememberedSteps;
use counted_slot::{Counted, FREE, Fits, PRESENT, TAKEN};
use fancy_code::code::Code;
use std::sync::atomic::{AtomicUsize, Ordering};

/// Steps that hold more bytes are not left.
const MOST_LEFT: usize = 524_288;

/// The steps that a search left.
#[derive(Drop)]
pub(crate) struct LeftSteps {
    steps: Box<RememberedSteps>,
}

impl Fits for LeftSteps {
    type Tag = Code;

    ghost fits = { λ code left. AreStepsOf code left.steps.value };
}

/// Where the searches with one program leave what they computed for later ones. Threads share it: where two search at once, one of them
/// computes its own.
pub(crate) struct StepPool {
    /// Its tag is the program's code. It is `FREE` while none are left, and `PRESENT` while some are.
    pub(crate) left: Counted<Option<LeftSteps>>,
    // how many steps of the runner searches took while none were left
    spent: AtomicUsize,
}

/// By hand, so that crates above do not prove it once more.
impl Drop for StepPool {
    fn drop(self) {
        let StepPool { left: _, spent: _ } = self;
    }
}

impl StepPool {
    /// Nothing was left yet of this code.
    pub(crate) fn new(code: &Code) -> StepPool
        ensures { result.left ≡ code.now }
    {
        StepPool {
            left: Counted::new(None, code),
            spent: AtomicUsize::new(0),
        }
    }

    /// For how many of its steps the runner serves before the automaton does, where it takes about as long as `computed` of them to compute
    /// the automaton's first steps. `None` where steps are left, and where so many were spent before.
    pub(crate) fn worth(&self, computed: usize) -> Option<usize> {
        if self.left.load() == PRESENT {
            return None;
        }
        let spent = self.spent.load(Ordering::Relaxed);
        if spent < computed {
            Some(computed - spent)
        } else {
            None
        }
    }

    /// Notes that a search took so many steps of the runner while no steps of the automaton were left.
    pub(crate) fn spend(&self, steps: usize) {
        self.spent.fetch_add(steps, Ordering::Relaxed);
    }

    /// Takes the steps that were left.
    pub(crate) fn take(&self) -> Option<Box<RememberedSteps>>
        ensures { IfSome result (λ steps. AreStepsOf self.now.left steps.value) }
    {
        let (found, claim) = self.left.turn(PRESENT, TAKEN);
        if found != PRESENT {
            claim.done();
            self.spent.store(0, Ordering::Relaxed);
            return None;
        }
        let LeftSteps { steps } = claim.put(None, FREE)?;
        Some(steps)
    }

    /// Leaves steps for a later search, unless others are left or they hold much memory.
    pub(crate) fn leave(&self, steps: Box<RememberedSteps>)
        requires { AreStepsOf self.now.left steps.value }
    {
        if steps.cells.held_bytes() > MOST_LEFT {
            return;
        }
        let (found, claim) = self.left.turn(FREE, TAKEN);
        if found != FREE {
            claim.done();
            return;
        }
        let _none = claim.put(Some(LeftSteps { steps }), PRESENT);
    }
}
