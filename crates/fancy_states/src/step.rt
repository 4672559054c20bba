//! One place of a search.

ghost use Rattle.std.specs.Prelude.{◌≡◌, ◌≤◌, IfOk, OnOk, reverse, length};
ghost use Rattle.fancy_code.specs.CodeLength.{code_len};
ghost use Rattle.fancy_states.specs.Steps.{waiting, IsStepOn};
ghost use Rattle.fancy_states.specs.Counts.{AddsSteps, PaysFor};

use crate::closure::{Reach, close};
use crate::join::add_all;
use crate::marks::Marks;
use crate::way::Way;
use fancy_alphabet::sight::Sight;
use fancy_code::code::Code;
use fancy_input::work::Work;
use std::alloc::{AllocError, Global};

/// What the ways that wait at a place come to where something is seen.
#[derive(Drop)]
pub struct Step {
    /// The ways after the item, in order of preference.
    pub next: Vec<Way>,
    /// The number of the way from which one ended with an outcome.
    pub matched: Option<usize>,
}

/// The memory in which a step is computed. The next one takes it over.
#[derive(Drop)]
pub struct Scratch {
    /// Which instructions were met.
    pub marks: Marks,
    /// The ways at the place.
    pub reach: Reach,
}

impl Scratch {
    /// No memory is taken.
    pub fn new(alloc: Global) -> Scratch {
        Scratch {
            marks: Marks::new(alloc),
            reach: Reach {
                stack: Vec::new(alloc),
                next: Vec::new(alloc),
            },
        }
    }
}

/// Puts the ways on the stack, the first one on top, in place of what was left there.
fn load(stack: &mut Vec<Way>, ways: &[usize]) -> Result<(), AllocError>
    ensures { OnOk result (reverse stack.new.items ≡ waiting 0 ways.now) }
{
    stack.clear();
    for from in (0..ways.len()).rev() {
        stack.push(Way {
            at: ways[from],
            from,
        })?;
    }
    Ok(())
}

/// Computes the step from these waiting instructions, in order of preference, on what is seen there. It fetches each instruction
/// of the code at most once. What the scratch has before does not matter.
pub fn step_from(
    alloc: Global,
    code: &Code,
    ways: &[usize],
    sight: Sight,
    scratch: &mut Scratch,
    work: &mut Work,
) -> Result<Step, AllocError>
    ensures step { IfOk result (IsStepOn code.now ways.now sight) }
    ensures width { IfOk result (λ s. length s.next.items ≤ code_len code.now) }
    ensures counts { AddsSteps (code_len code.now) work.old work.new }
    ensures paid { IfOk result (λ s. PaysFor (length s.next.items) work.old work.new) }
{
    let Scratch { marks, reach } = scratch;
    load(&mut reach.stack, ways)?;
    reach.next.clear();
    marks.reset(code.len())?;
    let matched = close(code, sight, reach, marks, work)?;
    let mut next = Vec::with_capacity(alloc, reach.next.len())?;
    marks.reset(code.len())?;
    add_all(code, &reach.next, &mut next, marks)?;
    Ok(Step { next, matched })
}
