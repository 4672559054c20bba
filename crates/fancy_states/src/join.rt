//! Steps are joined: that of some ways, and that of one more way after them, which begins at the place.
//!
//! The first way of all that has an end counts. So where one of the first ways ended with an outcome, the way that begins
//! does not count; else the ways that it leads to are put after those of the others, but for each that was met before.

ghost use Rattle.std.specs.Prelude.{◌≡◌, ◌+◌, [], ◌∷◌, ◌++◌, ℕ, List, IfOk, map, length};
ghost use Rattle.fancy_code.specs.CodeLength.{code_len};
ghost use Rattle.fancy_alphabet.specs.Effects.{Seen};
ghost use Rattle.fancy_code.specs.Instructions.{Instruction};
ghost use Rattle.fancy_states.specs.Steps.{IsStep, at_of};
ghost use Rattle.fancy_states.specs.Joins.{all_from, match_from, Appends};

use crate::closure::is_first;
use crate::marks::Marks;
use crate::step::Step;
use crate::way::Way;
use fancy_code::code::Code;
use std::alloc::{AllocError, Global};

/// Appends a way, unless its instruction has a mark, which it is given.
fn add(code: &Code, way: Way, next: &mut Vec<Way>, marks: &mut Marks) -> Result<(), AllocError>
    requires room { length marks.old ≡ code_len code.now }
    ensures { Appends result (way ∷ []) marks.old next.old.items marks.new next.new.items }
{
    if way.at >= code.len() {
        next.push(way)?;
        return Ok(());
    }
    if !is_first(marks, way.at) {
        return Ok(());
    }
    next.push(way)?;
    Ok(())
}

/// Appends ways, but for those whose instructions have a mark.
pub fn add_all(
    code: &Code,
    ways: &[Way],
    next: &mut Vec<Way>,
    marks: &mut Marks,
) -> Result<(), AllocError>
    requires room { length marks.old ≡ code_len code.now }
    ensures { Appends result ways.now marks.old next.old.items marks.new next.new.items }
{
    for way in ways {
        add(code, *way, next, marks)?;
    }
    Ok(())
}

/// Appends ways at these instructions, all of which come from one way, but for those whose instructions have a mark.
fn add_begun(
    code: &Code,
    from: usize,
    ats: &[usize],
    next: &mut Vec<Way>,
    marks: &mut Marks,
) -> Result<(), AllocError>
    requires room { length marks.old ≡ code_len code.now }
    ensures { Appends result (all_from from ats.now) marks.old next.old.items
        marks.new next.new.items }
{
    for at in ats {
        add(code, Way { at: *at, from }, next, marks)?;
    }
    Ok(())
}

/// The same outcome, of the way with this number.
fn match_from(from: usize, matched: Option<usize>) -> Option<usize>
    ensures { result ≡ match_from from matched }
{
    match matched {
        None => None,
        Some(_) => Some(from),
    }
}

/// What the way that begins at a place comes to by itself.
#[derive(Clone, Copy)]
pub struct Begun<'r> {
    /// The instructions that its step leads to, in order of preference.
    pub ats: &'r [usize],
    /// An outcome, if it ended with one.
    pub matched: Option<usize>,
}

/// The step from some ways, `count` of them, and one more, which begins. `first` is the step from these ways alone, and `begun`
/// what the one that begins comes to. What is marked before does not matter.
pub fn joined(
    alloc: Global,
    code: &Code,
    count: usize,
    first: Step,
    begun: Begun,
    marks: &mut Marks,
) -> Result<Step, AllocError>
    ensures step { IfOk result (λ s.
        (instrs : List Instruction) (ways : List ℕ) (start : ℕ) (u : Seen) (after : List Way)
        → length ways ≡ count → IsStep instrs ways u first.next.items first.matched
        → IsStep instrs (start ∷ []) u after begun.entry.matched
        → map at_of after ≡ begun.entry.ats.now
        → IsStep instrs (ways ++ start ∷ []) u s.next.items s.matched) }
    ensures halts { IfOk result (λ s.
        first.next.items ≡ [] → begun.entry.ats.now ≡ [] → s.next.items ≡ []) }
{
    if first.matched.is_some() {
        return Ok(first);
    }
    let mut next = Vec::with_capacity(alloc, first.next.len().saturating_add(begun.ats.len()))?;
    marks.reset(code.len())?;
    add_all(code, &first.next, &mut next, marks)?;
    add_begun(code, count, begun.ats, &mut next, marks)?;
    Ok(Step {
        next,
        matched: match_from(count, begun.matched),
    })
}
