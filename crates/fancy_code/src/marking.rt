//! Which instructions have a mark at each place that is searched: those to which two ways lead. A thread comes to the
//! others at most as often as to the one that leads there, so these need none.
//!
//! That this is enough is tested when code is made. The weights are the steps that an instruction stands for: its own, and
//! those after it up to the next marks. `is_paid` tests that the weights of a place's marks are no more than there are
//! instructions. Where it says no, each instruction gets a mark.

ghost use Rattle.std.specs.Prelude.{◌≡◌, ◌<◌, ℕ, List, Option, Some, None, true, IfOk, IfSome, length, replicate, vec_len, slice_index_or};
ghost use Rattle.fancy_tree.specs.declared.char_set.CharSet.{CharSet};
ghost use Rattle.fancy_code.specs.Instructions.{with_set, with_sets};
ghost use Rattle.fancy_code.specs.Marking.{number_in, due_in, worth_in, cost_in, IsPaid, IsNumbered};

use crate::code::Instr;
use std::alloc::{AllocError, Global};

/// The marks of some code.
#[derive(Drop)]
pub(crate) struct Marking {
    // at an instruction the number of its mark, among those of a place; none where it has no mark
    numbers: Vec<Option<usize>>,
    // at an instruction the steps that it stands for
    weights: Vec<usize>,
    // how many marks a place has
    width: usize,
    ghost numbered: { IsNumbered numbers.items width },
}

impl Marking {
    /// The marks of these instructions, which begin at `start`.
    pub(crate) fn new(alloc: Global, instrs: &[Instr], start: usize) -> Result<Marking, AllocError>
        ensures long { IfOk result (λ marking. length marking.numbers.items ≡ length instrs.now) }
        ensures paid { IfOk result (λ marking. (sets : List CharSet)
            → IsPaid (with_sets sets instrs.now) marking.numbers.items marking.weights.items start) }
    {
        let joins = joins_of(alloc, instrs, start)?;
        let (numbers, width) = numbers_of(alloc, &joins)?;
        let weights = weights_of(alloc, instrs, &numbers)?;
        if is_paid(instrs, &numbers, &weights, start) {
            return Ok(Marking {
                numbers,
                weights,
                width,
            });
        }
        let all = Marking::of_all(alloc, instrs)?;
        Ok(all)
    }

    /// A mark for each instruction.
    fn of_all(alloc: Global, instrs: &[Instr]) -> Result<Marking, AllocError>
        ensures long { IfOk result (λ marking. length marking.numbers.items ≡ length instrs.now) }
        ensures paid { IfOk result (λ marking. (sets : List CharSet) (start : ℕ)
            → IsPaid (with_sets sets instrs.now) marking.numbers.items marking.weights.items start) }
    {
        let width = instrs.len();
        let numbers = all_numbers(alloc, width)?;
        let weights = all_ones(alloc, width)?;
        Ok(Marking {
            numbers,
            weights,
            width,
        })
    }

    /// The number of an instruction's mark, among those of a place; `None` where it has none.
    pub(crate) fn number(&self, at: usize) -> Option<usize>
        requires { at < length self.now.numbers.items }
        ensures { result ≡ number_in self.now.numbers.items at }
    {
        self.numbers[at]
    }

    /// What is due where a thread goes on at an instruction.
    pub(crate) fn due(&self, at: usize) -> usize
        ensures { result ≡ due_in self.now.numbers.items self.now.weights.items at }
    {
        due(&self.numbers, &self.weights, at)
    }

    /// How many marks a place has.
    pub(crate) fn width(&self) -> usize
        ensures { result ≡ self.now.width }
    {
        self.width
    }
}

/// What is due where a thread goes on at an instruction.
fn due(numbers: &[Option<usize>], weights: &[usize], at: usize) -> usize
    ensures { result ≡ due_in numbers.now weights.now at }
{
    if let Some(Some(_)) = numbers.get(at) {
        return 0;
    }
    match weights.get(at) {
        Some(weight) => *weight,
        None => 0,
    }
}

/// What the mark of an instruction is worth, if it has one.
fn worth(numbers: &[Option<usize>], weights: &[usize], at: usize) -> usize
    ensures { result ≡ worth_in numbers.now weights.now at }
{
    match numbers.get(at) {
        Some(Some(_)) => match weights.get(at) {
            Some(weight) => *weight,
            None => 0,
        },
        _ => 0,
    }
}

/// What is due where an instruction leads on, if that is a `usize`.
fn cost(numbers: &[Option<usize>], weights: &[usize], instr: &Instr) -> Option<usize>
    ensures { (sets : List CharSet)
        → IfSome result (λ c. c ≡ cost_in numbers.now weights.now (with_set sets instr.now)) }
{
    match instr {
        Instr::Character(_, next)
        | Instr::Member(_, next)
        | Instr::RawByte(_, next)
        | Instr::Assert(_, next)
        | Instr::Open(_, next)
        | Instr::Close(_, next) => Some(due(numbers, weights, *next)),
        Instr::Split(first, second) => {
            due(numbers, weights, *first).checked_add(due(numbers, weights, *second))
        }
        _ => Some(0),
    }
}

/// Whether each instruction has a number or none, and the weights pay for all steps.
fn is_paid(instrs: &[Instr], numbers: &[Option<usize>], weights: &[usize], start: usize) -> bool
    ensures long { result ≡ true → length numbers.now ≡ length instrs.now }
    ensures paid { (sets : List CharSet) → result ≡ true
        → IsPaid (with_sets sets instrs.now) numbers.now weights.now start }
{
    if numbers.len() != instrs.len() {
        return false;
    }
    let mut total: usize = 0;
    for at in 0..instrs.len() {
        let Some(cost) = cost(numbers, weights, &instrs[at]) else {
            return false;
        };
        let Some(weight) = weights.get(at) else {
            return false;
        };
        if cost >= *weight {
            return false;
        }
        let Some(sum) = total.checked_add(worth(numbers, weights, at)) else {
            return false;
        };
        total = sum;
    }
    match total.checked_add(due(numbers, weights, start)) {
        Some(all) => all <= instrs.len(),
        None => false,
    }
}

/// The instructions to which an easy one leads on.
fn targets(instr: &Instr) -> (Option<usize>, Option<usize>) {
    match instr {
        Instr::Character(_, next)
        | Instr::Member(_, next)
        | Instr::RawByte(_, next)
        | Instr::Assert(_, next)
        | Instr::Open(_, next)
        | Instr::Close(_, next) => (Some(*next), None),
        Instr::Split(first, second) => (Some(*first), Some(*second)),
        _ => (None, None),
    }
}

/// A way leads to an instruction: if it is the first, that is followed later, else it is a join.
fn enter(
    entered: &mut Vec<bool>,
    joins: &mut Vec<bool>,
    waiting: &mut Vec<usize>,
    target: Option<usize>,
) -> Result<(), AllocError> {
    let Some(target) = target else {
        return Ok(());
    };
    if target >= entered.len() || target >= joins.len() {
        return Ok(());
    }
    if entered[target] {
        joins[target] = true;
        return Ok(());
    }
    entered[target] = true;
    waiting.push(target)?;
    Ok(())
}

/// The instructions to which two ways lead from the start, and those that `order` adds.
fn joins_of(alloc: Global, instrs: &[Instr], start: usize) -> Result<Vec<bool>, AllocError> {
    let mut entered = Vec::new(alloc);
    entered.resize(instrs.len(), false)?;
    let mut joins = Vec::new(alloc);
    joins.resize(instrs.len(), false)?;
    let mut waiting = Vec::new(alloc);
    enter(&mut entered, &mut joins, &mut waiting, Some(start))?;
    for _ in 0..instrs.len() {
        let Some(at) = waiting.pop() else {
            break;
        };
        if at >= instrs.len() {
            continue;
        }
        let (first, second) = targets(&instrs[at]);
        enter(&mut entered, &mut joins, &mut waiting, first)?;
        enter(&mut entered, &mut joins, &mut waiting, second)?;
    }
    order(instrs, &mut joins);
    Ok(joins)
}

/// Makes a join of an instruction to which an earlier one leads that is none, so that the weights of the others can be told
/// one after the other.
fn order(instrs: &[Instr], joins: &mut Vec<bool>) {
    for at in 0..instrs.len() {
        let (first, second) = targets(&instrs[at]);
        order_after(joins, at, first);
        order_after(joins, at, second);
    }
}

/// The same for one target.
fn order_after(joins: &mut Vec<bool>, at: usize, target: Option<usize>) {
    if let Some(target) = target {
        if target < joins.len() && at <= target && !joins[at] {
            joins[target] = true;
        }
    }
}

/// Numbers for the instructions that are chosen, and how many there are.
fn numbers_of(alloc: Global, chosen: &[bool]) -> Result<(Vec<Option<usize>>, usize), AllocError>
    ensures { IfOk result (λ r. IsNumbered r.0.items r.1) }
{
    let mut numbers = Vec::new(alloc);
    let mut width: usize = 0;
    for at in 0..chosen.len() {
        if !chosen[at] {
            numbers.push(None)?;
            continue;
        }
        numbers.push(Some(width))?;
        width += 1;
    }
    Ok((numbers, width))
}

/// The weights, as far as they are a `usize`: first those of the instructions without a mark, of which each leads to
/// earlier ones and to marks, then the others.
fn weights_of(
    alloc: Global,
    instrs: &[Instr],
    numbers: &[Option<usize>],
) -> Result<Vec<usize>, AllocError> {
    let mut weights = Vec::new(alloc);
    for at in 0..instrs.len() {
        let weight = if has_number(numbers, at) {
            0
        } else {
            weight(numbers, &weights, &instrs[at])
        };
        weights.push(weight)?;
    }
    for at in 0..instrs.len() {
        if at < weights.len() && has_number(numbers, at) {
            let weight = weight(numbers, &weights, &instrs[at]);
            weights[at] = weight;
        }
    }
    Ok(weights)
}

/// One step, and what is due after it.
fn weight(numbers: &[Option<usize>], weights: &[usize], instr: &Instr) -> usize {
    match cost(numbers, weights, instr) {
        Some(due) => due.saturating_add(1),
        None => 0,
    }
}

/// Whether an instruction has a mark.
fn has_number(numbers: &[Option<usize>], at: usize) -> bool {
    matches!(numbers.get(at), Some(Some(_)))
}

/// A mark for each of so many instructions.
fn all_numbers(alloc: Global, count: usize) -> Result<Vec<Option<usize>>, AllocError>
    ensures many { IfOk result (λ numbers. vec_len numbers ≡ count) }
    ensures each { IfOk result (λ numbers. (at : ℕ) → at < count
        → slice_index_or numbers.items at None ≡ Some at) }
{
    let mut numbers = Vec::new(alloc);
    for at in 0..count {
        numbers.push(Some(at))?;
    }
    Ok(numbers)
}

/// A weight of one for each of so many instructions.
fn all_ones(alloc: Global, count: usize) -> Result<Vec<usize>, AllocError>
    ensures { IfOk result (λ weights. weights.items ≡ replicate count 1) }
{
    let mut weights = Vec::new(alloc);
    weights.resize(count, 1)?;
    Ok(weights)
}
