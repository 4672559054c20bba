//! What the table tells of a place.

ghost use Rattle.std.specs.Prelude.{◌≡◌, ◌<◌, ◌≤◌, ℕ, IfSome, length, true};
ghost use Rattle.fancy_code.specs.Attempt.{context_in, may_end_in};
ghost use Rattle.fancy_alphabet.specs.Classes.{IsStart};
ghost use Rattle.fancy_automaton.specs.Told.{IsTold};
ghost use Rattle.fancy_states.specs.Cells.{HoldsFor};
ghost use Rattle.fancy_states.specs.Search.{IsFollowed};
ghost use Rattle.fancy_alphabet.specs.declared.sight.Sight.{Sight};
ghost use Rattle.fancy_states.specs.Transitions.{IsEntry, IsQuiet, IsTransition, IsView};
ghost use Rattle.fancy_states.specs.declared.cells.Cells.{Cells};

use fancy_code::attempt::Attempt;
use fancy_meaning::reading::read_any_at;
use fancy_states::transitions::{Kind, Transition, View};

/// The step that the table has of a row and the character at a place.
#[derive(Clone, Copy)]
pub(crate) struct Told<'t> {
    /// What it has of the step.
    pub(crate) step: &'t Transition,
    /// The place after the character, a byte offset.
    pub(crate) past: usize,
}

/// A step, if it is remembered and no way ended with an outcome in it.
#[inline(always)]
pub(crate) fn quiet_step(step: Transition) -> Option<Transition>
    ensures { (cells : Cells) (row : ℕ) (sight : Sight)
        → IsEntry cells.table.classes cells.cells.items row sight step
        → IfSome result (λ t. IsTransition cells.table.classes cells.cells.items row sight t
        × IsQuiet cells.cells.items t) }
{
    match step.kind {
        Kind::Quiet | Kind::Mixed => Some(step),
        Kind::Unknown | Kind::Matching => None,
    }
}

/// A step, if it is remembered.
#[inline(always)]
pub(crate) fn known_step(step: Transition) -> Option<Transition>
    ensures { (cells : Cells) (row : ℕ) (sight : Sight)
        → IsEntry cells.table.classes cells.cells.items row sight step
        → IfSome result (IsTransition cells.table.classes cells.cells.items row sight) }
{
    match step.kind {
        Kind::Unknown => None,
        Kind::Quiet | Kind::Mixed | Kind::Matching => Some(step),
    }
}

/// Whether a byte stands at a place that is no ASCII character.
#[inline(always)]
pub(crate) fn is_wide_at(attempt: &Attempt, place: usize) -> bool
    requires { attempt.now.last ≤ length attempt.now.haystack.now }
{
    place < attempt.last && attempt.haystack[place] >= 0x80
}

/// What the table has of the row whose columns begin at `start`, and the character past ASCII at a place.
#[inline(always)]
fn told_wide<'t>(attempt: &Attempt, table: View<'t>, start: u32, place: usize) -> Option<Told<'t>>
    requires before { place < attempt.now.last }
    requires inside { attempt.now.last ≤ length attempt.now.haystack.now }
    ensures told { (cells : Cells) (row : ℕ) → IsView cells.table table.entry
        → IsFollowed attempt.now → HoldsFor cells attempt.now.code.now
        → may_end_in attempt.now place ≡ true
        → IsStart (context_in attempt.now) place cells.table.classes row start
        → IfSome result (λ t. IsTold attempt.now cells row place t.past t.step.now) }
    ensures forth { IfSome result (λ t. place < t.past) }
    ensures within { IfSome result (λ t. t.past ≤ attempt.now.last) }
{
    if attempt.haystack[place] < 0x80 {
        return None;
    }
    let reading = read_any_at(attempt.haystack, attempt.code.meaning, place)?;
    let past = place + reading.width;
    if past > attempt.last {
        return None;
    }
    let step = table.wide(start, table.tests.after(attempt, place), reading)?;
    Some(Told { step, past })
}

/// What the table has of the row whose columns begin at `start` for what stands before a place, and the character there. One past ASCII
/// is read where `any` says so.
#[inline(always)]
pub(crate) fn told_at<'t>(
    attempt: &Attempt,
    table: View<'t>,
    start: u32,
    place: usize,
    any: bool,
) -> Option<Told<'t>>
    requires before { place < attempt.now.last }
    requires inside { attempt.now.last ≤ length attempt.now.haystack.now }
    ensures told { (cells : Cells) (row : ℕ) → IsView cells.table table.entry
        → IsFollowed attempt.now → HoldsFor cells attempt.now.code.now
        → may_end_in attempt.now place ≡ true
        → IsStart (context_in attempt.now) place cells.table.classes row start
        → IfSome result (λ t. IsTold attempt.now cells row place t.past t.step.now) }
    ensures forth { IfSome result (λ t. place < t.past) }
    ensures within { IfSome result (λ t. t.past ≤ attempt.now.last) }
{
    match table.column(attempt.haystack[place]) {
        Some(column) => {
            let step = table.entry(start, column)?;
            Some(Told {
                step,
                past: place + 1,
            })
        }
        None if any => told_wide(attempt, table, start, place),
        None => None,
    }
}
