//! What the ways at a place come to before anything is read.

ghost use Rattle.std.specs.Prelude.{◌≡◌, ◌+◌, ◌*◌, ◌<◌, ◌≤◌, [], ◌∷◌, ℕ, Option, None, Bool, false, true, ◌⊎◌, length, reverse, replicate, slice_index_or, IfOk, ◌-◌};
ghost use Rattle.std.specs.Option.{option_or};
ghost use Rattle.fancy_code.specs.Code.{instrs_of};
ghost use Rattle.fancy_code.specs.CodeLength.{code_len};
ghost use Rattle.fancy_alphabet.specs.Sights.{seen_in};
ghost use Rattle.fancy_states.specs.Ways.{Ends, Solves, Closing, AllKnown, Visited, marked, first_end, match_end};
ghost use Rattle.fancy_states.specs.Counts.{AddsSteps, PaysFor};

use crate::marks::Marks;
use crate::way::Way;
use fancy_alphabet::effect::{Effect, effect_at};
use fancy_alphabet::sight::Sight;
use fancy_code::code::Code;
use fancy_input::work::Work;
use std::alloc::AllocError;

/// Marks an instruction, and says whether it had no mark.
pub fn is_first(marks: &mut Marks, at: usize) -> bool
    requires { at < length marks.old }
    ensures adds { (q : ℕ) → slice_index_or marks.new q false ≡ true
        → (slice_index_or marks.old q false ≡ true) ⊎ (q ≡ at) }
    ensures seen { result ≡ false → slice_index_or marks.old at false ≡ true }
    ensures same { result ≡ false → marks.new ≡ marks.old }
    ensures one { result ≡ true → marked marks.new ≡ marked marks.old + 1 }
    ensures room { length marks.new ≡ length marks.old }
{
    marks.mark(at)
}

/// The ways at a place, as far as they were followed.
#[derive(Drop)]
pub struct Reach {
    /// Those that are still to be followed, the first one on top.
    pub stack: Vec<Way>,
    /// The ways after the item that is read there, in order of preference.
    pub next: Vec<Way>,
}

/// Follows one way to the item that it reads, or to the ways that it goes on at. The answer is whether it ended with an
/// outcome: then no way after it in order of preference counts.
fn visit(
    code: &Code,
    sight: Sight,
    way: Way,
    reach: &mut Reach,
    marks: &mut Marks,
    work: &mut Work,
) -> Result<bool, AllocError>
    requires room { length marks.old ≡ code_len code.now }
    ensures visited { IfOk result (λ ended.
        (here : ℕ) (ends later : Ends) (known beyond : ℕ → Bool) (rank : ℕ → ℕ)
        (goal : Option (ℕ × ℕ))
        → Solves (instrs_of code.now) (seen_in sight) here ends later known beyond rank
        → Closing ends later known beyond rank goal marks.old reach.old.next.items
        (way ∷ reverse reach.old.stack.items)
        → Visited ends later known beyond rank ended here way.from goal marks.new
        reach.new.next.items (reverse reach.new.stack.items)) }
    ensures halts { sight.reading ≡ None → reach.old.next.items ≡ [] → reach.new.next.items ≡ [] }
    ensures room { length marks.new ≡ length marks.old }
    ensures marked { marked marks.old ≤ marked marks.new }
    ensures counts { AddsSteps (marked marks.new - marked marks.old) work.old work.new }
    ensures paid { PaysFor (marked marks.new - marked marks.old) work.old work.new }
    ensures width { length reach.new.next.items + marked marks.old
        ≤ length reach.old.next.items + marked marks.new }
    ensures progress { IfOk result (λ _. length reach.new.stack.items + 2 * marked marks.old
        ≤ length reach.old.stack.items + 2 * marked marks.new) }
{
    if way.at >= code.len() {
        return Ok(false);
    }
    if !is_first(marks, way.at) {
        return Ok(false);
    }
    match effect_at(code, way.at, sight, work) {
        Effect::Fails => Ok(false),
        Effect::Reads(at) => {
            reach.next.push(Way { at, from: way.from })?;
            Ok(false)
        }
        Effect::Moves(at) => {
            reach.stack.push(Way { at, from: way.from })?;
            Ok(false)
        }
        Effect::Ends => Ok(true),
        Effect::Splits(first, second) => {
            reach.stack.push(Way {
                at: second,
                from: way.from,
            })?;
            reach.stack.push(Way {
                at: first,
                from: way.from,
            })?;
            Ok(false)
        }
    }
}

/// Follows all ways at a place, the last one of the stack first, to the ways after the item that is read there, in order of
/// preference. The answer is the number of the way from which a way ended with an outcome, if one did: the ways after the item
/// are preferred to it, and no other way counts. Each instruction is followed once, and marked; each mark is one step.
pub fn close(
    code: &Code,
    sight: Sight,
    reach: &mut Reach,
    marks: &mut Marks,
    work: &mut Work,
) -> Result<Option<usize>, AllocError>
    requires fresh { reach.old.next.items ≡ [] }
    requires clear { marks.old ≡ replicate (code_len code.now) false }
    ensures answer { IfOk result (λ found.
        (here : ℕ) (ends later : Ends) (known beyond : ℕ → Bool) (rank : ℕ → ℕ)
        → Solves (instrs_of code.now) (seen_in sight) here ends later known beyond rank
        → AllKnown known (reverse reach.old.stack.items)
        → AllKnown beyond reach.new.next.items
        × (option_or (first_end later reach.new.next.items) (match_end found here)
        ≡ first_end ends (reverse reach.old.stack.items))) }
    ensures halts { sight.reading ≡ None → reach.new.next.items ≡ [] }
    ensures width { length reach.new.next.items ≤ marked marks.new }
    ensures room { marked marks.new ≤ code_len code.now }
    ensures counts { AddsSteps (marked marks.new) work.old work.new }
    ensures paid { PaysFor (marked marks.new) work.old work.new }
{
    'ways: while let Some(way) = reach.stack.pop() {
        if visit(code, sight, way, reach, marks, work)? {
            return Ok(Some(way.from));
        }
    }
    Ok(None)
}
