//! What instructions do at a place, where it is known what is seen there.

ghost use Rattle.std.specs.Prelude.{◌≡◌, ◌+◌, ◌<◌, ◌≤◌, ℕ};
ghost use Rattle.fancy_code.specs.Code.{instrs_of, instr_in, sets_len};
ghost use Rattle.fancy_code.specs.CodeLength.{code_len};
ghost use Rattle.fancy_code.specs.Run.{instr_at};
ghost use Rattle.fancy_input.specs.Work.{steps_of, returns_of, units_of};
ghost use Rattle.fancy_alphabet.specs.Sights.{seen_in};
ghost use Rattle.fancy_alphabet.specs.Effects.{effect_of, moves_if, reads_if};

use crate::side::holds_between;
use crate::sight::Sight;
use fancy_code::code::{Code, Instr};
use fancy_input::work::Work;

/// What an instruction does at a place, where it is known what is seen there.
#[derive(Clone, Copy, PartialEq, Eq, Debug)]
pub enum Effect {
    /// The way ends with an outcome.
    Ends,
    /// The way ends without one.
    Fails,
    /// The way goes on at this instruction, after the item.
    Reads(usize),
    /// The way goes on at this instruction, at the same place.
    Moves(usize),
    /// The way goes on at either instruction at the same place; the first one is preferred.
    Splits(usize, usize),
}

/// On at an instruction after the item, if that passes.
fn reads_if(passes: bool, next: usize) -> Effect
    ensures { result ≡ reads_if passes next }
{
    if passes {
        Effect::Reads(next)
    } else {
        Effect::Fails
    }
}

/// On at an instruction at the same place, if a test holds there.
fn moves_if(holds: bool, next: usize) -> Effect
    ensures { result ≡ moves_if holds next }
{
    if holds {
        Effect::Moves(next)
    } else {
        Effect::Fails
    }
}

/// What an instruction of the code does where this is seen. An automaton reads no single byte and follows no group, so such
/// an instruction fails here, and one of a hard pattern too.
fn effect_of_instr(code: &Code, instr: &Instr, sight: Sight) -> Effect
    requires { (number next : ℕ) → instr.now ≡ Instr.Member number next → number < sets_len code.now }
    ensures { result ≡ effect_of (seen_in sight) (instr_in code.now instr.now) }
{
    match instr {
        Instr::Match => Effect::Ends,
        Instr::Character(character, next) => match sight.reading {
            None => Effect::Fails,
            Some(reading) => reads_if(reading.code == *character as u32, *next),
        },
        Instr::Member(set, next) => match sight.reading {
            None => Effect::Fails,
            Some(reading) => reads_if(code.set(*set).contains(reading.code), *next),
        },
        Instr::Assert(assertion, next) => {
            moves_if(holds_between(sight.before, sight.after, *assertion), *next)
        }
        Instr::Split(first, second) => Effect::Splits(*first, *second),
        Instr::Open(_, next) | Instr::Close(_, next) => Effect::Moves(*next),
        _ => Effect::Fails,
    }
}

/// What the instruction with this number does where this is seen. It is fetched, which counts as one step.
pub fn effect_at(code: &Code, at: usize, sight: Sight, work: &mut Work) -> Effect
    requires { at < code_len code.now }
    ensures effect { result ≡ effect_of (seen_in sight) (instr_at (instrs_of code.now) at) }
    ensures steps { steps_of work.old ≤ steps_of work.new }
    ensures bounded { steps_of work.new ≤ steps_of work.old + 1 }
    ensures counted { steps_of work.new < usize.MAX → steps_of work.new ≡ steps_of work.old + 1 }
    ensures returns { returns_of work.new ≡ returns_of work.old }
    ensures units { units_of work.new ≡ units_of work.old }
{
    effect_of_instr(code, code.fetch(at, work), sight)
}
