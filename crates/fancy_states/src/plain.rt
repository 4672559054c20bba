//! Which code an automaton follows.

ghost use Rattle.std.specs.Prelude.{◌≡◌, ◌↔◌, IsTrue, true, ℕ};
ghost use Rattle.fancy_code.specs.Code.{instrs_of, instr_in};
ghost use Rattle.fancy_code.specs.Instructions.{Close};
ghost use Rattle.fancy_code.specs.declared.code.Code.{Code};
ghost use Rattle.fancy_states.specs.Futures.{ArePlain, EndsNoGroup, is_plain_instr};
ghost use Rattle.fancy_alphabet.specs.Sides.{is_told_between};

use fancy_code::code::{Code, Instr};
use fancy_tree::tree::Assertion;

/// Whether the sides of a place tell where an assertion holds: whether only empty lines follow they do not.
fn is_told_between(assertion: Assertion) -> bool
    ensures { result ≡ is_told_between assertion }
{
    !matches!(assertion, Assertion::LastLine | Assertion::LastLineCrlf)
}

/// Whether an automaton follows the instruction.
fn is_plain_instr(instr: &Instr) -> bool
    ensures { (code : Code) → result ≡ is_plain_instr (instr_in code instr.now) }
{
    match instr {
        Instr::Match
        | Instr::Fail
        | Instr::Character(_, _)
        | Instr::Member(_, _)
        | Instr::Open(_, _)
        | Instr::Close(_, _)
        | Instr::Split(_, _) => true,
        Instr::Assert(assertion, _) => is_told_between(*assertion),
        _ => false,
    }
}

/// Whether an automaton follows the code: no instruction of it reads a single byte, tests whether only empty lines follow, or is one of
/// a hard pattern. It is asked once, when the code is made.
pub fn is_plain(code: &Code) -> bool
    ensures { IsTrue result ↔ ArePlain (instrs_of code.now) }
{
    for at in 0..code.len() {
        if !is_plain_instr(code.instr(at)) {
            return false;
        }
    }
    true
}

/// Whether the instruction ends a group.
fn ends_group(instr: &Instr) -> bool
    ensures { (code : Code) (group next : ℕ)
        → instr_in code instr.now ≡ Close group next → result ≡ true }
{
    matches!(instr, Instr::Close(_, _))
}

/// Whether the code ends no group: then none takes part in a match. It is asked once, when the code is made.
pub fn ends_no_group(code: &Code) -> bool
    ensures { result ≡ true → EndsNoGroup (instrs_of code.now) }
{
    for at in 0..code.len() {
        if ends_group(code.instr(at)) {
            return false;
        }
    }
    true
}
