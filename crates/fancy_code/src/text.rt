//! The texts that alternatives begin with.

ghost use Rattle.std.specs.Prelude.{◌≡◌, ◌<◌, ℕ, true, IfOk, IfSome};
ghost use Rattle.fancy_code.specs.Code.{instrs_of};
ghost use Rattle.fancy_code.specs.Instructions.{Character, Match};
ghost use Rattle.fancy_code.specs.Run.{instr_at};
ghost use Rattle.fancy_code.specs.Texts.{IsTextOf, ConsumesTo};

use crate::code::{Code, Instr};
use fancy_prefilter::text::Text;
use std::alloc::{AllocError, Global};

/// The most bytes that are read off an alternative: its text is compared with the haystack at one go, which counts as no step.
const MOST: usize = 32;

/// A character of ASCII that the code consumes, and where it goes on.
#[derive(Clone, Copy)]
struct Letter {
    byte: u8,
    next: usize,
}

/// The character of ASCII that the instruction with this number consumes, if it is such a one.
fn letter_at(code: &Code, at: usize) -> Option<Letter>
    ensures is { IfSome result (λ l. instr_at (instrs_of code.now) at ≡ Character l.byte l.next) }
    ensures low { IfSome result (λ l. l.byte < 128) }
{
    if at >= code.len() {
        return None;
    }
    match code.instr(at) {
        Instr::Character(character, next) => {
            let number = *character as u32;
            if number >= 0x80 {
                return None;
            }
            Some(Letter {
                byte: number as u8,
                next: *next,
            })
        }
        _ => None,
    }
}

/// Whether the code stops at this instruction.
fn stops_at(code: &Code, at: usize) -> bool
    ensures { result ≡ true → instr_at (instrs_of code.now) at ≡ Match }
{
    if at >= code.len() {
        return false;
    }
    matches!(code.instr(at), Instr::Match)
}

/// The text of these bytes, after which the code goes on at an instruction.
fn text_with(code: &Code, bytes: Vec<u8>, at: usize) -> Text
    ensures { (head : ℕ) → ConsumesTo (instrs_of code.now) code.now.meaning bytes.items head at
        → IsTextOf result (instrs_of code.now) code.now.meaning head }
{
    let is_all = stops_at(code, at);
    Text { bytes, is_all }
}

/// The text that the code begins with from an instruction on.
pub(crate) fn text_of(alloc: Global, code: &Code, head: usize) -> Result<Text, AllocError>
    ensures { IfOk result (λ text. IsTextOf text (instrs_of code.now) code.now.meaning head) }
{
    let mut bytes = Vec::new(alloc);
    let mut at = head;
    for _ in 0..MOST {
        let Some(letter) = letter_at(code, at) else {
            return Ok(text_with(code, bytes, at));
        };
        bytes.push(letter.byte)?;
        at = letter.next;
    }
    Ok(text_with(code, bytes, at))
}
