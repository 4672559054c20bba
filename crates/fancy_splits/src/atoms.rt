//! Atomic groups round a loop of one item, as possessive repeats are.

ghost use Rattle.std.specs.Prelude.{◌≡◌, IfSome};
ghost use Rattle.fancy_bytes.specs.Sets.{member};
ghost use Rattle.fancy_code.specs.Code.{instrs_of};
ghost use Rattle.fancy_splits.specs.Splits.{IsToldAtom};

use crate::splits::{flags_of, past_item, reader_at, reader_of, stop_at};
use fancy_code::code::{Code, Instr};

/// An atomic group round a loop of one item. An item of its own may stand before the loop.
///
/// ```text
/// a*+        // the loop begins at once
/// a++        // an item stands before it, here the byte a
/// (?>a*)b    // as a*+
/// ```
#[derive(Drop)]
pub struct ToldAtom {
    /// The number of the instruction that the group's body begins at.
    pub body: usize,
    /// The number of the one at which the choice of the loop stands.
    pub head: usize,
    /// Whether an item stands before the loop.
    pub leads: bool,
    // bytes that are that item by themselves
    items: [bool; 256],
}

impl ToldAtom {
    /// Whether the byte is by itself the item before the loop.
    #[inline]
    #[tactic(auto, unfolding(fancy_bytes::specs::Sets::member))]
    pub fn may_lead(&self, byte: u8) -> bool
        ensures { result ≡ member self.now.items byte }
    {
        self.items[byte as usize]
    }
}

/// Whether a loop of one item stands at an instruction, and what follows it stops at once. No answer rests on it.
fn is_closing_loop(code: &Code, at: usize) -> bool {
    let Some(ways) = code.ways(at) else {
        return false;
    };
    reader_of(code, ways.first, at).is_item && stop_at(code, ways.second).is_some()
}

/// The atomic group that begins at an instruction, if it is one round a loop of one item.
pub(crate) fn atom_at(code: &Code, at: usize) -> Option<ToldAtom>
    ensures { IfSome result (λ a. IsToldAtom (instrs_of code.now) code.now.meaning at a) }
{
    if at >= code.len() {
        return None;
    }
    let Instr::Enter(body) = code.instr(at) else {
        return None;
    };
    if is_closing_loop(code, *body) {
        return Some(ToldAtom {
            body: *body,
            head: *body,
            leads: false,
            items: [false; 256],
        });
    }
    let head = past_item(code, *body)?;
    let reader = reader_at(code, *body, head);
    if !reader.is_item || !is_closing_loop(code, head) {
        return None;
    }
    Some(ToldAtom {
        body: *body,
        head,
        leads: true,
        items: flags_of(&reader.items),
    })
}
