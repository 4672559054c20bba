//! Where the code dies, by what is told of a position: how many choices it opens, and how many it takes back.

ghost use Rattle.std.specs.Prelude.{◌≡◌, ℕ, ◌<◌, ◌≤◌, ◌==◌, ◌&&◌, Bool, true, false, nat_lt, IfSome};
ghost use Rattle.fancy_tree.specs.Sets.{has};
ghost use Rattle.fancy_code.specs.Code.{instrs_of};
ghost use Rattle.fancy_code.specs.CodeLength.{code_len};
ghost use Rattle.fancy_code.specs.CodeLength.{code_len};
ghost use Rattle.fancy_code.specs.Instructions.{Character, Look, Match, Member, edges_in};
ghost use Rattle.fancy_code.specs.Run.{instr_at};
ghost use Rattle.fancy_prices.specs.declared.facts.Before.TheVariants.{Among};
ghost use Rattle.fancy_prices.specs.declared.facts.Ending.TheVariants.{Last};
ghost use Rattle.fancy_prices.specs.Facts.{IsAlways};
ghost use Rattle.fancy_prices.specs.Prices.{BeginsNone, Dies, DiesBehind, EndsOtherwise, FindsBehind, FindsNone, IsDenied, IsQuiet, ReadsEach, ReadsLow, StopsNeverBehind};

use crate::facts::{Before, Ending, Facts, may_end_with};
use crate::kinds::Kind;
use crate::price::Price;
use fancy_bytes::items::is_ascii;
use fancy_code::code::{Code, Instr};
use fancy_tree::char_set::CharSet;
use fancy_tree::tree::Meaning;

/// How many instructions of a look-behind are followed one after another.
const DEPTH: usize = 48;

/// Whether an item may begin with a byte: `is_item` tells whether there is one with the byte's own number, and `is_wide` whether
/// there is one past ASCII.
fn may_begin(meaning: Meaning, byte: u8, is_item: bool, is_wide: bool) -> bool
    ensures { (test : ℕ → Bool) → test byte ≡ is_item
        → (is_wide ≡ false → (c : ℕ) → 128 ≤ c → test c ≡ false)
        → result ≡ false → BeginsNone meaning test byte }
{
    match meaning {
        Meaning::Bytes => is_item,
        Meaning::Unicode | Meaning::AsciiText => {
            if byte < 0x80 {
                is_item
            } else {
                is_wide && byte >= 0xC0
            }
        }
    }
}

/// Whether an item with this code may begin with a byte.
fn may_begin_character(character: char, meaning: Meaning, byte: u8) -> bool
    ensures { result ≡ false → BeginsNone meaning (λ d. d == character) byte }
{
    let code = character as u32;
    may_begin(meaning, byte, byte as u32 == code, code >= 0x80)
}

/// Whether an item of a set may begin with a byte.
fn may_begin_member(set: &CharSet, meaning: Meaning, byte: u8) -> bool
    ensures { result ≡ false → BeginsNone meaning (has (edges_in set.now)) byte }
{
    let is_item = set.contains(byte as u32);
    may_begin(meaning, byte, is_item, !is_ascii(set.edges()))
}

/// Whether the code from an instruction on opens no choice and takes none back, whatever stands there. It is not told where the code
/// is not followed so deep.
#[cycle(quiet)]
fn is_quiet(code: &Code, at: usize, deep: usize) -> bool
    ensures { result ≡ true → IsQuiet (instrs_of code.now) at }
{
    if at >= code.len() {
        return true;
    }
    if deep == 0 {
        return false;
    }
    let deep = deep - 1;
    match code.instr(at) {
        Instr::Match | Instr::Fail | Instr::Commit(_) => true,
        Instr::Character(_, next) | Instr::Member(_, next) | Instr::RawByte(_, next) => {
            is_quiet(code, *next, deep)
        }
        Instr::Assert(_, next) | Instr::Open(_, next) | Instr::Close(_, next) => {
            is_quiet(code, *next, deep)
        }
        Instr::Back(_, next) => is_quiet(code, *next, deep),
        _ => false,
    }
}

/// Whether what stands before may tell that the code from an instruction on dies: there is an assertion or a look-behind that it may
/// begin with. No answer rests on it. Of choices one in another few are followed.
#[cycle(tests)]
pub(crate) fn tests_before(code: &Code, at: usize, deep: usize) -> bool {
    if at >= code.len() || deep == 0 {
        return false;
    }
    let halved = deep / 2;
    let deep = deep - 1;
    match code.instr(at) {
        Instr::Assert(_, _) => true,
        Instr::Open(_, next) | Instr::Close(_, next) => tests_before(code, *next, deep),
        Instr::Keep(next) | Instr::Enter(next) => tests_before(code, *next, deep),
        Instr::Split(first, second) => {
            tests_before(code, *first, halved) || tests_before(code, *second, deep)
        }
        Instr::Look(behind, body, next) | Instr::Deny(behind, body, next) => {
            *behind || tests_before(code, *body, halved) || tests_before(code, *next, deep)
        }
        _ => false,
    }
}

/// Whether the code has `Match` there.
pub(crate) fn is_match(code: &Code, at: usize) -> bool
    ensures { result ≡ true → instr_at (instrs_of code.now) at ≡ Match }
{
    if at >= code.len() {
        return false;
    }
    match code.instr(at) {
        Instr::Match => true,
        _ => false,
    }
}

/// Whether an item of a set may end with a byte of this kind.
fn may_end_member(kind: Before<'_>, set: &CharSet) -> bool
    ensures { result ≡ false → (c : ℕ) → has (edges_in set.now) c ≡ true → EndsOtherwise kind.entry c }
{
    if kind.is_wide() && !is_ascii(set.edges()) {
        return true;
    }
    for byte in 0..0x80u32 {
        if kind.may_be(byte as u8) && set.contains(byte) {
            return true;
        }
    }
    false
}

/// Whether the code reads an ASCII character and stops.
fn reads_low(code: &Code, at: usize) -> bool
    ensures { result ≡ true → ReadsLow (instrs_of code.now) at }
{
    if at >= code.len() {
        return false;
    }
    match code.instr(at) {
        Instr::Character(character, next) => (*character as u32) < 0x80 && is_match(code, *next),
        _ => false,
    }
}

/// Whether a way that reads a character and goes on at `next` stops at no place before which the text ends so: it stops behind the
/// character, or one ASCII character later.
fn ends_otherwise(code: &Code, character: char, next: usize, ending: Ending<'_>) -> bool
    ensures { result ≡ true → (at : ℕ) → instr_at (instrs_of code.now) at ≡ Character character next
        → StopsNeverBehind (instrs_of code.now) ending.entry 0 0 at }
{
    match ending {
        Ending::Last(kind) => is_match(code, next) && !kind.may_end(character),
        Ending::Second(byte) => reads_low(code, next) && !may_end_with(character, byte),
    }
}

/// The same for a way that reads an item of a set, where the kind of the last byte is told.
fn member_ends_otherwise(code: &Code, set: &CharSet, next: usize, ending: Ending<'_>) -> bool
    ensures { result ≡ true → (at : ℕ) → instr_at (instrs_of code.now) at ≡ Member (edges_in set.now) next
        → StopsNeverBehind (instrs_of code.now) ending.entry 0 0 at }
{
    match ending {
        Ending::Last(kind) => is_match(code, next) && !may_end_member(kind, set),
        Ending::Second(_) => false,
    }
}

/// What the code from an instruction on costs where it stops at no place before which the text ends so, since the items of each way
/// cannot. `None` where that is not told: the code is not followed so deep, or they may.
#[cycle(never)]
fn stops_never_behind(code: &Code, at: usize, ending: Ending<'_>, deep: usize) -> Option<Price>
    ensures { IfSome result (λ p. StopsNeverBehind (instrs_of code.now) ending.entry p.marks p.returns at) }
{
    if at >= code.len() || deep == 0 {
        return None;
    }
    let deep = deep - 1;
    match code.instr(at) {
        Instr::Back(_, next) => stops_never_behind(code, *next, ending, deep)?.if_nothing(),
        Instr::Character(character, next) => {
            if ends_otherwise(code, *character, *next, ending) {
                return Some(Price::nothing());
            }
            stops_never_behind(code, *next, ending, deep)?.if_nothing()
        }
        Instr::Member(set, next) => {
            if member_ends_otherwise(code, code.set(*set), *next, ending) {
                return Some(Price::nothing());
            }
            stops_never_behind(code, *next, ending, deep)?.if_nothing()
        }
        Instr::Split(first, second) => {
            let first = stops_never_behind(code, *first, ending, deep)?;
            first.or(stops_never_behind(code, *second, ending, deep)?)
        }
        _ => None,
    }
}

/// What an attempt costs that looks behind its position first, where the text before that ends so and what it looks for does not stand
/// there. `None` where that is not told.
pub(crate) fn price_behind(code: &Code, ending: Ending<'_>, deep: usize) -> Option<Price>
    ensures { IfSome result (λ p. DiesBehind (instrs_of code.now) ending.entry p.marks p.returns code.now.start) }
{
    if code.start >= code.len() {
        return None;
    }
    match code.instr(code.start) {
        Instr::Look(behind, body, _) if *behind => stops_never_behind(code, *body, ending, deep),
        _ => None,
    }
}

/// What the body of a look-behind costs where the last byte before its place is of this kind, and it finds nothing for that. `None`
/// where that is not told.
pub fn misses_behind(code: &Code, body: usize, kind: &Kind) -> Option<Price>
    ensures { IfSome result (λ p.
        StopsNeverBehind (instrs_of code.now) (Last (Among kind.entry)) p.marks p.returns body) }
{
    stops_never_behind(code, body, Ending::Last(Before::Among(kind)), DEPTH)
}

/// Whether each byte of this kind is ASCII, and by itself an item of the set.
fn is_each_member(kind: Before<'_>, set: &CharSet) -> bool
    ensures { result ≡ true → IsAlways kind.entry (λ b. nat_lt b 128 && has (edges_in set.now) b) }
{
    if !kind.is_byte() || kind.is_wide() {
        return false;
    }
    for byte in 0..0x80u32 {
        if kind.may_be(byte as u8) && !set.contains(byte) {
            return false;
        }
    }
    true
}

/// Whether the code reads an item of a set and stops, and each byte of this kind is such an item.
fn reads_each(code: &Code, at: usize, kind: Before<'_>) -> bool
    ensures { result ≡ true → ReadsEach (instrs_of code.now) kind.entry at }
{
    if at >= code.len() {
        return false;
    }
    match code.instr(at) {
        Instr::Member(set, next) => {
            is_match(code, *next) && is_each_member(kind, code.set(*set))
        }
        _ => false,
    }
}

/// Whether the code goes back over one item and finds it, behind each byte of this kind.
pub fn finds_behind(code: &Code, at: usize, kind: Before<'_>) -> bool
    ensures { result ≡ true → FindsBehind (instrs_of code.now) kind.entry at }
{
    if at >= code.len() {
        return false;
    }
    match code.instr(at) {
        Instr::Back(units, item) => *units == 1 && reads_each(code, *item, kind),
        _ => false,
    }
}

/// Whether a negated look-around is told to find its body.
fn is_denied(code: &Code, behind: bool, body: usize, facts: Facts<'_>) -> bool
    ensures { result ≡ true → IsDenied (instrs_of code.now) behind facts.entry body }
{
    let Some(kind) = facts.before else {
        return false;
    };
    behind && finds_behind(code, body, kind)
}

/// What the body of a look-around costs where it finds nothing. `None` where that is not told.
#[cycle(price)]
fn price_of_body(
    code: &Code,
    behind: bool,
    body: usize,
    facts: Facts<'_>,
    deep: usize,
) -> Option<Price>
    ensures { IfSome result (λ p. FindsNone (instrs_of code.now) code.now.meaning behind facts.entry p.marks p.returns body) }
{
    if deep == 0 {
        return None;
    }
    let deep = deep - 1;
    if behind {
        if let Some(kind) = facts.before {
            if let Some(price) = stops_never_behind(code, body, Ending::Last(kind), deep) {
                return Some(price);
            }
        }
    }
    price_of(code, body, facts, deep)
}

/// What a look-around costs that dies, with what follows it. `None` where that is not told.
#[cycle(price)]
fn price_of_look(
    code: &Code,
    behind: bool,
    body: usize,
    next: usize,
    facts: Facts<'_>,
    deep: usize,
) -> Option<Price>
    ensures { IfSome result (λ p. (at : ℕ) → instr_at (instrs_of code.now) at ≡ Look behind body next
        → Dies (instrs_of code.now) code.now.meaning facts.entry p.marks p.returns at) }
{
    if deep == 0 {
        return None;
    }
    let deep = deep - 1;
    if let Some(price) = price_of_body(code, behind, body, facts, deep) {
        return Some(price);
    }
    if is_quiet(code, body, deep) {
        return price_of(code, next, facts, deep)?.if_nothing();
    }
    None
}

/// What the code from an instruction on costs where the facts hold and it dies. `None` where it is not told that it does: the code is
/// not followed so deep, or it costs too much.
#[cycle(price)]
pub fn price_of(code: &Code, at: usize, facts: Facts<'_>, deep: usize) -> Option<Price>
    ensures { IfSome result (λ p. Dies (instrs_of code.now) code.now.meaning facts.entry p.marks p.returns at) }
{
    if at >= code.len() {
        return Some(Price::nothing());
    }
    if deep == 0 {
        return None;
    }
    let deep = deep - 1;
    match code.instr(at) {
        Instr::Fail => Some(Price::nothing()),
        Instr::Character(_, _) | Instr::Member(_, _) | Instr::RawByte(_, _) => {
            Price::nothing_if(begins_otherwise(code, at, facts))
        }
        Instr::Assert(assertion, next) => {
            if facts.fails(*assertion) {
                return Some(Price::nothing());
            }
            if facts.holds(*assertion) {
                return price_of(code, *next, facts, deep);
            }
            price_of(code, *next, facts, deep)?.if_nothing()
        }
        Instr::Open(_, next) | Instr::Close(_, next) => price_of(code, *next, facts, deep),
        Instr::Keep(next) | Instr::Enter(next) => price_of(code, *next, facts, deep),
        Instr::Split(first, second) => {
            let first = price_of(code, *first, facts, deep)?;
            first.or(price_of(code, *second, facts, deep)?)
        }
        Instr::Look(behind, body, next) => price_of_look(code, *behind, *body, *next, facts, deep),
        Instr::Deny(behind, body, next) => {
            if is_denied(code, *behind, *body, facts) {
                return Some(Price::denied());
            }
            let next = price_of(code, *next, facts, deep)?;
            price_of_body(code, *behind, *body, facts, deep)?.or(next)
        }
        _ => None,
    }
}

/// Whether no item that the instruction reads begins with the byte that stands there.
fn begins_otherwise(code: &Code, at: usize, facts: Facts<'_>) -> bool
    requires { at < code_len code.now }
    ensures { result ≡ true → Dies (instrs_of code.now) code.now.meaning facts.entry 0 0 at }
{
    match code.instr(at) {
        Instr::Character(character, _) => {
            !may_begin_character(*character, code.meaning, facts.here)
        }
        Instr::Member(set, _) => !may_begin_member(code.set(*set), code.meaning, facts.here),
        Instr::RawByte(raw, _) => *raw != facts.here,
        _ => false,
    }
}

/// Whether the code from an instruction on dies where the facts hold, opens no choice and takes none back. It is not told where the
/// code is not followed so deep.
pub fn is_free(code: &Code, at: usize, facts: Facts<'_>, deep: usize) -> bool
    ensures { result ≡ true → Dies (instrs_of code.now) code.now.meaning facts.entry 0 0 at }
{
    match price_of(code, at, facts, deep) {
        Some(price) => price.is_nothing(),
        None => false,
    }
}
