//! A set behind a handle: its first matches, and the tokens of a text.

ghost use Rattle.std.specs.Prelude.{◌≡◌, ℕ, Some, IfOk, IfErr, length};
ghost use Rattle.fancy_regex.specs.SetMatches.{pattern_index, match_span, question_of, position_of, members_to_come};
ghost use Rattle.fancy_regex.specs.SetMembers.{RefusesMember};
ghost use Rattle.fancy_regex.specs.Sets.{members_of};
ghost use Rattle.fancy_regex.specs.Spans.{from_to};
ghost use Rattle.fancy_regex_c.specs.Asked.{asked_of_set, IsPlaceInSet};
ghost use Rattle.fancy_regex_c.specs.Handed.{handed_bytes, is_handed_text};
ghost use Rattle.fancy_regex_c.specs.Handles.{IsSame, BySet, HeldSet};
ghost use Rattle.fancy_regex_c.specs.SetFinding.{PutsMatches, TellsMembers};
ghost use Rattle.fancy_regex_c.specs.SetReading.{part, AreRead, IsSetFault, IsSetToldBy};
ghost use Rattle.fancy_regex_c.specs.TokenGiving.{TellsTokensIn, TellsTokens};

use crate::answers::{DONE, NO_HANDLE, NO_MEMORY, NONE, answer_of};
use crate::buffers::{done_if, put_next};
use crate::handed::Handed;
use crate::handle::{Handle, Kept};
use crate::plain::{Fault, Member, Options, Request};
use crate::reading::read;
use crate::regexes::keep;
use fancy_regex::{Regex, RegexSet, RegexSetMatch, RegexSetMatchesAt, Result};
use std::alloc::Global;
use std::sync::Arc;

/// The part of the bytes from `start` to `end`, which is empty where there is none.
fn part(bytes: &[u8], start: usize, end: usize) -> &[u8]
    ensures { result.now ≡ part bytes.now start end }
{
    if start <= end && end <= bytes.len() {
        &bytes[start..end]
    } else {
        &[]
    }
}

/// Reads patterns that stand one after another. `ends` says where each ends.
fn read_all(
    alloc: Global,
    patterns: &[u8],
    ends: &[usize],
    options: &Options,
) -> std::result::Result<RegexSet, Fault>
    ensures read { IfOk result
        (λ s. AreRead options.now patterns.now ends.now (length ends.now) (members_of s)) }
    ensures refused { IfErr result (λ fault. IsSetFault options.now patterns.now ends.now fault) }
{
    let mut members: Vec<Regex> = Vec::new(alloc);
    let mut start = 0;
    for index in 0..ends.len() {
        let end = ends[index];
        let member = match read(alloc, part(patterns, start, end), options) {
            Ok(member) => member,
            Err(fault) => return Err(fault.in_set(index)),
        };
        let Ok(()) = members.push(member) else {
            return Err(Fault::memory());
        };
        start = end;
    }
    Ok(RegexSet::from_regexes(members))
}

fn keep_set(alloc: Global, set: RegexSet, out: &mut Handle) -> u32
    ensures made { result ≡ 0 → HeldSet out.new (λ s. s ≡ set) ⊥ }
    ensures same { (result ≡ 0 → ⊥) → IsSame out.new out.old }
    ensures answer { (result ≡ 0 → ⊥) → result ≡ 4 }
{
    match Arc::new(alloc, set) {
        Ok(set) => keep(alloc, Kept::Set(set), out),
        Err(_) => NO_MEMORY,
    }
}

/// Reads the patterns of a set, and puts the set into the handle. What the handle held is freed.
///
/// Where a pattern is refused the handle keeps what it held, and the fault says which and why, as that of
/// [`crate::regexes::fancy_regex_new`]. For `DONE` the fault is not written.
#[unsafe(no_mangle)]
pub extern "C" fn fancy_regex_set_new(
    alloc: Global,
    patterns: &[u8],
    ends: &[usize],
    options: &Options,
    out: &mut Handle,
    fault: &mut Fault,
) -> u32
    ensures made { result ≡ 0 → HeldSet out.new
        (λ s. AreRead options.now patterns.now ends.now (length ends.now) (members_of s)) ⊥ }
    ensures same { (result ≡ 0 → ⊥) → IsSame out.new out.old }
    ensures refused { (result ≡ 0 → ⊥) → IsSetToldBy options.now patterns.now ends.now fault.new result }
    ensures untouched { result ≡ 0 → fault.new ≡ fault.old }
{
    let set = match read_all(alloc, patterns, ends, options) {
        Ok(set) => set,
        Err(why) => {
            let answer = why.answer();
            *fault = why;
            return answer;
        }
    };
    let answer = keep_set(alloc, set, out);
    if answer != DONE {
        *fault = Fault::memory();
    }
    answer
}

/// How many patterns the set has; 0 where the handle holds no set.
#[unsafe(no_mangle)]
pub extern "C" fn fancy_regex_set_len(alloc: Global, set: &mut Handle) -> usize
    ensures kept { IsSame set.new set.old }
    ensures count { HeldSet set.old (λ s. result ≡ length (members_of s)) (result ≡ 0) }
{
    let Some(kept) = set.take(alloc) else {
        return 0;
    };
    let count = match &*kept {
        Kept::Set(set) => set.len(),
        _ => 0,
    };
    *set = Handle::of(kept);
    count
}

fn member_of(found: &RegexSetMatch<'_, Handed<'_>>) -> Member
    ensures pattern { result.pattern ≡ pattern_index found.now }
    ensures span { match_span found.now ≡ Some (from_to result.start result.end) }
{
    Member {
        pattern: found.pattern(),
        start: found.start(),
        end: found.end(),
    }
}

/// Writes the matches for which there is room, and tells how many there are.
fn put_members(
    matches: RegexSetMatchesAt<'_, Handed<'_>>,
    members: &mut [Member],
    wanted: &mut usize,
) -> Result<()>
    requires start { wanted.old ≡ 0 }
    ensures put { IfOk result (λ _. PutsMatches (question_of handed_bytes matches.entry)
        (position_of matches.entry) (members_to_come handed_bytes matches.entry)
        members.old members.new wanted.new) }
    ensures refused { IfErr result (λ e. (k : ℕ) × RefusesMember
        (question_of handed_bytes matches.entry) (position_of matches.entry) k e) }
{
    for found in matches {
        let found = found?;
        put_next(member_of(&found), members, wanted);
    }
    Ok(())
}

fn set_find_in(
    set: &RegexSet,
    haystack: &[u8],
    request: Request,
    members: &mut [Member],
    wanted: &mut usize,
) -> u32
    ensures { TellsMembers set.now haystack.now request members.old members.new wanted.new result }
{
    *wanted = 0;
    let input = match Handed::input_for_set(set, haystack, request) {
        Ok(input) => input,
        Err(answer) => return answer,
    };
    let matches = match set.find_input(input) {
        Ok(Some(matches)) => matches,
        Ok(None) => return NONE,
        Err(error) => return answer_of(error),
    };
    match put_members(matches, members, wanted) {
        Ok(()) => done_if(*wanted, members.len()),
        Err(error) => answer_of(error),
    }
}

/// The matches at the least position at which a pattern of the set matches, in the order of the patterns, as many as there is room for.
/// It tells how many there are.
///
/// `TOO_SHORT` where there is not room for all. `NONE` where there is no such position. The other answers are those of
/// [`crate::regexes::fancy_regex_is_match`]. `NO_HANDLE` where the handle holds no set.
#[unsafe(no_mangle)]
pub extern "C" fn fancy_regex_set_find(
    alloc: Global,
    set: &mut Handle,
    haystack: &[u8],
    request: &Request,
    members: &mut [Member],
    wanted: &mut usize,
) -> u32
    ensures kept { IsSame set.new set.old }
    ensures answer { HeldSet set.old
        (λ s. TellsMembers s haystack.now request.now members.old members.new wanted.new result)
        ((result ≡ 5) × (members.new ≡ members.old) × (wanted.new ≡ wanted.old)) }
{
    let Some(kept) = set.take(alloc) else {
        return NO_HANDLE;
    };
    let answer = kept.set_find(haystack, *request, members, wanted);
    *set = Handle::of(kept);
    answer
}

impl Kept {
    fn set_find(
        &self,
        haystack: &[u8],
        request: Request,
        members: &mut [Member],
        wanted: &mut usize,
    ) -> u32
        ensures { BySet self.now
            (λ s. TellsMembers s haystack.now request members.old members.new wanted.new result)
            ((result ≡ 5) × (members.new ≡ members.old) × (wanted.new ≡ wanted.old)) }
    {
        match self {
            Kept::Set(set) => set_find_in(set, haystack, request, members, wanted),
            _ => NO_HANDLE,
        }
    }

    fn tokens(
        &self,
        haystack: &[u8],
        request: &mut Request,
        tokens: &mut [Member],
        written: &mut usize,
    ) -> u32
        ensures { BySet self.now
            (λ s. TellsTokens s haystack.now request.old request.new tokens.old tokens.new written.new result)
            ((result ≡ 5) × (request.new ≡ request.old) × (tokens.new ≡ tokens.old)
            × (written.new ≡ written.old)) }
    {
        match self {
            Kept::Set(set) => tokens_of_bytes(set, haystack, request, tokens, written),
            _ => NO_HANDLE,
        }
    }
}

/// Gives the next tokens, as many as there is room for. The request says then where the next one starts.
pub fn tokens_in(
    set: &RegexSet,
    haystack: Handed<'_>,
    request: &mut Request,
    tokens: &mut [Member],
    written: &mut usize,
) -> u32
    ensures { TellsTokensIn (asked_of_set set.now (handed_bytes haystack.entry) request.old)
        (IsPlaceInSet set.now (is_handed_text haystack.entry) (handed_bytes haystack.entry) request.old)
        request.old request.new tokens.old tokens.new written.new result }
{
    *written = 0;
    let input = match haystack.input_in_set(set, *request) {
        Ok(input) => input,
        Err(answer) => return answer,
    };
    let mut list = set.tokens(input);
    for index in 0..tokens.len() {
        let start = list.place();
        match list.next() {
            Some(Ok(token)) => {
                tokens[index] = Member {
                    pattern: token.pattern(),
                    start,
                    end: list.place(),
                };
                *written = index + 1;
                request.start = list.place();
            }
            Some(Err(error)) => return answer_of(error),
            None => return NONE,
        }
    }
    DONE
}

fn tokens_of_bytes(
    set: &RegexSet,
    haystack: &[u8],
    request: &mut Request,
    tokens: &mut [Member],
    written: &mut usize,
) -> u32
    ensures { TellsTokens set.now haystack.now request.old request.new tokens.old tokens.new written.new result }
{
    *written = 0;
    match Handed::new(haystack, *request) {
        Ok(haystack) => tokens_in(set, haystack, request, tokens, written),
        Err(answer) => answer,
    }
}

/// The tokens of a text, as many as there is room for. The request says then where the next one starts.
///
/// `DONE` where all that there is room for are written, `NONE` where the range has ended, `UNMATCHED` where no pattern gives a token
/// where the request starts now, and what a pattern is refused with there. `NO_HANDLE` where the handle holds no set.
#[unsafe(no_mangle)]
pub extern "C" fn fancy_regex_tokens(
    alloc: Global,
    set: &mut Handle,
    haystack: &[u8],
    request: &mut Request,
    tokens: &mut [Member],
    written: &mut usize,
) -> u32
    ensures kept { IsSame set.new set.old }
    ensures answer { HeldSet set.old
        (λ s. TellsTokens s haystack.now request.old request.new tokens.old tokens.new written.new result)
        ((result ≡ 5) × (request.new ≡ request.old) × (tokens.new ≡ tokens.old)
        × (written.new ≡ written.old)) }
{
    let Some(kept) = set.take(alloc) else {
        return NO_HANDLE;
    };
    let answer = kept.tokens(haystack, request, tokens, written);
    *set = Handle::of(kept);
    answer
}
