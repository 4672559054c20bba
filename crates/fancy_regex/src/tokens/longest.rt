//! The longest match of the patterns of a set at one place.

ghost use Rattle.std.specs.Prelude.{◌≡◌, ◌≤◌, ◌<◌, ◌⊎◌, ℕ, IfOk, IfErr, IfSome, IfNone, Some, length, slice_index, true};
ghost use Rattle.fancy_bytes.specs.Lacks.{AreKnown};
ghost use Rattle.fancy_core.specs.RegexStarts.{EndsByOneItem};
ghost use Rattle.fancy_input.specs.Inputs.{haystack_in, request_in};
ghost use Rattle.fancy_input.specs.Work.{work_of};
ghost use Rattle.fancy_search.specs.SearchCounts.{IsOutOfSteps};
ghost use Rattle.fancy_regex.specs.LongestMatches.{EndsPast, EndsBy, IsTokenGiven};
ghost use Rattle.fancy_regex.specs.SetLimits.{IsSpentForOne, ShareLimit};
ghost use Rattle.fancy_regex.specs.Sets.{members_of, asked_of_set, CanSearchAll};
ghost use Rattle.fancy_regex.specs.TokenLists.{IsUnmatched, IsRefusedByMember, token_span};
ghost use Rattle.fancy_regex.specs.Trials.{AreNotedFrom};
ghost use Rattle.fancy_regex.specs.Tokens.{KeepLimits};

use crate::set::trials::Trials;
use crate::set::{RegexSet, RegexSetMatch};
use crate::tokens::token::Token;
use fancy_code::found::Found;
use fancy_core::attempt::captures_found;
use fancy_core::regex::Regex;
use fancy_core::starts::is_one_item;
use fancy_input::input::{Input, Request};
use fancy_input::lines::byte_at;
use fancy_input::regex_input::RegexInput;
use fancy_search::asked::Asked;
use fancy_tree::error::{Error, Result, RuntimeError};

impl RegexSet {
    /// The token at a place before the end of the input's range: the longest match that starts there
    /// and is not empty, the first of those that are as long. The counts of `trials` begin anew, so a
    /// limit of work holds for what all members do at this place.
    pub(crate) fn token_at<S: Input>(
        &self,
        input: &RegexInput<S>,
        place: usize,
        trials: &mut Trials,
    ) -> Result<Token<'_, S>>
        requires searched { CanSearchAll S.text S.bytes self.now input.now }
        requires starts { (request_in input.now).range_start ≤ place }
        requires ends { place < (request_in input.now).range_end }
        requires known { AreKnown trials.old.cache.known (S.bytes (haystack_in input.now)) }
        requires noted { AreNotedFrom 0 (asked_of_set self.now S.bytes input.now) place trials.old }
        ensures known { AreKnown trials.new.cache.known (S.bytes (haystack_in input.now)) }
        ensures limit { (most : ℕ) → ShareLimit most (members_of self.now)
            → work_of trials.new.cache.work ≤ most }
        ensures limited { IsOutOfSteps result
            → IsSpentForOne (members_of self.now) trials.new.cache.work }
        ensures noted { IfOk result (λ t. IfSome (token_span t)
            (λ s. AreNotedFrom 0 (asked_of_set self.now S.bytes input.now) s.end trials.new)) }
        ensures given { IfOk result
            (IsTokenGiven (asked_of_set self.now S.bytes input.now) (haystack_in input.now) place) }
        ensures limits { IfOk result
            (λ _. KeepLimits (asked_of_set self.now S.bytes input.now) place
            (length (members_of self.now))) }
        ensures refused { IfErr result (λ e.
            IsUnmatched (asked_of_set self.now S.bytes input.now) place e
            ⊎ IsRefusedByMember (asked_of_set self.now S.bytes input.now) place e) }
    {
        trials.cache.work.reset();
        let request = input.request();
        let here = Request {
            start: place,
            anchored: true,
            ..request
        };
        let haystack = input.haystack();
        let bytes = haystack.as_bytes();
        let searched = &bytes[..request.range_end];
        let groups = self.candidates.at(bytes, request.range_end, place);
        let asked = Asked {
            haystack: bytes,
            text: haystack.is_text(),
            request: &here,
            continues: true,
            groups: true,
        };
        let mut longest = None;
        let mut end = place;
        let mut from = 0;
        'members: while let Some(index) = self.next_starter(groups, searched, place, from) {
            let member = &self.members[index];
            if ends_no_later(member, searched, place, end) {
                from = index + 1;
                continue 'members;
            }
            let found = trials.find(index, member, &asked, place)?;
            if let Some(found) = found_past(found, place, end) {
                let captures = captures_found(member, haystack, found, &trials.cache.engines)?;
                longest = Some(Token {
                    found: RegexSetMatch::new(index, captures),
                });
                end = found.end;
            }
            from = index + 1;
        }
        match longest {
            Some(token) => Ok(token),
            None => Err(Error::RuntimeError(RuntimeError::Unmatched(place))),
        }
    }
}

/// Whether a match was found that starts at a place and goes on to the end, and no match of a member that starts there ends later: where
/// an ASCII character stands, one item reads no more than that.
fn ends_no_later(member: &Regex, searched: &[u8], place: usize, end: usize) -> bool
    ensures past { result ≡ true → place < end }
    ensures one { result ≡ true → EndsByOneItem member.now }
    ensures low { result ≡ true → slice_index searched.now place < 128 }
{
    match byte_at(searched, place) {
        None => false,
        Some(byte) => place < end && byte < 128 && is_one_item(member),
    }
}

/// What was found, if it starts at the place and ends past the end.
fn found_past(found: Option<Found>, place: usize, end: usize) -> Option<Found>
    ensures past { IfSome result (EndsPast place end found) }
    ensures none { IfNone result (EndsBy place end found) }
{
    let found = found?;
    if found.start == place && found.end > end {
        Some(found)
    } else {
        None
    }
}
