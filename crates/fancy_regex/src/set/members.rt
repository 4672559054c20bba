//! What the members of a pattern set answer.

ghost use Rattle.std.specs.Prelude.{◌≡◌, ◌≤◌, ◌<◌, ◌+◌, [], None, Some, false, IfNone, IfSome, MatchOption, ℕ, length, slice_get, slice_index, take};
ghost use Rattle.fancy_bytes.specs.Lacks.{AreKnown};
ghost use Rattle.fancy_core.specs.declared.regex.Regex.{Regex};
ghost use Rattle.fancy_input.specs.Inputs.{haystack_in, request_in};
ghost use Rattle.fancy_input.specs.Requests.{effective_start};
ghost use Rattle.fancy_regex.specs.Candidates.{AreOfStarters, HoldAllAt, IsNextStarter, NoStarterBetween};
ghost use Rattle.fancy_regex.specs.SetMembers.{has_answer_at, set_position, NoneBetween, MayStartAt};
ghost use Rattle.fancy_regex.specs.SetAnswers.{IsAnswerOf, IsFirstAnswer, IsFirstOfSet};
ghost use Rattle.fancy_regex.specs.Sets.{members_of, asked_of_set, CanSearchAll};
ghost use Rattle.fancy_regex.specs.SetCounts.{AreAllEasy, IsPaired, TakesSteps, most_steps_of_all, steps_in, steps_left_in};
ghost use Rattle.fancy_regex.specs.SetLimits.{CountNoUnits, HeedLimits, KeepsWork, IsSpentForOne};
ghost use Rattle.fancy_regex.specs.Trials.{AreNotedFrom};
ghost use Rattle.fancy_search.specs.SearchCounts.{IsOutOfSteps};

use crate::set::RegexSet;
use crate::set::candidates::Groups;
use crate::set::trials::Trials;
use fancy_core::captures::Captures;
use fancy_input::input::{Haystack, Input};
use fancy_input::lines::byte_at;
use fancy_input::regex_input::RegexInput;
use fancy_tree::error::Result;

/// What a member answers that finds something or is refused.
#[derive(Drop)]
pub(crate) struct MemberAnswer<'r, S: Haystack> {
    /// The index of the member.
    pub(crate) index: usize,
    pub(crate) answer: Result<Captures<'r, S>>,
}

impl RegexSet {
    /// The first answer at a position of the input, in the order of positions and then of indices, with its position. `None`
    /// where no member finds anything at any position.
    pub(crate) fn first_answer<S: Input>(
        &self,
        input: &RegexInput<S>,
        trials: &mut Trials,
    ) -> Option<(usize, MemberAnswer<'_, S>)>
        requires searched { CanSearchAll S.text S.bytes self.now input.now }
        requires known { AreKnown trials.old.cache.known (S.bytes (haystack_in input.now)) }
        requires fresh { trials.old.notes.items ≡ [] }
        ensures known { AreKnown trials.new.cache.known (S.bytes (haystack_in input.now)) }
        ensures noted { IfSome result (λ a.
            AreNotedFrom (a.1.index + 1) (asked_of_set self.now S.bytes input.now) a.0 trials.new) }
        ensures bounded { AreAllEasy (members_of self.now) → steps_in trials.new
            ≤ steps_in trials.old + most_steps_of_all (members_of self.now) (request_in input.now) }
        ensures paired { IsPaired trials.old → IsPaired trials.new }
        ensures limit { HeedLimits (members_of self.now) trials.old trials.new }
        ensures grows { KeepsWork trials.old trials.new }
        ensures limited { IfSome result (λ a. IsOutOfSteps a.1.answer
            → IsSpentForOne (members_of self.now) trials.new.cache.work) }
        ensures units { CountNoUnits (members_of self.now) trials.old trials.new }
        ensures none { IfNone result (set_position (asked_of_set self.now S.bytes input.now)
            ≡ None) }
        ensures first { IfSome result (λ a. IsFirstOfSet (asked_of_set self.now S.bytes input.now)
            (haystack_in input.now) a.0 a.1.index a.1.answer) }
    {
        let request = input.request();
        let first = request.effective_start();
        if first > request.range_end {
            return None;
        }
        // a slice is shorter than 2^63 bytes
        let haystack = input.haystack();
        let bytes = haystack.as_bytes();
        let last = request.last_position();
        for position in first..last + 1 {
            let groups = self.candidates.at(bytes, request.range_end, position);
            if groups.is_empty() {
                continue;
            }
            let groups = self
                .candidates
                .further(groups, bytes, request.range_end, position);
            if let Some(answer) = self.answer_in(groups, 0, input, position, trials) {
                return Some((position, answer));
            }
        }
        None
    }

    /// The first answer at a position of the members from an index on. `None` where none of them finds anything there.
    pub(crate) fn answer_from<S: Input>(
        &self,
        from: usize,
        input: &RegexInput<S>,
        position: usize,
        trials: &mut Trials,
    ) -> Option<MemberAnswer<'_, S>>
        requires searched { CanSearchAll S.text S.bytes self.now input.now }
        requires starts { effective_start (request_in input.now) ≤ position }
        requires ends { position ≤ (request_in input.now).range_end }
        requires known { AreKnown trials.old.cache.known (S.bytes (haystack_in input.now)) }
        requires noted { AreNotedFrom from (asked_of_set self.now S.bytes input.now) position
            trials.old }
        ensures known { AreKnown trials.new.cache.known (S.bytes (haystack_in input.now)) }
        ensures noted { IfNone result
            (AreNotedFrom from (asked_of_set self.now S.bytes input.now) position trials.new) }
        ensures left { IfSome result (λ a.
            AreNotedFrom (a.index + 1) (asked_of_set self.now S.bytes input.now) position
            trials.new) }
        ensures limit { HeedLimits (members_of self.now) trials.old trials.new }
        ensures grows { KeepsWork trials.old trials.new }
        ensures limited { IfSome result (λ a. IsOutOfSteps a.answer
            → IsSpentForOne (members_of self.now) trials.new.cache.work) }
        ensures none { IfNone result
            (NoneBetween (asked_of_set self.now S.bytes input.now) position from
            (length (members_of self.now))) }
        ensures first { IfSome result (λ a. IsFirstAnswer (asked_of_set self.now S.bytes input.now)
            (haystack_in input.now) position from a.index a.answer) }
    {
        let haystack = input.haystack();
        let bytes = haystack.as_bytes();
        let groups = self
            .candidates
            .at(bytes, input.request().range_end, position);
        self.answer_in(groups, from, input, position, trials)
    }

    /// The first answer at a position of the members from an index on in the groups that may begin there. `None` where none of them
    /// finds anything there.
    fn answer_in<S: Input>(
        &self,
        groups: Groups,
        from: usize,
        input: &RegexInput<S>,
        position: usize,
        trials: &mut Trials,
    ) -> Option<MemberAnswer<'_, S>>
        requires groups { HoldAllAt self.now.candidates.width (members_of self.now)
            (take (request_in input.now).range_end (S.bytes (haystack_in input.now))) position
            groups }
        requires only { self.now.candidates.width ≡ 1 → AreOfStarters (members_of self.now)
            (slice_get (take (request_in input.now).range_end (S.bytes (haystack_in input.now)))
            position) groups }
        requires small { (k : ℕ) → slice_index (S.bytes (haystack_in input.now)) k < 256 }
        requires searched { CanSearchAll S.text S.bytes self.now input.now }
        requires starts { effective_start (request_in input.now) ≤ position }
        requires ends { position ≤ (request_in input.now).range_end }
        requires known { AreKnown trials.old.cache.known (S.bytes (haystack_in input.now)) }
        requires noted { AreNotedFrom from (asked_of_set self.now S.bytes input.now) position
            trials.old }
        ensures known { AreKnown trials.new.cache.known (S.bytes (haystack_in input.now)) }
        ensures noted { IfNone result
            (AreNotedFrom from (asked_of_set self.now S.bytes input.now) position trials.new) }
        ensures left { IfSome result (λ a.
            AreNotedFrom (a.index + 1) (asked_of_set self.now S.bytes input.now) position
            trials.new) }
        ensures bounded { TakesSteps (asked_of_set self.now S.bytes input.now) trials.old trials.new
            (steps_left_in (asked_of_set self.now S.bytes input.now) from position trials.old) 0 }
        ensures spent { IfNone result
            (TakesSteps (asked_of_set self.now S.bytes input.now) trials.old trials.new
            (steps_left_in (asked_of_set self.now S.bytes input.now) from position trials.old)
            (steps_left_in (asked_of_set self.now S.bytes input.now) 0 (position + 1) trials.new)) }
        ensures paired { IsPaired trials.old → IsPaired trials.new }
        ensures limit { HeedLimits (members_of self.now) trials.old trials.new }
        ensures grows { KeepsWork trials.old trials.new }
        ensures limited { IfSome result (λ a. IsOutOfSteps a.answer
            → IsSpentForOne (members_of self.now) trials.new.cache.work) }
        ensures units { CountNoUnits (members_of self.now) trials.old trials.new }
        ensures none { IfNone result
            (NoneBetween (asked_of_set self.now S.bytes input.now) position from
            (length (members_of self.now))) }
        ensures first { IfSome result (λ a. IsFirstAnswer (asked_of_set self.now S.bytes input.now)
            (haystack_in input.now) position from a.index a.answer) }
    {
        let haystack = input.haystack();
        let bytes = haystack.as_bytes();
        let range_end = input.request().range_end;
        let searched = &bytes[..range_end];
        let mut from = from;
        'members: while let Some(index) = self.next_starter(groups, searched, position, from) {
            if let Some(answer) = self.answer_of(index, input, position, trials) {
                return Some(MemberAnswer { index, answer });
            }
            from = index + 1;
        }
        None
    }

    /// The first member from an index on that is to be asked at a position of what is searched: it is in one of the groups that may
    /// begin there, and may start with the byte there. Where each member has a group of its own, the groups tell both.
    #[inline(always)]
    pub(crate) fn next_starter(
        &self,
        groups: Groups,
        searched: &[u8],
        position: usize,
        from: usize,
    ) -> Option<usize>
        requires all { HoldAllAt self.now.candidates.width (members_of self.now) searched.now
            position groups }
        requires only { self.now.candidates.width ≡ 1
            → AreOfStarters (members_of self.now) (slice_get searched.now position) groups }
        ensures { MatchOption result
            (NoStarterBetween (members_of self.now) searched.now position from
            (length (members_of self.now)))
            (IsNextStarter (members_of self.now) searched.now position from) }
    {
        let width = self.candidates.width;
        if width == 1 {
            return groups.first_from(from);
        }
        self.next_in_groups(groups, searched, position, from)
    }

    /// The same, of groups that several members share.
    #[inline(never)]
    fn next_in_groups(
        &self,
        groups: Groups,
        searched: &[u8],
        position: usize,
        from: usize,
    ) -> Option<usize>
        requires { HoldAllAt self.now.candidates.width (members_of self.now) searched.now
            position groups }
        ensures { MatchOption result
            (NoStarterBetween (members_of self.now) searched.now position from
            (length (members_of self.now)))
            (IsNextStarter (members_of self.now) searched.now position from) }
    {
        let next = byte_at(searched, position);
        let count = self.members.len();
        let mut from = from;
        'candidates: while let Some(index) = self.candidates.next_member(groups, from, count) {
            if self.members[index].may_start_before(next) {
                return Some(index);
            }
            from = index + 1;
        }
        None
    }

    /// What the member with this index answers at a position. `None` where it finds nothing there.
    fn answer_of<S: Input>(
        &self,
        index: usize,
        input: &RegexInput<S>,
        position: usize,
        trials: &mut Trials,
    ) -> Option<Result<Captures<'_, S>>>
        requires member { index < length (members_of self.now) }
        requires may { (r : Regex) → slice_get (members_of self.now) index ≡ Some r
            → MayStartAt (asked_of_set self.now S.bytes input.now) position r }
        requires searched { CanSearchAll S.text S.bytes self.now input.now }
        requires starts { effective_start (request_in input.now) ≤ position }
        requires ends { position ≤ (request_in input.now).range_end }
        requires known { AreKnown trials.old.cache.known (S.bytes (haystack_in input.now)) }
        requires noted { AreNotedFrom index (asked_of_set self.now S.bytes input.now) position
            trials.old }
        ensures known { AreKnown trials.new.cache.known (S.bytes (haystack_in input.now)) }
        ensures noted { IfNone result ((from : ℕ)
            → AreNotedFrom from (asked_of_set self.now S.bytes input.now) position trials.old
            → AreNotedFrom from (asked_of_set self.now S.bytes input.now) position trials.new) }
        ensures left { AreNotedFrom (index + 1) (asked_of_set self.now S.bytes input.now) position
            trials.new }
        ensures bounded { TakesSteps (asked_of_set self.now S.bytes input.now) trials.old trials.new
            (steps_left_in (asked_of_set self.now S.bytes input.now) index position trials.old) 0 }
        ensures spent { IfNone result
            (TakesSteps (asked_of_set self.now S.bytes input.now) trials.old trials.new
            (steps_left_in (asked_of_set self.now S.bytes input.now) index position trials.old)
            (steps_left_in (asked_of_set self.now S.bytes input.now) (index + 1) position
            trials.new)) }
        ensures paired { IsPaired trials.old → IsPaired trials.new }
        ensures limit { HeedLimits (members_of self.now) trials.old trials.new }
        ensures grows { KeepsWork trials.old trials.new }
        ensures limited { IfSome result (λ a. IsOutOfSteps a
            → IsSpentForOne (members_of self.now) trials.new.cache.work) }
        ensures units { CountNoUnits (members_of self.now) trials.old trials.new }
        ensures none { IfNone result
            (has_answer_at (asked_of_set self.now S.bytes input.now) position index ≡ false) }
        ensures some { IfSome result (λ a. IsAnswerOf (asked_of_set self.now S.bytes input.now)
            (haystack_in input.now) position index a) }
    {
        match trials.attempt(index, &self.members[index], input.again(), position) {
            Ok(None) => None,
            Ok(Some(captures)) => Some(Ok(captures)),
            Err(error) => Some(Err(error)),
        }
    }
}
