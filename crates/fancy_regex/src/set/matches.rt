//! The matches of a pattern set at the position where the first of its patterns matches.

ghost use Rattle.std.specs.Prelude.{◌≡◌, ◌≤◌, ◌-◌, ◌↔◌, ℕ, None, IfOk, IfErr, IfSome, length};
ghost use Rattle.std.specs.Option.{ForSome};
ghost use Rattle.std.specs.Iterator.{at_most};
ghost use Rattle.std.proofs.Props.{props};
ghost use Rattle.fancy_bytes.specs.Lacks.{AreKnown};
ghost use Rattle.fancy_input.specs.Inputs.{haystack_in, request_in};
ghost use Rattle.fancy_input.specs.Requests.{effective_start};
ghost use Rattle.fancy_input.specs.Work.{steps_of, returns_of, work_of};
ghost use Rattle.fancy_regex.specs.SetAnswers.{IsItemOf};
ghost use Rattle.fancy_regex.specs.SetCounts.{AreAllEasy, most_steps_of_all};
ghost use Rattle.fancy_regex.specs.SetLimits.{AllowAllSteps, IsSpentForOne, ShareLimit};
ghost use Rattle.fancy_regex.specs.Sets.{members_of, asked_of_set, CanSearchAll};
ghost use Rattle.fancy_regex.specs.Trials.{AreNotedFrom, next_asked};
ghost use Rattle.fancy_search.specs.SearchCounts.{IsOutOfSteps};

use crate::set::RegexSet;
use crate::set::matched::RegexSetMatch;
use crate::set::members::MemberAnswer;
use crate::set::trials::Trials;
use fancy_core::captures::Captures;
use fancy_input::input::{Haystack, Input};
use fancy_input::regex_input::RegexInput;
use fancy_input::work::Work;
use fancy_tree::error::Result;

/// The matches of the patterns of a set at one position, in the order of their indices; made by [`RegexSet::find_input`].
///
/// A pattern is searched when it is asked for. Where its attempt is refused, for want of memory or past its limits, the item is
/// that refusal, and the next item is that of the next pattern. A `RegexOptionsBuilder::step_limit` counts on from the search.
///
/// ```text
/// // the set of `a` and `(?:(a|aa)+)\1` under backtrack_limit(0), on "aa"
/// matches.next()    // Some(Ok): pattern 0 from 0 to 1
/// matches.next()    // Some(Err(RuntimeError(BacktrackLimitExceeded)))
/// matches.next()    // None
/// ```
#[derive(Drop)]
pub struct RegexSetMatchesAt<'r, S: Haystack> {
    set: &'r RegexSet,
    input: RegexInput<S>,
    position: usize,
    // the index of the member that is asked next
    next: usize,
    // what that member found, if it was asked already
    found: Option<Captures<'r, S>>,
    trials: Trials,
    ghost searched: { CanSearchAll S.text S.bytes set.now input },
    ghost starts: { effective_start (request_in input) ≤ position },
    ghost ends: { position ≤ (request_in input).range_end },
    ghost known: { AreKnown trials.cache.known (S.bytes (haystack_in input)) },
    ghost noted: { AreNotedFrom (next_asked found next) (asked_of_set set.now S.bytes input)
        position trials } by { Prim.hlevel props },
    ghost kept: { ForSome found (λ c.
        IsItemOf (asked_of_set set.now S.bytes input) (haystack_in input) position next c) },
}

impl RegexSet {
    ghost use Rattle.fancy_regex.specs.SetMembers.{set_position, RefusesSet};
    ghost use Rattle.fancy_regex.specs.SetMatches.{IsAnswerOfSet};

    /// The matches at the least position, as a byte offset, at which a pattern of the set matches, or none. An anchored input
    /// has its effective start alone tried. `\G` holds at that start alone.
    ///
    /// ```text
    /// let set = RegexSet::new(alloc, &["\\d+", "\\w+"])?;
    /// set.find_input(RegexInput::new("$29"))?    // Some, at 1: pattern 0 from 1 to 3, and pattern 1 from 1 to 3
    /// set.find_input(RegexInput::new("$29").anchored(true))?    // None
    /// ```
    ///
    /// It is refused as the first attempt is that is refused before a match was found, in the order of positions and then of
    /// indices: for want of memory, or past the limits of that pattern. Of these `RegexOptionsBuilder::step_limit` bounds what all
    /// patterns did in this search, and so a whole search; the others bound the attempt. A pattern that was built with `RegexOptionsBuilder::seek`
    /// is not tried where its own searches pass a position over, and takes nothing of its limits there.
    pub fn find_input<S: Input>(
        &self,
        input: RegexInput<S>,
    ) -> Result<Option<RegexSetMatchesAt<'_, S>>>
        requires searched { CanSearchAll S.text S.bytes self.now input }
        ensures none { IfOk result (λ m.
            (m ≡ None) ↔ (set_position (asked_of_set self.now S.bytes input) ≡ None)) }
        ensures found { IfOk result
            (λ m. IfSome m (IsAnswerOfSet S.bytes self.now (haystack_in input) (request_in
            input))) }
        ensures refused { IfErr result (RefusesSet (asked_of_set self.now S.bytes input)) }
        ensures unlimited { AreAllEasy (members_of self.now)
            → AllowAllSteps (members_of self.now) (request_in input)
            → IsOutOfSteps result → ⊥ }
    {
        let mut work = Work::new();
        self.find_input_counted(input, &mut work)
    }

    /// The same as [`RegexSet::find_input`], with the counts of the search: when it returns, `work` tells how much this call did,
    /// after a refusal how much up to it. What was counted in `work` before is lost, and what the matches that it gives take later
    /// is not counted. Steps are counted as far as [`usize::MAX`].
    ///
    /// ```text
    /// let set = RegexSet::new(alloc, &["a*b", "a*c"])?;
    /// let mut work = Work::new();
    /// set.find_input_counted(RegexInput::new("aaaa"), &mut work)?    // None
    /// work.steps()    // at most 5 times the code lengths of both
    /// ```
    ///
    /// Where all patterns are easy, the steps are at most those that a search with each of them alone may take, added up. Where all
    /// patterns have the same `RegexOptionsBuilder::step_limit`, `work.work()` is at most that, also after a refusal.
    pub fn find_input_counted<S: Input>(
        &self,
        input: RegexInput<S>,
        work: &mut Work,
    ) -> Result<Option<RegexSetMatchesAt<'_, S>>>
        requires searched { CanSearchAll S.text S.bytes self.now input }
        ensures none { IfOk result (λ m.
            (m ≡ None) ↔ (set_position (asked_of_set self.now S.bytes input) ≡ None)) }
        ensures found { IfOk result
            (λ m. IfSome m (IsAnswerOfSet S.bytes self.now (haystack_in input) (request_in
            input))) }
        ensures refused { IfErr result (RefusesSet (asked_of_set self.now S.bytes input)) }
        ensures steps { AreAllEasy (members_of self.now)
            → steps_of work.new ≤ most_steps_of_all (members_of self.now) (request_in input) }
        ensures returns { returns_of work.new ≤ steps_of work.new }
        ensures limit { (most : ℕ) → ShareLimit most (members_of self.now)
            → work_of work.new ≤ most }
        ensures spent { IsOutOfSteps result → IsSpentForOne (members_of self.now) work.new }
        ensures unlimited { AreAllEasy (members_of self.now)
            → AllowAllSteps (members_of self.now) (request_in input)
            → IsOutOfSteps result → ⊥ }
    {
        work.reset();
        let mut trials = Trials::new(*self.members.allocator());
        let first = self.first_answer(&input, &mut trials);
        work.add(&trials.cache.work);
        let Some((position, first)) = first else {
            return Ok(None);
        };
        let captures = first.answer?;
        Ok(Some(RegexSetMatchesAt {
            set: self,
            input,
            position,
            next: first.index,
            found: Some(captures),
            trials,
        }))
    }
}

impl<'r, S: Input> RegexSetMatchesAt<'r, S> {
    ghost use Rattle.fancy_regex.specs.SetMatches.{set_of, haystack_of_set, position_of};

    /// The set whose patterns match.
    pub fn regex_set(&self) -> &'r RegexSet
        ensures { result.now ≡ set_of self.now }
    {
        self.set
    }

    /// The whole haystack, also where a part of it is searched.
    pub fn haystack(&self) -> S
        ensures { result ≡ haystack_of_set self.now }
    {
        self.input.haystack()
    }

    /// The position that the patterns are tried at, as a byte offset. A match may start after it, by a `\K`: of `a\K` on
    /// `"xa"` the position is 1, and the match starts at 2.
    pub fn start(&self) -> usize
        ensures { result ≡ position_of self.now }
    {
        self.position
    }
}

impl<'r, S: Input> Iterator for RegexSetMatchesAt<'r, S> {
    ghost use Rattle.fancy_regex.specs.SetMatches.{IsNextOfSet, set_of, next_member};

    type Item = Result<RegexSetMatch<'r, S>>;

    ghost next_gives = { IsNextOfSet S.bytes };

    ghost remaining = { λ m. at_most (length (members_of (set_of m)) - next_member m) };

    fn next(&mut self) -> Option<Result<RegexSetMatch<'r, S>>> {
        if let Some(captures) = self.found.take() {
            let index = self.next;
            self.next += 1;
            return Some(Ok(RegexSetMatch::new(index, captures)));
        }
        let set = self.set;
        let Some(first) = set.answer_from(self.next, &self.input, self.position, &mut self.trials)
        else {
            self.next = set.len();
            return None;
        };
        let MemberAnswer { index, answer } = first;
        self.next = index + 1;
        match answer {
            Ok(captures) => Some(Ok(RegexSetMatch::new(index, captures))),
            Err(error) => Some(Err(error)),
        }
    }
}
