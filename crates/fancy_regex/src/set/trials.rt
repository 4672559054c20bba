//! What the members of a pattern set are tried in.
//!
//! A set tries its members at one position after another. What an attempt of a member finds out is kept for the next attempts of
//! that member, so an easy member takes no more steps at all positions together than one search of it does. The memory for that
//! is taken as a member first needs it; all other memory serves all members.

ghost use Rattle.std.specs.Prelude.{◌≡◌, ◌≤◌, ◌<◌, ◌+◌, ℕ, true, List, [], Some, None, IfOk, IfErr, IfSome, IfNone, length, slice_get, vec_len};
ghost use Rattle.fancy_bytes.specs.Lacks.{AreKnown};
ghost use Rattle.fancy_core.specs.Captures.{spans_if, searched_in, found_by};
ghost use Rattle.fancy_core.specs.Limited.{RefusesAt, AllowsAt};
ghost use Rattle.fancy_core.specs.Regexes.{easy_in, options_in, program_in, step_limit_in};
ghost use Rattle.fancy_core.specs.Searches.{CanSearchInput, asked_by, groups_of_attempt};
ghost use Rattle.fancy_input.specs.Inputs.{haystack_in, request_in};
ghost use Rattle.fancy_input.specs.Work.{units_of, IsWithin};
ghost use Rattle.fancy_input.specs.Requests.{effective_start};
ghost use Rattle.fancy_search.specs.Cached.{IsAttemptIn};
ghost use Rattle.fancy_search.specs.KeptTables.{KeepsNotes, kept_from};
ghost use Rattle.fancy_regex.specs.Trials.{notes_held};
ghost use Rattle.fancy_search.specs.Programs.{query_in};
ghost use Rattle.fancy_search.specs.SearchCounts.{IsOutOfSteps};

use fancy_code::found::Found;
use fancy_core::attempt::{
    captures_found, find_at, find_hard, find_in_list, find_straight, find_told, leave_notes,
};
use fancy_core::captures::Captures;
use fancy_core::regex::Regex;
use fancy_input::input::{Haystack, Input};
use fancy_input::regex_input::RegexInput;
use fancy_search::asked::Asked;
use fancy_search::cache::{AttemptCache, AttemptNotes, Cache};
use fancy_tree::error::{Error, Result};
use std::alloc::Global;

/// What the members of a set are tried in, in one haystack.
pub(crate) struct Trials {
    // what each member found out that was tried, up to the last of them
    notes: Vec<Option<Box<AttemptNotes>>>,
    /// What all members are tried in.
    pub(crate) cache: AttemptCache,
}

/// By hand, so that crates above do not prove it once more.
impl Drop for Trials {
    fn drop(self) {
        let Trials { notes: _, cache: _ } = self;
    }
}

impl Trials {
    ghost use Rattle.fancy_input.specs.Work.{IsSpent};
    ghost use Rattle.fancy_regex.specs.SetCounts.{IsPaired, steps_in, steps_left};
    ghost use Rattle.fancy_regex.specs.SetLimits.{KeepsWork};
    ghost use Rattle.fancy_regex.specs.Trials.{HoldStepsOf, IsOldOrNew, NotedAt, OthersStayBut, notes_at};

    /// No member was tried yet, and no memory is taken.
    pub(crate) fn new(alloc: Global) -> Trials
        ensures notes { result.notes.items ≡ [] }
        ensures known { (haystack : List ℕ) → AreKnown result.cache.known haystack }
        ensures steps { steps_in result ≡ 0 }
        ensures paired { IsPaired result }
        ensures units { units_of result.cache.work ≡ 0 }
    {
        Trials {
            notes: Vec::new(alloc),
            cache: AttemptCache::new(alloc),
        }
    }

    /// Takes out what the member with this index found out. Where it was not tried yet, memory is taken for it.
    fn take_notes(&mut self, index: usize) -> Result<Box<AttemptNotes>>
        ensures reached { IfOk result (λ _. index < vec_len self.new.notes) }
        ensures given { IfOk result
            (λ notes. IsOldOrNew (notes_at self.old index) (Some notes.value)) }
        ensures others { OthersStayBut index self.old self.new }
        ensures cache { self.new.cache ≡ self.old.cache }
        ensures refused { IfErr result (λ e. e ≡ Error.Memory) }
    {
        let alloc = *self.notes.allocator();
        'members: while self.notes.len() <= index {
            self.notes.push(None)?;
        }
        match self.notes[index].take() {
            Some(notes) => Ok(notes),
            None => Ok(Box::new(alloc, AttemptNotes::new(alloc))?),
        }
    }

    /// Leaves what the members found out to their attempts in other haystacks, and keeps nothing of it.
    pub(crate) fn leave(&mut self, members: &[Regex])
        requires noted { HoldStepsOf members.now self.old }
        ensures cache { self.new.cache ≡ self.old.cache }
    {
        'members: while let Some(held) = self.notes.pop() {
            if let Some(notes) = held
                && let Some(member) = members.get(self.notes.len())
            {
                leave_notes(member, notes);
            }
        }
    }

    /// Whether the member with this index has found out nothing that would be gone on with.
    fn is_new(&self, index: usize) -> bool
        ensures { result ≡ true → notes_at self.now index ≡ None }
    {
        index >= self.notes.len() || self.notes[index].is_none()
    }

    /// The groups of the match that the attempt of the member with this index finds at a position, or none, as [`find_at`] finds it.
    pub(crate) fn attempt<'r, S: Input>(
        &mut self,
        index: usize,
        member: &'r Regex,
        input: RegexInput<S>,
        position: usize,
    ) -> Result<Option<Captures<'r, S>>>
        requires searched { CanSearchInput S.text S.bytes (options_in member.now) input }
        requires starts { effective_start (request_in input) ≤ position }
        requires ends { position ≤ (request_in input).range_end }
        requires known { AreKnown self.old.cache.known (S.bytes (haystack_in input)) }
        requires notes { NotedAt index member.now (S.bytes (haystack_in input)) (request_in input)
            position self.old }
        ensures known { AreKnown self.new.cache.known (S.bytes (haystack_in input)) }
        ensures notes { IfOk result (λ m. IfNone m
            (NotedAt index member.now (S.bytes (haystack_in input)) (request_in input) position
            self.new)) }
        ensures others { OthersStayBut index self.old self.new }
        ensures bounded { easy_in member.now ≡ true → steps_in self.new
            ≤ steps_in self.old
            + steps_left member.now (request_in input) position (notes_at self.old index) }
        ensures spent { easy_in member.now ≡ true → IfOk result (λ m. IfNone m
            (steps_in self.new
            + steps_left member.now (request_in input) (position + 1) (notes_at self.new index)
            ≤ steps_in self.old
            + steps_left member.now (request_in input) position (notes_at self.old index))) }
        ensures paired { IsPaired self.old → IsPaired self.new }
        ensures limit { IsWithin (step_limit_in member.now) self.old.cache.work
            → IsWithin (step_limit_in member.now) self.new.cache.work }
        ensures limited { IsOutOfSteps result
            → IsSpent (step_limit_in member.now) self.new.cache.work }
        ensures grows { KeepsWork self.old self.new }
        ensures units { easy_in member.now ≡ true
            → units_of self.new.cache.work ≡ units_of self.old.cache.work }
        ensures found { IfOk result (λ m.
            spans_if m ≡ groups_of_attempt (asked_by member.now S.bytes input) position) }
        ensures within { IfOk result (λ m. IfSome m (λ c. searched_in c ≡ haystack_in input)) }
        ensures regex { IfOk result (λ m. IfSome m (λ c. found_by c ≡ member.now)) }
        ensures refused { IfErr result (λ e.
            RefusesAt member.now (asked_by member.now S.bytes input) position e) }
        ensures allowed { IfOk result (λ _.
            AllowsAt member.now (asked_by member.now S.bytes input) position) }
    {
        let haystack = input.haystack();
        let request = input.request();
        let asked = Asked {
            haystack: haystack.as_bytes(),
            text: false,
            request: &request,
            continues: true,
            groups: true,
        };
        let Some(found) = self.find_at(index, member, &asked, position)? else {
            return Ok(None);
        };
        let captures = captures_found(member, haystack, found, &self.cache.engines)?;
        Ok(Some(captures))
    }

    /// The match that the attempt of the member with this index finds at a position, as [`find_at`]. A hard member takes no notes,
    /// nor does one whose items are read, as long as it has none.
    fn find_at(
        &mut self,
        index: usize,
        member: &Regex,
        asked: &Asked<'_>,
        position: usize,
    ) -> Result<Option<Found>>
        requires starts { effective_start asked.now.request.now ≤ position }
        requires ends { position ≤ asked.now.request.now.range_end }
        requires known { AreKnown self.old.cache.known asked.now.haystack.now }
        requires notes { NotedAt index member.now
            asked.now.haystack.now asked.now.request.now position self.old }
        ensures known { AreKnown self.new.cache.known asked.now.haystack.now }
        ensures notes { IfOk result (λ m. NotedAt index member.now
            asked.now.haystack.now asked.now.request.now (kept_from m position) self.new) }
        ensures others { OthersStayBut index self.old self.new }
        ensures bounded { easy_in member.now ≡ true → steps_in self.new
            ≤ steps_in self.old
            + steps_left member.now asked.now.request.now position (notes_at self.old index) }
        ensures spent { easy_in member.now ≡ true → IfOk result (λ m. IfNone m
            (steps_in self.new
            + steps_left member.now asked.now.request.now (position + 1) (notes_at self.new index)
            ≤ steps_in self.old
            + steps_left member.now asked.now.request.now position (notes_at self.old index))) }
        ensures paired { IsPaired self.old → IsPaired self.new }
        ensures limit { IsWithin (step_limit_in member.now) self.old.cache.work
            → IsWithin (step_limit_in member.now) self.new.cache.work }
        ensures limited { IsOutOfSteps result
            → IsSpent (step_limit_in member.now) self.new.cache.work }
        ensures grows { KeepsWork self.old self.new }
        ensures units { easy_in member.now ≡ true
            → units_of self.new.cache.work ≡ units_of self.old.cache.work }
        ensures found { IfOk result (λ m. IsAttemptIn m self.new.cache.engines
            (query_in (program_in member.now) asked.now) position) }
        ensures refused { IfErr result (λ e.
            RefusesAt member.now (query_in (program_in member.now) asked.now) position e) }
        ensures allowed { IfOk result (λ _.
            AllowsAt member.now (query_in (program_in member.now) asked.now) position) }
    {
        if !member.is_easy() {
            return find_hard(member, asked, position, &mut self.cache);
        }
        if self.is_new(index) {
            let read = find_straight(member, asked, position, &mut self.cache);
            if let Some(found) = read {
                return Ok(found);
            }
        }
        let mut notes = self.take_notes(index)?;
        let found = find_at(member, asked, position, &mut notes, &mut self.cache);
        self.notes[index] = Some(notes);
        found
    }

    /// The match that the attempt of the member with this index finds at a position, as [`find_in_list`]. Items of a straight member
    /// are read.
    pub(crate) fn find(
        &mut self,
        index: usize,
        member: &Regex,
        asked: &Asked<'_>,
        position: usize,
    ) -> Result<Option<Found>>
        requires starts { effective_start asked.now.request.now ≤ position }
        requires ends { position ≤ asked.now.request.now.range_end }
        requires known { AreKnown self.old.cache.known asked.now.haystack.now }
        requires notes { NotedAt index member.now
            asked.now.haystack.now asked.now.request.now position self.old }
        ensures known { AreKnown self.new.cache.known asked.now.haystack.now }
        ensures notes { IfOk result (λ m. NotedAt index member.now
            asked.now.haystack.now asked.now.request.now (kept_from m position) self.new) }
        ensures others { OthersStayBut index self.old self.new }
        ensures limit { IsWithin (step_limit_in member.now) self.old.cache.work
            → IsWithin (step_limit_in member.now) self.new.cache.work }
        ensures limited { IsOutOfSteps result
            → IsSpent (step_limit_in member.now) self.new.cache.work }
        ensures grows { KeepsWork self.old self.new }
        ensures found { IfOk result (λ m. IsAttemptIn m self.new.cache.engines
            (query_in (program_in member.now) asked.now) position) }
        ensures refused { IfErr result (λ e.
            RefusesAt member.now (query_in (program_in member.now) asked.now) position e) }
        ensures allowed { IfOk result (λ _.
            AllowsAt member.now (query_in (program_in member.now) asked.now) position) }
    {
        if !member.is_easy() {
            return find_hard(member, asked, position, &mut self.cache);
        }
        let straight = find_straight(member, asked, position, &mut self.cache);
        if let Some(found) = straight {
            return Ok(found);
        }
        let engines = &mut self.cache.engines;
        let told = told(&self.notes, index, member, asked, position, engines);
        if let Some(found) = told {
            return Ok(found);
        }
        let mut notes = self.take_notes(index)?;
        let found = find_in_list(member, asked, position, &mut notes, &mut self.cache);
        self.notes[index] = Some(notes);
        found
    }
}

/// The match that the attempt of the member with this index finds at a position, where what its attempts before found out tells it.
fn told(
    notes: &[Option<Box<AttemptNotes>>],
    index: usize,
    member: &Regex,
    asked: &Asked<'_>,
    position: usize,
    cache: &mut Cache,
) -> Option<Option<Found>>
    requires starts { effective_start asked.now.request.now ≤ position }
    requires ends { position ≤ asked.now.request.now.range_end }
    requires notes { (held : AttemptNotes) → notes_held (slice_get notes.now index) ≡ Some held
        → KeepsNotes (program_in member.now)
        asked.now.haystack.now asked.now.request.now position held }
    ensures easy { IfSome result (λ _. easy_in member.now ≡ true) }
    ensures found { IfSome result (λ m.
        IsAttemptIn m cache.new (query_in (program_in member.now) asked.now) position) }
{
    if index >= notes.len() {
        return None;
    }
    match &notes[index] {
        Some(held) => find_told(member, asked, position, held, cache),
        None => None,
    }
}
