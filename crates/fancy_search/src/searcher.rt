//! Where an iteration over matches stands, and its next match.

ghost use Rattle.std.specs.Prelude.{◌≡◌, ◌≤◌, ◌<◌, ◌+◌, ◌^◌, ◌&&◌, not, nat_eq, true, false, None, option_map, length, IsTrue, IfOk, IfErr, IfNone, MatchOption, ⊤};
ghost use Rattle.fancy_input.specs.Inputs.{haystack_in, request_in};
ghost use Rattle.fancy_input.specs.Places.{is_boundary};
ghost use Rattle.fancy_input.specs.Requests.{effective_start};
ghost use Rattle.fancy_bytes.specs.Lacks.{AreKnown};
ghost use Rattle.fancy_search.specs.declared.cache.Cache.{Cache};
ghost use Rattle.fancy_search.specs.declared.program.Program.{Program};
ghost use Rattle.fancy_search.specs.Remaining.{standing_after, EndsUnlessOk, IfItem, IfRefusal, UnlessRefusal};

use crate::asked::Asked;
use crate::cache::{Cache, Kept};
use crate::program::Program;
use fancy_bytes::lacking::KnownBytes;
use fancy_code::found::Found;
use fancy_input::input::{Haystack, Input, Request};
use fancy_input::regex_input::RegexInput;
use fancy_input::work::Work;
use fancy_tree::error::{Error, Result};

/// What a search of an iteration found, the effective start that it was searched from, and whether `\G` was on. Its groups
/// stand in the cache of the search.
#[derive(Clone, Copy)]
pub struct FoundItem {
    /// What was found: its position and its two ends.
    pub found: Found,
    /// The effective start that it was searched from, as a byte offset.
    pub from: usize,
    /// Whether `\G` was on.
    pub continues: bool,
}

/// How an iteration goes on from where its next search starts.
#[derive(Clone, Copy)]
pub struct Onward {
    /// Whether `\G` holds there. It does not after an empty match that was found where its search started.
    pub continues: bool,
    /// Whether an empty match there is passed over, since the match before ends there and is not empty.
    pub skips_empty: bool,
}

impl Onward {
    /// How one goes on that has found nothing yet.
    pub fn first() -> Onward
        ensures { result ≡ record { continues = true; skips_empty = false } }
    {
        Onward {
            continues: true,
            skips_empty: false,
        }
    }
}

/// An iteration over the matches of an input.
///
/// The next search starts at the end of the last match. After an empty match it starts at the place after it, and an
/// empty match at the end of the match before is passed over.
#[derive(Drop)]
pub struct Searcher<S: Haystack> {
    haystack: S,
    request: Request,
    // whether `\G` is on in the next search
    continues: bool,
    // whether an empty match at the start is passed over
    skips_empty: bool,
    ended: bool,
    // what the searches before left in the cache
    kept: Kept,
    // what is known of the haystack's bytes
    known: KnownBytes,
    // whether the groups of each match are asked for
    groups: bool,
    pub ghost ordered: { request.range_start ≤ request.range_end },
    pub ghost inside: { request.range_end ≤ length (S.bytes haystack) },
    pub ghost short: { length (S.bytes haystack) < 2 ^ 63 },
    pub ghost looked: { AreKnown known (S.bytes haystack) },
}

impl<S: Haystack> Searcher<S> {
    ghost use Rattle.fancy_search.specs.KeptTables.{Keeps};

    /// Leaves what the searches before found out to those of other lists, where the list did not end.
    pub fn leave(&self, program: &Program, cache: &mut Cache)
        requires kept { Keeps S.bytes program.now self.now cache.old }
    {
        if !self.ended {
            program.leave(self.kept, &mut cache.steps);
        }
    }
}

impl<S: Input> Searcher<S> {
    ghost use Rattle.fancy_search.specs.KeptTables.{HoldsSteps, KeepsFrom, Keeps, is_steps};
    ghost use Rattle.fancy_search.specs.Searchers.{IsSuited, GoesTo, IsCutOut, KeepsEnd, scan_of, standing_of, answer_next, item_next, start_next, end_of_items, place_after, start_after, RefusesAnswer, RefusesItem, AllowsAnswer, AllowsItem};
    ghost use Rattle.fancy_search.specs.FoundItems.{item_in, HasGroupsOf, IsGiven, GivesItem};
    ghost use Rattle.fancy_search.specs.SearchCounts.{IfFound};
    ghost use Rattle.fancy_search.specs.Cached.{holds_groups};

    /// The iteration of `input`. `groups` says whether the groups of each match are asked for.
    pub fn new(input: RegexInput<S>, groups: bool) -> Searcher<S>
        ensures haystack { result.haystack ≡ haystack_in input }
        ensures request { result.request ≡ request_in input }
        ensures continues { result.continues ≡ true }
        ensures skips_empty { result.skips_empty ≡ false }
        ensures ended { result.ended ≡ false }
        ensures kept { result.kept ≡ Kept.Nothing }
        ensures groups { result.groups ≡ groups }
        ensures keeps { (program : Program) (cache : Cache) → Keeps S.bytes program result cache }
    {
        Searcher::resume(input, Onward::first(), groups)
    }

    /// The iteration of `input` as one goes on that came so far.
    pub fn resume(input: RegexInput<S>, onward: Onward, groups: bool) -> Searcher<S>
        ensures haystack { result.haystack ≡ haystack_in input }
        ensures request { result.request ≡ request_in input }
        ensures continues { result.continues ≡ onward.continues }
        ensures skips_empty { result.skips_empty ≡ onward.skips_empty }
        ensures ended { result.ended ≡ false }
        ensures kept { result.kept ≡ Kept.Nothing }
        ensures groups { result.groups ≡ groups }
        ensures keeps { (program : Program) (cache : Cache) → Keeps S.bytes program result cache }
    {
        let haystack = input.haystack();
        // a slice is shorter than 2^63 bytes
        let _bytes = haystack.as_bytes();
        Searcher {
            haystack,
            request: input.request(),
            continues: onward.continues,
            skips_empty: onward.skips_empty,
            ended: false,
            kept: Kept::Nothing,
            known: KnownBytes::new(),
            groups,
        }
    }

    /// How it goes on from where the next search starts.
    pub fn onward(&self) -> Onward
        ensures continues { result.continues ≡ self.now.continues }
        ensures skips_empty { result.skips_empty ≡ self.now.skips_empty }
    {
        Onward {
            continues: self.continues,
            skips_empty: self.skips_empty,
        }
    }

    /// The haystack.
    pub fn haystack(&self) -> S
        ensures { result ≡ self.now.haystack }
    {
        self.haystack
    }

    /// The input of the next search.
    pub fn input(&self) -> RegexInput<S>
        ensures haystack { haystack_in result ≡ self.now.haystack }
        ensures request { request_in result ≡ self.now.request }
    {
        let request = self.request;
        RegexInput::new(self.haystack)
            .from_pos(request.start)
            .range(request.range_start..request.range_end)
            .anchored(request.anchored)
            .start_text(request.start_text)
            .end_text(request.end_text)
            .continue_from_previous_match_end(request.continues)
    }

    /// Has the next search start at `start`.
    fn go_to(&mut self, start: usize, continues: bool, skips_empty: bool)
        ensures goes { GoesTo self.old self.new start continues skips_empty }
    {
        self.request.start = start;
        self.continues = continues;
        self.skips_empty = skips_empty;
    }

    /// Has the next search start at the place after `end`, where an empty match stands.
    fn go_past(&mut self, end: usize, continues: bool)
        requires inside { end ≤ length (S.bytes self.old.haystack) }
        requires place { S.text self.old.haystack ≡ true
            → IsTrue (is_boundary (S.bytes self.old.haystack) end) }
        ensures goes { GoesTo self.old self.new
            (place_after S.text S.bytes self.old end) continues false }
        ensures later { end < self.new.request.start }
    {
        let next = self.haystack.advance_position(end);
        self.go_to(next, continues, false);
    }

    /// Goes on after an item.
    fn go_after(&mut self, item: FoundItem)
        requires span { IsCutOut S.text S.bytes self.old item }
        ensures goes { GoesTo self.old self.new self.new.request.start
            (not (nat_eq item.found.start item.found.end && nat_eq item.from item.found.end))
            (not (nat_eq item.found.start item.found.end)) }
        ensures moved { item.found.end ≤ self.new.request.start }
        ensures stands { self.new.request.start ≡ start_after S.text S.bytes self.old item }
    {
        let found = item.found;
        if found.start == found.end {
            self.go_past(found.end, item.from != found.end);
        } else {
            self.go_to(found.end, true, true);
        }
    }

    /// Whether what was found is an empty match that is passed over.
    fn passes_over(&self, found: Found) -> bool
        ensures passed { result ≡ true → (self.now.skips_empty ≡ true)
            × ((found.start ≡ found.end) × (found.end ≡ self.now.request.start)) }
        ensures stays { result ≡ false → (self.now.skips_empty && (nat_eq found.start found.end
            && nat_eq found.end self.now.request.start)) ≡ false }
    {
        self.skips_empty && found.start == found.end && found.end == self.request.start
    }

    /// The answer of the next search.
    #[inline(always)]
    #[tactic(auto, unfolding(crate::specs::MatchList::answer))]
    fn answer(&mut self, program: &Program, cache: &mut Cache) -> Result<Option<FoundItem>>
        requires suits { IsSuited S.text S.bytes program.now self.old }
        requires kept { KeepsFrom S.bytes program.now self.old cache.old
            (effective_start self.old.request) }
        ensures value { IfOk result (λ o.
            option_map (item_in cache.new (answer_next S.text S.bytes program.now self.old)) o
            ≡ answer_next S.text S.bytes program.now self.old) }
        ensures groups_held { self.old.groups ≡ true
            → IfFound result (λ _. holds_groups cache.new.served ≡ true) }
        ensures item { IfFound result (λ i. IsGiven S.text S.bytes self.old i cache.new) }
        ensures kept { IfFound result
            (λ i. KeepsFrom S.bytes program.now self.new cache.new i.found.end) }
        ensures held { IfOk result (λ _. is_steps self.new.kept ≡ true
            → HoldsSteps program.now cache.new.steps) }
        ensures haystack { self.new.haystack ≡ self.old.haystack }
        ensures request { self.new.request ≡ self.old.request }
        ensures continues { self.new.continues ≡ self.old.continues }
        ensures skips_empty { self.new.skips_empty ≡ self.old.skips_empty }
        ensures ended { self.new.ended ≡ self.old.ended }
        ensures groups { self.new.groups ≡ self.old.groups }
        ensures refused { IfErr result (λ e. RefusesAnswer S.bytes program.now self.old e) }
        ensures allowed { IfOk result (λ _. AllowsAnswer S.bytes program.now self.old) }
    {
        let from = self.request.effective_start();
        let asked = Asked {
            haystack: self.haystack.as_bytes(),
            text: self.haystack.is_text(),
            request: &self.request,
            continues: self.continues,
            groups: self.groups,
        };
        let mut work = Work::new();
        let found = program.search_next(&asked, &mut self.kept, &mut self.known, cache, &mut work)?;
        let Some(found) = found else {
            return Ok(None);
        };
        Ok(Some(FoundItem {
            found,
            from,
            continues: self.continues,
        }))
    }

    /// The next item. An empty match that is passed over moves the iteration on.
    #[tactic(auto, using(crate::proofs::RemainingLemmas::next_searched))]
    fn upcoming(&mut self, program: &Program, cache: &mut Cache) -> Result<Option<FoundItem>>
        requires open { self.old.ended ≡ false }
        requires suits { IsSuited S.text S.bytes program.now self.old }
        requires kept { KeepsFrom S.bytes program.now self.old cache.old
            (effective_start self.old.request) }
        ensures value { IfOk result (λ o.
            option_map (item_in cache.new (item_next S.text S.bytes program.now self.old)) o
            ≡ item_next S.text S.bytes program.now self.old) }
        ensures groups_held { self.old.groups ≡ true
            → IfFound result (λ _. holds_groups cache.new.served ≡ true) }
        ensures start { IfOk result
            (λ _. self.new.request.start ≡ start_next S.text S.bytes program.now self.old) }
        ensures item { IfFound result (λ i. IsGiven S.text S.bytes self.old i cache.new) }
        ensures kept { IfFound result
            (λ i. KeepsFrom S.bytes program.now self.new cache.new i.found.end) }
        ensures held { IfOk result (λ _. is_steps self.new.kept ≡ true
            → HoldsSteps program.now cache.new.steps) }
        ensures haystack { self.new.haystack ≡ self.old.haystack }
        ensures request { self.new.request
            ≡ record self.old.request { start = self.new.request.start } }
        ensures ended { self.new.ended ≡ false }
        ensures groups { self.new.groups ≡ self.old.groups }
        ensures refused { IfErr result (λ e. RefusesItem S.text S.bytes program.now self.old e) }
        ensures allowed { IfOk result (λ _. AllowsItem S.text S.bytes program.now self.old) }
    {
        'searches: loop {
            let Some(item) = self.answer(program, cache)? else {
                return Ok(None);
            };
            if !self.passes_over(item.found) {
                return Ok(Some(item));
            }
            self.go_past(item.found.end, false);
        }
    }

    /// Gives the next item and goes on after it. A refusal ends the list.
    #[tactic(auto, using(crate::proofs::ScanLemmas::stepping))]
    pub fn next_item(&mut self, program: &Program, cache: &mut Cache) -> Option<Result<FoundItem>>
        requires suits { IsSuited S.text S.bytes program.now self.old }
        requires kept { Keeps S.bytes program.now self.old cache.old }
        ensures kept { Keeps S.bytes program.now self.new cache.new }
        ensures steps { GivesItem S.text S.bytes program.now cache.new self.old result self.new }
        ensures keeps_end { IfItem result
            (λ _. KeepsEnd S.text S.bytes program.now self.old self.new) }
        ensures allowed { UnlessRefusal result (AllowsItem S.text S.bytes program.now self.old) }
        ensures goes_on { IfItem result (λ i. standing_of self.new
            ≡ standing_after (scan_of S.text S.bytes program.now self.old)
            (item_in cache.new (item_next S.text S.bytes program.now self.old) i)) }
        ensures rests { IfNone result
            (self.new.request.start ≡ end_of_items S.text S.bytes program.now self.old) }
        ensures haystack { self.new.haystack ≡ self.old.haystack }
        ensures request { self.new.request
            ≡ record self.old.request { start = self.new.request.start } }
        ensures ends { EndsUnlessOk result self.new.ended }
        ensures refused { IfRefusal result
            (self.new.request.start ≡ self.old.request.range_end + 1) }
        ensures open { MatchOption result ⊤ (λ _. self.old.ended ≡ false) }
        ensures placed { IfItem result (λ i. IsCutOut S.text S.bytes self.old i) }
        ensures after { IfItem result (λ i. self.old.request.start ≤ i.found.start) }
        ensures groups { IfItem result (λ i. HasGroupsOf S.text S.bytes self.old i cache.new) }
        ensures groups_held { self.old.groups ≡ true
            → IfItem result (λ _. holds_groups cache.new.served ≡ true) }
        ensures asks { self.new.groups ≡ self.old.groups }
        ensures moved { IfItem result (λ i. i.found.end ≤ self.new.request.start) }
        ensures stands { IfItem result
            (λ i. self.new.request.start ≡ start_after S.text S.bytes self.old i) }
    {
        if self.ended {
            return None;
        }
        match self.upcoming(program, cache) {
            Ok(Some(item)) => {
                self.go_after(item);
                Some(Ok(item))
            }
            Ok(None) => {
                self.ended = true;
                program.leave(self.kept, &mut cache.steps);
                None
            }
            Err(error) => {
                self.refuse();
                Some(Err(error))
            }
        }
    }

    /// Ends the list, as after an item that is an error.
    pub fn refuse(&mut self)
        ensures haystack { self.new.haystack ≡ self.old.haystack }
        ensures request { self.new.request
            ≡ record self.old.request { start = self.old.request.range_end + 1 } }
        ensures ended { self.new.ended ≡ true }
        ensures groups { self.new.groups ≡ self.old.groups }
    {
        self.ended = true;
        self.request.start = self.request.range_end + 1;
    }
}
