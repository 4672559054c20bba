//! A compiled pattern: the code that is searched with, and what decides how.

ghost use Rattle.std.specs.Prelude.{◌⊎◌, ◌≡◌, ◌≤◌, ◌<◌, ◌+◌, ◌-◌, ◌*◌, ◌^◌, ℕ, replicate, Bool, List, Option, None, Some, IfOk, IfErr, IfSome, IfNone, IsUtf8, chars, is_some, true, false, length, string_bytes};
ghost use Rattle.std.specs.Option.{ForSome};
ghost use Rattle.fancy_tree.specs.Pattern.{Pattern, pattern_of};
ghost use Rattle.fancy_tree.specs.GroupNames.{names_of};
ghost use Rattle.fancy_tree.specs.Modes.{keeps_characters};
ghost use Rattle.fancy_tree.specs.Sizes.{nodes};
ghost use Rattle.fancy_syntax.specs.Dialect.{IsPattern};
ghost use Rattle.fancy_input.specs.Requests.{effective_start};
ghost use Rattle.fancy_code.specs.Code.{instrs_of};
ghost use Rattle.fancy_code.specs.CodeLength.{code_len};
ghost use Rattle.fancy_code.specs.Compile.{are_easy};
ghost use Rattle.fancy_meaning.specs.Context.{Context};
ghost use Rattle.fancy_meaning.specs.Easy.{is_easy};
ghost use Rattle.fancy_meaning.specs.Placed.{has_raw_byte, has_keep_start_in_look_around};
ghost use Rattle.fancy_runner.specs.Groups.{groups_in};
ghost use Rattle.fancy_runner.specs.KeptTable.{table_base, table_in, place_kept, past_tried, steps_ahead, steps_from};
ghost use Rattle.fancy_input.specs.Work.{steps_of, returns_of, units_of};
ghost use Rattle.fancy_meaning.specs.Tried.{NoneTried};
ghost use Rattle.fancy_meaning.specs.Search.{Answer, search};
ghost use Rattle.fancy_code.specs.Queries.{answer_with};
ghost use Rattle.fancy_states.specs.Futures.{ArePlain, EndsNoGroup};
ghost use Rattle.fancy_states.specs.Search.{IsFoundAs, KeepsPlaces, groups_of};
ghost use Rattle.fancy_states.specs.Counts.{AddsSteps};
ghost use Rattle.fancy_bytes.specs.Lacks.{AreKnown, AreRequired};
ghost use Rattle.fancy_splits.specs.Told.{ArePrices};
ghost use Rattle.fancy_splits.specs.Once.{prices_once};
ghost use Rattle.fancy_search.specs.Readings.{Reading, one_reading};
ghost use Rattle.fancy_search.specs.StepsOf.{AreStepsOf};
ghost use Rattle.fancy_search.specs.declared.cache.RememberedSteps.{RememberedSteps};
ghost use Rattle.fancy_search.specs.Followed.{FollowsEach};
ghost use Rattle.fancy_search.specs.Compiled.{IsSpelled, IsCompiled};
ghost use Rattle.fancy_search.specs.Options.{meaning_in, dialect_of, is_easy_under, search_options};
ghost use Rattle.fancy_search.specs.Refusals.{error_of};
ghost use Rattle.fancy_search.specs.ProgramSize.{IsRefusedUnder, RefusesPattern, passes};
ghost use Rattle.fancy_search.specs.Cached.{IsAnswerIn, IsAttemptIn, groups_by, holds_groups};
ghost use Rattle.fancy_search.specs.OneItem.{AreOneItems, answer_to};
ghost use Rattle.fancy_search.specs.Straight.{past_end, straight_end};
ghost use Rattle.fancy_search.specs.declared.straight.StraightEnd.TheVariants.{Loop};

use crate::asked::Asked;
use crate::begun::{Attempts, Begun, Led};
use crate::cache::{AttemptCache, AttemptNotes, Cache, Engine, Kept, RememberedSteps};
use crate::one_item::is_one_item;
use crate::options::Options;
use crate::step_pool::StepPool;
use crate::straight::{StraightEnd, is_item_or_run, past_straight, past_turns, straight_end};
use fancy_automaton::search as automaton;
use fancy_automaton::worth::{
    LEAST_WORTH, MOST_TRIED, MOST_WORTH, QUICK_BYTES, SEARCH, TABLE, WORTH, begin_often,
    has_short_attempts, leaps, least_steps, may_lead, saved_steps,
};
use fancy_bytes::lacking::{KnownBytes, RequiredBytes};
use fancy_code::code::Code;
use fancy_code::compile::compile;
use fancy_code::found::Found;
use fancy_input::input::Request;
use fancy_input::lines::byte_at;
use fancy_input::refusal::SearchRefusal;
use fancy_input::span::Span;
use fancy_input::work::Work;
use fancy_machine::search as machine;
use fancy_meaning::options::{SearchOptions, is_match_boundary};
use fancy_prefilter::candidates::next_opening;
use fancy_runner::notes::KeptTable;
use fancy_runner::patience::Patience;
use fancy_runner::search as runner;
use fancy_splits::prices::Prices;
use fancy_states::plain::{ends_no_group, is_plain};
use fancy_syntax::parse::{Parsed, parse_with};
use fancy_tree::error::{CompileError, Error, Result, RuntimeError};
use fancy_tree::name::Names;
use fancy_tree::tree::{Meaning, Tree};
use std::alloc::{AllocError, Global};

/// Steps are computed for so many bytes at most after a search.
const MOST_LEARNT: usize = 4096;

/// A haystack of fewer bytes is short.
const SHORT_HAYSTACK: usize = 256;

/// A pattern that was read and compiled under options.
///
/// Which engine serves its searches is decided once: the memoised runner an easy pattern, and the backtracking machine a
/// hard one. Where the runner would make many attempts or long ones, it begins a search, and an automaton goes on with it, if that
/// follows the code. One whose code is straight needs no engine: its items are read where a match may begin, and those of a
/// loop at its end after them.
pub struct Program {
    options: Options,
    /// What an engine is told of them.
    for_search: SearchOptions,
    text: String,
    code: Code,
    names: Names,
    easy: bool,
    /// Whether each way of the code reads one item, or tests the place, after which a match is found, as far as this is told.
    one_item: bool,
    /// How the code ends, if it reads items and tests places one after another.
    straight: Option<StraightEnd>,
    /// Whether the automaton follows the code.
    plain: bool,
    /// Whether the code ends no group, so that none takes part in a match.
    ungrouped: bool,
    /// From how many steps on that a search may take it is worth those of the automaton, if it ever is.
    least_steps: Option<usize>,
    /// Whether the runner makes short attempts, where a scan tells it to.
    is_short: bool,
    /// The bytes that every haystack with a match has.
    required: RequiredBytes,
    /// What is told of the machine's attempts.
    prices: Prices,
    /// The steps that a search by the automaton left for later ones.
    pool: StepPool,
    pub ghost reading: { Reading options (string_bytes text) } by { one_reading options (string_bytes text) },
    pub ghost compiled: { ∥ IsCompiled reading.0 code (names_of names) ∥₁ },
    ghost pooled: { (steps : RememberedSteps) → (AreStepsOf pool.left steps → AreStepsOf code steps)
        × (AreStepsOf code steps → AreStepsOf pool.left steps) },
    ghost handed: { for_search ≡ search_options options },
    ghost meant: { code.meaning ≡ meaning_in options },
    ghost short: { code_len code ≤ 4 * nodes reading.0 + 2 },
    ghost decided: { easy ≡ is_easy_under options reading.0 },
    ghost followed: { plain ≡ true → FollowsEach code },
    ghost alone: { ungrouped ≡ true → EndsNoGroup (instrs_of code) },
    ghost single: { one_item ≡ true → ∥ AreOneItems (instrs_of code) code.start ∥₁ },
    ghost direct: { ForSome straight
        (λ end. straight_end code.start (code_len code - 2) (instrs_of code) ≡ Some end) },
    ghost light: { is_easy reading.0 ≡ true → are_easy (instrs_of code) ≡ true },
    pub ghost limited: { ForSome options.step_limit (λ most. most < 2 ^ 64) },
    ghost starts: { has_keep_start_in_look_around reading.0 ≡ false },
    ghost needed: { AreRequired (meaning_in options) reading.0 required },
    ghost priced: { ArePrices prices code } by { prices_once prices code },
    ghost whole: { keeps_characters options.bytes_mode ≡ true → has_raw_byte reading.0 ≡ false },
}

/// By hand, so that crates above do not prove it once more.
impl Drop for Program {
    fn drop(self) {
        let Program {
            options: _,
            for_search: _,
            text: _,
            code: _,
            names: _,
            easy: _,
            one_item: _,
            straight: _,
            plain: _,
            ungrouped: _,
            least_steps: _,
            is_short: _,
            required: _,
            prices: _,
            pool: _,
        } = self;
    }
}

/// The error that a refusal of an engine is told as.
fn error_of(refusal: SearchRefusal) -> Error
    ensures { result ≡ error_of refusal }
{
    match refusal {
        SearchRefusal::Memory => Error::Memory,
        SearchRefusal::Returns => Error::RuntimeError(RuntimeError::BacktrackLimitExceeded),
        SearchRefusal::Choices => Error::RuntimeError(RuntimeError::StackOverflow),
        SearchRefusal::Steps => Error::RuntimeError(RuntimeError::StepLimitExceeded),
    }
}

/// What is told of the machine's attempts. Nothing is told of the code of an easy pattern, which it does not serve.
fn prices_of(alloc: Global, code: &Code, easy: bool) -> std::result::Result<Prices, AllocError>
    ensures { IfOk result (λ prices. ArePrices prices code.now) }
{
    if easy {
        return Ok(Prices::none(alloc));
    }
    Prices::of(alloc, code)
}

/// The request for the attempt at one position alone.
fn anchored_at(request: Request, position: usize) -> Request
    ensures { result ≡ record request { start = position; anchored = true } }
{
    Request {
        start: position,
        anchored: true,
        ..request
    }
}

/// For how many places steps may be computed still, after so many steps of a search that may take as many as the code is long for each of
/// these places.
fn places_left(code_len: usize, places: usize, taken: usize) -> usize
    ensures { 0 < result → taken + code_len * result ≤ code_len * places }
{
    let most = code_len.saturating_mul(places);
    if taken > most {
        return 0;
    }
    match (most - taken).checked_div(code_len) {
        None => 0,
        Some(left) => left,
    }
}

/// How far a search came: to the end of its match, or where it found none, to the end of its range, and an anchored one no further than
/// where it began.
#[inline(always)]
fn end_of(found: Option<Found>, request: Request) -> usize {
    match found {
        Some(found) => found.end,
        None if request.anchored => request.effective_start(),
        None => request.range_end,
    }
}

/// Whether a request is for a short text.
#[inline(always)]
fn is_short_text(request: &Request) -> bool {
    request.range_end.saturating_sub(request.effective_start()) < SHORT_HAYSTACK
}

impl Program {
    ghost use Rattle.fancy_search.specs.SearchCounts.{RefusesEasy, AllowsQuery, IsOutOfSteps, AllowsAllSteps, tried_by, is_hopeless, IfFound, IsHardProgram, RefusesQuery, RefusesAttempt, AllowsAttempt, HasRoomFor, HeedsStepLimit, step_bound};
    ghost use Rattle.fancy_search.specs.Programs.{program_pattern, program_options, program_stack_limit, program_groups, program_names, program_length, program_is_easy, asked_of, query_in};
    ghost use Rattle.fancy_search.specs.Begun.{IsBegun};
    ghost use Rattle.fancy_search.specs.Served.{IsPosition, IsFollowable, StandsIn, KeepsCounts, CountsReturns, HeedsStackLimit, Serves, ServesAlone, ServesEasily};
    ghost use Rattle.fancy_search.specs.Starts.{may_start, NeverHolds, EndsByOne};
    ghost use Rattle.fancy_search.specs.KeptTables.{KeepsTable, HoldsSteps, IsKeptIn, IsKeptFor, KeepsNotes, LeavesNotes, table_kept, ahead_with, most_with, notes_to_go, TakesStepsToGo, SpendsSteps, KeepsOn, notes_ahead, is_steps, keeps_no_table};
    ghost use Rattle.fancy_input.specs.LastLines.{KnowsLastLines};
    ghost use Rattle.fancy_machine.specs.Asked.{HeedsLimit, groups_held, lines_held};

    /// Reads a pattern under these options, and compiles it.
    ///
    /// It is refused where the text is no pattern of the dialect, for a hard pattern whose code is longer than the
    /// size that is set, as `CompileError(PatternTooComplex)`, and where memory runs out (`Memory`).
    pub fn new(alloc: Global, pattern: &str, options: Options) -> Result<Program>
        ensures options { IfOk result (λ p. program_options p ≡ options) }
        ensures spelled { IfOk result (λ p. IsSpelled options pattern.now
            (program_pattern p) (program_groups p) (program_names p)) }
        ensures sized { IfOk result
            (λ p. IsHardProgram p → passes (program_length p) options.max_prog_size ≡ false) }
        ensures refused { IfErr result (λ e. IsRefusedUnder options (chars pattern.now) e) }
        ensures succeeds { (q : Pattern) → IsPattern (dialect_of options) (chars pattern.now) q
            → IfErr result (λ e. RefusesPattern options q e) }
    {
        let Parsed {
            tree,
            groups,
            names,
        } = parse_with(alloc, pattern, options.parse_options())?;
        let code = compile(alloc, &tree, groups, options.meaning())?;
        let easy = options.is_easy(&tree);
        if options.forbids(easy, code.len()) {
            return Err(Error::CompileError(CompileError::PatternTooComplex));
        }
        let one_item = is_one_item(&code);
        let straight = straight_end(&code);
        let plain = is_plain(&code);
        let ungrouped = ends_no_group(&code);
        let is_short = easy && has_short_attempts(&code);
        let directly = is_item_or_run(&code)
            || straight.is_some() && code.prefilter.scans_for_opening();
        let least_steps = least_steps(&code, is_short, directly);
        let required = RequiredBytes::new(alloc, &tree, options.meaning())?;
        let prices = prices_of(alloc, &code, easy)?;
        let text = String::from_str(alloc, pattern)?;
        let for_search = options.for_search();
        let pool = StepPool::new(&code);
        Ok(Program {
            options,
            for_search,
            text,
            code,
            names,
            easy,
            one_item,
            straight,
            plain,
            ungrouped,
            least_steps,
            is_short,
            required,
            prices,
            pool,
        })
    }

    /// The options that it was built with.
    pub fn options(&self) -> Options
        ensures { result ≡ program_options self.now }
    {
        self.options
    }

    /// The names of groups, in the order of their openings.
    pub fn names(&self) -> &Names
        ensures { names_of result.now ≡ program_names self.now }
    {
        &self.names
    }

    /// How many groups the pattern has, with group 0, the whole match.
    pub fn group_count(&self) -> usize
        ensures { result ≡ program_groups self.now }
    {
        self.code.groups
    }

    /// Whether a search takes at most [`Program::code_len`] times the searched length plus one steps, whatever the haystack.
    pub fn is_easy(&self) -> bool
        ensures { result ≡ program_is_easy self.now }
    {
        self.easy
    }

    /// How many instructions its code has: at most 4 for each node of the pattern with its counted repeats written out,
    /// and 2 more.
    pub fn code_len(&self) -> usize
        ensures value { result ≡ program_length self.now }
        ensures short { result ≤ 4 * nodes (program_pattern self.now) + 2 }
    {
        self.code.len()
    }

    /// Whether a match may start right before this byte, or with `None` at the end of the searched range. Where the answer is
    /// `false`, no match starts there. A pattern that may hold and consume nothing, or that has a `\K`, may start anywhere.
    pub fn may_start_before(&self, next: Option<u8>) -> bool
        ensures { result
            ≡ may_start (meaning_in (program_options self.now)) (program_pattern self.now) next }
    {
        match &self.code.prefilter.starts {
            None => true,
            Some(starts) => match next {
                None => false,
                Some(byte) => starts.contains(byte),
            },
        }
    }

    /// Whether a match may start so many places, 1 or more, before this byte, by what each match opens with. For a hard pattern, and
    /// where nothing is told of the place, the answer is `true`.
    pub fn may_hold(&self, place: usize, byte: u8) -> bool
        ensures { result ≡ false → NeverHolds self.now place byte }
    {
        !self.easy || self.code.prefilter.opening.may_hold(place, byte)
    }

    /// Whether the pattern is one item or one test of the place, or alternatives of one each, as far as its code tells, so that no match
    /// goes past an ASCII character that it starts with. For a hard pattern the answer is `false`.
    pub fn is_one_item(&self) -> bool
        ensures { result ≡ true → EndsByOne self.now }
    {
        if !self.easy {
            return false;
        }
        self.one_item
    }

    /// The first match that is asked for in the bytes of a haystack. Its groups stand in `cache` then.
    ///
    /// Under `seek` positions are passed over where no match begins, as the first bytes tell, and no step is taken where none is left,
    /// or where the haystack lacks a byte that every haystack with a match has.
    ///
    /// It is refused where memory runs out (`Memory`); for a hard pattern past a limit: as `RuntimeError(BacktrackLimitExceeded)` or
    /// `RuntimeError(StackOverflow)`; and where it would do more work than `step_limit` allows, with what was counted in `work`
    /// before: as `RuntimeError(StepLimitExceeded)`.
    pub fn search(
        &self,
        asked: &Asked<'_>,
        cache: &mut Cache,
        work: &mut Work,
    ) -> Result<Option<Found>>
        requires room { HasRoomFor self.now asked.now.request.now work.old }
        ensures served { Serves self.now asked.now result cache.old cache.new work.old work.new }
        ensures bounded { program_is_easy self.now ≡ true
            → steps_of work.new ≤ steps_of work.old + step_bound self.now asked.now.request.now }
        ensures unlimited { program_is_easy self.now ≡ true
            → AllowsAllSteps self.now asked.now.request.now work.old → IsOutOfSteps result → ⊥ }
    {
        let mut kept = Kept::Nothing;
        let mut known = KnownBytes::new();
        let found = self.search_next(asked, &mut kept, &mut known, cache, work)?;
        self.leave(kept, &mut cache.steps);
        Ok(found)
    }

    /// The first match, as [`Program::search`] finds it, without its groups. What the engine works in is made for this search, and only
    /// where it comes to one.
    pub fn find(&self, asked: &Asked<'_>, work: &mut Work) -> Result<Option<Found>>
        requires room { HasRoomFor self.now asked.now.request.now work.old }
        ensures served { ServesAlone self.now asked.now result work.old work.new }
        ensures bounded { program_is_easy self.now ≡ true
            → steps_of work.new ≤ steps_of work.old + step_bound self.now asked.now.request.now }
        ensures unlimited { program_is_easy self.now ≡ true
            → AllowsAllSteps self.now asked.now.request.now work.old → IsOutOfSteps result → ⊥ }
    {
        let mut known = KnownBytes::new();
        if self.is_hopeless(asked, &mut known) {
            return Ok(None);
        }
        if self.easy {
            return self.find_easily(asked, work);
        }
        self.find_hard(asked, work)
    }

    /// The same for an easy pattern.
    fn find_easily(&self, asked: &Asked<'_>, work: &mut Work) -> Result<Option<Found>>
        requires easy { program_is_easy self.now ≡ true }
        requires hopeful { is_hopeless self.now (query_in self.now asked.now) ≡ false }
        requires room { HasRoomFor self.now asked.now.request.now work.old }
        ensures served { ServesAlone self.now asked.now result work.old work.new }
        ensures bounded { steps_of work.new
            ≤ steps_of work.old + step_bound self.now asked.now.request.now }
        ensures unlimited { AllowsAllSteps self.now asked.now.request.now work.old
            → IsOutOfSteps result → ⊥ }
    {
        if self.is_followed_alone(asked) && self.allows_all_steps(*asked.request, work) {
            return self.find_followed(asked.haystack, *asked.request, work);
        }
        self.find_unfollowed(asked, work)
    }

    /// The same without the automaton.
    fn find_unfollowed(&self, asked: &Asked<'_>, work: &mut Work) -> Result<Option<Found>>
        requires easy { program_is_easy self.now ≡ true }
        requires hopeful { is_hopeless self.now (query_in self.now asked.now) ≡ false }
        requires room { HasRoomFor self.now asked.now.request.now work.old }
        ensures served { ServesAlone self.now asked.now result work.old work.new }
        ensures bounded { steps_of work.new
            ≤ steps_of work.old + step_bound self.now asked.now.request.now }
        ensures unlimited { AllowsAllSteps self.now asked.now.request.now work.old
            → IsOutOfSteps result → ⊥ }
    {
        if self.is_read(asked, &Kept::Nothing) && self.allows_all_steps(*asked.request, work) {
            return Ok(self.read(asked.haystack, asked.request, work));
        }
        let mut table = None;
        let mut runner = runner::Cache::new(*self.text.allocator());
        self.run(asked.haystack, asked.request, &mut table, &mut runner, work)
    }

    /// The same where the automaton may serve: by the runner as long as its patience lasts, and then by the automaton, from the first place
    /// on at which a match may begin. An early match does not pay for the steps that the automaton computes first, and where a scan finds no
    /// place, none are taken that were left.
    #[inline(never)]
    fn find_followed(
        &self,
        haystack: &[u8],
        request: Request,
        work: &mut Work,
    ) -> Result<Option<Found>>
        requires followable { IsFollowable self.now haystack.now request }
        requires unanchored { request.anchored ≡ false }
        requires room { HasRoomFor self.now request work.old }
        requires allowed { AllowsAllSteps self.now request work.old }
        ensures answer { IfOk result (λ m. (on : Bool) → (groups : List (Option Span))
            × (answer_with groups m ≡ search (asked_of self.now haystack.now request on))) }
        ensures counts { KeepsCounts self.now result work.old work.new }
        ensures idle { (on : Bool) → NoneTried (program_options self.now).seek
            (asked_of self.now haystack.now request on) → steps_of work.new ≡ steps_of work.old }
        ensures bounded { steps_of work.new ≤ steps_of work.old + step_bound self.now request }
        ensures refused { IfErr result (λ e. e ≡ Error.Memory) }
    {
        let request = match self.begin_alone(haystack, request, work)? {
            Some(Begun::Ended(found)) => return Ok(found),
            Some(Begun::Left(rest)) => rest,
            None => request,
        };
        let options = self.options.for_search();
        let Some(opened) = automaton::open(&self.code, haystack, request, options) else {
            return Ok(None);
        };
        let first = request.effective_start();
        let mut steps = self.steps_for(Kept::Nothing, None, haystack, first)?;
        let cells = &mut steps.cells;
        let Ok(found) = automaton::find_opened(&opened, cells, work) else {
            return Err(Error::Memory);
        };
        self.pool.leave(steps);
        Ok(found)
    }

    /// The same for a hard pattern.
    #[inline(never)]
    fn find_hard(&self, asked: &Asked<'_>, work: &mut Work) -> Result<Option<Found>>
        requires hard { IsHardProgram self.now }
        requires hopeful { is_hopeless self.now (query_in self.now asked.now) ≡ false }
        requires room { HasRoomFor self.now asked.now.request.now work.old }
        ensures served { ServesAlone self.now asked.now result work.old work.new }
    {
        let mut cache = machine::Cache::new(*self.text.allocator());
        self.backtrack(asked, false, &mut cache, work)
    }

    /// Whether [`Program::find`] finds anything. It is refused as that is.
    pub fn is_match(&self, asked: &Asked<'_>, work: &mut Work) -> Result<bool>
        requires room { HasRoomFor self.now asked.now.request.now work.old }
        ensures found { IfOk result (λ b. b ≡ is_some (search (query_in self.now asked.now))) }
        ensures refused { IfErr result (RefusesQuery self.now (query_in self.now asked.now)) }
        ensures allowed { IfOk result (λ _. AllowsQuery self.now (query_in self.now asked.now)) }
        ensures bounded { program_is_easy self.now ≡ true
            → steps_of work.new ≤ steps_of work.old + step_bound self.now asked.now.request.now }
        ensures unlimited { program_is_easy self.now ≡ true
            → AllowsAllSteps self.now asked.now.request.now work.old → IsOutOfSteps result → ⊥ }
    {
        let mut known = KnownBytes::new();
        if self.is_hopeless(asked, &mut known) {
            return Ok(false);
        }
        if !self.easy {
            let found = self.find_hard(asked, work)?;
            return Ok(found.is_some());
        }
        if self.is_followed_alone(asked) && self.allows_all_steps(*asked.request, work) {
            return self.is_match_followed(asked.haystack, *asked.request, work);
        }
        let found = self.find_unfollowed(asked, work)?;
        Ok(found.is_some())
    }

    /// The same for an easy pattern where the automaton may serve: by the runner as long as its patience lasts, and then by the automaton.
    #[inline(never)]
    fn is_match_followed(&self, haystack: &[u8], request: Request, work: &mut Work) -> Result<bool>
        requires followable { IsFollowable self.now haystack.now request }
        requires unanchored { request.anchored ≡ false }
        requires room { HasRoomFor self.now request work.old }
        requires allowed { AllowsAllSteps self.now request work.old }
        ensures answer { IfOk result (λ b. (on : Bool)
            → b ≡ is_some (search (asked_of self.now haystack.now request on))) }
        ensures bounded { steps_of work.new ≤ steps_of work.old + step_bound self.now request }
        ensures refused { IfErr result (λ e. e ≡ Error.Memory) }
    {
        let request = match self.begin_alone(haystack, request, work)? {
            Some(Begun::Ended(found)) => return Ok(found.is_some()),
            Some(Begun::Left(rest)) => rest,
            None => request,
        };
        let options = self.options.for_search();
        let Some(opened) = automaton::open(&self.code, haystack, request, options) else {
            return Ok(false);
        };
        let first = request.effective_start();
        let mut steps = self.steps_for(Kept::Nothing, None, haystack, first)?;
        let cells = &mut steps.cells;
        let Ok(found) = automaton::is_match_opened(&opened, cells, work) else {
            return Err(Error::Memory);
        };
        self.pool.leave(steps);
        Ok(found)
    }

    /// A search of a list, as [`Program::search`] is a search alone: of one haystack up to one end, each from the end of the match
    /// before, or later.
    ///
    /// `kept` tells what the searches before left in `cache`, and then what this one leaves there for the next. For an easy pattern
    /// what they found out is not followed again. `known` is what is known of the haystack's bytes: those that are looked for are added
    /// to it, so that the searches of a list look for each once.
    #[inline(always)]
    pub fn search_next(
        &self,
        asked: &Asked<'_>,
        kept: &mut Kept,
        known: &mut KnownBytes,
        cache: &mut Cache,
        work: &mut Work,
    ) -> Result<Option<Found>>
        requires room { HasRoomFor self.now asked.now.request.now work.old }
        requires known { AreKnown known.old asked.now.haystack.now }
        requires kept { IsKeptFor self.now asked.now kept.old
            (effective_start asked.now.request.now) cache.old }
        ensures known { AreKnown known.new asked.now.haystack.now }
        ensures served { Serves self.now asked.now result cache.old cache.new work.old work.new }
        ensures kept { IfFound result (λ f. IsKeptFor self.now asked.now kept.new f.end cache.new) }
        ensures held { IfOk result (λ _. is_steps kept.new ≡ true
            → HoldsSteps self.now cache.new.steps) }
        ensures fresh { program_is_easy self.now ≡ true → kept.old ≡ Kept.Nothing
            → steps_of work.new ≤ steps_of work.old + step_bound self.now asked.now.request.now }
        ensures bounded { program_is_easy self.now ≡ true
            → TakesStepsToGo self.now asked.now.request.now kept.old cache.old work.old work.new }
        ensures spent { program_is_easy self.now ≡ true → IfFound result (λ f. SpendsSteps
            self.now asked.now.request.now kept.old cache.old work.old
            kept.new cache.new work.new f.end) }
        ensures goes_on { program_is_easy self.now ≡ true
            → IfFound result (λ _. KeepsOn kept.old kept.new) }
        ensures unlimited { program_is_easy self.now ≡ true → kept.old ≡ Kept.Nothing
            → AllowsAllSteps self.now asked.now.request.now work.old → IsOutOfSteps result → ⊥ }
    {
        if self.is_hopeless(asked, known) {
            return Ok(None);
        }
        if self.easy {
            return self.search_easy(asked, kept, cache, work);
        }
        let is_kept = kept.is_lines();
        *kept = Kept::Lines;
        // A copy is handed on, so that the other has no address and an easy search takes it in registers.
        let asked = *asked;
        cache.served = Engine::Machine;
        self.backtrack(&asked, is_kept, &mut cache.machine, work)
    }

    /// The search for an easy pattern: by the automaton where that is worth its steps, else by reading its items where the code is
    /// straight, and else by the runner. It has no `\G`.
    #[inline(always)]
    fn search_easy(
        &self,
        asked: &Asked<'_>,
        kept: &mut Kept,
        cache: &mut Cache,
        work: &mut Work,
    ) -> Result<Option<Found>>
        requires easy { program_is_easy self.now ≡ true }
        requires room { HasRoomFor self.now asked.now.request.now work.old }
        requires kept { IsKeptFor self.now asked.now kept.old
            (effective_start asked.now.request.now) cache.old }
        ensures served { ServesEasily self.now (query_in self.now asked.now) asked.now.groups
            result cache.old cache.new work.old work.new }
        ensures kept { IfFound result (λ f. IsKeptFor self.now asked.now kept.new f.end cache.new) }
        ensures held { IfOk result (λ _. is_steps kept.new ≡ true
            → HoldsSteps self.now cache.new.steps) }
        ensures fresh { kept.old ≡ Kept.Nothing
            → steps_of work.new ≤ steps_of work.old + step_bound self.now asked.now.request.now }
        ensures bounded { TakesStepsToGo self.now asked.now.request.now
            kept.old cache.old work.old work.new }
        ensures spent { IfFound result (λ f. SpendsSteps
            self.now asked.now.request.now kept.old cache.old work.old
            kept.new cache.new work.new f.end) }
        ensures goes_on { IfFound result (λ _. KeepsOn kept.old kept.new) }
        ensures unlimited { kept.old ≡ Kept.Nothing
            → AllowsAllSteps self.now asked.now.request.now work.old → IsOutOfSteps result → ⊥ }
    {
        if self.is_followed(asked, kept) && self.allows_all_steps(*asked.request, work) {
            if kept.is_steps()
                && !self.is_led(asked)
                && let Some(steps) = &mut cache.steps
            {
                cache.served = self.without_groups();
                return self.follow(asked.haystack, *asked.request, kept, steps, work);
            }
            // copies are lent, so that the others have no address
            let (asked, mut left) = (*asked, *kept);
            let found = self.search_followed(&asked, &mut left, cache, work);
            *kept = left;
            return found;
        }
        if self.is_read(asked, kept) && self.allows_all_steps(*asked.request, work) {
            cache.served = Engine::WithoutGroups(self.code.groups);
            *kept = Kept::Runner(None);
            return Ok(self.read(asked.haystack, asked.request, work));
        }
        cache.served = Engine::Runner;
        let mut table = kept.table();
        *kept = Kept::Nothing;
        let runner = &mut cache.runner;
        let found = self.run(asked.haystack, asked.request, &mut table, runner, work)?;
        *kept = Kept::Runner(table);
        Ok(found)
    }

    /// A search of a list for an easy pattern where the automaton may serve: by the runner as long as its patience lasts, and then by the
    /// automaton, or where groups are asked, by the runner once more, which the automaton leads.
    #[inline(never)]
    fn search_followed(
        &self,
        asked: &Asked<'_>,
        kept: &mut Kept,
        cache: &mut Cache,
        work: &mut Work,
    ) -> Result<Option<Found>>
        requires followable { IsFollowable self.now asked.now.haystack.now asked.now.request.now }
        requires unanchored { asked.now.request.now.anchored ≡ false }
        requires room { HasRoomFor self.now asked.now.request.now work.old }
        requires allowed { AllowsAllSteps self.now asked.now.request.now work.old }
        requires kept { is_steps kept.old ≡ true → HoldsSteps self.now cache.old.steps }
        ensures answer { IfOk result (λ m. (on : Bool)
            → IsAnswerIn m cache.new (asked_of self.now asked.now.haystack.now asked.now.request.now on)) }
        ensures held { asked.now.groups ≡ true
            → IfFound result (λ _. holds_groups cache.new.served ≡ true) }
        ensures counts { KeepsCounts self.now result work.old work.new }
        ensures idle { (on : Bool) → NoneTried (program_options self.now).seek
            (asked_of self.now asked.now.haystack.now asked.now.request.now on)
            → steps_of work.new ≡ steps_of work.old }
        ensures kept { IfOk result (λ _. is_steps kept.new ≡ true
            → HoldsSteps self.now cache.new.steps) }
        ensures left { IfOk result (λ _. keeps_no_table kept.new ≡ true) }
        ensures bounded { steps_of work.new
            ≤ steps_of work.old + step_bound self.now asked.now.request.now }
        ensures refused { IfErr result (λ e. e ≡ Error.Memory) }
        ensures apart { cache.new.machine ≡ cache.old.machine }
    {
        let haystack = asked.haystack;
        let mut request = *asked.request;
        if let Some(patience) = self.patience(*kept, request) {
            let before = work.steps();
            cache.served = Engine::Runner;
            match self.begin(haystack, request, patience, &mut cache.runner, work)? {
                Begun::Ended(found) => {
                    let taken = (work.steps() - before).saturating_add(SEARCH);
                    *kept = self.kept_after(asked, found, patience, taken);
                    return Ok(found);
                }
                Begun::Left(rest) => request = rest,
            }
        }
        if self.is_led(asked) {
            return self.search_led(haystack, request, kept, cache, work);
        }
        cache.served = self.without_groups();
        let first = request.effective_start();
        let mut steps = self.steps_for(*kept, cache.steps.take(), haystack, first)?;
        let found = self.follow(haystack, request, kept, &mut steps, work);
        cache.steps = Some(steps);
        found
    }

    /// Whether the automaton only leads where it serves, since groups are asked that the code ends.
    #[inline(always)]
    fn is_led(&self, asked: &Asked<'_>) -> bool
        ensures { result ≡ false → asked.now.groups ≡ true → self.now.ungrouped ≡ true }
    {
        asked.groups && !self.ungrouped
    }

    /// What is kept after a search of a list by the runner that took so many steps: its patience. Where the searches took few steps for many
    /// bytes, the runner serves alone from then on. Where groups are asked, only those steps count that the automaton may have saved, and it
    /// serves alone where these are few of many.
    fn kept_after(
        &self,
        asked: &Asked<'_>,
        found: Option<Found>,
        patience: Patience,
        taken: usize,
    ) -> Kept
        ensures left { keeps_no_table result ≡ true }
        ensures steps { is_steps result ≡ false }
    {
        let after = patience.after(taken);
        if !self.is_led(asked) {
            let place = end_of(found, *asked.request);
            if !patience.is_quick(taken, place) {
                self.pool.spend(taken);
            } else if place.saturating_sub(after.first) >= QUICK_BYTES {
                return Kept::Runner(None);
            }
            return Kept::Begun(after);
        }
        let (haystack, request) = (asked.haystack, *asked.request);
        let saved = saved_steps(&self.code.prefilter, haystack, request, found, taken);
        self.pool.spend(saved);
        let others = taken.saturating_sub(saved);
        let after = Patience {
            steps: after.steps.saturating_add(others),
            ..after
        };
        if after.taken > MOST_TRIED && after.taken < after.steps {
            return Kept::Runner(None);
        }
        Kept::Begun(after)
    }

    /// A search for an easy pattern whose groups are asked: by the runner, which begins where the automaton tells it.
    #[inline(never)]
    fn search_led(
        &self,
        haystack: &[u8],
        request: Request,
        kept: &mut Kept,
        cache: &mut Cache,
        work: &mut Work,
    ) -> Result<Option<Found>>
        requires followable { IsFollowable self.now haystack.now request }
        requires unanchored { request.anchored ≡ false }
        requires paired { returns_of work.old ≤ steps_of work.old }
        requires allowed { AllowsAllSteps self.now request work.old }
        requires kept { is_steps kept.old ≡ true → HoldsSteps self.now cache.old.steps }
        ensures answer { IfOk result (λ m. (on : Bool)
            → IsAnswerIn m cache.new (asked_of self.now haystack.now request on)) }
        ensures held { IfFound result (λ _. holds_groups cache.new.served ≡ true) }
        ensures counts { KeepsCounts self.now result work.old work.new }
        ensures idle { (on : Bool) → NoneTried (program_options self.now).seek
            (asked_of self.now haystack.now request on) → steps_of work.new ≡ steps_of work.old }
        ensures kept { IfOk result (λ _. is_steps kept.new ≡ true
            → HoldsSteps self.now cache.new.steps) }
        ensures left { IfOk result (λ _. keeps_no_table kept.new ≡ true) }
        ensures bounded { steps_of work.new ≤ steps_of work.old + step_bound self.now request }
        ensures refused { IfErr result (λ e. e ≡ Error.Memory) }
        ensures apart { cache.new.machine ≡ cache.old.machine }
    {
        let first = request.effective_start();
        let mut steps = self.steps_for(*kept, cache.steps.take(), haystack, first)?;
        cache.served = Engine::Runner;
        let led = self.run_led(haystack, request, &mut steps, &mut cache.runner, work)?;
        cache.steps = Some(steps);
        *kept = led.kept;
        Ok(led.found)
    }

    /// The same search, with these steps: they tell where the runner begins.
    fn run_led(
        &self,
        haystack: &[u8],
        request: Request,
        steps: &mut RememberedSteps,
        cache: &mut runner::Cache,
        work: &mut Work,
    ) -> Result<Led>
        requires followable { IsFollowable self.now haystack.now request }
        requires unanchored { request.anchored ≡ false }
        requires paired { returns_of work.old ≤ steps_of work.old }
        requires allowed { AllowsAllSteps self.now request work.old }
        requires kept { AreStepsOf self.now.code steps.old }
        ensures answer { IfOk result (λ led. (on : Bool) → answer_with (groups_in cache.new) led.found
            ≡ search (asked_of self.now haystack.now request on)) }
        ensures counts { KeepsCounts self.now result work.old work.new }
        ensures idle { (on : Bool) → NoneTried (program_options self.now).seek
            (asked_of self.now haystack.now request on) → steps_of work.new ≡ steps_of work.old }
        ensures kept { AreStepsOf self.now.code steps.new }
        ensures left { IfOk result (λ led. keeps_no_table led.kept ≡ true) }
        ensures bounded { steps_of work.new ≤ steps_of work.old + step_bound self.now request }
        ensures refused { IfErr result (λ e. e ≡ Error.Memory) }
    {
        let options = self.options.for_search();
        let cells = &mut steps.cells;
        let Ok(from) = automaton::find_candidate(&self.code, haystack, request, options, cells)
        else {
            return Err(Error::Memory);
        };
        if from.told > request.range_end {
            return Ok(Led {
                found: None,
                kept: Kept::Steps,
            });
        }
        let rest = Request {
            start: from.told,
            ..request
        };
        let before = work.steps();
        let mut table = None;
        let found = self.run(haystack, &rest, &mut table, cache, work)?;
        let attempts = Attempts {
            from,
            found,
            steps: work.steps() - before,
        };
        let kept = self.learn(haystack, request, attempts, steps, work);
        Ok(Led { found, kept })
    }

    /// What is kept after the runner searched from where the steps told. Where they did not tell where the match begins, or that there is
    /// none, those from the first place on are computed for later searches, as far as the search may take so many more steps. Where no memory
    /// is left for them, the runner serves alone from then on.
    fn learn(
        &self,
        haystack: &[u8],
        request: Request,
        attempts: Attempts,
        steps: &mut RememberedSteps,
        work: &mut Work,
    ) -> Kept
        requires followable { IsFollowable self.now haystack.now request }
        requires kept { AreStepsOf self.now.code steps.old }
        ensures kept { AreStepsOf self.now.code steps.new }
        ensures left { keeps_no_table result ≡ true }
        ensures steps { steps_of work.old ≤ steps_of work.new }
        ensures bounded { (steps_of work.new ≡ steps_of work.old) ⊎ (attempts.steps + steps_of work.new
            ≤ steps_of work.old + step_bound self.now request) }
        ensures idle { (on : Bool) → NoneTried (program_options self.now).seek
            (asked_of self.now haystack.now request on) → steps_of work.new ≡ steps_of work.old }
        ensures returns { returns_of work.new ≡ returns_of work.old }
        ensures units { units_of work.new ≡ units_of work.old }
    {
        let Attempts {
            from,
            found,
            steps: taken,
        } = attempts;
        let end = match found {
            Some(found) if found.position == from.told => {
                let twice = found.end.saturating_sub(from.told);
                return steps.lead_on(found.end, from.passed, twice);
            }
            Some(found) => found.end,
            None => request.range_end,
        };
        let (first, last) = (request.effective_start(), request.range_end);
        let places = (last + 1).saturating_sub(first);
        let left = places_left(self.code.len(), places, taken).min(MOST_LEARNT);
        if left == 0 {
            return Kept::Steps;
        }
        let part = Request {
            range_end: end.min(last).min(first.saturating_add(left - 1)),
            ..request
        };
        let options = self.options.for_search();
        let reached = work.steps();
        let cells = &mut steps.cells;
        if automaton::find(&self.code, haystack, part, options, cells, work).is_err() {
            return Kept::Runner(None);
        }
        if work.steps() > reached {
            return Kept::Steps;
        }
        steps.lead_on(end, 0, taken)
    }

    /// What the automaton serves as, which tells no group: none takes part where the code ends none, and else they are not asked.
    #[inline(always)]
    fn without_groups(&self) -> Engine
        ensures held { self.now.ungrouped ≡ true → holds_groups result ≡ true }
        ensures answer { (m : Option Found) (answer : Option Answer) (runner machine : List (Option Span))
            → IsFoundAs self.now.code m answer
            → answer_with (groups_by result runner machine (groups_of 0 answer)) m ≡ answer }
    {
        if self.ungrouped {
            Engine::WithoutGroups(self.code.groups)
        } else {
            Engine::Unasked
        }
    }

    /// How long the runner serves before the automaton does, from a search for this on, where this is kept. `None` where it does not: its
    /// patience is over, or its table would be large.
    fn patience(&self, kept: Kept, request: Request) -> Option<Patience> {
        match kept {
            Kept::Nothing => self.first_patience(request),
            Kept::Begun(patience)
                if !patience.is_over(0, request.effective_start(), request.range_end) => {
                Some(patience)
            }
            _ => None,
        }
    }

    /// The same from a first search on.
    fn first_patience(&self, request: Request) -> Option<Patience> {
        let computed = self.code.len().saturating_mul(WORTH);
        let steps = self.pool.worth(computed.clamp(LEAST_WORTH, MOST_WORTH))?;
        let first = request.effective_start();
        let places = request.range_end.saturating_sub(first);
        if places.saturating_mul(self.code.marks()) > TABLE {
            return None;
        }
        Some(Patience {
            steps,
            taken: 0,
            first,
            is_short: self.is_short,
        })
    }

    /// The first part of a search alone, by the runner as long as its patience lasts. `None` where it has none.
    #[inline(always)]
    fn begin_alone(
        &self,
        haystack: &[u8],
        request: Request,
        work: &mut Work,
    ) -> Result<Option<Begun>>
        requires inside { request.range_end ≤ length haystack.now }
        requires unanchored { request.anchored ≡ false }
        requires easy { program_is_easy self.now ≡ true }
        requires room { HasRoomFor self.now request work.old }
        requires allowed { AllowsAllSteps self.now request work.old }
        ensures begun { IfOk result (λ b. IfSome b (λ begun. (groups : List (Option Span))
            × IsBegun self.now haystack.now request groups work.old work.new begun)) }
        ensures none { IfOk result (λ b. b ≡ None → work.new ≡ work.old) }
        ensures counts { KeepsCounts self.now result work.old work.new }
        ensures idle { (on : Bool) → NoneTried (program_options self.now).seek
            (asked_of self.now haystack.now request on) → steps_of work.new ≡ steps_of work.old }
        ensures bounded { steps_of work.new ≤ steps_of work.old + step_bound self.now request }
        ensures refused { IfErr result (λ e. e ≡ Error.Memory) }
    {
        let Some(patience) = self.first_patience(request) else {
            return Ok(None);
        };
        let before = work.steps();
        let mut cache = runner::Cache::new(*self.text.allocator());
        let begun = self.begin(haystack, request, patience, &mut cache, work)?;
        if let Begun::Ended(found) = &begun {
            let taken = work.steps() - before;
            if is_short_text(&request) || !patience.is_quick(taken, end_of(*found, request)) {
                self.pool.spend(taken.saturating_add(SEARCH));
            }
        }
        Ok(Some(begun))
    }

    /// The search for an easy pattern by the runner, as long as its patience lasts. What it leaves has the same answer, and its steps and
    /// those that the rest may take are together no more than those of one search.
    #[inline(never)]
    fn begin(
        &self,
        haystack: &[u8],
        request: Request,
        patience: Patience,
        cache: &mut runner::Cache,
        work: &mut Work,
    ) -> Result<Begun>
        requires inside { request.range_end ≤ length haystack.now }
        requires unanchored { request.anchored ≡ false }
        requires easy { program_is_easy self.now ≡ true }
        requires room { HasRoomFor self.now request work.old }
        requires allowed { AllowsAllSteps self.now request work.old }
        ensures begun { IfOk result (IsBegun self.now haystack.now request (groups_in cache.new)
            work.old work.new) }
        ensures counts { KeepsCounts self.now result work.old work.new }
        ensures idle { (on : Bool) → NoneTried (program_options self.now).seek
            (asked_of self.now haystack.now request on) → steps_of work.new ≡ steps_of work.old }
        ensures bounded { steps_of work.new ≤ steps_of work.old + step_bound self.now request }
        ensures refused { IfErr result (λ e. e ≡ Error.Memory) }
    {
        let wanted = runner::Wanted {
            request,
            options: self.options.for_search(),
            patience: Some(patience),
        };
        let mut table = None;
        match runner::search(&self.code, haystack, wanted, &mut table, cache, work) {
            Ok(searched) if searched.found.is_none() && searched.reached <= request.range_end => {
                Ok(Begun::Left(Request {
                    start: searched.reached,
                    ..request
                }))
            }
            Ok(searched) => Ok(Begun::Ended(searched.found)),
            Err(refusal) => Err(error_of(refusal)),
        }
    }

    /// Whether the items of the code are read where a match may begin: it is straight, no table is kept, and where it ends with a loop,
    /// each turn goes from boundary to boundary.
    #[inline(always)]
    fn is_read(&self, asked: &Asked<'_>, kept: &Kept) -> bool
        ensures straight { result ≡ true → is_some self.now.straight ≡ true }
        ensures places { result ≡ true → (item : ℕ) → self.now.straight ≡ Some (Loop item)
            → KeepsPlaces asked.now.haystack.now self.now.code.meaning
            (search_options self.now.options).on_boundaries }
        ensures none { result ≡ true → table_kept kept.now ≡ None }
    {
        let Some(straight) = self.straight else {
            return false;
        };
        (straight.is_match() || self.keeps_places(asked.text)) && kept.table().is_none()
    }

    /// The search for an easy pattern whose code is straight: its items are read, and its tests made, at each place where a match may
    /// begin. No group takes part.
    #[inline(never)]
    fn read(&self, haystack: &[u8], request: &Request, work: &mut Work) -> Option<Found>
        requires inside { request.now.range_end ≤ length haystack.now }
        requires easy { program_is_easy self.now ≡ true }
        requires straight { is_some self.now.straight ≡ true }
        requires places { (item : ℕ) → self.now.straight ≡ Some (Loop item)
            → KeepsPlaces haystack.now self.now.code.meaning
            (search_options self.now.options).on_boundaries }
        ensures answer { (on : Bool) → answer_with (replicate (program_groups self.now) None) result
            ≡ search (asked_of self.now haystack.now request.now on) }
        ensures counts { AddsSteps (step_bound self.now request.now) work.old work.new }
        ensures idle { (on : Bool) → NoneTried (program_options self.now).seek
            (asked_of self.now haystack.now request.now on) → steps_of work.new ≡ steps_of work.old }
    {
        let first = request.effective_start();
        if first > request.range_end {
            return None;
        }
        let (last, end) = (request.last_position(), request.range_end);
        let prefilter = &self.code.prefilter;
        let suppressed = self.for_search.suppressed_ends(*request);
        let mut region = None;
        let mut place = next_opening(prefilter, haystack, end, first, last, &mut region);
        'places: while place <= last {
            let past = past_straight(&self.code, haystack, suppressed, place, work);
            if let Some(found) = self.match_to(haystack, end, place, past) {
                return Some(self.go_round(haystack, end, found, work));
            }
            place = next_opening(prefilter, haystack, end, place + 1, last, &mut region);
        }
        None
    }

    /// A match of the parts of straight code, led on by the turns of the loop that it ends with, if it does. Each ends at `range_end`
    /// or before.
    #[inline(always)]
    fn go_round(&self, haystack: &[u8], range_end: usize, found: Found, work: &mut Work) -> Found
        ensures led { (x : Context) → x.meaning ≡ self.now.code.meaning → x.haystack ≡ haystack.now
            → IfSome self.now.straight (λ end. result ≡ record found
            { end = past_end x (instrs_of self.now.code) range_end end found.end }) }
        ensures counts { AddsSteps (2 * (range_end - found.end) + 1) work.old work.new }
    {
        let Some(straight) = self.straight else {
            return found;
        };
        match straight {
            StraightEnd::AtMatch => found,
            StraightEnd::Loop(item) => {
                let places = found.end..range_end;
                let end = past_turns(&self.code, haystack, item, places, work);
                Found { end, ..found }
            }
        }
    }

    /// Whether a search of a haystack of this form goes from boundary to boundary: text by characters, or bytes one by one.
    fn keeps_places(&self, text: bool) -> bool
        ensures { result ≡ true → (haystack : List ℕ) → (text ≡ true → IsUtf8 haystack)
            → KeepsPlaces haystack
            self.now.code.meaning (search_options self.now.options).on_boundaries }
    {
        let on_boundaries = self.options.bytes_mode.keeps_characters();
        match self.code.meaning {
            Meaning::Bytes => !on_boundaries,
            _ => text && on_boundaries,
        }
    }

    /// Whether the automaton follows the code in a haystack of this form.
    fn can_follow(&self, text: bool) -> bool
        ensures plain { result ≡ true → ArePlain (instrs_of self.now.code) }
        ensures places { result ≡ true → (haystack : List ℕ) → (text ≡ true → IsUtf8 haystack)
            → KeepsPlaces haystack
            self.now.code.meaning (search_options self.now.options).on_boundaries }
    {
        if !self.plain {
            return false;
        }
        self.keeps_places(text)
    }

    /// Whether the automaton serves a search, or leads it where groups are asked: where it follows the code, the search is not anchored, and
    /// it is worth its steps. A first search is, if it may take so many steps and the runner does not leap. In a short text the automaton
    /// may lead any search: it does so where that was seen to save steps (`saved_steps`).
    #[inline(always)]
    fn is_followed(&self, asked: &Asked<'_>, kept: &Kept) -> bool
        ensures plain { result ≡ true → ArePlain (instrs_of self.now.code) }
        ensures places { result ≡ true → KeepsPlaces asked.now.haystack.now self.now.code.meaning
            (search_options self.now.options).on_boundaries }
        ensures none { result ≡ true → table_kept kept.now ≡ None }
        ensures unanchored { result ≡ true → asked.now.request.now.anchored ≡ false }
    {
        let Some(least) = self.least_steps else {
            return false;
        };
        if self.is_led(asked) && !is_short_text(asked.request) && !may_lead(&self.code.prefilter) {
            return false;
        }
        if asked.request.anchored || !kept.may_be_followed() {
            return false;
        }
        if matches!(kept, Kept::Nothing) {
            // a search alone, or the first of a list
            let (first, end) = (asked.request.effective_start(), asked.request.range_end);
            let most_steps = self.code.len().saturating_mul(end.saturating_sub(first));
            if most_steps < least || leaps(&self.code.prefilter, asked.haystack, first, end) {
                return false;
            }
        }
        self.can_follow(asked.text)
    }

    /// The same of a search alone, whose groups are not asked. In a short text what a search takes besides its steps decides: the automaton's
    /// lie ready, and the runner asks for memory anew. But straight code is read.
    #[inline(always)]
    fn is_followed_alone(&self, asked: &Asked<'_>) -> bool
        ensures plain { result ≡ true → ArePlain (instrs_of self.now.code) }
        ensures places { result ≡ true → KeepsPlaces asked.now.haystack.now self.now.code.meaning
            (search_options self.now.options).on_boundaries }
        ensures unanchored { result ≡ true → asked.now.request.now.anchored ≡ false }
    {
        if !is_short_text(asked.request) {
            return self.is_followed(asked, &Kept::Nothing);
        }
        if asked.request.anchored || self.straight.is_some() {
            return false;
        }
        self.can_follow(asked.text)
    }

    /// Whether the limit of steps allows all that an easy search takes at most, besides what was done before.
    #[inline(always)]
    fn allows_all_steps(&self, request: Request, work: &Work) -> bool
        requires inside { request.range_end < usize.MAX }
        ensures { result ≡ true → AllowsAllSteps self.now request work.now }
    {
        if self.options.step_limit.is_none() {
            return true;
        }
        let places = (request.range_end + 1).saturating_sub(request.effective_start());
        match self.code.len().checked_mul(places) {
            Some(steps) => work.has_work_for(steps, self.options.step_limit),
            None => false,
        }
    }

    /// Steps of the automaton for searches of a haystack, of which the first begins at `first`, a byte offset: those that are held, where
    /// they are kept, else those that a search left, and else new ones, by which searches walk on where matches may begin often there.
    fn steps_for(
        &self,
        kept: Kept,
        held: Option<Box<RememberedSteps>>,
        haystack: &[u8],
        first: usize,
    ) -> std::result::Result<Box<RememberedSteps>, AllocError>
        requires kept { is_steps kept ≡ true → HoldsSteps self.now held }
        ensures { IfOk result (λ steps. AreStepsOf self.now.code steps.value) }
    {
        if let (Kept::Steps, Some(steps)) = (kept, held) {
            return Ok(steps);
        }
        let mut steps = match self.pool.take() {
            Some(left) => left,
            None => {
                let walks = begin_often(&self.code.prefilter, haystack, first, haystack.len());
                RememberedSteps::new(*self.text.allocator(), walks)?
            }
        };
        steps.go_on(haystack.len(), first);
        Ok(steps)
    }

    /// Leaves what is kept to later searches, with the steps that are held.
    pub(crate) fn leave(&self, kept: Kept, held: &mut Option<Box<RememberedSteps>>)
        requires kept { is_steps kept ≡ true → HoldsSteps self.now held.old }
    {
        if !kept.is_steps() {
            return;
        }
        if let Some(steps) = held.take() {
            self.pool.leave(steps);
        }
    }

    /// Leaves what the attempts in one haystack found out to those in others. The notes are given up.
    pub fn leave_notes(&self, notes: Box<AttemptNotes>)
        requires kept { is_steps notes.value.kept ≡ true → HoldsSteps self.now notes.value.steps }
    {
        let mut notes = notes;
        self.leave(notes.kept, &mut notes.steps);
    }

    /// The search for an easy pattern, by the automaton: what it finds, without its groups.
    #[inline(always)]
    fn follow(
        &self,
        haystack: &[u8],
        request: Request,
        kept: &mut Kept,
        steps: &mut RememberedSteps,
        work: &mut Work,
    ) -> Result<Option<Found>>
        requires followable { IsFollowable self.now haystack.now request }
        requires paired { returns_of work.old ≤ steps_of work.old }
        requires allowed { AllowsAllSteps self.now request work.old }
        requires kept { AreStepsOf self.now.code steps.old }
        ensures answer { IfOk result (λ m. (on : Bool)
            → IsFoundAs self.now.code m (search (asked_of self.now haystack.now request on))) }
        ensures counts { KeepsCounts self.now result work.old work.new }
        ensures idle { (on : Bool) → NoneTried (program_options self.now).seek
            (asked_of self.now haystack.now request on) → steps_of work.new ≡ steps_of work.old }
        ensures kept { AreStepsOf self.now.code steps.new }
        ensures left { keeps_no_table kept.new ≡ true }
        ensures bounded { steps_of work.new ≤ steps_of work.old + step_bound self.now request }
        ensures returns { returns_of work.new ≡ returns_of work.old }
        ensures units { units_of work.new ≡ units_of work.old }
        ensures refused { IfErr result (λ e. e ≡ Error.Memory) }
    {
        *kept = Kept::Steps;
        let options = self.options.for_search();
        match automaton::find(
            &self.code,
            haystack,
            request,
            options,
            &mut steps.cells,
            work,
        ) {
            Ok(found) => {
                if !steps.serve_on(end_of(found, request)) {
                    *kept = Kept::Runner(None);
                }
                Ok(found)
            }
            Err(_) => Err(Error::Memory),
        }
    }

    /// Whether a byte that the pattern requires was looked for, and does not stand in the haystack: then nothing is found.
    #[inline]
    fn is_hopeless(&self, asked: &Asked<'_>, known: &mut KnownBytes) -> bool
        requires known { AreKnown known.old asked.now.haystack.now }
        ensures known { AreKnown known.new asked.now.haystack.now }
        ensures none { result ≡ true → search (query_in self.now asked.now) ≡ None }
        ensures seeks { result ≡ false
            → is_hopeless self.now (query_in self.now asked.now) ≡ false }
        ensures hard { IsHardProgram self.now → result ≡ true
            → is_hopeless self.now (query_in self.now asked.now) ≡ true }
    {
        if !self.looks_for_required(asked) {
            return false;
        }
        let start = asked.request.effective_start();
        self.required.are_lacking(asked.haystack, start, known)
    }

    /// Whether a search begins with a look for what the pattern requires: where it seeks, and for an easy pattern also where all of
    /// the haystack is searched. But a search for an easy pattern that finds nothing may end as soon as that look does: by the text that each
    /// match begins with where the haystack is short, and else since a match starts at its start alone.
    #[inline]
    fn looks_for_required(&self, asked: &Asked<'_>) -> bool
        ensures seeks { (program_options self.now).seek ≡ true → result ≡ true }
        ensures unasked { IsHardProgram self.now → result ≡ (program_options self.now).seek }
    {
        if self.options.seek {
            return true;
        }
        let (bytes, request) = (asked.haystack.len(), asked.request);
        if !self.easy || request.effective_start() > 0 {
            return false;
        }
        let prefilter = &self.code.prefilter;
        let ends_soon = if bytes < SHORT_HAYSTACK {
            prefilter.has_text()
        } else {
            prefilter.only_at_start()
        };
        !request.anchored && request.range_end == bytes && !ends_soon
    }

    /// The match that an attempt at one position finds, from the effective start of the request on: `\G` may hold at the effective
    /// start, and not at the position. Its groups stand in `cache` then.
    ///
    /// Under `seek` a position that a search passes over is not tried, and nothing is found there. What is learnt of the haystack's
    /// bytes stays in `cache`, so that the attempts in one haystack look for each byte once. What attempts with this program found
    /// out in `notes` is not followed again: each starts where the match before ended, or where nothing was found at the position
    /// before, or later. So for an easy pattern all of them that find nothing take no more steps together than one search. What is
    /// done is added to the counts of `work`, and not to those in `cache`.
    ///
    /// It is refused as [`Program::search`] is, for what the attempt takes.
    pub fn attempt_at(
        &self,
        asked: &Asked<'_>,
        position: usize,
        notes: &mut AttemptNotes,
        cache: &mut AttemptCache,
        work: &mut Work,
    ) -> Result<Option<Found>>
        requires tries { IsPosition asked.now.request.now position }
        requires room { HasRoomFor self.now
            (record asked.now.request.now { start = position }) work.old }
        requires known { AreKnown cache.old.known asked.now.haystack.now }
        requires notes { KeepsNotes self.now
            asked.now.haystack.now asked.now.request.now position notes.old }
        ensures known { AreKnown cache.new.known asked.now.haystack.now }
        ensures counted { cache.new.work ≡ cache.old.work }
        ensures notes { LeavesNotes self.now asked.now position result notes.new }
        ensures bounded { program_is_easy self.now ≡ true → steps_of work.new
            ≤ steps_of work.old + notes_to_go self.now asked.now.request.now position notes.old }
        ensures spent { program_is_easy self.now ≡ true → IfOk result (λ m. IfNone m
            (steps_of work.new + notes_ahead self.now asked.now.request.now (position + 1) notes.new
            ≤ steps_of work.old + notes_to_go self.now asked.now.request.now position notes.old)) }
        ensures answer { IfOk result
            (λ m. IsAttemptIn m cache.new.engines (query_in self.now asked.now) position) }
        ensures stands { IfFound result (StandsIn self.now asked.now) }
        ensures counts { KeepsCounts self.now result work.old work.new }
        ensures idle { tried_by self.now (query_in self.now asked.now) position ≡ false
            → steps_of work.new ≡ steps_of work.old }
        ensures units { units_of work.old ≤ units_of work.new }
        ensures easy { program_is_easy self.now ≡ true → units_of work.new ≡ units_of work.old }
        ensures refused { IfErr result
            (RefusesAttempt self.now (query_in self.now asked.now) position) }
        ensures allowed { IfOk result
            (λ _. AllowsAttempt self.now (query_in self.now asked.now) position) }
        ensures heeds { HeedsStackLimit self.now cache.old.engines cache.new.engines }
    {
        if !self.easy {
            return self.attempt_hard(asked, position, cache, work);
        }
        if !self.is_tried(asked, position, &mut cache.known) {
            return Ok(None);
        }
        self.run_at(asked, position, notes, &mut cache.engines, work)
    }

    /// The match that an attempt at one position finds, as [`Program::attempt_at`], for a hard pattern, which goes on with no notes.
    pub fn attempt_hard(
        &self,
        asked: &Asked<'_>,
        position: usize,
        cache: &mut AttemptCache,
        work: &mut Work,
    ) -> Result<Option<Found>>
        requires hard { IsHardProgram self.now }
        requires tries { IsPosition asked.now.request.now position }
        requires room { HasRoomFor self.now
            (record asked.now.request.now { start = position }) work.old }
        requires known { AreKnown cache.old.known asked.now.haystack.now }
        ensures known { AreKnown cache.new.known asked.now.haystack.now }
        ensures counted { cache.new.work ≡ cache.old.work }
        ensures answer { IfOk result
            (λ m. IsAttemptIn m cache.new.engines (query_in self.now asked.now) position) }
        ensures stands { IfFound result (StandsIn self.now asked.now) }
        ensures counts { KeepsCounts self.now result work.old work.new }
        ensures idle { tried_by self.now (query_in self.now asked.now) position ≡ false
            → steps_of work.new ≡ steps_of work.old }
        ensures units { units_of work.old ≤ units_of work.new }
        ensures refused { IfErr result
            (RefusesAttempt self.now (query_in self.now asked.now) position) }
        ensures allowed { IfOk result
            (λ _. AllowsAttempt self.now (query_in self.now asked.now) position) }
        ensures heeds { HeedsStackLimit self.now cache.old.engines cache.new.engines }
    {
        if !self.is_tried(asked, position, &mut cache.known) {
            return Ok(None);
        }
        self.backtrack_at(asked, position, &mut cache.engines, work)
    }

    /// The attempt at one position for an easy pattern, by the runner, which goes on with the notes.
    fn run_at(
        &self,
        asked: &Asked<'_>,
        position: usize,
        notes: &mut AttemptNotes,
        cache: &mut Cache,
        work: &mut Work,
    ) -> Result<Option<Found>>
        requires tries { IsPosition asked.now.request.now position }
        requires easy { program_is_easy self.now ≡ true }
        requires room { HasRoomFor self.now
            (record asked.now.request.now { start = position }) work.old }
        requires notes { KeepsNotes self.now
            asked.now.haystack.now asked.now.request.now position notes.old }
        ensures notes { LeavesNotes self.now asked.now position result notes.new }
        ensures answer { IfOk result
            (λ m. IsAttemptIn m cache.new (query_in self.now asked.now) position) }
        ensures bounded { steps_of work.new
            ≤ steps_of work.old + notes_to_go self.now asked.now.request.now position notes.old }
        ensures spent { IfOk result (λ m. IfNone m
            (steps_of work.new + notes_ahead self.now asked.now.request.now (position + 1) notes.new
            ≤ steps_of work.old + notes_to_go self.now asked.now.request.now position notes.old)) }
        ensures counts { KeepsCounts self.now result work.old work.new }
        ensures units { units_of work.new ≡ units_of work.old }
        ensures refused { IfErr result (RefusesEasy self.now) }
        ensures apart { cache.new.machine ≡ cache.old.machine }
    {
        let from_position = anchored_at(*asked.request, position);
        let mut table = notes.kept.table();
        cache.served = Engine::Runner;
        cache.runner.swap_notes(&mut notes.notes);
        let runner = &mut cache.runner;
        let found = self.run(asked.haystack, &from_position, &mut table, runner, work);
        cache.runner.swap_notes(&mut notes.notes);
        notes.kept = Kept::Runner(table);
        found
    }

    /// The match that an attempt at one position finds, as [`Program::attempt_at`], where the automaton may serve. It is for attempts
    /// each of which starts where a match of some program ended: all of them together take time in proportion to the haystack, but the
    /// steps of those that find nothing are not bounded by those of one search.
    ///
    /// It is refused as [`Program::attempt_at`] is.
    pub fn attempt_in_list(
        &self,
        asked: &Asked<'_>,
        position: usize,
        notes: &mut AttemptNotes,
        cache: &mut AttemptCache,
        work: &mut Work,
    ) -> Result<Option<Found>>
        requires tries { IsPosition asked.now.request.now position }
        requires room { HasRoomFor self.now
            (record asked.now.request.now { start = position }) work.old }
        requires known { AreKnown cache.old.known asked.now.haystack.now }
        requires notes { KeepsNotes self.now
            asked.now.haystack.now asked.now.request.now position notes.old }
        ensures known { AreKnown cache.new.known asked.now.haystack.now }
        ensures counted { cache.new.work ≡ cache.old.work }
        ensures notes { LeavesNotes self.now asked.now position result notes.new }
        ensures answer { IfOk result
            (λ m. IsAttemptIn m cache.new.engines (query_in self.now asked.now) position) }
        ensures counts { KeepsCounts self.now result work.old work.new }
        ensures units { units_of work.old ≤ units_of work.new }
        ensures refused { IfErr result
            (RefusesAttempt self.now (query_in self.now asked.now) position) }
        ensures allowed { IfOk result
            (λ _. AllowsAttempt self.now (query_in self.now asked.now) position) }
    {
        let from_position = anchored_at(*asked.request, position);
        let followed = self.is_followed_at(asked, from_position, &notes.kept, work);
        if !followed {
            return self.attempt_at(asked, position, notes, cache, work);
        }
        let Some(patience) = self.patience(notes.kept, from_position) else {
            return self.follow_at(asked, position, notes, &mut cache.engines, work);
        };
        let before = work.steps();
        let found = self.attempt_at(asked, position, notes, cache, work);
        let taken = (work.steps() - before).saturating_add(SEARCH);
        self.pool.spend(taken);
        notes.kept = Kept::Begun(patience.after(taken));
        found
    }

    /// Whether the automaton may serve an attempt of a list: where it follows the code, and the limit of steps allows all. That is so from
    /// the first attempt on or never, and no longer once it was not.
    fn is_followed_at(
        &self,
        asked: &Asked<'_>,
        from_position: Request,
        kept: &Kept,
        work: &Work,
    ) -> bool
        requires inside { from_position.range_end < usize.MAX }
        ensures allowed { result ≡ true → AllowsAllSteps self.now from_position work.now }
        ensures easy { result ≡ true → program_is_easy self.now ≡ true }
        ensures plain { result ≡ true → ArePlain (instrs_of self.now.code) }
        ensures whole { result ≡ true → EndsNoGroup (instrs_of self.now.code) }
        ensures places { result ≡ true → KeepsPlaces asked.now.haystack.now self.now.code.meaning
            (search_options self.now.options).on_boundaries }
    {
        if !self.easy || !self.ungrouped || !kept.may_be_followed() {
            return false;
        }
        self.can_follow(asked.text) && self.allows_all_steps(from_position, work)
    }

    /// The attempt at one position for an easy pattern, by the automaton, which goes on with the notes.
    fn follow_at(
        &self,
        asked: &Asked<'_>,
        position: usize,
        notes: &mut AttemptNotes,
        cache: &mut Cache,
        work: &mut Work,
    ) -> Result<Option<Found>>
        requires tries { IsPosition asked.now.request.now position }
        requires easy { program_is_easy self.now ≡ true }
        requires plain { ArePlain (instrs_of self.now.code) }
        requires whole { EndsNoGroup (instrs_of self.now.code) }
        requires places { KeepsPlaces asked.now.haystack.now self.now.code.meaning
            (search_options self.now.options).on_boundaries }
        requires room { HasRoomFor self.now
            (record asked.now.request.now { start = position }) work.old }
        requires allowed { AllowsAllSteps self.now
            (record asked.now.request.now { start = position; anchored = true }) work.old }
        requires notes { KeepsNotes self.now
            asked.now.haystack.now asked.now.request.now position notes.old }
        ensures notes { LeavesNotes self.now asked.now position result notes.new }
        ensures answer { IfOk result
            (λ m. IsAttemptIn m cache.new (query_in self.now asked.now) position) }
        ensures counts { KeepsCounts self.now result work.old work.new }
        ensures units { units_of work.new ≡ units_of work.old }
        ensures refused { IfErr result (RefusesEasy self.now) }
    {
        let from_position = anchored_at(*asked.request, position);
        let first = from_position.effective_start();
        let mut steps = self.steps_for(notes.kept, notes.steps.take(), asked.haystack, first)?;
        cache.served = Engine::WithoutGroups(self.code.groups);
        let kept = &mut notes.kept;
        let found = self.follow(asked.haystack, from_position, kept, &mut steps, work);
        notes.steps = Some(steps);
        found
    }

    /// The match that an attempt at one position finds, as [`Program::attempt_at`], for an easy pattern whose code is straight: its items
    /// are read there, without an engine and without notes. `None` for other patterns, and where the limit of steps might be met: then
    /// nothing was done.
    #[inline(always)]
    pub fn read_straight(
        &self,
        asked: &Asked<'_>,
        position: usize,
        cache: &mut Cache,
        work: &mut Work,
    ) -> Option<Option<Found>>
        requires tries { IsPosition asked.now.request.now position }
        ensures easy { IfSome result (λ _. program_is_easy self.now ≡ true) }
        ensures answer { IfSome result
            (λ m. IsAttemptIn m cache.new (query_in self.now asked.now) position) }
        ensures counts { AddsSteps (program_length self.now) work.old work.new }
        ensures within { HeedsStepLimit self.now work.old work.new }
        ensures none { IfNone result (cache.new ≡ cache.old) }
        ensures untried { IfNone result (work.new ≡ work.old) }
    {
        let Some(straight) = self.straight else {
            return None;
        };
        if !self.easy || !straight.is_match() {
            return None;
        }
        let request = *asked.request;
        if !self.allows_all_steps(anchored_at(request, position), work) {
            return None;
        }
        let suppressed = self.for_search.suppressed_ends(request);
        let past = past_straight(&self.code, asked.haystack, suppressed, position, work);
        cache.served = Engine::WithoutGroups(self.code.groups);
        Some(self.match_to(asked.haystack, request.range_end, position, past))
    }

    /// The search of an anchored request for an easy pattern, as far as steps tell it that the automaton remembers.
    fn recall(
        &self,
        haystack: &[u8],
        request: Request,
        steps: &RememberedSteps,
    ) -> Option<Option<Found>>
        requires followable { IsFollowable self.now haystack.now request }
        requires whole { EndsNoGroup (instrs_of self.now.code) }
        requires anchored { request.anchored ≡ true }
        requires kept { AreStepsOf self.now.code steps.now }
        ensures { IfSome result (λ m. (on : Bool)
            → answer_with (replicate (program_groups self.now) None) m
            ≡ search (asked_of self.now haystack.now request on)) }
    {
        let options = self.options.for_search();
        let cells = &steps.cells;
        let found = automaton::find_told(&self.code, haystack, request, options, cells)?;
        Some(found)
    }

    /// The match that an attempt at one position finds, as [`Program::attempt_in_list`], where steps tell it that the automaton
    /// remembers in the notes. `None` elsewhere. Nothing is counted, and no limit is met.
    pub fn find_told(
        &self,
        asked: &Asked<'_>,
        position: usize,
        notes: &AttemptNotes,
        cache: &mut Cache,
    ) -> Option<Option<Found>>
        requires tries { IsPosition asked.now.request.now position }
        requires notes { KeepsNotes self.now
            asked.now.haystack.now asked.now.request.now position notes.now }
        ensures easy { IfSome result (λ _. program_is_easy self.now ≡ true) }
        ensures answer { IfSome result
            (λ m. IsAttemptIn m cache.new (query_in self.now asked.now) position) }
    {
        if !self.easy || !self.ungrouped || self.options.step_limit.is_some() {
            return None;
        }
        if !self.can_follow(asked.text) {
            return None;
        }
        let steps = notes.kept_steps()?;
        let from_position = anchored_at(*asked.request, position);
        let found = self.recall(asked.haystack, from_position, steps)?;
        cache.served = Engine::WithoutGroups(self.code.groups);
        Some(found)
    }

    /// The match of an easy pattern from a position up to a place, if there is one, and such a match is accepted. It ends at `range_end`
    /// or before.
    #[inline]
    fn match_to(
        &self,
        haystack: &[u8],
        range_end: usize,
        position: usize,
        past: Option<usize>,
    ) -> Option<Found>
        requires easy { program_is_easy self.now ≡ true }
        ensures { (request : Request) (on : Bool) → request.range_end ≡ range_end
            → answer_with (replicate (program_groups self.now) None) result
            ≡ answer_to (asked_of self.now haystack.now request on) position past }
    {
        let end = past?;
        let on_boundaries = self.options.bytes_mode.keeps_characters();
        let begins = is_match_boundary(on_boundaries, haystack, position);
        let ends = is_match_boundary(on_boundaries, haystack, end);
        if end <= range_end && begins && ends {
            return Some(Found {
                position,
                start: position,
                end,
            });
        }
        None
    }

    /// Whether an attempt at a position is made: always, but under `seek` only where a byte stands that a match may start with, and
    /// where the haystack lacks no byte that the pattern requires.
    fn is_tried(&self, asked: &Asked<'_>, position: usize, known: &mut KnownBytes) -> bool
        requires known { AreKnown known.old asked.now.haystack.now }
        ensures known { AreKnown known.new asked.now.haystack.now }
        ensures tried { result ≡ tried_by self.now (query_in self.now asked.now) position }
    {
        if !self.options.seek {
            return true;
        }
        let haystack = asked.haystack;
        let next = byte_at(&haystack[..asked.request.range_end], position);
        self.may_start_before(next) && !self.required.are_lacking(haystack, position, known)
    }

    /// The search for an easy pattern, by the memoised runner. It has no `\G`. `kept` is the table that searches before left, if one is
    /// kept, and then what this one leaves.
    #[inline(never)]
    fn run(
        &self,
        haystack: &[u8],
        request: &Request,
        kept: &mut Option<KeptTable>,
        cache: &mut runner::Cache,
        work: &mut Work,
    ) -> Result<Option<Found>>
        requires inside { request.now.range_end ≤ length haystack.now }
        requires easy { program_is_easy self.now ≡ true }
        requires paired { returns_of work.old ≤ steps_of work.old }
        requires kept { IfSome kept.old (λ k. KeepsTable
            self.now haystack.now request.now k (effective_start request.now) cache.old) }
        ensures answer { IfOk result (λ m. (on : Bool)
            → answer_with (groups_in cache.new) m
            ≡ search (asked_of self.now haystack.now request.now on)) }
        ensures counts { KeepsCounts self.now result work.old work.new }
        ensures idle { (on : Bool) → NoneTried (program_options self.now).seek
            (asked_of self.now haystack.now request.now on) → steps_of work.new ≡ steps_of work.old }
        ensures refused { IfErr result (RefusesEasy self.now) }
        ensures here { IfFound result (λ f. f.start ≡ f.position) }
        ensures ordered { IfFound result (λ f. effective_start request.now ≤ f.end) }
        ensures kept { IfOk result (λ m. IfSome kept.new (λ k. KeepsTable
            self.now haystack.now request.now k (place_kept m request.now) cache.new)) }
        ensures left { IfFound result (λ f. kept.new
            ≡ Some (record { base = table_base kept.old request.now; from = f.end + 1 })) }
        ensures dropped { IfErr result (λ _. kept.new ≡ None) }
        ensures bounded { steps_of work.new
            ≤ steps_of work.old + most_with self.now request.now kept.old cache.old }
        ensures passed { IfOk result (λ m. IfNone m (steps_of work.new
            + steps_from kept.new self.now.code request.now (past_tried request.now) (table_in cache.new)
            ≤ steps_of work.old + most_with self.now request.now kept.old cache.old)) }
        ensures spent { IfFound result (λ f. steps_of work.new + steps_ahead self.now.code
            request.now (table_base kept.old request.now) f.end (table_in cache.new)
            ≤ steps_of work.old
            + (ahead_with self.now request.now kept.old cache.old + program_length self.now)) }
        ensures units { units_of work.new ≡ units_of work.old }
        ensures unlimited { kept.old ≡ None → AllowsAllSteps self.now request.now work.old
            → IsOutOfSteps result → ⊥ }
    {
        let options = self.options.for_search();
        let wanted = runner::Wanted {
            request: *request,
            options,
            patience: None,
        };
        match runner::search(&self.code, haystack, wanted, kept, cache, work) {
            Ok(searched) => Ok(searched.found),
            Err(refusal) => Err(error_of(refusal)),
        }
    }

    /// The search for a hard pattern, by the backtracking machine. `is_kept` says that the search before in `cache` was of the same
    /// haystack.
    #[inline(never)]
    fn backtrack(
        &self,
        asked: &Asked<'_>,
        is_kept: bool,
        cache: &mut machine::Cache,
        work: &mut Work,
    ) -> Result<Option<Found>>
        ghost p: { Pattern }
        requires of { p ≡ program_pattern self.now }
        requires hard { IsHardProgram self.now }
        requires hopeful { is_hopeless self.now (query_in self.now asked.now) ≡ false }
        requires room { HasRoomFor self.now asked.now.request.now work.old }
        requires kept { is_kept ≡ true
            → KnowsLastLines asked.now.haystack.now (lines_held cache.old) }
        ensures answer { IfOk result (λ m.
            answer_with (groups_held cache.new) m ≡ search (query_in self.now asked.now)) }
        ensures kept { IfOk result (λ m. IfSome m
            (λ _. KnowsLastLines asked.now.haystack.now (lines_held cache.new))) }
        ensures counts { KeepsCounts self.now result work.old work.new }
        ensures idle { NoneTried (program_options self.now).seek (query_in self.now asked.now)
            → steps_of work.new ≡ steps_of work.old }
        ensures returned { CountsReturns self.now (query_in self.now asked.now)
            result work.old work.new }
        ensures refused { IfErr result
            (λ e. RefusesQuery self.now (query_in self.now asked.now) e) }
        ensures heeds { HeedsLimit (program_stack_limit self.now) cache.old cache.new }
    {
        let wanted = machine::Asked {
            code: &self.code,
            prices: &self.prices,
            request: *asked.request,
            options: &self.for_search,
            continues: asked.continues,
        };
        match machine::search(&wanted, asked.haystack, is_kept, cache, work) {
            Ok(found) => Ok(found),
            Err(refusal) => Err(error_of(refusal)),
        }
    }

    /// The attempt at one position for a hard pattern, by the backtracking machine.
    fn backtrack_at(
        &self,
        asked: &Asked<'_>,
        position: usize,
        cache: &mut Cache,
        work: &mut Work,
    ) -> Result<Option<Found>>
        ghost p: { Pattern }
        requires tries { IsPosition asked.now.request.now position }
        requires of { p ≡ program_pattern self.now }
        requires hard { IsHardProgram self.now }
        requires tried { tried_by self.now (query_in self.now asked.now) position ≡ true }
        requires room { HasRoomFor self.now
            (record asked.now.request.now { start = position }) work.old }
        ensures answer { IfOk result
            (λ m. IsAttemptIn m cache.new (query_in self.now asked.now) position) }
        ensures counts { KeepsCounts self.now result work.old work.new }
        ensures units { units_of work.old ≤ units_of work.new }
        ensures refused { IfErr result
            (λ e. RefusesAttempt self.now (query_in self.now asked.now) position e) }
        ensures allowed { IfOk result
            (λ _. AllowsAttempt self.now (query_in self.now asked.now) position) }
        ensures heeds { HeedsStackLimit self.now cache.old cache.new }
    {
        cache.served = Engine::Machine;
        let machine = &mut cache.machine;
        let wanted = machine::Asked {
            code: &self.code,
            prices: &self.prices,
            request: *asked.request,
            options: &self.for_search,
            continues: asked.continues,
        };
        match machine::attempt_at(&wanted, asked.haystack, position, machine, work) {
            Ok(found) => Ok(found),
            Err(refusal) => Err(error_of(refusal)),
        }
    }
}
