//! Searches by the automaton: the match that the runner finds, without its groups.

ghost use Rattle.std.specs.Prelude.{◌≡◌, ◌+◌, ◌-◌, ◌*◌, ◌<◌, ◌≤◌, ℕ, Bool, List, [], None, IfNone, if◌then◌else◌, true, false, IfOk, IfErr, IfSome, is_some, length, option_map};
ghost use Rattle.fancy_tree.specs.Pattern.{Pattern};
ghost use Rattle.fancy_input.specs.Requests.{effective_start};
ghost use Rattle.fancy_code.specs.Code.{instrs_of};
ghost use Rattle.fancy_code.specs.CodeLength.{code_len};
ghost use Rattle.fancy_code.specs.Compile.{IsCodeOf};
ghost use Rattle.fancy_code.specs.Queries.{query_of, unfiltered, most_steps};
ghost use Rattle.fancy_meaning.specs.Search.{search};
ghost use Rattle.fancy_prefilter.specs.Seen.{NoneMayStart};
ghost use Rattle.fancy_input.specs.Work.{steps_of, returns_of, units_of};
ghost use Rattle.fancy_states.specs.Cells.{IsFor, IsBounded, HoldsFor, row_if, ways_at};
ghost use Rattle.fancy_states.specs.Futures.{ArePlain};
ghost use Rattle.fancy_states.specs.Search.{BegunIn, IsFoundAs, KeepsPlaces, at_position, ends_in, leftmost_in, IsFollowed};
ghost use Rattle.fancy_states.specs.Counts.{AddsSteps};
ghost use Rattle.fancy_states.specs.Starts.{match_from};
ghost use Rattle.fancy_automaton.specs.Decided.{BeginsFrom, IsAnsweredFrom, IsGoal, attempt_goal, search_goal};
ghost use Rattle.fancy_automaton.specs.Sole.{IsSole, Reaches};
ghost use Rattle.fancy_automaton.specs.Places.{IsNextPlace};
ghost use Rattle.fancy_automaton.specs.Asked.{IsAsked, IsOpened, IsOpenedFor};

use crate::anchored::{span_at, span_told};
use crate::earliest::has_match;
use crate::follow::{next_opened, next_start, walk};
use crate::front::Front;
use crate::sole::{Sole, span_from};
use fancy_code::attempt::Attempt;
use fancy_code::code::Code;
use fancy_code::found::Found;
use fancy_input::input::Request;
use fancy_input::refusal::SearchRefusal;
use fancy_input::span::Span;
use fancy_input::work::Work;
use fancy_meaning::options::SearchOptions;
use fancy_states::cells::{Cells, origin, remembered, seen_at};
use fancy_states::origin::Origin;
use std::alloc::AllocError;

/// Goes on from where a walk ended, wherever the ways began that wait: where the leftmost match begins and ends that is preferred there, if
/// there is one.
#[inline(never)]
fn trace(
    attempt: &Attempt,
    cells: &mut Cells,
    from: Sole,
    region: &mut Option<usize>,
    work: &mut Work,
) -> Result<Option<Span>, AllocError>
    requires sole { IsSole attempt.now cells.old from }
    ensures answer { IfOk result (IsGoal attempt.now (search_goal attempt.now)) }
    ensures kept { HoldsFor cells.new attempt.now.code.now }
    ensures counts { AddsSteps
        (code_len attempt.now.code.now * (attempt.now.last + 1 - from.stand.place))
        work.old work.new }
{
    let mut front = Front::new(cells, from)?;
    let mut place = front.run(attempt, cells, from.stand.place)?;
    'places: loop {
        if front.is_over(cells) {
            return Ok(front.end(cells, place));
        }
        place = front.seek(attempt, cells, place, region);
        if place > attempt.last {
            return Ok(front.end(cells, place));
        }
        place = front.pass(attempt, cells, place, work)?;
    }
}

/// The row of the ways that may go on at a place: where nothing was found, one more begins there.
#[inline(always)]
fn row_of(at: Sole) -> usize
    ensures { result ≡ row_if (match_from at.start at.end) at.stand.next at.stand.begun }
{
    match at.end {
        None => at.stand.begun,
        Some(_) => at.stand.next,
    }
}

/// Where the last one of them began.
#[inline(always)]
fn last_begun(at: Sole) -> usize
    ensures here { at.end ≡ None → result ≡ at.stand.place }
    ensures before { is_some at.end ≡ true → result ≡ at.start }
{
    match at.end {
        None => at.stand.place,
        Some(_) => at.start,
    }
}

/// Where the leftmost match begins and ends, if there is one, where a walk ended at the last place and the step there is
/// remembered. `None` where it is not.
#[inline(always)]
fn told_end(attempt: &Attempt, cells: &Cells, at: Sole) -> Option<Option<Span>>
    requires sole { IsSole attempt.now cells.now at }
    requires last { attempt.now.last ≤ at.stand.place }
    ensures { IfSome result (IsGoal attempt.now (search_goal attempt.now)) }
{
    let place = at.stand.place;
    let sight = seen_at(attempt, cells, place);
    let k = remembered(cells, row_of(at), sight)?;
    let cell = &cells.cells[k];
    match cell.matched {
        None => Some(span_from(at.start, at.end)),
        Some(_) => {
            let start = match cell.origin {
                Origin::Mixed => return None,
                Origin::Last => last_begun(at),
                Origin::Earlier => at.start,
            };
            Some(Some(Span { start, end: place }))
        }
    }
}

/// The first place at which a match may begin, as far as remembered steps tell it.
#[derive(Clone, Copy)]
pub struct Candidate {
    /// That place, a byte offset, past the end of the range where there is none.
    pub told: usize,
    /// How many bytes it is past the first place that a scan finds.
    pub passed: usize,
}

/// A search at the next place at which a match may begin, from where no way waits and nothing was found. `None` where there is none.
#[inline(always)]
fn begin_again(
    attempt: &Attempt,
    cells: &Cells,
    at: Sole,
    region: &mut Option<usize>,
) -> Option<Sole>
    requires sole { IsSole attempt.now cells.now at }
    requires nothing { at.end ≡ None }
    requires idle { ways_at cells.now.rows.lists.items at.stand.next ≡ [] }
    ensures sole { IfSome result (IsSole attempt.now cells.now) }
    ensures forth { IfSome result (λ s. at.stand.place ≤ s.stand.place) }
    ensures none { IfNone result (IsGoal attempt.now (search_goal attempt.now) None) }
{
    let place = next_start(attempt, at.stand.place, region);
    if place > attempt.last {
        return None;
    }
    Some(Sole::new(attempt, cells, at.stand.rows(), place))
}

/// Walks, and where no way waits and nothing was found it walks on from the next place at which a match may begin. `None` where there is
/// none.
#[inline(always)]
fn walk_on(attempt: &Attempt, cells: &Cells, from: Sole, region: &mut Option<usize>) -> Option<Sole>
    requires sole { IsSole attempt.now cells.now from }
    ensures reaches { IfSome result (Reaches attempt.now cells.now from.stand.place) }
    ensures none { IfNone result (IsGoal attempt.now (search_goal attempt.now) None) }
{
    let mut begun = from.stand.place;
    let mut at = walk(attempt, cells, from);
    'places: while at.is_idle(cells) && begun < at.stand.place {
        let next = begin_again(attempt, cells, at, region)?;
        begun = next.stand.place;
        at = walk(attempt, cells, next);
    }
    Some(at)
}

/// The first place at which a match may begin, from where a walk ended: where its ways began, or if none waits and nothing was found, the
/// next one; past the last place where there is none.
#[inline(always)]
fn first_start(attempt: &Attempt, cells: &Cells, at: Sole, region: &mut Option<usize>) -> usize
    requires sole { IsSole attempt.now cells.now at }
    ensures begins { BeginsFrom attempt.now result }
    ensures ends { result ≤ attempt.now.last + 1 }
{
    let place = at.stand.place;
    if at.is_idle(cells) {
        return next_start(attempt, place, region);
    }
    at.start.min(place)
}

/// The first place at which a match may begin, as far as remembered steps tell it.
#[inline(always)]
fn first_told(attempt: &Attempt, cells: &mut Cells) -> Result<Candidate, AllocError>
    requires ordered { attempt.now.base ≤ attempt.now.last }
    requires followed { IsFollowed attempt.now }
    requires kept { HoldsFor cells.old attempt.now.code.now }
    ensures begins { IfOk result (λ c. BeginsFrom attempt.now c.told) }
    ensures ends { IfOk result (λ c. c.told ≤ attempt.now.last + 1) }
    ensures kept { HoldsFor cells.new attempt.now.code.now }
{
    let mut region = None;
    let scanned = next_start(attempt, attempt.base, &mut region);
    if scanned > attempt.last {
        cells.reached = scanned;
        return Ok(Candidate {
            told: scanned,
            passed: 0,
        });
    }
    let origin = origin(attempt.code, cells)?;
    let from = Sole::new(attempt, cells, origin, scanned);
    let to = walk(attempt, cells, from);
    let told = first_start(attempt, cells, to, &mut region);
    cells.reached = to.stand.place;
    Ok(Candidate {
        told,
        passed: told.saturating_sub(scanned),
    })
}

/// Where the leftmost match within the bounds begins and ends that is preferred there, if there is one, from the first place on at which
/// one may begin.
#[inline(always)]
fn find_from(
    attempt: &Attempt,
    place: usize,
    region: &mut Option<usize>,
    cells: &mut Cells,
    work: &mut Work,
) -> Result<Option<Span>, AllocError>
    requires followed { IsFollowed attempt.now }
    requires next { IsNextPlace attempt.now attempt.now.base place }
    requires within { place ≤ attempt.now.last }
    requires kept { HoldsFor cells.old attempt.now.code.now }
    ensures answer { IfOk result (IsGoal attempt.now (search_goal attempt.now)) }
    ensures kept { HoldsFor cells.new attempt.now.code.now }
    ensures counts { AddsSteps
        (code_len attempt.now.code.now * (attempt.now.last + 1 - attempt.now.base))
        work.old work.new }
{
    let origin = origin(attempt.code, cells)?;
    let from = Sole::new(attempt, cells, origin, place);
    let Some(to) = walk_on(attempt, cells, from, region) else {
        cells.reached = attempt.last;
        return Ok(None);
    };
    if to.is_over(cells) {
        cells.reached = to.stand.place;
        return Ok(span_from(to.start, to.end));
    }
    if to.stand.place >= attempt.last
        && let Some(found) = told_end(attempt, cells, to)
    {
        cells.reached = to.stand.place;
        return Ok(found);
    }
    let found = trace(attempt, cells, to, region, work)?;
    Ok(found)
}

/// Where the leftmost match within the bounds begins and ends that is preferred there, if there is one.
#[inline(always)]
fn find_span(
    attempt: &Attempt,
    cells: &mut Cells,
    work: &mut Work,
) -> Result<Option<Span>, AllocError>
    requires ordered { attempt.now.base ≤ attempt.now.last }
    requires followed { IsFollowed attempt.now }
    requires kept { HoldsFor cells.old attempt.now.code.now }
    ensures answer { IfOk result (IsGoal attempt.now (search_goal attempt.now)) }
    ensures kept { HoldsFor cells.new attempt.now.code.now }
    ensures counts { AddsSteps
        (code_len attempt.now.code.now * (attempt.now.last + 1 - attempt.now.base))
        work.old work.new }
    ensures idle { NoneMayStart attempt.now.code.now.prefilter.starts attempt.now.haystack.now
        attempt.now.last attempt.now.base (attempt.now.last + 1)
        → steps_of work.new ≡ steps_of work.old }
{
    let mut region = None;
    let place = next_start(attempt, attempt.base, &mut region);
    if place > attempt.last {
        cells.reached = place;
        return Ok(None);
    }
    find_from(attempt, place, &mut region, cells, work)
}

/// Where the match begins and ends that is asked for: at the first position alone, or at the leftmost one that has a match.
#[inline(always)]
fn span_in(
    attempt: &Attempt,
    anchored: bool,
    cells: &mut Cells,
    work: &mut Work,
) -> Result<Option<Span>, AllocError>
    requires ordered { attempt.now.base ≤ attempt.now.last }
    requires followed { IsFollowed attempt.now }
    requires kept { HoldsFor cells.old attempt.now.code.now }
    ensures answer { IfOk result (λ found. (deep : ℕ) → BegunIn attempt.now deep
        → option_map ends_in found ≡ leftmost_in attempt.now deep
        (if anchored then 1 else (attempt.now.last + 1 - attempt.now.base)) attempt.now.base) }
    ensures kept { HoldsFor cells.new attempt.now.code.now }
    ensures counts { AddsSteps
        (code_len attempt.now.code.now * (attempt.now.last + 1 - attempt.now.base))
        work.old work.new }
    ensures idle { NoneMayStart attempt.now.code.now.prefilter.starts attempt.now.haystack.now
        attempt.now.last attempt.now.base (attempt.now.last + 1)
        → steps_of work.new ≡ steps_of work.old }
{
    if anchored {
        span_at(attempt, cells, work)
    } else {
        find_span(attempt, cells, work)
    }
}

/// The attempt that a request asks for. `None` where its range ends before it starts: then nothing is found.
#[inline(always)]
fn attempt_for<'a>(
    code: &'a Code,
    haystack: &'a [u8],
    request: Request,
    options: SearchOptions,
) -> Option<Attempt<'a>>
    requires inside { request.range_end ≤ length haystack.now }
    requires plain { ArePlain (instrs_of code.now) }
    requires reads { KeepsPlaces haystack.now code.now.meaning options.on_boundaries }
    ensures none { IfNone result (request.range_end < effective_start request) }
    ensures asked { IfSome result (λ a. IsAsked a code.now haystack.now request options) }
    ensures followed { IfSome result IsFollowed }
{
    let first = request.effective_start();
    if first > request.range_end {
        return None;
    }
    Some(Attempt {
        code,
        haystack,
        base: first,
        last: request.range_end,
        on_boundaries: options.on_boundaries,
        suppressed: options.suppressed_ends(request),
        step_limit: None,
    })
}

/// Searches a haystack for the pattern of plain code: the match that the runner's search finds, in byte offsets, without its groups. It
/// reads from boundary to boundary (`KeepsPlaces`).
///
/// Steps are remembered in `cells`, which begins empty and serves any number of searches for one code. It is cleared where
/// it is full, as often as that is; no answer changes by that. The limit of steps is not heeded: the caller sees that it allows
/// as many as are bounded here. A step is computed at most once for each place of the range, and fetches
/// each instruction at most once. So no more steps are added to `work` than the code is long, times the searched length
/// plus one, and none where no match may start at any place. No return is added, and no unit is gone over.
///
/// # Errors
///
/// `SearchRefusal::Memory` where memory runs out, and no other.
#[inline(always)]
pub fn find(
    code: &Code,
    haystack: &[u8],
    request: Request,
    options: SearchOptions,
    cells: &mut Cells,
    work: &mut Work,
) -> Result<Option<Found>, SearchRefusal>
    requires inside { request.range_end ≤ length haystack.now }
    requires plain { ArePlain (instrs_of code.now) }
    requires reads { KeepsPlaces haystack.now code.now.meaning options.on_boundaries }
    requires kept { IsBounded cells.old }
    requires all { IsFor cells.old code.now }
    ensures answer { IfOk result (λ found. (p : Pattern) (on : Bool) → IsCodeOf p code.now
        → IsFoundAs code.now found
        (search (query_of p code.now (unfiltered options) haystack.now request on))) }
    ensures kept { IsBounded cells.new }
    ensures all { IsFor cells.new code.now }
    ensures steps { steps_of work.old ≤ steps_of work.new }
    ensures bounded { steps_of work.new ≤ steps_of work.old + most_steps code.now request }
    ensures idle { NoneMayStart code.now.prefilter.starts haystack.now request.range_end
        (effective_start request) (request.range_end + 1)
        → steps_of work.new ≡ steps_of work.old }
    ensures returns { returns_of work.new ≡ returns_of work.old }
    ensures units { units_of work.new ≡ units_of work.old }
    ensures refused { IfErr result (λ e. e ≡ SearchRefusal.Memory) }
{
    let Some(attempt) = attempt_for(code, haystack, request, options) else {
        return Ok(None);
    };
    let found = span_in(&attempt, request.anchored, cells, work)?;
    Ok(found_by(found))
}

/// A search that is begun: a match may begin at a place, and none begins before it.
#[derive(Clone, Copy)]
pub struct Opened<'a> {
    attempt: Attempt<'a>,
    // that place, a byte offset
    place: usize,
    // what the scan came to that matches go on to, as `next_opening` keeps it
    region: Option<usize>,
}

/// Begins what [`find`] does for a request that is not anchored: scans for the first place at which a match may begin, which takes no step
/// and no memory. `None` where there is none.
#[inline(always)]
pub fn open<'a>(
    code: &'a Code,
    haystack: &'a [u8],
    request: Request,
    options: SearchOptions,
) -> Option<Opened<'a>>
    requires inside { request.range_end ≤ length haystack.now }
    requires unanchored { request.anchored ≡ false }
    requires plain { ArePlain (instrs_of code.now) }
    requires reads { KeepsPlaces haystack.now code.now.meaning options.on_boundaries }
    ensures none { IfNone result ((p : Pattern) (on : Bool) → IsCodeOf p code.now
        → search (query_of p code.now (unfiltered options) haystack.now request on) ≡ None) }
    ensures begins { IfSome result (λ _. ¬ NoneMayStart code.now.prefilter.starts haystack.now
        request.range_end (effective_start request) (request.range_end + 1)) }
    ensures opened { IfSome result IsOpened }
    ensures asked { IfSome result
        (λ o. IsOpenedFor o code.now haystack.now request options) }
{
    let Some(attempt) = attempt_for(code, haystack, request, options) else {
        return None;
    };
    let mut region = None;
    let place = next_opened(&attempt, attempt.base, &mut region);
    if place > attempt.last {
        return None;
    }
    Some(Opened {
        attempt,
        place,
        region,
    })
}

/// What [`find`] finds for the request that a search was begun for. Steps are remembered and counted as they are there.
///
/// # Errors
///
/// `SearchRefusal::Memory` where memory runs out, and no other.
#[inline(always)]
pub fn find_opened(
    opened: &Opened<'_>,
    cells: &mut Cells,
    work: &mut Work,
) -> Result<Option<Found>, SearchRefusal>
    requires opened { IsOpened opened.now }
    requires kept { IsBounded cells.old }
    requires all { IsFor cells.old opened.now.attempt.code.now }
    ensures answer { IfOk result (λ found. (code : Code) (haystack : List ℕ) (request : Request)
        (options : SearchOptions) → IsOpenedFor opened.now code haystack request options
        → (p : Pattern) (on : Bool) → IsCodeOf p code
        → IsFoundAs code found (search (query_of p code (unfiltered options) haystack request on))) }
    ensures kept { IsBounded cells.new }
    ensures all { IsFor cells.new opened.now.attempt.code.now }
    ensures counts { AddsSteps (code_len opened.now.attempt.code.now
        * (opened.now.attempt.last + 1 - opened.now.attempt.base)) work.old work.new }
    ensures refused { IfErr result (λ e. e ≡ SearchRefusal.Memory) }
{
    let mut region = opened.region;
    let found = find_from(&opened.attempt, opened.place, &mut region, cells, work)?;
    Ok(found_by(found))
}

/// Whether [`find_opened`] finds anything. It ends where the first match does. Steps are remembered and counted as they are there.
///
/// # Errors
///
/// `SearchRefusal::Memory` where memory runs out, and no other.
#[inline(always)]
pub fn is_match_opened(
    opened: &Opened<'_>,
    cells: &mut Cells,
    work: &mut Work,
) -> Result<bool, SearchRefusal>
    requires opened { IsOpened opened.now }
    requires kept { IsBounded cells.old }
    requires all { IsFor cells.old opened.now.attempt.code.now }
    ensures answer { IfOk result (λ b. (code : Code) (haystack : List ℕ) (request : Request)
        (options : SearchOptions) → IsOpenedFor opened.now code haystack request options
        → (p : Pattern) (on : Bool) → IsCodeOf p code
        → b ≡ is_some (search (query_of p code (unfiltered options) haystack request on))) }
    ensures kept { IsBounded cells.new }
    ensures all { IsFor cells.new opened.now.attempt.code.now }
    ensures counts { AddsSteps (code_len opened.now.attempt.code.now
        * (opened.now.attempt.last + 1 - opened.now.attempt.base)) work.old work.new }
    ensures refused { IfErr result (λ e. e ≡ SearchRefusal.Memory) }
{
    let mut region = opened.region;
    let found = has_match(&opened.attempt, opened.place, &mut region, cells, work)?;
    Ok(found)
}

/// Where a match may begin that is asked for, as far as steps tell it that `cells` remembers. No step is computed.
///
/// # Errors
///
/// `SearchRefusal::Memory` where memory runs out, and no other.
#[inline(always)]
pub fn find_candidate(
    code: &Code,
    haystack: &[u8],
    request: Request,
    options: SearchOptions,
    cells: &mut Cells,
) -> Result<Candidate, SearchRefusal>
    requires inside { request.range_end ≤ length haystack.now }
    requires unanchored { request.anchored ≡ false }
    requires plain { ArePlain (instrs_of code.now) }
    requires reads { KeepsPlaces haystack.now code.now.meaning options.on_boundaries }
    requires kept { IsBounded cells.old }
    requires all { IsFor cells.old code.now }
    ensures answer { IfOk result (λ c. (p : Pattern) (on : Bool) → IsCodeOf p code.now
        → IsAnsweredFrom
        (query_of p code.now (unfiltered options) haystack.now request on) c.told) }
    ensures forth { IfOk result (λ c. effective_start request ≤ c.told) }
    ensures kept { IsBounded cells.new }
    ensures all { IsFor cells.new code.now }
    ensures refused { IfErr result (λ e. e ≡ SearchRefusal.Memory) }
{
    let first = request.effective_start();
    let Some(attempt) = attempt_for(code, haystack, request, options) else {
        return Ok(Candidate {
            told: first,
            passed: 0,
        });
    };
    let candidate = first_told(&attempt, cells)?;
    Ok(Candidate {
        told: candidate.told.max(first),
        ..candidate
    })
}

/// The match that [`find`] finds for an anchored request, as far as steps tell it that `cells` remembers. `None` where they do not,
/// and where they read far past it.
#[inline(always)]
pub fn find_told(
    code: &Code,
    haystack: &[u8],
    request: Request,
    options: SearchOptions,
    cells: &Cells,
) -> Option<Option<Found>>
    requires inside { request.range_end ≤ length haystack.now }
    requires anchored { request.anchored ≡ true }
    requires plain { ArePlain (instrs_of code.now) }
    requires reads { KeepsPlaces haystack.now code.now.meaning options.on_boundaries }
    requires kept { HoldsFor cells.now code.now }
    ensures { IfSome result (λ found. (p : Pattern) (on : Bool) → IsCodeOf p code.now
        → IsFoundAs code.now found
        (search (query_of p code.now (unfiltered options) haystack.now request on))) }
{
    let Some(attempt) = attempt_for(code, haystack, request, options) else {
        return None;
    };
    let found = span_told(&attempt, cells)?;
    Some(found_by(found))
}

/// A match that starts at its position.
#[inline(always)]
fn found_by(span: Option<Span>) -> Option<Found>
    ensures { result ≡ option_map at_position span }
{
    match span {
        None => None,
        Some(span) => Some(Found {
            position: span.start,
            start: span.start,
            end: span.end,
        }),
    }
}
