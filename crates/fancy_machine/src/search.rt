//! Searches by the machine.

ghost use Rattle.std.specs.Prelude.{◌≡◌, ◌≢◌, ℕ, ◌+◌, ◌-◌, ◌<◌, ◌≤◌, true, false, [], None, Err, IfOk, IfSome, length, slice_index, slice_index_or};
ghost use Rattle.fancy_code.specs.Compile.{IsCodeOf};
ghost use Rattle.fancy_input.specs.LastLines.{KnowsLastLines};
ghost use Rattle.fancy_input.specs.Requests.{effective_start};
ghost use Rattle.fancy_meaning.specs.Search.{Query, search, attempt, returns, choices, returns_at, choices_at};
ghost use Rattle.fancy_prefilter.specs.Seen.{IsNextCandidate};
ghost use Rattle.fancy_meaning.specs.Tried.{tried, NoneTried};
ghost use Rattle.fancy_input.specs.Work.{steps_of, returns_of, HasRoom};
ghost use Rattle.fancy_prices.specs.Entries.{AreEntries, IsNextEntry, IsToldAt, is_entry};
ghost use Rattle.fancy_splits.specs.Front.{IsFront};
ghost use Rattle.fancy_machine.specs.Asked.{Serves, Asks, IsAsked, Answers, branches_allowed, found_by, groups_held, lines_held, seen_held};
ghost use Rattle.fancy_machine.specs.Attempt.{KnowsSeen};
ghost use Rattle.fancy_machine.specs.Front.{ArePriced, GoesPast, returns_ahead};
ghost use Rattle.fancy_trail.specs.Log.{writes_allowed};
ghost use Rattle.fancy_machine.specs.Parts.{IsReady, HeedsLimits, KeepsCounts};

pub use crate::asked::Asked;
use crate::attempt::Attempt;
use crate::front::{positions_to_pass, returns_over};
use crate::runs::LastRun;
use crate::seen::Seen;
use fancy_code::code::Code;
use fancy_code::found::Found;
use fancy_input::last_lines::LastLines;
use fancy_input::refusal::SearchRefusal;
use fancy_input::span::Span;
use fancy_input::work::Work;
use fancy_meaning::options::is_match_boundary;
use fancy_meaning::reading::ready_last_lines;
use fancy_prefilter::candidates::next_candidate;
use fancy_prices::entries::{Entries, Priced};
use fancy_prices::price::Price;
use fancy_splits::front::Front;
use fancy_trail::best::Best;
use fancy_trail::trail::Trail;
use std::alloc::Global;

/// What searches work in, reused from one to the next, with the groups of the last match.
#[derive(Drop)]
pub struct Cache {
    trail: Trail,
    /// The best outcome of an attempt so far, where the longest is asked for.
    best: Best,
    /// What was found out of the haystack of the last search.
    seen: Seen,
}

impl Cache {
    /// It has no memory yet, which the searches take, and holds no group.
    pub fn new(alloc: Global) -> Cache
        ensures groups { groups_held result ≡ [] }
        ensures branches { branches_allowed result ≡ 0 }
    {
        Cache {
            trail: Trail::new(alloc),
            best: Best::new(alloc),
            seen: Seen {
                last_lines: LastLines::new(b""),
                last_run: LastRun::none(),
            },
        }
    }

    /// Where the group with this number stands in what the search before found, in byte offsets. `None` where the group
    /// took no part, or there is none with this number. After a search that found nothing the answer means nothing.
    pub fn group(&self, number: usize) -> Option<Span>
        ensures { result ≡ slice_index_or (groups_held self.now) number None }
    {
        self.trail.span(number)
    }

    /// How many writes to groups it keeps, to go back to what stood there before: at most one for each group and each branch that
    /// the searches so far were allowed to save at one time.
    pub fn writes(&self) -> usize
        ensures { result
            ≤ writes_allowed (branches_allowed self.now) (length (groups_held self.now)) }
    {
        self.trail.writes()
    }
}

/// Searches a haystack for the pattern of the code. Found is the outcome that is taken at the
/// least position, from the effective start on, which has an accepted one; its groups then stand in `cache`. Where the
/// longest match is asked for, all returns of that attempt count.
///
/// Where the options say so, it seeks: positions at which no byte stands that a match may start with are passed over, and
/// nothing counts there. The answer is the same, and no step is taken where no position is left. No attempt is made where `prices`
/// tells that it would find nothing, and what it would cost: its returns are counted, and a step for each.
///
/// Where `is_kept` says so, `cache` holds what the search before read of the line ends that close the same haystack, and they are
/// not read again.
///
/// What is done is added to the counts of `work`, after a refusal what was done up to it. They never begin anew here.
/// Steps are counted as far as a `usize` goes.
///
/// # Errors
///
/// `SearchRefusal::Memory` where memory runs out, `SearchRefusal::Returns` where the search takes more returns than the options
/// allow, `SearchRefusal::Choices` where it would save more branches at once than they allow, and `SearchRefusal::Steps` where the
/// counts of `work` would pass the limit of steps that they set: its steps, the units that look-behinds go back, the bytes that
/// backreferences compare, and the items that loops read.
pub fn search(
    asked: &Asked<'_>,
    haystack: &[u8],
    is_kept: bool,
    cache: &mut Cache,
    work: &mut Work,
) -> Result<Option<Found>, SearchRefusal>
    ghost q: { Query }
    requires asks { Asks q asked.now haystack.now }
    requires room { HasRoom (returns_of work.old) asked.now.options.now.backtrack_limit }
    requires kept { is_kept ≡ true → KnowsLastLines haystack.now (lines_held cache.old) }
    ensures answers { Answers asked.now.options.now
        (returns_of work.old + asked.now.options.now.backtrack_limit) (search q)
        (returns q (tried asked.now.options.now.seek q))
        (choices q (tried asked.now.options.now.seek q))
        result cache.old cache.new work.old work.new }
    ensures kept { IfOk result (λ found. IfSome found
        (λ _. KnowsLastLines haystack.now (lines_held cache.new))) }
    ensures idle { NoneTried asked.now.options.now.seek q → steps_of work.new ≡ steps_of work.old }
{
    let code = asked.code;
    let prices = asked.prices;
    let request = asked.request;
    let options = asked.options;
    let first = request.effective_start();
    if first > request.range_end {
        return Ok(None);
    }
    let entries = &prices.entries;
    let splits = &prices.splits;
    let attempt = Attempt::new(code, splits, haystack, request, options, asked.continues);
    let limit = work.returns() + options.backtrack_limit;
    let last = request.last_position();
    let positions = Positions {
        code,
        entries,
        front: &prices.front,
        haystack,
        range_end: request.range_end,
        seek: options.seek,
        last,
    };
    cache.seen.last_run = LastRun::none();
    ready_last_lines(&mut cache.seen.last_lines, attempt.haystack, is_kept);
    let mut place = positions.next(first);
    while place <= last {
        let price = entries.price(haystack, request.range_end, place, options.stack_limit);
        if let Some(price) = price {
            let on = pass_priced(&attempt, &positions, place, price, limit, work)?;
            place = positions.next(on);
            continue;
        }
        let found = try_position(&attempt, place, request.range_end, limit, cache, work)?;
        if let Some(found) = found {
            return Ok(Some(found));
        }
        let from = pass_run(&attempt, &positions, place + 1, limit, &cache.seen, work)?;
        place = positions.next(from);
    }
    Ok(None)
}

/// How many positions are passed over together at most, by their prices. Past them a scan may go on faster.
const TOGETHER: usize = 32;

/// The positions at which a search makes an attempt.
#[derive(Clone, Copy)]
struct Positions<'a> {
    code: &'a Code,
    entries: &'a Entries,
    /// The loop that attempts come to, where an item of it stands.
    front: &'a Option<Front>,
    haystack: &'a [u8],
    /// Where the searched range ends.
    range_end: usize,
    /// Whether it seeks: positions are passed over at which no match may start.
    seek: bool,
    /// The last position.
    last: usize,
}

impl Positions<'_> {
    /// The first of them from a position on, past the last where there is none.
    #[inline(always)]
    fn next(&self, from: usize) -> usize
        requires ordered { from ≤ self.now.last + 1 }
        requires last { self.now.last ≤ self.now.range_end }
        requires inside { self.now.range_end ≤ length self.now.haystack.now }
        ensures passed { from ≤ result }
        ensures sought { self.now.seek ≡ true
            → IsNextCandidate self.now.code.now.prefilter.starts
            self.now.haystack.now self.now.range_end from self.now.last result }
        ensures each { self.now.seek ≡ false
            → IsNextEntry (is_entry self.now.entries.now)
            self.now.haystack.now self.now.range_end from self.now.last result }
    {
        if self.seek {
            return next_candidate(
                &self.code.prefilter,
                self.haystack,
                self.range_end,
                from,
                self.last,
            );
        }
        self.entries
            .next(self.haystack, self.range_end, from, self.last)
    }

    /// How many positions may be passed over together by their prices: one where it seeks.
    fn together(&self) -> usize
        ensures some { 0 < result }
        ensures few { result ≤ 32 }
        ensures one { self.now.seek ≡ true → result ≡ 1 }
    {
        if self.seek { 1 } else { TOGETHER }
    }

    /// The positions from one on, of which this price is told, up to one of which none is told, or at which an attempt may save more
    /// branches than so many.
    #[inline(never)]
    fn priced_from(self, from: usize, price: Price, most: usize) -> Priced
        requires ordered { from ≤ self.last }
        requires last { self.last ≤ self.range_end }
        requires inside { self.range_end ≤ length self.haystack.now }
        requires told { IsToldAt (is_entry self.entries.now)
            self.haystack.now self.range_end from price }
        ensures { ArePriced (is_entry self.entry.entries.now) self.entry.haystack.now
            self.entry.range_end self.entry.seek self.entry.last from result }
    {
        let end = from + (self.last + 1 - from).min(self.together());
        let to = end.min(self.range_end);
        self.entries
            .priced_from(self.haystack, price, from, to, most)
    }
}

/// Passes over the positions from one on that are within the run that was read last, where attempts find nothing, and counts their
/// returns: the position after them. A search that seeks passes over none.
fn pass_run(
    attempts: &Attempt,
    positions: &Positions,
    from: usize,
    limit: usize,
    seen: &Seen,
    work: &mut Work,
) -> Result<usize, SearchRefusal>
    ghost q: { Query }
    requires serves { Serves attempts.now q }
    requires code { ∥ IsCodeOf q.sought.pattern attempts.now.code.now ∥₁ }
    requires last { positions.now.last ≤ q.request.range_end }
    requires inside { q.request.range_end ≤ length q.haystack }
    requires ordered { from ≤ positions.now.last + 1 }
    requires ready { IsReady attempts.now limit seen.now work.old }
    requires front { IfSome positions.now.front.now
        (IsFront attempts.now.splits.now attempts.now.code.now attempts.now.code.now.start) }
    ensures passed { IfOk result (λ on. GoesPast q positions.now.seek positions.now.last from on
        (returns_of work.new - returns_of work.old)) }
    ensures refused { result ≡ Err SearchRefusal.Returns → limit
        < returns_of work.old + returns_ahead q positions.now.seek positions.now.last from }
    ensures bounded { returns_of work.new
        ≤ returns_of work.old + returns_ahead q positions.now.seek positions.now.last from }
    ensures saved { result ≢ Err SearchRefusal.Choices }
    ensures counts { KeepsCounts work.old work.new }
    ensures heeds { HeedsLimits limit attempts.now.options.now.step_limit result work.old work.new }
{
    let Some(front) = positions.front else {
        return Ok(from);
    };
    if positions.seek {
        return Ok(from);
    }
    let last = positions.last;
    let Some(items) = positions_to_pass(attempts, *front, seen.last_run, last, from) else {
        return Ok(from);
    };
    let returns = returns_over(front.before.returns, items);
    work.count_returns(returns, limit, attempts.options.step_limit)?;
    Ok(from + items)
}

/// Passes over positions from one on, of which this price is told, where attempts find nothing, and counts their returns: the position
/// after them.
fn pass_priced(
    attempts: &Attempt,
    positions: &Positions,
    from: usize,
    price: Price,
    limit: usize,
    work: &mut Work,
) -> Result<usize, SearchRefusal>
    ghost q: { Query }
    requires asked { IsAsked q attempts.now positions.now.range_end from }
    requires same { positions.now.haystack.now ≡ attempts.now.haystack.now }
    requires last { (from ≤ positions.now.last) × (positions.now.last ≤ positions.now.range_end) }
    requires tried { (positions.now.seek ≡ true → tried true q from ≡ true) }
    requires room { returns_of work.old ≤ limit }
    requires entries { AreEntries (is_entry positions.now.entries.now) attempts.now.code.now }
    requires bytes { (k : ℕ) → slice_index attempts.now.haystack.now k < 256 }
    requires told { IsToldAt (is_entry positions.now.entries.now)
        attempts.now.haystack.now positions.now.range_end from price }
    ensures passed { IfOk result (λ on. (from < on) × GoesPast q positions.now.seek
        positions.now.last from on (returns_of work.new - returns_of work.old)) }
    ensures refused { result ≡ Err SearchRefusal.Returns → limit
        < returns_of work.old + returns_ahead q positions.now.seek positions.now.last from }
    ensures bounded { returns_of work.new
        ≤ returns_of work.old + returns_ahead q positions.now.seek positions.now.last from }
    ensures saved { result ≢ Err SearchRefusal.Choices }
    ensures counts { KeepsCounts work.old work.new }
    ensures heeds { HeedsLimits limit attempts.now.options.now.step_limit result work.old work.new }
{
    if price.marks == 0 && price.returns == 0 {
        return Ok(from + 1);
    }
    let priced = positions.priced_from(from, price, attempts.options.stack_limit);
    work.count_returns(priced.returns, limit, attempts.options.step_limit)?;
    Ok(priced.past)
}

/// Makes one attempt alone, at a position from the effective start on. What is found is what [`search`] would take at this
/// position, whatever stands at the positions before: `\G` holds at the effective start of the request.
///
/// Where the prices tell that it would find nothing, and what it would cost, the machine is not entered: its returns are counted, and
/// a step for each. What is done is added to the counts of `work`, as by [`search`].
///
/// # Errors
///
/// As those of [`search`], of this attempt alone.
pub fn attempt_at(
    asked: &Asked<'_>,
    haystack: &[u8],
    position: usize,
    cache: &mut Cache,
    work: &mut Work,
) -> Result<Option<Found>, SearchRefusal>
    ghost q: { Query }
    requires asks { Asks q asked.now haystack.now }
    requires starts { effective_start asked.now.request ≤ position }
    requires ends { position ≤ asked.now.request.range_end }
    requires room { HasRoom (returns_of work.old) asked.now.options.now.backtrack_limit }
    ensures { Answers asked.now.options.now
        (returns_of work.old + asked.now.options.now.backtrack_limit)
        (attempt q position) (returns_at q position) (choices_at q position)
        result cache.old cache.new work.old work.new }
{
    let code = asked.code;
    let prices = asked.prices;
    let request = asked.request;
    let options = asked.options;
    let limit = work.returns() + options.backtrack_limit;
    let price = prices
        .entries
        .price(haystack, request.range_end, position, options.stack_limit);
    if let Some(price) = price {
        work.count_returns(price.returns as usize, limit, options.step_limit)?;
        return Ok(None);
    }
    let splits = &prices.splits;
    let attempt = Attempt::new(code, splits, haystack, request, options, asked.continues);
    cache.seen.last_run = LastRun::none();
    ready_last_lines(&mut cache.seen.last_lines, attempt.haystack, false);
    try_position(&attempt, position, request.range_end, limit, cache, work)
}

/// Makes one attempt at a position, where a match may begin there. No text past `range_end` is consumed, and no return is made
/// past the limit, which bounds the count in `work`. Nothing is done past the limit of steps either.
#[inline(always)]
fn try_position(
    attempts: &Attempt,
    position: usize,
    range_end: usize,
    limit: usize,
    cache: &mut Cache,
    work: &mut Work,
) -> Result<Option<Found>, SearchRefusal>
    ghost q: { Query }
    requires asked { IsAsked q attempts.now range_end position }
    requires ready { IsReady attempts.now limit (seen_held cache.old) work.old }
    ensures answers { Answers attempts.now.options.now limit
        (attempt q position) (returns_at q position) (choices_at q position)
        result cache.old cache.new work.old work.new }
    ensures seen { KnowsSeen attempts.now (seen_held cache.new) }
{
    let found = finds_at(attempts, position, range_end, limit, cache, work)?;
    if found {
        return Ok(Some(Found {
            position,
            start: cache.trail.kept(),
            end: cache.trail.place(),
        }));
    }
    Ok(None)
}

/// Makes one attempt, as [`try_position`] does: whether it finds something. Then the trail stands where that ends.
#[inline(never)]
fn finds_at(
    attempts: &Attempt,
    position: usize,
    range_end: usize,
    limit: usize,
    cache: &mut Cache,
    work: &mut Work,
) -> Result<bool, SearchRefusal>
    ghost q: { Query }
    requires asked { IsAsked q attempts.now range_end position }
    requires ready { IsReady attempts.now limit (seen_held cache.old) work.old }
    ensures answers { Answers attempts.now.options.now limit
        (attempt q position) (returns_at q position) (choices_at q position)
        (found_by position cache.new result) cache.old cache.new work.old work.new }
    ensures seen { KnowsSeen attempts.now (seen_held cache.new) }
{
    if !is_match_boundary(attempts.options.on_boundaries, attempts.haystack, position) {
        return Ok(false);
    }
    let code = attempts.code;
    let trail = &mut cache.trail;
    let most = attempts.options.stack_limit;
    trail.begin(code.start, position, range_end, code.groups, most)?;
    attempts.run(trail, &mut cache.best, limit, &mut cache.seen, work)
}
