//! Searches by the runner: their time is bounded by the product of the code's length and the text's.

ghost use Rattle.std.specs.Prelude.{◌≡◌, ◌+◌, ◌-◌, ◌*◌, ◌^◌, ◌<◌, ◌≤◌, ℕ, Bool, false, true, [], Some, None, is_some, length, replicate, slice_index_or, IfOk, IfErr, IfSome, IfNone, OnOk, Err, ◌≢◌, ◌⊎◌};
ghost use Rattle.fancy_tree.specs.Pattern.{Pattern};
ghost use Rattle.fancy_code.specs.Code.{instrs_of};
ghost use Rattle.fancy_code.specs.CodeLength.{code_len};
ghost use Rattle.fancy_runner.specs.Attempt.{bits_in, owed_in, AllFailedIn};
ghost use Rattle.fancy_runner.specs.KeptTable.{IsKept, table_in, table_base, place_kept, past_tried, steps_from, steps_ahead, taken_again};
ghost use Rattle.fancy_code.specs.Compile.{IsCodeOf, AreEasy};
ghost use Rattle.fancy_input.specs.Requests.{effective_start};
ghost use Rattle.fancy_prefilter.specs.Seen.{NoneMayStart};
ghost use Rattle.fancy_code.specs.Queries.{query_of, unfiltered, most_steps};
ghost use Rattle.fancy_runner.specs.Groups.{groups_in};
ghost use Rattle.fancy_runner.specs.Refusals.{IsRunnersRefusal};
ghost use Rattle.fancy_runner.specs.Searched.{IsAnsweredBy, LeftOff};
ghost use Rattle.fancy_input.specs.Work.{steps_of, returns_of, RunsWithin, IsSpent, HasWorkFor};

use crate::first_item::pass_followed;
pub use crate::notes::Cache;
use crate::notes::KeptTable;
use crate::patience::Patience;
use crate::start::follow_start;
use crate::table::Table;
use fancy_code::attempt::Attempt;
use fancy_code::code::Code;
use fancy_code::found::Found;
use fancy_input::input::Request;
use fancy_input::refusal::SearchRefusal;
use fancy_input::work::Work;
use fancy_meaning::options::{SearchOptions, is_match_boundary};
use fancy_meaning::reading::ready_last_lines;
use fancy_prefilter::candidates::next_opening;

/// Makes the table ready for a search that starts at `first`: where none is kept it begins anew, with the marks of each place from its
/// base on. Where so many are no `usize`, memory is refused. One that is kept loses the marks of that place, where these may lie on the
/// way to the match before.
#[inline(always)]
fn ready_table(
    table: &mut Table,
    attempt: &Attempt,
    first: usize,
    kept: Option<KeptTable>,
) -> Result<(), SearchRefusal>
    requires begins { attempt.now.base ≤ first }
    requires ordered { first ≤ attempt.now.last }
    requires small { attempt.now.last < usize.MAX }
    requires reached { IfSome kept (λ k. k.from ≤ first + 1) }
    requires room { IfSome kept (λ _. length table.old ≡ bits_in attempt.now) }
    requires short { IfSome kept (λ _. length table.old < 2 ^ 64) }
    ensures failed { OnOk result ((deep : ℕ) → IfSome kept
        (λ k. AllFailedIn attempt.now k.from deep table.old)
        → AllFailedIn attempt.now first deep table.new) }
    ensures left { IfSome kept (λ _. OnOk result (owed_in attempt.now table.new
        ≤ owed_in attempt.now table.old + taken_again kept attempt.now.code.now first)) }
    ensures room { OnOk result (length table.new ≡ bits_in attempt.now) }
    ensures small { OnOk result (length table.new < 2 ^ 64) }
    ensures refused { IfErr result (λ e. e ≡ SearchRefusal.Memory) }
{
    let Some(kept) = kept else {
        let places = attempt.last - attempt.base + 1;
        let Some(bits) = places.checked_mul(attempt.code.marks()) else {
            return Err(SearchRefusal::Memory);
        };
        table.reset(bits)?;
        return Ok(());
    };
    if first < kept.from {
        let marks = attempt.code.marks();
        table.clear((first - attempt.base) * marks, marks);
    }
    Ok(())
}

/// The limit that the steps of a search are held to: none where it allows all that a search without a kept table can take.
fn limit_to_heed(
    code: &Code,
    request: Request,
    before: Option<KeptTable>,
    limit: Option<usize>,
    work: &Work,
) -> Option<usize>
    requires ordered { effective_start request ≤ request.range_end }
    requires small { request.range_end < usize.MAX }
    ensures limit { (result ≡ limit)
        ⊎ ((result ≡ None) × ((before ≡ None) × HasWorkFor limit
        (most_steps code.now request) work.now)) }
    ensures free { before ≡ None → HasWorkFor limit (most_steps code.now request) work.now
        → result ≡ None }
{
    if before.is_some() {
        return limit;
    }
    let places = request.range_end - request.effective_start() + 1;
    match code.len().checked_mul(places) {
        Some(steps) if work.has_work_for(steps, limit) => None,
        _ => limit,
    }
}

/// What is wanted of a search.
#[derive(Clone, Copy)]
pub struct Wanted {
    /// Where a match is wanted.
    pub request: Request,
    /// What it may be, and what the search may take.
    pub options: SearchOptions,
    /// How long it goes on before it leaves off between two positions, if it may.
    pub patience: Option<Patience>,
}

/// What a search came to.
#[derive(Clone, Copy)]
pub struct Searched {
    /// What was found.
    pub found: Option<Found>,
    /// Where nothing was found: no match starts before this place, a byte offset. It is past all positions that are tried, unless the
    /// search left off there.
    pub reached: usize,
}

impl Searched {
    /// Nothing starts before this place, a byte offset.
    fn nothing(reached: usize) -> Searched
        ensures { result ≡ record { found = None; reached = reached } }
    {
        Searched {
            found: None,
            reached,
        }
    }

    /// A match from a place up to its end, byte offsets.
    fn at(place: usize, end: usize) -> Searched
        ensures { result ≡ record
            { found = Some (record { position = place; start = place; end = end }); reached = place } }
    {
        Searched {
            found: Some(Found {
                position: place,
                start: place,
                end,
            }),
            reached: place,
        }
    }
}

/// Whether a search leaves off at a place, after so many steps: where its patience is over, and no more were taken than the code is long
/// for each position before.
#[inline(always)]
fn leaves_off(code: &Code, wanted: &Wanted, steps: usize, place: usize) -> bool
    ensures asked { result ≡ true → is_some wanted.now.patience ≡ true }
    ensures enough { result ≡ true
        → IfSome wanted.now.patience (λ p. p.steps ≤ p.taken + steps) }
    ensures paid { result ≡ true → steps
        ≤ code_len code.now * (place - effective_start wanted.now.request) }
{
    let Some(patience) = wanted.patience else {
        return false;
    };
    let request = wanted.request;
    if !patience.is_over(steps, place, request.range_end) {
        return false;
    }
    let passed = place.saturating_sub(request.effective_start());
    steps <= code.len().saturating_mul(passed)
}

/// Searches a haystack for the pattern of the code. Found is the first outcome at the least position, from the
/// effective start on, which has one; its groups then stand in `cache`. With a patience the search may leave off between two positions,
/// once that is over: what is asked is then to be searched for from the place on that was reached. Easy code has no `\G`, so the
/// answer is the same with it on and off. Of the options `on_boundaries` and `overrides` are heeded: what is found is the first
/// match and may be empty, and returns have no limit.
///
/// Without `kept` the table in `cache` begins anew, at the effective start. Several searches of one haystack by one code up to one
/// end may keep it, each of which starts at the end of the match before, or where nothing was found at the last position that was
/// tried, or later. `kept` then tells what the search before left in `cache`, and afterwards what this one leaves there. What they
/// marked is not followed again, since it fails whatever the groups are; but the marks at the end of a match lie on the way to it, and
/// are cleared. All these searches together take no more steps than one alone may take, and the code's length for each that starts
/// where the match before ended. What they read of the line ends that close the haystack is not read again either.
///
/// What is done is added to the counts of `work`, after a refusal what was done up to it. They never begin anew here. No
/// step is taken where no match may start at any position.
///
/// # Errors
///
/// `SearchRefusal::Memory` where memory runs out, and `SearchRefusal::Steps` where more work is needed than `step_limit` of the
/// options allows, with what was done before. So a search without a kept table is not refused where the limit allows the code's
/// length for each position of the searched text, its end among them. Nothing is kept after a refusal.
#[inline(always)]
pub fn search(
    code: &Code,
    haystack: &[u8],
    wanted: Wanted,
    kept: &mut Option<KeptTable>,
    cache: &mut Cache,
    work: &mut Work,
) -> Result<Searched, SearchRefusal>
    requires inside { wanted.request.range_end ≤ length haystack.now }
    requires easy { AreEasy (instrs_of code.now) }
    requires kept { IfSome kept.old (λ k. IsKept code.now haystack.now wanted.request wanted.options
        k (effective_start wanted.request) cache.old.notes) }
    ensures answer { IfOk result (λ s. (p : Pattern) (on : Bool) → IsCodeOf p code.now
        → IsAnsweredBy (query_of p code.now (unfiltered wanted.options) haystack.now
        wanted.request on) (groups_in cache.new) s) }
    ensures here { IfOk result (λ s. IfSome s.found (λ f. f.start ≡ f.position)) }
    ensures ordered { IfOk result (λ s. IfSome s.found
        (λ f. effective_start wanted.request ≤ f.end)) }
    ensures forth { IfOk result (λ s. effective_start wanted.request ≤ s.reached) }
    ensures ended { wanted.patience ≡ None → IfOk result (λ s. IfNone s.found
        (past_tried wanted.request ≤ s.reached)) }
    ensures left_off { IfOk result (λ s. IfNone s.found (s.reached < past_tried wanted.request
        → LeftOff code.now haystack.now wanted s.reached work.old work.new)) }
    ensures kept { IfOk result (λ s. IfSome kept.new
        (λ k. IsKept code.now haystack.now wanted.request wanted.options
        k (place_kept s.found wanted.request) cache.new.notes)) }
    ensures left { IfOk result (λ s. IfSome s.found (λ f. kept.new
        ≡ Some (record { base = table_base kept.old wanted.request; from = f.end + 1 }))) }
    ensures dropped { IfErr result (λ _. kept.new ≡ None) }
    ensures steps { steps_of work.old ≤ steps_of work.new }
    ensures bounded { steps_of work.new ≤ steps_of work.old
        + (steps_from kept.old code.now wanted.request (effective_start wanted.request)
        (table_in cache.old)
        + taken_again kept.old code.now (effective_start wanted.request)) }
    ensures passed { IfOk result (λ s. IfNone s.found (steps_of work.new
        + steps_from kept.new code.now wanted.request (past_tried wanted.request)
        (table_in cache.new)
        ≤ steps_of work.old
        + (steps_from kept.old code.now wanted.request (effective_start wanted.request)
        (table_in cache.old)
        + taken_again kept.old code.now (effective_start wanted.request)))) }
    ensures spent { IfOk result (λ s. IfSome s.found (λ f. steps_of work.new
        + steps_ahead code.now wanted.request (table_base kept.old wanted.request) f.end
        (table_in cache.new)
        ≤ steps_of work.old
        + (steps_from kept.old code.now wanted.request (effective_start wanted.request)
        (table_in cache.old)
        + code_len code.now))) }
    ensures idle { NoneMayStart code.now.prefilter.starts haystack.now wanted.request.range_end
        (effective_start wanted.request) (wanted.request.range_end + 1)
        → steps_of work.new ≡ steps_of work.old }
    ensures returns { returns_of work.old ≤ returns_of work.new }
    ensures paired { returns_of work.new - returns_of work.old
        ≤ steps_of work.new - steps_of work.old }
    ensures refused { IfErr result IsRunnersRefusal }
    ensures heeds { RunsWithin wanted.options.step_limit work.old work.new }
    ensures limited { result ≡ Err SearchRefusal.Steps
        → IsSpent wanted.options.step_limit work.new }
    ensures unlimited { kept.old ≡ None → HasWorkFor wanted.options.step_limit
        (most_steps code.now wanted.request) work.old
        → result ≢ Err SearchRefusal.Steps }
{
    let (request, options) = (wanted.request, wanted.options);
    let first = request.effective_start();
    if first > request.range_end {
        return Ok(Searched::nothing(first));
    }
    let last = request.last_position();
    let end = request.range_end;
    let mut region = None;
    let mut place = next_opening(&code.prefilter, haystack, end, first, last, &mut region);
    if place > last {
        return Ok(Searched::nothing(place));
    }
    let before = kept.take();
    let base = KeptTable::base(before, first);
    let attempt = Attempt {
        code,
        haystack,
        base,
        last: request.range_end,
        on_boundaries: options.on_boundaries,
        suppressed: options.suppressed_ends(request),
        step_limit: limit_to_heed(code, request, before, options.step_limit, work),
    };
    ready_table(&mut cache.notes.table, &attempt, first, before)?;
    ready_last_lines(&mut cache.notes.last_lines, haystack, before.is_some());
    let begun = work.steps();
    while place <= last && !leaves_off(code, &wanted, work.steps() - begun, place) {
        if is_match_boundary(options.on_boundaries, haystack, place) {
            if let Some(end) = follow_start(&attempt, place, cache, work)? {
                let from = end + 1;
                *kept = Some(KeptTable { base, from });
                return Ok(Searched::at(place, end));
            }
        }
        let from = pass_followed(&attempt, place + 1, last, &cache.notes.table);
        place = next_opening(&code.prefilter, haystack, end, from, last, &mut region);
    }
    *kept = Some(KeptTable { base, from: place });
    Ok(Searched::nothing(place))
}
