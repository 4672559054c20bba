//! Attempts from the first instruction on. Where the code opens with many alternatives, those alone are tried that may match.

ghost use Rattle.std.specs.Prelude.{◌≡◌, ◌+◌, ◌-◌, ◌^◌, ◌<◌, ◌≤◌, ℕ, None, Err, length, slice_index, IfOk, IfSome};
ghost use Rattle.fancy_code.specs.Attempt.{instrs_in};
ghost use Rattle.fancy_runner.specs.Attempt.{begins_in, begins_with, begins_by, AreBranchesIn, passes_in, bits_in, owed_in, AllFailedIn};
ghost use Rattle.fancy_runner.specs.Runs.{HasRow, IsReadyAt, AnswersIn, LeavesIn, Attempted};
ghost use Rattle.fancy_code.specs.Branches.{ArePaid};
ghost use Rattle.fancy_code.specs.Code.{due_of};
ghost use Rattle.fancy_code.specs.Compile.{AreEasy, HasBranches};
ghost use Rattle.fancy_runner.specs.Runner.{found_state};
ghost use Rattle.fancy_code.specs.Texts.{IsTextOf};
ghost use Rattle.fancy_input.specs.Work.{steps_of, returns_of, RunsWithin, IsSpent};
ghost use Rattle.fancy_input.specs.LastLines.{KnowsLastLines};

use crate::notes::Cache;
use crate::pair::Pair;
use crate::refusal::RunnerRefusal;
use crate::runner::follow;
use crate::table::Table;
use fancy_code::attempt::Attempt;
use fancy_input::last_lines::LastLines;
use fancy_input::work::Work;
use fancy_meaning::options::is_match_boundary;
use fancy_meaning::reading::holds_at;
use fancy_prefilter::branches::Branches;
use fancy_prefilter::prefilter::Opening;
use fancy_prefilter::text::Text;
use fancy_tree::tree::Assertion;

/// An attempt at a place from an instruction on, with no group written but one that begins there, if one does.
fn follow_from(
    attempt: &Attempt,
    group: Option<usize>,
    start: Pair,
    cache: &mut Cache,
    work: &mut Work,
) -> Result<Option<usize>, RunnerRefusal>
    requires ready { IsReadyAt attempt.now start.place cache.old.notes }
    ensures answer { IfOk result (λ end. AnswersIn attempt.now
        (begins_with attempt.now group start.at start.place)
        cache.old.notes.table end cache.new.threads.slots) }
    ensures left { IfOk result (λ end. LeavesIn attempt.now
        (begins_with attempt.now group start.at start.place)
        cache.old.notes.table end cache.new.notes.table) }
    ensures attempted { Attempted attempt.now start.place (due_of attempt.now.code.now start.at)
        result cache.old.notes cache.new.notes work.old work.new }
{
    let threads = &mut cache.threads;
    threads.begin_with(attempt.code.groups, group, start.place)?;
    follow(attempt, start, threads, &mut cache.notes, work)
}

/// The same of an alternative that begins with this text. Where that does not stand at the place, there is no outcome, and where it
/// is all of the alternative, its end is the outcome.
fn follow_text(
    attempt: &Attempt,
    group: Option<usize>,
    start: Pair,
    text: &Text,
    cache: &mut Cache,
    work: &mut Work,
) -> Result<Option<usize>, RunnerRefusal>
    requires ready { IsReadyAt attempt.now start.place cache.old.notes }
    ensures answer { IfOk result (λ end. IsTextOf text.now
        (instrs_in attempt.now) attempt.now.code.now.meaning start.at
        → AnswersIn attempt.now (begins_with attempt.now group start.at start.place)
        cache.old.notes.table end cache.new.threads.slots) }
    ensures left { IfOk result (λ end. LeavesIn attempt.now
        (begins_with attempt.now group start.at start.place)
        cache.old.notes.table end cache.new.notes.table) }
    ensures attempted { Attempted attempt.now start.place (due_of attempt.now.code.now start.at)
        result cache.old.notes cache.new.notes work.old work.new }
{
    if !text.stands_at(attempt.haystack, start.place, attempt.last) {
        return Ok(None);
    }
    if !text.is_all {
        return follow_from(attempt, group, start, cache, work);
    }
    let end = start.place + text.bytes.len();
    if !is_match_boundary(attempt.on_boundaries, attempt.haystack, end) {
        return Ok(None);
    }
    cache
        .threads
        .begin_with(attempt.code.groups, group, start.place)?;
    Ok(Some(end))
}

/// An attempt at a place from the row of alternatives on, by those that may match there, in order of preference. Those that may not
/// have no outcome.
fn follow_branches(
    attempt: &Attempt,
    branches: &Branches,
    place: usize,
    cache: &mut Cache,
    work: &mut Work,
) -> Result<Option<usize>, RunnerRefusal>
    requires ready { IsReadyAt attempt.now place cache.old.notes }
    requires branches { ArePaid branches.now attempt.now.code.now.marking.numbers.items
        attempt.now.code.now.marking.weights.items attempt.now.code.now.start }
    ensures answer { IfOk result (λ end. ((k : ℕ) → slice_index attempt.now.haystack.now k < 256)
        → AreBranchesIn attempt.now branches.now
        → AnswersIn attempt.now (begins_by attempt.now branches.now place)
        cache.old.notes.table end cache.new.threads.slots) }
    ensures left { IfOk result (λ end. AreBranchesIn attempt.now branches.now
        → LeavesIn attempt.now (begins_by attempt.now branches.now place)
        cache.old.notes.table end cache.new.notes.table) }
    ensures attempted { Attempted attempt.now place
        (due_of attempt.now.code.now attempt.now.code.now.start)
        result cache.old.notes cache.new.notes work.old work.new }
{
    let numbers = branches
        .table
        .numbers_at(attempt.haystack, place, attempt.last);
    let group = branches.lead.group;
    let mut passed = 0;
    for i in numbers.from..numbers.to {
        let number = branches.table.number(i);
        let head = branches.heads[number];
        let start = Pair { at: head, place };
        let text = &branches.texts[number];
        match follow_text(attempt, group, start, text, cache, work)? {
            Some(end) => return Ok(Some(end)),
            None => passed = number + 1,
        }
    }
    Ok(None)
}

/// Forgets what was marked before a place, of which no attempt from there on asks.
#[inline]
fn forget_behind(attempt: &Attempt, place: usize, table: &mut Table)
    requires row { HasRow attempt.now place table.old }
    ensures failed { (deep : ℕ) → AllFailedIn attempt.now place deep table.old
        → AllFailedIn attempt.now place deep table.new }
    ensures left { owed_in attempt.now table.new ≤ owed_in attempt.now table.old }
    ensures room { length table.new ≡ length table.old }
{
    table.forget((place - attempt.base) * attempt.code.marks());
}

/// Whether a test of a place holds, if there is one.
#[inline]
fn passes_test(
    attempt: &Attempt,
    test: Option<Assertion>,
    place: usize,
    last_lines: &mut LastLines,
) -> bool
    requires { KnowsLastLines attempt.now.haystack.now last_lines.old }
    ensures passes { result ≡ passes_in attempt.now test place }
    ensures last_lines { KnowsLastLines attempt.now.haystack.now last_lines.new }
{
    let haystack = attempt.haystack;
    let meaning = attempt.code.meaning;
    match test {
        None => true,
        Some(test) => holds_at(
            haystack,
            meaning,
            attempt.suppressed,
            test,
            place,
            last_lines,
        ),
    }
}

/// An attempt at a place from the first instruction on, with no group written. Its contract is that of `follow`.
#[inline(always)]
pub(crate) fn follow_start(
    attempt: &Attempt,
    place: usize,
    cache: &mut Cache,
    work: &mut Work,
) -> Result<Option<usize>, RunnerRefusal>
    requires ready { IsReadyAt attempt.now place cache.old.notes }
    ensures answer { IfOk result (λ end. ((k : ℕ) → slice_index attempt.now.haystack.now k < 256)
        → HasBranches attempt.now.code.now
        → AnswersIn attempt.now (begins_in attempt.now attempt.now.code.now.start place)
        cache.old.notes.table end cache.new.threads.slots) }
    ensures left { IfOk result (λ end. HasBranches attempt.now.code.now
        → LeavesIn attempt.now (begins_in attempt.now attempt.now.code.now.start place)
        cache.old.notes.table end cache.new.notes.table) }
    ensures attempted { Attempted attempt.now place
        (due_of attempt.now.code.now attempt.now.code.now.start)
        result cache.old.notes cache.new.notes work.old work.new }
{
    forget_behind(attempt, place, &mut cache.notes.table);
    match &attempt.code.prefilter.opening {
        Opening::Words(branches) => {
            let last_lines = &mut cache.notes.last_lines;
            if !passes_test(attempt, branches.lead.test, place, last_lines) {
                return Ok(None);
            }
            let end = follow_branches(attempt, branches, place, cache, work)?;
            Ok(end)
        }
        _ => {
            let start = Pair {
                at: attempt.code.start,
                place,
            };
            let end = follow_from(attempt, None, start, cache, work)?;
            Ok(end)
        }
    }
}
