//! The runner, which follows each pair of an instruction with a mark and a place at most once.

ghost use Rattle.std.specs.Prelude.{◌≡◌, ◌+◌, ◌-◌, ◌^◌, ◌<◌, ◌≤◌, ◌≢◌, ◌⊎◌, ◌++◌, ℕ, List, Option, None, Err, true, false, length, slice_index, IfOk, IfSome};
ghost use Rattle.fancy_meaning.specs.Context.{State, holds};
ghost use Rattle.fancy_code.specs.Choices.{GoesRound};
ghost use Rattle.fancy_code.specs.Code.{weight_of, due_of, cost_of, marks_of};
ghost use Rattle.fancy_runner.specs.Runner.{burden, found_state, Stacked, Grown, Moved, Tested, GoesTo, AllWithin, Spends, Progresses};
ghost use Rattle.fancy_code.specs.CodeLength.{code_len};
ghost use Rattle.fancy_code.specs.Run.{instr_at};
ghost use Rattle.fancy_code.specs.Compile.{IsEasyInstr, AreEasy};
ghost use Rattle.fancy_input.specs.Work.{steps_of, returns_of, stepped_within, RunsWithin, IsSpent, HasWorkLeft};
ghost use Rattle.fancy_input.specs.LastLines.{KnowsLastLines};
ghost use Rattle.fancy_code.specs.declared.slot.Slot.{Slot};
ghost use Rattle.fancy_code.specs.Thread.{Thread};
ghost use Rattle.fancy_runner.specs.Threads.{thread_of, begun_at, AreFresh};
ghost use Rattle.fancy_runner.specs.Sweep.{AllPast, SweepingIn, SweptIn};
ghost use Rattle.fancy_runner.specs.Runs.{HasRow, IsReadyFor, IsReadyAt, Saves, Ran, AnswersIn, LeavesIn, Attempted, GoesOn, WentOn};
ghost use Rattle.fancy_code.specs.Attempt.{context_in, instrs_in};
ghost use Rattle.fancy_runner.specs.Attempt.{stack_in, current_in, saved_in, threads_in, threads_left_in, bits_in, owed_in, ahead_in, marks_in, KnownIn, AllFailedIn, FailedPastIn, first_accepted_in, SteppedIn, RunningIn, VisitedIn};

use crate::notes::Notes;
use crate::pair::Pair;
use crate::refusal::RunnerRefusal;
use crate::sweep::follow_by_place;
use crate::table::Table;
use crate::threads::Threads;
use fancy_code::attempt::Attempt;
use fancy_code::code::Instr;
use fancy_code::step::{Next, past_character, past_member, past_raw_byte};
use fancy_input::last_lines::LastLines;
use fancy_input::work::Work;
use fancy_meaning::options::is_match_boundary;
use fancy_meaning::reading::holds_at;
use fancy_prefilter::choice::{Choice, ItemLoop};
use fancy_tree::tree::Assertion;
use std::alloc::AllocError;

/// Goes on at a place, if there is one by the limit.
fn advance(pair: &mut Pair, next: usize, place: Option<usize>, limit: usize) -> Next
    requires { IfSome place (λ p. pair.old.place ≤ p) }
    ensures moved { (slots : List Slot) → Moved result limit place next (thread_of pair.old slots)
        (thread_of pair.new slots) }
    ensures goes { GoesTo result next pair.new }
    ensures forth { pair.old.place ≤ pair.new.place }
    ensures within { pair.old.place ≤ limit → pair.new.place ≤ limit }
{
    match place {
        Some(place) if place <= limit => {
            *pair = Pair { at: next, place };
            Next::On
        }
        _ => Next::Dead,
    }
}

/// Goes on past a test of the place, if that holds.
fn pass_test(
    attempt: &Attempt,
    pair: &mut Pair,
    assertion: Assertion,
    next: usize,
    last_lines: &mut LastLines,
) -> Next
    requires { KnowsLastLines attempt.now.haystack.now last_lines.old }
    ensures tested { Tested result (holds (context_in attempt.now) assertion pair.old.place)
        next pair.old pair.new }
    ensures goes { GoesTo result next pair.new }
    ensures stays { pair.new.place ≡ pair.old.place }
    ensures known { KnowsLastLines attempt.now.haystack.now last_lines.new }
{
    let meaning = attempt.code.meaning;
    let suppressed = attempt.suppressed;
    let place = pair.place;
    if holds_at(
        attempt.haystack,
        meaning,
        suppressed,
        assertion,
        place,
        last_lines,
    ) {
        pair.at = next;
        Next::On
    } else {
        Next::Dead
    }
}

/// Follows one instruction, which is fetched once.
#[inline(always)]
fn step(
    attempt: &Attempt,
    pair: &mut Pair,
    threads: &mut Threads,
    last_lines: &mut LastLines,
    work: &mut Work,
) -> Result<Next, AllocError>
    requires inside { attempt.now.last ≤ length attempt.now.haystack.now }
    requires here { pair.old.at < code_len attempt.now.code.now }
    requires easy { IsEasyInstr (instr_at (instrs_in attempt.now) pair.old.at) }
    requires last_lines { KnowsLastLines attempt.now.haystack.now last_lines.old }
    ensures stepped { IfOk result (λ next. (kept deep : ℕ)
        → KnownIn attempt.now kept deep (stack_in attempt.now pair.old threads.old)
        → SteppedIn attempt.now kept deep next
        (stack_in attempt.now pair.old threads.old) (stack_in attempt.now pair.new threads.new)) }
    ensures forth { IfOk result (λ _. pair.old.place ≤ pair.new.place) }
    ensures within { IfOk result (λ _. pair.old.place ≤ attempt.now.last
        → pair.new.place ≤ attempt.now.last) }
    ensures stacked { IfOk result (λ next. Stacked next
        (current_in attempt.now pair.old threads.old)
        (saved_in attempt.now threads.old) (saved_in attempt.now threads.new)) }
    ensures spends { IfOk result (λ next. Spends next
        (cost_of attempt.now.code.now (instr_at (instrs_in attempt.now) pair.old.at))
        (burden attempt.now.code.now (saved_in attempt.now threads.old))
        (burden attempt.now.code.now (saved_in attempt.now threads.new))
        (due_of attempt.now.code.now pair.new.at)) }
    ensures found { IfOk result (λ next. next ≡ Next.Found → pair.new ≡ pair.old) }
    ensures work { work.new ≡ stepped_within work.old }
    ensures last_lines { KnowsLastLines attempt.now.haystack.now last_lines.new }
{
    let code = attempt.code;
    match code.fetch(pair.at, work) {
        Instr::Match => Ok(Next::Found),
        Instr::Fail => Ok(Next::Dead),
        Instr::Character(character, next) => {
            let past = past_character(attempt.haystack, code.meaning, *character, pair.place);
            Ok(advance(pair, *next, past, attempt.last))
        }
        Instr::Member(set, next) => {
            let past = past_member(attempt.haystack, code.meaning, code.set(*set), pair.place);
            Ok(advance(pair, *next, past, attempt.last))
        }
        Instr::RawByte(byte, next) => {
            let past = past_raw_byte(attempt.haystack, *byte, pair.place);
            Ok(advance(pair, *next, past, attempt.last))
        }
        Instr::Assert(test, next) => Ok(pass_test(attempt, pair, *test, *next, last_lines)),
        Instr::Split(first, second) => {
            match code.choice_at(pair.at, attempt.haystack, pair.place) {
                Choice::Both => {
                    threads.save(*pair, *second)?;
                    pair.at = *first;
                }
                Choice::First => pair.at = *first,
                Choice::Second => pair.at = *second,
            }
            Ok(Next::On)
        }
        Instr::Open(group, next) => {
            threads.open_group(*pair, *group)?;
            pair.at = *next;
            Ok(Next::On)
        }
        Instr::Close(group, next) => {
            threads.close_group(*pair, *group)?;
            pair.at = *next;
            Ok(Next::On)
        }
        _ => unreachable!(),
    }
}

/// Whether a pair is to be followed: its instruction has no mark, or that was not made at this place. It is made then.
fn is_new(attempt: &Attempt, pair: Pair, table: &mut Table) -> bool
    requires here { pair.at < code_len attempt.now.code.now }
    requires row { HasRow attempt.now pair.place table.old }
    ensures seen { result ≡ false → marks_in attempt.now table.old pair.at pair.place ≡ true }
    ensures same { result ≡ false → table.new ≡ table.old }
    ensures adds { (q row : ℕ) → marks_of attempt.now.code.now table.new q row ≡ true
        → (marks_of attempt.now.code.now table.old q row ≡ true)
        ⊎ ((q ≡ pair.at) × (row ≡ pair.place - attempt.now.base)) }
    ensures left { result ≡ true → owed_in attempt.now table.new
        + weight_of attempt.now.code.now pair.at
        ≤ owed_in attempt.now table.old + due_of attempt.now.code.now pair.at }
    ensures room { length table.new ≡ length table.old }
{
    let Some(number) = attempt.code.mark_number(pair.at) else {
        return true;
    };
    table.mark((pair.place - attempt.base) * attempt.code.marks() + number)
}

/// Follows a pair, if it is new. A pair that was marked before has nothing to give, whatever the captures.
/// No step is taken where the attempt's limit is spent.
#[inline(always)]
pub(crate) fn visit(
    attempt: &Attempt,
    pair: &mut Pair,
    threads: &mut Threads,
    notes: &mut Notes,
    work: &mut Work,
) -> Result<Next, RunnerRefusal>
    requires ready { IsReadyFor attempt.now (threads_in attempt.now pair.old threads.old)
        notes.old }
    ensures visited { IfOk result (λ next. (low kept deep : ℕ) (goal : Option State)
        → attempt.now.base ≤ low
        → AllWithin low attempt.now.last (threads_in attempt.now pair.old threads.old)
        → RunningIn attempt.now low kept deep goal notes.old.table
        (stack_in attempt.now pair.old threads.old)
        → VisitedIn attempt.now low kept deep next goal notes.new.table
        (stack_in attempt.now pair.new threads.new)) }
    ensures swept { IfOk result (λ next. (low kept deep : ℕ) (goal found : Option State)
        (front back : List Thread)
        → attempt.now.base ≤ low → AllWithin low attempt.now.last
        (threads_in attempt.now pair.old threads.old)
        → AllPast pair.old.place front
        → SweepingIn attempt.now low kept deep goal notes.old.table
        (front ++ (threads_in attempt.now pair.old threads.old ++ back)) found
        → SweptIn attempt.now low kept deep next goal notes.new.table front
        (stack_in attempt.now pair.new threads.new) back found) }
    ensures forth { IfOk result (λ _. pair.old.place ≤ pair.new.place) }
    ensures found { IfOk result (λ next. next ≡ Next.Found → pair.new.place ≡ pair.old.place) }
    ensures saves { IfOk result (λ _. Saves attempt.now pair.old.place threads.old threads.new
        work.old work.new) }
    ensures progress { IfOk result (λ next. Progresses next
        (ahead_in attempt.now notes.old.table (threads_in attempt.now pair.old threads.old))
        (ahead_in attempt.now notes.new.table
        (threads_left_in attempt.now next pair.new threads.new))
        (length (saved_in attempt.now threads.old)) (length (saved_in attempt.now threads.new))) }
    ensures within { IfOk result (λ _. (low : ℕ)
        → AllWithin low attempt.now.last (threads_in attempt.now pair.old threads.old)
        → AllWithin low attempt.now.last (threads_in attempt.now pair.new threads.new)) }
    ensures spent { IfOk result (λ next. steps_of work.new
        + ahead_in attempt.now notes.new.table
        (threads_left_in attempt.now next pair.new threads.new)
        ≤ steps_of work.old + ahead_in attempt.now notes.old.table
        (threads_in attempt.now pair.old threads.old)) }
    ensures returns { returns_of work.new ≡ returns_of work.old }
    ensures ticks { pair.old.at < code_len attempt.now.code.now
        → marks_in attempt.now notes.old.table pair.old.at pair.old.place ≡ false
        → HasWorkLeft attempt.now.step_limit work.old → work.new ≡ stepped_within work.old }
    ensures ran { Ran attempt.now (burden attempt.now.code.now
        (threads_in attempt.now pair.old threads.old)) result
        notes.old notes.new work.old work.new }
{
    if pair.at >= attempt.code.len() {
        return Ok(Next::Dead);
    }
    if !is_new(attempt, *pair, &mut notes.table) {
        return Ok(Next::Dead);
    }
    if work.is_spent(attempt.step_limit) {
        return Err(RunnerRefusal::Steps);
    }
    match step(attempt, pair, threads, &mut notes.last_lines, work)? {
        Next::On => Ok(Next::On),
        Next::Dead => Ok(Next::Dead),
        Next::Found => {
            if is_match_boundary(attempt.on_boundaries, attempt.haystack, pair.place) {
                Ok(Next::Found)
            } else {
                Ok(Next::Dead)
            }
        }
    }
}

/// Goes from a pair to the next one, where the step to that is told, if it is new and the limit is not spent. Returns whether it did.
#[inline(always)]
fn move_on(
    attempt: &Attempt,
    pair: &mut Pair,
    next: Pair,
    table: &mut Table,
    work: &mut Work,
) -> bool
    requires easy { AreEasy (instrs_in attempt.now) }
    requires here { pair.old.at < code_len attempt.now.code.now }
    requires row { HasRow attempt.now pair.old.place table.old }
    requires goes { GoesOn attempt.now pair.old next }
    ensures moved { result ≡ true → pair.new ≡ next }
    ensures went { WentOn attempt.now pair.old pair.new table.old table.new work.old work.new }
{
    if work.is_spent(attempt.step_limit) || !is_new(attempt, *pair, table) {
        return false;
    }
    work.count_step_within();
    *pair = next;
    true
}

/// Goes round a loop of one item from a pair at its choice, as long as the bytes tell that the item alone goes on, the pairs are new,
/// and the limit is not spent. Returns where the thread stands then.
#[inline(never)]
fn go_round(
    attempt: &Attempt,
    item_loop: &ItemLoop,
    start: Pair,
    table: &mut Table,
    work: &mut Work,
) -> Pair
    requires inside { attempt.now.last ≤ length attempt.now.haystack.now }
    requires easy { AreEasy (instrs_in attempt.now) }
    requires row { HasRow attempt.now start.place table.old }
    requires bytes { (k : ℕ) → slice_index attempt.now.haystack.now k < 256 }
    requires round { GoesRound (instrs_in attempt.now) attempt.now.code.now.meaning item_loop.now
        start.at }
    ensures { WentOn attempt.now start result table.old table.new work.old work.new }
{
    let mut pair = start;
    'items: while pair.place < attempt.last
        && item_loop.bytes.contains(attempt.haystack[pair.place])
    {
        let place = pair.place;
        let item = Pair {
            at: item_loop.item,
            place,
        };
        if !move_on(attempt, &mut pair, item, table, work) {
            return pair;
        }
        let back = Pair {
            at: start.at,
            place: place + 1,
        };
        if !move_on(attempt, &mut pair, back, table, work) {
            return pair;
        }
    }
    pair
}

/// Reads the items of a loop of one item, if a pair is at its choice, has read an item from a place on, and the byte there tells that
/// the loop goes on. Returns where the thread stands then.
#[inline(always)]
fn read_items(
    attempt: &Attempt,
    from: usize,
    pair: Pair,
    table: &mut Table,
    work: &mut Work,
) -> Pair
    requires inside { attempt.now.last ≤ length attempt.now.haystack.now }
    requires easy { AreEasy (instrs_in attempt.now) }
    requires row { HasRow attempt.now pair.place table.old }
    ensures { WentOn attempt.now pair result table.old table.new work.old work.new }
{
    if pair.place <= from {
        return pair;
    }
    let code = attempt.code;
    match code.item_loop_at(pair.at, attempt.haystack, pair.place) {
        Some(item_loop) => go_round(attempt, item_loop, pair, table, work),
        None => pair,
    }
}

/// The place of the first accepted outcome of one attempt, which begins at `start`; its slots then stand in `threads`. The
/// table is kept from the attempts before: what they marked from the start's place on gives nothing. Where an outcome is
/// found, what is marked past it gives nothing, whatever the groups, so that a later search can keep that. There are at most
/// as many steps, also up to a refusal, as are due at the start and as the marks are worth that are made.
///
/// # Errors
///
/// `RunnerRefusal::Memory` where memory runs out, and `RunnerRefusal::Steps` where one more step would pass the attempt's limit.
pub fn follow(
    attempt: &Attempt,
    start: Pair,
    threads: &mut Threads,
    notes: &mut Notes,
    work: &mut Work,
) -> Result<Option<usize>, RunnerRefusal>
    requires ready { IsReadyAt attempt.now start.place notes.old }
    requires fresh { AreFresh threads.old }
    ensures answer { IfOk result (λ end. AnswersIn attempt.now (begun_at start threads.old.slots)
        notes.old.table end threads.new.slots) }
    ensures left { IfOk result (λ end. LeavesIn attempt.now (begun_at start threads.old.slots)
        notes.old.table end notes.new.table) }
    ensures attempted { Attempted attempt.now start.place (due_of attempt.now.code.now start.at)
        result notes.old notes.new work.old work.new }
{
    let mut pair = start;
    'pairs: loop {
        let place = pair.place;
        match visit(attempt, &mut pair, threads, notes, work)? {
            Next::On => {
                if pair.place == place && threads.is_long() {
                    let end = follow_by_place(attempt, pair, threads, notes, work)?;
                    return Ok(end);
                }
                pair = read_items(attempt, place, pair, &mut notes.table, work);
            }
            Next::Dead => match threads.back(attempt.code, work) {
                Some(branch) => pair = branch,
                None => return Ok(None),
            },
            Next::Found => {
                threads.settle(attempt.code);
                return Ok(Some(pair.place));
            }
        }
    }
}
