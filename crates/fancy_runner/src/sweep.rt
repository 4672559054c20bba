//! Searches that saved much go on without saving more: the threads that are left are followed in the order of their places.

ghost use Rattle.std.specs.Prelude.{◌≡◌, ◌+◌, ◌-◌, ◌*◌, ◌^◌, ◌<◌, ◌≤◌, ◌⊎◌, ◌≢◌, ◌++◌, ◌∷◌, [], ℕ, List, Option, Some, None, Err, true, false, length, reverse, IfOk, IfSome};
ghost use Rattle.fancy_meaning.specs.Context.{State};
ghost use Rattle.fancy_code.specs.Code.{due_of, instrs_of};
ghost use Rattle.fancy_runner.specs.Runner.{burden, AllWithin, Grown, found_state};
ghost use Rattle.fancy_code.specs.CodeLength.{code_len};
ghost use Rattle.fancy_code.specs.Compile.{AreEasy};
ghost use Rattle.fancy_input.specs.Work.{steps_of, returns_of, RunsWithin, IsSpent};
ghost use Rattle.fancy_input.specs.LastLines.{KnowsLastLines};
ghost use Rattle.fancy_code.specs.Thread.{Thread};
ghost use Rattle.fancy_runner.specs.Threads.{thread_of, with_way, held_of, AreFresh};
ghost use Rattle.fancy_code.specs.Attempt.{instrs_in};
ghost use Rattle.fancy_runner.specs.Attempt.{stack_in, saved_in, threads_in, threads_left_in, bits_in, owed_in, ahead_in, AllFailedIn, FailedPastIn, RunningIn};
ghost use Rattle.fancy_runner.specs.Sweep.{AllPast, AreRising, SweepingIn, SweptIn, SweptTo};
ghost use Rattle.fancy_runner.specs.Sweeps.{backlog_in, left_in_sweep, found_in, due_in_rows, IsDrained, WaitsFrom, KeepsBacklog, KeepsFound};
ghost use Rattle.fancy_runner.specs.Runs.{IsReadyFor, IsReadyAt, Saves, IsReadyFrom, Ran, EndsIn, FailedTo};

use crate::backlog::Backlog;
use crate::notes::Notes;
use crate::pair::Pair;
use crate::refusal::RunnerRefusal;
use crate::row::Row;
use crate::runner::visit;
use crate::threads::Threads;
use fancy_code::attempt::Attempt;
use fancy_code::code::Code;
use fancy_code::step::Next;
use fancy_input::work::Work;
use std::alloc::AllocError;
use std::mem;

/// Visits a pair. A thread that goes on at a later place waits there, and is over here.
fn visit_here(
    attempt: &Attempt,
    pair: &mut Pair,
    threads: &mut Threads,
    later: &mut Row,
    notes: &mut Notes,
    work: &mut Work,
) -> Result<Next, RunnerRefusal>
    requires ready { IsReadyFor attempt.now (threads_in attempt.now pair.old threads.old)
        notes.old }
    ensures swept { IfOk result (λ next. (low kept deep : ℕ) (goal found : Option State)
        (front back : List Thread)
        → attempt.now.base ≤ low → AllWithin low attempt.now.last
        (threads_in attempt.now pair.old threads.old)
        → AllPast pair.old.place front → AllPast pair.old.place later.old
        → SweepingIn attempt.now low kept deep goal notes.old.table
        ((front ++ reverse later.old) ++ (threads_in attempt.now pair.old threads.old
        ++ back)) found
        → SweptIn attempt.now low kept deep next goal notes.new.table (front ++ reverse later.new)
        (stack_in attempt.now pair.new threads.new) back found) }
    ensures here { IfOk result (λ next. next ≢ Next.Dead → pair.new.place ≡ pair.old.place) }
    ensures saves { IfOk result (λ _. Saves attempt.now pair.old.place threads.old threads.new
        work.old work.new) }
    ensures past { IfOk result (λ _. AllPast pair.old.place later.old
        → AllPast pair.old.place later.new) }
    ensures more { IfOk result (λ _. burden attempt.now.code.now later.old
        ≤ burden attempt.now.code.now later.new) }
    ensures later { IfOk result (λ _. (low : ℕ) → low ≤ pair.old.place
        → AllWithin low attempt.now.last later.old
        → AllWithin low attempt.now.last later.new) }
    ensures less { IfOk result (λ next. next ≡ Next.On
        → 2 * ahead_in attempt.now notes.new.table (threads_in attempt.now pair.new threads.new)
        + length (saved_in attempt.now threads.new)
        < 2 * ahead_in attempt.now notes.old.table (threads_in attempt.now pair.old threads.old)
        + length (saved_in attempt.now threads.old)) }
    ensures no_more { IfOk result (λ next. next ≡ Next.Dead
        → 2 * ahead_in attempt.now notes.new.table (saved_in attempt.now threads.new)
        + length (saved_in attempt.now threads.new)
        ≤ 2 * ahead_in attempt.now notes.old.table (threads_in attempt.now pair.old threads.old)
        + length (saved_in attempt.now threads.old)) }
    ensures spent { IfOk result (λ next. steps_of work.new + burden attempt.now.code.now later.new
        + ahead_in attempt.now notes.new.table
        (threads_left_in attempt.now next pair.new threads.new)
        ≤ steps_of work.old + burden attempt.now.code.now later.old
        + ahead_in attempt.now notes.old.table (threads_in attempt.now pair.old threads.old)) }
    ensures spent_here { IfOk result (λ next. steps_of work.new
        + ahead_in attempt.now notes.new.table
        (threads_left_in attempt.now next pair.new threads.new)
        ≤ steps_of work.old + ahead_in attempt.now notes.old.table
        (threads_in attempt.now pair.old threads.old)) }
    ensures returns { returns_of work.new ≡ returns_of work.old }
    ensures ran { Ran attempt.now (burden attempt.now.code.now
        (threads_in attempt.now pair.old threads.old)) result
        notes.old notes.new work.old work.new }
{
    let place = pair.place;
    match visit(attempt, pair, threads, notes, work)? {
        Next::On => {
            if pair.place == place {
                return Ok(Next::On);
            }
            later.push_current(*pair, threads, attempt.code)?;
            Ok(Next::Dead)
        }
        Next::Dead => Ok(Next::Dead),
        Next::Found => Ok(Next::Found),
    }
}

/// Follows a thread, and all that it leads to at its place; what goes on at later places waits there. The place of the first
/// accepted outcome there, whose slots then stand in `threads`.
fn follow_here(
    attempt: &Attempt,
    start: Pair,
    threads: &mut Threads,
    later: &mut Row,
    notes: &mut Notes,
    work: &mut Work,
) -> Result<Option<usize>, RunnerRefusal>
    requires ready { IsReadyAt attempt.now start.place notes.old }
    requires fresh { AreFresh threads.old }
    ensures swept { IfOk result (λ end. (low kept deep : ℕ) (goal found : Option State)
        (front back : List Thread)
        → attempt.now.base ≤ low → low ≤ start.place → AllPast start.place front
        → AllPast start.place later.old
        → SweepingIn attempt.now low kept deep goal notes.old.table
        ((front ++ reverse later.old) ++ thread_of start threads.old.slots ∷ back) found
        → SweptTo attempt.now low kept deep end goal notes.new.table (front ++ reverse later.new)
        back threads.new.slots found) }
    ensures found { IfOk result (λ end. IfSome end (λ place. place ≡ start.place)) }
    ensures past { IfOk result (λ _. AllPast start.place later.old
        → AllPast start.place later.new) }
    ensures later { IfOk result (λ _. (low : ℕ) → low ≤ start.place
        → AllWithin low attempt.now.last later.old
        → AllWithin low attempt.now.last later.new) }
    ensures spent { IfOk result (λ _. steps_of work.new + burden attempt.now.code.now later.new
        + owed_in attempt.now notes.new.table
        ≤ steps_of work.old + burden attempt.now.code.now later.old
        + (due_of attempt.now.code.now start.at + owed_in attempt.now notes.old.table)) }
    ensures ran { Ran attempt.now (due_of attempt.now.code.now start.at) result
        notes.old notes.new work.old work.new }
{
    let mut pair = start;
    'pairs: loop {
        match visit_here(attempt, &mut pair, threads, later, notes, work)? {
            Next::On => {}
            Next::Dead => match threads.back(attempt.code, work) {
                Some(branch) => pair = branch,
                None => return Ok(None),
            },
            Next::Found => {
                threads.settle(attempt.code);
                return Ok(Some(pair.place));
            }
        }
    }
}

/// The threads that a search has before it, in the order of their places, and what it found.
#[derive(Drop)]
pub struct Sweep {
    /// Those that were saved before, at later places.
    pub backlog: Backlog,
    /// Where the oldest of these stands, which was taken out.
    pub waiting: Option<Pair>,
    /// Those that wait at this place or a later one.
    pub row: Row,
    /// Those that were followed up to a later place.
    pub later: Row,
    /// The thread that is followed at this place, and what it saved.
    pub threads: Threads,
    /// Where the outcome ends that was found last.
    pub found: Option<usize>,
    /// Its slots.
    pub best: Threads,
}

impl Sweep {
    /// Begins with the threads of a search, of which the one that is followed stands at a pair. The oldest was taken out.
    fn new(code: &Code, threads: &mut Threads, pair: Pair) -> Sweep
        ensures backlog { backlog_in code.now result
            ≡ with_way (Some pair) (held_of (instrs_of code.now) threads.old).slots
            (held_of (instrs_of code.now) threads.old).saved }
        ensures drained { IsDrained code.now result }
        ensures row { result.row ≡ [] }
        ensures later { result.later ≡ [] }
        ensures found { result.found ≡ None }
    {
        let alloc = threads.allocator();
        let mut backlog = Backlog::new(threads, pair);
        let waiting = backlog.oldest(code);
        Sweep {
            backlog,
            waiting,
            row: Row::new(alloc),
            later: Row::new(alloc),
            threads: Threads::new(alloc),
            found: None,
            best: Threads::new(alloc),
        }
    }

    /// Takes the oldest thread out of the backlog into the row, if it stands at the place.
    fn gather_one(&mut self, code: &Code, place: usize) -> Result<bool, AllocError>
        ensures same { IfOk result (λ any. left_in_sweep code.now self.new
            ≡ left_in_sweep code.now self.old) }
        ensures less { IfOk result (λ any. any ≡ true
            → length (backlog_in code.now self.new) + 1 ≡ length (backlog_in code.now self.old)) }
        ensures rising { IfOk result (λ any. AreRising (backlog_in code.now self.old)
            → AreRising (backlog_in code.now self.new)) }
        ensures past { IfOk result (λ any. any ≡ false → AreRising (backlog_in code.now self.old)
            → IsDrained code.now self.old
            → AllPast place (backlog_in code.now self.new)) }
        ensures drained { IfOk result (λ any. IsDrained code.now self.old
            → IsDrained code.now self.new) }
        ensures kept { KeepsFound self.old self.new }
    {
        let Some(pair) = self.waiting else {
            return Ok(false);
        };
        if pair.place > place {
            return Ok(false);
        }
        self.row.push(pair, self.backlog.slots())?;
        self.waiting = self.backlog.oldest(code);
        Ok(true)
    }

    /// Takes the threads that stand at the place out of the backlog into the row.
    fn gather(&mut self, code: &Code, place: usize) -> Result<(), AllocError>
        requires drained { IsDrained code.now self.old }
        requires rising { AreRising (backlog_in code.now self.old) }
        ensures same { IfOk result (λ _. left_in_sweep code.now self.new
            ≡ left_in_sweep code.now self.old) }
        ensures rising { IfOk result (λ _. AreRising (backlog_in code.now self.new)) }
        ensures past { IfOk result (λ _. AllPast place (backlog_in code.now self.new)) }
        ensures drained { IfOk result (λ _. IsDrained code.now self.new) }
        ensures kept { KeepsFound self.old self.new }
    {
        'threads: while self.gather_one(code, place)? {}
        Ok(())
    }

    /// Whether no thread is left.
    fn is_over(&self) -> bool
        ensures over { result ≡ true → (code : Code) → IsDrained code self.now
            → left_in_sweep code self.now ≡ [] }
        ensures open { result ≡ false → (code : Code) → left_in_sweep code self.now ≢ [] }
    {
        match self.waiting {
            Some(_) => false,
            None => self.row.is_empty(),
        }
    }

    /// Where what was found ends, whose slots `threads` has then.
    fn finish(&mut self, threads: &mut Threads) -> Option<usize>
        ensures found { result ≡ self.old.found }
        ensures slots { threads.new ≡ self.old.best }
    {
        mem::swap(threads, &mut self.best);
        self.found
    }
}

/// Follows the thread that was loaded, which stands at a pair, if that is at the place; else it waits on. Where an outcome is found,
/// the threads that are left in the row are left out.
fn follow_one(
    attempt: &Attempt,
    place: usize,
    pair: Pair,
    sweep: &mut Sweep,
    notes: &mut Notes,
    work: &mut Work,
) -> Result<(), RunnerRefusal>
    requires ready { IsReadyFrom attempt.now place notes.old }
    requires from { place ≤ pair.place }
    requires high { pair.place ≤ attempt.now.last }
    requires fresh { AreFresh sweep.old.threads }
    ensures swept { IfOk result (λ _. (low kept deep : ℕ) (goal : Option State)
        (front : List Thread)
        → attempt.now.base ≤ low → low ≤ place → AllPast place front → AllPast place sweep.old.later
        → SweepingIn attempt.now low kept deep goal notes.old.table
        ((front ++ reverse sweep.old.later) ++ thread_of pair sweep.old.threads.slots
        ∷ sweep.old.row) (found_in kept sweep.old)
        → SweepingIn attempt.now low kept deep goal notes.new.table
        ((front ++ reverse sweep.new.later) ++ sweep.new.row) (found_in kept sweep.new)) }
    ensures row { IfOk result (λ _. (sweep.new.row ≡ sweep.old.row) ⊎ (sweep.new.row ≡ [])) }
    ensures past { IfOk result (λ _. AllPast place sweep.old.later
        → AllPast place sweep.new.later) }
    ensures later { IfOk result (λ _. (low : ℕ) → low ≤ place
        → AllWithin low attempt.now.last sweep.old.later
        → AllWithin low attempt.now.last sweep.new.later) }
    ensures found { IfOk result (λ _. (sweep.new.found ≡ sweep.old.found)
        ⊎ (sweep.new.found ≡ Some place)) }
    ensures kept { KeepsBacklog sweep.old sweep.new }
    ensures spent { IfOk result (λ _. steps_of work.new + due_in_rows attempt.now.code.now sweep.new
        + owed_in attempt.now notes.new.table
        ≤ steps_of work.old + due_in_rows attempt.now.code.now sweep.old
        + (due_of attempt.now.code.now pair.at + owed_in attempt.now notes.old.table)) }
    ensures ran { Ran attempt.now (due_of attempt.now.code.now pair.at) result
        notes.old notes.new work.old work.new }
{
    if pair.place > place {
        sweep
            .later
            .push_current(pair, &sweep.threads, attempt.code)?;
        return Ok(());
    }
    match follow_here(
        attempt,
        pair,
        &mut sweep.threads,
        &mut sweep.later,
        notes,
        work,
    )? {
        None => Ok(()),
        Some(end) => {
            sweep.found = Some(end);
            mem::swap(&mut sweep.threads, &mut sweep.best);
            sweep.row.clear();
            Ok(())
        }
    }
}

/// Follows the threads of the row that stand at the place.
fn follow_row(
    attempt: &Attempt,
    place: usize,
    sweep: &mut Sweep,
    notes: &mut Notes,
    work: &mut Work,
) -> Result<(), RunnerRefusal>
    requires ready { IsReadyFrom attempt.now place notes.old }
    requires row { AllWithin place attempt.now.last sweep.old.row }
    requires empty { sweep.old.later ≡ [] }
    ensures swept { IfOk result (λ _. (low kept deep : ℕ) (goal : Option State)
        (front : List Thread)
        → attempt.now.base ≤ low → low ≤ place → AllPast place front
        → SweepingIn attempt.now low kept deep goal notes.old.table (front ++ sweep.old.row)
        (found_in kept sweep.old)
        → SweepingIn attempt.now low kept deep goal notes.new.table (front ++ sweep.new.row)
        (found_in kept sweep.new)) }
    ensures row { IfOk result (λ _. AllWithin (place + 1) attempt.now.last sweep.new.row) }
    ensures empty { IfOk result (λ _. sweep.new.later ≡ []) }
    ensures found { IfOk result (λ _. (sweep.new.found ≡ sweep.old.found)
        ⊎ (sweep.new.found ≡ Some place)) }
    ensures kept { KeepsBacklog sweep.old sweep.new }
    ensures spent { IfOk result (λ _. steps_of work.new
        + (burden attempt.now.code.now sweep.new.row + owed_in attempt.now notes.new.table)
        ≤ steps_of work.old + (burden attempt.now.code.now sweep.old.row
        + owed_in attempt.now notes.old.table)) }
    ensures ran { Ran attempt.now (burden attempt.now.code.now sweep.old.row) result
        notes.old notes.new work.old work.new }
{
    'threads: while let Some(pair) = sweep.row.pop(&mut sweep.threads)? {
        follow_one(attempt, place, pair, sweep, notes, work)?;
    }
    sweep.later.pass_all(&mut sweep.row)?;
    Ok(())
}

/// Follows the threads that stand at the place, also those that were saved there before.
fn follow_place(
    attempt: &Attempt,
    place: usize,
    sweep: &mut Sweep,
    notes: &mut Notes,
    work: &mut Work,
) -> Result<(), RunnerRefusal>
    requires ready { IsReadyFrom attempt.now place notes.old }
    requires waits { WaitsFrom attempt.now place sweep.old }
    ensures swept { IfOk result (λ _. (low kept deep : ℕ) (goal : Option State)
        → attempt.now.base ≤ low → low ≤ place
        → SweepingIn attempt.now low kept deep goal notes.old.table
        (left_in_sweep attempt.now.code.now sweep.old) (found_in kept sweep.old)
        → SweepingIn attempt.now low kept deep goal notes.new.table
        (left_in_sweep attempt.now.code.now sweep.new) (found_in kept sweep.new)) }
    ensures waits { IfOk result (λ _. WaitsFrom attempt.now (place + 1) sweep.new) }
    ensures found { IfOk result (λ _. (sweep.new.found ≡ sweep.old.found)
        ⊎ (sweep.new.found ≡ Some place)) }
    ensures spent { IfOk result (λ _. steps_of work.new
        + ahead_in attempt.now notes.new.table (left_in_sweep attempt.now.code.now sweep.new)
        ≤ steps_of work.old + ahead_in attempt.now notes.old.table
        (left_in_sweep attempt.now.code.now sweep.old)) }
    ensures ran { Ran attempt.now (burden attempt.now.code.now
        (left_in_sweep attempt.now.code.now sweep.old)) result
        notes.old notes.new work.old work.new }
{
    sweep.gather(attempt.code, place)?;
    follow_row(attempt, place, sweep, notes, work)?;
    Ok(())
}

/// The place of the first accepted outcome of the threads that a search has before it, of which the one that is followed stands at a
/// pair; its slots then stand in `threads`. They are followed in the order of their places, those that stand at one place in order of
/// preference, so that no more is kept of them than the threads at some neighbouring places.
pub(crate) fn follow_by_place(
    attempt: &Attempt,
    pair: Pair,
    threads: &mut Threads,
    notes: &mut Notes,
    work: &mut Work,
) -> Result<Option<usize>, RunnerRefusal>
    requires ready { IsReadyFor attempt.now (threads_in attempt.now pair threads.old) notes.old }
    requires rising { AreRising (threads_in attempt.now pair threads.old) }
    ensures answer { IfOk result (λ end. (low kept deep : ℕ) (goal : Option State)
        → attempt.now.base ≤ low
        → AllWithin low attempt.now.last (threads_in attempt.now pair threads.old)
        → RunningIn attempt.now low kept deep goal notes.old.table
        (stack_in attempt.now pair threads.old)
        → found_state kept end threads.new.slots ≡ goal) }
    ensures left { IfOk result (λ end. (low kept deep : ℕ) (goal : Option State)
        → attempt.now.base ≤ low
        → AllWithin low attempt.now.last (threads_in attempt.now pair threads.old)
        → RunningIn attempt.now low kept deep goal notes.old.table
        (stack_in attempt.now pair threads.old)
        → FailedTo attempt.now low deep end notes.new.table) }
    ensures ends { IfOk result (λ end. (low : ℕ)
        → AllWithin low attempt.now.last (threads_in attempt.now pair threads.old)
        → EndsIn attempt.now low end) }
    ensures ran { Ran attempt.now (burden attempt.now.code.now
        (threads_in attempt.now pair threads.old)) result
        notes.old notes.new work.old work.new }
{
    let mut sweep = Sweep::new(attempt.code, threads, pair);
    let Some(first) = sweep.waiting else {
        return Ok(None);
    };
    let last = attempt.last;
    for place in first.place..last {
        if sweep.is_over() {
            return Ok(sweep.finish(threads));
        }
        follow_place(attempt, place, &mut sweep, notes, work)?;
    }
    follow_place(attempt, last, &mut sweep, notes, work)?;
    Ok(sweep.finish(threads))
}
