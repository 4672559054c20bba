//! Loops of one item: all items that stand are read in one step. Ways that die at once, as bytes tell, are passed over, and counted.
//! Where what follows the loop closes a region, as in a possessive repeat, no branch is saved.

ghost use Rattle.std.specs.Prelude.{◌≡◌, ◌+◌, ◌-◌, ◌^◌, ◌<◌, ◌≤◌, ◌⊎◌, ℕ, List, if◌then◌else◌, true, false, length, IfOk, IfSome, Option};
ghost use Rattle.fancy_meaning.specs.Context.{State};
ghost use Rattle.fancy_input.specs.Work.{returns_of};
ghost use Rattle.fancy_splits.specs.declared.splits.ToldSplit.{ToldSplit};
ghost use Rattle.fancy_splits.specs.declared.splits.Splits.{Splits};
ghost use Rattle.fancy_splits.specs.Splits.{AreApart, IsNoted};
ghost use Rattle.fancy_machine.specs.Attempt.{DiesAt, DieFirst};
ghost use Rattle.fancy_machine.specs.Runs.{HasItems, IsStuck, Lacks, DieFrom, KnowsRun, IsPartOf, IsRun};
ghost use Rattle.fancy_machine.specs.Parts.{StandsAt, GoesOver, CountsGoing, WentOn};
ghost use Rattle.fancy_machine.specs.Units.{CountsUnits};

use crate::attempt::Attempt;
use fancy_code::step::Next;
use fancy_input::refusal::SearchRefusal;
use fancy_input::work::Work;
use fancy_splits::splits::ToldSplit;
use fancy_trail::trail::{SavedRun, Trail};

/// How many items of a loop stand one after another from a place on, each of them one byte, up to an end.
fn run_len(split: &ToldSplit, haystack: &[u8], place: usize, end: usize) -> usize
    requires inside { end ≤ length haystack.now }
    ensures items { HasItems split.now haystack.now place result }
    ensures within { result ≤ end - place }
{
    'items: for past in place..end {
        if !split.is_item(haystack[past]) {
            return past - place;
        }
    }
    end.saturating_sub(place)
}

/// Whether the byte at a place lets the first way go on; it may where no byte stands.
pub(crate) fn may_begin(split: &ToldSplit, haystack: &[u8], place: usize) -> bool
    ensures { result ≡ false → Lacks split.now.begins haystack.now place }
{
    match haystack.get(place) {
        Some(byte) => split.may_begin(*byte),
        None => true,
    }
}

/// Whether an item of a loop may stand at a place, where consumed text ends by a limit: none does where nothing is consumed any more.
pub(crate) fn may_stand(split: &ToldSplit, haystack: &[u8], limit: usize, place: usize) -> bool
    ensures { result ≡ false → IsStuck split.now haystack.now limit place }
{
    let is_past = limit <= place || haystack.len() <= place;
    !is_past && may_begin(split, haystack, place)
}

/// Whether what follows a loop may go on at a place; it may where no byte stands.
pub(crate) fn may_leave(split: &ToldSplit, haystack: &[u8], place: usize) -> bool
    ensures { result ≡ false → Lacks split.now.leaves haystack.now place }
{
    match haystack.get(place) {
        Some(byte) => split.may_leave(*byte),
        None => true,
    }
}

/// What was read at a choice.
#[derive(Clone, Copy, PartialEq, Eq, Debug)]
pub(crate) struct Run {
    /// How many items of a loop stand, each of them one byte.
    count: usize,
    /// Whether the first way dies after them.
    is_stuck: bool,
    /// Whether the second way ends the region that it stands in, so that no branch at an earlier place is taken.
    closes: bool,
}

impl Run {
    /// How many branches are saved at places that are passed over.
    fn saved(self, places: usize) -> usize
        ensures { result ≡ (if self.closes then 0 else places) }
    {
        if self.closes { 0 } else { places }
    }
}

/// Of the places from one on up to that after all items, those up to the last at which what follows a loop may go on: how many they
/// are.
fn places_left(split: &ToldSplit, haystack: &[u8], from: usize, run: Run) -> usize
    requires items { HasItems split.now haystack.now from run.count }
    requires apart { split.now.apart ≡ true → AreApart split.now.items split.now.leaves }
    requires fits { from + run.count < 2 ^ 64 }
    ensures few { result ≤ run.count + 1 }
    ensures dies { DieFrom split.now haystack.now from result (run.count + 1) }
    ensures closes { run.closes ≡ true → result ≡ run.count + 1 }
{
    if run.closes || may_leave(split, haystack, from + run.count) {
        return run.count + 1;
    }
    if split.apart {
        return 0;
    }
    'places: for index in (0..run.count).rev() {
        if may_leave(split, haystack, from + index) {
            return index + 1;
        }
    }
    0
}

/// The run that was read last: from one place up to another stand items of the loop at an instruction, each of them one byte. So a
/// later attempt does not read them again.
#[derive(Clone, Copy, PartialEq, Eq, Debug)]
pub(crate) struct LastRun {
    at: usize,
    from: usize,
    past: usize,
}

impl LastRun {
    /// No items.
    pub(crate) fn none() -> LastRun
        ensures { (splits : Splits) (haystack : List ℕ) → KnowsRun splits haystack result }
    {
        LastRun {
            at: 0,
            from: 0,
            past: 0,
        }
    }

    /// How many of its items stand from a place on, where that is one of its places, and it ends by an end.
    fn items_from(self, at: usize, place: usize, end: usize) -> Option<usize>
        ensures within { IfSome result (λ n. n ≤ end - place) }
        ensures part { IfSome result (λ n. IsPartOf self at place n) }
        ensures items { (splits : Splits) (haystack : List ℕ) (l : ToldSplit)
            → KnowsRun splits haystack self → IsNoted splits at l
            → IfSome result (λ n. HasItems l haystack place n) }
    {
        if self.at == at && self.from <= place && place <= self.past && self.past <= end {
            return Some(self.past - place);
        }
        None
    }

    /// Where it ends, where it is one of the loop at an instruction, and one of its items stands at a place.
    #[inline]
    pub(crate) fn past_of(self, at: usize, place: usize) -> Option<usize>
        ensures past { IfSome result (λ past. place < past) }
        ensures items { (splits : Splits) (haystack : List ℕ) (l : ToldSplit)
            → KnowsRun splits haystack self → IsNoted splits at l
            → IfSome result (λ past. HasItems l haystack place (past - place)) }
    {
        if self.at == at && self.from <= place && place < self.past {
            return Some(self.past);
        }
        None
    }
}

/// Reads the items of a loop that stand where the trail does, each of them one byte, and counts them as units: how many they are. Those
/// of the run that was read last are not read again.
pub(crate) fn read_run(
    attempt: &Attempt,
    split: &ToldSplit,
    trail: &Trail,
    last_run: &mut LastRun,
    work: &mut Work,
) -> Result<usize, SearchRefusal>
    requires { StandsAt attempt.now split.now trail.now last_run.old }
    ensures items { IfOk result
        (λ n. HasItems split.now attempt.now.haystack.now trail.now.now.state.place n) }
    ensures inside { IfOk result (λ n. n ≤ trail.now.now.limit - trail.now.now.state.place) }
    ensures fits { IfOk result (λ n. trail.now.now.state.place + n < 2 ^ 64) }
    ensures short { IfOk result (λ n. n + 2 < 2 ^ 64) }
    ensures known { KnowsRun attempt.now.splits.now attempt.now.haystack.now last_run.new }
    ensures units { GoesOver attempt.now.options.now.step_limit result work.old work.new }
    ensures counted { IfOk result (λ n.
        IsPartOf last_run.old trail.now.now.at trail.now.now.state.place n
        ⊎ CountsUnits n work.old work.new) }
{
    let from = trail.place();
    let at = trail.at();
    let end = trail.limit().min(attempt.haystack.len());
    if let Some(count) = last_run.items_from(at, from, end) {
        return Ok(count);
    }
    let count = run_len(split, attempt.haystack, from, end);
    if count > 0 {
        let past = from + count;
        *last_run = LastRun { at, from, past };
        attempt.count_units(count, work)?;
    }
    Ok(count)
}

/// Reads the items of a loop that stand where the trail does. Those that stand in a group are read only where the first way dies after
/// them, and the second one ends its region: else the group holds another one at each place.
fn read_ahead(
    attempt: &Attempt,
    split: &ToldSplit,
    trail: &Trail,
    last_run: &mut LastRun,
    work: &mut Work,
) -> Result<Run, SearchRefusal>
    requires { StandsAt attempt.now split.now trail.now last_run.old }
    ensures run { IfOk result (λ run. IsRun split.now attempt.now.haystack.now trail.now run) }
    ensures known { KnowsRun attempt.now.splits.now attempt.now.haystack.now last_run.new }
    ensures units { GoesOver attempt.now.options.now.step_limit result work.old work.new }
{
    let from = trail.place();
    let closes = split.stop.is_some() && trail.closes_at_any_stop();
    if split.group.is_some() && !closes {
        let is_stuck = !may_stand(split, attempt.haystack, trail.limit(), from);
        return Ok(Run {
            count: 0,
            is_stuck,
            closes,
        });
    }
    let count = read_run(attempt, split, trail, last_run, work)?;
    let is_stuck = !may_stand(split, attempt.haystack, trail.limit(), from + count);
    let one_by_one = split.group.is_some() && !is_stuck;
    Ok(Run {
        count: if one_by_one { 0 } else { count },
        is_stuck,
        closes,
    })
}

/// Goes on at a loop: it reads all items that stand, and saves a branch at each place. Where the first way dies, it
/// goes back to the last place at which the second one may go on. That is the last place of all where the second way closes the region
/// that it stands in, and then no branch is saved, since none would be taken.
pub(crate) fn pass(
    attempt: &Attempt,
    split: &ToldSplit,
    trail: &mut Trail,
    limit: usize,
    last_run: &mut LastRun,
    work: &mut Work,
) -> Result<Next, SearchRefusal>
    requires noted { IsNoted attempt.now.splits.now trail.old.now.at split.now }
    requires known { KnowsRun attempt.now.splits.now attempt.now.haystack.now last_run.old }
    requires room { returns_of work.old ≤ limit }
    ensures went { (best : Option State) → WentOn attempt.now limit result
        trail.old best trail.new best work.old work.new }
    ensures counts { CountsGoing limit attempt.now.options.now.step_limit result work.old work.new }
    ensures known { KnowsRun attempt.now.splits.now attempt.now.haystack.now last_run.new }
{
    work.count_step_within();
    let read = read_ahead(attempt, split, trail, last_run, work)?;
    let from = trail.place();
    if !read.is_stuck {
        trail.save_run(split.second, from, read.count + 1)?;
        trail.go_to(split.first, from + read.count);
        return Ok(Next::On);
    }
    if !trail.has_room_for(read.count + 1) {
        return Err(SearchRefusal::Choices);
    }
    let step_limit = attempt.options.step_limit;
    let left = places_left(split, attempt.haystack, from, read);
    if left == 0 {
        work.count_returns(read.count + 1, limit, step_limit)?;
        return Ok(Next::Dead);
    }
    work.count_returns(read.count + 2 - left, limit, step_limit)?;
    trail.save_run(split.second, from, read.saved(left - 1))?;
    if split.group.is_none() {
        trail.go_to(split.second, from + (left - 1));
        return Ok(Next::On);
    }
    trail.read_items(split.group, left - 1, split.second)?;
    Ok(Next::On)
}

/// At how many places of saved branches, those that are taken first, bytes tell that the way dies at once.
fn places_dead(attempt: &Attempt, run: SavedRun) -> usize
    requires { run.first ≤ run.last }
    ensures few { result ≤ run.last - run.first + 1 }
    ensures dead { (k : ℕ) → k < result → DiesAt attempt.now run.at (run.last - k) }
{
    let Some(split) = attempt.splits.at(run.by) else {
        return 0;
    };
    if split.second != run.at {
        return 0;
    }
    let earlier = run.last - run.first;
    'places: for past in 0..earlier {
        if may_leave(split, attempt.haystack, run.last - past) {
            return past;
        }
    }
    if may_leave(split, attempt.haystack, run.first) {
        return earlier;
    }
    earlier + 1
}

/// Passes over branches that were saved last, at which bytes tell that the way dies at once: how many they are.
#[inline(never)]
pub(crate) fn pass_over(attempt: &Attempt, trail: &mut Trail) -> usize
    ensures passed { DieFirst attempt.now result trail.old.frames trail.new.frames }
    ensures most { trail.new.most ≡ trail.old.most }
{
    match trail.last_run() {
        Some(run) => trail.drop_last(places_dead(attempt, run)),
        None => 0,
    }
}
