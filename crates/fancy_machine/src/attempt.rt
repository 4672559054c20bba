//! One attempt: a walk through the code from a position, which goes back to the saved branches.

ghost use Rattle.std.specs.Prelude.{◌≡◌, ◌≢◌, ◌+◌, ◌-◌, ◌<◌, ◌≤◌, [], ℕ, Option, Err, IfOk, OnOk};
ghost use Rattle.fancy_tree.specs.Pattern.{Pattern};
ghost use Rattle.fancy_input.specs.LastLines.{KnowsLastLines};
ghost use Rattle.fancy_code.specs.Queries.{query_of};
ghost use Rattle.fancy_meaning.specs.Search.{continues_from};
ghost use Rattle.fancy_input.specs.Work.{returns_of, AddsReturns};
ghost use Rattle.fancy_code.specs.Thread.{IsKnown};
ghost use Rattle.fancy_splits.specs.Splits.{AreSplits};
ghost use Rattle.fancy_meaning.specs.Context.{State};
ghost use Rattle.fancy_splits.specs.Once.{splits_once};

use crate::atoms::pass_atom;
use crate::choice::choose;
use crate::denials::{pass_denial, sight_at};
use crate::runs::{pass, pass_over};
use crate::seen::Seen;
use crate::step::step;
use fancy_code::code::Code;
use fancy_code::step::Next;
use fancy_input::input::Request;
use fancy_input::last_lines::LastLines;
use fancy_input::refusal::SearchRefusal;
use fancy_input::work::Work;
use fancy_meaning::options::{SearchOptions, is_match_boundary};
use fancy_meaning::reading::SuppressedEnds;
use fancy_splits::splits::{Splits, ToldPart};
use fancy_trail::best::Best;
use fancy_trail::trail::Trail;

/// The attempts of one search: the code that they follow, the haystack, and what they accept there.
#[derive(Drop)]
pub(crate) struct Attempt<'a> {
    pub(crate) code: &'a Code,
    pub(crate) haystack: &'a [u8],
    /// Where `\G` holds, as a byte offset, if anywhere.
    pub(crate) continues: Option<usize>,
    /// The ends of the text that do not count as such.
    pub(crate) suppressed: SuppressedEnds,
    pub(crate) options: &'a SearchOptions,
    /// The choices of the code of which bytes tell something.
    pub(crate) splits: &'a Splits,
    ghost told: { AreSplits splits.now code.now } by { splits_once splits.now code.now },
}

/// Where `\G` holds: at the first position of the search, or nowhere.
fn continues_from(continues: bool, overrides: bool, request: Request) -> Option<usize>
    ensures { result ≡ continues_from continues overrides request }
{
    let suppressed = overrides && !request.continues;
    if continues && !suppressed {
        Some(request.effective_start())
    } else {
        None
    }
}

impl<'a> Attempt<'a> {
    ghost use Rattle.fancy_machine.specs.Asked.{Serves};
    ghost use Rattle.fancy_machine.specs.Attempt.{KnowsSeen, accepts, code_in, IsFull, TurnsTo, PassesBack, GoesBack, outcome_from, returns_from, marks_from};
    ghost use Rattle.fancy_trail.specs.Best.{state_if_found};
    ghost use Rattle.fancy_machine.specs.Parts.{IsReady, GoesOver, TakesStep, HeedsLimits, CountsGoing, WentOn, TakesBranches, KeepsCounts};
    ghost use Rattle.fancy_machine.specs.Units.{CountsBack, CountsUnits};
    ghost use Rattle.fancy_trail.specs.Left.{after};

    /// The attempts of a search, in which `\G` is on or off.
    pub(crate) fn new(
        code: &'a Code,
        splits: &'a Splits,
        haystack: &'a [u8],
        request: Request,
        options: &'a SearchOptions,
        continues: bool,
    ) -> Attempt<'a>
        requires { AreSplits splits.now code.now }
        ensures code { result.code.now ≡ code.now }
        ensures options { result.options.now ≡ options.now }
        ensures haystack { result.haystack.now ≡ haystack.now }
        ensures splits { result.splits.now ≡ splits.now }
        ensures serves { (p : Pattern)
            → Serves result (query_of p code.now options.now haystack.now request continues) }
    {
        Attempt {
            code,
            haystack,
            continues: continues_from(continues, options.overrides, request),
            suppressed: options.suppressed_ends(request),
            options,
            splits,
        }
    }

    /// Whether the outcome is accepted at which a trail stands.
    fn accepts(&self, trail: &Trail) -> bool
        ensures { result ≡ accepts self.now trail.now.now.state }
    {
        let kept = trail.kept();
        let place = trail.place();
        let on_boundaries = self.options.on_boundaries;
        is_match_boundary(on_boundaries, self.haystack, kept)
            && is_match_boundary(on_boundaries, self.haystack, place)
            && (!self.options.not_empty || kept != place)
    }

    /// Counts units that an instruction is about to go over. Where the limit of steps allows fewer, it counts those, and the attempt is
    /// refused.
    pub(crate) fn count_units(&self, units: usize, work: &mut Work) -> Result<(), SearchRefusal>
        ensures units { GoesOver self.now.options.now.step_limit result work.old work.new }
        ensures counted { OnOk result (CountsUnits units work.old work.new) }
    {
        if !work.count_units(units, self.options.step_limit) {
            return Err(SearchRefusal::Steps);
        }
        Ok(())
    }

    /// Counts so many returns, of which there are most often none. Where a limit allows fewer, it counts those, and the attempt is
    /// refused.
    #[inline]
    pub(crate) fn count_returns(
        &self,
        count: usize,
        limit: usize,
        work: &mut Work,
    ) -> Result<(), SearchRefusal>
        requires { returns_of work.old ≤ limit }
        ensures counted { OnOk result (returns_of work.new ≡ returns_of work.old + count) }
        ensures adds { AddsReturns count work.old work.new }
        ensures refused { result ≡ Err SearchRefusal.Returns → limit < returns_of work.old + count }
        ensures saved { result ≢ Err SearchRefusal.Choices }
        ensures heeds { HeedsLimits limit self.now.options.now.step_limit result work.old work.new }
    {
        if count == 0 {
            return Ok(());
        }
        work.count_returns(count, limit, self.options.step_limit)
    }

    /// Follows one instruction, where an outcome that is not accepted is a dead end, and so is each where the longest
    /// is asked for: it is offered as the best one, and the attempt goes on.
    fn turn(
        &self,
        trail: &mut Trail,
        best: &mut Best,
        last_lines: &mut LastLines,
        work: &mut Work,
    ) -> Result<Next, SearchRefusal>
        requires { KnowsLastLines self.now.haystack.now last_lines.old }
        ensures turned { IfOk result
            (λ next. TurnsTo self.now next trail.old best.old trail.new best.new) }
        ensures refused { result ≢ Err SearchRefusal.Returns }
        ensures crowded { result ≡ Err SearchRefusal.Choices → IsFull self.now trail.old }
        ensures most { trail.new.most ≡ trail.old.most }
        ensures takes { TakesStep self.now.options.now.step_limit result work.old work.new }
        ensures last_lines { KnowsLastLines self.now.haystack.now last_lines.new }
    {
        let next = step(self, trail, last_lines, work)?;
        match next {
            Next::On => Ok(Next::On),
            Next::Dead => Ok(Next::Dead),
            Next::Found => {
                if !self.accepts(trail) {
                    return Ok(Next::Dead);
                }
                if self.options.longest {
                    best.offer(trail)?;
                    return Ok(Next::Dead);
                }
                Ok(Next::Found)
            }
        }
    }

    /// Goes on: by a choice, an atomic group or a negated look-around that is told, with all items that it reads, or by one instruction. The
    /// returns that it takes are added to those of `work`, and none is taken past the limit.
    fn advance(
        &self,
        trail: &mut Trail,
        best: &mut Best,
        limit: usize,
        seen: &mut Seen,
        work: &mut Work,
    ) -> Result<Next, SearchRefusal>
        requires ready { IsReady self.now limit seen.old work.old }
        ensures went { WentOn self.now limit result
            trail.old best.old trail.new best.new work.old work.new }
        ensures counts { CountsGoing limit self.now.options.now.step_limit result work.old work.new }
        ensures seen { KnowsSeen self.now seen.new }
    {
        match self.splits.part(trail.at()) {
            Some(ToldPart::Loop(split)) => {
                return pass(self, split, trail, limit, &mut seen.last_run, work);
            }
            Some(ToldPart::Choice(choice)) => return choose(self, choice, trail, limit, work),
            Some(ToldPart::Atom(atom)) => {
                return pass_atom(self, atom, trail, limit, &mut seen.last_run, work);
            }
            Some(ToldPart::Denial(denial)) => {
                if let Some(sight) = sight_at(self, denial, trail) {
                    let goes_on = pass_denial(self, denial, sight, trail, limit, work)?;
                    return Ok(if goes_on { Next::On } else { Next::Dead });
                }
            }
            None => {}
        }
        self.turn(trail, best, &mut seen.last_lines, work)
    }

    /// Passes over branches that were saved last, at which bytes tell that the way dies at once. Each is one return, and none is taken
    /// past the limit.
    fn pass_back(
        &self,
        trail: &mut Trail,
        limit: usize,
        work: &mut Work,
    ) -> Result<(), SearchRefusal>
        requires room { returns_of work.old ≤ limit }
        ensures passed { OnOk result (PassesBack self.now
            (returns_of work.new - returns_of work.old) trail.old trail.new) }
        ensures takes { TakesBranches self.now limit result
            trail.old trail.new work.old work.new }
        ensures adds { AddsReturns (returns_of work.new - returns_of work.old) work.old work.new }
        ensures heeds { HeedsLimits limit self.now.options.now.step_limit result work.old work.new }
    {
        if !trail.has_run() {
            return Ok(());
        }
        let passed = pass_over(self, trail);
        self.count_returns(passed, limit, work)
    }

    /// Takes the branch that was saved last, once it passed over those that die at once: whether there is one. The returns are added
    /// to those of `work`, and none is taken past the limit.
    fn back(&self, trail: &mut Trail, limit: usize, work: &mut Work) -> Result<bool, SearchRefusal>
        requires room { returns_of work.old ≤ limit }
        ensures back { IfOk result (λ taken. GoesBack self.now taken
            (returns_of work.new - returns_of work.old) trail.old trail.new) }
        ensures takes { TakesBranches self.now limit result
            trail.old trail.new work.old work.new }
        ensures counts { CountsBack work.old work.new }
        ensures heeds { HeedsLimits limit self.now.options.now.step_limit result work.old work.new }
    {
        self.pass_back(trail, limit, work)?;
        trail.back(limit, work)
    }

    /// One attempt, from where the trail stands: whether it has an accepted outcome. The first one is where the trail
    /// then stands, or where the longest is asked for the first of those that end last, which `best` kept meanwhile.
    /// The returns of the attempt are added to those of `work`, also up to a refusal, and none is done past the limit. So are the steps
    /// and the units, of which none is done past the limit of steps.
    pub(crate) fn run(
        &self,
        trail: &mut Trail,
        best: &mut Best,
        limit: usize,
        seen: &mut Seen,
        work: &mut Work,
    ) -> Result<bool, SearchRefusal>
        ghost deep: { ℕ }
        requires known { IsKnown (after (code_in self.now deep) trail.old.now) }
        requires fresh { trail.old.frames ≡ [] }
        requires most { trail.old.most ≡ self.now.options.now.stack_limit }
        requires ready { IsReady self.now limit seen.old work.old }
        ensures answer { IfOk result (λ found. state_if_found found trail.new.now
            ≡ outcome_from self.now deep trail.old.now) }
        ensures count { IfOk result (λ _. returns_of work.new
            ≡ returns_of work.old + returns_from self.now deep trail.old.now) }
        ensures refused { result ≡ Err SearchRefusal.Returns
            → limit < returns_of work.old + returns_from self.now deep trail.old.now }
        ensures bounded { returns_of work.new
            ≤ returns_of work.old + returns_from self.now deep trail.old.now }
        ensures counts { KeepsCounts work.old work.new }
        ensures heeds { HeedsLimits limit self.now.options.now.step_limit result work.old work.new }
        ensures seen { KnowsSeen self.now seen.new }
        ensures crowded { result ≡ Err SearchRefusal.Choices
            → trail.old.most < marks_from self.now deep trail.old.now }
        ensures most { trail.new.most ≡ self.now.options.now.stack_limit }
    {
        best.clear();
        let step_limit = self.options.step_limit;
        'steps: loop {
            if work.is_spent(step_limit) {
                return Err(SearchRefusal::Steps);
            }
            let next = self.advance(trail, best, limit, seen, work)?;
            match next {
                Next::On => {}
                Next::Found => return Ok(true),
                Next::Dead => {
                    let taken = self.back(trail, limit, work)?;
                    if !taken {
                        return Ok(best.give(trail));
                    }
                }
            }
        }
    }
}
