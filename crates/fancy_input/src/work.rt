//! The counts of a search: its steps and its returns.

ghost use Rattle.std.specs.Prelude.{◌≡◌, ◌≢◌, ◌+◌, ◌-◌, ◌<◌, ◌≤◌, ◌^◌, ◌↔◌, IsTrue, IfSome, OnOk, None, Err, min, true, false};
ghost use Rattle.fancy_input.specs.Work.{steps_of, returns_of, units_of, work_of, stepped_within, went_back, went_back_within, IsWithin, IsSpent, HasWorkLeft, HasWorkFor, AddsUnits, AddsReturns};

use crate::refusal::SearchRefusal;

/// How much was done since the counts began: the fetches of instructions, the saved branches that were taken, and the units that were
/// gone over within one step.
///
/// The counts of a search only grow, and there is no second copy of them.
///
/// ```
/// let work = Work::new();
/// assert_eq!(work.steps(), 0);
/// ```
#[derive(PartialEq, Eq, Debug, Drop)]
pub struct Work {
    steps: usize,
    returns: usize,
    units: usize,
}

impl Work {
    /// Nothing done so far.
    pub fn new() -> Work
        ensures steps { steps_of result ≡ 0 }
        ensures returns { returns_of result ≡ 0 }
        ensures units { units_of result ≡ 0 }
    {
        Work {
            steps: 0,
            returns: 0,
            units: 0,
        }
    }

    /// The counts that an attempt begins with, where `done` tells what was done before it under the same limit of work: no step and no
    /// return, and all that was done as units, as far as the number goes. So a limit leaves to the attempt what is left of it.
    ///
    /// ```
    /// let mut done = Work::new();
    /// let mut work = Work::after(&done);    // an attempt counts in it
    /// done.add_attempt(&work);
    /// ```
    pub fn after(done: &Work) -> Work
        ensures steps { steps_of result ≡ 0 }
        ensures returns { returns_of result ≡ 0 }
        ensures units { units_of result ≡ min (work_of done.now) usize.MAX }
    {
        Work {
            steps: 0,
            returns: 0,
            units: done.steps.saturating_add(done.units),
        }
    }

    /// Begins the counts anew. A search that is asked for its counts does it by itself
    /// (`Regex::find_input_counted`).
    pub fn reset(&mut self)
        ensures steps { steps_of self.new ≡ 0 }
        ensures returns { returns_of self.new ≡ 0 }
        ensures units { units_of self.new ≡ 0 }
    {
        self.steps = 0;
        self.returns = 0;
        self.units = 0;
    }

    /// How many instructions were fetched: the steps of the search.
    pub fn steps(&self) -> usize
        ensures { result ≡ steps_of self.now }
    {
        self.steps
    }

    /// How many saved branches were taken: the returns, which `RegexOptionsBuilder::backtrack_limit` limits.
    #[inline]
    pub fn returns(&self) -> usize
        ensures { result ≡ returns_of self.now }
    {
        self.returns
    }

    /// How many units were gone over within one step: those that look-behinds went back, the bytes of the texts that backreferences
    /// compared, and the items that a loop of one item read together. An easy search goes over none.
    pub fn units(&self) -> usize
        ensures { result ≡ units_of self.now }
    {
        self.units
    }

    /// What was done in all: the steps and the units, as far as the number goes. `RegexOptionsBuilder::step_limit` limits this.
    pub fn work(&self) -> usize
        ensures { work_of self.now < 2 ^ 64 → result ≡ work_of self.now }
    {
        self.steps.saturating_add(self.units)
    }

    /// Whether all work is done that a limit allows, if there is one.
    #[inline]
    pub fn is_spent(&self, limit: Option<usize>) -> bool
        ensures spent { result ≡ true → IsSpent limit self.now }
        ensures open { result ≡ false → HasWorkLeft limit self.now }
    {
        match limit {
            None => false,
            Some(most) => match self.steps.checked_add(self.units) {
                None => true,
                Some(done) => done >= most,
            },
        }
    }

    /// Whether a limit allows so many steps more, if there is one.
    pub fn has_work_for(&self, steps: usize, limit: Option<usize>) -> bool
        ensures { IsTrue result ↔ HasWorkFor limit steps self.now }
    {
        let Some(most) = limit else {
            return true;
        };
        match self.steps.checked_add(self.units) {
            None => false,
            Some(done) => done <= most && steps <= most - done,
        }
    }

    /// Counts so many units, as far as the number goes, and returns `true`. Where a limit allows fewer, it counts those, and returns
    /// `false`.
    #[inline]
    pub fn count_units(&mut self, units: usize, limit: Option<usize>) -> bool
        ensures adds { AddsUnits self.old self.new }
        ensures counted { result ≡ true → units_of self.old + units < 2 ^ 64 → units_of self.new ≡ units_of self.old + units }
        ensures within { IsWithin limit self.old → IsWithin limit self.new }
        ensures spent { result ≡ false → IsSpent limit self.new }
    {
        let Some(most) = limit else {
            self.units = self.units.saturating_add(units);
            return true;
        };
        let done = self.steps.saturating_add(self.units);
        let left = most.saturating_sub(done);
        if units <= left {
            self.units += units;
            return true;
        }
        self.units += left;
        false
    }

    /// Counts one fetch, as far as the number goes.
    #[inline]
    pub fn count_step_within(&mut self)
        ensures { self.new ≡ stepped_within self.old }
    {
        if self.steps < usize::MAX {
            self.steps += 1;
        }
    }

    /// Counts one saved branch that was taken.
    #[inline]
    pub fn count_return(&mut self)
        requires { returns_of self.old < usize.MAX }
        ensures { self.new ≡ went_back self.old }
    {
        self.returns += 1;
    }

    /// How much work a limit leaves, the most there is where no limit is set.
    fn work_left(&self, limit: Option<usize>) -> usize
        ensures limited { IfSome limit (λ most. result ≡ most - work_of self.now) }
        ensures open { limit ≡ None → result ≡ usize.MAX }
    {
        match limit {
            None => usize::MAX,
            Some(most) => most.saturating_sub(self.steps.saturating_add(self.units)),
        }
    }

    /// Counts so many saved branches that were taken, and a step for each, as far as the number of steps goes.
    fn add_returns(&mut self, count: usize)
        requires { returns_of self.old + count ≤ usize.MAX }
        ensures returns { returns_of self.new ≡ returns_of self.old + count }
        ensures steps { steps_of self.new ≡ min (steps_of self.old + count) usize.MAX }
        ensures units { units_of self.new ≡ units_of self.old }
        ensures adds { AddsReturns count self.old self.new }
    {
        self.returns += count;
        self.steps = self.steps.saturating_add(count);
    }

    /// Counts so many saved branches that were taken, and a step for each, as far as the number of steps goes. Where a limit of
    /// returns or of work allows fewer, it counts those that both allow.
    ///
    /// # Errors
    ///
    /// `SearchRefusal::Returns` where the limit of returns allows fewer, and `SearchRefusal::Steps` where that of work does and allows
    /// fewer than the other.
    #[inline]
    pub fn count_returns(
        &mut self,
        count: usize,
        limit: usize,
        step_limit: Option<usize>,
    ) -> Result<(), SearchRefusal>
        requires { returns_of self.old ≤ limit }
        ensures counted { OnOk result (returns_of self.new ≡ returns_of self.old + count) }
        ensures adds { AddsReturns count self.old self.new }
        ensures fits { returns_of self.new ≤ limit }
        ensures stopped { result ≡ Err SearchRefusal.Returns → returns_of self.new ≡ limit }
        ensures refused { result ≡ Err SearchRefusal.Returns → limit < returns_of self.old + count }
        ensures limited { result ≡ Err SearchRefusal.Steps → IsSpent step_limit self.new }
        ensures within { IsWithin step_limit self.old → IsWithin step_limit self.new }
        ensures saved { result ≢ Err SearchRefusal.Choices }
        ensures held { result ≢ Err SearchRefusal.Memory }
    {
        let returns = limit - self.returns;
        let work = self.work_left(step_limit);
        if count <= returns && count <= work {
            self.add_returns(count);
            return Ok(());
        }
        if returns <= work {
            self.add_returns(returns);
            return Err(SearchRefusal::Returns);
        }
        self.add_returns(work);
        Err(SearchRefusal::Steps)
    }

    /// Adds what was counted apart, each count as far as the number goes.
    pub fn add(&mut self, more: &Work)
        ensures steps { steps_of self.new ≡ min (steps_of self.old + steps_of more.now) usize.MAX }
        ensures returns { returns_of self.new ≡ min (returns_of self.old + returns_of more.now) usize.MAX }
        ensures units { units_of self.new ≡ min (units_of self.old + units_of more.now) usize.MAX }
        ensures alone { work_of self.old ≡ 0 → work_of self.new ≡ work_of more.now }
        ensures within { steps_of self.new ≤ steps_of self.old + steps_of more.now }
        ensures paired { returns_of self.old ≤ steps_of self.old → returns_of more.now ≤ steps_of more.now
            → returns_of self.new ≤ steps_of self.new }
    {
        self.steps = self.steps.saturating_add(more.steps);
        self.returns = self.returns.saturating_add(more.returns);
        self.units = self.units.saturating_add(more.units);
    }

    /// Adds what an attempt did that began with [`Work::after`] of these counts: its steps, its returns, and the units that it counted
    /// beyond those it began with. Each count goes as far as its number.
    pub fn add_attempt(&mut self, attempt: &Work)
        ensures steps { steps_of self.new ≡ min (steps_of self.old + steps_of attempt.now) usize.MAX }
        ensures returns { returns_of self.new ≡ min (returns_of self.old + returns_of attempt.now) usize.MAX }
        ensures units { units_of self.new
            ≡ min (units_of self.old + (units_of attempt.now - min (work_of self.old) usize.MAX)) usize.MAX }
        ensures uncounted { units_of attempt.now ≡ min (work_of self.old) usize.MAX → units_of self.new ≡ units_of self.old }
        ensures grows { work_of self.old ≤ work_of self.new }
        ensures within { steps_of self.new ≤ steps_of self.old + steps_of attempt.now }
        ensures paired { returns_of self.old ≤ steps_of self.old → returns_of attempt.now ≤ steps_of attempt.now
            → returns_of self.new ≤ steps_of self.new }
    {
        let before = self.steps.saturating_add(self.units);
        let counted = attempt.units.saturating_sub(before);
        self.steps = self.steps.saturating_add(attempt.steps);
        self.returns = self.returns.saturating_add(attempt.returns);
        self.units = self.units.saturating_add(counted);
    }

    /// Counts one saved branch that was taken, as far as both numbers go: where the steps are full, no return is
    /// counted.
    #[inline]
    pub fn count_return_within(&mut self)
        ensures { self.new ≡ went_back_within self.old }
    {
        if self.steps < usize::MAX && self.returns < usize::MAX {
            self.count_return();
        }
    }
}
