//! What a search costs: its steps and its returns.

ghost use Rattle.std.specs.Prelude.{◌≡◌, ◌≤◌, ◌<◌, ◌^◌, IfErr, IfOk, IfSome, None, true};
ghost use Rattle.fancy_regex.specs.Inputs.{haystack_in, request_in};
ghost use Rattle.fancy_regex.specs.Limited.{AllowsEachStep, IsHard, Refuses, TriesNone, most_steps_of};
ghost use Rattle.fancy_regex.specs.Regexes.{easy_in, options_in, program_in, returns_limit_in, step_limit_in};
ghost use Rattle.fancy_regex.specs.SearchCounts.{HasReturns, IsOutOfSteps, IsStopped, returns_taken};
ghost use Rattle.fancy_regex.specs.Searches.{CanSearchInput, FindsFirst, asked_by};
ghost use Rattle.fancy_regex.specs.Work.{IsSpent, IsWithin, returns_of, steps_of, units_of, work_of};

use fancy_regex::{Input, Regex, RegexInput, Result, Work};

/// The first match that an input asks for, and how much this call did. What was counted before is lost.
pub fn find_input_counted<S: Input>(
    regex: &Regex,
    input: RegexInput<S>,
    work: &mut Work,
) -> Result<Option<S::Match>>
    requires searched { CanSearchInput S.text S.bytes (options_in regex.now) input }
    ensures found { IfOk result (λ m. FindsFirst S.span m (asked_by regex.now S.bytes input)) }
    ensures within { IfOk result (λ m. IfSome m (λ x. S.within x ≡ S.bytes (haystack_in input))) }
    ensures refused { IfErr result (λ e. Refuses regex.now (asked_by regex.now S.bytes input) e) }
    ensures steps { easy_in regex.now ≡ true → steps_of work.new
        ≤ most_steps_of regex.now (request_in input) }
    ensures idle { TriesNone regex.now (asked_by regex.now S.bytes input) → steps_of work.new ≡ 0 }
    ensures nothing { TriesNone regex.now (asked_by regex.now S.bytes input)
        → IfOk result (λ m. m ≡ None) }
    ensures returns { returns_of work.new ≤ steps_of work.new }
    ensures counted { IsHard regex.now → IfOk result
        (λ _. HasReturns (program_in regex.now) work.new (asked_by regex.now S.bytes input)) }
    ensures stopped { IsHard regex.now → IsStopped result → returns_of work.new
        ≡ returns_limit_in regex.now }
    ensures fits { IsHard regex.now → returns_of work.new ≤ returns_limit_in regex.now }
    ensures most { IsHard regex.now
        → returns_of work.new
        ≤ returns_taken (program_in regex.now) (asked_by regex.now S.bytes input) }
    ensures limit { IsWithin (step_limit_in regex.now) work.new }
    ensures spent { IsOutOfSteps result → IsSpent (step_limit_in regex.now) work.new }
    ensures unlimited { easy_in regex.now ≡ true → AllowsEachStep regex.now (request_in input)
        → IsOutOfSteps result → ⊥ }
{
    regex.find_input_counted(input, work)
}

/// Nothing has been done at first.
pub fn new() -> Work
    ensures steps { steps_of result ≡ 0 }
    ensures returns { returns_of result ≡ 0 }
    ensures units { units_of result ≡ 0 }
{
    Work::new()
}

/// The counts begin anew.
pub fn reset(work: &mut Work)
    ensures steps { steps_of work.new ≡ 0 }
    ensures returns { returns_of work.new ≡ 0 }
    ensures units { units_of work.new ≡ 0 }
{
    work.reset();
}

/// The steps, the returns and the units.
pub fn reads(work: &Work) -> (usize, usize, usize)
    ensures steps { result.0 ≡ steps_of work.now }
    ensures returns { result.1 ≡ returns_of work.now }
    ensures units { result.2 ≡ units_of work.now }
{
    (work.steps(), work.returns(), work.units())
}

/// The work in all.
pub fn work(work: &Work) -> usize
    ensures { work_of work.now < 2 ^ 64 → result ≡ work_of work.now }
{
    work.work()
}
