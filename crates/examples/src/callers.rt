//! Callers of `fancy_regex` with contracts of their own, as its page on callers shows them. They name no other crate of the
//! library, neither in their code nor in their contracts.

ghost use Rattle.std.specs.Prelude.{◌≡◌, IfErr, IfOk, IfSome, None, is_some, true};
ghost use Rattle.fancy_regex.specs.GroupTexts.{bytes_of_str};
ghost use Rattle.fancy_regex.specs.MatchList.{InOrder};
ghost use Rattle.fancy_regex.specs.Options.{by_default};
ghost use Rattle.fancy_regex.specs.Regexes.{options_in};
ghost use Rattle.fancy_regex.specs.Search.{search};
ghost use Rattle.fancy_regex.specs.Searches.{FindsFirst, asked_whole, matches_of_input};
ghost use Rattle.fancy_regex.specs.Searching.{Suits};
ghost use Rattle.fancy_regex.specs.Spans.{span_in};
ghost use Rattle.fancy_regex.specs.declared.Error.TheVariants.{Memory};

use fancy_regex::laws::ends_increase;
use fancy_regex::{Input, Match, Regex, RegexInput, Result, escape};
use std::alloc::Global;
use std::borrow::CowStr;

/// Whether the line has a match. Its caller shows that the regex may search the line.
pub fn has_match(regex: &Regex, line: &str) -> Result<bool>
    requires { Suits (options_in regex.now) true line.now }
    ensures { IfOk result (λ b. b ≡ is_some (search (asked_whole regex.now bytes_of_str line.entry))) }
{
    regex.is_match(line)
}

/// Whether the line has a date. The regex has the default options, which suit every line.
pub fn has_date(alloc: Global, line: &str) -> Result<bool> {
    let date = Regex::new(alloc, "\\d{4}-\\d\\d")?;
    has_match(&date, line)
}

/// Whether the line has a match, with any regex; `None` where the regex may not search the line.
pub fn match_if_searchable(regex: &Regex, line: &str) -> Result<Option<bool>>
    ensures found { IfOk result
        (λ o. IfSome o (λ b. b ≡ is_some (search (asked_whole regex.now bytes_of_str line.entry)))) }
    ensures none { IfOk result (λ o. o ≡ None → Suits (options_in regex.now) true line.now → ⊥) }
{
    if !regex.can_search(&RegexInput::new(line)) {
        return Ok(None);
    }
    let found = regex.is_match(line)?;
    Ok(Some(found))
}

/// A line that is a constant, with a date in it.
pub const LINE: &str = "on 2026-11-24";

/// Whether a constant line has a match: it is handed to a function with a parameter for it.
pub fn match_of_constant(regex: &Regex) -> Result<Option<bool>> {
    match_if_searchable(regex, LINE)
}

/// Finds dates in lines. Its regex has the default options, which suit every line: so its calls have no condition.
#[derive(Drop)]
pub struct DateFinder {
    date: Regex,
    ghost standard: { options_in date ≡ by_default },
}

impl DateFinder {
    /// A finder of its own. Want of memory may refuse it.
    pub fn new(alloc: Global) -> Result<DateFinder> {
        let date = Regex::new(alloc, "\\d{4}-\\d\\d")?;
        Ok(DateFinder { date })
    }

    /// The first date in the line.
    pub fn find<'t>(&self, line: &'t str) -> Result<Option<Match<'t>>>
        ensures { IfOk result (λ m. FindsFirst span_in m (asked_whole self.now.date bytes_of_str line.entry)) }
    {
        self.date.find(line)
    }
}

/// A pattern for the word as it is. Want of memory alone refuses it.
pub fn pattern_of_word(alloc: Global, word: &str) -> Result<CowStr<'_, Global>>
    ensures { IfErr result (λ e. e ≡ Memory) }
{
    escape(alloc, word)
}

/// The matches of an input are in order: a law of the library, which a caller cites by a call.
pub fn matches_are_in_order<S: Input>(regex: &Regex, input: &RegexInput<S>)
    ensures { InOrder (matches_of_input regex.now S.text S.bytes input.now) }
{
    ends_increase(regex, input)
}

/// Prints what callers answer of a constant line, and the pattern for a word.
pub(crate) fn show(rt: &(impl Print + AllocGlobal)) -> anyhow::Result<()> {
    let dated = has_date(rt.alloc(), LINE)?;
    println!(rt; "{LINE} has a date: {dated}")?;
    let found = match_of_constant(&Regex::new(rt.alloc(), "\\d+")?)?;
    println!(rt; "and a number: {found:?}")?;
    let pattern = pattern_of_word(rt.alloc(), "a.b")?;
    println!(rt; "a.b as a pattern: {}", pattern.as_str())?;
    Ok(())
}
