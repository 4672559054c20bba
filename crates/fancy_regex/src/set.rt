//! Many patterns that are searched for at once.

ghost use Rattle.std.specs.Prelude.{◌≡◌, ◌==◌, ◌↔◌, IfOk, IfErr, IsTrue, length};
ghost use Rattle.fancy_search.specs.Options.{by_default};
ghost use Rattle.fancy_regex.specs.Builders.{options_of};
ghost use Rattle.fancy_regex.specs.Candidates.{AreCandidatesOf, TellStarters};
ghost use Rattle.fancy_regex.specs.Strictest.{IsStrictest};

mod borrowed_text;
mod candidates;
mod matched;
mod matches;
mod members;
mod owned_text;
pub(crate) mod trials;

use crate::options::RegexOptionsBuilder;
use crate::set::candidates::Candidates;
use fancy_core::regex::Regex;
use fancy_core::starts::keeps_characters;
use fancy_input::input::Input;
use fancy_input::regex_input::RegexInput;
use fancy_tree::error::Result;
pub use matched::RegexSetMatch;
pub use matches::RegexSetMatchesAt;
use std::alloc::Global;

/// Patterns that are searched for at once: a search finds the least position where one of them matches.
///
/// ```text
/// let set = RegexSet::new(alloc, &["\\d+", "\\w+"])?;
/// set.find_input(RegexInput::new("$29"))?    // Some, at 1: pattern 0 from 1 to 3, and pattern 1 from 1 to 3
/// ```
pub struct RegexSet {
    pub(crate) members: Vec<Regex>,
    pub(crate) candidates: Candidates,
    /// The index of a member that searches no input which another one cannot search.
    strictest: usize,
    ghost listed: { AreCandidatesOf members.items candidates },
    ghost told: { TellStarters members.items candidates },
    ghost strict: { IsStrictest members.items strictest },
}

/// By hand, so that crates above do not prove it once more.
impl Drop for RegexSet {
    fn drop(self) {
        let RegexSet {
            members: _,
            candidates: _,
            strictest: _,
        } = self;
    }
}

impl RegexSet {
    ghost use Rattle.fancy_regex.specs.Sets.{members_of, bytes_of_each, AreReadings, RefusesFirst, HaveOptions, CanSearchAll};

    /// Reads patterns, with the default options. It is refused as [`Regex::new`] refuses the first pattern that it refuses.
    ///
    /// ```text
    /// RegexSet::new(alloc, &["a|ab", "b"])?.len()    // 2
    /// RegexSet::new(alloc, &["a", "(?:b"])           // Err(ParseError(4, UnclosedOpenParen))
    /// ```
    pub fn new(alloc: Global, patterns: &[&str]) -> Result<RegexSet>
        ensures read { IfOk result (λ s.
            AreReadings by_default (bytes_of_each patterns.now) (members_of s)) }
        ensures options { IfOk result (λ s. HaveOptions by_default (members_of s)) }
        ensures refused { IfErr result (λ e.
            RefusesFirst by_default (bytes_of_each patterns.now) e) }
    {
        RegexSet::new_with_options(alloc, patterns, &RegexOptionsBuilder::new())
    }

    /// Reads patterns, each with these options. It is refused as [`RegexOptionsBuilder::build`] refuses the first pattern that
    /// it refuses.
    ///
    /// ```text
    /// let mut options = RegexOptionsBuilder::new();
    /// let set = RegexSet::new_with_options(alloc, &["a", "B"], options.case_insensitive(true))?;
    /// set.find_input(RegexInput::new("xb"))    // Some, at 1: pattern 1 from 1 to 2
    /// ```
    pub fn new_with_options(
        alloc: Global,
        patterns: &[&str],
        options: &RegexOptionsBuilder,
    ) -> Result<RegexSet>
        ensures read { IfOk result
            (λ s. AreReadings (options_of options.now) (bytes_of_each patterns.now) (members_of
            s)) }
        ensures options { IfOk result (λ s. HaveOptions (options_of options.now) (members_of s)) }
        ensures refused { IfErr result
            (λ e. RefusesFirst (options_of options.now) (bytes_of_each patterns.now) e) }
    {
        let mut members = Vec::new(alloc);
        for pattern in patterns {
            let text = String::from_str(alloc, *pattern)?;
            let member = options.build(text)?;
            members.push(member)?;
        }
        Ok(RegexSet::from_regexes(members))
    }

    /// The set of these regexes, in their order. Each keeps its own options and limits, and no memory is taken. What all of them do in
    /// a search counts for the [`RegexOptionsBuilder::step_limit`] of each.
    ///
    /// ```text
    /// let mut members = Vec::new(alloc);
    /// members.push(RegexOptionsBuilder::new().case_insensitive(true).build(pattern)?)?;    // of `a`
    /// members.push(Regex::new(alloc, "b")?)?;
    /// RegexSet::from_regexes(members).find_input(RegexInput::new("BA"))?    // Some, at 1: pattern 0 from 1 to 2
    /// ```
    pub fn from_regexes(members: Vec<Regex>) -> RegexSet
        ensures { members_of result ≡ members.items }
    {
        let candidates = Candidates::new(&members);
        let strictest = strictest(&members);
        RegexSet {
            members,
            candidates,
            strictest,
        }
    }

    /// How many patterns the set has.
    pub fn len(&self) -> usize
        ensures { result ≡ length (members_of self.now) }
    {
        self.members.len()
    }

    /// Whether the set has no pattern. A search of such a set finds nothing.
    pub fn is_empty(&self) -> bool
        ensures { result ≡ (length (members_of self.now) == 0) }
    {
        self.members.is_empty()
    }

    /// Whether each pattern of the set can search the input, as [`Regex::can_search`] says.
    ///
    /// ```text
    /// let set = RegexSet::new(alloc, &["a", "b"])?;
    /// set.can_search(&RegexInput::new("é").from_pos(1))    // false: the start is inside a character
    /// ```
    pub fn can_search<S: Input>(&self, input: &RegexInput<S>) -> bool
        ensures { IsTrue result ↔ CanSearchAll S.text S.bytes self.now input.now }
    {
        if self.members.is_empty() {
            return true;
        }
        self.members[self.strictest].can_search(input)
    }
}

/// The index of the first member whose matches may stand anywhere, and of the first member where there is none. What that one can
/// search, each can.
fn strictest(members: &[Regex]) -> usize
    ensures { IsStrictest members.now result }
{
    for (index, member) in members.iter().enumerate() {
        if !keeps_characters(member) {
            return index;
        }
    }
    0
}
