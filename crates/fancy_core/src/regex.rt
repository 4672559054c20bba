//! A compiled pattern, and what it finds.

ghost use Rattle.std.specs.Prelude.{◌≡◌, ◌≤◌, ◌↔◌, ◌+◌, ◌*◌, None, Some, IfOk, IfErr, IfSome, IsTrue, string_bytes, is_some, true, length};
ghost use Rattle.fancy_tree.specs.GroupNames.{names_of};
ghost use Rattle.fancy_tree.specs.Sizes.{nodes};
ghost use Rattle.fancy_input.specs.Inputs.{haystack_in, request_in};
ghost use Rattle.fancy_input.specs.Work.{steps_of, returns_of, IsWithin, IsSpent};
ghost use Rattle.fancy_meaning.specs.Search.{search};
ghost use Rattle.fancy_meaning.specs.Answers.{HasNone};
ghost use Rattle.fancy_search.specs.Compiled.{IsSpelled};
ghost use Rattle.fancy_search.specs.Options.{by_default};
ghost use Rattle.fancy_search.specs.Programs.{program_pattern, program_options, program_groups, program_names};
ghost use Rattle.fancy_search.specs.Searching.{Suits, StartsCleanly};

use fancy_input::input::{Haystack, Input, Request};
use fancy_input::regex_input::RegexInput;
use fancy_input::work::Work;
use fancy_search::asked::Asked;
use fancy_search::options::Options;
use fancy_search::program::Program;
use fancy_tree::error::{Error, Result};
use fancy_tree::name::Names;
use std::alloc::Global;
use std::fmt;

/// A compiled pattern.
///
/// A search answers with a match from the least byte offset from which the pattern matches: of those from there the one
/// that the pattern prefers, or under `RegexOptionsBuilder::leftmost_longest` the longest. Where a `\K` was met on the
/// way, the match starts at the place of the last one.
///
/// It keeps what an automaton computed for its last search, about half a megabyte at most, for the next one. Several threads may search
/// with it at once, and none waits for another.
///
/// ```text
/// Regex::new(alloc, "a|ab")?.find("xab")    // Some: 1..2, as the first branch is preferred
/// Regex::new(alloc, "a\\Kb")?.find("xab")   // Some: 2..3, though it was tried from 1 on
/// ```
pub struct Regex {
    pattern: String,
    pub(crate) program: Program,
    pub ghost spelled: { ∥ IsSpelled (program_options program) (string_bytes pattern)
        (program_pattern program) (program_groups program) (program_names program) ∥₁ },
}

/// By hand, so that crates above do not prove it once more.
impl Drop for Regex {
    fn drop(self) {
        let Regex {
            pattern: _,
            program: _,
        } = self;
    }
}

impl Regex {
    ghost use Rattle.fancy_core.specs.Built.{IsReading};
    ghost use Rattle.fancy_core.specs.CaptureNames.{names_in};
    ghost use Rattle.fancy_core.specs.Regexes.{pattern_text, pattern_in, options_in, group_count_in, length_in, easy_in, returns_limit_in, step_limit_in, query};
    ghost use Rattle.fancy_core.specs.RegexStarts.{regex_may_start};
    ghost use Rattle.fancy_core.specs.Limited.{IsHard, Refuses, Allows, TriesNone, AllowsEachStep, most_steps_of};
    ghost use Rattle.fancy_search.specs.SearchCounts.{HasReturns, HasRoomFor, AllowsAllSteps, IsOutOfSteps, IsStopped, returns_taken};
    ghost use Rattle.fancy_search.specs.Served.{KeepsCounts, CountsReturns};
    ghost use Rattle.fancy_core.specs.Searches.{CanSearchInput, FindsFirst, asked_whole, asked_from, asked_by};

    /// Reads a pattern, with the default options.
    ///
    /// It is refused where the text is no pattern of the dialect, and where memory runs out (`Memory`):
    ///
    /// - `ParseError` where the text does not spell a pattern, with the place of the fault as a byte offset into it;
    /// - `CompileError(PatternTooComplex)` where the pattern has more than 4,000,000 nodes, with counted repeats written
    ///   out;
    /// - `CompileError(InvalidBackref)` for a reference to a number that no group has, and
    ///   `CompileError(InvalidGroupNameBackref)` for one to a name that no group has;
    /// - `CompileError(LookBehindNotConst)` for a look-behind whose body has no one size, unless it is an alternative of
    ///   branches that each have one.
    ///
    /// ```text
    /// Regex::new(alloc, "a|ab")  // Ok
    /// Regex::new(alloc, "(?:a")  // Err(ParseError(4, UnclosedOpenParen))
    /// Regex::new(alloc, r"(a)\2")  // Err(CompileError(InvalidBackref(2)))
    /// ```
    pub fn new(alloc: Global, pattern: &str) -> Result<Regex>
        ensures { IsReading by_default pattern.now result }
    {
        let pattern = String::from_str(alloc, pattern)?;
        Regex::with_options(pattern, Options::default())
    }

    /// Reads a pattern with these options. The allocator is the text's, which is given up also where the
    /// call refuses.
    ///
    /// It is refused as [`Regex::new`] is; where groups without a name do not capture beside names, besides as
    /// `CompileError(NamedBackrefOnly)`, for a reference by number where a group has a name; where empty matches are refused as
    /// `CompileError(PatternCanNeverMatch)`, for a pattern that always consumes 0 units; and where a size is set as
    /// `CompileError(PatternTooComplex)`, for a hard pattern with longer code.
    pub fn with_options(pattern: String, options: Options) -> Result<Regex>
        ensures { IsReading options (string_bytes pattern) result }
    {
        let alloc = *pattern.allocator();
        let program = Program::new(alloc, pattern.as_str(), options)?;
        Ok(Regex { pattern, program })
    }

    /// The text of the pattern.
    ///
    /// ```text
    /// Regex::new(alloc, "a|ab")?.as_str()    // "a|ab"
    /// ```
    pub fn as_str(&self) -> &str
        ensures { result.now ≡ pattern_text self.now }
    {
        self.pattern.as_str()
    }

    pub(crate) fn allocator(&self) -> Global {
        *self.pattern.allocator()
    }

    /// The names of groups, in the order of their openings.
    pub(crate) fn names(&self) -> &Names
        ensures { names_of result.now ≡ names_in self.now }
    {
        self.program.names()
    }

    /// How many groups the pattern has, with group 0, the whole match.
    ///
    /// ```text
    /// Regex::new(alloc, "(a)(?:b)(?<n>c)")?.captures_len()    // 3: group 0, group 1, and group 2, which is `n`
    /// ```
    pub fn captures_len(&self) -> usize
        ensures { result ≡ group_count_in self.now }
    {
        self.program.group_count()
    }

    /// Whether a search takes at most [`Regex::code_len`] times the searched length plus one steps, whatever the
    /// haystack. No pattern is easy under `RegexOptionsBuilder::find_not_empty` or
    /// `RegexOptionsBuilder::leftmost_longest`.
    ///
    /// ```text
    /// Regex::new(alloc, "a|ab")?.is_easy()         // true
    /// Regex::new(alloc, "(?:a|b)(?=c)")?.is_easy()    // false: it has look-around
    /// ```
    pub fn is_easy(&self) -> bool
        ensures { result ≡ easy_in self.now }
    {
        self.program.is_easy()
    }

    /// How many instructions the pattern's code has: at most 4 for each node of the pattern with its counted repeats
    /// written out, and 2 more.
    ///
    /// ```text
    /// Regex::new(alloc, "a{100}")?.code_len()    // at most 406: the pattern has 101 nodes
    /// ```
    pub fn code_len(&self) -> usize
        ensures value { result ≡ length_in self.now }
        ensures short { result ≤ 4 * nodes (pattern_in self.now) + 2 }
    {
        self.program.code_len()
    }

    /// Whether a match may start right before this byte, or with `None` at the end of the searched range. Where the answer is
    /// `false`, no match starts there. A pattern that may hold and consume nothing, or that has a `\K`, may start anywhere.
    ///
    /// ```text
    /// let regex = Regex::new(alloc, "[ab]c*")?;
    /// regex.may_start_before(Some(b'a'))    // true
    /// regex.may_start_before(Some(b'c'))    // false
    /// regex.may_start_before(None)          // false: each match consumes a byte
    /// ```
    pub fn may_start_before(&self, next: Option<u8>) -> bool
        ensures { result ≡ regex_may_start self.now next }
    {
        self.program.may_start_before(next)
    }

    /// Whether the input may be searched: for text, its start (if that is not past the end) and both ends of
    /// its range are character boundaries, and where matches may be anywhere
    /// (`BytesMode::Ascii` and `BytesMode::UnicodeBytes`) text is ASCII.
    ///
    /// ```text
    /// let regex = Regex::new(alloc, "a|ab")?;
    /// regex.can_search(&RegexInput::new("é"))                // true
    /// regex.can_search(&RegexInput::new("é").from_pos(1))    // false: the start is inside a character
    /// regex.can_search(&RegexInput::new("é").from_pos(9))    // true: past the end there is nothing to find
    /// ```
    pub fn can_search<S: Input>(&self, input: &RegexInput<S>) -> bool
        ensures { IsTrue result ↔ CanSearchInput S.text S.bytes (options_in self.now) input.now }
    {
        let haystack = input.haystack();
        let request = input.request();
        !haystack.is_text()
            || ((self.program.options().bytes_mode.keeps_characters() || haystack.is_ascii())
                && (request.start > haystack.len() || haystack.is_char_boundary(request.start))
                && haystack.is_char_boundary(request.range_start)
                && haystack.is_char_boundary(request.range_end))
    }

    /// The first match in the haystack, or none.
    ///
    /// ```text
    /// Regex::new(alloc, "a|ab")?.find("xab")  // 1..2
    /// ```
    ///
    /// It is refused as [`Regex::find_input`] is.
    pub fn find<S: Input>(&self, haystack: S) -> Result<Option<S::Match>>
        requires suits { Suits (options_in self.now) (S.text haystack) (S.bytes haystack) }
        ensures found { IfOk result (λ m.
            FindsFirst S.span m (asked_whole self.now S.bytes haystack)) }
        ensures none { IfOk result (λ m.
            (m ≡ None) ↔ HasNone (asked_whole self.now S.bytes haystack)) }
        ensures within { IfOk result (λ m. IfSome m (λ x. S.within x ≡ S.bytes haystack)) }
        ensures refused { IfErr result (λ e.
            Refuses self.now (asked_whole self.now S.bytes haystack) e) }
        ensures allowed { IfOk result (λ _.
            Allows self.now (asked_whole self.now S.bytes haystack)) }
    {
        let whole = RegexInput::new(haystack);
        let found = self.find_input(whole)?;
        Ok(found)
    }

    /// The first match from the byte offset `start` on, which may be any number: past the end there is none.
    ///
    /// It is refused as [`Regex::find_input`] is.
    ///
    /// ```text
    /// let regex = Regex::new(alloc, "a|ab")?;
    /// regex.find_from_pos("xabab", 2)    // Some: 3..4
    /// regex.find_from_pos("xabab", 9)    // None: the start is past the end
    /// ```
    pub fn find_from_pos<S: Input>(&self, haystack: S, start: usize) -> Result<Option<S::Match>>
        requires suits { Suits (options_in self.now) (S.text haystack) (S.bytes haystack) }
        requires starts { StartsCleanly (S.text haystack) (S.bytes haystack) start }
        ensures found { IfOk result (λ m.
            FindsFirst S.span m (asked_from self.now S.bytes haystack start)) }
        ensures none { IfOk result (λ m.
            (m ≡ None) ↔ HasNone (asked_from self.now S.bytes haystack start)) }
        ensures within { IfOk result (λ m. IfSome m (λ x. S.within x ≡ S.bytes haystack)) }
        ensures refused { IfErr result (λ e.
            Refuses self.now (asked_from self.now S.bytes haystack start) e) }
        ensures allowed { IfOk result (λ _.
            Allows self.now (asked_from self.now S.bytes haystack start)) }
    {
        let input = RegexInput::new(haystack).from_pos(start);
        let found = self.find_input(input)?;
        Ok(found)
    }

    /// The first match that the input asks for, or none.
    ///
    /// It is refused where memory runs out (`Memory`), and for a hard pattern (one that is not [`Regex::is_easy`]) past a
    /// limit: `RuntimeError(BacktrackLimitExceeded)` where the search takes more returns than
    /// `RegexOptionsBuilder::backtrack_limit` allows, and `RuntimeError(StackOverflow)` where more branches
    /// are saved at one time than `RegexOptionsBuilder::stack_limit` allows, which only a search that opens more choices than
    /// that can do. Where `RegexOptionsBuilder::step_limit` is set, a search of either kind that would do more work is refused as
    /// `RuntimeError(StepLimitExceeded)`; one for an easy pattern never, where the limit is at least [`Regex::code_len`] for each
    /// position of the searched text, its end among them.
    ///
    /// ```text
    /// let regex = Regex::new(alloc, "abc")?;
    /// regex.find_input(RegexInput::new("zabc").from_pos(1).anchored(true))    // Some: 1..4
    /// regex.find_input(RegexInput::new("zabc").anchored(true))                // None
    /// regex.find_input(RegexInput::new("zabc").range(0..3))                   // None: the match would end past the range
    /// ```
    pub fn find_input<S: Input>(&self, input: RegexInput<S>) -> Result<Option<S::Match>>
        requires searched { CanSearchInput S.text S.bytes (options_in self.now) input }
        ensures found { IfOk result (λ m. FindsFirst S.span m (asked_by self.now S.bytes input)) }
        ensures none { IfOk result (λ m. (m ≡ None) ↔ HasNone (asked_by self.now S.bytes input)) }
        ensures within { IfOk result (λ m. IfSome m (λ x.
            S.within x ≡ S.bytes (haystack_in input))) }
        ensures refused { IfErr result (λ e. Refuses self.now (asked_by self.now S.bytes input) e) }
        ensures allowed { IfOk result (λ _. Allows self.now (asked_by self.now S.bytes input)) }
        ensures unlimited { easy_in self.now ≡ true → AllowsEachStep self.now (request_in input)
            → IsOutOfSteps result → ⊥ }
    {
        let mut work = Work::new();
        let found = self.locate(input.haystack(), input.request(), &mut work)?;
        Ok(found)
    }

    /// The first match that the input asks for, or none, as [`Regex::find_input`] answers; and in `work` how much
    /// this call did, after a refusal how much up to it. What was counted in `work` before is lost. Steps are counted as far
    /// as a `usize` goes.
    ///
    /// ```text
    /// let mut work = Work::new();
    /// Regex::new(alloc, "a|ab")?.find_input_counted(RegexInput::new("xab"), &mut work)?    // Some: 1..2
    /// work.steps()      // 3: no match begins with the x
    /// work.returns()    // 0
    /// ```
    ///
    /// An easy search takes at most [`Regex::code_len`] steps for each position of the searched text, its end
    /// among them; from a start past the range's end it takes none, and under `RegexOptionsBuilder::seek` none where the bytes
    /// of the searched text tell that no match begins at any position, or the haystack lacks a byte that each haystack with a match
    /// has. It is refused as [`Regex::find_input`] is; a hard
    /// search never takes more returns than its limit allows, and no search does more work than `RegexOptionsBuilder::step_limit`
    /// allows ([`Work::work`]).
    pub fn find_input_counted<S: Input>(
        &self,
        input: RegexInput<S>,
        work: &mut Work,
    ) -> Result<Option<S::Match>>
        requires searched { CanSearchInput S.text S.bytes (options_in self.now) input }
        ensures found { IfOk result (λ m. FindsFirst S.span m (asked_by self.now S.bytes input)) }
        ensures within { IfOk result (λ m. IfSome m (λ x.
            S.within x ≡ S.bytes (haystack_in input))) }
        ensures refused { IfErr result (λ e. Refuses self.now (asked_by self.now S.bytes input) e) }
        ensures steps { easy_in self.now ≡ true
            → steps_of work.new ≤ most_steps_of self.now (request_in input) }
        ensures idle { TriesNone self.now (asked_by self.now S.bytes input)
            → steps_of work.new ≡ 0 }
        ensures nothing { TriesNone self.now (asked_by self.now S.bytes input)
            → IfOk result (λ m. m ≡ None) }
        ensures returns { returns_of work.new ≤ steps_of work.new }
        ensures counted { IsHard self.now → IfOk result
            (λ _. HasReturns self.now.program work.new (asked_by self.now S.bytes input)) }
        ensures stopped { IsHard self.now → IsStopped result
            → returns_of work.new ≡ returns_limit_in self.now }
        ensures fits { IsHard self.now → returns_of work.new ≤ returns_limit_in self.now }
        ensures most { IsHard self.now
            → returns_of work.new
            ≤ returns_taken self.now.program (asked_by self.now S.bytes input) }
        ensures limit { IsWithin (step_limit_in self.now) work.new }
        ensures spent { IsOutOfSteps result → IsSpent (step_limit_in self.now) work.new }
        ensures unlimited { easy_in self.now ≡ true → AllowsEachStep self.now (request_in input)
            → IsOutOfSteps result → ⊥ }
    {
        work.reset();
        let found = self.locate(input.haystack(), input.request(), work)?;
        Ok(found)
    }

    /// The first match in the haystack that the request asks for, or none.
    fn locate<S: Input>(
        &self,
        haystack: S,
        request: Request,
        work: &mut Work,
    ) -> Result<Option<S::Match>>
        requires inside { request.range_end ≤ length (S.bytes haystack) }
        requires suits { Suits (options_in self.now) (S.text haystack) (S.bytes haystack) }
        requires room { HasRoomFor self.now.program request work.old }
        ensures found { IfOk result (λ m.
            FindsFirst S.span m (query self.now (S.bytes haystack) request)) }
        ensures within { IfOk result (λ m. IfSome m (λ x. S.within x ≡ S.bytes haystack)) }
        ensures refused { IfErr result (λ e.
            Refuses self.now (query self.now (S.bytes haystack) request) e) }
        ensures allowed { IfOk result (λ _.
            Allows self.now (query self.now (S.bytes haystack) request)) }
        ensures counts { KeepsCounts self.now.program result work.old work.new }
        ensures idle { TriesNone self.now (query self.now (S.bytes haystack) request)
            → steps_of work.new ≡ steps_of work.old }
        ensures nothing { TriesNone self.now (query self.now (S.bytes haystack) request)
            → IfOk result (λ m. m ≡ None) }
        ensures bounded { easy_in self.now ≡ true
            → steps_of work.new ≤ steps_of work.old + most_steps_of self.now request }
        ensures hard { IsHard self.now
            → CountsReturns self.now.program (query self.now (S.bytes haystack) request) result
            work.old work.new }
        ensures unlimited { easy_in self.now ≡ true
            → AllowsAllSteps self.now.program request work.old
            → IsOutOfSteps result → ⊥ }
    {
        let asked = Asked {
            haystack: haystack.as_bytes(),
            text: haystack.is_text(),
            request: &request,
            continues: true,
            groups: false,
        };
        let found = self.program.find(&asked, work)?;
        let Some(found) = found else {
            return Ok(None);
        };
        Ok(Some(haystack.make_match(found.start, found.end)))
    }

    /// Whether the pattern matches anywhere in the haystack. It is refused as [`Regex::find_input`] is.
    ///
    /// ```text
    /// Regex::new(alloc, "a|ab")?.is_match("xab")    // true
    /// Regex::new(alloc, "a|ab")?.is_match("xyz")    // false
    /// ```
    pub fn is_match<S: Input>(&self, haystack: S) -> Result<bool>
        requires suits { Suits (options_in self.now) (S.text haystack) (S.bytes haystack) }
        ensures found { IfOk result (λ b.
            b ≡ is_some (search (asked_whole self.now S.bytes haystack))) }
        ensures refused { IfErr result (λ e.
            Refuses self.now (asked_whole self.now S.bytes haystack) e) }
        ensures allowed { IfOk result (λ _.
            Allows self.now (asked_whole self.now S.bytes haystack)) }
    {
        let input = RegexInput::new(haystack);
        let found = self.is_match_input(input)?;
        Ok(found)
    }

    /// Whether [`Regex::find_input`] finds anything, anchored or not. It is refused as that is.
    ///
    /// ```text
    /// let regex = Regex::new(alloc, "a|ab")?;
    /// regex.is_match_input(RegexInput::new("xab"))                   // true
    /// regex.is_match_input(RegexInput::new("xab").anchored(true))    // false
    /// ```
    pub fn is_match_input<S: Input>(&self, input: RegexInput<S>) -> Result<bool>
        requires searched { CanSearchInput S.text S.bytes (options_in self.now) input }
        ensures found { IfOk result (λ b. b ≡ is_some (search (asked_by self.now S.bytes input))) }
        ensures refused { IfErr result (λ e. Refuses self.now (asked_by self.now S.bytes input) e) }
        ensures allowed { IfOk result (λ _. Allows self.now (asked_by self.now S.bytes input)) }
        ensures unlimited { easy_in self.now ≡ true → AllowsEachStep self.now (request_in input)
            → IsOutOfSteps result → ⊥ }
    {
        let haystack = input.haystack();
        let asked = Asked {
            haystack: haystack.as_bytes(),
            text: haystack.is_text(),
            request: &input.request(),
            continues: true,
            groups: false,
        };
        let mut work = Work::new();
        self.program.is_match(&asked, &mut work)
    }
}

impl TryFrom<String> for Regex {
    type Error = Error;

    ghost use Rattle.fancy_core.specs.Built.{IsReading};

    ghost try_from_gives = { λ pattern answer. IsReading by_default (string_bytes pattern) answer };

    /// Reads the text as [`Regex::new`] does, with the default options. The text becomes the regex's own, with its
    /// allocator; it is given up also where the call refuses.
    fn try_from(pattern: String) -> Result<Regex> {
        Regex::with_options(pattern, Options::default())
    }
}

impl fmt::Display for Regex {
    ghost output = { λ r. Some (string_bytes r.pattern) };

    fn fmt<W: fmt::Write>(&self, f: &mut fmt::Formatter<W>) -> fmt::Result {
        write!(f, "{}", self.as_str())
    }
}

impl fmt::Debug for Regex {
    ghost debug_output = { λ r. Some (string_bytes r.pattern) };

    fn fmt<W: fmt::Write>(&self, f: &mut fmt::Formatter<W>) -> fmt::Result {
        f.write_str(self.as_str())
    }
}
