//! Options, set one after another.

ghost use Rattle.std.specs.Prelude.{◌≡◌, Some, chars, string_bytes, IfOk, IfErr};
ghost use Rattle.fancy_tree.specs.Pattern.{Pattern};
ghost use Rattle.fancy_tree.specs.declared.error.Error.TheVariants.{Memory};
ghost use Rattle.fancy_syntax.specs.Dialect.{IsPattern};
ghost use Rattle.fancy_syntax.specs.Refusals.{IsRefused};
ghost use Rattle.fancy_search.specs.ByteSets.{HasStartBytes, HasRequiredBytes};
ghost use Rattle.fancy_core.specs.Built.{IsReading};
ghost use Rattle.fancy_search.specs.Options.{by_default, dialect_of};
ghost use Rattle.fancy_regex.specs.Builders.{options_of, with_flags, with_only_named, with_overrides};

use fancy_bytes::byte_set::ByteSet;
use fancy_core::regex::Regex;
use fancy_search::byte_sets;
use fancy_search::options::Options;
use fancy_tree::error::Result;
use fancy_tree::tree::BytesMode;
use std::alloc::Global;

/// Builds regexes with options. Each setter changes one option and answers the builder, so that setters
/// chain:
///
/// ```text
/// RegexOptionsBuilder::new().bytes_mode(BytesMode::Ascii).build(pattern)
/// ```
#[derive(Drop)]
pub struct RegexOptionsBuilder {
    options: Options,
}

impl RegexOptionsBuilder {
    /// A builder with the default options: `BytesMode::Unicode`, the Unicode mode on, at most 1,000,000 returns and as many
    /// saved branches, no limit for code, and every other switch off.
    ///
    /// ```text
    /// RegexOptionsBuilder::new().build(pattern)    // what Regex::try_from(pattern) answers
    /// ```
    pub fn new() -> RegexOptionsBuilder
        ensures { options_of result ≡ by_default }
    {
        RegexOptionsBuilder {
            options: Options::default(),
        }
    }

    /// How bytes are read. `BytesMode::Unicode` by default.
    ///
    /// ```text
    /// let mut options = RegexOptionsBuilder::new();
    /// options.bytes_mode(BytesMode::Ascii).build(pattern)?.find(b"a\xE9\xFF")    // of `\xE9.`: Some: 1..3
    /// ```
    pub fn bytes_mode(&mut self, mode: BytesMode) -> &mut Self
        ensures same { result.ghost_name ≡ self.entry.ghost_name }
        ensures value { options_of result.now ≡ record (options_of self.old) { bytes_mode = mode } }
    {
        self.options.bytes_mode = mode;
        self
    }

    /// Whether items are of all of Unicode. On by default.
    ///
    /// Where it is off, `BytesMode::UnicodeBytes` reads bytes, and in `BytesMode::Unicode` classes have ASCII
    /// characters alone: `.` and complements are refused there.
    ///
    /// ```text
    /// // of `\d`, on the Arabic digit four and the digit 4, "\u{664}4"
    /// options.unicode_mode(true).build(pattern)?.find(text)     // Some: 0..2
    /// options.unicode_mode(false).build(pattern)?.find(text)    // Some: 2..3
    /// ```
    pub fn unicode_mode(&mut self, yes: bool) -> &mut Self
        ensures same { result.ghost_name ≡ self.entry.ghost_name }
        ensures value { options_of result.now
            ≡ record (options_of self.old) { unicode_mode = yes } }
    {
        self.options.unicode_mode = yes;
        self
    }

    /// Whether flag `i` holds at the pattern's start: a character matches also those that share its simple
    /// folding. Off by default.
    ///
    /// ```text
    /// options.case_insensitive(true).build(pattern)?.find("a Cat")    // of `cat`: Some: 2..5
    /// ```
    pub fn case_insensitive(&mut self, yes: bool) -> &mut Self
        ensures same { result.ghost_name ≡ self.entry.ghost_name }
        ensures value { options_of result.now ≡ with_flags (options_of self.old) (λ f.
            record f { ignore_case = yes }) }
    {
        self.options.flags.ignore_case = yes;
        self
    }

    /// Whether flag `m` holds at the pattern's start: `^` and `$` hold at lines. Off by default.
    ///
    /// ```text
    /// options.multi_line(true).build(pattern)?.find("a\nb\n")    // of `^b$`: Some: 2..3, and None otherwise
    /// ```
    pub fn multi_line(&mut self, yes: bool) -> &mut Self
        ensures same { result.ghost_name ≡ self.entry.ghost_name }
        ensures value { options_of result.now ≡ with_flags (options_of self.old) (λ f.
            record f { multi_line = yes }) }
    {
        self.options.flags.multi_line = yes;
        self
    }

    /// Whether flag `s` holds at the pattern's start: `.` takes line feeds too. Off by default.
    ///
    /// ```text
    /// options.dot_matches_new_line(true).build(pattern)?.find("a\nb")    // of `a.b`: Some: 0..3, and None otherwise
    /// ```
    pub fn dot_matches_new_line(&mut self, yes: bool) -> &mut Self
        ensures same { result.ghost_name ≡ self.entry.ghost_name }
        ensures value { options_of result.now ≡ with_flags (options_of self.old) (λ f.
            record f { dot_all = yes }) }
    {
        self.options.flags.dot_all = yes;
        self
    }

    /// Whether flag `x` holds at the pattern's start: blanks, and lines after `#`, are skipped. Off by default.
    ///
    /// ```text
    /// options.ignore_whitespace(true).build(pattern)?.find("ab")    // of `a b # c`: Some: 0..2
    /// ```
    pub fn ignore_whitespace(&mut self, yes: bool) -> &mut Self
        ensures same { result.ghost_name ≡ self.entry.ghost_name }
        ensures value { options_of result.now
            ≡ with_flags (options_of self.old) (λ f. record f { ignore_blanks = yes }) }
    {
        self.options.flags.ignore_blanks = yes;
        self
    }

    /// The same option as [`RegexOptionsBuilder::ignore_whitespace`], by another name.
    pub fn verbose_mode(&mut self, yes: bool) -> &mut Self
        ensures same { result.ghost_name ≡ self.entry.ghost_name }
        ensures value { options_of result.now
            ≡ with_flags (options_of self.old) (λ f. record f { ignore_blanks = yes }) }
    {
        self.ignore_whitespace(yes)
    }

    /// Whether flag `R` holds at the pattern's start: a carriage return ends a line too. Off by default.
    ///
    /// ```text
    /// options.crlf(true).build(pattern)?.find("b\r\n")    // of `b\Z`: Some: 0..1, and None otherwise
    /// ```
    pub fn crlf(&mut self, yes: bool) -> &mut Self
        ensures same { result.ghost_name ≡ self.entry.ghost_name }
        ensures value { options_of result.now ≡ with_flags (options_of self.old) (λ f.
            record f { crlf = yes }) }
    {
        self.options.flags.crlf = yes;
        self
    }

    /// Whether groups without a name capture nothing where a group of the pattern has a name. Off by default.
    ///
    /// Where it is on and a group has a name, `(..)` is read as `(?:..)`: it takes no number, so that the groups
    /// with names alone are numbered, and `()*` is refused. A pattern without names is read as where it is off.
    ///
    /// ```text
    /// let mut builder = RegexOptionsBuilder::new();
    /// builder.ignore_numbered_groups_when_named_groups_exist(true);
    /// builder.build(pattern)?.captures_len()    // 2, of `(a)(?<n>b)`: group 1 is `n`
    /// builder.build(pattern)?.captures_len()    // 2, of `(a)`
    /// ```
    pub fn ignore_numbered_groups_when_named_groups_exist(&mut self, yes: bool) -> &mut Self
        ensures same { result.ghost_name ≡ self.entry.ghost_name }
        ensures value { options_of result.now ≡ with_only_named (options_of self.old) yes }
    {
        self.options.ignore_numbered_groups_when_named_groups_exist = yes;
        self
    }

    /// Whether an input may say that the text's start, or its end, does not count as one, and that there was no match before.
    /// Off by default.
    ///
    /// Where it is on, `^` and `\A` find no start in an input with `start_text(false)`, `$` and `\z` no end in one
    /// with `end_text(false)`, and `\G` holds nowhere in one with `continue_from_previous_match_end(false)`. Under the
    /// flag `m`, `^` and `$` heed none of them, and `\Z` never does. Where it is off, these settings of an input have no
    /// effect.
    ///
    /// ```text
    /// let regex = RegexOptionsBuilder::new().allow_input_assertion_overrides(true).build(pattern)?;    // of `^a`
    /// regex.find_input(RegexInput::new("a").start_text(false))?    // None
    /// regex.find_input(RegexInput::new("a"))?                      // Some: 0..1
    /// ```
    pub fn allow_input_assertion_overrides(&mut self, yes: bool) -> &mut Self
        ensures same { result.ghost_name ≡ self.entry.ghost_name }
        ensures value { options_of result.now ≡ with_overrides (options_of self.old) yes }
    {
        self.options.allow_input_assertion_overrides = yes;
        self
    }

    /// How many returns to an earlier choice a search for a hard pattern may take, before it is refused as
    /// `RuntimeError(BacktrackLimitExceeded)`. 1,000,000 by default.
    ///
    /// A return is counted each time that the search goes back to a choice and takes its later side; going on to
    /// the next position of the text is none. Patterns that are easy ([`Regex::is_easy`])
    /// do not heed it: their searches are bounded by the lengths of code and text.
    ///
    /// ```text
    /// let regex = RegexOptionsBuilder::new().backtrack_limit(0).build(pattern)?;    // of `(?:a|b)(?=c)`
    /// regex.find("bc")    // Err(RuntimeError(BacktrackLimitExceeded)): the second branch is one return
    /// ```
    pub fn backtrack_limit(&mut self, limit: usize) -> &mut Self
        ensures same { result.ghost_name ≡ self.entry.ghost_name }
        ensures value { options_of result.now
            ≡ record (options_of self.old) { backtrack_limit = limit } }
    {
        self.options.backtrack_limit = limit;
        self
    }

    /// How many branches a search for a hard pattern may have saved at one time, before it is refused as
    /// `RuntimeError(StackOverflow)`. 1,000,000 by default.
    ///
    /// A branch is saved at each choice, for its later side, until the search returns to it or drops it. So this bounds the
    /// memory that such a search takes. Patterns that are easy ([`Regex::is_easy`]) do not heed it.
    ///
    /// ```text
    /// let regex = RegexOptionsBuilder::new().stack_limit(0).build(pattern)?;    // of `(?:a|b)(?=c)`
    /// regex.find("bc")    // Err(RuntimeError(StackOverflow)): the second branch is saved while the first is tried
    /// ```
    pub fn stack_limit(&mut self, limit: usize) -> &mut Self
        ensures same { result.ghost_name ≡ self.entry.ghost_name }
        ensures value { options_of result.now
            ≡ record (options_of self.old) { stack_limit = limit } }
    {
        self.options.stack_limit = limit;
        self
    }

    /// How much work a search may do, before it is refused as `RuntimeError(StepLimitExceeded)`. No limit by default.
    ///
    /// The work is what takes time, whatever the pattern: its steps, the units that its look-behinds go back, the bytes of the texts
    /// that its backreferences compare, and the items that its loops of one item read together (`Work::work`). Easy patterns heed it
    /// too ([`Regex::is_easy`]), but a search for one is never refused where the limit is at least [`Regex::code_len`] times the
    /// searched length plus one. In lists, splits and replacements it holds for each search.
    ///
    /// In a set it holds for a whole search, with the matches that are asked for after it, and in a list of tokens for each token: what
    /// all patterns of the set do counts together. Each pattern is refused past its own limit.
    ///
    /// ```text
    /// let regex = RegexOptionsBuilder::new().step_limit(100_000).build(pattern)?;    // of `(?:ab)*+c`
    /// regex.find(row)    // of 10,000 `ab`: Err(RuntimeError(StepLimitExceeded)), where more than 100,000,000 steps find nothing
    /// ```
    pub fn step_limit(&mut self, limit: usize) -> &mut Self
        ensures same { result.ghost_name ≡ self.entry.ghost_name }
        ensures value { options_of result.now
            ≡ record (options_of self.old) { step_limit = Some limit } }
    {
        self.options.step_limit = Some(limit);
        self
    }

    /// How many instructions a hard pattern's code may have: where it has more, the pattern is refused as
    /// `CompileError(PatternTooComplex)`. No limit by default.
    ///
    /// [`Regex::code_len`] says how many it has: at most 4 for each node of the pattern
    /// with its counted repeats written out, and 2 more. Easy patterns
    /// ([`Regex::is_easy`]) do not heed it.
    ///
    /// ```text
    /// RegexOptionsBuilder::new().max_prog_size(0).build(pattern)    // of `a(?=b)`: Err(CompileError(PatternTooComplex))
    /// RegexOptionsBuilder::new().max_prog_size(0).build(pattern)    // of `a`: Ok
    /// ```
    pub fn max_prog_size(&mut self, size: usize) -> &mut Self
        ensures same { result.ghost_name ≡ self.entry.ghost_name }
        ensures value { options_of result.now
            ≡ record (options_of self.old) { max_prog_size = Some size } }
    {
        self.options.max_prog_size = Some(size);
        self
    }

    /// Whether empty matches are refused: those whose start is their end. Off by default.
    ///
    /// A search goes on past them, at the same position and after it. A pattern that always consumes 0 units can then never
    /// match, and is refused as `CompileError(PatternCanNeverMatch)`, as the empty pattern or `(?=a)`. Under this option no
    /// pattern is easy ([`Regex::is_easy`]).
    ///
    /// ```text
    /// let regex = RegexOptionsBuilder::new().find_not_empty(true).build(pattern)?;    // of `a*`
    /// regex.find("baa")?    // Some: 1..3, where 0..0 is the first otherwise
    /// ```
    pub fn find_not_empty(&mut self, yes: bool) -> &mut Self
        ensures same { result.ghost_name ≡ self.entry.ghost_name }
        ensures value { options_of result.now
            ≡ record (options_of self.old) { find_not_empty = yes } }
    {
        self.options.find_not_empty = yes;
        self
    }

    /// Whether a search asks for the longest match at the position where it finds one: of the matches there the one that ends
    /// last, and of several that end there the one that the pattern prefers. Off by default.
    ///
    /// The search still stops at the least position with a match. It goes through all the matches there, so that all of its
    /// returns count for [`RegexOptionsBuilder::backtrack_limit`]. Under this option no pattern is easy
    /// ([`Regex::is_easy`]).
    ///
    /// ```text
    /// let regex = RegexOptionsBuilder::new().leftmost_longest(true).build(pattern)?;    // of `a|ab`
    /// regex.find("xab")?    // Some: 1..3, where 1..2 is the first otherwise
    /// ```
    pub fn leftmost_longest(&mut self, yes: bool) -> &mut Self
        ensures same { result.ghost_name ≡ self.entry.ghost_name }
        ensures value { options_of result.now
            ≡ record (options_of self.old) { leftmost_longest = yes } }
    {
        self.options.leftmost_longest = yes;
        self
    }

    /// Whether a search for a hard pattern passes over the positions where no match begins, by a scan for the bytes that each
    /// match starts with ([`RegexOptionsBuilder::start_bytes`]). Off by default.
    ///
    /// No answer changes. At the positions that are passed over no return counts for
    /// [`RegexOptionsBuilder::backtrack_limit`]; where the searched text has no such byte, or the haystack lacks one of
    /// [`RegexOptionsBuilder::required_bytes`], the answer is none without a step. Where a match may start at any byte, no
    /// position is passed over. Searches for easy patterns ([`Regex::is_easy`]), which have no such limit, pass over positions
    /// in any case.
    ///
    /// ```text
    /// let mut options = RegexOptionsBuilder::new();
    /// let regex = options.seek(true).backtrack_limit(1).build(pattern)?;    // of `(?:a|b)(?=c)`
    /// regex.find("xxbc")?    // Some: 2..3, where the search is refused at its limit otherwise
    /// ```
    pub fn seek(&mut self, yes: bool) -> &mut Self
        ensures same { result.ghost_name ≡ self.entry.ghost_name }
        ensures value { options_of result.now ≡ record (options_of self.old) { seek = yes } }
    {
        self.options.seek = yes;
        self
    }

    /// Reads a pattern with these options. The allocator is the text's, which is given up also where the
    /// call refuses.
    ///
    /// It is refused as [`Regex::new`] is; under
    /// [`RegexOptionsBuilder::ignore_numbered_groups_when_named_groups_exist`] besides as
    /// `CompileError(NamedBackrefOnly)`, for a reference by number where a group has a name; under
    /// [`RegexOptionsBuilder::find_not_empty`] as `CompileError(PatternCanNeverMatch)`, for a pattern that always consumes 0
    /// units; and where [`RegexOptionsBuilder::max_prog_size`] is set as `CompileError(PatternTooComplex)`, for a hard
    /// pattern with longer code.
    ///
    /// ```text
    /// let pattern = String::from_str(alloc, "a|ab")?;
    /// RegexOptionsBuilder::new().leftmost_longest(true).build(pattern)?.find("xab")    // Some: 1..3
    /// ```
    pub fn build(&self, pattern: String) -> Result<Regex>
        ensures { IsReading (options_of self.now) (string_bytes pattern) result }
    {
        Regex::with_options(pattern, self.options)
    }

    /// The bytes that each match of a pattern starts with under these options. `None` where a match may start at any byte: where
    /// the pattern may match the empty text, or holds `\K`.
    ///
    /// A haystack without one of these bytes has no match. The pattern is refused as [`RegexOptionsBuilder::build`] refuses
    /// it, but for [`RegexOptionsBuilder::max_prog_size`], which has no effect here, as no code is made.
    ///
    /// ```text
    /// RegexOptionsBuilder::new().start_bytes(alloc, "fn|let|impl")?    // Some: f, i, l
    /// RegexOptionsBuilder::new().start_bytes(alloc, "a?")?             // None
    /// ```
    pub fn start_bytes(&self, alloc: Global, pattern: &str) -> Result<Option<ByteSet>>
        ensures value { IfOk result (λ set.
            HasStartBytes (options_of self.now) (chars pattern.now) set) }
        ensures refused { IfErr result (λ e.
            IsRefused e (dialect_of (options_of self.now)) (chars pattern.now)) }
        ensures succeeds { (p : Pattern)
            → IsPattern (dialect_of (options_of self.now)) (chars pattern.now) p
            → IfErr result (λ e. e ≡ Memory) }
    {
        byte_sets::start_bytes(alloc, pattern, self.options)
    }

    /// The bytes that every haystack has in which a pattern matches somewhere under these options.
    ///
    /// They are told from the pattern alone, so there may be more that each such haystack has: of a set of several characters
    /// none are told. The pattern is refused as [`RegexOptionsBuilder::build`] refuses it, but for
    /// [`RegexOptionsBuilder::max_prog_size`], which has no effect here, as no code is made.
    ///
    /// ```text
    /// RegexOptionsBuilder::new().required_bytes(alloc, "a?b")?      // b
    /// RegexOptionsBuilder::new().required_bytes(alloc, "(?i)é")?    // C3, which `é` and `É` begin with
    /// ```
    pub fn required_bytes(&self, alloc: Global, pattern: &str) -> Result<ByteSet>
        ensures value { IfOk result (λ set.
            HasRequiredBytes (options_of self.now) (chars pattern.now) set) }
        ensures refused { IfErr result (λ e.
            IsRefused e (dialect_of (options_of self.now)) (chars pattern.now)) }
        ensures succeeds { (p : Pattern)
            → IsPattern (dialect_of (options_of self.now)) (chars pattern.now) p
            → IfErr result (λ e. e ≡ Memory) }
    {
        byte_sets::required_bytes(alloc, pattern, self.options)
    }

    /// The options that were set.
    pub fn options(&self) -> Options
        ensures { result ≡ options_of self.now }
    {
        self.options
    }
}

impl Default for RegexOptionsBuilder {
    ghost is_default = { λ b. b.options ≡ by_default };

    fn default() -> RegexOptionsBuilder {
        RegexOptionsBuilder::new()
    }
}
