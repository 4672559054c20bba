//! A pattern and its options, set one after another.

ghost use Rattle.std.specs.Prelude.{◌≡◌, IfOk, IfErr, Some, string_bytes};
ghost use Rattle.fancy_regex.specs.Builders.{options_set, pattern_set, with_flags, with_only_named, with_overrides};
ghost use Rattle.fancy_core.specs.Built.{IsReading};
ghost use Rattle.fancy_search.specs.Options.{by_default};

use crate::options::RegexOptionsBuilder;
use fancy_core::regex::Regex;
use fancy_tree::error::{Error, Result};
use fancy_tree::tree::BytesMode;
use std::alloc::Global;

/// Builds regexes from a pattern that it holds, with options. Each setter changes the pattern or one option and
/// answers the builder, so that setters chain:
///
/// ```text
/// let mut builder = RegexBuilder::new(alloc, "^b$")?;
/// builder.multi_line(true).build()?.find("a\nb")?    // Some: 2..3
/// ```
#[derive(Drop)]
pub struct RegexBuilder {
    pattern: String,
    options: RegexOptionsBuilder,
}

impl RegexBuilder {
    /// A builder with a copy of this text as its pattern, and the options of [`RegexOptionsBuilder::new`]. It is
    /// refused only where memory runs out: the text is not read yet.
    ///
    /// ```text
    /// let builder = RegexBuilder::new(alloc, "(?:a")?;
    /// builder.build()    // Err(ParseError(4, UnclosedOpenParen))
    /// ```
    pub fn new(alloc: Global, pattern: &str) -> Result<RegexBuilder>
        ensures pattern { IfOk result (λ b. pattern_set b ≡ pattern.now) }
        ensures options { IfOk result (λ b. options_set b ≡ by_default) }
        ensures refused { IfErr result (λ e. e ≡ Error.Memory) }
    {
        Ok(RegexBuilder {
            pattern: String::from_str(alloc, pattern)?,
            options: RegexOptionsBuilder::new(),
        })
    }

    /// Puts this pattern in the place of the one before, which is given up. The options stay, and no memory is taken.
    ///
    /// ```text
    /// let mut builder = RegexBuilder::new(alloc, "a b")?;
    /// builder.ignore_whitespace(true).build()?.find("ab")    // Some: 0..2
    /// builder.pattern(other).build()?.find("ab")             // of `b #`: Some: 1..2, as the option stays
    /// ```
    pub fn pattern(&mut self, pattern: String) -> &mut Self
        ensures same { result.ghost_name ≡ self.entry.ghost_name }
        ensures pattern { pattern_set result.now ≡ string_bytes pattern }
        ensures options { options_set result.now ≡ options_set self.old }
    {
        self.pattern = pattern;
        self
    }

    /// Sets the option of [`RegexOptionsBuilder::bytes_mode`].
    pub fn bytes_mode(&mut self, mode: BytesMode) -> &mut Self
        ensures same { result.ghost_name ≡ self.entry.ghost_name }
        ensures pattern { pattern_set result.now ≡ pattern_set self.old }
        ensures value { options_set result.now
            ≡ record (options_set self.old) { bytes_mode = mode } }
    {
        self.options.bytes_mode(mode);
        self
    }

    /// Sets the option of [`RegexOptionsBuilder::unicode_mode`].
    pub fn unicode_mode(&mut self, yes: bool) -> &mut Self
        ensures same { result.ghost_name ≡ self.entry.ghost_name }
        ensures pattern { pattern_set result.now ≡ pattern_set self.old }
        ensures value { options_set result.now
            ≡ record (options_set self.old) { unicode_mode = yes } }
    {
        self.options.unicode_mode(yes);
        self
    }

    /// Sets the option of [`RegexOptionsBuilder::case_insensitive`].
    pub fn case_insensitive(&mut self, yes: bool) -> &mut Self
        ensures same { result.ghost_name ≡ self.entry.ghost_name }
        ensures pattern { pattern_set result.now ≡ pattern_set self.old }
        ensures value { options_set result.now
            ≡ with_flags (options_set self.old) (λ f. record f { ignore_case = yes }) }
    {
        self.options.case_insensitive(yes);
        self
    }

    /// Sets the option of [`RegexOptionsBuilder::multi_line`].
    pub fn multi_line(&mut self, yes: bool) -> &mut Self
        ensures same { result.ghost_name ≡ self.entry.ghost_name }
        ensures pattern { pattern_set result.now ≡ pattern_set self.old }
        ensures value { options_set result.now
            ≡ with_flags (options_set self.old) (λ f. record f { multi_line = yes }) }
    {
        self.options.multi_line(yes);
        self
    }

    /// Sets the option of [`RegexOptionsBuilder::dot_matches_new_line`].
    pub fn dot_matches_new_line(&mut self, yes: bool) -> &mut Self
        ensures same { result.ghost_name ≡ self.entry.ghost_name }
        ensures pattern { pattern_set result.now ≡ pattern_set self.old }
        ensures value { options_set result.now ≡ with_flags (options_set self.old) (λ f.
            record f { dot_all = yes }) }
    {
        self.options.dot_matches_new_line(yes);
        self
    }

    /// Sets the option of [`RegexOptionsBuilder::ignore_whitespace`].
    pub fn ignore_whitespace(&mut self, yes: bool) -> &mut Self
        ensures same { result.ghost_name ≡ self.entry.ghost_name }
        ensures pattern { pattern_set result.now ≡ pattern_set self.old }
        ensures value { options_set result.now
            ≡ with_flags (options_set self.old) (λ f. record f { ignore_blanks = yes }) }
    {
        self.options.ignore_whitespace(yes);
        self
    }

    /// The same option as [`RegexBuilder::ignore_whitespace`], by another name.
    pub fn verbose_mode(&mut self, yes: bool) -> &mut Self
        ensures same { result.ghost_name ≡ self.entry.ghost_name }
        ensures pattern { pattern_set result.now ≡ pattern_set self.old }
        ensures value { options_set result.now
            ≡ with_flags (options_set self.old) (λ f. record f { ignore_blanks = yes }) }
    {
        self.ignore_whitespace(yes)
    }

    /// Sets the option of [`RegexOptionsBuilder::crlf`].
    pub fn crlf(&mut self, yes: bool) -> &mut Self
        ensures same { result.ghost_name ≡ self.entry.ghost_name }
        ensures pattern { pattern_set result.now ≡ pattern_set self.old }
        ensures value { options_set result.now ≡ with_flags (options_set self.old) (λ f.
            record f { crlf = yes }) }
    {
        self.options.crlf(yes);
        self
    }

    /// Sets the option of [`RegexOptionsBuilder::ignore_numbered_groups_when_named_groups_exist`].
    pub fn ignore_numbered_groups_when_named_groups_exist(&mut self, yes: bool) -> &mut Self
        ensures same { result.ghost_name ≡ self.entry.ghost_name }
        ensures pattern { pattern_set result.now ≡ pattern_set self.old }
        ensures value { options_set result.now ≡ with_only_named (options_set self.old) yes }
    {
        self.options
            .ignore_numbered_groups_when_named_groups_exist(yes);
        self
    }

    /// Sets the option of [`RegexOptionsBuilder::allow_input_assertion_overrides`].
    pub fn allow_input_assertion_overrides(&mut self, yes: bool) -> &mut Self
        ensures same { result.ghost_name ≡ self.entry.ghost_name }
        ensures pattern { pattern_set result.now ≡ pattern_set self.old }
        ensures value { options_set result.now ≡ with_overrides (options_set self.old) yes }
    {
        self.options.allow_input_assertion_overrides(yes);
        self
    }

    /// Sets the option of [`RegexOptionsBuilder::backtrack_limit`].
    pub fn backtrack_limit(&mut self, limit: usize) -> &mut Self
        ensures same { result.ghost_name ≡ self.entry.ghost_name }
        ensures pattern { pattern_set result.now ≡ pattern_set self.old }
        ensures value { options_set result.now
            ≡ record (options_set self.old) { backtrack_limit = limit } }
    {
        self.options.backtrack_limit(limit);
        self
    }

    /// Sets the option of [`RegexOptionsBuilder::stack_limit`].
    pub fn stack_limit(&mut self, limit: usize) -> &mut Self
        ensures same { result.ghost_name ≡ self.entry.ghost_name }
        ensures pattern { pattern_set result.now ≡ pattern_set self.old }
        ensures value { options_set result.now
            ≡ record (options_set self.old) { stack_limit = limit } }
    {
        self.options.stack_limit(limit);
        self
    }

    /// Sets the option of [`RegexOptionsBuilder::step_limit`].
    pub fn step_limit(&mut self, limit: usize) -> &mut Self
        ensures same { result.ghost_name ≡ self.entry.ghost_name }
        ensures pattern { pattern_set result.now ≡ pattern_set self.old }
        ensures value { options_set result.now
            ≡ record (options_set self.old) { step_limit = Some limit } }
    {
        self.options.step_limit(limit);
        self
    }

    /// Sets the option of [`RegexOptionsBuilder::max_prog_size`].
    pub fn max_prog_size(&mut self, size: usize) -> &mut Self
        ensures same { result.ghost_name ≡ self.entry.ghost_name }
        ensures pattern { pattern_set result.now ≡ pattern_set self.old }
        ensures value { options_set result.now
            ≡ record (options_set self.old) { max_prog_size = Some size } }
    {
        self.options.max_prog_size(size);
        self
    }

    /// Sets the option of [`RegexOptionsBuilder::find_not_empty`].
    pub fn find_not_empty(&mut self, yes: bool) -> &mut Self
        ensures same { result.ghost_name ≡ self.entry.ghost_name }
        ensures pattern { pattern_set result.now ≡ pattern_set self.old }
        ensures value { options_set result.now
            ≡ record (options_set self.old) { find_not_empty = yes } }
    {
        self.options.find_not_empty(yes);
        self
    }

    /// Sets the option of [`RegexOptionsBuilder::leftmost_longest`].
    pub fn leftmost_longest(&mut self, yes: bool) -> &mut Self
        ensures same { result.ghost_name ≡ self.entry.ghost_name }
        ensures pattern { pattern_set result.now ≡ pattern_set self.old }
        ensures value { options_set result.now
            ≡ record (options_set self.old) { leftmost_longest = yes } }
    {
        self.options.leftmost_longest(yes);
        self
    }

    /// Sets the option of [`RegexOptionsBuilder::seek`].
    pub fn seek(&mut self, yes: bool) -> &mut Self
        ensures same { result.ghost_name ≡ self.entry.ghost_name }
        ensures pattern { pattern_set result.now ≡ pattern_set self.old }
        ensures value { options_set result.now ≡ record (options_set self.old) { seek = yes } }
    {
        self.options.seek(yes);
        self
    }

    /// Reads the pattern with these options, as [`RegexOptionsBuilder::build`] does, and stays as it is. The regex has
    /// a copy of the text, and the allocator of the pattern.
    ///
    /// ```text
    /// let mut builder = RegexBuilder::new(alloc, "a")?;
    /// builder.build()?.is_match("A")                           // false
    /// builder.case_insensitive(true).build()?.is_match("A")    // true
    /// ```
    pub fn build(&self) -> Result<Regex>
        ensures { IsReading (options_set self.now) (pattern_set self.now) result }
    {
        let pattern = self.pattern.clone()?;
        self.options.build(pattern)
    }
}
