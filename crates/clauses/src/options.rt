//! Building a regex with options: each setter changes one option, and answers the builder.
//!
//! `options_of` gives what a builder has been set to, and `by_default` is what it begins with.

ghost use Rattle.std.specs.Prelude.{◌≡◌, Some, string_bytes};
ghost use Rattle.fancy_regex.specs.Builders.{options_of, with_flags, with_only_named, with_overrides};
ghost use Rattle.fancy_regex.specs.Built.{IsReading};
ghost use Rattle.fancy_regex.specs.Modes.{keeps_characters, meaning_of};
ghost use Rattle.fancy_regex.specs.Options.{by_default};
ghost use Rattle.fancy_regex.specs.declared.BytesMode.TheVariants.{Unicode as ByCharacters};

use fancy_regex::{BytesMode, Meaning, Options, Regex, RegexOptionsBuilder, Result};

/// A new builder has the default options, and so has the one that `Default` makes.
pub fn new() -> (RegexOptionsBuilder, RegexOptionsBuilder)
    ensures new { options_of result.0 ≡ by_default }
    ensures default { options_of result.1 ≡ by_default }
{
    (RegexOptionsBuilder::new(), RegexOptionsBuilder::default())
}

/// What stands where nothing is set.
pub fn defaults() -> (Options, BytesMode)
    ensures options { result.0 ≡ by_default }
    ensures mode { result.1 ≡ ByCharacters }
{
    (Options::default(), BytesMode::default())
}

/// What an item consumes in a mode, and whether matches begin and end on character boundaries alone.
pub fn meanings(mode: BytesMode, unicode_mode: bool) -> (Meaning, bool)
    ensures meaning { result.0 ≡ meaning_of mode unicode_mode }
    ensures keeps_characters { result.1 ≡ keeps_characters mode }
{
    (mode.meaning(unicode_mode), mode.keeps_characters())
}

/// The options that were set.
pub fn options(builder: &RegexOptionsBuilder) -> Options
    ensures { result ≡ options_of builder.now }
{
    builder.options()
}

/// The text is read under the options; the builder stays as it is.
pub fn build(builder: &RegexOptionsBuilder, pattern: String) -> Result<Regex>
    ensures { IsReading (options_of builder.now) (string_bytes pattern) result }
{
    builder.build(pattern)
}

/// How bytes are read.
pub fn bytes_mode(builder: &mut RegexOptionsBuilder, mode: BytesMode) -> &mut RegexOptionsBuilder
    ensures same { result.ghost_name ≡ builder.entry.ghost_name }
    ensures value { options_of result.now ≡ record (options_of builder.old) { bytes_mode = mode } }
{
    builder.bytes_mode(mode)
}

/// Whether items are of all of Unicode.
pub fn unicode_mode(builder: &mut RegexOptionsBuilder, yes: bool) -> &mut RegexOptionsBuilder
    ensures same { result.ghost_name ≡ builder.entry.ghost_name }
    ensures value { options_of result.now ≡ record (options_of builder.old) { unicode_mode = yes } }
{
    builder.unicode_mode(yes)
}

/// Whether flag `i` holds at the start.
pub fn case_insensitive(builder: &mut RegexOptionsBuilder, yes: bool) -> &mut RegexOptionsBuilder
    ensures same { result.ghost_name ≡ builder.entry.ghost_name }
    ensures value { options_of result.now
        ≡ with_flags (options_of builder.old) (λ f. record f { ignore_case = yes }) }
{
    builder.case_insensitive(yes)
}

/// Whether flag `m` holds at the start.
pub fn multi_line(builder: &mut RegexOptionsBuilder, yes: bool) -> &mut RegexOptionsBuilder
    ensures same { result.ghost_name ≡ builder.entry.ghost_name }
    ensures value { options_of result.now
        ≡ with_flags (options_of builder.old) (λ f. record f { multi_line = yes }) }
{
    builder.multi_line(yes)
}

/// Whether flag `s` holds at the start.
pub fn dot_matches_new_line(
    builder: &mut RegexOptionsBuilder,
    yes: bool,
) -> &mut RegexOptionsBuilder
    ensures same { result.ghost_name ≡ builder.entry.ghost_name }
    ensures value { options_of result.now
        ≡ with_flags (options_of builder.old) (λ f. record f { dot_all = yes }) }
{
    builder.dot_matches_new_line(yes)
}

/// Whether flag `x` holds at the start.
pub fn ignore_whitespace(builder: &mut RegexOptionsBuilder, yes: bool) -> &mut RegexOptionsBuilder
    ensures same { result.ghost_name ≡ builder.entry.ghost_name }
    ensures value { options_of result.now
        ≡ with_flags (options_of builder.old) (λ f. record f { ignore_blanks = yes }) }
{
    builder.ignore_whitespace(yes)
}

/// The same, by another name.
pub fn verbose_mode(builder: &mut RegexOptionsBuilder, yes: bool) -> &mut RegexOptionsBuilder
    ensures same { result.ghost_name ≡ builder.entry.ghost_name }
    ensures value { options_of result.now
        ≡ with_flags (options_of builder.old) (λ f. record f { ignore_blanks = yes }) }
{
    builder.verbose_mode(yes)
}

/// Whether flag `R` holds at the start.
pub fn crlf(builder: &mut RegexOptionsBuilder, yes: bool) -> &mut RegexOptionsBuilder
    ensures same { result.ghost_name ≡ builder.entry.ghost_name }
    ensures value { options_of result.now
        ≡ with_flags (options_of builder.old) (λ f. record f { crlf = yes }) }
{
    builder.crlf(yes)
}

/// Whether groups without a name capture nothing beside named ones.
pub fn ignore_numbered_groups_when_named_groups_exist(
    builder: &mut RegexOptionsBuilder,
    yes: bool,
) -> &mut RegexOptionsBuilder
    ensures same { result.ghost_name ≡ builder.entry.ghost_name }
    ensures value { options_of result.now ≡ with_only_named (options_of builder.old) yes }
{
    builder.ignore_numbered_groups_when_named_groups_exist(yes)
}

/// Whether an input may suppress the ends of the text and `\G`.
pub fn allow_input_assertion_overrides(
    builder: &mut RegexOptionsBuilder,
    yes: bool,
) -> &mut RegexOptionsBuilder
    ensures same { result.ghost_name ≡ builder.entry.ghost_name }
    ensures value { options_of result.now ≡ with_overrides (options_of builder.old) yes }
{
    builder.allow_input_assertion_overrides(yes)
}

/// How many returns a hard search may take.
pub fn backtrack_limit(builder: &mut RegexOptionsBuilder, limit: usize) -> &mut RegexOptionsBuilder
    ensures same { result.ghost_name ≡ builder.entry.ghost_name }
    ensures value { options_of result.now
        ≡ record (options_of builder.old) { backtrack_limit = limit } }
{
    builder.backtrack_limit(limit)
}

/// How many branches a hard search may have saved at one time.
pub fn stack_limit(builder: &mut RegexOptionsBuilder, limit: usize) -> &mut RegexOptionsBuilder
    ensures same { result.ghost_name ≡ builder.entry.ghost_name }
    ensures value { options_of result.now
        ≡ record (options_of builder.old) { stack_limit = limit } }
{
    builder.stack_limit(limit)
}

/// How much work a search may do.
pub fn step_limit(builder: &mut RegexOptionsBuilder, limit: usize) -> &mut RegexOptionsBuilder
    ensures same { result.ghost_name ≡ builder.entry.ghost_name }
    ensures value { options_of result.now
        ≡ record (options_of builder.old) { step_limit = Some limit } }
{
    builder.step_limit(limit)
}

/// How many instructions the code of a hard pattern may have.
pub fn max_prog_size(builder: &mut RegexOptionsBuilder, size: usize) -> &mut RegexOptionsBuilder
    ensures same { result.ghost_name ≡ builder.entry.ghost_name }
    ensures value { options_of result.now
        ≡ record (options_of builder.old) { max_prog_size = Some size } }
{
    builder.max_prog_size(size)
}

/// Whether empty matches are refused.
pub fn find_not_empty(builder: &mut RegexOptionsBuilder, yes: bool) -> &mut RegexOptionsBuilder
    ensures same { result.ghost_name ≡ builder.entry.ghost_name }
    ensures value { options_of result.now
        ≡ record (options_of builder.old) { find_not_empty = yes } }
{
    builder.find_not_empty(yes)
}

/// Whether the longest match at a position is asked for.
pub fn leftmost_longest(builder: &mut RegexOptionsBuilder, yes: bool) -> &mut RegexOptionsBuilder
    ensures same { result.ghost_name ≡ builder.entry.ghost_name }
    ensures value { options_of result.now
        ≡ record (options_of builder.old) { leftmost_longest = yes } }
{
    builder.leftmost_longest(yes)
}

/// Whether positions are passed over by their bytes.
pub fn seek(builder: &mut RegexOptionsBuilder, yes: bool) -> &mut RegexOptionsBuilder
    ensures same { result.ghost_name ≡ builder.entry.ghost_name }
    ensures value { options_of result.now ≡ record (options_of builder.old) { seek = yes } }
{
    builder.seek(yes)
}
