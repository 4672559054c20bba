//! Building a regex from a pattern that a builder holds: each setter changes the pattern or one option, and answers the builder.
//!
//! `pattern_set` gives the bytes of the pattern's text, and `options_set` the options.

ghost use Rattle.std.specs.Prelude.{◌≡◌, IfErr, IfOk, string_bytes};
ghost use Rattle.fancy_regex.specs.Builders.{options_set, pattern_set, with_flags, with_only_named, with_overrides};
ghost use Rattle.fancy_regex.specs.Built.{IsReading};
ghost use Rattle.fancy_regex.specs.Options.{by_default};
ghost use Rattle.fancy_regex.specs.declared.Error.TheVariants.{Memory};

use fancy_regex::{BytesMode, Regex, RegexBuilder, Result};
use std::alloc::Global;

/// A builder with a copy of this text.
pub fn new(alloc: Global, pattern: &str) -> Result<RegexBuilder>
    ensures pattern { IfOk result (λ b. pattern_set b ≡ pattern.now) }
    ensures options { IfOk result (λ b. options_set b ≡ by_default) }
    ensures refused { IfErr result (λ e. e ≡ Memory) }
{
    RegexBuilder::new(alloc, pattern)
}

/// Another pattern in the place of the one before.
pub fn pattern(builder: &mut RegexBuilder, pattern: String) -> &mut RegexBuilder
    ensures same { result.ghost_name ≡ builder.entry.ghost_name }
    ensures pattern { pattern_set result.now ≡ string_bytes pattern }
    ensures options { options_set result.now ≡ options_set builder.old }
{
    builder.pattern(pattern)
}

/// The pattern is read under the options; the builder stays as it is.
pub fn build(builder: &RegexBuilder) -> Result<Regex>
    ensures { IsReading (options_set builder.now) (pattern_set builder.now) result }
{
    builder.build()
}

/// How bytes are read, and whether items are of all of Unicode.
pub fn modes(builder: &mut RegexBuilder, mode: BytesMode, unicode: bool) -> &mut RegexBuilder
    ensures same { result.ghost_name ≡ builder.entry.ghost_name }
    ensures pattern { pattern_set result.now ≡ pattern_set builder.old }
    ensures value { options_set result.now
        ≡ record (options_set builder.old) { bytes_mode = mode; unicode_mode = unicode } }
{
    builder.bytes_mode(mode).unicode_mode(unicode)
}

/// The flags that hold at the start: `i`, `m`, `s`, `x` and `R`.
pub fn flags(
    builder: &mut RegexBuilder,
    ignore_case: bool,
    multi_line: bool,
    dot_all: bool,
    ignore_blanks: bool,
    crlf: bool,
) -> &mut RegexBuilder
    ensures same { result.ghost_name ≡ builder.entry.ghost_name }
    ensures pattern { pattern_set result.now ≡ pattern_set builder.old }
    ensures value { options_set result.now ≡ with_flags (options_set builder.old) (λ f. record f {
      ignore_case = ignore_case;
      multi_line = multi_line;
      dot_all = dot_all;
      ignore_blanks = ignore_blanks;
      crlf = crlf;
    }) }
{
    let cases = builder.case_insensitive(ignore_case).multi_line(multi_line);
    let dots = cases.dot_matches_new_line(dot_all);
    dots.ignore_whitespace(ignore_blanks).crlf(crlf)
}

/// Flag `x` once more, by another name.
pub fn verbose_mode(builder: &mut RegexBuilder, yes: bool) -> &mut RegexBuilder
    ensures same { result.ghost_name ≡ builder.entry.ghost_name }
    ensures pattern { pattern_set result.now ≡ pattern_set builder.old }
    ensures value { options_set result.now
        ≡ with_flags (options_set builder.old) (λ f. record f { ignore_blanks = yes }) }
{
    builder.verbose_mode(yes)
}

/// Whether groups without a name capture nothing beside named ones, and whether an input may suppress the ends of the text.
pub fn switches(builder: &mut RegexBuilder, only_named: bool, overrides: bool) -> &mut RegexBuilder
    ensures same { result.ghost_name ≡ builder.entry.ghost_name }
    ensures pattern { pattern_set result.now ≡ pattern_set builder.old }
    ensures value { options_set result.now
        ≡ with_overrides (with_only_named (options_set builder.old) only_named) overrides }
{
    builder
        .ignore_numbered_groups_when_named_groups_exist(only_named)
        .allow_input_assertion_overrides(overrides)
}

/// The limits of returns, of saved branches, of work, and of code.
pub fn limits(
    builder: &mut RegexBuilder,
    returns: usize,
    branches: usize,
    steps: usize,
    code: usize,
) -> &mut RegexBuilder
    ensures same { result.ghost_name ≡ builder.entry.ghost_name }
    ensures pattern { pattern_set result.now ≡ pattern_set builder.old }
    ensures value { options_set result.now ≡ record (options_set builder.old) {
      backtrack_limit = returns;
      stack_limit = branches;
      step_limit = Some steps;
      max_prog_size = Some code;
    } }
{
    builder
        .backtrack_limit(returns)
        .stack_limit(branches)
        .step_limit(steps)
        .max_prog_size(code)
}

/// Whether empty matches are refused, whether the longest match is asked for, and whether positions are passed over by their bytes.
pub fn wishes(
    builder: &mut RegexBuilder,
    not_empty: bool,
    longest: bool,
    seek: bool,
) -> &mut RegexBuilder
    ensures same { result.ghost_name ≡ builder.entry.ghost_name }
    ensures pattern { pattern_set result.now ≡ pattern_set builder.old }
    ensures value { options_set result.now ≡ record (options_set builder.old)
        { find_not_empty = not_empty; leftmost_longest = longest; seek = seek } }
{
    builder
        .find_not_empty(not_empty)
        .leftmost_longest(longest)
        .seek(seek)
}
