//! Building a regex with the default options, and reading one.

ghost use Rattle.std.specs.Iterator.{YieldsFirstBy};
ghost use Rattle.std.specs.Prelude.{◌*◌, ◌+◌, ◌↔◌, ◌≡◌, ◌≤◌, IfErr, IfOk, IsTrue, None, Some, chars, false, length, slice_get, string_bytes};
ghost use Rattle.fancy_regex.specs.Built.{IsReading};
ghost use Rattle.fancy_regex.specs.CaptureNames.{names_in, names_left, names_of_groups, read_name};
ghost use Rattle.fancy_regex.specs.Compiled.{IsSpelled};
ghost use Rattle.fancy_regex.specs.Dialect.{IsPattern};
ghost use Rattle.fancy_regex.specs.Limited.{IsHard};
ghost use Rattle.fancy_regex.specs.Options.{by_default, dialect_of};
ghost use Rattle.fancy_regex.specs.Pattern.{Pattern};
ghost use Rattle.fancy_regex.specs.ProgramSize.{IsRefusedUnder, RefusesPattern, passes};
ghost use Rattle.fancy_regex.specs.RegexStarts.{regex_may_start};
ghost use Rattle.fancy_regex.specs.Regexes.{easy_in, group_count_in, length_in, options_in, pattern_in, pattern_text};
ghost use Rattle.fancy_regex.specs.Searches.{CanSearchInput};
ghost use Rattle.fancy_regex.specs.Sizes.{nodes};
ghost use Rattle.fancy_regex.specs.declared.Error.TheVariants.{Memory};

use fancy_regex::{CaptureNames, Input, Options, Regex, RegexInput, Result};
use std::alloc::{AllocError, Global};

/// A regex means the one pattern that its text spells; a refusal says what is wrong with the text.
pub fn new(alloc: Global, pattern: &str) -> Result<Regex>
    ensures text { IfOk result (λ r. pattern_text r ≡ pattern.now) }
    ensures options { IfOk result (λ r. options_in r ≡ by_default) }
    ensures spelled { IfOk result
        (λ r. IsSpelled by_default pattern.now (pattern_in r) (group_count_in r) (names_in r)) }
    ensures refused { IfErr result (λ e. IsRefusedUnder by_default (chars pattern.now) e) }
    ensures succeeds { (p : Pattern) → IsPattern (dialect_of by_default) (chars pattern.now) p
        → IfErr result (λ e. RefusesPattern by_default p e) }
{
    Regex::new(alloc, pattern)
}

/// The same from a text that becomes the regex's own.
pub fn try_from(pattern: String) -> Result<Regex>
    ensures { IsReading by_default (string_bytes pattern) result }
{
    Regex::try_from(pattern)
}

/// The same under other options. A hard pattern has code of at most the size that was set.
pub fn with_options(pattern: String, options: Options) -> Result<Regex>
    ensures text { IfOk result (λ r. pattern_text r ≡ string_bytes pattern) }
    ensures options { IfOk result (λ r. options_in r ≡ options) }
    ensures spelled { IfOk result
        (λ r. IsSpelled options (string_bytes pattern) (pattern_in r) (group_count_in r)
        (names_in r)) }
    ensures sized { IfOk result
        (λ r. IsHard r → passes (length_in r) options.max_prog_size ≡ false) }
    ensures refused { IfErr result (λ e. IsRefusedUnder options (chars (string_bytes pattern)) e) }
    ensures succeeds { (p : Pattern)
        → IsPattern (dialect_of options) (chars (string_bytes pattern)) p
        → IfErr result (λ e. RefusesPattern options p e) }
{
    Regex::with_options(pattern, options)
}

/// The text of the pattern.
pub fn as_str(regex: &Regex) -> &str
    ensures { result.now ≡ pattern_text regex.now }
{
    regex.as_str()
}

/// How many groups the pattern has, whether it is easy, and how long its code is.
pub fn reads(regex: &Regex) -> (usize, bool, usize)
    ensures captures_len { result.0 ≡ group_count_in regex.now }
    ensures is_easy { result.1 ≡ easy_in regex.now }
    ensures code_len { result.2 ≡ length_in regex.now }
    ensures short { result.2 ≤ 4 * nodes (pattern_in regex.now) + 2 }
{
    (regex.captures_len(), regex.is_easy(), regex.code_len())
}

/// The name of each group, in the order of their numbers.
pub fn capture_names(regex: &Regex) -> Result<CaptureNames<'_>>
    ensures names { IfOk result (λ n. names_left n ≡ names_of_groups regex.now) }
    ensures count { IfOk result (λ n. length (names_left n) ≡ group_count_in regex.now) }
    ensures whole_match { IfOk result (λ n. slice_get (names_left n) 0 ≡ Some None) }
    ensures refused { IfErr result (λ e. e ≡ Memory) }
{
    regex.capture_names()
}

/// The next of these names.
pub fn next_name<'r>(names: &mut CaptureNames<'r>) -> Option<Option<&'r str>>
    ensures { YieldsFirstBy read_name names_left names.old result names.new }
{
    names.next()
}

/// Whether a match may start before this byte.
pub fn may_start_before(regex: &Regex, next: Option<u8>) -> bool
    ensures { result ≡ regex_may_start regex.now next }
{
    regex.may_start_before(next)
}

/// Whether an input may be searched: the condition of all searches.
pub fn can_search<S: Input>(regex: &Regex, input: &RegexInput<S>) -> bool
    ensures { IsTrue result ↔ CanSearchInput S.text S.bytes (options_in regex.now) input.now }
{
    regex.can_search(input)
}

/// A regex is printed as its pattern, by `Display` and by `Debug`.
pub fn prints(alloc: Global, regex: &Regex) -> std::result::Result<(String, String), AllocError>
    ensures display { IfOk result (λ s. string_bytes s.0 ≡ pattern_text regex.now) }
    ensures debug { IfOk result (λ s. string_bytes s.1 ≡ pattern_text regex.now) }
{
    Ok((
        format!(in alloc; "{regex}")?,
        format!(in alloc; "{regex:?}")?,
    ))
}

/// A loop over the names ends.
pub fn ends(names: CaptureNames<'_>) {
    for _ in names {}
}
