//! Regexes and the inputs that they may search.

ghost use Rattle.std.specs.Prelude.{◌≡◌};
ghost use Rattle.fancy_search.specs.Options.{by_default};
ghost use Rattle.fancy_core.specs.Regexes.{options_in};
ghost use Rattle.fancy_core.specs.Searches.{CanSearchInput};

use fancy_core::regex::Regex;
use fancy_input::input::Input;
use fancy_input::regex_input::RegexInput;
use fancy_search::options::Options;
use std::alloc::Global;
use std::process::Abort;

/// A text that a call may take.
pub(crate) fn owned(rt: &impl Abort, alloc: Global, text: &str) -> String {
    String::from_str(alloc, text).expect(rt, text)
}

/// The regex of the pattern with the default options, of which alone the tests know something.
pub(crate) fn regex_of(rt: &impl Abort, alloc: Global, pattern: &str) -> Regex
    ensures { options_in result ≡ by_default }
{
    Regex::new(alloc, pattern).expect(rt, pattern)
}

/// The regex of the pattern with these options.
pub(crate) fn regex_with(rt: &impl Abort, alloc: Global, options: Options, pattern: &str) -> Regex {
    Regex::with_options(owned(rt, alloc, pattern), options).expect(rt, pattern)
}

/// The input, which the regex may search.
pub(crate) fn searchable<S: Input>(
    rt: &impl Abort,
    regex: &Regex,
    input: RegexInput<S>,
) -> RegexInput<S>
    ensures { CanSearchInput S.text S.bytes (options_in regex.now) result }
{
    assert!(rt; regex.can_search(&input), "{}", regex.as_str());
    input
}
