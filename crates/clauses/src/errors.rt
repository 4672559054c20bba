//! Refusals: their names, and what is made one.

ghost use Rattle.std.specs.Prelude.{◌≡◌};
ghost use Rattle.fancy_regex.specs.Errors.{compile_error_name, error_name, parse_error_name, runtime_error_name};
ghost use Rattle.fancy_regex.specs.declared.Error.TheVariants.{CompileError as Compile, Memory};

use fancy_regex::{CompileError, Error, ParseErrorKind, RuntimeError};
use std::alloc::{AllocError, AllocFailed};

/// The name of the kind of a refusal.
pub fn name(error: &Error) -> &'static str
    ensures { result.now ≡ error_name error.now }
{
    error.name()
}

/// The names of the kinds inside: of what is wrong with a text, of why a pattern is not accepted, and of why a search was given up.
pub fn kind_names(
    parse: ParseErrorKind,
    compile: &CompileError,
    runtime: RuntimeError,
) -> (&'static str, &'static str, &'static str)
    ensures parse { result.0.now ≡ parse_error_name parse }
    ensures compile { result.1.now ≡ compile_error_name compile.now }
    ensures runtime { result.2.now ≡ runtime_error_name runtime }
{
    (parse.name(), compile.name(), runtime.name())
}

/// A growth of memory that was refused is `Memory`, also where a value is given back, and a pattern that is not accepted a
/// `CompileError`.
pub fn conversions<T: Drop>(
    refused: AllocError,
    given_back: AllocFailed<T>,
    compile: CompileError,
) -> (Error, Error, Error)
    ensures refused { result.0 ≡ Memory }
    ensures given_back { result.1 ≡ Memory }
    ensures compile { result.2 ≡ Compile compile }
{
    (
        Error::from(refused),
        Error::from(given_back),
        Error::from(compile),
    )
}
