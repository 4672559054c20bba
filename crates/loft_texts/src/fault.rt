//! What ends a command, or the work on one file, early.

use fancy_tree::error::Error;
use std::alloc::{AllocError, AllocFailed};
use std::{fmt, io};

/// What is wrong with a rule of a list.
#[derive(Clone, Copy)]
pub enum RuleFault {
    /// The list is no CSV there.
    Unreadable,
    /// A field is no UTF-8.
    NotText,
    /// It has no name or no pattern.
    Incomplete,
    /// Its severity is neither error nor warning.
    Severity,
}

impl RuleFault {
    /// What is told of it.
    fn words(self) -> &'static str {
        match self {
            RuleFault::Unreadable => "the list cannot be read",
            RuleFault::NotText => "a field is no UTF-8",
            RuleFault::Incomplete => "a rule has a name and a pattern",
            RuleFault::Severity => "the severity is neither error nor warning",
        }
    }
}

/// What ended a command, or the work on one file.
pub enum Fault {
    /// A pattern or a search was refused, or memory for it.
    Search(Error),
    /// The input cannot be read.
    Input(io::Error),
    /// The output cannot be written: nothing more is done.
    Output(io::Error),
    /// Standard input was to be rewritten in place.
    InPlace,
    /// A rule of the list, counted from 1, is not one.
    Rule(u64, RuleFault),
    /// The pattern of a rule, counted from 1, is refused.
    RulePattern(u64, Error),
}

/// By hand, so that crates above do not prove it once more.
impl Drop for Fault {
    fn drop(self) {
        match self {
            Fault::Search(_) => {}
            Fault::Input(_) => {}
            Fault::Output(_) => {}
            Fault::InPlace => {}
            Fault::Rule(_, _) => {}
            Fault::RulePattern(_, _) => {}
        }
    }
}

impl Fault {
    /// Whether nothing more can be written.
    pub(crate) fn ends_the_output(&self) -> bool {
        matches!(self, Fault::Output(_))
    }

    /// Whether the reader of the output has gone away, which is no fault of the program.
    pub(crate) fn is_closed_pipe(&self) -> bool {
        match self {
            Fault::Output(error) => error.kind() == io::ErrorKind::BrokenPipe,
            _ => false,
        }
    }
}

impl fmt::Display for Fault {
    fn fmt<W: fmt::Write>(&self, f: &mut fmt::Formatter<W>) -> fmt::Result {
        match self {
            Fault::Search(error) => error.fmt(f),
            Fault::Input(error) | Fault::Output(error) => error.fmt(f),
            Fault::InPlace => f.write_str("standard input cannot be changed in place"),
            Fault::Rule(number, fault) => write!(f, "rule {number}: {}", fault.words()),
            Fault::RulePattern(number, error) => write!(f, "rule {number}: {error}"),
        }
    }
}

impl From<Error> for Fault {
    fn from(error: Error) -> Fault {
        Fault::Search(error)
    }
}

impl From<AllocError> for Fault {
    fn from(_error: AllocError) -> Fault {
        Fault::Search(Error::Memory)
    }
}

impl<T: Drop> From<AllocFailed<T>> for Fault {
    fn from(_error: AllocFailed<T>) -> Fault {
        Fault::Search(Error::Memory)
    }
}

impl From<io::Error> for Fault {
    fn from(error: io::Error) -> Fault {
        Fault::Output(error)
    }
}
