//! Why a command ends early.

use fancy_regex::Error;
use std::io;

/// Why a command ended early.
#[derive(Drop)]
pub(crate) enum Fault {
    Usage,
    Output,
    Refused(Error),
}

impl From<Error> for Fault {
    fn from(error: Error) -> Fault {
        Fault::Refused(error)
    }
}

impl From<io::Error> for Fault {
    fn from(_error: io::Error) -> Fault {
        Fault::Output
    }
}

impl Fault {
    /// What is written after `error: `.
    pub(crate) fn name(&self) -> &'static str {
        match self {
            Fault::Usage => "usage",
            Fault::Output => "Output",
            Fault::Refused(error) => error.name(),
        }
    }
}
