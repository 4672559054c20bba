//! Facts that tests ask for.

use std::process::Abort;

/// Checks a fact, which the words name. A branch is dear where a regex, a match or a list is alive beside it, so that it stands here alone.
pub(crate) fn check(rt: &impl Abort, fact: bool, words: &str) {
    assert!(rt; fact, "{words}");
}
