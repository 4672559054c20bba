//! Long and deep patterns.

use std::alloc::Global;
use std::process::Abort;

/// So many of a text, one after another.
pub(crate) fn repeated(rt: &impl Abort, alloc: Global, text: &str, count: usize) -> String {
    text.repeat(alloc, count).expect(rt, text)
}

/// A text within so many parentheses or brackets.
pub(crate) fn nested(
    rt: &impl Abort,
    alloc: Global,
    (opening, body, closing): (&str, &str, &str),
    depth: usize,
) -> String {
    let mut text = repeated(rt, alloc, opening, depth);
    text.push_str(body).expect(rt, body);
    let closings = repeated(rt, alloc, closing, depth);
    text.push_str(closings.as_str()).expect(rt, closing);
    text
}
