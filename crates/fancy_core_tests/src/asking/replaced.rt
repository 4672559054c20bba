//! Texts whose matches are replaced.

use crate::asking::{check, regex_of};
use fancy_core::replacer::Replacer;
use fancy_tree::error::Result;
use std::alloc::Global;
use std::borrow::CowStr;
use std::process::Abort;

/// Checks that the answer is this text, and tells whether it is lent and no copy.
pub(crate) fn check_answer(
    rt: &impl Abort,
    answer: Result<CowStr<'_, Global>>,
    wanted: &str,
) -> bool {
    let text = answer.expect(rt, wanted);
    check(rt, text.as_str() == wanted, wanted);
    matches!(text, CowStr::Borrowed(_))
}

/// A pattern, a text, a limit, a template, and the text with the matches replaced.
pub(crate) type ReplacedRow = (
    &'static str,
    &'static str,
    usize,
    &'static str,
    &'static str,
);

/// Checks a row on a template that is owned.
fn check_owned_template(rt: &impl Abort, alloc: Global, row: ReplacedRow) {
    let (pattern, text, limit, template, wanted) = row;
    let regex = regex_of(rt, alloc, pattern);
    let owned = String::from_str(alloc, template).expect(rt, template);
    check_answer(rt, regex.replacen(text, limit, &owned), wanted);
    check_answer(rt, regex.replacen(text, limit, owned), wanted);
}

/// Checks a row on a template that is copied where it is changed.
fn check_copied_template(rt: &impl Abort, alloc: Global, row: ReplacedRow) {
    let (pattern, text, limit, template, wanted) = row;
    let regex = regex_of(rt, alloc, pattern);
    let copied: CowStr<'_, Global> = CowStr::Borrowed(template);
    check_answer(rt, regex.replacen(text, limit, &copied), wanted);
    check_answer(rt, regex.replacen(text, limit, copied), wanted);
}

/// Checks rows on a template of each form that is not lent.
pub(crate) fn check_replaced(rt: &impl Abort, alloc: Global, rows: &[ReplacedRow]) {
    for &row in rows {
        check_owned_template(rt, alloc, row);
        check_copied_template(rt, alloc, row);
    }
}

/// Checks what text a replacer always gives, if it does.
pub(crate) fn check_fixed<R: Replacer>(rt: &impl Abort, replacer: &mut R, wanted: Option<&str>) {
    let fixed = replacer.no_expansion();
    match wanted {
        Some(text) => check(rt, fixed.expect(rt, text).as_str() == text, text),
        None => check(rt, fixed.is_none(), "no fixed text"),
    }
}
