//! What comes of a text whose matches are replaced. Rows of such texts are in `crates/calls/rows.txt`.

ghost use Rattle.std.specs.Prelude.{◌≡◌, None, Some, List, ℕ, ⊤, option_map};
ghost use Rattle.std.proofs.Common.{rules};

use crate::asking::{ReplacedRow, check, check_answer, check_fixed, check_replaced, regex_of};
use fancy_core::captures::Captures;
use fancy_core::regex::Regex;
use fancy_core::replacer::{NoExpand, ReplaceFn, Replacer};
use fancy_tree::error::{Error, RuntimeError};
use std::alloc::Global;
use std::borrow::CowStr;
use std::cell::Cell;
use std::process::Abort;

/// Rows that are asked of a template of each form that is not lent.
const REPLACED: &[ReplacedRow] = &[
    ("(b)", "abc", 0, "${1}-$0", "ab-bc"),
    ("bla", "blablabla", 1, "foo", "fooblabla"),
];

#[test]
fn texts_are_replaced(rt: HostRuntime) {
    check_replaced(&rt, rt.alloc(), REPLACED);
    check_fixed(&rt, &mut NoExpand("$2"), Some("$2"));
    check_fixed(&rt, &mut "$2", None);
    check_fixed(&rt, &mut "2", Some("2"));
}

#[test]
fn a_text_without_matches_is_borrowed(rt: HostRuntime) {
    let regex = regex_of(&rt, rt.alloc(), "x");
    let is_lent = check_answer(&rt, regex.replace_all("abc", "$0"), "abc");
    check(&rt, is_lent, "a lent text");
    let is_lent = check_answer(&rt, regex.replace("abc", "y"), "abc");
    check(&rt, is_lent, "a lent text");
    let is_lent = check_answer(&rt, regex.replace_all("", NoExpand("y")), "");
    check(&rt, is_lent, "a lent text");
}

#[test]
fn a_match_that_is_replaced_by_itself_is_copied(rt: HostRuntime) {
    let regex = regex_of(&rt, rt.alloc(), "b");
    let is_lent = check_answer(&rt, regex.replace_all("abc", "b"), "abc");
    check(&rt, !is_lent, "a copy");
}

/// The number of the call, but an error at the second one.
fn second_fails(alloc: Global, calls: u32) -> fancy_tree::error::Result<String> {
    if calls == 2 {
        return Err(Error::RuntimeError(RuntimeError::BacktrackLimitExceeded));
    }
    Ok(format!(in alloc; "{calls}")?)
}

/// Checks that the answer is the error of the second call.
fn check_second_error(rt: &impl Abort, answer: fancy_tree::error::Result<CowStr<'_, Global>>) {
    let holds = matches!(
        answer,
        Err(Error::RuntimeError(RuntimeError::BacktrackLimitExceeded))
    );
    check(rt, holds, "an error");
}

#[test]
fn an_error_of_a_replacer_is_the_answer(rt: HostRuntime) {
    let alloc = rt.alloc();
    let regex = regex_of(&rt, alloc, "a");
    let mut calls = 0u32;
    let mut failing = ReplaceFn::new(|_captures: &Captures<'_, &str>| {
        calls = calls.wrapping_add(1);
        second_fails(alloc, calls)
    });
    check_second_error(&rt, regex.replace_all("aaa", failing.by_ref()));
    // the second call was the last one, and the third goes on from there
    check_answer(&rt, regex.replace_all("aba", failing.by_ref()), "3b4");
}

#[test]
fn a_replacer_is_called_once(rt: HostRuntime) {
    let alloc = rt.alloc();
    let regex = regex_of(&rt, alloc, "a");
    let mut calls = 0u32;
    let once = ReplaceFn::new(|_captures: &Captures<'_, &str>| {
        calls = calls.wrapping_add(1);
        second_fails(alloc, calls)
    });
    check_answer(&rt, regex.replacen("aaa", 1, once), "1aa");
}

/// A replacer that is no function: a hyphen for each match, but an error at its second call.
#[derive(Drop)]
struct Hyphens {
    calls: u32,
}

impl Replacer for Hyphens {
    ghost fixed = { λ _. None };

    ghost appends = { λ _ _ _ _. ⊤ };

    ghost refuses = { λ _ _ _ _. ⊤ };

    ghost same = { λ s t c x y f a. Prim.search rules };

    fn replace_append(
        &mut self,
        _captures: &Captures<'_, &str>,
        dst: &mut String,
    ) -> fancy_tree::error::Result<()> {
        self.calls = self.calls.wrapping_add(1);
        if self.calls == 2 {
            return Err(Error::RuntimeError(RuntimeError::BacktrackLimitExceeded));
        }
        dst.push_str("-")?;
        Ok(())
    }

    fn fixed_text(&self) -> Option<&str> {
        None
    }
}

#[test]
fn an_error_of_any_replacer_is_the_answer(rt: HostRuntime) {
    let regex = regex_of(&rt, rt.alloc(), "a");
    let mut hyphens = Hyphens { calls: 0 };
    check_second_error(&rt, regex.replace_all("aaa", hyphens.by_ref()));
    check_answer(&rt, regex.replace_all("aba", hyphens), "-b-");
    let once = regex.replacen("aaa", 1, Hyphens { calls: 0 });
    check_answer(&rt, once, "-aa");
}

#[test]
fn a_replacer_by_reference_goes_on(rt: HostRuntime) {
    let alloc = rt.alloc();
    let regex = regex_of(&rt, alloc, "a");
    let mut calls = 0u32;
    let mut failing = ReplaceFn::new(|_captures: &Captures<'_, &str>| {
        calls = calls.wrapping_add(1);
        second_fails(alloc, calls)
    });
    check_answer(&rt, regex.try_replacen_by("aaa", 1, &mut failing), "1aa");
    check_second_error(&rt, regex.try_replacen_by("aa", 0, &mut failing));
    check_answer(&rt, regex.try_replacen_by("aaa", 2, &mut failing), "34a");
}

#[test]
fn templates_are_lent(rt: HostRuntime) {
    let regex = regex_of(&rt, rt.alloc(), "a");
    check_answer(&rt, regex.try_replacen("ab", 0, "<$0>"), "<a>b");
    let mut template = "<$0>";
    check_answer(&rt, regex.try_replacen_by("ab", 0, &mut template), "<a>b");
    let mut fixed = NoExpand("$0");
    check_answer(&rt, regex.try_replacen_by("ab", 0, &mut fixed), "$0b");
}

/// The text of a group, and the empty one where it took no part.
fn text_of<'t>(captures: &Captures<'_, &'t str>, number: usize) -> &'t str {
    match captures.get(number) {
        Some(group) => group.as_str(),
        None => "",
    }
}

#[test]
fn functions_replace(rt: HostRuntime) {
    let alloc = rt.alloc();
    let regex = regex_of(&rt, alloc, "([^,\\s]+),\\s+(\\S+)");
    // the text of the second group, a space, and that of the first
    let swap = ReplaceFn::new(|captures: &Captures<'_, &str>| {
        let (first, second) = (text_of(captures, 1), text_of(captures, 2));
        Ok(format!(in alloc; "{second} {first}")?)
    });
    let replaced = regex.replace("Springsteen, Bruce", swap);
    check_answer(&rt, replaced, "Bruce Springsteen");
}

/// A replacer that counts how often it is asked for its one text. Where it has none, it gives a hyphen for each match.
#[derive(Drop)]
struct Asked {
    text: Option<&'static str>,
    times: Cell<u32>,
}

impl Replacer for Asked {
    ghost fixed = { λ s. option_map (λ t. t.now) s.text };

    ghost appends = { λ s _ y _. (x : List ℕ) → option_map (λ t. t.now) s.text ≡ Some x → y ≡ x };

    ghost refuses = { λ _ _ _ _. ⊤ };

    ghost same = { λ s t c x y f a. a x f };

    fn replace_append(
        &mut self,
        _captures: &Captures<'_, &str>,
        dst: &mut String,
    ) -> fancy_tree::error::Result<()> {
        dst.push_str(self.text.unwrap_or("-"))?;
        Ok(())
    }

    fn fixed_text(&self) -> Option<&str> {
        self.times.set(self.times.get().wrapping_add(1));
        self.text
    }
}

/// A replacer that was not asked yet.
fn unasked(text: Option<&'static str>) -> Asked {
    Asked {
        text,
        times: Cell::new(0),
    }
}

/// Checks that a replacement asks once for the one text, by a replacer that is lent in each way.
fn check_asked(rt: &impl Abort, regex: &Regex, text: Option<&'static str>, wanted: &str) {
    let mut replacer = unasked(text);
    check_answer(rt, regex.try_replacen_by("aba", 0, &mut replacer), wanted);
    check(rt, replacer.times.get() == 1, wanted);
    check_answer(rt, regex.replace_all("aba", replacer.by_ref()), wanted);
    check(rt, replacer.times.get() == 2, wanted);
    check_fixed(rt, &mut replacer, text);
    check(rt, replacer.times.get() == 3, wanted);
}

#[test]
fn a_replacer_is_asked_once_for_its_text(rt: HostRuntime) {
    let regex = regex_of(&rt, rt.alloc(), "a");
    check_asked(&rt, &regex, Some("$0"), "$0b$0");
    check_asked(&rt, &regex, None, "-b-");
}
