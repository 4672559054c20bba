//! The steps of templates, what comes of a writer that fails, and escapes. Rows of expansions, of checks and of escaped texts are
//! in `crates/calls/rows.txt`.

use crate::asking::{check, check_answer, regex_of, taken};
use fancy_core::captures::Captures;
use fancy_template::expander::Expander;
use fancy_template::steps::Step;
use fancy_template::steps::Step::{Literal, Name, Number};
use fancy_template::write::write_whole;
use std::alloc::Global;
use std::io;
use std::io::ErrorKind;
use std::io::ErrorKind::{BrokenPipe, Interrupted, WriteZero};
use std::process::Abort;

/// A template, and its steps.
type StepsRow = (&'static str, &'static [Step<'static>]);

fn check_steps(rt: &impl Abort, alloc: Global, expander: &Expander, rows: &[StepsRow]) {
    for &(template, wanted) in rows {
        let steps: Vec<Step<'_>> = expander.steps(template).collect(alloc).expect(rt, template);
        check(rt, steps.as_slice() == wanted, template);
    }
}

const DOLLAR_STEPS: &[StepsRow] = &[
    ("$1a", &[Name("1a")]),
    ("$10", &[Name("10")]),
    ("${1}a", &[Name("1"), Literal('a')]),
    ("$$1", &[Literal('$'), Literal('1')]),
    (
        "${1",
        &[Step::Error, Literal('$'), Literal('{'), Literal('1')],
    ),
    (
        "${}",
        &[Step::Error, Literal('$'), Literal('{'), Literal('}')],
    ),
    ("$-", &[Step::Error, Literal('$'), Literal('-')]),
    ("$", &[Step::Error, Literal('$')]),
    ("x$é_2.", &[Literal('x'), Name("é_2"), Literal('.')]),
    ("$²", &[Name("²")]),
];

const PYTHON_STEPS: &[StepsRow] = &[
    ("\\10", &[Number(10)]),
    (
        "\\1\\g<0>\\\\x",
        &[Number(1), Name("0"), Literal('\\'), Literal('x')],
    ),
    ("\\a", &[Step::Error, Literal('\\'), Literal('a')]),
    (
        "\\g<a",
        &[
            Step::Error,
            Literal('\\'),
            Literal('g'),
            Literal('<'),
            Literal('a'),
        ],
    ),
    ("\\18446744073709551615", &[Number(18446744073709551615)]),
    ("\\0001x", &[Number(1), Literal('x')]),
    (
        "\\18446744073709551616",
        &[
            Step::Error,
            Literal('\\'),
            Literal('1'),
            Literal('8'),
            Literal('4'),
            Literal('4'),
            Literal('6'),
            Literal('7'),
            Literal('4'),
            Literal('4'),
            Literal('0'),
            Literal('7'),
            Literal('3'),
            Literal('7'),
            Literal('0'),
            Literal('9'),
            Literal('5'),
            Literal('5'),
            Literal('1'),
            Literal('6'),
            Literal('1'),
            Literal('6'),
        ],
    ),
];

/// Checks a text that is made.
fn check_expanded_text(rt: &impl Abort, answer: fancy_tree::error::Result<String>, wanted: &str) {
    let text = answer.expect(rt, wanted);
    check(rt, text.as_str() == wanted, wanted);
}

/// Checks that captures of owned text expand.
fn check_owned_text(rt: &impl Abort, alloc: Global) {
    let haystack = String::from_str(alloc, "éab").expect(rt, "a text");
    let regex = regex_of(rt, alloc, "(é)(x)?a");
    let captures = taken(rt, regex.captures(&haystack), "a search");
    let answer = Expander::default().expansion("$2[$1]$0", &captures);
    check_expanded_text(rt, answer, "[é]éa");
}

/// Checks that a template with backslashes is written, where `b` is group 1 and the whole match.
fn check_python(rt: &impl Abort, alloc: Global) {
    let template = "\\1\\g<0>\\\\x";
    let regex = regex_of(rt, alloc, "(b)");
    let captures = taken(rt, regex.captures("abc"), "(b)");
    let mut written = Vec::new(alloc);
    let answer = Expander::python().write_expansion(&mut written, template, &captures);
    check(rt, answer.is_ok(), template);
    check(rt, written.as_slice() == "bb\\x".as_bytes(), template);
}

#[test]
fn templates_are_read(rt: HostRuntime) {
    let dollar = Expander::default();
    let python = Expander::python();
    check_steps(&rt, rt.alloc(), &dollar, DOLLAR_STEPS);
    check_steps(&rt, rt.alloc(), &python, PYTHON_STEPS);
    check_owned_text(&rt, rt.alloc());
    check_python(&rt, rt.alloc());
}

/// Texts, and what stands for them in a template. One that stands for itself is lent.
const ESCAPED_FOR_DOLLAR: &[(&str, &str)] = &[("5", "5"), ("5 $", "5 $$")];

const ESCAPED_FOR_PYTHON: &[(&str, &str)] = &[("$1", "$1"), ("\\1", "\\\\1")];

#[test]
fn texts_are_escaped(rt: HostRuntime) {
    let alloc = rt.alloc();
    for &(text, wanted) in ESCAPED_FOR_DOLLAR {
        let escaped = Expander::default().escape(alloc, text);
        let is_lent = check_answer(&rt, escaped, wanted);
        check(&rt, is_lent == (text == wanted), text);
    }
    for &(text, wanted) in ESCAPED_FOR_PYTHON {
        let escaped = Expander::python().escape(alloc, text);
        let is_lent = check_answer(&rt, escaped, wanted);
        check(&rt, is_lent == (text == wanted), text);
    }
}

/// A writer that takes `most` bytes in a call and `left` in all, and then fails with the fault, or takes none where there is
/// no fault.
#[derive(Drop)]
struct Narrow {
    taken: Vec<u8>,
    calls: usize,
    most: usize,
    left: usize,
    fault: Option<ErrorKind>,
}

impl io::Write for Narrow {
    fn write(&mut self, buf: &[u8]) -> io::Result<usize> {
        self.calls = self.calls.wrapping_add(1);
        let count = buf.len().min(self.most).min(self.left);
        if count == 0 {
            return match self.fault {
                Some(kind) => Err(io::Error::from(kind)),
                None => Ok(0),
            };
        }
        let (front, _) = buf.split_at(count);
        self.taken.extend_from_slice(front)?;
        self.left -= count;
        Ok(count)
    }

    fn flush(&mut self) -> io::Result<()> {
        Ok(())
    }
}

/// A narrow writer that has taken nothing.
fn narrow_writer(alloc: Global, most: usize, left: usize, fault: Option<ErrorKind>) -> Narrow {
    Narrow {
        taken: Vec::new(alloc),
        calls: 0,
        most,
        left,
        fault,
    }
}

/// The kind of the fault of a write, if it has one.
fn kind_of(answer: io::Result<()>) -> Option<ErrorKind> {
    match answer {
        Ok(()) => None,
        Err(error) => Some(error.kind()),
    }
}

/// A template, how many bytes a writer takes in a call and in all, its fault then, what it takes, the fault of the answer, and
/// how many calls are made.
type WrittenRow = (
    &'static str,
    usize,
    usize,
    Option<ErrorKind>,
    &'static [u8],
    Option<ErrorKind>,
    usize,
);

const BREAKS: Option<ErrorKind> = Some(BrokenPipe);

/// Where `b` is group 1 and the whole match.
const WRITTEN: &[WrittenRow] = &[
    ("${1}-$0", 1, 0, BREAKS, b"", Some(BrokenPipe), 1),
    ("${1}-$0", 1, 1, BREAKS, b"b", Some(BrokenPipe), 2),
    ("${1}-$0", 1, 2, BREAKS, b"b-", Some(BrokenPipe), 3),
    ("${1}-$0", 1, 3, BREAKS, b"b-b", None, 3),
    ("${1}-$0", 1, 4, BREAKS, b"b-b", None, 3),
    ("${1}-$0", 9, 0, BREAKS, b"", Some(BrokenPipe), 1),
    ("${1}-$0", 9, 1, BREAKS, b"b", Some(BrokenPipe), 2),
    ("${1}-$0", 9, 2, BREAKS, b"b-", Some(BrokenPipe), 3),
    ("${1}-$0", 9, 3, BREAKS, b"b-b", None, 3),
    ("${1}-$0", 9, 4, BREAKS, b"b-b", None, 3),
    ("${1}-$0", 1, 0, None, b"", Some(WriteZero), 1),
    ("${1}-$0", 1, 1, None, b"b", Some(WriteZero), 2),
    ("${1}-$0", 1, 2, None, b"b-", Some(WriteZero), 3),
    ("${1}-$0", 1, 3, None, b"b-b", None, 3),
    ("${1}-$0", 1, 4, None, b"b-b", None, 3),
    ("${1}-$0", 9, 0, None, b"", Some(WriteZero), 1),
    ("${1}-$0", 9, 1, None, b"b", Some(WriteZero), 2),
    ("${1}-$0", 9, 2, None, b"b-", Some(WriteZero), 3),
    ("${1}-$0", 9, 3, None, b"b-b", None, 3),
    ("${1}-$0", 9, 4, None, b"b-b", None, 3),
    // a write that was interrupted is not tried again
    (
        "${1}-$0",
        9,
        0,
        Some(Interrupted),
        b"",
        Some(Interrupted),
        1,
    ),
    (
        "${1}-$0",
        1,
        2,
        Some(Interrupted),
        b"b-",
        Some(Interrupted),
        3,
    ),
    // a fault within a character
    ("${0}é", 9, 2, BREAKS, b"b\xC3", Some(BrokenPipe), 3),
    ("${0}é", 1, 2, None, b"b\xC3", Some(WriteZero), 3),
    ("${0}é", 1, 3, None, b"b\xC3\xA9", None, 3),
];

/// Where group 1 took no part, and no group has the other names. Nothing is written, so no call is made.
const NOT_WRITTEN: &[WrittenRow] = &[
    ("", 0, 0, BREAKS, b"", None, 0),
    ("", 0, 0, None, b"", None, 0),
    ("$1", 0, 0, BREAKS, b"", None, 0),
    ("$1", 0, 0, None, b"", None, 0),
    ("$7$x", 0, 0, BREAKS, b"", None, 0),
];

/// Checks what is written of an expansion to a narrow writer, and how often that is called.
fn check_write(rt: &impl Abort, alloc: Global, captures: &Captures<'_, &str>, row: WrittenRow) {
    let (template, most, left, fault, wanted, answered, calls) = row;
    let mut writer = narrow_writer(alloc, most, left, fault);
    let answer = Expander::default().write_expansion(&mut writer, template, captures);
    check(rt, kind_of(answer) == answered, template);
    check(rt, writer.taken.as_slice() == wanted, template);
    check(rt, writer.calls == calls, template);
}

/// Checks what is written of expansions to narrow writers. The pattern is found in the text.
fn check_writes(rt: &impl Abort, alloc: Global, pattern: &str, text: &str, rows: &[WrittenRow]) {
    let regex = regex_of(rt, alloc, pattern);
    let captures = taken(rt, regex.captures(text), pattern);
    for &row in rows {
        check_write(rt, alloc, &captures, row);
    }
}

/// Checks the fault of a writer that takes a byte in a call, and so many of three bytes in all.
fn check_narrow(
    rt: &impl Abort,
    alloc: Global,
    left: usize,
    fault: Option<ErrorKind>,
    answered: ErrorKind,
) {
    let mut writer = narrow_writer(alloc, 1, left, fault);
    let answer = write_whole(&mut writer, b"abc");
    check(rt, kind_of(answer) == Some(answered), "the fault");
    check(rt, writer.taken.len() == left, "what was taken");
    check(rt, writer.calls == left.wrapping_add(1), "the calls");
}

/// A writer that takes all bytes in each of its calls but one: that one fails with the fault, or takes none where there is no
/// fault.
#[derive(Drop)]
struct Faltering {
    taken: Vec<u8>,
    calls: usize,
    refused_call: usize,
    fault: Option<ErrorKind>,
}

impl io::Write for Faltering {
    fn write(&mut self, buf: &[u8]) -> io::Result<usize> {
        self.calls = self.calls.wrapping_add(1);
        if self.calls == self.refused_call {
            return match self.fault {
                Some(kind) => Err(io::Error::from(kind)),
                None => Ok(0),
            };
        }
        self.taken.extend_from_slice(buf)?;
        Ok(buf.len())
    }

    fn flush(&mut self) -> io::Result<()> {
        Ok(())
    }
}

/// Which call of the writer is refused, its fault, what it takes of `b-b`, the fault of the answer, and how many calls are made.
type RefusedOnceRow = (
    usize,
    Option<ErrorKind>,
    &'static [u8],
    Option<ErrorKind>,
    usize,
);

/// A call that was refused is the last one, although the next would take its bytes.
const REFUSED_ONCE: &[RefusedOnceRow] = &[
    (1, BREAKS, b"", Some(BrokenPipe), 1),
    (2, BREAKS, b"b", Some(BrokenPipe), 2),
    (3, BREAKS, b"b-", Some(BrokenPipe), 3),
    (4, BREAKS, b"b-b", None, 3),
    (1, Some(Interrupted), b"", Some(Interrupted), 1),
    (2, Some(Interrupted), b"b", Some(Interrupted), 2),
    (1, None, b"", Some(WriteZero), 1),
    (2, None, b"b", Some(WriteZero), 2),
    (3, None, b"b-", Some(WriteZero), 3),
    (4, None, b"b-b", None, 3),
];

/// Checks what is written of an expansion to a writer that refuses one call.
fn check_refused_once(
    rt: &impl Abort,
    alloc: Global,
    captures: &Captures<'_, &str>,
    row: RefusedOnceRow,
) {
    let (refused_call, fault, wanted, answered, calls) = row;
    let mut writer = Faltering {
        taken: Vec::new(alloc),
        calls: 0,
        refused_call,
        fault,
    };
    let answer = Expander::default().write_expansion(&mut writer, "${1}-$0", captures);
    check(rt, kind_of(answer) == answered, "the fault");
    check(rt, writer.taken.as_slice() == wanted, "what was taken");
    check(rt, writer.calls == calls, "the calls");
}

#[test]
fn a_refused_write_is_not_tried_again(rt: HostRuntime) {
    let alloc = rt.alloc();
    let regex = regex_of(&rt, alloc, "(b)");
    let captures = taken(&rt, regex.captures("abc"), "(b)");
    for &row in REFUSED_ONCE {
        check_refused_once(&rt, alloc, &captures, row);
    }
}

#[test]
fn a_fault_ends_the_writing(rt: HostRuntime) {
    let alloc = rt.alloc();
    check_writes(&rt, alloc, "(b)", "abc", WRITTEN);
    check_writes(&rt, alloc, "(b)|c", "c", NOT_WRITTEN);
    check_narrow(&rt, alloc, 2, BREAKS, BrokenPipe);
    check_narrow(&rt, alloc, 1, None, WriteZero);
    let mut out = Vec::new(alloc);
    write_whole(&mut out, b"abc").expect(&rt, "a write");
    write_whole(&mut out, b"d").expect(&rt, "a write");
    check(&rt, out.as_slice() == b"abcd".as_slice(), "abcd");
}
