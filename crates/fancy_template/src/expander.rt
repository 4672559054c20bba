//! How templates are written.

ghost use Rattle.std.specs.Prelude.{◌≡◌, ◌↔◌, ◌==◌, false, chars, IfOk, IfErr, OnOk, string_bytes, encode_utf8_all};
ghost use Rattle.std.specs.List.{list_any};
ghost use Rattle.std.specs.Cow.{cow_str_bytes, IsBorrowedStr};
ghost use Rattle.fancy_template.specs.Templates.{steps, dollar_syntax, python_syntax};
ghost use Rattle.fancy_template.specs.Appended.{AddsText};
ghost use Rattle.fancy_template.specs.Marks.{doubled_mark, escaped_template, has_mark};
ghost use Rattle.fancy_template.specs.Expanders.{syntax_of, opening_of, closing_of, mark_of, steps_left, ExpandsTo, escape_by};

use crate::steps::Steps;
use fancy_tree::error::{Error, Result};
use std::alloc::{AllocError, Global};
use std::borrow::CowStr;

/// Expands templates: texts in which a substitution character is before the name or the number of a group.
///
/// The default one takes `$1`, `$name` and `${name}`, and `$$` for the character itself; the one for Python's
/// templates takes `\1`, `\g<name>` and `\\`.
///
/// A name without delimiters goes as far as letters, numbers and `_` do: `$1a` is the group with the name `1a`, and `${1}a` is
/// group 1 and an `a`. A name whose group took no part, or that no group has, is read as a number; where it is none, it gives
/// nothing.
///
/// ```text
/// // the captures of (b) on "abc"
/// Expander::default().expansion("<${1}a>", &captures)    // "<ba>"
/// Expander::default().expansion("<$1a>", &captures)      // "<>"
/// Expander::default().expansion("${1", &captures)        // "${1": the mark begins nothing, and stays
/// ```
#[derive(Clone, Copy)]
pub struct Expander {
    pub(crate) mark: char,
    pub(crate) delimiters: Delimiters,
    pub(crate) undelimited: bool,
}

/// What is before and after the name of a group.
#[derive(Clone, Copy)]
pub(crate) enum Delimiters {
    /// `{` and `}`.
    Braces,
    /// `g<` and `>`.
    Angles,
}

impl Delimiters {
    pub(crate) fn opening(self) -> &'static str
        ensures { chars result.now ≡ opening_of self }
    {
        match self {
            Delimiters::Braces => "{",
            Delimiters::Angles => "g<",
        }
    }

    pub(crate) fn closing(self) -> &'static str
        ensures { chars result.now ≡ closing_of self }
    {
        match self {
            Delimiters::Braces => "}",
            Delimiters::Angles => ">",
        }
    }
}

impl Default for Expander {
    ghost is_default = { λ e. syntax_of e ≡ dollar_syntax };

    fn default() -> Expander {
        Expander {
            mark: '$',
            delimiters: Delimiters::Braces,
            undelimited: true,
        }
    }
}

impl Expander {
    /// The expander for templates as Python writes them.
    ///
    /// ```text
    /// // the captures of (b) on "abc"
    /// Expander::python().expansion("\\1\\g<0>\\\\x", &captures)    // "bb\x"
    /// ```
    pub fn python() -> Expander
        ensures { syntax_of result ≡ python_syntax }
    {
        Expander {
            mark: '\\',
            delimiters: Delimiters::Angles,
            undelimited: false,
        }
    }

    /// The steps that a template is cut into, one by one.
    ///
    /// ```text
    /// Expander::default().steps("a$1$$")    // Literal('a'), Name("1"), Literal('$')
    /// ```
    pub fn steps<'a>(&self, template: &'a str) -> Steps<'a>
        ensures { steps_left result ≡ steps (syntax_of self.now) (chars template.now) }
    {
        Steps {
            expander: *self,
            rest: template,
            owes_mark: false,
        }
    }

    /// The text as a template that expands to it: each substitution character is doubled. Where there is none,
    /// the text is given back as it is.
    ///
    /// ```text
    /// Expander::default().escape(alloc, "Has a literal $ sign.")  // Has a literal $$ sign.
    /// ```
    pub fn escape<'t>(&self, alloc: Global, text: &'t str) -> Result<CowStr<'t, Global>>
        ensures value { IfOk result (λ r. cow_str_bytes r ≡ escape_by self.now text.now) }
        ensures borrowed { IfOk result (λ r. IsBorrowedStr r ↔ (has_mark (mark_of self.now) (chars text.now) ≡ false)) }
        ensures stands { IfOk result (λ r. ExpandsTo self.now (cow_str_bytes r) text.now) }
        ensures refused { IfErr result (λ e. e ≡ Error.Memory) }
    {
        let mark = self.mark;
        if !includes(text, mark) {
            return Ok(CowStr::Borrowed(text));
        }
        let doubled = with_doubled(alloc, text, mark)?;
        Ok(CowStr::Owned(doubled))
    }
}

/// Whether the text has the character.
pub fn includes(text: &str, mark: char) -> bool
    ensures { result ≡ has_mark mark (chars text.now) }
{
    text.chars().any(|c| c == mark)
}

fn with_doubled(alloc: Global, text: &str, mark: char) -> std::result::Result<String, AllocError>
    ensures { IfOk result (λ s. string_bytes s ≡ encode_utf8_all (escaped_template mark (chars text.now))) }
{
    let mut doubled = String::with_capacity(alloc, text.len())?;
    for c in text.chars() {
        push_doubled(&mut doubled, c, mark)?;
    }
    Ok(doubled)
}

fn push_doubled(doubled: &mut String, c: char, mark: char) -> std::result::Result<(), AllocError>
    ensures { OnOk result (AddsText doubled.old (encode_utf8_all (doubled_mark mark c)) doubled.new) }
{
    if c == mark {
        doubled.push(mark)?;
    }
    doubled.push(c)
}
