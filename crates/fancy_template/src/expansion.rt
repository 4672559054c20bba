//! What templates expand to.

ghost use Rattle.std.specs.Prelude.{◌≡◌, ℕ, List, [], ◌∷◌, chars, string_bytes, option_map, IfOk, IfErr, OnOk, OnErr};
ghost use Rattle.fancy_template.specs.Appended.{AddsText, AddsItems, Writes, WritesPart};
ghost use Rattle.fancy_template.specs.Writers.{Writing, IsFault};
ghost use Rattle.fancy_template.specs.Expansions.{expanded, text_of_group};
ghost use Rattle.fancy_template.specs.Expanders.{step_of};
ghost use Rattle.fancy_template.specs.Expanded.{bytes_of};

use crate::expander::Expander;
use crate::groups::GroupTexts;
use crate::scan::as_number;
use crate::steps::Step;
use crate::write::{Writer, write_whole};
use fancy_tree::error::{Error, Result};
use std::alloc::AllocError;
use std::io;

/// What a step of a template gives.
#[derive(Clone, Copy)]
pub(crate) enum Expanded<'t> {
    /// The character of a literal.
    Character(char),
    /// The text of a group, empty where it took no part and for what names none.
    Text(&'t str),
}

impl Expander {
    ghost use Rattle.fancy_template.specs.Expanders.{WritesAll, WritesSome, expand, expand_texts};

    /// What a template expands to for these captures.
    ///
    /// ```text
    /// // the captures of (b) on "abc"
    /// Expander::default().expansion("${1}-$0", &captures)     // "b-b"
    /// Expander::python().expansion("\\1\\g<0>\\\\x", &captures)   // "bb\x"
    /// Expander::default().expansion("$10", &captures)         // "": there is no group 10
    /// ```
    pub fn expansion<'t, C: GroupTexts<'t>>(&self, template: &str, captures: &C) -> Result<String>
        requires of_text { C.readable captures.now }
        ensures value { IfOk result (λ s. string_bytes s ≡ expand self.now C.captured captures.now template.now) }
        ensures refused { IfErr result (λ e. e ≡ Error.Memory) }
    {
        let mut text = String::new(captures.allocator());
        self.push_steps(&mut text, template, captures)?;
        Ok(text)
    }

    /// Appends what a template expands to. A refusal leaves `dst` as it was.
    ///
    /// ```text
    /// // the captures of (b) on "abc", and a text "x"
    /// Expander::default().append_expansion(&mut text, "${1}-$0", &captures)    // the text is "xb-b"
    /// ```
    pub fn append_expansion<'t, C: GroupTexts<'t>>(
        &self,
        dst: &mut String,
        template: &str,
        captures: &C,
    ) -> Result<()>
        requires of_text { C.readable captures.now }
        ensures value { OnOk result (AddsText dst.old (expand self.now C.captured captures.now template.now) dst.new) }
        ensures kept { OnErr result (string_bytes dst.new ≡ string_bytes dst.old) }
        ensures refused { IfErr result (λ e. e ≡ Error.Memory) }
    {
        let length = dst.len();
        match self.push_steps(dst, template, captures) {
            Ok(()) => Ok(()),
            Err(_) => {
                dst.truncate(length);
                Err(Error::Memory)
            }
        }
    }

    /// Appends what the steps of a template give, in order.
    fn push_steps<'t, C: GroupTexts<'t>>(
        &self,
        dst: &mut String,
        template: &str,
        captures: &C,
    ) -> std::result::Result<(), AllocError>
        requires of_text { C.readable captures.now }
        ensures value { OnOk result (AddsText dst.old (expand self.now C.captured captures.now template.now) dst.new) }
        ensures begun { OnErr result ((more : List ℕ) × AddsText dst.old more dst.new) }
    {
        for step in self.steps(template) {
            push_expanded(dst, expand_step(step, captures))?;
        }
        Ok(())
    }

    /// Writes what a template expands to, and takes no memory.
    ///
    /// A write that is refused ends it with the writer's error, and one that takes no byte with `ErrorKind::WriteZero`.
    /// What the writer has taken by then is a beginning of the expansion, and not all of it. No write is tried again, and
    /// no empty text is written. Each `io::Write` is a [`Writer`].
    ///
    /// ```text
    /// // the captures of (b) on "abc"
    /// Expander::default().write_expansion(&mut writer, "[$1]", &captures)    // the writer has taken "[b]"
    /// ```
    pub fn write_expansion<'t, W: Writer, C: GroupTexts<'t>>(
        &self,
        writer: &mut W,
        template: &str,
        captures: &C,
    ) -> io::Result<()>
        requires of_text { C.readable captures.now }
        ensures ok { WritesAll W.contents writer.old writer.new result self.now C.captured captures.now template.now }
        ensures err { WritesSome W.contents writer.old writer.new result self.now C.captured captures.now template.now }
        ensures fault { IfErr result (λ fault. IsFault W.answers fault writer.new) }
        ensures calls { Writing W.answers writer.old (expand_texts self.now C.captured captures.now template.now) result writer.new }
    {
        for step in self.steps(template) {
            write_expanded(writer, expand_step(step, captures))?;
        }
        Ok(())
    }

    /// Appends the bytes of what a template expands to. A refusal leaves `dst` as it was.
    ///
    /// ```text
    /// // the captures of (b) on "abc", and the bytes b"x"
    /// Expander::default().write_expansion_vec(&mut bytes, "$1!", &captures)    // the bytes are b"xb!"
    /// ```
    pub fn write_expansion_vec<'t, C: GroupTexts<'t>>(
        &self,
        dst: &mut Vec<u8>,
        template: &str,
        captures: &C,
    ) -> Result<()>
        requires of_text { C.readable captures.now }
        ensures value { OnOk result (AddsItems dst.old (expand self.now C.captured captures.now template.now) dst.new) }
        ensures kept { OnErr result (dst.new.items ≡ dst.old.items) }
        ensures refused { IfErr result (λ e. e ≡ Error.Memory) }
    {
        let before = dst.len();
        match self.write_expansion(dst, template, captures) {
            Ok(()) => Ok(()),
            Err(_) => {
                dst.truncate(before);
                Err(Error::Memory)
            }
        }
    }
}

/// What a step gives for these captures.
fn expand_step<'t, C: GroupTexts<'t>>(step: Step<'_>, captures: &C) -> Expanded<'t>
    requires of_text { C.readable captures.now }
    ensures { bytes_of result ≡ expanded (C.captured captures.now) (step_of step.entry) }
{
    match step {
        Step::Literal(c) => Expanded::Character(c),
        Step::Name(name) => Expanded::Text(text_of_name(name, captures).unwrap_or("")),
        Step::Number(number) => Expanded::Text(captures.text_numbered(number).unwrap_or("")),
        Step::Error => Expanded::Text(""),
    }
}

/// The text of the group with this name where that took part, else of the one whose decimal number it is.
fn text_of_name<'t, C: GroupTexts<'t>>(name: &str, captures: &C) -> Option<&'t str>
    requires of_text { C.readable captures.now }
    ensures { option_map (λ t. t.now) result ≡ text_of_group (C.captured captures.now) (chars name.now) }
{
    if let Some(text) = captures.text_named(name) {
        return Some(text);
    }
    let number = as_number(name)?;
    captures.text_numbered(number)
}

fn push_expanded(dst: &mut String, expanded: Expanded<'_>) -> std::result::Result<(), AllocError>
    ensures value { OnOk result (AddsText dst.old (bytes_of expanded.entry) dst.new) }
    ensures kept { OnErr result (string_bytes dst.new ≡ string_bytes dst.old) }
{
    match expanded {
        Expanded::Character(c) => dst.push(c),
        Expanded::Text(text) => dst.push_str(text),
    }
}

fn write_expanded<W: Writer>(writer: &mut W, expanded: Expanded<'_>) -> io::Result<()>
    ensures ok { OnOk result (Writes W.contents writer.old (bytes_of expanded.entry) writer.new) }
    ensures err { OnErr result (WritesPart W.contents writer.old (bytes_of expanded.entry) writer.new) }
    ensures fault { IfErr result (λ fault. IsFault W.answers fault writer.new) }
    ensures calls { Writing W.answers writer.old (bytes_of expanded.entry ∷ []) result writer.new }
{
    match expanded {
        Expanded::Character(c) => write_whole(writer, c.encode_utf8(&mut [0; 4]).as_bytes()),
        Expanded::Text(text) => write_whole(writer, text.as_bytes()),
    }
}
