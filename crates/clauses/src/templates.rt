//! Templates: what they expand to, and which groups they may name.
//!
//! `syntax_of` says how an expander's templates are written, and `C.captured` what templates see of captures.

ghost use Rattle.std.specs.Cow.{IsBorrowedStr, cow_str_bytes};
ghost use Rattle.std.specs.Io.{WritesAtMost};
ghost use Rattle.std.specs.Io.KnownBytes.{WriteAppends};
ghost use Rattle.std.specs.Iterator.{YieldsFirstBy};
ghost use Rattle.std.specs.Prelude.{◌↔◌, ◌≡◌, IfErr, IfOk, None, OnErr, OnOk, chars, false, string_bytes};
ghost use Rattle.fancy_regex.specs.Appended.{AddsItems, AddsText};
ghost use Rattle.fancy_regex.specs.CaptureNames.{group_named, has_names, template_groups};
ghost use Rattle.fancy_regex.specs.Checks.{TellsThe, template_fault};
ghost use Rattle.fancy_regex.specs.Expanders.{ExpandsTo, WritesAll, WritesSome, escape_by, expand, mark_of, step_of, steps_left, syntax_of};
ghost use Rattle.fancy_regex.specs.GroupTexts.{AreOfText, expansion_of, seen_in};
ghost use Rattle.fancy_regex.specs.Marks.{has_mark};
ghost use Rattle.fancy_regex.specs.Regexes.{group_count_in};
ghost use Rattle.fancy_regex.specs.Templates.{dollar_syntax, python_syntax, steps};
ghost use Rattle.fancy_regex.specs.Writers.{IsFault};
ghost use Rattle.fancy_regex.specs.declared.Error.TheVariants.{Memory};

use fancy_regex::{
    Captures, Expander, GroupNames, GroupTexts, Input, Match, Regex, Result, Step, Steps, Writer,
};
use std::alloc::Global;
use std::borrow::CowStr;
use std::io;

/// The default expander, with `$`, and that for Python's templates.
pub fn expanders() -> (Expander, Expander)
    ensures default { syntax_of result.0 ≡ dollar_syntax }
    ensures python { syntax_of result.1 ≡ python_syntax }
{
    (Expander::default(), Expander::python())
}

/// The captures expand a template as the default expander does.
pub fn expand<'t, S: Input<Match = Match<'t>>>(
    captures: &Captures<'_, S>,
    template: &str,
    dst: &mut String,
) -> Result<()>
    requires of_text { AreOfText S.span S.within }
    ensures value { OnOk result
        (AddsText dst.old (expansion_of template.now (seen_in S.bytes captures.now)) dst.new) }
    ensures kept { OnErr result (string_bytes dst.new ≡ string_bytes dst.old) }
    ensures refused { IfErr result (λ e. e ≡ Memory) }
{
    captures.expand(template, dst)
}

/// What a template expands to.
pub fn expansion<'t, C: GroupTexts<'t>>(
    expander: &Expander,
    template: &str,
    captures: &C,
) -> Result<String>
    requires of_text { C.readable captures.now }
    ensures value { IfOk result
        (λ s. string_bytes s ≡ expand expander.now C.captured captures.now template.now) }
    ensures refused { IfErr result (λ e. e ≡ Memory) }
{
    expander.expansion(template, captures)
}

/// The same for captures of text.
pub fn expansion_of_captures<'t, S: Input<Match = Match<'t>>>(
    template: &str,
    captures: &Captures<'_, S>,
) -> Result<String>
    requires of_text { AreOfText S.span S.within }
    ensures value { IfOk result
        (λ s. string_bytes s ≡ expansion_of template.now (seen_in S.bytes captures.now)) }
    ensures refused { IfErr result (λ e. e ≡ Memory) }
{
    Expander::default().expansion(template, captures)
}

/// It is appended. A refusal leaves the text as it was.
pub fn append_expansion<'t, C: GroupTexts<'t>>(
    expander: &Expander,
    dst: &mut String,
    template: &str,
    captures: &C,
) -> Result<()>
    requires of_text { C.readable captures.now }
    ensures value { OnOk result
        (AddsText dst.old (expand expander.now C.captured captures.now template.now) dst.new) }
    ensures kept { OnErr result (string_bytes dst.new ≡ string_bytes dst.old) }
    ensures refused { IfErr result (λ e. e ≡ Memory) }
{
    expander.append_expansion(dst, template, captures)
}

/// It is written. After a fault the writer has taken a beginning of it, and not all.
pub fn write_expansion<'t, W: Writer, C: GroupTexts<'t>>(
    expander: &Expander,
    writer: &mut W,
    template: &str,
    captures: &C,
) -> io::Result<()>
    requires of_text { C.readable captures.now }
    ensures ok { WritesAll W.contents writer.old writer.new result expander.now C.captured captures.now template.now }
    ensures err { WritesSome W.contents writer.old writer.new result expander.now C.captured captures.now template.now }
    ensures fault { IfErr result (λ fault. IsFault W.answers fault writer.new) }
{
    expander.write_expansion(writer, template, captures)
}

/// Its bytes are appended. A refusal leaves the bytes as they were.
pub fn write_expansion_vec<'t, C: GroupTexts<'t>>(
    expander: &Expander,
    dst: &mut Vec<u8>,
    template: &str,
    captures: &C,
) -> Result<()>
    requires of_text { C.readable captures.now }
    ensures value { OnOk result
        (AddsItems dst.old (expand expander.now C.captured captures.now template.now) dst.new) }
    ensures kept { OnErr result (dst.new.items ≡ dst.old.items) }
    ensures refused { IfErr result (λ e. e ≡ Memory) }
{
    expander.write_expansion_vec(dst, template, captures)
}

/// A template names groups alone that there are, or its first fault is told.
pub fn check<G: GroupNames>(expander: &Expander, template: &str, regex: &G) -> Result<()>
    ensures passes { IfOk result
        (λ _. template_fault expander.now (G.groups regex.now) template.now ≡ None) }
    ensures refused { IfErr result
        (λ e. TellsThe e (template_fault expander.now (G.groups regex.now) template.now)) }
{
    expander.check(template, regex)
}

/// The same for a regex.
pub fn check_for_regex(expander: &Expander, template: &str, regex: &Regex) -> Result<()>
    ensures passes { IfOk result
        (λ _. template_fault expander.now (template_groups regex.now) template.now ≡ None) }
    ensures refused { IfErr result
        (λ e. TellsThe e (template_fault expander.now (template_groups regex.now) template.now)) }
{
    expander.check(template, regex)
}

/// A template that expands to a text.
pub fn escape<'t>(expander: &Expander, alloc: Global, text: &'t str) -> Result<CowStr<'t, Global>>
    ensures value { IfOk result (λ r. cow_str_bytes r ≡ escape_by expander.now text.now) }
    ensures borrowed { IfOk result
        (λ r. IsBorrowedStr r ↔ (has_mark (mark_of expander.now) (chars text.now) ≡ false)) }
    ensures stands { IfOk result (λ r. ExpandsTo expander.now (cow_str_bytes r) text.now) }
    ensures refused { IfErr result (λ e. e ≡ Memory) }
{
    expander.escape(alloc, text)
}

/// The steps that a template is cut into.
pub fn steps<'a>(expander: &Expander, template: &'a str) -> Steps<'a>
    ensures { steps_left result ≡ steps (syntax_of expander.now) (chars template.now) }
{
    expander.steps(template)
}

/// The next step.
pub fn next_step<'a>(steps: &mut Steps<'a>) -> Option<Step<'a>>
    ensures { YieldsFirstBy step_of steps_left steps.old result steps.new }
{
    steps.next()
}

/// The groups that a template may name: how many there are, whether any has a name, and the number of a name.
pub fn groups_of_regex(regex: &Regex, name: &str) -> (usize, bool, Option<usize>)
    ensures count { result.0 ≡ group_count_in regex.now }
    ensures has_names { result.1 ≡ has_names regex.now }
    ensures named { result.2 ≡ group_named regex.now (chars name.now) }
{
    let (count, has_names) = (regex.group_count(), regex.has_names());
    (count, has_names, regex.group_named(name))
}

/// One call of a writer.
pub fn write_some<W: Writer>(writer: &mut W, bytes: &[u8]) -> io::Result<usize>
    ensures bound { WritesAtMost result bytes.now }
    ensures bytes { WriteAppends (W.contents writer.old) (W.contents writer.new) result bytes.now }
    ensures answer { W.answers writer.old bytes.now result writer.new }
{
    writer.write_some(bytes)
}

/// A loop over the steps ends.
pub fn ends(steps: Steps<'_>) {
    for _ in steps {}
}
