//! The parser: one pass over the characters, which goes deeper only at a parenthesis.

ghost use Rattle.std.specs.Prelude.{◌≡◌, ◌+◌, ◌<◌, ◌≤◌, ◌^◌, ◌-◌, min, sum_by, true, false, if◌then◌else◌, length, OnOk, IfOk, option_map};
ghost use Rattle.std.specs.Char.{len_utf8};
ghost use Rattle.fancy_syntax.specs.Dialect.{begins_quantifier};
ghost use Rattle.fancy_class.specs.Words.{is_at};
ghost use Rattle.fancy_syntax.specs.Counts.{begins_count};
ghost use Rattle.fancy_tree.specs.declared.error.ParseErrorKind.TheVariants.{NotInProfile, TargetNotRepeatable};

use crate::blank::past_blanks;
use crate::build::{branches, chooses, reference, repeat, sequence, wrap};
use crate::count::{Turns, begins_count, bounds, past_count};
use crate::flags::{Flags, read_flags};
use crate::groups::{Grouping, Opening, mark};
use crate::reference::{Target, is_left_out, read_condition};
use fancy_class::cursor::Cursor;
use fancy_class::words::{begins, is_at_any};
use fancy_tree::error::{Error, ParseErrorKind};
use fancy_tree::measure::is_empty;
use fancy_tree::name::{GroupName, split_name, text_of};
use fancy_tree::tree::{Meaning, RepeatKind, Tree};
use std::alloc::Global;

/// A pattern, and what is left of it to read.
#[derive(Drop)]
pub(crate) struct Parser<'a> {
    /// All characters of the pattern.
    pub(crate) whole: &'a [char],
    /// It stands before the last of them, which are still to be read.
    pub(crate) cursor: Cursor<'a>,
    pub(crate) meaning: Meaning,
    /// Matches keep to whole characters.
    pub(crate) keeps_characters: bool,
    /// Groups without a name capture.
    pub(crate) unnamed_capture: bool,
    /// The flags in force here.
    pub(crate) flags: Flags,
    /// How many capturing groups were opened so far.
    pub(crate) opened: usize,
    /// The named ones among them.
    pub(crate) names: Vec<GroupName>,
    /// What the references so far name.
    pub(crate) wanted: Vec<Target>,
    /// A look-around is open here.
    pub(crate) in_look_around: bool,
    pub(crate) alloc: Global,
    ghost counted: { opened + length cursor.rest.now ≤ length whole.now },
    ghost short: { length whole.now < 2 ^ 63 },
}

/// The bytes that these characters take in UTF-8; `usize::MAX` stands for any number past it.
fn bytes_of(characters: &[char]) -> usize
    ensures { result ≡ min (sum_by len_utf8 characters.now) (2 ^ 64 - 1) }
{
    let mut bytes: usize = 0;
    for c in characters {
        bytes = bytes.saturating_add(c.len_utf8());
    }
    bytes
}

/// Whether a quantifier begins here.
fn begins_quantifier(text: &[char]) -> bool
    ensures { result ≡ begins_quantifier text.now }
{
    match text {
        ['?' | '*' | '+', ..] => true,
        _ => begins_count(text),
    }
}

/// What is wrong where no item begins.
pub(crate) fn unexpected_fault(text: &[char]) -> ParseErrorKind
    ensures { result ≡ (if begins_quantifier text.now then TargetNotRepeatable else NotInProfile) }
{
    if begins_quantifier(text) {
        ParseErrorKind::TargetNotRepeatable
    } else {
        ParseErrorKind::NotInProfile
    }
}

/// What is wrong after a parenthesis and its question mark, where no group and no flags stand.
fn flags_fault(inside: &[char], meaning: Meaning) -> ParseErrorKind {
    match inside {
        ['#', ..] => return ParseErrorKind::UnclosedOpenParen,
        ['P', '>', ..] | ['-', '0'..='9', ..] => return ParseErrorKind::NotInProfile,
        ['~' | '&' | '+' | '0'..='9', ..] => return ParseErrorKind::NotInProfile,
        _ => {}
    }
    let mut on = true;
    for c in inside {
        match c {
            'i' | 'm' | 's' | 'x' | 'R' => {}
            'u' if on != matches!(meaning, Meaning::Unicode) => {
                return ParseErrorKind::ChangingUnicodeModeUnsupported;
            }
            'u' => {}
            '-' if on => on = false,
            _ => return ParseErrorKind::UnknownFlag,
        }
    }
    ParseErrorKind::UnclosedOpenParen
}

impl<'a> Parser<'a> {
    ghost use Rattle.fancy_tree.specs.declared.error.Error.TheVariants.{ParseError};
    ghost use Rattle.fancy_syntax.specs.Views.{place, text_left, bytes_before};
    ghost use Rattle.fancy_syntax.specs.Grammar.{place_past, after_blanks, ends_branch};

    /// An error of this kind at the place that is reached.
    pub(crate) fn error(&self, kind: ParseErrorKind) -> Error
        ensures { result ≡ ParseError (bytes_before self.now.whole.now (text_left self.now)) kind }
    {
        let passed = self.whole.len().saturating_sub(self.cursor.rest.len());
        Error::ParseError(bytes_of(&self.whole[..passed]), kind)
    }

    pub(crate) fn skip(&mut self, count: usize)
        requires { count ≤ length (text_left self.old) }
        ensures place { place self.new ≡ place_past count (place self.old) }
        ensures shorter { length (text_left self.new) + count ≡ length (text_left self.old) }
        ensures whole { self.new.whole ≡ self.old.whole }
    {
        self.cursor.skip(count);
    }

    /// Moves past blanks and comments.
    fn skip_blanks(&mut self)
        ensures place { place self.new ≡ after_blanks (place self.old) }
        ensures shorter { length (text_left self.new) ≤ length (text_left self.old) }
    {
        self.cursor.rest = past_blanks(self.cursor.rest, self.flags.ignore_blanks);
    }

    fn ends_branch(&self) -> bool
        ensures { result ≡ ends_branch (text_left self.now) }
    {
        self.cursor.rest.is_empty() || is_at_any(self.cursor.rest, &['|', ')'])
    }
}

impl<'a> Parser<'a> {
    ghost use Rattle.fancy_class.specs.Readings.{itself};
    ghost use Rattle.fancy_syntax.specs.Views.{place, text_left, opening_found, bounds_of, GivesValue};
    ghost use Rattle.fancy_tree.specs.Pattern.{pattern_of};
    ghost use Rattle.std.specs.Prelude.{Some, Ok};
    ghost use Rattle.fancy_syntax.specs.Grammar.{opening_here, by_mark, unmarked_opening, named_opening, named_reference, by_test, conditional_at, flags_opening, with_quantifier, quantifier_here, kind};

    /// Reads what a parenthesis opens.
    fn opening(&mut self) -> Result<Opening, Error>
        requires { is_at "(" (text_left self.old) ≡ true }
        ensures value { GivesValue opening_found (opening_here (place self.old)) result (place self.new) }
        ensures progress { OnOk result (length (text_left self.new) < length (text_left self.old)) }
    {
        if begins(self.cursor.rest, &['(', '?', ':']) {
            self.skip(3);
            return Ok(Opening::Plain);
        }
        match mark(self.cursor.rest) {
            Some((how, width)) => Ok(self.read_mark(how, width)),
            None => self.unmarked_opening(),
        }
    }

    /// Reads the mark of an atomic group or of look-around, which has so many characters.
    fn read_mark(&mut self, how: Grouping, width: usize) -> Opening
        requires { width ≤ length (text_left self.old) }
        ensures value { GivesValue opening_found (by_mark (place self.old) (Some (how, width))) (Ok result) (place self.new) }
        ensures progress { length (text_left self.new) + width ≡ length (text_left self.old) }
    {
        self.skip(width);
        match how {
            Grouping::Atomic => {}
            Grouping::LookAhead { .. } | Grouping::LookBehind { .. } => self.in_look_around = true,
        }
        Opening::Marked(how)
    }

    /// Reads what a parenthesis opens where no such mark stands.
    fn unmarked_opening(&mut self) -> Result<Opening, Error>
        requires { is_at "(" (text_left self.old) ≡ true }
        ensures value { GivesValue opening_found (unmarked_opening (place self.old)) result (place self.new) }
        ensures progress { OnOk result (length (text_left self.new) < length (text_left self.old)) }
    {
        if begins(self.cursor.rest, &['(', '?', '<']) {
            let inside = &self.cursor.rest[3..];
            return self.read_named_group(inside);
        }
        if begins(self.cursor.rest, &['(', '?', 'P', '<']) {
            let inside = &self.cursor.rest[4..];
            return self.read_named_group(inside);
        }
        if begins(self.cursor.rest, &['(', '?', 'P', '=']) {
            let inside = &self.cursor.rest[4..];
            return self.named_reference(inside);
        }
        if begins(self.cursor.rest, &['(', '?', '(']) {
            let inside = &self.cursor.rest[3..];
            return self.conditional(inside);
        }
        if begins(self.cursor.rest, &['(', '?']) {
            return self.flags_opening();
        }
        if begins(self.cursor.rest, &['(', '*']) {
            return Err(self.error(ParseErrorKind::NotInProfile));
        }
        self.skip(1);
        if !self.unnamed_capture {
            return Ok(Opening::Plain);
        }
        self.opened += 1;
        Ok(Opening::Capture(self.opened))
    }

    /// Reads the name that stands first in `inside`, the last characters, and opens its group.
    fn read_named_group(&mut self, inside: &'a [char]) -> Result<Opening, Error>
        requires { length inside.now < length (text_left self.old) }
        ensures value { GivesValue opening_found (named_opening (place self.old) inside.now) result (place self.new) }
        ensures progress { OnOk result (length (text_left self.new) < length (text_left self.old)) }
    {
        let (name, after) = split_name(inside);
        match after {
            ['>', body @ ..] if !name.is_empty() => {
                let name = text_of(self.alloc, name)?;
                self.cursor.rest = body;
                self.opened += 1;
                let group = self.opened;
                self.names.push(GroupName { name, group })?;
                Ok(Opening::Capture(group))
            }
            _ => Err(self.error(ParseErrorKind::InvalidGroupName)),
        }
    }

    /// Reads the reference to the name that stands first in `inside`, the last characters, up to its parenthesis.
    fn named_reference(&mut self, inside: &'a [char]) -> Result<Opening, Error>
        requires { length inside.now < length (text_left self.old) }
        ensures value { GivesValue opening_found (named_reference (place self.old) inside.now) result (place self.new) }
        ensures progress { OnOk result (length (text_left self.new) < length (text_left self.old)) }
    {
        let (name, after) = split_name(inside);
        match after {
            [')', after @ ..] if !name.is_empty() => {
                let name = text_of(self.alloc, name)?;
                self.cursor.rest = after;
                let index = self.wanted.len();
                self.wanted.push(Target::Called(name))?;
                let folded = self.flags.ignore_case;
                Ok(Opening::Reference { folded, index })
            }
            _ => Err(self.error(ParseErrorKind::InvalidGroupName)),
        }
    }

    /// Reads a condition that tests a group, or goes to one that is a pattern; it stands first in `inside`, the last characters.
    #[tactic(auto, using(fancy_tree::proofs::PatternLemmas::pattern_equations))]
    fn conditional(&mut self, inside: &'a [char]) -> Result<Opening, Error>
        requires { length inside.now < length (text_left self.old) }
        ensures value { GivesValue opening_found (conditional_at (place self.old) inside.now) result (place self.new) }
        ensures progress { OnOk result (length (text_left self.new) < length (text_left self.old)) }
    {
        let tested = read_condition(self.alloc, inside)?;
        match tested {
            Some((target, after)) => {
                let index = self.wanted.len();
                self.wanted.push(target)?;
                self.cursor.rest = after;
                let condition = Box::new(self.alloc, Tree::GroupTest(index))?;
                Ok(Opening::Chooses(condition))
            }
            None => self.condition(inside),
        }
    }

    /// Goes to a condition that is a pattern, where it is not one that is left out.
    fn condition(&mut self, inside: &'a [char]) -> Result<Opening, Error>
        requires { length inside.now < length (text_left self.old) }
        ensures value { GivesValue opening_found (by_test (place self.old) inside.now None) result (place self.new) }
        ensures progress { OnOk result (length (text_left self.new) < length (text_left self.old)) }
    {
        if is_left_out(inside) {
            return Err(self.error(ParseErrorKind::NotInProfile));
        }
        self.cursor.rest = inside;
        Ok(Opening::Condition)
    }

    /// Reads flags, and what they open.
    fn flags_opening(&mut self) -> Result<Opening, Error>
        requires { 2 ≤ length (text_left self.old) }
        ensures value { GivesValue opening_found (flags_opening (place self.old)) result (place self.new) }
        ensures progress { OnOk result (length (text_left self.new) < length (text_left self.old)) }
    {
        let inside = &self.cursor.rest[2..];
        match read_flags(inside, self.meaning, self.flags) {
            Some((flags, [c, after @ ..])) => {
                let how = if *c == ':' {
                    Opening::Plain
                } else {
                    Opening::Setting
                };
                self.cursor.rest = after;
                self.flags = flags;
                Ok(how)
            }
            _ => Err(self.error(flags_fault(inside, self.meaning))),
        }
    }

    /// Puts the quantifier that stands here, if one does, on what was read.
    #[tactic(auto, using(fancy_tree::proofs::PatternLemmas::pattern_equations))]
    fn with_quantifier(&mut self, part: Tree) -> Result<Tree, Error>
        ensures value { GivesValue pattern_of (with_quantifier (pattern_of part) (place self.old)) result (place self.new) }
        ensures progress { OnOk result (length (text_left self.new) ≤ length (text_left self.old)) }
    {
        let after = past_blanks(self.cursor.rest, self.flags.ignore_blanks);
        if !begins_quantifier(after) {
            return Ok(part);
        }
        self.cursor.rest = after;
        if is_empty(&part) {
            return Err(self.error(ParseErrorKind::TargetNotRepeatable));
        }
        let turns = self.turns()?;
        let kind = self.kind();
        Ok(repeat(self.alloc, turns, kind, part)?)
    }

    /// Reads the number of turns that a quantifier states.
    fn turns(&mut self) -> Result<Turns, Error>
        ensures value { GivesValue bounds_of (quantifier_here (place self.old)) result (place self.new) }
        ensures progress { OnOk result (length (text_left self.new) ≤ length (text_left self.old)) }
    {
        if is_at_any(self.cursor.rest, &['?']) {
            self.skip(1);
            return Ok(Turns {
                low: 0,
                high: Some(1),
            });
        }
        if is_at_any(self.cursor.rest, &['*']) {
            self.skip(1);
            return Ok(Turns { low: 0, high: None });
        }
        if is_at_any(self.cursor.rest, &['+']) {
            self.skip(1);
            return Ok(Turns { low: 1, high: None });
        }
        if begins_count(self.cursor.rest) {
            return self.count();
        }
        Err(self.error(ParseErrorKind::NotInProfile))
    }

    /// Reads a count.
    fn count(&mut self) -> Result<Turns, Error>
        requires { begins_count (text_left self.old) ≡ true }
        ensures value { GivesValue bounds_of (quantifier_here (place self.old)) result (place self.new) }
        ensures progress { OnOk result (length (text_left self.new) ≤ length (text_left self.old)) }
    {
        match self.cursor.rest {
            [_, inside @ ..] => match bounds(inside) {
                Some(turns) => {
                    self.cursor.rest = past_count(inside);
                    Ok(turns)
                }
                None => Err(self.error(ParseErrorKind::InvalidRepeat)),
            },
            [] => Err(self.error(ParseErrorKind::InvalidRepeat)),
        }
    }

    /// Reads the suffix of a quantifier, if one stands here.
    fn kind(&mut self) -> RepeatKind
        ensures value { GivesValue itself (kind (place self.old)) (Ok result) (place self.new) }
        ensures progress { length (text_left self.new) ≤ length (text_left self.old) }
    {
        if is_at_any(self.cursor.rest, &['?']) {
            self.skip(1);
            return RepeatKind::Lazy;
        }
        if is_at_any(self.cursor.rest, &['+']) {
            self.skip(1);
            return RepeatKind::Possessive;
        }
        RepeatKind::Greedy
    }
}

impl<'a> Parser<'a> {
    ghost use Rattle.fancy_syntax.specs.Views.{place, text_left, opening_found, Gives, GivesOpening, Alternation, Sequence, patterns_of, part_of};
    ghost use Rattle.fancy_tree.specs.Pattern.{pattern_of};
    ghost use Rattle.fancy_syntax.specs.Grammar.{BranchesReading, Opens, ItemReading};

    /// Reads a pattern up to the end of the group or of the whole; `room` more parentheses may be opened inside.
    pub(crate) fn alternation(&mut self, room: u32) -> Result<Tree, Error>
        ensures value { Gives pattern_of (Alternation room) result (place self.old) (place self.new) }
        ensures forward { OnOk result (length (text_left self.new) ≤ length (text_left self.old)) }
    {
        let found = self.alternatives(room)?;
        Ok(branches(found))
    }

    /// Reads the branches of a pattern.
    #[cycle(parser)]
    fn alternatives(&mut self, room: u32) -> Result<Vec<Tree>, Error>
        ensures value { Gives patterns_of (BranchesReading room) result (place self.old) (place self.new) }
        ensures forward { OnOk result (length (text_left self.new) ≤ length (text_left self.old)) }
    {
        let mut found = Vec::new(self.alloc);
        loop {
            let branch = self.sequence(room)?;
            found.push(branch)?;
            if !is_at_any(self.cursor.rest, &['|']) {
                break;
            }
            self.skip(1);
        }
        Ok(found)
    }

    /// Reads one branch.
    #[cycle(parser)]
    fn sequence(&mut self, room: u32) -> Result<Tree, Error>
        ensures value { Gives pattern_of (Sequence room) result (place self.old) (place self.new) }
        ensures forward { OnOk result (length (text_left self.new) ≤ length (text_left self.old)) }
    {
        let mut parts = Vec::new(self.alloc);
        loop {
            self.skip_blanks();
            if self.ends_branch() {
                break;
            }
            if let Some(part) = self.item(room)? {
                parts.push(part)?;
            }
        }
        Ok(sequence(parts))
    }

    /// Reads what a parenthesis opens, where `room` may be opened.
    fn opening_within(&mut self, room: u32) -> Result<Opening, Error>
        requires { is_at "(" (text_left self.old) ≡ true }
        ensures value { GivesOpening room result (place self.old) (place self.new) }
        ensures progress { OnOk result (length (text_left self.new) < length (text_left self.old)) }
    {
        let how = self.opening()?;
        if room < how.parentheses() {
            return Err(self.error(ParseErrorKind::RecursionExceeded));
        }
        Ok(how)
    }

    /// Reads what a parenthesis opens, with its condition if it has one; flags that are set in the condition end with it.
    #[cycle(parser)]
    fn head(&mut self, room: u32) -> Result<Opening, Error>
        requires { is_at "(" (text_left self.old) ≡ true }
        ensures value { Gives opening_found (Opens room) result (place self.old) (place self.new) }
        ensures progress { OnOk result (length (text_left self.new) < length (text_left self.old)) }
        ensures room { OnOk result (1 ≤ room) }
    {
        let (flags_before, looking_before) = (self.flags, self.in_look_around);
        let how = self.opening_within(room)?;
        if !how.asks() {
            return Ok(how);
        }
        let condition = self.alternatives(room - 2)?;
        if !is_at_any(self.cursor.rest, &[')']) {
            return Err(self.error(ParseErrorKind::UnclosedOpenParen));
        }
        self.skip(1);
        self.flags = flags_before;
        self.in_look_around = looking_before;
        Ok(chooses(self.alloc, condition)?)
    }

    /// Reads a setting of flags, which gives no part, or what can be quantified with its quantifier.
    #[cycle(parser)]
    fn item(&mut self, room: u32) -> Result<Option<Tree>, Error>
        ensures value { Gives part_of (ItemReading room) result (place self.old) (place self.new) }
        ensures progress { OnOk result (length (text_left self.new) < length (text_left self.old)) }
    {
        if !is_at_any(self.cursor.rest, &['(']) {
            let part = self.atom()?;
            return Ok(Some(self.with_quantifier(part)?));
        }
        let (flags, looking) = (self.flags, self.in_look_around);
        let how = self.head(room)?;
        if let Opening::Setting = how {
            return Ok(None);
        }
        if let Opening::Reference { folded, index } = how {
            return Ok(Some(self.with_quantifier(reference(folded, index))?));
        }
        let body = self.alternatives(room - 1)?;
        if !is_at_any(self.cursor.rest, &[')']) {
            return Err(self.error(ParseErrorKind::UnclosedOpenParen));
        }
        self.skip(1);
        self.flags = flags;
        self.in_look_around = looking;
        let group = wrap(self.alloc, how, body)?;
        Ok(Some(self.with_quantifier(group)?))
    }
}
