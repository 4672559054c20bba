//! POSIX sets, as `[:alpha:]`.

ghost use Rattle.std.specs.Prelude.{◌≡◌, ◌<◌, ◌≤◌, length, take, drop, option_map, IsTrue, OnOk, IfSome};
ghost use Rattle.fancy_class.specs.EscapeGrammar.{letters};
ghost use Rattle.fancy_class.specs.Words.{by_word};
ghost use Rattle.fancy_class.specs.ClassGrammar.{posix_words, is_posix_name, is_posix, posix, posix_of};
ghost use Rattle.fancy_class.specs.ClassViews.{ClassGivesValue};
ghost use Rattle.fancy_class.specs.Readings.{itself};

use crate::class_item::ClassItem;
use crate::context::may_negate;
use crate::cursor::Cursor;
use crate::refusal::ClassRefusal;
use crate::words::begins;
use fancy_tree::error::ParseErrorKind;
use fancy_tree::named::Named;
use fancy_tree::tree::Meaning;

/// How many letters the text begins with.
fn letters(text: &[char]) -> usize
    ensures value { result ≡ letters text.now }
    ensures bound { result ≤ length text.now }
{
    let mut count = 0;
    let mut rest = text;
    while let [c, others @ ..] = rest {
        if !c.is_ascii_alphabetic() {
            break;
        }
        count += 1;
        rest = others;
    }
    count
}

impl<'a> Cursor<'a> {
    /// The POSIX set whose name and closing mark stand here, and their length.
    fn posix_word(&self) -> Option<(Named, usize)>
        ensures value { by_word posix_words self.now.rest.now ≡ option_map (λ found. (found.0, drop found.1 self.now.rest.now)) result }
        ensures room { IfSome result (λ found. found.1 ≤ length self.now.rest.now) }
    {
        match self.posix_word_to_graph() {
            Some(found) => Some(found),
            None => self.posix_word_from_lower(),
        }
    }

    /// The same for the first seven sets, up to that of `graph`.
    fn posix_word_to_graph(&self) -> Option<(Named, usize)>
        ensures value { by_word (take 7 posix_words) self.now.rest.now ≡ option_map (λ found. (found.0, drop found.1 self.now.rest.now)) result }
        ensures room { IfSome result (λ found. found.1 ≤ length self.now.rest.now) }
    {
        if begins(self.rest, &['a', 'l', 'n', 'u', 'm', ':', ']']) {
            Some((Named::Alphanumeric, 7))
        } else if begins(self.rest, &['a', 'l', 'p', 'h', 'a', ':', ']']) {
            Some((Named::Alphabetic, 7))
        } else if begins(self.rest, &['a', 's', 'c', 'i', 'i', ':', ']']) {
            Some((Named::Ascii, 7))
        } else if begins(self.rest, &['b', 'l', 'a', 'n', 'k', ':', ']']) {
            Some((Named::Blank, 7))
        } else if begins(self.rest, &['c', 'n', 't', 'r', 'l', ':', ']']) {
            Some((Named::Control, 7))
        } else if begins(self.rest, &['d', 'i', 'g', 'i', 't', ':', ']']) {
            Some((Named::AsciiDigit, 7))
        } else if begins(self.rest, &['g', 'r', 'a', 'p', 'h', ':', ']']) {
            Some((Named::Graphic, 7))
        } else {
            None
        }
    }

    /// The same for the others, from that of `lower` on.
    fn posix_word_from_lower(&self) -> Option<(Named, usize)>
        ensures value { by_word (drop 7 posix_words) self.now.rest.now ≡ option_map (λ found. (found.0, drop found.1 self.now.rest.now)) result }
        ensures room { IfSome result (λ found. found.1 ≤ length self.now.rest.now) }
    {
        if begins(self.rest, &['l', 'o', 'w', 'e', 'r', ':', ']']) {
            Some((Named::Lowercase, 7))
        } else if begins(self.rest, &['p', 'r', 'i', 'n', 't', ':', ']']) {
            Some((Named::Printable, 7))
        } else if begins(self.rest, &['p', 'u', 'n', 'c', 't', ':', ']']) {
            Some((Named::Punctuation, 7))
        } else if begins(self.rest, &['s', 'p', 'a', 'c', 'e', ':', ']']) {
            Some((Named::AsciiSpace, 7))
        } else if begins(self.rest, &['u', 'p', 'p', 'e', 'r', ':', ']']) {
            Some((Named::Uppercase, 7))
        } else if begins(self.rest, &['w', 'o', 'r', 'd', ':', ']']) {
            Some((Named::AsciiWord, 6))
        } else if begins(self.rest, &['x', 'd', 'i', 'g', 'i', 't', ':', ']']) {
            Some((Named::Hexadecimal, 8))
        } else {
            None
        }
    }

    /// Whether letters and a closing mark of a POSIX set stand at a place.
    fn is_posix_name(&self, start: usize) -> bool
        requires { start ≤ length self.now.rest.now }
        ensures { result ≡ is_posix_name (drop start self.now.rest.now) }
    {
        let rest = &self.rest[start..];
        let len = letters(rest);
        len > 0 && rest[len..].starts_with(&[':', ']'])
    }

    /// Whether a POSIX set is written here, known or not.
    pub(crate) fn is_posix(&self) -> bool
        ensures value { result ≡ is_posix self.now.rest.now }
        ensures room { IsTrue result → 3 ≤ length self.now.rest.now }
    {
        if begins(self.rest, &['[', ':', '^']) {
            self.is_posix_name(3)
        } else {
            begins(self.rest, &['[', ':']) && self.is_posix_name(2)
        }
    }

    /// Reads the name of a POSIX set with what closes it.
    fn posix_end(&mut self, meaning: Meaning, negated: bool) -> Result<ClassItem, ClassRefusal>
        ensures value { ClassGivesValue itself (posix_of meaning negated (by_word posix_words self.old.rest.now)) result self.new.rest.now }
        ensures forward { OnOk result (length self.new.rest.now ≤ length self.old.rest.now) }
    {
        let Some((which, len)) = self.posix_word() else {
            return Err(ClassRefusal::Invalid(ParseErrorKind::InvalidClass));
        };
        if !may_negate(meaning, negated) {
            return Err(ClassRefusal::Invalid(ParseErrorKind::InvalidClass));
        }
        self.skip(len);
        Ok(ClassItem::NamedSet(which, negated))
    }

    /// Reads a POSIX set.
    pub(crate) fn posix(&mut self, meaning: Meaning) -> Result<ClassItem, ClassRefusal>
        requires { 3 ≤ length self.old.rest.now }
        ensures value { ClassGivesValue itself (posix meaning self.old.rest.now) result self.new.rest.now }
        ensures progress { OnOk result (length self.new.rest.now < length self.old.rest.now) }
    {
        if begins(self.rest, &['[', ':', '^']) {
            self.skip(3);
            return self.posix_end(meaning, true);
        }
        self.skip(2);
        self.posix_end(meaning, false)
    }
}
