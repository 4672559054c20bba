//! Single characters, and escapes that stand for one.

ghost use Rattle.std.specs.Prelude.{◌≡◌, ◌+◌, ◌<◌, ◌≤◌, length, drop, OnOk, Some, None, if◌then◌else◌};
ghost use Rattle.fancy_class.specs.Words.{is_at};
ghost use Rattle.fancy_class.specs.EscapeGrammar.{control_of, escape_meaning, set_letter, set_here, before_brace, is_character, number_in_digits, braced_number, fixed_number, escape_number, single_character};
ghost use Rattle.fancy_class.specs.ClassViews.{ClassGivesValue, capped_number};
ghost use Rattle.fancy_class.specs.Readings.{itself};

use crate::cursor::Cursor;
use crate::refusal::ClassRefusal;
use crate::words::is_at_any;
use fancy_tree::error::ParseErrorKind;
use fancy_tree::named::Named;

/// The control character that a backslash and this letter stand for.
pub fn control(letter: char) -> Option<char>
    ensures { result ≡ control_of letter }
{
    match letter {
        'a' => Some('\u{7}'),
        'e' => Some('\u{1B}'),
        'f' => Some('\u{C}'),
        'n' => Some('\n'),
        'r' => Some('\r'),
        't' => Some('\t'),
        'v' => Some('\u{B}'),
        _ => None,
    }
}

/// The character that a letter or mark after a backslash stands for in a class.
fn escape_meaning(c: char) -> Option<char>
    ensures { result ≡ escape_meaning c }
{
    if c == 'b' {
        return Some('\u{8}');
    }
    if let Some(meant) = control(c) {
        return Some(meant);
    }
    if c == ' ' || c.is_ascii_punctuation() {
        Some(c)
    } else {
        None
    }
}

/// The set that a letter after a backslash names, and whether its complement is meant.
pub fn set_letter(c: char) -> Option<(Named, bool)>
    ensures { result ≡ set_letter c }
{
    match c {
        'd' => Some((Named::Digit, false)),
        'D' => Some((Named::Digit, true)),
        'w' => Some((Named::Word, false)),
        'W' => Some((Named::Word, true)),
        's' => Some((Named::Space, false)),
        'S' => Some((Named::Space, true)),
        'h' => Some((Named::Hexadecimal, false)),
        'H' => Some((Named::Hexadecimal, true)),
        _ => None,
    }
}

/// How many characters stand before the first closing brace, or in the text where it has none.
pub(crate) fn before_brace(text: &[char]) -> usize
    ensures value { result ≡ before_brace text.now }
    ensures bound { result ≤ length text.now }
{
    let mut count = 0;
    let mut rest = text;
    while let [c, others @ ..] = rest {
        if *c == '}' {
            break;
        }
        count += 1;
        rest = others;
    }
    count
}

/// The number that hexadecimal digits write, if each is one. `0x11_0000` stands for every number from there.
fn hexadecimal(digits: &[char]) -> Option<u32>
    ensures { result ≡ capped_number 0 digits.now }
{
    let mut value: u32 = 0;
    let mut rest = digits;
    while let [c, others @ ..] = rest {
        let Some(digit) = c.to_digit(16) else {
            return None;
        };
        value = (value * 16 + digit).min(0x11_0000);
        rest = others;
    }
    Some(value)
}

/// The character of a number.
fn character(number: u32) -> Option<char>
    ensures { result ≡ (if is_character number then Some number else None) }
{
    if number < 0xD800 || (number > 0xDFFF && number < 0x11_0000) {
        char::from_u32(number)
    } else {
        None
    }
}

impl<'a> Cursor<'a> {
    /// The character that these digits number, with what follows them left to be read.
    #[tactic(auto, using(crate::proofs::NumberEscapeLemmas::by_number_read))]
    fn by_number(
        &mut self,
        digits: usize,
        past: usize,
        is_byte: bool,
    ) -> Result<(char, bool), ClassRefusal>
        requires digits { digits ≤ length self.old.rest.now }
        requires past { past ≤ length self.old.rest.now }
        ensures value { ClassGivesValue itself (number_in_digits digits past is_byte self.old.rest.now) result self.new.rest.now }
        ensures forward { OnOk result (length self.new.rest.now ≤ length self.old.rest.now) }
    {
        let Some(value) = hexadecimal(&self.rest[..digits]) else {
            return Err(ClassRefusal::Invalid(ParseErrorKind::InvalidHex));
        };
        let Some(found) = character(value) else {
            return Err(ClassRefusal::Invalid(ParseErrorKind::InvalidCodepointValue));
        };
        self.skip(past);
        Ok((found, is_byte))
    }

    /// Reads one to eight digits and a closing brace.
    fn braced_number(&mut self) -> Result<(char, bool), ClassRefusal>
        ensures value { ClassGivesValue itself (braced_number self.old.rest.now) result self.new.rest.now }
        ensures forward { OnOk result (length self.new.rest.now ≤ length self.old.rest.now) }
    {
        let len = before_brace(self.rest);
        if len == 0 || len > 8 || len >= self.rest.len() {
            return Err(ClassRefusal::Invalid(ParseErrorKind::InvalidHex));
        }
        self.by_number(len, len + 1, false)
    }

    /// Reads so many digits, of which two write a byte.
    fn fixed_number(&mut self, count: usize) -> Result<(char, bool), ClassRefusal>
        ensures value { ClassGivesValue itself (fixed_number count self.old.rest.now) result self.new.rest.now }
        ensures forward { OnOk result (length self.new.rest.now ≤ length self.old.rest.now) }
    {
        if self.rest.len() < count {
            return Err(ClassRefusal::Invalid(ParseErrorKind::InvalidHex));
        }
        self.by_number(count, count, count == 2)
    }

    /// Reads the number after the letter of its escape: so many hexadecimal digits, or one to eight in
    /// braces. Tells whether it was written as a byte, as `\xFF` is.
    pub fn number(&mut self, count: usize) -> Result<(char, bool), ClassRefusal>
        ensures value { ClassGivesValue itself (escape_number count self.old.rest.now) result self.new.rest.now }
        ensures forward { OnOk result (length self.new.rest.now ≤ length self.old.rest.now) }
    {
        if is_at_any(self.rest, &['{']) {
            self.skip(1);
            return self.braced_number();
        }
        self.fixed_number(count)
    }

    /// Reads the number of an escape, from its backslash on.
    fn number_escape(&mut self, count: usize) -> Result<(char, bool), ClassRefusal>
        requires { 2 ≤ length self.old.rest.now }
        ensures value { ClassGivesValue itself (escape_number count (drop 2 self.old.rest.now)) result self.new.rest.now }
        ensures progress { OnOk result (length self.new.rest.now < length self.old.rest.now) }
    {
        self.skip(2);
        self.number(count)
    }

    /// Reads one character, or an escape that stands for one. Tells whether it was written as a byte.
    pub(crate) fn single_character(&mut self) -> Result<(char, bool), ClassRefusal>
        ensures value { ClassGivesValue itself (single_character self.old.rest.now) result self.new.rest.now }
        ensures progress { OnOk result (length self.new.rest.now < length self.old.rest.now) }
    {
        match self.rest {
            ['\\', 'x', ..] => self.number_escape(2),
            ['\\', 'u', ..] => self.number_escape(4),
            ['\\', 'U', ..] => self.number_escape(8),
            ['\\', c, ..] => {
                let Some(found) = escape_meaning(*c) else {
                    return Err(ClassRefusal::Invalid(ParseErrorKind::InvalidEscape));
                };
                self.skip(2);
                Ok((found, false))
            }
            ['\\' | '[', ..] | [] => Err(ClassRefusal::Invalid(ParseErrorKind::InvalidClass)),
            [c, ..] => {
                let c = *c;
                self.skip(1);
                Ok((c, false))
            }
        }
    }

    /// The set that an escape of one letter names here, and whether its complement is meant.
    pub(crate) fn set_here(&self) -> Option<(Named, bool)>
        ensures { result ≡ set_here self.now.rest.now }
    {
        match self.rest {
            ['\\', c, ..] => set_letter(*c),
            _ => None,
        }
    }
}
