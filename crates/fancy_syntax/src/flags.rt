//! Flags, as they are in force at a place of a pattern.

ghost use Rattle.std.specs.Prelude.{◌≡◌, ◌≤◌, IfSome, option_map, length};
ghost use Rattle.fancy_syntax.specs.Dialect.{with_flag};
ghost use Rattle.fancy_syntax.specs.Grammar.{next_letter, flags_in, first_letter};
ghost use Rattle.fancy_syntax.specs.Views.{flags_read};
ghost use Rattle.fancy_syntax.specs.Flags.{flags_of};

use fancy_tree::tree::Meaning;

/// Which flags are set.
#[derive(Clone, Copy, PartialEq, Eq)]
pub struct Flags {
    /// `i`: characters stand also for those that share their simple folding.
    pub ignore_case: bool,
    /// `m`: `^` and `$` hold at lines.
    pub multi_line: bool,
    /// `s`: `.` takes line feeds too.
    pub dot_all: bool,
    /// `x`: blanks and lines after `#` are skipped.
    pub ignore_blanks: bool,
    /// `R`: a carriage return ends a line too.
    pub crlf: bool,
}

impl Flags {
    /// No flag is set.
    pub const NONE: Flags = Flags {
        ignore_case: false,
        multi_line: false,
        dot_all: false,
        ignore_blanks: false,
        crlf: false,
    };

    /// These flags with this letter's set, or cleared; none where it is no letter of a flag, or is a `u` that
    /// states what does not hold.
    fn with(self, meaning: Meaning, on: bool, letter: char) -> Option<Flags>
        ensures { option_map flags_of result ≡ with_flag meaning on letter (flags_of self) }
    {
        match letter {
            'i' => Some(Flags {
                ignore_case: on,
                ..self
            }),
            'm' => Some(Flags {
                multi_line: on,
                ..self
            }),
            's' => Some(Flags {
                dot_all: on,
                ..self
            }),
            'x' => Some(Flags {
                ignore_blanks: on,
                ..self
            }),
            'R' => Some(Flags { crlf: on, ..self }),
            'u' if on == matches!(meaning, Meaning::Unicode) => Some(self),
            _ => None,
        }
    }
}

/// Letters of flags, as far as they were read.
#[derive(Clone, Copy)]
struct FlagReader {
    /// The flags by now.
    flags: Flags,
    /// Whether the next letters set their flags.
    on: bool,
    /// Whether a letter was read since the start or the dash.
    some: bool,
}

impl FlagReader {
    ghost use Rattle.fancy_syntax.specs.Views.{letters_of};

    /// With one more character read.
    fn next(self, meaning: Meaning, c: char) -> Option<FlagReader>
        ensures { option_map letters_of result ≡ next_letter meaning c (letters_of self) }
    {
        if c == '-' && self.on {
            return Some(FlagReader {
                flags: self.flags,
                on: false,
                some: false,
            });
        }
        match self.flags.with(meaning, self.on, c) {
            Some(flags) => Some(FlagReader {
                flags,
                on: self.on,
                some: true,
            }),
            None => None,
        }
    }
}

/// The flags that stand before the first colon or parenthesis, and the text from there on; none where they are no
/// flags.
pub(crate) fn read_flags(text: &[char], meaning: Meaning, flags: Flags) -> Option<(Flags, &[char])>
    ensures value { option_map flags_read result ≡ flags_in meaning text.now (first_letter (flags_of flags)) }
    ensures shorter { IfSome result (λ r. length r.1.now ≤ length text.now) }
{
    let mut letters = FlagReader {
        flags,
        on: true,
        some: false,
    };
    for (i, c) in text.iter().enumerate() {
        if [':', ')'].contains(c) {
            if letters.some {
                return Some((letters.flags, &text[i..]));
            }
            return None;
        }
        match letters.next(meaning, *c) {
            Some(next) => letters = next,
            None => return None,
        }
    }
    None
}
