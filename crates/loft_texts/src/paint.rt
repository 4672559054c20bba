//! Colours of a terminal.

use std::io::{self, Write};

/// A colour of a terminal.
#[derive(Clone, Copy)]
pub enum Colour {
    Red,
    BoldRed,
    Green,
    Yellow,
    Blue,
    Magenta,
    Cyan,
}

/// The colours of kinds of tokens, in turn.
const KINDS: [Colour; 6] = [
    Colour::Blue,
    Colour::Green,
    Colour::Yellow,
    Colour::Magenta,
    Colour::Cyan,
    Colour::Red,
];

impl Colour {
    /// The colour of matches.
    pub const MATCH: Colour = Colour::BoldRed;

    /// The colour of names of files.
    pub const FILE: Colour = Colour::Magenta;

    /// The colour of a kind of tokens, by its number.
    pub fn of_kind(number: usize) -> Colour {
        KINDS[number % KINDS.len()]
    }

    /// Its code.
    fn code(self) -> &'static str {
        match self {
            Colour::Red => "31",
            Colour::BoldRed => "1;31",
            Colour::Green => "32",
            Colour::Yellow => "33",
            Colour::Blue => "34",
            Colour::Magenta => "35",
            Colour::Cyan => "36",
        }
    }
}

/// Writes bytes in a colour, or as they are where no colours are wanted.
pub fn write_painted<W: Write>(
    colours: bool,
    colour: Colour,
    bytes: &[u8],
    out: &mut W,
) -> io::Result<()> {
    if !colours || bytes.is_empty() {
        return out.write_all(bytes);
    }
    write!(out, "\x1b[{}m", colour.code())?;
    out.write_all(bytes)?;
    out.write_all(b"\x1b[0m")
}
