//! The manual page, made of the words of help.

use crate::words::{ABOUT, Choice, Described, STATUS, commands, pattern_options};
use std::io::{self, Write};

/// Writes a text so that troff prints it as it is.
fn write_plain<W: Write>(text: &str, out: &mut W) -> io::Result<()> {
    for line in text.lines() {
        if line.starts_with(".") || line.starts_with("'") {
            out.write_all(b"\\&")?;
        }
        write_words(line, out)?;
        out.write_all(b"\n")?;
    }
    Ok(())
}

/// Writes words of one line so that troff prints them as they are.
fn write_words<W: Write>(line: &str, out: &mut W) -> io::Result<()> {
    for c in line.chars() {
        match c {
            '\\' => out.write_all(b"\\e")?,
            '-' => out.write_all(b"\\-")?,
            _ => write!(out, "{c}")?,
        }
    }
    Ok(())
}

/// Writes a text under a heading.
fn write_under<W: Write>(heading: &[u8], text: &str, out: &mut W) -> io::Result<()> {
    out.write_all(heading)?;
    write_plain(text, out)
}

/// Writes how an option is written: its letter, its name, and what its value is called.
fn write_names<W: Write>(option: &Choice, out: &mut W) -> io::Result<()> {
    if let Some(letter) = option.letter {
        write!(out, "\\-{letter}, ")?;
    }
    out.write_all(b"\\-\\-")?;
    write_words(option.name, out)?;
    writeln!(out, " {}", option.value.name())
}

/// Writes how options are written, and what they do.
fn write_options<W: Write>(options: &[Choice], out: &mut W) -> io::Result<()> {
    for option in options {
        out.write_all(b".TP\n.B ")?;
        write_names(option, out)?;
        write_plain(option.help, out)?;
    }
    Ok(())
}

/// Writes how a command is called.
fn write_call<W: Write>(described: &Described, out: &mut W) -> io::Result<()> {
    write!(out, ".SS loft {} [OPTION..]", described.name)?;
    for word in described.words {
        write!(out, " {word}")?;
    }
    out.write_all(if described.has_files {
        b" [FILE..]\n"
    } else {
        b"\n"
    })
}

/// Writes how a command is called, what it does, its options and its examples.
fn write_command<W: Write>(described: &Described, out: &mut W) -> io::Result<()> {
    write_call(described, out)?;
    write_plain(described.about, out)?;
    out.write_all(b".\n")?;
    write_options(described.options, out)?;
    write_under(b".PP\n.nf\n", described.examples, out)?;
    out.write_all(b".fi\n")
}

/// Writes the manual page.
pub fn write_manual<W: Write>(out: &mut W) -> io::Result<()> {
    write_under(b".TH LOFT 1\n.SH NAME\nloft \\- ", ABOUT, out)?;
    out.write_all(
        b".SH SYNOPSIS\n.B loft\n.I COMMAND\n[OPTION..] [ARGUMENT..] [FILE..]\n.SH COMMANDS\n",
    )?;
    for described in commands() {
        write_command(described, out)?;
    }
    out.write_all(b".SH OPTIONS OF PATTERNS\nEach command has these.\n")?;
    write_options(pattern_options(), out)?;
    write_under(b".SH FILES AND STATUS\n", STATUS, out)
}
