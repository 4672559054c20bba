//! Makes the calls of the library that lines of standard input ask for, each twice: what `tools/` runs with memory refused and
//! with random inputs.
//!
//! A line has four words, split by blanks: the call, letters of options, a number, and texts in hexadecimal, split by commas: the
//! text, the template, and the patterns. A text may have parts, with a `+` between them, each of which stands there as often as the
//! number after its `*` says. After the letters and a comma `B1000` limits returns to 1000, `K1000` the branches that are saved,
//! `W1000` the work, and `P1000` the code; the options of a set's patterns may be split by `;`, where each has its own. The range of
//! an input begins at 2 by `F2` and ends at 7 by `T7`; `A` anchors it, `H` and `Z` say that the text's start and its end count as
//! none, `G` that there was no match before, and `Y` has the text searched as bytes. What the number means, the call says.
//!
//! The answer is a line `>A<B`, where A and B are what the calls answer at first and once more: items with a `|` after each, a
//! refusal among them as `!` and its text. Each call of the library gives one item, a list one for each item of it. The output is
//! flushed at the `>`, at the `<` and at the end of the line, so that who reads along can tell when the first call begins and
//! ends. A line without a `>` has no answer, as where its pattern is refused; an item `?cannot` says that the regex must not
//! search the input.
#![tactic(auto)]

mod builds;
mod cases;
mod explanations;
mod fields;
mod items;
mod members;
mod parts;
mod searches;
mod sets;
mod templates;

use crate::fields::write_refusal;
use std::io;
use std::io::{BufRead, BufReader, BufWriter, Write};

fn main(rt: HostRuntime) -> io::Result<()> {
    let alloc = rt.alloc();
    let mut out = BufWriter::new(alloc, io::writer(&rt))?;
    for line in BufReader::new(alloc, rt.reader())?.lines(alloc) {
        let line = line?;
        if let Err(error) = cases::answer(alloc, line.as_str(), &mut out) {
            write_refusal(&error, &mut out);
        }
        writeln!(out)?;
        out.flush()?;
    }
    Ok(())
}
