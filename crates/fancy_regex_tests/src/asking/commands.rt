//! What the tests ask of commands: the rows of their tables, and the functions that check rows.

use crate::asking::check;
use fre_commands::run;
use std::alloc::Global;
use std::io;
use std::process::Abort;

/// Words, what is written of what was found, what is written of a fault, and the status.
pub(crate) type CommandRow = (&'static [&'static str], &'static str, &'static str, u8);

/// Words, and how many bytes their first writer takes before it fails.
pub(crate) type BrokenRow = (&'static [&'static str], usize);

/// A writer that takes `left` bytes, and then fails.
#[derive(Drop)]
struct Broken {
    left: usize,
}

impl io::Write for Broken {
    fn write(&mut self, buf: &[u8]) -> io::Result<usize> {
        let count = buf.len().min(self.left);
        if count == 0 {
            return Err(io::Error::from(io::ErrorKind::BrokenPipe));
        }
        self.left -= count;
        Ok(count)
    }

    fn flush(&mut self) -> io::Result<()> {
        Ok(())
    }
}

/// The words of a command line.
fn command_line(rt: &impl Abort, alloc: Global, words: &[&str]) -> Vec<String> {
    let mut line = Vec::new(alloc);
    for word in words {
        let word = String::from_str(alloc, *word).expect(rt, *word);
        line.push(word).expect(rt, "a word");
    }
    line
}

/// Checks what commands write to both writers, and their statuses.
pub(crate) fn check_commands(rt: &impl Abort, alloc: Global, rows: &[CommandRow]) {
    for &(words, out, err, status) in rows {
        let line = command_line(rt, alloc, words);
        let (mut written, mut complained) = (Vec::new(alloc), Vec::new(alloc));
        let ended = run(alloc, &line, &mut written, &mut complained);
        check(rt, written.as_slice() == out.as_bytes(), out);
        check(rt, complained.as_slice() == err.as_bytes(), err);
        check(rt, ended == status, "the status");
    }
}

/// Checks commands whose first writer fails.
pub(crate) fn check_broken(rt: &impl Abort, alloc: Global, rows: &[BrokenRow]) {
    for &(words, left) in rows {
        let line = command_line(rt, alloc, words);
        let mut complained = Vec::new(alloc);
        let ended = run(alloc, &line, &mut Broken { left }, &mut complained);
        check(
            rt,
            complained.as_slice() == b"error: Output\n".as_slice(),
            "Output",
        );
        check(rt, ended == 2, "the status");
    }
}

/// Checks that a fault of the second writer is ignored: the words are no command, and there is no room to say so.
pub(crate) fn check_deaf(rt: &impl Abort, alloc: Global) {
    let mut written = Vec::new(alloc);
    let ended = run(alloc, &[], &mut written, &mut Broken { left: 0 });
    check(rt, written.is_empty(), "nothing is written");
    check(rt, ended == 2, "the status");
}
