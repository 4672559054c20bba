//! Where a command writes, and how it goes over files.

use crate::fault::Fault;
use crate::inputs::{TextWork, each_text};
use crate::outcome::Outcome;
use std::io::{Input, Write};
use std::rt::Files;
use std::time::{Clock, Duration};

/// What of the process's streams is a terminal.
#[derive(Clone, Copy)]
pub struct Terminals {
    /// Whether standard output is one: matches are coloured there.
    pub output: bool,
    /// Whether standard error is one: progress is told there.
    pub error: bool,
}

/// Where a command writes.
#[derive(Drop)]
pub struct Console<'c, W, X> {
    pub out: &'c mut W,
    pub err: &'c mut X,
    pub terminals: Terminals,
    /// Whether files are read whole, and not line by line.
    pub(crate) whole: bool,
    /// When progress was told last, or the work began.
    told: Option<Duration>,
    /// Whether progress stands on the error's last line.
    standing: bool,
}

impl<'c, W: Write, X: Write> Console<'c, W, X> {
    /// Writes to these two.
    pub fn new(
        out: &'c mut W,
        err: &'c mut X,
        terminals: Terminals,
        whole: bool,
    ) -> Console<'c, W, X> {
        Console {
            out,
            err,
            terminals,
            whole,
            told: None,
            standing: false,
        }
    }

    /// Tells how much of a file was read, once a second, on the error's last line.
    pub(crate) fn tell_progress<R: Clock>(&mut self, rt: &R, file: &str, offset: u64) {
        if !self.terminals.error {
            return;
        }
        let Ok(now) = rt.monotonic() else {
            return;
        };
        let Some(told) = self.told else {
            self.told = Some(now);
            return;
        };
        if now.as_secs() > told.as_secs() {
            let _ = write!(self.err, "\r{file}: {} MB", offset / 1_000_000);
            self.told = Some(now);
            self.standing = true;
        }
    }

    /// Takes the progress off the error's last line.
    fn clear_progress(&mut self) {
        if self.standing {
            let _ = write!(self.err, "\r\x1b[K");
            self.standing = false;
        }
    }

    /// Names a fault, and where it was. A reader of the output that has gone away is no fault of the program.
    pub fn tell_fault(&mut self, place: &str, fault: &Fault) {
        self.clear_progress();
        if !fault.is_closed_pipe() {
            let _ = writeln!(self.err, "loft: {place}: {fault}");
        }
    }

    /// Does the work on each file. One with a fault is named, and the next one is done. An output that cannot be written ends the
    /// work.
    pub fn each_file<R: Files + Input + Clock + AllocGlobal, V: TextWork>(
        &mut self,
        rt: &R,
        files: &[&str],
        work: &mut V,
    ) -> Result<Outcome, Fault> {
        let mut outcome = Outcome::new();
        for file in files {
            if let Err(fault) = each_text(rt, file, work, self) {
                if fault.ends_the_output() {
                    return Err(fault);
                }
                self.tell_fault(file, &fault);
                outcome.faulted = true;
            }
        }
        self.clear_progress();
        outcome.found = work.found();
        Ok(outcome)
    }
}
