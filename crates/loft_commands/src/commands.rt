//! From words to a status.

ghost use Rattle.std.specs.Prelude.{◌≤◌};

use crate::tasks::outcome_of;
use fancy_regex::Explain;
use loft_texts::{Console, Fault, Outcome, Terminals};
use loft_words::{Command, Request, Task, read_words};
use std::io::{self, Input, Write};
use std::rt::Files;
use std::time::Clock;

/// Runs what `words` ask for, the program's name first, and returns the program's status: 0 where something was found, 1 where
/// nothing was, 2 where there was a fault. What is written to `out` is flushed.
pub fn run<R: Files + Input + Clock + AllocGlobal, W: Write, X: Write>(
    rt: &R,
    words: &[String],
    terminals: Terminals,
    out: &mut W,
    err: &mut X,
) -> u8
    ensures { result ≤ 2 }
{
    match read_words(rt.alloc(), words) {
        Ok(Request::Do(command)) => run_command(rt, &command, terminals, out, err),
        Ok(Request::Show(text)) => show(text.as_str(), out, err),
        Ok(Request::Refuse(text)) => {
            let _ = err.write_all(text.as_bytes());
            2
        }
        Err(_) => {
            let _ = err.write_all(b"loft: out of memory\n");
            2
        }
    }
}

/// Shows a text, and returns the status.
fn show<W: Write, X: Write>(text: &str, out: &mut W, err: &mut X) -> u8
    ensures { result ≤ 2 }
{
    match write_text(text, out) {
        Ok(()) => 0,
        Err(error) => {
            let _ = writeln!(err, "loft: output: {error}");
            2
        }
    }
}

/// Writes a whole text.
fn write_text<W: Write>(text: &str, out: &mut W) -> io::Result<()> {
    out.write_all(text.as_bytes())?;
    out.flush()
}

/// Runs a command, and returns the status.
fn run_command<R: Files + Input + Clock + AllocGlobal, W: Write, X: Write>(
    rt: &R,
    command: &Command<'_>,
    terminals: Terminals,
    out: &mut W,
    err: &mut X,
) -> u8
    ensures { result ≤ 2 }
{
    let mut console = Console::new(out, err, terminals, command.whole);
    let outcome = match written_outcome(rt, command, &mut console) {
        Ok(outcome) => outcome,
        Err(fault) => {
            tell(command.task, &fault, &mut console);
            Outcome {
                found: false,
                faulted: true,
            }
        }
    };
    outcome.status()
}

/// Does what a command asks for, until all is written out.
fn written_outcome<R: Files + Input + Clock + AllocGlobal, W: Write, X: Write>(
    rt: &R,
    command: &Command<'_>,
    console: &mut Console<'_, W, X>,
) -> Result<Outcome, Fault> {
    let outcome = outcome_of(rt, command, console)?;
    console.out.flush()?;
    Ok(outcome)
}

/// Tells a fault of a whole command.
fn tell<W: Write, X: Write>(task: Task<'_>, fault: &Fault, console: &mut Console<'_, W, X>) {
    match task {
        Task::ByPattern { pattern, work: _ } => tell_pattern(pattern, fault, console),
        Task::Explain { pattern } => tell_pattern(pattern, fault, console),
        Task::ByRules { list, work: _ } => tell_list(list, fault, console),
        Task::Manual => console.tell_fault("output", fault),
    }
}

/// Tells a fault of a command with a pattern. A refused pattern is explained.
fn tell_pattern<W: Write, X: Write>(pattern: &str, fault: &Fault, console: &mut Console<'_, W, X>) {
    match fault {
        Fault::Search(error) => {
            let _ = console.err.write_all(b"loft: ");
            let _ = error.explain(pattern, console.err);
        }
        _ => console.tell_fault("output", fault),
    }
}

/// Tells a fault of a command with a list of rules.
fn tell_list<W: Write, X: Write>(list: &str, fault: &Fault, console: &mut Console<'_, W, X>) {
    match fault {
        Fault::Output(_) => console.tell_fault("output", fault),
        _ => console.tell_fault(list, fault),
    }
}
