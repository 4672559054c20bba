//! Searches and changes files from the command line: the commands are those of `loft_commands`.
#![tactic(auto)]

use loft_commands::{Terminals, run};
use std::alloc::Global;
use std::io::{BufWriter, IsTerminal, Write};
use std::process::ExitCode;
use std::rt::Env;
use std::{env, io};

/// All words of the command line, the program's name first.
fn words(rt: &(impl Env + Alloc<A = Global>)) -> io::Result<Vec<String>> {
    let mut words = Vec::new(rt.alloc());
    for word in env::args(rt)? {
        words.push(word)?;
    }
    Ok(words)
}

/// Runs what the words ask for, and returns its status; the fault where there is no memory for its output.
fn status_of(rt: &HostRuntime, words: &[String]) -> io::Result<u8> {
    let mut out = BufWriter::with_capacity(rt.alloc(), 65_536, io::writer(rt))?;
    let mut err = rt.stderr();
    let terminals = Terminals {
        output: rt.stdout().is_terminal(),
        error: err.is_terminal(),
    };
    Ok(run(rt, words, terminals, &mut out, &mut err))
}

/// Tells a fault, and returns its status.
fn tell(rt: &HostRuntime, what: &str, error: &io::Error) -> u8 {
    let _ = writeln!(rt.stderr(), "loft: {what}: {error}");
    2
}

fn main(rt: HostRuntime) -> ExitCode {
    let status = match words(&rt) {
        Ok(words) => status_of(&rt, &words).unwrap_or_else(|error| tell(&rt, "output", &error)),
        Err(error) => tell(&rt, "words", &error),
    };
    ExitCode::from(status)
}
