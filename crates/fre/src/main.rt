//! Searches texts from the command line: the commands are those of `fre_commands`.
#![tactic(auto)]

use fre_commands::run;
use std::alloc::Global;
use std::io::Write;
use std::process::ExitCode;
use std::rt::Env;
use std::{env, io};

/// The words after the program's name.
fn words(rt: &(impl Env + Alloc<A = Global>)) -> io::Result<Vec<String>> {
    let mut words = Vec::new(rt.alloc());
    for word in env::args(rt)?.skip(1) {
        words.push(word)?;
    }
    Ok(words)
}

/// The name of what kept the words from being read: want of memory, or a word that is not UTF-8, which no command takes.
fn name_of(fault: &io::Error) -> &'static str {
    match fault.kind() {
        io::ErrorKind::OutOfMemory => "Memory",
        _ => "usage",
    }
}

fn main(rt: HostRuntime) -> ExitCode {
    let mut out = io::writer(&rt);
    let mut err = rt.stderr();
    let status = match words(&rt) {
        Ok(words) => run(rt.alloc(), &words, &mut out, &mut err),
        Err(fault) => {
            let name = name_of(&fault);
            let _ = writeln!(err, "error: {name}");
            2
        }
    };
    ExitCode::from(status)
}
