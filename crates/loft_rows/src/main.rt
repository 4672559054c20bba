//! Runs the command lines of the input, their words parted by tabs, over the files of this folder: prints what each writes to both
//! of its writers, and its status.
#![tactic(auto)]

use loft_commands::{Terminals, run};
use std::io;

/// No stream of a row is a terminal.
const NONE: Terminals = Terminals {
    output: false,
    error: false,
};

/// Runs one command line.
fn run_line(rt: &HostRuntime, line: &str) -> io::Result<()> {
    println!(rt; "$ {line}")?;
    let mut words = Vec::new(rt.alloc());
    words.push(String::from_str(rt.alloc(), "loft")?)?;
    for word in line.split("\t") {
        words.push(String::from_str(rt.alloc(), word)?)?;
    }
    let mut out = io::writer(rt);
    let mut err = io::writer(rt);
    let status = run(rt, &words, NONE, &mut out, &mut err);
    println!(rt; "status {status}")
}

fn main(rt: HostRuntime) -> io::Result<()> {
    for line in rt.lines(rt.alloc()) {
        run_line(&rt, line?.as_str())?;
    }
    Ok(())
}
