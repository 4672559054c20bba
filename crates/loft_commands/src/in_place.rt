//! Files that are rewritten in place.

use crate::replace::Gather;
use crate::rewrite::Rewrite;
use loft_files::{DiskStore, put_in_place};
use loft_texts::{Console, Fault, Outcome, TextWork, each_text, is_standard_input};
use std::fs::{self, Metadata};
use std::io::{Input, Write};
use std::rt::Files;
use std::time::Clock;

/// Rewrites each file in place. One with a fault is named, and the next one is done.
pub(crate) fn replace_in_place<R: Files + Input + Clock + AllocGlobal, W: Write, X: Write>(
    rt: &R,
    files: &[&str],
    rewrite: Rewrite<'_>,
    console: &mut Console<'_, W, X>,
) -> Outcome {
    let mut outcome = Outcome::new();
    for file in files {
        match replace_file(rt, file, rewrite, console) {
            Ok(found) => outcome.found = outcome.found || found,
            Err(fault) => {
                console.tell_fault(file, &fault);
                outcome.faulted = true;
            }
        }
    }
    outcome
}

/// Rewrites a file in place, where something in it is replaced. Whether something was.
fn replace_file<R: Files + Input + Clock + AllocGlobal, W: Write, X: Write>(
    rt: &R,
    file: &str,
    rewrite: Rewrite<'_>,
    console: &mut Console<'_, W, X>,
) -> Result<bool, Fault> {
    if is_standard_input(file) {
        return Err(Fault::InPlace);
    }
    let before = fs::metadata(rt, file).map_err(Fault::Input)?;
    let mut work = Gather::new(rewrite, Vec::new(rt.alloc()));
    each_text(rt, file, &mut work, console)?;
    if work.found() {
        put(rt, file, before, &work.bytes)?;
    }
    Ok(work.found())
}

/// Puts bytes in the place of what a file holds, which was looked at before it was read.
fn put<R: Files + AllocGlobal>(
    rt: &R,
    file: &str,
    before: Metadata,
    bytes: &[u8],
) -> Result<(), Fault> {
    let mut store = DiskStore::new(rt.alloc(), rt, file, before)?;
    put_in_place(&mut store, bytes).map_err(Fault::Input)
}
