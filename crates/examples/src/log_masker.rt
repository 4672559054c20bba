//! Masks a log line by line: the user of each mail address, and the last part of each IPv4 address.

use anyhow::Result;
use fancy_regex::Regex;
use std::alloc::Global;
use std::borrow::CowStr;
use std::fs;
use std::rt::Files;

/// The text with the users of its mail addresses masked.
fn without_users<'t>(alloc: Global, text: &'t str) -> fancy_regex::Result<CowStr<'t>> {
    let mail = Regex::new(alloc, r"[\w.+-]+@(\w[\w.-]*)")?;
    mail.replace_all(text, "***@$1")
}

/// The text with the last parts of its IPv4 addresses masked.
fn without_hosts<'t>(alloc: Global, text: &'t str) -> fancy_regex::Result<CowStr<'t>> {
    let address = Regex::new(alloc, r"\b(\d{1,3}\.\d{1,3}\.\d{1,3})\.\d{1,3}\b")?;
    address.replace_all(text, "$1.*")
}

/// Prints the line, masked. Each replacement is a function of its own, so that the second may read what the first made.
fn print_masked(rt: &(impl Print + AllocGlobal), line: &str) -> Result<()> {
    let masked = without_users(rt.alloc(), line)?;
    let masked = without_hosts(rt.alloc(), masked.as_str())?;
    println!(rt; "{}", masked.as_str())?;
    Ok(())
}

/// Prints the lines of a file, masked.
pub(crate) fn mask_file(rt: &(impl Print + Files + AllocGlobal), path: &str) -> Result<()> {
    let log = fs::read_to_string(rt, path)?;
    for line in log.as_str().lines() {
        print_masked(rt, line)?;
    }
    Ok(())
}
