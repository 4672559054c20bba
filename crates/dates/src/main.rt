//! Prints the dates in the texts that it is given, each with its year.
#![tactic(auto)]

use anyhow::Result;
use fancy_regex::{Regex, RegexInput};
use std::env;

const DATE: &str = "(?<year>\\d{4})-(?<month>\\d\\d)-(?<day>\\d\\d)";

/// Prints each date of the text on a line of its own: its byte offsets, its text and its year.
fn print_dates(rt: &impl Print, date: &Regex, text: &str) -> Result<()> {
    let input = RegexInput::new(text);
    if !date.can_search(&input) {
        return Ok(());
    }
    for captures in date.captures_iter_input(input) {
        let captures = captures?;
        if let (Some(found), Some(year)) = (captures.get(0), captures.name("year")) {
            let (start, end) = (found.start(), found.end());
            println!(rt; "{start}..{end} {} in {}", found.as_str(), year.as_str())?;
        }
    }
    Ok(())
}

fn main(rt: HostRuntime) -> Result<()> {
    let date = Regex::new(rt.alloc(), DATE)?;
    for text in env::args(&rt)?.skip(1) {
        print_dates(&rt, &date, text.as_str())?;
    }
    Ok(())
}
