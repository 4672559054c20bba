//! Examples to copy from. Four are programs, each a module, run over the files of `data`. The others are the functions that the README
//! and the guide show (`searches`, `texts`), and those of the page on callers (`callers`). The status is 1 where the lint rule finds a
//! place.
#![tactic(auto)]

mod callers;
mod highlighter;
mod lint_rule;
mod log_masker;
mod pre_tokeniser;
mod searches;
mod texts;

use anyhow::Result;
use std::process::ExitCode;

fn main(rt: HostRuntime) -> Result<ExitCode> {
    searches::show(&rt)?;
    texts::show(&rt)?;
    callers::show(&rt)?;
    highlighter::highlight_file(&rt, "source.txt")?;
    log_masker::mask_file(&rt, "mail.log")?;
    pre_tokeniser::cut_file(&rt, "questions.txt")?;
    let count = lint_rule::check_file(&rt, "prose.txt")?;
    Ok(ExitCode::from(u8::from(count > 0)))
}
