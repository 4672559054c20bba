//! What the tests ask of a builder, of a pattern set and of its tokens, and of commands, and for each kind of call one function that
//! checks it.

mod commands;
mod fact;
mod sets;
mod spans;
mod tokens;
mod verdicts;

pub(crate) use commands::{BrokenRow, CommandRow, check_broken, check_commands, check_deaf};
pub(crate) use fact::check;
pub(crate) use sets::{check_matches_at, searched};
pub(crate) use spans::{Span, check_read, is_part, owned};
pub(crate) use tokens::check_tokens_within;
pub(crate) use verdicts::{Verdict, check_verdict};
