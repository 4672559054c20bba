//! Why a pattern, or a search by it, is refused, in the words of `explain`.

use crate::builds::{regex_of, set_of};
use crate::cases::Asked;
use crate::fields::{write_bytes, write_text};
use fancy_regex::{Error, Explain, RegexInput, Result, Tokens};
use std::io;

/// What refuses the pattern of the line, or the search of its text as bytes.
fn refusal(asked: Asked<'_>) -> Result<()> {
    let regex = regex_of(asked)?;
    let _found = regex.find_input(RegexInput::new(asked.text.as_bytes()))?;
    Ok(())
}

/// What refuses a token of a list, the first that does.
fn refusal_in(tokens: &mut Tokens<'_, &[u8]>) -> Result<()> {
    for token in tokens {
        let _token = token?;
    }
    Ok(())
}

/// What refuses the patterns of the line, or a token of its text as bytes.
fn refusal_of_tokens(asked: Asked<'_>) -> Result<()> {
    let set = set_of(asked)?;
    refusal_in(&mut set.tokens(RegexInput::new(asked.text.as_bytes())))
}

/// Writes what `explain` says of a refusal, as bytes.
fn write_explanation<W: io::Write>(error: &Error, asked: Asked<'_>, out: &mut W) {
    let mut explanation = Vec::new(asked.alloc);
    let _ = error.explain(asked.pattern(), &mut explanation);
    write_bytes(&explanation, out);
}

/// The explanation of the refusal of the pattern, or of a search or a list of tokens, where there is one.
pub(crate) fn explain<W: io::Write>(asked: Asked<'_>, out: &mut W) {
    let refused = match asked.call {
        "explain" => refusal(asked),
        _ => refusal_of_tokens(asked),
    };
    match refused {
        Ok(()) => write_text("none", out),
        Err(error) => write_explanation(&error, asked, out),
    }
    write_text("|", out);
}
