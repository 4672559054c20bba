//! Patterns that mean a text as it is.

ghost use Rattle.std.specs.Prelude.{◌≡◌, ◌↔◌, ◌++◌, false, chars, IfOk, IfErr, OnOk, string_bytes, encode_utf8_all, flat_map};
ghost use Rattle.std.specs.Cow.{cow_str_bytes, IsBorrowedStr};
ghost use Rattle.fancy_regex.specs.Escapes.{is_special, has_special, escaped_character, escape_of};

use fancy_tree::error::{Error, Result};
use std::alloc::{AllocError, Global};
use std::borrow::CowStr;

/// The text with an escape for each character that means something in a pattern.
///
/// Where it has none of `\ . + * ? ( ) | [ ] { } ^ $ #`, the text is given back as it is. Else each of
/// these gets a backslash, and line feeds, tabs and carriage returns become `\n`, `\t` and `\r`.
///
/// With the default options the regex of it finds the text itself and nothing else (the law
/// [`crate::laws::escapes_find_their_text`]). Under flag `x` a space in the text is passed over, so the regex does not find
/// the text.
///
/// ```text
/// escape(alloc, "@foo")   // borrowed
/// escape(alloc, "fø*ø")   // fø\*ø
/// ```
pub fn escape(alloc: Global, text: &str) -> Result<CowStr<'_, Global>>
    ensures value { IfOk result (λ r. cow_str_bytes r ≡ escape_of text.now) }
    ensures borrowed { IfOk result (λ r. IsBorrowedStr r ↔ (has_special (chars text.now) ≡ false)) }
    ensures refused { IfErr result (λ e. e ≡ Error.Memory) }
{
    if !text.chars().any(is_special) {
        return Ok(CowStr::Borrowed(text));
    }
    let mut escaped = String::new(alloc);
    for c in text.chars() {
        push_escaped(&mut escaped, c)?;
    }
    Ok(CowStr::Owned(escaped))
}

/// Whether a character means something in a pattern.
#[tactic(auto, unfolding(crate::specs::Escapes::is_special))]
fn is_special(c: char) -> bool
    ensures { result ≡ is_special c }
{
    matches!(
        c,
        '\\' | '.' | '+' | '*' | '?' | '(' | ')' | '|' | '[' | ']' | '{' | '}' | '^' | '$' | '#'
    )
}

#[tactic(auto, unfolding(crate::specs::Escapes::escaped_character))]
fn push_escaped(escaped: &mut String, c: char) -> std::result::Result<(), AllocError>
    ensures { OnOk result (string_bytes escaped.new
        ≡ string_bytes escaped.old ++ encode_utf8_all (escaped_character c)) }
{
    match c {
        '\n' => escaped.push_str("\\n"),
        '\t' => escaped.push_str("\\t"),
        '\r' => escaped.push_str("\\r"),
        _ => {
            if is_special(c) {
                escaped.push('\\')?;
            }
            escaped.push(c)
        }
    }
}
