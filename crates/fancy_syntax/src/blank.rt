//! What is skipped between the items of a pattern: comments, and under flag `x` blanks and lines after `#`.

ghost use Rattle.std.specs.Prelude.{◌≡◌, ◌≤◌, ◌<◌, IfSome, option_map, length};
ghost use Rattle.fancy_syntax.specs.Blanks.{past_line, past_comment, past_blank};
ghost use Rattle.fancy_syntax.specs.Grammar.{past_blanks};

/// What follows the line that stands first, with its end.
fn past_line(text: &[char]) -> &[char]
    ensures { result.now ≡ past_line text.now }
{
    for (i, c) in text.iter().enumerate() {
        if *c == '\n' {
            return &text[i + 1..];
        }
    }
    &[]
}

/// What follows the next `)`, if there is one.
fn past_comment(text: &[char]) -> Option<&[char]>
    ensures { option_map (λ r. r.now) result ≡ past_comment text.now }
{
    for (i, c) in text.iter().enumerate() {
        if *c == ')' {
            return Some(&text[i + 1..]);
        }
    }
    None
}

/// What follows the blank or comment that stands first, if one does.
fn past_blank(text: &[char], ignore_blanks: bool) -> Option<&[char]>
    ensures { option_map (λ r. r.now) result ≡ past_blank ignore_blanks text.now }
{
    match text {
        [' ' | '\t' | '\n' | '\r', after @ ..] if ignore_blanks => Some(after),
        ['#', line @ ..] if ignore_blanks => Some(past_line(line)),
        ['(', '?', '#', comment @ ..] => past_comment(comment),
        _ => None,
    }
}

/// What follows the blanks and comments that stand first; a comment that is not closed is left.
pub(crate) fn past_blanks(text: &[char], ignore_blanks: bool) -> &[char]
    ensures value { result.now ≡ past_blanks ignore_blanks text.now }
    ensures shorter { length result.now ≤ length text.now }
{
    let mut rest = text;
    while let Some(after) = past_blank(rest, ignore_blanks) {
        rest = after;
    }
    rest
}
