//! The line that an offset is in.

ghost use Rattle.std.specs.Prelude.{◌≡◌, ◌≤◌, length, take};
ghost use Rattle.fancy_lines.specs.LineColumns.{since_break, until_break, line_before, line_after};

/// How many bytes follow the last line feed.
fn since_feed(text: &[u8]) -> usize
    ensures value { result ≡ since_break 0 text.now }
    ensures bound { result ≤ length text.now }
{
    let mut count = 0;
    for at in 0..text.len() {
        count = if text[at] == b'\n' { 0 } else { count + 1 };
    }
    count
}

/// How many bytes are before the first line feed.
fn until_feed(text: &[u8]) -> usize
    ensures value { take result text.now ≡ until_break text.now }
    ensures bound { result ≤ length text.now }
{
    for at in 0..text.len() {
        if text[at] == b'\n' {
            return at;
        }
    }
    text.len()
}

/// The line that a byte offset of the text is in, cut there: what stands before the offset, and what follows it up to the line
/// feed. Takes no memory, and time in proportion to the text.
///
/// ```text
/// line_at(b"ab\ncd\n", 4)    // (b"c", b"d")
/// ```
pub fn line_at(text: &[u8], offset: usize) -> (&[u8], &[u8])
    requires { offset ≤ length text.now }
    ensures before { result.0.now ≡ line_before text.now offset }
    ensures after { result.1.now ≡ line_after text.now offset }
{
    let column = since_feed(&text[..offset]);
    let before = &text[offset - column..][..column];
    let rest = &text[offset..];
    (before, &rest[..until_feed(rest)])
}
