//! What ends the lines of a haystack, by its bytes.

ghost use Rattle.std.specs.Prelude.{◌≡◌, ◌||◌, ◌&&◌, not, slice_get};
ghost use Rattle.fancy_input.specs.Lines.{is_line_feed, is_carriage_return, byte_before};

/// The byte at a place; none at the end.
pub fn byte_at(haystack: &[u8], place: usize) -> Option<u8>
    ensures { result ≡ slice_get haystack.now place }
{
    haystack.get(place).copied()
}

/// The byte before a place; none at the start.
pub fn byte_before(haystack: &[u8], place: usize) -> Option<u8>
    ensures { result ≡ byte_before haystack.now place }
{
    if place == 0 {
        None
    } else {
        byte_at(haystack, place - 1)
    }
}

/// Whether this is a line feed.
pub fn is_line_feed(byte: Option<u8>) -> bool
    ensures { result ≡ is_line_feed byte }
{
    matches!(byte, Some(b'\n'))
}

/// Whether this is a carriage return.
pub fn is_carriage_return(byte: Option<u8>) -> bool
    ensures { result ≡ is_carriage_return byte }
{
    matches!(byte, Some(b'\r'))
}

/// Whether a line starts between these two bytes, where a carriage return ends lines too.
pub fn starts_line_crlf(before: Option<u8>, at: Option<u8>) -> bool
    ensures { result ≡ (is_line_feed before || (is_carriage_return before && not (is_line_feed at))) }
{
    match before {
        Some(b'\n') => true,
        Some(b'\r') => !is_line_feed(at),
        _ => false,
    }
}

/// Whether a line ends between these two bytes, where a carriage return ends lines too.
pub fn ends_line_crlf(before: Option<u8>, at: Option<u8>) -> bool
    ensures { result ≡ (is_carriage_return at || (is_line_feed at && not (is_carriage_return before))) }
{
    match at {
        Some(b'\r') => true,
        Some(b'\n') => !is_carriage_return(before),
        _ => false,
    }
}
