//! Where only line ends follow, up to the haystack's end.

ghost use Rattle.std.specs.Prelude.{◌≡◌, ◌<◌, ◌≤◌, drop, false, length, None, IfSome};
ghost use Rattle.fancy_input.specs.Lines.{are_line_feeds, are_line_ends};
ghost use Rattle.fancy_input.specs.LastLines.{ends_only, Told, KnowsLastLines};

/// The place after the line end at a place: a line feed, or where a carriage return ends lines too, perhaps one
/// before it. `None` where something else is there.
fn past_line_end(haystack: &[u8], crlf: bool, place: usize) -> Option<usize>
    requires { place < length haystack.now }
    ensures past { IfSome result (λ past. ends_only crlf (drop place haystack.now) ≡ ends_only crlf (drop past haystack.now)) }
    ensures forth { IfSome result (λ past. place < past) }
    ensures other { result ≡ None → ends_only crlf (drop place haystack.now) ≡ false }
{
    match &haystack[place..] {
        [b'\n', ..] => Some(place + 1),
        [b'\r', b'\n', ..] if crlf => Some(place + 2),
        _ => None,
    }
}

/// At which places only line ends follow, as far as the haystack was read: what was read once is not read again.
/// Places are byte offsets.
#[derive(Clone, Copy, PartialEq, Eq, Debug)]
struct Row {
    /// At no place before this one.
    none_before: usize,
    /// At each place from this one on.
    all_from: usize,
}

impl Row {
    /// Nothing was read so far.
    fn new(haystack: &[u8], crlf: bool) -> Row
        ensures { Told (ends_only crlf) haystack.now result }
    {
        Row {
            none_before: 0,
            all_from: haystack.len(),
        }
    }

    /// Whether only line ends, or nothing, follow at a place.
    fn is_followed(&mut self, haystack: &[u8], crlf: bool, place: usize) -> bool
        requires { Told (ends_only crlf) haystack.now self.old }
        ensures only { result ≡ ends_only crlf (drop place haystack.now) }
        ensures told { Told (ends_only crlf) haystack.now self.new }
    {
        if place >= self.all_from {
            return true;
        }
        if place < self.none_before {
            return false;
        }
        let mut at = place;
        while at < self.all_from {
            match past_line_end(haystack, crlf, at) {
                Some(past) => at = past,
                None => {
                    self.none_before = at + 1;
                    return false;
                }
            }
        }
        self.all_from = place;
        true
    }
}

/// What a search has read of the line ends that close its haystack.
#[derive(Clone, Copy, PartialEq, Eq, Debug)]
pub struct LastLines {
    feeds: Row,
    ends: Row,
}

impl LastLines {
    /// Nothing was read so far.
    pub fn new(haystack: &[u8]) -> LastLines
        ensures { KnowsLastLines haystack.now result }
    {
        LastLines {
            feeds: Row::new(haystack, false),
            ends: Row::new(haystack, true),
        }
    }

    /// Whether only line feeds, or nothing, follow at a place, a byte offset.
    pub fn is_last_line(&mut self, haystack: &[u8], place: usize) -> bool
        requires { KnowsLastLines haystack.now self.old }
        ensures last { result ≡ are_line_feeds (drop place haystack.now) }
        ensures known { KnowsLastLines haystack.now self.new }
    {
        self.feeds.is_followed(haystack, false, place)
    }

    /// Whether only line feeds, each perhaps after a carriage return, or nothing, follow at a place, a byte offset.
    pub fn is_last_line_crlf(&mut self, haystack: &[u8], place: usize) -> bool
        requires { KnowsLastLines haystack.now self.old }
        ensures last { result ≡ are_line_ends (drop place haystack.now) }
        ensures known { KnowsLastLines haystack.now self.new }
    {
        self.ends.is_followed(haystack, true, place)
    }
}
