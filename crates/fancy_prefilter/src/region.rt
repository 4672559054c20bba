//! The part of a haystack in which a match may be that goes on to a text, a row of sets or the end of the text.

ghost use Rattle.std.specs.Prelude.{◌≡◌, ◌≤◌, ◌<◌, ◌+◌, ◌-◌, ℕ, None, length, IfSome};
ghost use Rattle.fancy_prefilter.specs.Regions.{EndsRegion, StandsAhead};

use crate::reach::{Reach, Target};
use memchr::memmem;

/// It goes back over so many bytes at most. Where a match may have all of them, it may begin anywhere.
const FAR: usize = 256;

/// Whether it is worth to look for a target from a place on: for a row that texts do not have seldom where the text is long, and for the end
/// of the text where much is left of it.
pub(crate) fn is_worth_looking(reach: &Reach, from: usize, end: usize) -> bool {
    match &reach.target {
        Target::Text(_) => true,
        Target::Row(row) => row.is_rare || end > FAR,
        Target::TextEnd => end.saturating_sub(from) > FAR,
    }
}

/// The first place, from one on and up to the end, at which the target stands.
fn next_target(target: &Target, haystack: &[u8], from: usize, end: usize) -> Option<usize>
    requires ordered { from ≤ end }
    requires within { end ≤ length haystack.now }
    ensures none { result ≡ None → ¬ StandsAhead target.now haystack.now from end }
    ensures passed { IfSome result (λ place. from ≤ place) }
    ensures inside { IfSome result (λ place. place ≤ end) }
    ensures first { IfSome result (λ place.
        (edge : ℕ) → from ≤ edge → edge < place → ¬ StandsAhead target.now haystack.now from edge) }
{
    match target {
        Target::Text(text) => {
            let found = memmem::find(&haystack[from..end], text)?;
            Some(from + found)
        }
        Target::Row(row) => row.window.next_seen(haystack, from, end),
        Target::TextEnd => {
            if end < haystack.len() {
                return None;
            }
            Some(end)
        }
    }
}

/// The first place, from one on, from which a match may go on to the target, and the place of that, both byte offsets. `None` where the
/// target stands nowhere from there on and before the end.
///
/// ```text
/// next_region(&reach, b"to: joe@x.org", 0, 13)    // of `[a-z]+@x` Some(4, 7)
/// next_region(&reach, b"to: joe", 0, 7)           // None
/// next_region(&reach, b"to: joe", 0, 7)           // of `[a-z]+$` Some(4, 7)
/// ```
pub(crate) fn next_region(
    reach: &Reach,
    haystack: &[u8],
    from: usize,
    end: usize,
) -> Option<(usize, usize)>
    requires ordered { from ≤ end }
    requires within { end ≤ length haystack.now }
    ensures none { result ≡ None → ¬ StandsAhead reach.now.target haystack.now from end }
    ensures passed { IfSome result (λ r. from ≤ r.0) }
    ensures before { IfSome result (λ r. r.0 ≤ r.1) }
    ensures inside { IfSome result (λ r. r.1 ≤ end) }
    ensures region { IfSome result (λ r. from < r.0
        → EndsRegion reach.now haystack.now from (r.0 - 1)) }
{
    let target = next_target(&reach.target, haystack, from, end)?;
    let farthest = target.saturating_sub(FAR).max(from);
    let mut start = target;
    while start > farthest {
        if !reach.may_have(haystack[start - 1]) {
            return Some((start, target));
        }
        start -= 1;
    }
    Some((from, target))
}
