//! How much a search of a hard pattern keeps: branches that it saved, and a log of what was known of groups before. No call of
//! `fancy_regex` shows it; these are calls of the machine beneath it.

ghost use Rattle.std.specs.Prelude.{◌≡◌, ◌≤◌, length, true};
ghost use Rattle.fancy_meaning.specs.Search.{Query};
ghost use Rattle.fancy_input.specs.Work.{HasRoom, returns_of};
ghost use Rattle.fancy_input.specs.LastLines.{KnowsLastLines};
ghost use Rattle.fancy_machine.specs.Asked.{Asks, HeedsLimit, branches_allowed, groups_held, lines_held};
ghost use Rattle.fancy_trail.specs.Log.{writes_allowed};

use fancy_code::found::Found;
use fancy_input::refusal::SearchRefusal;
use fancy_input::work::Work;
use fancy_machine::asked::Asked;
use fancy_machine::search::{Cache, search};

/// At most one write is kept for each group and each branch that may be saved at one time.
pub fn writes(cache: &Cache) -> usize
    ensures { result ≤ writes_allowed (branches_allowed cache.now) (length (groups_held cache.now)) }
{
    cache.writes()
}

/// A search lets no more branches be saved at one time than its options allow, or than a search before it in the same cache was
/// let.
pub fn heeds(
    asked: &Asked<'_>,
    haystack: &[u8],
    is_kept: bool,
    cache: &mut Cache,
    work: &mut Work,
) -> Result<Option<Found>, SearchRefusal>
    ghost q: { Query }
    requires asks { Asks q asked.now haystack.now }
    requires room { HasRoom (returns_of work.old) asked.now.options.now.backtrack_limit }
    requires kept { is_kept ≡ true → KnowsLastLines haystack.now (lines_held cache.old) }
    ensures heeds { HeedsLimit asked.now.options.now.stack_limit cache.old cache.new }
{
    search(asked, haystack, is_kept, cache, work)
}
