//! Attempts at one position, on which the searches of pattern sets rest.

ghost use Rattle.std.specs.Prelude.{◌≡◌, ◌≤◌, ◌+◌, true, false, IfOk, IfErr, IfSome, IfNone};
ghost use Rattle.fancy_bytes.specs.Lacks.{AreKnown};
ghost use Rattle.fancy_input.specs.Work.{steps_of, returns_of, units_of, work_of, IsWithin, IsSpent};
ghost use Rattle.fancy_input.specs.Requests.{effective_start};
ghost use Rattle.fancy_core.specs.Captures.{spans_in, searched_in, found_by};
ghost use Rattle.fancy_core.specs.Limited.{RefusesAt, AllowsAt};
ghost use Rattle.fancy_core.specs.Regexes.{program_in, easy_in, group_count_in, length_in, step_limit_in};
ghost use Rattle.fancy_search.specs.Cached.{IsAttemptIn, found_at};
ghost use Rattle.fancy_search.specs.Programs.{query_in};
ghost use Rattle.fancy_search.specs.Groups.{AreCut, spans_of};
ghost use Rattle.fancy_search.specs.KeptTables.{HoldsSteps, KeepsNotes, is_steps, kept_from, notes_ahead, notes_to_go};
ghost use Rattle.fancy_search.specs.SearchCounts.{IsOutOfSteps};
ghost use Rattle.fancy_tree.specs.declared.error.Error.TheVariants.{Memory};

use crate::captures::Captures;
use crate::regex::Regex;
use fancy_code::found::Found;
use fancy_input::input::Input;
use fancy_input::work::Work;
use fancy_search::asked::Asked;
use fancy_search::cache::{AttemptCache, AttemptNotes, Cache};
use fancy_search::groups::groups_found;
use fancy_tree::error::Result;

/// The match that an attempt at one position finds, or none, without its groups: those are in `cache` then, and [`captures_found`] takes
/// them from there. The position is a byte offset, from the effective start of what is asked to the end of its range. No other position
/// is tried, whether the request is anchored or not, and `\G` may hold at the effective start. A regex that seeks finds nothing at a
/// position that its searches pass over.
///
/// ```text
/// let regex = Regex::new(alloc, "(\\Ga|b)c")?;    // asked of "acbc"
/// find_at(&regex, &asked, 0, &mut notes, &mut cache)?   // 0..2, and group 1 is 0..1 in the cache
/// find_at(&regex, &asked, 1, &mut notes, &mut cache)?   // None
/// find_at(&regex, &asked, 2, &mut notes, &mut cache)?   // 2..4, and group 1 is 2..3 in the cache
/// ```
///
/// `cache` is that of one haystack, and `notes` are those of the regex in it. What attempts before found out is not followed again:
/// each of those with this regex starts where the match before ended, or at the position after, or later. What is done is added to
/// the counts in `cache`, after a refusal what was done up to it.
///
/// It is refused as [`Regex::find_input`] is, for the returns and the branches that the attempt takes. `RegexOptionsBuilder::step_limit`
/// bounds what `cache` has counted, with this attempt.
pub fn find_at(
    regex: &Regex,
    asked: &Asked<'_>,
    position: usize,
    notes: &mut AttemptNotes,
    cache: &mut AttemptCache,
) -> Result<Option<Found>>
    requires starts { effective_start asked.now.request.now ≤ position }
    requires ends { position ≤ asked.now.request.now.range_end }
    requires known { AreKnown cache.old.known asked.now.haystack.now }
    requires notes { KeepsNotes (program_in regex.now)
        asked.now.haystack.now asked.now.request.now position notes.old }
    ensures notes { IfOk result (λ m. KeepsNotes (program_in regex.now)
        asked.now.haystack.now asked.now.request.now (kept_from m position) notes.new) }
    ensures known { AreKnown cache.new.known asked.now.haystack.now }
    ensures bounded { easy_in regex.now ≡ true → steps_of cache.new.work ≤ steps_of cache.old.work
        + notes_to_go (program_in regex.now) asked.now.request.now position notes.old }
    ensures spent { easy_in regex.now ≡ true → IfOk result (λ m. IfNone m
        (steps_of cache.new.work
        + notes_ahead (program_in regex.now) asked.now.request.now (position + 1) notes.new
        ≤ steps_of cache.old.work
        + notes_to_go (program_in regex.now) asked.now.request.now position notes.old)) }
    ensures paired { returns_of cache.old.work ≤ steps_of cache.old.work
        → returns_of cache.new.work ≤ steps_of cache.new.work }
    ensures limit { IsWithin (step_limit_in regex.now) cache.old.work
        → IsWithin (step_limit_in regex.now) cache.new.work }
    ensures limited { IsOutOfSteps result → IsSpent (step_limit_in regex.now) cache.new.work }
    ensures units { easy_in regex.now ≡ true → units_of cache.new.work ≡ units_of cache.old.work }
    ensures grows { work_of cache.old.work ≤ work_of cache.new.work }
    ensures found { IfOk result (λ m.
        IsAttemptIn m cache.new.engines (query_in (program_in regex.now) asked.now) position) }
    ensures refused { IfErr result (λ e.
        RefusesAt regex.now (query_in (program_in regex.now) asked.now) position e) }
    ensures allowed { IfOk result (λ _.
        AllowsAt regex.now (query_in (program_in regex.now) asked.now) position) }
{
    let mut counts = Work::after(&cache.work);
    let found = regex
        .program
        .attempt_at(asked, position, notes, cache, &mut counts);
    cache.work.add_attempt(&counts);
    found
}

/// The match that an attempt at one position finds, as [`find_at`], for lists of attempts each of which starts where a match of some
/// regex ended, as those of tokens do. All of them together take time in proportion to the haystack.
///
/// It is refused as [`find_at`] is.
pub fn find_in_list(
    regex: &Regex,
    asked: &Asked<'_>,
    position: usize,
    notes: &mut AttemptNotes,
    cache: &mut AttemptCache,
) -> Result<Option<Found>>
    requires starts { effective_start asked.now.request.now ≤ position }
    requires ends { position ≤ asked.now.request.now.range_end }
    requires known { AreKnown cache.old.known asked.now.haystack.now }
    requires notes { KeepsNotes (program_in regex.now)
        asked.now.haystack.now asked.now.request.now position notes.old }
    ensures notes { IfOk result (λ m. KeepsNotes (program_in regex.now)
        asked.now.haystack.now asked.now.request.now (kept_from m position) notes.new) }
    ensures known { AreKnown cache.new.known asked.now.haystack.now }
    ensures paired { returns_of cache.old.work ≤ steps_of cache.old.work
        → returns_of cache.new.work ≤ steps_of cache.new.work }
    ensures limit { IsWithin (step_limit_in regex.now) cache.old.work
        → IsWithin (step_limit_in regex.now) cache.new.work }
    ensures limited { IsOutOfSteps result → IsSpent (step_limit_in regex.now) cache.new.work }
    ensures grows { work_of cache.old.work ≤ work_of cache.new.work }
    ensures found { IfOk result (λ m.
        IsAttemptIn m cache.new.engines (query_in (program_in regex.now) asked.now) position) }
    ensures refused { IfErr result (λ e.
        RefusesAt regex.now (query_in (program_in regex.now) asked.now) position e) }
    ensures allowed { IfOk result (λ _.
        AllowsAt regex.now (query_in (program_in regex.now) asked.now) position) }
{
    let mut counts = Work::after(&cache.work);
    let found = regex
        .program
        .attempt_in_list(asked, position, notes, cache, &mut counts);
    cache.work.add_attempt(&counts);
    found
}

/// The match that an attempt at one position finds, as [`find_in_list`], for a regex that is not easy. It goes on with no notes.
///
/// ```text
/// let regex = Regex::new(alloc, "(?<=a)b")?;       // asked of "ab"
/// find_hard(&regex, &asked, 0, &mut cache)?        // None
/// find_hard(&regex, &asked, 1, &mut cache)?        // 1..2
/// ```
///
/// It is refused as [`find_at`] is.
pub fn find_hard(
    regex: &Regex,
    asked: &Asked<'_>,
    position: usize,
    cache: &mut AttemptCache,
) -> Result<Option<Found>>
    requires hard { easy_in regex.now ≡ false }
    requires starts { effective_start asked.now.request.now ≤ position }
    requires ends { position ≤ asked.now.request.now.range_end }
    requires known { AreKnown cache.old.known asked.now.haystack.now }
    ensures known { AreKnown cache.new.known asked.now.haystack.now }
    ensures paired { returns_of cache.old.work ≤ steps_of cache.old.work
        → returns_of cache.new.work ≤ steps_of cache.new.work }
    ensures limit { IsWithin (step_limit_in regex.now) cache.old.work
        → IsWithin (step_limit_in regex.now) cache.new.work }
    ensures limited { IsOutOfSteps result → IsSpent (step_limit_in regex.now) cache.new.work }
    ensures grows { work_of cache.old.work ≤ work_of cache.new.work }
    ensures found { IfOk result (λ m.
        IsAttemptIn m cache.new.engines (query_in (program_in regex.now) asked.now) position) }
    ensures refused { IfErr result (λ e.
        RefusesAt regex.now (query_in (program_in regex.now) asked.now) position e) }
    ensures allowed { IfOk result (λ _.
        AllowsAt regex.now (query_in (program_in regex.now) asked.now) position) }
{
    let mut counts = Work::after(&cache.work);
    let found = regex
        .program
        .attempt_hard(asked, position, cache, &mut counts);
    cache.work.add_attempt(&counts);
    found
}

/// The match that an attempt at one position finds, as [`find_at`], for a regex that is easy and has neither a choice nor a group, where
/// it does not come near a limit of work. `None` elsewhere, and then nothing was done. It goes on with no notes, and leaves none.
///
/// ```text
/// let (text, word) = (Regex::new(alloc, "\\bab")?, Regex::new(alloc, "[a-z]+")?);
/// find_straight(&text, &asked, 0, &mut cache)    // of "ab": Some, and in it the match 0..2
/// find_straight(&text, &asked, 1, &mut cache)    // Some(None)
/// find_straight(&word, &asked, 0, &mut cache)    // None
/// ```
#[inline(always)]
pub fn find_straight(
    regex: &Regex,
    asked: &Asked<'_>,
    position: usize,
    cache: &mut AttemptCache,
) -> Option<Option<Found>>
    requires starts { effective_start asked.now.request.now ≤ position }
    requires ends { position ≤ asked.now.request.now.range_end }
    ensures easy { IfSome result (λ _. easy_in regex.now ≡ true) }
    ensures none { IfNone result (cache.new ≡ cache.old) }
    ensures known { cache.new.known ≡ cache.old.known }
    ensures bounded { steps_of cache.new.work ≤ steps_of cache.old.work + length_in regex.now }
    ensures paired { returns_of cache.old.work ≤ steps_of cache.old.work
        → returns_of cache.new.work ≤ steps_of cache.new.work }
    ensures limit { IsWithin (step_limit_in regex.now) cache.old.work
        → IsWithin (step_limit_in regex.now) cache.new.work }
    ensures units { units_of cache.new.work ≡ units_of cache.old.work }
    ensures grows { work_of cache.old.work ≤ work_of cache.new.work }
    ensures found { IfSome result (λ m.
        IsAttemptIn m cache.new.engines (query_in (program_in regex.now) asked.now) position) }
{
    let (engines, work) = (&mut cache.engines, &mut cache.work);
    regex.program.read_straight(asked, position, engines, work)
}

/// The match that an attempt at one position finds, as [`find_in_list`], where what attempts before found out tells it: no step is
/// counted then, and no limit is met. `None` elsewhere.
pub fn find_told(
    regex: &Regex,
    asked: &Asked<'_>,
    position: usize,
    notes: &AttemptNotes,
    cache: &mut Cache,
) -> Option<Option<Found>>
    requires starts { effective_start asked.now.request.now ≤ position }
    requires ends { position ≤ asked.now.request.now.range_end }
    requires notes { KeepsNotes (program_in regex.now)
        asked.now.haystack.now asked.now.request.now position notes.now }
    ensures easy { IfSome result (λ _. easy_in regex.now ≡ true) }
    ensures found { IfSome result (λ m.
        IsAttemptIn m cache.new (query_in (program_in regex.now) asked.now) position) }
{
    regex.program.find_told(asked, position, notes, cache)
}

/// Leaves what the attempts with a regex in one haystack found out to those in others. The notes are given up. No answer depends on
/// what is left.
pub fn leave_notes(regex: &Regex, notes: Box<AttemptNotes>)
    requires steps { is_steps notes.value.kept ≡ true
        → HoldsSteps (program_in regex.now) notes.value.steps }
{
    regex.program.leave_notes(notes);
}

/// The groups of a match in the haystack that [`find_at`] found, as it left them in `cache`.
///
/// It is refused where memory runs out (`Memory`).
pub fn captures_found<'r, S: Input>(
    regex: &'r Regex,
    haystack: S,
    found: Found,
    cache: &Cache,
) -> Result<Captures<'r, S>>
    requires cut { AreCut (S.text haystack) (S.bytes haystack)
        (spans_of (group_count_in regex.now) (found_at found cache.now)) }
    ensures groups { IfOk result (λ c.
        spans_in c ≡ spans_of (group_count_in regex.now) (found_at found cache.now)) }
    ensures within { IfOk result (λ c. searched_in c ≡ haystack) }
    ensures regex { IfOk result (λ c. found_by c ≡ regex.now) }
    ensures refused { IfErr result (λ e. e ≡ Memory) }
{
    let groups = groups_found(regex.allocator(), &regex.program, found, cache)?;
    Ok(Captures::new(regex, haystack, groups))
}
