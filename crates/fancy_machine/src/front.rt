//! Positions that a search passes over together: attempts there come into the run of items that was read last.

ghost use Rattle.std.specs.Prelude.{◌≡◌, ◌≤◌, ◌^◌, ℕ, IfSome};
ghost use Rattle.fancy_machine.specs.Front.{MayPass, StandsInRun, returns_over};
ghost use Rattle.fancy_machine.specs.Runs.{KnowsRun};

use crate::attempt::Attempt;
use crate::runs::{LastRun, may_begin, may_leave};
use fancy_splits::front::Front;

/// How many positions are passed over together at most.
const MOST: usize = 1 << 30;

/// How many items of the loop stand from a position within the run that was read last, up to the end, where nothing goes on: past them
/// no further item stands, and what follows the loop goes on neither there nor where an item stands.
fn items_of_dead_run(
    attempt: &Attempt,
    front: Front,
    last_run: LastRun,
    end: usize,
    position: usize,
) -> Option<usize>
    requires known { KnowsRun attempt.now.splits.now attempt.now.haystack.now last_run }
    ensures { IfSome result (λ n. StandsInRun attempt.now front end position n) }
{
    let past = last_run.past_of(front.at, position)?;
    let split = attempt.splits.at(front.at)?;
    if past > end || !split.apart || split.group.is_some() {
        return None;
    }
    if may_begin(split, attempt.haystack, past) || may_leave(split, attempt.haystack, past) {
        return None;
    }
    Some(past - position)
}

/// How many positions may be passed over from one on: attempts there find nothing, and what they count is told. There are none where
/// the first attempt would save more branches than may be saved at one time.
#[inline(never)]
pub(crate) fn positions_to_pass(
    attempt: &Attempt,
    front: Front,
    last_run: LastRun,
    end: usize,
    position: usize,
) -> Option<usize>
    requires known { KnowsRun attempt.now.splits.now attempt.now.haystack.now last_run }
    ensures { IfSome result (λ n. MayPass attempt.now front end position n) }
{
    let items = items_of_dead_run(attempt, front, last_run, end, position)?;
    if attempt.options.on_boundaries && !front.whole {
        return None;
    }
    if items > MOST || front.before.marks as usize + items > attempt.options.stack_limit {
        return None;
    }
    Some(items)
}

/// The returns of attempts at so many items, the last ones of a run, where the choices before the loop take so many.
pub(crate) fn returns_over(before: u8, items: usize) -> usize
    requires { items ≤ 2 ^ 30 }
    ensures { result ≡ returns_over before items }
{
    let mut returns = 0usize;
    'items: for more in 0..items {
        returns += before as usize + more + 1;
    }
    returns
}
