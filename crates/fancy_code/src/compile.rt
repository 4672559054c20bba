//! From a pattern to its code, from the end to the start, so that each instruction is told where it goes on.

ghost use Rattle.std.specs.Prelude.{◌≡◌, ℕ, List, ◌+◌, ◌*◌, ◌^◌, ◌<◌, ◌≤◌, IfOk, map, sum_by, true, length};
ghost use Rattle.fancy_tree.specs.Pattern.{pattern_of, group, repeat, look_ahead, look_behind, atomic, in_sequence, in_choice};
ghost use Rattle.fancy_tree.specs.declared.tree.RepeatKind.TheVariants.{Possessive};
ghost use Rattle.fancy_tree.specs.Sizes.{nodes};
ghost use Rattle.fancy_code.specs.Code.{instrs_of};
ghost use Rattle.fancy_code.specs.CodeLength.{code_len};
ghost use Rattle.fancy_code.specs.Instructions.{with_set, is_known};
ghost use Rattle.fancy_code.specs.Emitted.{Emits, Appends, emitted, len_of};
ghost use Rattle.fancy_tree.specs.GroupNumbers.{Numbered};
ghost use Rattle.fancy_code.specs.Compile.{CopiesEmitted, OptionalsEmitted, StarEmitted, TestEmitted, BackEmitted, BehindEmitted, IsCodeOf, IsCompiled, StaysEasy, are_easy, split_of, look_of};
ghost use Rattle.fancy_meaning.specs.Easy.{kind_of, is_easy};

use crate::choosing::with_choices;
use crate::classify::is_easy;
use crate::code::{Code, Entry, FAIL, Instr, MATCH};
use crate::emitter::Emitter;
use crate::prefilter::with_starts;
use fancy_prefilter::prefilter::{Anchor, Prefilter};
use fancy_prefilter::reach::{Reach, Target};
use fancy_tree::char_set::CharSet;
use fancy_tree::measure::are_empty;
use fancy_tree::set::Set;
use fancy_tree::tree::{Meaning, RepeatKind, Tree};
use std::alloc::{AllocError, Global};

/// How many turns a repeat makes: at least `low`, and at most `high` where that is set.
#[derive(Clone, Copy)]
struct Turns {
    low: u32,
    high: Option<u32>,
}

impl Turns {
    /// At least so many, and no more than the other, if there is one.
    fn new(low: u32, high: Option<u32>) -> Turns
        ensures low { result.low ≡ low }
        ensures high { result.high ≡ high }
    {
        Turns { low, high }
    }
}

/// A choice between one more turn and none.
fn split(greedy: bool, more: usize, less: usize) -> Instr
    ensures instr { (sets : List CharSet) → with_set sets result ≡ split_of greedy more less }
    ensures known { (n : ℕ) → is_known n result ≡ true }
{
    if greedy {
        Instr::Split(more, less)
    } else {
        Instr::Split(less, more)
    }
}

/// The start of a look-around.
fn look(negated: bool, behind: bool, body: usize, next: usize) -> Instr
    ensures instr { (sets : List CharSet)
        → with_set sets result ≡ look_of negated behind body next }
    ensures known { (n : ℕ) → is_known n result ≡ true }
{
    if negated {
        Instr::Deny(behind, body, next)
    } else {
        Instr::Look(behind, body, next)
    }
}

/// Appends the code of a pattern that goes on at `next`, and returns where it begins.
#[cycle(emit)]
#[tactic(auto, using(fancy_tree::proofs::PatternLemmas::pattern_equations), unfolding(fancy_tree::specs::Sizes::nodes))]
fn emit(code: &mut Emitter, meaning: Meaning, tree: &Tree, next: Entry) -> Result<Entry, AllocError>
    requires small { nodes (pattern_of tree.now) < 2 ^ 64 }
    ensures { IfOk result (λ entry.
        Emits meaning (pattern_of tree.now) code.old code.new next entry) }
{
    let Entry { moved, still } = next;
    match tree {
        Tree::Empty => Ok(next),
        Tree::Character(c) => code.put_shared(Instr::Character(*c, moved)),
        Tree::Member(set) | Tree::InAnyCase(set) => code.put_member(meaning, set, next),
        Tree::RawByte(byte) => code.put_shared(Instr::RawByte(*byte, moved)),
        Tree::Assertion(a) => code.put_both(Instr::Assert(*a, moved), Instr::Assert(*a, still)),
        Tree::Group { index, body } => emit_group(code, meaning, *index, body, next),
        Tree::Repeat {
            low,
            high,
            kind,
            body,
        } => emit_kind(code, meaning, *kind, Turns::new(*low, *high), body, next),
        Tree::Concat(parts) => emit_sequence(code, meaning, parts, next),
        Tree::Alternation(branches) => emit_choice(code, meaning, branches, next),
        Tree::Backreference { folded, group } => code.put_recall(meaning, *folded, *group, next),
        Tree::GroupTest(number) => code.put_both(
            Instr::Taken(*number, moved),
            Instr::Taken(*number, still),
        ),
        Tree::KeepStart => code.put_both(Instr::Keep(moved), Instr::Keep(still)),
        Tree::ContinueHere => code.put_both(Instr::Continue(moved), Instr::Continue(still)),
        Tree::LookAhead { negated, body } => { emit_ahead(code, meaning, *negated, body, next) }
        Tree::Atomic(body) => emit_atomic(code, meaning, body, next),
        Tree::Conditional {
            condition,
            on_match,
            otherwise,
        } => {
            if are_empty(on_match, otherwise) {
                return emit_atomic(code, meaning, condition, next);
            }
            let one = emit(code, meaning, on_match, next)?;
            let two = emit(code, meaning, otherwise, next)?;
            let entry = emit_condition(code, meaning, condition, one, two)?;
            Ok(entry)
        }
        Tree::LookBehind { negated, body } => { emit_behind(code, meaning, *negated, body, next) }
    }
}

/// Appends the code of a group.
#[cycle(emit)]
#[tactic(auto, unfolding(fancy_tree::specs::Sizes::nodes))]
fn emit_group(
    code: &mut Emitter,
    meaning: Meaning,
    index: usize,
    body: &Tree,
    next: Entry,
) -> Result<Entry, AllocError>
    requires small { nodes (group index (pattern_of body.now)) < 2 ^ 64 }
    ensures { IfOk result (λ entry.
        Emits meaning (group index (pattern_of body.now)) code.old code.new next entry) }
{
    let close = code.put_both(
        Instr::Close(index, next.moved),
        Instr::Close(index, next.still),
    )?;
    let inner = emit(code, meaning, body, close)?;
    let entry = code.put_both(
        Instr::Open(index, inner.moved),
        Instr::Open(index, inner.still),
    )?;
    Ok(entry)
}

/// Appends the code of an atomic group.
#[cycle(emit)]
#[tactic(auto, unfolding(fancy_tree::specs::Sizes::nodes))]
fn emit_atomic(
    code: &mut Emitter,
    meaning: Meaning,
    body: &Tree,
    next: Entry,
) -> Result<Entry, AllocError>
    requires small { nodes (atomic (pattern_of body.now)) < 2 ^ 64 }
    ensures { IfOk result (λ entry.
        Emits meaning (atomic (pattern_of body.now)) code.old code.new next entry) }
{
    let close = code.put_both(Instr::Commit(next.moved), Instr::Commit(next.still))?;
    let inner = emit(code, meaning, body, close)?;
    let entry = code.put_both(Instr::Enter(inner.moved), Instr::Enter(inner.still))?;
    Ok(entry)
}

/// Appends the code of a look-ahead.
#[cycle(emit)]
#[tactic(auto, unfolding(fancy_tree::specs::Sizes::nodes))]
fn emit_ahead(
    code: &mut Emitter,
    meaning: Meaning,
    negated: bool,
    body: &Tree,
    next: Entry,
) -> Result<Entry, AllocError>
    requires small { nodes (look_ahead negated (pattern_of body.now)) < 2 ^ 64 }
    ensures { IfOk result (λ entry.
        Emits meaning (look_ahead negated (pattern_of body.now)) code.old code.new next entry) }
{
    let stop = Entry {
        moved: MATCH,
        still: MATCH,
    };
    let inner = emit(code, meaning, body, stop)?;
    let entry = code.put_both(
        look(negated, false, inner.moved, next.moved),
        look(negated, false, inner.moved, next.still),
    )?;
    Ok(entry)
}

/// Appends the code of a look-behind.
#[cycle(emit)]
#[tactic(auto, unfolding(fancy_tree::specs::Sizes::nodes))]
fn emit_behind(
    code: &mut Emitter,
    meaning: Meaning,
    negated: bool,
    body: &Tree,
    next: Entry,
) -> Result<Entry, AllocError>
    requires small { nodes (look_behind negated (pattern_of body.now)) < 2 ^ 64 }
    ensures { IfOk result (λ entry.
        Emits meaning (look_behind negated (pattern_of body.now)) code.old code.new next entry) }
{
    let start = emit_backward(code, meaning, body)?;
    let entry = code.put_both(
        look(negated, true, start, next.moved),
        look(negated, true, start, next.still),
    )?;
    Ok(entry)
}

/// Appends the code of a look-behind's body, and returns where it begins. Each branch of an alternative goes back by
/// its own size.
#[cycle(emit)]
#[tactic(auto, using(fancy_tree::proofs::PatternLemmas::pattern_equations), unfolding(fancy_tree::specs::Sizes::nodes))]
fn emit_backward(code: &mut Emitter, meaning: Meaning, body: &Tree) -> Result<usize, AllocError>
    requires small { nodes (pattern_of body.now) < 2 ^ 64 }
    ensures means { IfOk result (λ start.
        BehindEmitted meaning (pattern_of body.now) (len_of code.old) (emitted code.new) start) }
    ensures grows { IfOk result (λ _.
        Appends (4 * nodes (pattern_of body.now) + 1) code.old code.new) }
{
    match body {
        Tree::Concat(parts) => match parts.as_slice() {
            [] => {
                let empty = emit_back(code, meaning, body)?;
                Ok(empty)
            }
            [only] => {
                let start = emit_backward(code, meaning, only)?;
                Ok(start)
            }
            _ => {
                let start = emit_back(code, meaning, body)?;
                Ok(start)
            }
        },
        Tree::Alternation(branches) => {
            if branches.is_empty() {
                let nothing = emit_back(code, meaning, body)?;
                return Ok(nothing);
            }
            let start = emit_backward_choice(code, meaning, branches)?;
            Ok(start)
        }
        _ => {
            let start = emit_back(code, meaning, body)?;
            Ok(start)
        }
    }
}

/// Appends the code of branches that go back each by its own size, the last one first.
#[cycle(emit)]
fn emit_backward_choice(
    code: &mut Emitter,
    meaning: Meaning,
    branches: &[Tree],
) -> Result<usize, AllocError>
    requires some { 0 < length branches.now }
    requires small { nodes (in_choice (map pattern_of branches.now)) < 2 ^ 64 }
    ensures means { IfOk result (λ start.
        BehindEmitted meaning (in_choice (map pattern_of branches.now)) (len_of code.old)
        (emitted code.new) start) }
    ensures grows { IfOk result (λ _.
        Appends (4 * nodes (in_choice (map pattern_of branches.now))) code.old code.new) }
{
    let last = branches.len() - 1;
    let mut start = emit_back(code, meaning, &branches[last])?;
    for i in (0..last).rev() {
        let first = emit_back(code, meaning, &branches[i])?;
        start = code.put(Instr::Split(first, start))?;
    }
    Ok(start)
}

/// Appends the code of a branch that goes back by its size first, and returns where it begins. Without a size it fails.
#[cycle(emit)]
fn emit_back(code: &mut Emitter, meaning: Meaning, branch: &Tree) -> Result<usize, AllocError>
    requires small { nodes (pattern_of branch.now) < 2 ^ 64 }
    ensures means { IfOk result (λ start.
        BackEmitted meaning (pattern_of branch.now) (len_of code.old) (emitted code.new) start) }
    ensures grows { IfOk result (λ _.
        Appends (4 * nodes (pattern_of branch.now) + 1) code.old code.new) }
{
    match branch.size(meaning) {
        None => Ok(FAIL),
        Some(size) => {
            let stop = Entry {
                moved: MATCH,
                still: MATCH,
            };
            let inner = emit(code, meaning, branch, stop)?;
            let start = code.put(Instr::Back(size, inner.moved))?;
            Ok(start)
        }
    }
}

/// Appends the code of a condition that goes on at `one`, and where it fails at `two`.
#[cycle(emit)]
fn emit_condition(
    code: &mut Emitter,
    meaning: Meaning,
    condition: &Tree,
    one: Entry,
    two: Entry,
) -> Result<Entry, AllocError>
    requires small { nodes (pattern_of condition.now) < 2 ^ 64 }
    ensures means { IfOk result (λ entry.
        TestEmitted meaning (pattern_of condition.now) (len_of code.old) (emitted code.new) one two
        entry) }
    ensures grows { IfOk result (λ _.
        Appends (4 * (nodes (pattern_of condition.now) + 1)) code.old code.new) }
{
    let close = code.put_both(Instr::Commit(one.moved), Instr::Commit(one.still))?;
    let inner = emit(code, meaning, condition, close)?;
    let entry = code.put_both(
        Instr::Test(inner.moved, two.moved),
        Instr::Test(inner.still, two.still),
    )?;
    Ok(entry)
}

/// Appends the code of a repeat of this kind.
#[cycle(emit)]
#[tactic(auto, unfolding(fancy_tree::specs::Sizes::nodes))]
fn emit_kind(
    code: &mut Emitter,
    meaning: Meaning,
    kind: RepeatKind,
    turns: Turns,
    body: &Tree,
    next: Entry,
) -> Result<Entry, AllocError>
    requires small { nodes (repeat turns.low turns.high kind (pattern_of body.now)) < 2 ^ 64 }
    ensures { IfOk result (λ entry.
        Emits meaning (repeat turns.low turns.high kind (pattern_of body.now))
        code.old code.new next entry) }
{
    match kind {
        RepeatKind::Greedy => emit_repeat(code, meaning, true, turns, body, next),
        RepeatKind::Lazy => emit_repeat(code, meaning, false, turns, body, next),
        RepeatKind::Possessive => emit_possessive(code, meaning, turns, body, next),
    }
}

/// Appends the code of a possessive repeat, which is an atomic group round the greedy one.
#[cycle(emit)]
#[tactic(auto, unfolding(fancy_tree::specs::Sizes::nodes))]
fn emit_possessive(
    code: &mut Emitter,
    meaning: Meaning,
    turns: Turns,
    body: &Tree,
    next: Entry,
) -> Result<Entry, AllocError>
    requires small { nodes (repeat turns.low turns.high Possessive (pattern_of body.now)) < 2 ^ 64 }
    ensures { IfOk result (λ entry.
        Emits meaning (repeat turns.low turns.high Possessive (pattern_of body.now))
        code.old code.new next entry) }
{
    let close = code.put_both(Instr::Commit(next.moved), Instr::Commit(next.still))?;
    let inner = emit_repeat(code, meaning, true, turns, body, close)?;
    let entry = code.put_both(Instr::Enter(inner.moved), Instr::Enter(inner.still))?;
    Ok(entry)
}

/// Appends the code of at least `low` turns, and at most `high` where that is set.
#[cycle(emit)]
#[tactic(auto, unfolding(fancy_tree::specs::Sizes::nodes))]
fn emit_repeat(
    code: &mut Emitter,
    meaning: Meaning,
    greedy: bool,
    turns: Turns,
    body: &Tree,
    next: Entry,
) -> Result<Entry, AllocError>
    requires small { nodes (repeat turns.low turns.high (kind_of greedy) (pattern_of body.now))
        < 2 ^ 64 }
    ensures { IfOk result (λ entry.
        Emits meaning (repeat turns.low turns.high (kind_of greedy) (pattern_of body.now))
        code.old code.new next entry) }
{
    let first_set = code.next_set;
    let rest = match turns.high {
        None => emit_star(code, meaning, greedy, body, next)?,
        Some(high) => {
            emit_optionals(
                code,
                meaning,
                greedy,
                high.saturating_sub(turns.low),
                body,
                next,
            )?
        }
    };
    let entry = emit_copies(code, meaning, turns.low, body, first_set, rest)?;
    Ok(entry)
}

/// Appends the code of any number of turns. Both forms share one turn, which knows whether it has consumed anything.
#[cycle(emit)]
fn emit_star(
    code: &mut Emitter,
    meaning: Meaning,
    greedy: bool,
    body: &Tree,
    next: Entry,
) -> Result<Entry, AllocError>
    requires small { nodes (pattern_of body.now) < 2 ^ 64 }
    ensures easy { IfOk result (λ _. is_easy (pattern_of body.now) ≡ true
        → StaysEasy (emitted code.old) (emitted code.new)) }
    ensures means { IfOk result (λ entry.
        StarEmitted meaning greedy (pattern_of body.now) (len_of code.old) (emitted code.new) next
        entry) }
    ensures grows { IfOk result (λ _.
        Appends (4 * (nodes (pattern_of body.now) + 1)) code.old code.new) }
{
    let moved = code.put(Instr::Fail)?;
    let turn = emit(code, meaning, body, Entry { moved, still: FAIL })?;
    code.write(moved, split(greedy, turn.still, next.moved));
    let still = code.put(split(greedy, turn.still, next.still))?;
    Ok(Entry { moved, still })
}

/// Appends the code of `count` copies, one after the other, which share their sets from `first_set` on.
#[cycle(emit)]
fn emit_copies(
    code: &mut Emitter,
    meaning: Meaning,
    count: u32,
    body: &Tree,
    first_set: usize,
    next: Entry,
) -> Result<Entry, AllocError>
    requires small { count * nodes (pattern_of body.now) < 2 ^ 64 }
    ensures easy { IfOk result (λ _. is_easy (pattern_of body.now) ≡ true
        → StaysEasy (emitted code.old) (emitted code.new)) }
    ensures means { IfOk result (λ entry.
        CopiesEmitted meaning count (pattern_of body.now) (len_of code.old) (emitted code.new) next
        entry) }
    ensures grows { IfOk result (λ _.
        Appends (4 * (count * nodes (pattern_of body.now))) code.old code.new) }
{
    let mut entry = next;
    for copy in 0..count {
        code.next_set = first_set;
        entry = emit(code, meaning, body, entry)?;
    }
    Ok(entry)
}

/// Appends the code of `count` optional copies, each inside the one before; any of them can go on at `next`.
#[cycle(emit)]
fn emit_optionals(
    code: &mut Emitter,
    meaning: Meaning,
    greedy: bool,
    count: u32,
    body: &Tree,
    next: Entry,
) -> Result<Entry, AllocError>
    requires small { count * (nodes (pattern_of body.now) + 1) < 2 ^ 64 }
    ensures easy { IfOk result (λ _. is_easy (pattern_of body.now) ≡ true
        → StaysEasy (emitted code.old) (emitted code.new)) }
    ensures means { IfOk result (λ entry.
        OptionalsEmitted meaning greedy count (pattern_of body.now) (len_of code.old)
        (emitted code.new) next entry) }
    ensures grows { IfOk result (λ _.
        Appends (4 * (count * (nodes (pattern_of body.now) + 1))) code.old code.new) }
{
    let first_set = code.next_set;
    let mut entry = next;
    for copy in 0..count {
        code.next_set = first_set;
        let turn = emit(code, meaning, body, entry)?;
        entry = code.put_both(
            split(greedy, turn.moved, next.moved),
            split(greedy, turn.still, next.still),
        )?;
    }
    Ok(entry)
}

/// Appends the code of parts that follow one another, the last one first.
#[cycle(emit)]
fn emit_sequence(
    code: &mut Emitter,
    meaning: Meaning,
    parts: &[Tree],
    next: Entry,
) -> Result<Entry, AllocError>
    requires small { sum_by nodes (map pattern_of parts.now) < 2 ^ 64 }
    ensures { IfOk result (λ entry.
        Emits meaning (in_sequence (map pattern_of parts.now)) code.old code.new next entry) }
{
    let mut entry = next;
    for i in (0..parts.len()).rev() {
        entry = emit(code, meaning, &parts[i], entry)?;
    }
    Ok(entry)
}

/// Appends the code of branches, of which an earlier one is preferred, the last one first.
#[cycle(emit)]
fn emit_choice(
    code: &mut Emitter,
    meaning: Meaning,
    branches: &[Tree],
    next: Entry,
) -> Result<Entry, AllocError>
    requires small { nodes (in_choice (map pattern_of branches.now)) < 2 ^ 64 }
    ensures { IfOk result (λ entry.
        Emits meaning (in_choice (map pattern_of branches.now)) code.old code.new next entry) }
{
    if branches.is_empty() {
        let set = Set::empty(code.allocator());
        let nothing = code.put_member(meaning, &set, next)?;
        return Ok(nothing);
    }
    let last = branches.len() - 1;
    let mut entry = emit(code, meaning, &branches[last], next)?;
    for i in (0..last).rev() {
        let first = emit(code, meaning, &branches[i], next)?;
        entry = code.put_both(
            Instr::Split(first.moved, entry.moved),
            Instr::Split(first.still, entry.still),
        )?;
    }
    Ok(entry)
}

/// The code of a pattern, before it is known where its matches may begin by more than their first byte and text.
fn compile_alone(
    alloc: Global,
    tree: &Tree,
    groups: usize,
    meaning: Meaning,
) -> Result<Code, AllocError>
    requires small { nodes (pattern_of tree.now) < 2 ^ 64 }
    requires numbered { Numbered 0 groups (pattern_of tree.now) }
    ensures { IfOk result (λ code. IsCompiled (pattern_of tree.now) groups meaning code) }
{
    let mut code = Emitter::new(alloc);
    code.put(Instr::Match)?;
    code.put(Instr::Fail)?;
    let stop = Entry {
        moved: MATCH,
        still: MATCH,
    };
    let entry = emit(&mut code, meaning, tree, stop)?;
    let prefilter = Prefilter::new(alloc, tree, meaning)?;
    let code = code.into_code(entry.moved, groups, meaning, prefilter)?;
    Ok(code)
}

/// Whether it is worth to look for a row that each match goes on to: where matches start at starts of lines, texts are to have it seldom.
fn is_worth_row(prefilter: &Prefilter, reach: &Reach) -> bool {
    match (&prefilter.anchor, &reach.target) {
        (Anchor::AtLines(_), Target::Row(row)) => row.is_rare,
        _ => true,
    }
}

/// The same code, with the row of sets that each match goes on to, where else little is told of where matches begin.
fn with_row(alloc: Global, code: Code, tree: &Tree) -> Result<Code, AllocError>
    ensures instrs { IfOk result (λ c. instrs_of c ≡ instrs_of code) }
    ensures groups { IfOk result (λ c. c.groups ≡ code.groups) }
    ensures meaning { IfOk result (λ c. c.meaning ≡ code.meaning) }
    ensures is { IfOk result (λ c.
        IsCodeOf (pattern_of tree.now) code → IsCodeOf (pattern_of tree.now) c) }
{
    if !code.prefilter.tells_little() {
        return Ok(code);
    }
    let Some(row) = Reach::by_row(alloc, tree, code.meaning)? else {
        return Ok(code);
    };
    if !is_worth_row(&code.prefilter, &row) {
        return Ok(code);
    }
    let mut code = code;
    code.prefilter.region = Some(row);
    Ok(code)
}

/// The code of a pattern with so many groups, group 0 among them. It has at most 4 instructions for each node of
/// the pattern with its counted repeats written out, and 2 more. A branch of a look-behind that has no size, as
/// `a*`, matches nowhere. The call fails only where memory runs out.
///
/// ```
/// let code = compile(alloc, &Tree::Character('a'), 1, Meaning::Unicode)?;
/// assert_eq!(code.len(), 3);
/// ```
pub fn compile(
    alloc: Global,
    tree: &Tree,
    groups: usize,
    meaning: Meaning,
) -> Result<Code, AllocError>
    requires small { nodes (pattern_of tree.now) < 2 ^ 64 }
    requires numbered { Numbered 0 groups (pattern_of tree.now) }
    ensures code { IfOk result (λ code. IsCodeOf (pattern_of tree.now) code) }
    ensures easy { IfOk result (λ code. is_easy (pattern_of tree.now) ≡ true
        → are_easy (instrs_of code) ≡ true) }
    ensures short { IfOk result (λ code. code_len code ≤ 4 * nodes (pattern_of tree.now) + 2) }
    ensures groups { IfOk result (λ code. code.groups ≡ groups) }
    ensures meaning { IfOk result (λ code. code.meaning ≡ meaning) }
{
    let code = compile_alone(alloc, tree, groups, meaning)?;
    if !is_easy(tree) {
        return Ok(code);
    }
    let code = with_choices(alloc, code)?;
    let code = with_starts(alloc, code)?;
    let code = with_row(alloc, code, tree)?;
    Ok(code)
}
