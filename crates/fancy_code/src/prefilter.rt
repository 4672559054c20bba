//! Where a match may start, by the code of the pattern: at the text's start or at line starts alone, or where some bytes stand at its
//! first places.

ghost use Rattle.std.specs.Prelude.{◌≡◌, ◌==◌, ◌<◌, ◌≤◌, ◌+◌, ℕ, true, false, length, IfOk, IfSome};
ghost use Rattle.unicode.specs.Perl.{is_word_byte};
ghost use Rattle.fancy_tree.specs.Members.{edges_of};
ghost use Rattle.fancy_tree.specs.Pattern.{Pattern};
ghost use Rattle.fancy_tree.specs.Sets.{has};
ghost use Rattle.fancy_bytes.specs.Sets.{member};
ghost use Rattle.fancy_bytes.specs.Rows.{Wider};
ghost use Rattle.fancy_code.specs.Code.{instrs_of};
ghost use Rattle.fancy_code.specs.CodeLength.{code_len};
ghost use Rattle.fancy_code.specs.Compile.{IsCodeOf};
ghost use Rattle.fancy_code.specs.Foretold.{AreForetold, Foretold, ForetoldPast, IsAnchored};

use crate::branching::branches_of;
use crate::code::{Code, Instr};
use fancy_bytes::byte_set::ByteSet;
use fancy_bytes::items::{Sizes, add_character, add_members, has_size, is_small, size_of};
use fancy_bytes::rows::{are_apart, are_telling, empty_sets};
use fancy_prefilter::prefilter::{Anchor, Opening, Prefilter};
use fancy_prefilter::scan::Scan;
use fancy_prefilter::window::Window;
use fancy_tree::char_set::CharSet;
use fancy_tree::tree::{Assertion, Meaning};
use std::alloc::{AllocError, Global};

/// At how many places bytes are told.
const PLACES: usize = 8;

/// At how many places they are told where those tell too little.
const MORE_PLACES: usize = 16;

/// So many places in a row at which one set stands are scanned for.
const SHORT_ROW: usize = 3;

/// At how many places they are told where those are too many to be followed.
const FEWER_PLACES: usize = 3;

/// A set of fewer bytes leaves out most of what stands in texts.
const NARROW: usize = 64;

/// How many instructions are followed one after another.
const DEPTH: usize = 48;

/// How many instructions are followed in all.
const FOLLOWED: usize = 192;

/// Where the code goes on.
#[derive(Clone, Copy)]
struct Spot {
    /// The number of the instruction.
    at: usize,
    /// How many places of the window lie before it at least.
    from: usize,
    /// There are no more than these.
    exact: bool,
    /// How many instructions may still be followed one after another.
    deep: usize,
}

/// Adds the members of a set that have so many bytes, and then what may stand after them, where the code goes on at the spot's
/// instruction.
#[cycle(collect)]
fn collect_sizes(
    code: &Code,
    spot: Spot,
    set: &CharSet,
    sizes: Sizes,
    sets: &mut Vec<ByteSet>,
    left: &mut usize,
)
    requires short { sizes.least ≤ 4 }
    ensures wider { Wider sets.old.items sets.new.items }
    ensures told { ForetoldPast (instrs_of code.now) code.now.meaning sets.new.items spot.from spot.exact
        (has (edges_of set.now.set)) sizes.least (sizes.most + 1) spot.at }
{
    if spot.from >= sets.len() || !has_size(set, code.meaning, sizes) {
        return;
    }
    add_members(sets, spot.from, spot.exact, set, code.meaning, sizes);
    let after = Spot {
        from: spot.from.saturating_add(sizes.least),
        exact: spot.exact && sizes.least == sizes.most,
        ..spot
    };
    collect(code, after, sets, left);
}

/// The same for all members of a set: for each number of bytes by itself, if they are few.
#[cycle(collect)]
fn collect_members(
    code: &Code,
    spot: Spot,
    set: &CharSet,
    sets: &mut Vec<ByteSet>,
    left: &mut usize,
)
    ensures wider { Wider sets.old.items sets.new.items }
    ensures told { ForetoldPast (instrs_of code.now) code.now.meaning sets.new.items spot.from spot.exact
        (has (edges_of set.now.set)) 1 5 spot.at }
{
    if !is_small(set) && code.meaning != Meaning::Bytes {
        collect_sizes(code, spot, set, Sizes { least: 1, most: 4 }, sets, left);
        return;
    }
    for size in 1..5 {
        let sizes = Sizes {
            least: size,
            most: size,
        };
        collect_sizes(code, spot, set, sizes, sets, left);
    }
}

/// The same for a character.
#[cycle(collect)]
fn collect_character(code: &Code, spot: Spot, c: char, sets: &mut Vec<ByteSet>, left: &mut usize)
    requires inside { spot.from < length sets.old.items }
    ensures wider { Wider sets.old.items sets.new.items }
    ensures told { ForetoldPast (instrs_of code.now) code.now.meaning sets.new.items spot.from spot.exact
        (λ d. d == c) 1 5 spot.at }
{
    add_character(sets, spot.from, spot.exact, c, code.meaning);
    let after = Spot {
        from: spot.from.saturating_add(size_of(c, code.meaning)),
        ..spot
    };
    collect(code, after, sets, left);
}

/// Adds to the sets the bytes that may stand from a place on, as the code goes on there. Where a way may stop, or the code is not
/// followed any further, the row ends.
#[cycle(collect)]
fn collect(code: &Code, spot: Spot, sets: &mut Vec<ByteSet>, left: &mut usize)
    ensures wider { Wider sets.old.items sets.new.items }
    ensures told { Foretold (instrs_of code.now) code.now.meaning sets.new.items spot.from
        spot.exact spot.at }
{
    if spot.from >= sets.len() || spot.at >= code.len() {
        return;
    }
    if spot.deep == 0 || *left == 0 {
        sets.truncate(spot.from);
        return;
    }
    *left -= 1;
    let counted = Spot {
        deep: spot.deep - 1,
        ..spot
    };
    collect_instruction(code, counted, sets, left);
}

/// The same by the spot's instruction, where that is counted already.
#[cycle(collect)]
fn collect_instruction(code: &Code, spot: Spot, sets: &mut Vec<ByteSet>, left: &mut usize)
    requires inside { spot.from < length sets.old.items }
    requires within { spot.at < code_len code.now }
    ensures wider { Wider sets.old.items sets.new.items }
    ensures told { Foretold (instrs_of code.now) code.now.meaning sets.new.items spot.from
        spot.exact spot.at }
{
    match code.instr(spot.at) {
        Instr::Fail => {}
        Instr::Character(character, next) => {
            let after = Spot { at: *next, ..spot };
            collect_character(code, after, *character, sets, left);
        }
        Instr::Member(set, next) => {
            let after = Spot { at: *next, ..spot };
            collect_members(code, after, code.set(*set), sets, left);
        }
        Instr::Assert(_, next) | Instr::Open(_, next) | Instr::Close(_, next) => {
            collect(code, Spot { at: *next, ..spot }, sets, left);
        }
        Instr::Split(first, second) => {
            collect(code, Spot { at: *first, ..spot }, sets, left);
            collect(
                code,
                Spot {
                    at: *second,
                    ..spot
                },
                sets,
                left,
            );
        }
        _ => sets.truncate(spot.from),
    }
}

/// Whether these are the same.
fn is_same(assertion: Assertion, other: Assertion) -> bool
    ensures { result ≡ true → assertion ≡ other }
{
    assertion == other
}

/// Whether the code goes on from an instruction only where an assertion holds. It is not told where the code is not followed any
/// further.
#[cycle(anchored)]
fn is_anchored(code: &Code, anchor: Assertion, at: usize, deep: usize, left: &mut usize) -> bool
    ensures { result ≡ true → IsAnchored (instrs_of code.now) anchor at }
{
    if at >= code.len() {
        return true;
    }
    if deep == 0 || *left == 0 {
        return false;
    }
    *left -= 1;
    let deep = deep - 1;
    match code.instr(at) {
        Instr::Fail => true,
        Instr::Assert(assertion, next) => {
            is_same(*assertion, anchor) || is_anchored(code, anchor, *next, deep, left)
        }
        Instr::Open(_, next) | Instr::Close(_, next) => {
            is_anchored(code, anchor, *next, deep, left)
        }
        Instr::Split(first, second) => {
            is_anchored(code, anchor, *first, deep, left)
                && is_anchored(code, anchor, *second, deep, left)
        }
        _ => false,
    }
}

/// Whether each match starts where an assertion holds.
fn starts_at(code: &Code, anchor: Assertion) -> bool
    ensures { result ≡ true → IsAnchored (instrs_of code.now) anchor code.now.start }
{
    let mut left = FOLLOWED;
    is_anchored(code, anchor, code.start, DEPTH, &mut left)
}

/// The scan for line feeds.
fn line_feeds() -> Scan
    ensures { member result 10 ≡ true }
{
    Scan::new(ByteSet::of(b'\n'))
}

/// The sets of the bytes that may stand at so many first places of what the code consumes from an instruction on, as far as they are
/// told where so many instructions are followed at most, of which those are taken away that were. It is refused where memory runs out.
pub(crate) fn sets_within(
    alloc: Global,
    code: &Code,
    at: usize,
    places: usize,
    left: &mut usize,
) -> Result<Vec<ByteSet>, AllocError>
    ensures { IfOk result (λ sets.
        Foretold (instrs_of code.now) code.now.meaning sets.items 0 true at) }
{
    let mut sets = empty_sets(alloc, places)?;
    let spot = Spot {
        at,
        from: 0,
        exact: true,
        deep: DEPTH,
    };
    collect(code, spot, &mut sets, left);
    Ok(sets)
}

/// The same, where as many instructions are followed as are for all of a match.
pub(crate) fn sets_of(
    alloc: Global,
    code: &Code,
    at: usize,
    places: usize,
) -> Result<Vec<ByteSet>, AllocError>
    ensures { IfOk result (λ sets.
        Foretold (instrs_of code.now) code.now.meaning sets.items 0 true at) }
{
    let mut left = FOLLOWED;
    sets_within(alloc, code, at, places, &mut left)
}

/// The sets of the bytes that may stand at so many first places of a match.
fn sets_at_start(alloc: Global, code: &Code, places: usize) -> Result<Vec<ByteSet>, AllocError>
    ensures { IfOk result (λ sets. AreForetold sets.items code.now) }
{
    let sets = sets_of(alloc, code, code.start, places)?;
    Ok(sets)
}

/// Whether all sets have the same bytes.
fn are_alike(sets: &[ByteSet]) -> bool {
    let mut all = ByteSet::new();
    for set in sets {
        all = all.union(set);
    }
    sets.iter().all(|set| set.len() == all.len())
}

/// Whether sets are so many that few words are as long, and none has the blank; one set that stands in a row may be of fewer. Where each
/// match starts at the boundary of a word, they are to be more: it is looked for too.
fn are_unbroken(code: &Code, sets: &[ByteSet]) -> bool {
    if sets.len() < SHORT_ROW || sets.iter().any(|set| set.contains(b' ')) {
        return false;
    }
    if starts_at(code, Assertion::WordBoundary) {
        return sets.len() >= MORE_PLACES;
    }
    sets.len() >= PLACES || are_alike(sets)
}

/// The sets of the bytes that may stand at the first places of a match, and whether they are worth a scan: at some places, or else at
/// more, if one past the first has few bytes, or none has the blank; at fewer if besides no run of one kind of byte has a byte of each.
fn first_sets(alloc: Global, code: &Code) -> Result<(Vec<ByteSet>, bool), AllocError>
    ensures { IfOk result (λ told. AreForetold told.0.items code.now) }
{
    let sets = sets_at_start(alloc, code, PLACES)?;
    if sets.len() < 2 {
        let sets = sets_at_start(alloc, code, FEWER_PLACES)?;
        let is_worth = are_telling(&sets) && are_apart(&sets);
        return Ok((sets, is_worth));
    }
    let is_worth = are_telling(&sets);
    if is_worth || sets.len() < PLACES {
        let is_worth = is_worth || are_unbroken(code, &sets);
        return Ok((sets, is_worth));
    }
    let more = sets_at_start(alloc, code, MORE_PLACES)?;
    if are_telling(&more) || are_unbroken(code, &more) {
        return Ok((more, true));
    }
    Ok((sets, false))
}

/// Whether a set past the first leaves out most of what stands in texts.
fn are_narrow(sets: &[ByteSet]) -> bool {
    for j in 1..sets.len() {
        if sets[j].len() < NARROW {
            return true;
        }
    }
    false
}

/// The same code, with the bytes that each match opens with, if it starts with one that texts have seldom, and those after it tell more: they
/// are looked at where that stands.
fn with_sets(alloc: Global, code: Code) -> Result<Code, AllocError>
    ensures instrs { IfOk result (λ c. instrs_of c ≡ instrs_of code) }
    ensures groups { IfOk result (λ c. c.groups ≡ code.groups) }
    ensures meaning { IfOk result (λ c. c.meaning ≡ code.meaning) }
    ensures is { IfOk result (λ c. (p : Pattern) → IsCodeOf p code → IsCodeOf p c) }
{
    if code.prefilter.has_text() || !code.prefilter.starts_seldom() {
        return Ok(code);
    }
    let sets = sets_at_start(alloc, &code, PLACES)?;
    if !are_narrow(&sets) {
        return Ok(code);
    }
    let mut code = code;
    code.prefilter.opening = Opening::Sets(sets);
    Ok(code)
}

/// Sets that are told of the first places of a match, made ready for scans.
fn window_of(alloc: Global, code: &Code, sets: Vec<ByteSet>) -> Result<Option<Window>, AllocError>
    requires { AreForetold sets.items code.now }
    ensures { IfOk result (λ w. IfSome w (λ sets. AreForetold sets code.now)) }
{
    let window = Window::new(alloc, sets)?;
    Ok(window)
}

/// Whether a search would scan for a window: not where each match opens with one text, or may start with any byte, or starts with one that
/// texts seldom have.
fn is_worth_window(prefilter: &Prefilter) -> bool {
    !prefilter.has_text() && prefilter.starts.is_some() && !prefilter.starts_seldom()
}

/// The same code, with the bytes that each match opens with, if they tell something.
fn with_opening(alloc: Global, code: Code) -> Result<Code, AllocError>
    ensures instrs { IfOk result (λ c. instrs_of c ≡ instrs_of code) }
    ensures groups { IfOk result (λ c. c.groups ≡ code.groups) }
    ensures meaning { IfOk result (λ c. c.meaning ≡ code.meaning) }
    ensures is { IfOk result (λ c. (p : Pattern) → IsCodeOf p code → IsCodeOf p c) }
{
    let mut code = code;
    if let Some(branches) = branches_of(alloc, &code)? {
        code.prefilter.opening = Opening::Words(branches);
        return Ok(code);
    }
    if !is_worth_window(&code.prefilter) {
        return with_sets(alloc, code);
    }
    let (sets, is_worth) = first_sets(alloc, &code)?;
    if !is_worth {
        code.prefilter.opening = Opening::Sets(sets);
        return Ok(code);
    }
    let Some(window) = window_of(alloc, &code, sets)? else {
        return Ok(code);
    };
    code.prefilter.opening = Opening::Window(window);
    Ok(code)
}

/// Whether a search would go from line to line where matches start there alone: not where each match opens with one text, or starts with
/// one byte, for which it scans faster.
fn is_worth_lines(prefilter: &Prefilter) -> bool {
    if prefilter.has_text() {
        return false;
    }
    match &prefilter.starts {
        None => true,
        Some(scan) => scan.only().is_none(),
    }
}

/// Whether each match starts at a line start, and a search would go by them.
fn starts_lines(code: &Code) -> bool
    ensures { result ≡ true → IsAnchored (instrs_of code.now) Assertion.LineStart code.now.start }
{
    is_worth_lines(&code.prefilter) && starts_at(code, Assertion::LineStart)
}

/// The same code, with the scan for the line feeds after which its matches start.
fn with_lines(code: Code) -> Code
    ensures instrs { instrs_of result ≡ instrs_of code }
    ensures groups { result.groups ≡ code.groups }
    ensures meaning { result.meaning ≡ code.meaning }
    ensures is { (p : Pattern) → IsCodeOf p code → IsCodeOf p result }
{
    if !starts_lines(&code) {
        return code;
    }
    let mut code = code;
    code.prefilter.anchor = Anchor::AtLines(line_feeds());
    code
}

/// Whether a byte is an ASCII word character.
fn is_word_byte(byte: u8) -> bool
    ensures { result ≡ is_word_byte byte }
{
    byte.is_ascii_alphanumeric() || byte == b'_'
}

/// The scan for bytes that are no ASCII word characters.
fn between_words() -> Scan
    ensures { (b : ℕ) → b < 256 → member result b ≡ false → is_word_byte b ≡ true }
{
    let mut others = ByteSet::new();
    for code in 0..256u32 {
        let byte = code as u8;
        if !is_word_byte(byte) {
            others.insert(byte);
        }
    }
    Scan::new(others)
}

/// Whether each match starts at the boundary of a word, where a search would go by its first byte alone.
fn starts_words(code: &Code) -> bool
    ensures { result ≡ true → IsAnchored (instrs_of code.now) Assertion.WordBoundary code.now.start }
{
    let prefilter = &code.prefilter;
    let has_words = matches!(prefilter.opening, Opening::Words(_));
    if prefilter.scans_for_opening() || has_words || prefilter.is_anchored() {
        return false;
    }
    starts_at(code, Assertion::WordBoundary)
}

/// The same code, with the scan for what stands between words.
fn with_words(code: Code) -> Code
    ensures instrs { instrs_of result ≡ instrs_of code }
    ensures groups { result.groups ≡ code.groups }
    ensures meaning { result.meaning ≡ code.meaning }
    ensures is { (p : Pattern) → IsCodeOf p code → IsCodeOf p result }
{
    if !starts_words(&code) {
        return code;
    }
    let mut code = code;
    code.prefilter.anchor = Anchor::AtWords(between_words());
    code
}

/// The same code, with what tells where a match may start.
pub(crate) fn with_starts(alloc: Global, code: Code) -> Result<Code, AllocError>
    ensures instrs { IfOk result (λ c. instrs_of c ≡ instrs_of code) }
    ensures groups { IfOk result (λ c. c.groups ≡ code.groups) }
    ensures meaning { IfOk result (λ c. c.meaning ≡ code.meaning) }
    ensures is { IfOk result (λ c. (p : Pattern) → IsCodeOf p code → IsCodeOf p c) }
{
    let mut code = code;
    if starts_at(&code, Assertion::TextStart) {
        code.prefilter.anchor = Anchor::AtStart;
        return Ok(code);
    }
    let code = with_opening(alloc, code)?;
    Ok(with_words(with_lines(code)))
}
