//! What a pattern tells of the bytes that it consumes, whatever it matches.

ghost use Rattle.std.specs.Prelude.{◌≡◌, map, IfOk, IfSome, IsTrue};
ghost use Rattle.fancy_tree.specs.Members.{edges_of};
ghost use Rattle.fancy_tree.specs.Pattern.{Pattern, pattern_of, character, in_choice, in_sequence};
ghost use Rattle.fancy_tree.specs.Sets.{has};
ghost use Rattle.fancy_tree.specs.declared.tree.Meaning.{Meaning as MeaningOf};
ghost use Rattle.fancy_required.specs.Told.{gap, Adds, AddsSome, HasRow, HasText, IsLongest, IsLongestFrom, ReadsItem, Tells, TellsBoth, TellsText};

use fancy_bytes::byte_set::ByteSet;
use fancy_bytes::items::is_ascii;
use fancy_bytes::start::add_first;
use fancy_tree::set::Set;
use fancy_tree::tree::{Meaning, Tree};
use std::alloc::{AllocError, Global};

/// What is to be told.
#[derive(Clone, Copy)]
pub enum Detail {
    /// Single bytes alone, which takes less: of sets and of alternatives nothing.
    Bytes,
    /// Sets too.
    Sets,
}

/// What is told of bytes that are consumed one after another.
#[derive(Drop)]
pub enum Told {
    /// Nothing of the next ones, and there may be any number of them.
    Gap,
    /// The next one is this byte.
    One(u8),
    /// The next one is of this set.
    Among(ByteSet),
}

impl Told {
    ghost use Rattle.fancy_required.specs.Told.{IsLess, IsSetOf};

    /// The bytes of which the next one is, if something is told of it.
    pub fn set(&self) -> Option<ByteSet>
        ensures { IfSome result (λ set. IsSetOf set self.now) }
    {
        match self {
            Told::Gap => None,
            Told::One(byte) => Some(ByteSet::of(*byte)),
            Told::Among(set) => Some(set.union(set)),
        }
    }

    /// What is told of a byte of which the one or the other is told.
    fn either(&self, other: &Told) -> Option<Told>
        ensures { IfSome result (λ told. IsLess told self.now × IsLess told other.now) }
    {
        if let (Told::One(byte), Told::One(same)) = (self, other)
            && byte == same
        {
            return Some(Told::One(*byte));
        }
        let one = self.set()?;
        let another = other.set()?;
        Some(Told::Among(one.union(&another)))
    }
}

/// Adds bytes that are told.
fn tell_bytes(bytes: &[u8], told: &mut Vec<Told>) -> Result<(), AllocError>
    ensures { IfOk result (λ _. AddsSome (TellsText bytes.now) told.old.items told.new.items) }
{
    for i in 0..bytes.len() {
        told.push(Told::One(bytes[i]))?;
    }
    Ok(())
}

/// Adds the bytes of a character, which in byte meaning is one of a byte or matches nothing.
fn tell_character(c: char, meaning: Meaning, told: &mut Vec<Told>) -> Result<(), AllocError>
    ensures { IfOk result (λ _. Adds meaning (character c) told.old.items told.new.items) }
{
    if let Meaning::Bytes = meaning {
        let code = c as u32;
        if code < 256 {
            tell_bytes(&[code as u8], told)?;
        } else {
            told.push(Told::Gap)?;
        }
        return Ok(());
    }
    tell_bytes(c.encode_utf8(&mut [0; 4]).as_bytes(), told)?;
    Ok(())
}

/// Adds what is told of a member of a set, which a pattern reads: its first byte, if it may have more.
fn tell_member(
    tree: &Tree,
    set: &Set,
    meaning: Meaning,
    detail: Detail,
    told: &mut Vec<Told>,
) -> Result<(), AllocError>
    requires { ReadsItem (pattern_of tree.now) (has (edges_of set.now)) }
    ensures { IfOk result (λ _. Adds meaning (pattern_of tree.now) told.old.items told.new.items) }
{
    if let Detail::Bytes = detail {
        told.push(Told::Gap)?;
        return Ok(());
    }
    let mut first = ByteSet::new();
    add_first(tree, meaning, &mut first);
    told.push(Told::Among(first))?;
    if !matches!(meaning, Meaning::Bytes) && !is_ascii(set.edges()) {
        told.push(Told::Gap)?;
    }
    Ok(())
}

/// Adds what the pattern tells, in this detail.
#[cycle(telling)]
#[tactic(auto, using(fancy_tree::proofs::PatternLemmas::pattern_equations))]
fn tell(
    tree: &Tree,
    meaning: Meaning,
    detail: Detail,
    told: &mut Vec<Told>,
) -> Result<(), AllocError>
    ensures { IfOk result (λ _. Adds meaning (pattern_of tree.now) told.old.items told.new.items) }
{
    match tree {
        Tree::Empty => {}
        Tree::Assertion(_) => {}
        Tree::Character(c) => tell_character(*c, meaning, told)?,
        Tree::Member(set) => tell_member(tree, set, meaning, detail, told)?,
        Tree::InAnyCase(set) => tell_member(tree, set, meaning, detail, told)?,
        Tree::RawByte(byte) => tell_bytes(&[*byte], told)?,
        Tree::Group { body, .. } => tell(body, meaning, detail, told)?,
        Tree::Repeat { low, body, .. } => {
            if *low >= 1 {
                tell(body, meaning, detail, told)?;
            }
            told.push(Told::Gap)?;
        }
        Tree::Concat(parts) => tell_row(parts, meaning, detail, told)?,
        Tree::Alternation(branches) => tell_branches(branches, meaning, detail, told)?,
        Tree::Backreference { .. }
        | Tree::GroupTest(_)
        | Tree::KeepStart
        | Tree::ContinueHere
        | Tree::Atomic(_)
        | Tree::LookAhead { .. }
        | Tree::LookBehind { .. }
        | Tree::Conditional { .. } => told.push(Told::Gap)?,
    }
    Ok(())
}

/// The same of patterns one after another.
#[cycle(telling)]
fn tell_row(
    trees: &[Tree],
    meaning: Meaning,
    detail: Detail,
    told: &mut Vec<Told>,
) -> Result<(), AllocError>
    ensures { IfOk result (λ _. Adds meaning (in_sequence (map pattern_of trees.now))
        told.old.items told.new.items) }
{
    for i in 0..trees.len() {
        tell(&trees[i], meaning, detail, told)?;
    }
    Ok(())
}

/// Whether a gap is all that is told.
fn tells_nothing(told: &[Told]) -> bool
    ensures { IsTrue result → told.now ≡ gap }
{
    matches!(told, [Told::Gap])
}

/// The same of alternatives: what all of them tell. Once that is nothing, the other ones are not asked.
#[cycle(telling)]
fn tell_branches(
    trees: &[Tree],
    meaning: Meaning,
    detail: Detail,
    told: &mut Vec<Told>,
) -> Result<(), AllocError>
    ensures { IfOk result (λ _. Adds meaning (in_choice (map pattern_of trees.now))
        told.old.items told.new.items) }
{
    if matches!(detail, Detail::Bytes) || trees.is_empty() {
        told.push(Told::Gap)?;
        return Ok(());
    }
    let alloc = *told.allocator();
    let mut common = Vec::new(alloc);
    tell(&trees[0], meaning, detail, &mut common)?;
    for i in 1..trees.len() {
        if tells_nothing(&common) {
            break;
        }
        let mut other = Vec::new(alloc);
        tell(&trees[i], meaning, detail, &mut other)?;
        let mut both = Vec::new(alloc);
        tell_common(&common, &other, &mut both)?;
        common = both;
    }
    told.append(&mut common)?;
    Ok(())
}

/// Adds what is told of both.
fn tell_common(first: &[Told], second: &[Told], told: &mut Vec<Told>) -> Result<(), AllocError>
    ensures { IfOk result (λ _. AddsSome (TellsBoth first.now second.now)
        told.old.items told.new.items) }
{
    for i in 0..first.len().min(second.len()) {
        let Some(both) = first[i].either(&second[i]) else {
            told.push(Told::Gap)?;
            return Ok(());
        };
        told.push(both)?;
    }
    if first.len() != second.len() {
        told.push(Told::Gap)?;
    }
    Ok(())
}

/// What the pattern tells, in this detail. It is refused where memory runs out.
///
/// ```text
/// told_of(alloc, &tree, Meaning::Unicode, Detail::Sets)?     // of `[a-z]+@(x|y)`: a set, a gap, `@`, a set
/// told_of(alloc, &tree, Meaning::Unicode, Detail::Bytes)?    // a gap, a gap, `@`, a gap
/// ```
pub fn told_of(
    alloc: Global,
    tree: &Tree,
    meaning: Meaning,
    detail: Detail,
) -> Result<Vec<Told>, AllocError>
    ensures { IfOk result (λ told. Tells meaning (pattern_of tree.now) told.items) }
{
    let mut told = Vec::new(alloc);
    tell(tree, meaning, detail, &mut told)?;
    Ok(told)
}

/// The sets that are told one after another from a number on, and no more than so many. A byte is a set of one. It is refused where memory
/// runs out.
///
/// ```text
/// row_at(alloc, &told, 2, 8)?    // of `[a-z]+@(x|y)` the set of `@`, and that of `x` and `y`
/// row_at(alloc, &told, 2, 1)?    // the set of `@`
/// row_at(alloc, &told, 1, 8)?    // no set: a gap stands there
/// ```
pub fn row_at(
    alloc: Global,
    told: &[Told],
    from: usize,
    most: usize,
) -> Result<Vec<ByteSet>, AllocError>
    ensures { IfOk result (λ row. (m : MeaningOf) (p : Pattern)
        → Tells m p told.now → HasRow m p row.items) }
{
    let mut row = Vec::new(alloc);
    for i in from..told.len() {
        if row.len() == most {
            break;
        }
        let Some(set) = told[i].set() else {
            break;
        };
        row.push(set)?;
    }
    Ok(row)
}

/// From which number on the longest text is told, the first where several are.
fn longest_text(told: &[Told]) -> usize
    ensures { IsLongestFrom told.now result }
{
    let mut longest = 0;
    let mut most = 0usize;
    let mut len = 0usize;
    for i in 0..told.len() {
        let Told::One(_) = told[i] else {
            len = 0;
            continue;
        };
        len += 1;
        if len > most {
            most = len;
            longest = i + 1 - len;
        }
    }
    longest
}

/// The longest text that is told, the first where several are. It is empty where none is. It is refused where memory runs out.
///
/// ```text
/// text_of(alloc, &told)?    // of `\d+-to-\d+:` the bytes of `-to-`
/// text_of(alloc, &told)?    // of `\d+` no byte
/// ```
pub fn text_of(alloc: Global, told: &[Told]) -> Result<Vec<u8>, AllocError>
    ensures stands { IfOk result (λ text. (m : MeaningOf) (p : Pattern)
        → Tells m p told.now → HasText m p text.items) }
    ensures longest { IfOk result (λ text. IsLongest told.now text.items) }
{
    let from = longest_text(told);
    let mut text = Vec::new(alloc);
    for i in from..told.len() {
        let Told::One(byte) = &told[i] else {
            break;
        };
        text.push(*byte)?;
    }
    Ok(text)
}
