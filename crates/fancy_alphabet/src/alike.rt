//! Which ASCII characters the instructions of a code treat alike: those that no instruction tests for by itself, and that are in
//! the same sets. For each of them one stands. At first that is the same for all that no instruction tests for; then each
//! set tells its members from the others.

ghost use Rattle.fancy_alphabet.specs.Sides.{side_of};
ghost use Rattle.std.specs.Prelude.{◌≡◌, ◌+◌, ◌<◌, ◌≤◌, ◌⊎◌, ◌↔◌, ℕ, Bool, false, true, IfOk, OnOk, List, get_or, length};
ghost use Rattle.fancy_code.specs.Code.{instr_in, instrs_of, set_edges, sets_len};
ghost use Rattle.fancy_code.specs.Instructions.{Character, Member, edges_in};
ghost use Rattle.fancy_code.specs.Run.{instr_at};
ghost use Rattle.fancy_alphabet.specs.Alike.{AreSeen, AreSided, AreStanding, IsApart, IsFirst, IsTestFor, Keeps, Marked, Respects, is_character, is_marked, is_member};
ghost use Rattle.fancy_alphabet.specs.Classes.{AreClasses, member_for};
ghost use Rattle.std.specs.Option.{ForSome};

use crate::classes::Classes;
use crate::side::{Side, Tests};
use fancy_code::code::{Code, Instr};
use fancy_tree::char_set::CharSet;
use std::alloc::{AllocError, Global};

/// How many ASCII characters there are.
const ASCII: usize = 128;

/// Marks the character that an instruction tests for by itself, if it is an ASCII character.
fn mark(marks: &mut [bool], instr: &Instr)
    requires { length marks.old ≡ 128 }
    ensures size { length marks.new ≡ 128 }
    ensures kept { Marked marks.old marks.new }
    ensures told { (code : Code) (c next : ℕ) → instr_in code instr.now ≡ Character c next → c < 128
        → get_or marks.new c false ≡ true }
{
    if let Instr::Character(character, _) = instr {
        let number = *character as usize;
        if number < ASCII {
            marks[number] = true;
        }
    }
}

/// Which ASCII characters an instruction tests for by itself.
fn tested_alone(alloc: Global, code: &Code) -> Result<Vec<bool>, AllocError>
    ensures size { IfOk result (λ alone. length alone.items ≡ 128) }
    ensures told { IfOk result (λ alone. (q c next : ℕ)
        → instr_at (instrs_of code.now) q ≡ Character c next → c < 128
        → get_or alone.items c false ≡ true) }
{
    let mut alone = Vec::new(alloc);
    alone.resize(ASCII, false)?;
    for at in 0..code.len() {
        mark(&mut alone, code.instr(at));
    }
    Ok(alone)
}

/// What stands for a character: `rest`, unless either is marked.
fn unmarked(marks: &[bool], rest: usize, byte: usize) -> usize
    requires size { length marks.now ≡ 128 }
    requires rest { rest < 128 }
    requires byte { byte < 128 }
    ensures { IsFirst marks.now byte result }
{
    if marks[byte] {
        return byte;
    }
    if marks[rest] {
        return byte;
    }
    rest
}

/// For each ASCII character the one that stands for it: itself, where an instruction tests for it by itself, and else one that
/// none tests for.
fn begin(alloc: Global, alone: &[bool]) -> Result<Vec<u8>, AllocError>
    requires { length alone.now ≡ 128 }
    ensures standing { IfOk result (λ stands. AreStanding stands.items) }
    ensures apart { IfOk result (λ stands. (byte : ℕ) → byte < 128
        → IsApart alone.now byte (get_or stands.items byte 0)) }
{
    let mut stands = Vec::with_capacity(alloc, ASCII)?;
    let mut rest = 0;
    for byte in 0..ASCII {
        let member = unmarked(alone, rest, byte);
        if !alone[byte] {
            rest = member;
        }
        stands.push(member as u8)?;
    }
    Ok(stands)
}

/// Which ASCII characters are members of a set.
fn members_of(alloc: Global, set: &CharSet) -> Result<Vec<bool>, AllocError>
    ensures size { IfOk result (λ marks. length marks.items ≡ 128) }
    ensures told { IfOk result (λ marks. (byte : ℕ) → byte < 128
        → get_or marks.items byte false ≡ is_member (edges_in set.now) byte) }
{
    let mut marks = Vec::with_capacity(alloc, ASCII)?;
    for byte in 0..ASCII {
        marks.push(set.contains(byte as u32))?;
    }
    Ok(marks)
}

/// Whether an ASCII character is this beside a place.
fn is_sided(byte: u8, side: Side) -> bool
    ensures { (result ≡ true) ↔ (side_of byte ≡ side) }
{
    Side::of_byte(byte) == side
}

/// Which ASCII characters are this beside a place.
fn sided(alloc: Global, side: Side) -> Result<Vec<bool>, AllocError>
    ensures size { IfOk result (λ marks. length marks.items ≡ 128) }
    ensures told { IfOk result (λ marks. (byte : ℕ) → byte < 128
        → (get_or marks.items byte false ≡ true) ↔ (side_of byte ≡ side)) }
{
    let mut marks = Vec::with_capacity(alloc, ASCII)?;
    for byte in 0..ASCII {
        marks.push(is_sided(byte as u8, side))?;
    }
    Ok(marks)
}

/// What stands for a character where those that are marked are told from the others: what did before, or one of `others`, or
/// itself, which is noted there then.
fn chosen(marks: &[bool], stands: &[u8], others: &mut [u8], byte: usize) -> u8
    requires marks { length marks.now ≡ 128 }
    requires standing { AreStanding stands.now }
    requires ascii { byte < 128 }
    requires size { length others.old ≡ 128 }
    ensures size { length others.new ≡ 128 }
    ensures ascii { result < 128 }
    ensures kept { (test : ℕ → Bool) → Respects stands.now test → test byte ≡ test result }
    ensures told { is_marked marks.now byte ≡ is_marked marks.now result }
{
    let before = stands[byte];
    let is_in = marks[byte];
    if marks[before as usize] == is_in {
        return before;
    }
    let other = others[before as usize];
    if stands.get(other as usize).copied() == Some(before) {
        if marks[other as usize] == is_in {
            return other;
        }
    }
    others[before as usize] = byte as u8;
    byte as u8
}

/// What stands for each character where those that are marked are told from the others.
fn split(alloc: Global, marks: &[bool], stands: &[u8]) -> Result<Vec<u8>, AllocError>
    requires marks { length marks.now ≡ 128 }
    requires standing { AreStanding stands.now }
    ensures standing { IfOk result (λ later. AreStanding later.items) }
    ensures kept { IfOk result (λ later. Keeps stands.now later.items) }
    ensures told { IfOk result (λ later. Respects later.items (is_marked marks.now)) }
{
    let mut others = Vec::new(alloc);
    others.resize(ASCII, 0)?;
    let mut later = Vec::with_capacity(alloc, ASCII)?;
    for byte in 0..ASCII {
        later.push(chosen(marks, stands, &mut others, byte))?;
    }
    Ok(later)
}

/// Notes a number.
fn note(seen: &mut Vec<bool>, number: usize) -> Result<(), AllocError>
    requires { number < usize.MAX }
    ensures { (n : ℕ) → get_or seen.new.items n false ≡ true
        → (n ≡ number) ⊎ (get_or seen.old.items n false ≡ true) }
{
    if seen.len() <= number {
        seen.resize(number + 1, false)?;
    }
    seen[number] = true;
    Ok(())
}

/// Tells the members of the set with this number from the others, unless that was done before.
fn refine(
    alloc: Global,
    code: &Code,
    number: usize,
    stands: &mut Vec<u8>,
    seen: &mut Vec<bool>,
) -> Result<(), AllocError>
    requires known { number < sets_len code.now }
    requires standing { AreStanding stands.old.items }
    requires seen { AreSeen code.now stands.old.items seen.old.items }
    ensures standing { AreStanding stands.new.items }
    ensures kept { Keeps stands.old.items stands.new.items }
    ensures seen { AreSeen code.now stands.new.items seen.new.items }
    ensures told { OnOk result (Respects stands.new.items (is_member (set_edges code.now number))) }
{
    if seen.get(number).copied() == Some(true) {
        return Ok(());
    }
    let marks = members_of(alloc, code.set(number))?;
    *stands = split(alloc, &marks, stands)?;
    note(seen, number)
}

/// Tells the members of an instruction's set from the others, if it has one.
fn refine_by(
    alloc: Global,
    code: &Code,
    instr: &Instr,
    stands: &mut Vec<u8>,
    seen: &mut Vec<bool>,
) -> Result<(), AllocError>
    requires known { (number next : ℕ) → instr.now ≡ Instr.Member number next
        → number < sets_len code.now }
    requires standing { AreStanding stands.old.items }
    requires seen { AreSeen code.now stands.old.items seen.old.items }
    ensures standing { AreStanding stands.new.items }
    ensures kept { Keeps stands.old.items stands.new.items }
    ensures seen { AreSeen code.now stands.new.items seen.new.items }
    ensures told { OnOk result ((edges : List ℕ) (next : ℕ)
        → instr_in code.now instr.now ≡ Member edges next
        → Respects stands.new.items (is_member edges)) }
{
    match instr {
        Instr::Member(number, _) => {
            refine(alloc, code, *number, stands, seen)?;
            Ok(())
        }
        _ => Ok(()),
    }
}

/// What stands for each character where the members of each set are told from the others, and what tests tell apart.
fn standing(alloc: Global, code: &Code, tests: Tests) -> Result<Vec<u8>, AllocError>
    ensures characters { IfOk result (λ stands. (q c next : ℕ)
        → instr_at (instrs_of code.now) q ≡ Character c next
        → Respects stands.items (is_character c)) }
    ensures members { IfOk result (λ stands. (q next : ℕ) (edges : List ℕ)
        → instr_at (instrs_of code.now) q ≡ Member edges next
        → Respects stands.items (is_member edges)) }
    ensures sides { IfOk result (λ stands. AreSided tests stands.items) }
    ensures size { IfOk result (λ stands. length stands.items ≡ 128) }
{
    let alone = tested_alone(alloc, code)?;
    let mut stands = begin(alloc, &alone)?;
    let mut seen = Vec::new(alloc);
    for at in 0..code.len() {
        refine_by(alloc, code, code.instr(at), &mut stands, &mut seen)?;
    }
    let later = split_sides(alloc, tests, stands)?;
    Ok(later)
}

/// What stands for each character where those that are this beside a place are told from the others.
fn split_side(alloc: Global, side: Side, stands: &[u8]) -> Result<Vec<u8>, AllocError>
    requires { AreStanding stands.now }
    ensures standing { IfOk result (λ later. AreStanding later.items) }
    ensures kept { IfOk result (λ later. Keeps stands.now later.items) }
    ensures told { IfOk result (λ later. (test : ℕ → Bool) → IsTestFor side test
        → Respects later.items test) }
{
    let marks = sided(alloc, side)?;
    let later = split(alloc, &marks, stands)?;
    Ok(later)
}

/// What stands for each character where tests tell what it is beside a place.
fn split_sides(alloc: Global, tests: Tests, stands: Vec<u8>) -> Result<Vec<u8>, AllocError>
    requires { AreStanding stands.items }
    ensures kept { IfOk result (λ later. Keeps stands.items later.items) }
    ensures told { IfOk result (λ later. AreSided tests later.items) }
    ensures size { IfOk result (λ later. length later.items ≡ 128) }
{
    match tests {
        Tests::Nothing => Ok(stands),
        Tests::Words => {
            let words = split_side(alloc, Side::Word, &stands)?;
            Ok(words)
        }
        Tests::All => {
            let words = split_side(alloc, Side::Word, &stands)?;
            let feeds = split_side(alloc, Side::LineFeed, &words)?;
            let all = split_side(alloc, Side::CarriageReturn, &feeds)?;
            Ok(all)
        }
    }
}

/// The number of the class that this character stands for, where the characters before it have these; a new one where no class
/// is found.
fn class_of(numbers: &[u8], members: &mut Vec<u8>, member: u8) -> Result<u8, AllocError>
    requires { length members.old.items < 128 }
    ensures few { length members.new.items ≤ length members.old.items + 1 }
    ensures kept { (i : ℕ) → i < length members.old.items
        → (i < length members.new.items)
        × (get_or members.new.items i 0 ≡ get_or members.old.items i 0) }
    ensures class { IfOk result (λ class. (class < length members.new.items)
        × (get_or members.new.items class 0 ≡ member)) }
{
    if let Some(hint) = numbers.get(member as usize) {
        if members.get(*hint as usize).copied() == Some(member) {
            return Ok(*hint);
        }
    }
    let class = members.len() as u8;
    members.push(member)?;
    Ok(class)
}

/// The classes of those that one character stands for.
fn numbered(alloc: Global, tests: Tests, stands: &[u8]) -> Result<Classes, AllocError>
    requires { length stands.now ≡ 128 }
    ensures tests { IfOk result (λ classes. classes.tests ≡ tests) }
    ensures low { IfOk result (λ classes. (byte : ℕ) → byte < 128
        → member_for classes byte ≡ get_or stands.now byte 0) }
    ensures past { IfOk result (λ classes. (byte : ℕ) → 128 ≤ byte
        → member_for classes byte ≡ byte) }
{
    let mut columns = Vec::with_capacity(alloc, ASCII)?;
    let mut members = Vec::new(alloc);
    for byte in 0..ASCII {
        let class = class_of(&columns, &mut members, stands[byte])?;
        columns.push(class)?;
    }
    let width = tests.sides() * members.len();
    Ok(Classes {
        tests,
        columns,
        members,
        width,
    })
}

/// The classes of the characters that each instruction of a code treats alike.
pub fn classes_of(alloc: Global, code: &Code) -> Result<Classes, AllocError>
    ensures { IfOk result (λ classes. AreClasses classes (instrs_of code.now)) }
{
    let tests = Tests::of_code(code);
    let stands = standing(alloc, code, tests)?;
    let classes = numbered(alloc, tests, &stands)?;
    Ok(classes)
}
