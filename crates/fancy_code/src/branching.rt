//! Which alternatives code opens with, and the table of the bytes at their first places.

ghost use Rattle.std.specs.Prelude.{◌≡◌, ◌≤◌, ℕ, List, true, IfOk, IfSome};
ghost use Rattle.fancy_code.specs.Branches.{AreBranches, ArePaid, Chooses, HasLead, OpensTo, SplitsTo, TestsTo, dues_in};
ghost use Rattle.fancy_code.specs.Code.{instrs_of, due_of};
ghost use Rattle.fancy_code.specs.Foretold.{AreRows};
ghost use Rattle.fancy_code.specs.Instructions.{Instruction};
ghost use Rattle.fancy_code.specs.Texts.{AreTexts};

use crate::code::{Code, Instr};
use crate::prefilter::sets_of;
use crate::text::text_of;
use fancy_bytes::byte_set::ByteSet;
use fancy_prefilter::branches::{Branches, Lead, WIDE};
use fancy_prefilter::key_table::KeyTable;
use fancy_prefilter::text::Text;
use fancy_tree::tree::Assertion;
use std::alloc::{AllocError, Global};

/// The most alternatives for which a table is made: what is told of each takes some 200 bytes until it is made.
const MOST: usize = 16_384;

/// At how many first places of each alternative bytes are told.
const PLACES: usize = 4;

/// The test that the instruction with this number is, and the number of the next one; without a test the same number.
fn test_at(code: &Code, at: usize) -> (Option<Assertion>, usize)
    ensures { TestsTo (instrs_of code.now) result.0 at result.1 }
{
    if at >= code.len() {
        return (None, at);
    }
    match code.instr(at) {
        Instr::Assert(test, next) => (Some(*test), *next),
        _ => (None, at),
    }
}

/// The group that the instruction with this number begins, and the number of the next one; without a group the same number.
fn group_at(code: &Code, at: usize) -> (Option<usize>, usize)
    ensures { OpensTo (instrs_of code.now) result.0 at result.1 }
{
    if at >= code.len() {
        return (None, at);
    }
    match code.instr(at) {
        Instr::Open(group, next) => (Some(*group), *next),
        _ => (None, at),
    }
}

/// What the code has before its alternatives.
fn lead_of(code: &Code) -> Lead
    ensures { HasLead (instrs_of code.now) code.now.start result }
{
    let (test, next) = test_at(code, code.start);
    let (group, at) = group_at(code, next);
    Lead { test, group, at }
}

/// The alternatives of a row of splits and what that leads to, which is the last of them.
fn with_last(heads: Vec<usize>, at: usize) -> Result<Vec<usize>, AllocError>
    ensures { (code : List Instruction) (q : ℕ) → SplitsTo code q heads.items at
        → IfOk result (λ all. Chooses code q all.items) }
{
    let mut heads = heads;
    heads.push(at)?;
    Ok(heads)
}

/// The first instructions of the alternatives that the code has from an instruction on, in order of preference.
fn heads_of(alloc: Global, code: &Code, first: usize) -> Result<Vec<usize>, AllocError>
    ensures { IfOk result (λ heads. Chooses (instrs_of code.now) first heads.items) }
{
    let mut heads = Vec::new(alloc);
    let mut at = first;
    for _ in 0..code.len() {
        let Some(ways) = code.ways(at) else {
            return with_last(heads, at);
        };
        heads.push(ways.first)?;
        at = ways.second;
    }
    with_last(heads, at)
}

/// The sets of the bytes that may stand at the first places of each alternative.
fn rows_of(alloc: Global, code: &Code, heads: &[usize]) -> Result<Vec<Vec<ByteSet>>, AllocError>
    ensures { IfOk result (λ rows.
        AreRows (instrs_of code.now) code.now.meaning heads.now rows.items) }
{
    let mut rows = Vec::with_capacity(alloc, heads.len())?;
    for number in 0..heads.len() {
        let row = sets_of(alloc, code, heads[number], PLACES)?;
        rows.push(row)?;
    }
    Ok(rows)
}

/// The text that each alternative begins with.
fn texts_of(alloc: Global, code: &Code, heads: &[usize]) -> Result<Vec<Text>, AllocError>
    ensures { IfOk result (λ texts.
        AreTexts (instrs_of code.now) code.now.meaning heads.now texts.items) }
{
    let mut texts = Vec::with_capacity(alloc, heads.len())?;
    for number in 0..heads.len() {
        let text = text_of(alloc, code, heads[number])?;
        texts.push(text)?;
    }
    Ok(texts)
}

/// Whether all of these together are due no more than the first instruction is.
fn are_paid(code: &Code, heads: &[usize]) -> bool
    ensures { result ≡ true
        → dues_in code.now.marking.numbers.items code.now.marking.weights.items heads.now
        ≤ due_of code.now code.now.start }
{
    let mut total = 0usize;
    for number in 0..heads.len() {
        let Some(sum) = total.checked_add(code.due(heads[number])) else {
            return false;
        };
        total = sum;
    }
    total <= code.due(code.start)
}

/// The alternatives that the code opens with, where there are many, and the bytes at their first places tell them apart.
pub(crate) fn branches_of(alloc: Global, code: &Code) -> Result<Option<Branches>, AllocError>
    ensures are { IfOk result (λ o. IfSome o (λ b.
        AreBranches b (instrs_of code.now) code.now.meaning code.now.start)) }
    ensures paid { IfOk result (λ o. IfSome o (λ b.
        ArePaid b code.now.marking.numbers.items code.now.marking.weights.items
        code.now.start)) }
{
    let lead = lead_of(code);
    let heads = heads_of(alloc, code, lead.at)?;
    if heads.len() < WIDE || heads.len() > MOST {
        return Ok(None);
    }
    if !are_paid(code, &heads) {
        return Ok(None);
    }
    let rows = rows_of(alloc, code, &heads)?;
    let Some(table) = KeyTable::new(alloc, &rows)? else {
        return Ok(None);
    };
    let texts = texts_of(alloc, code, &heads)?;
    Ok(Some(Branches {
        lead,
        heads,
        texts,
        table,
    }))
}
