//! What attempts cost, by the byte at which they are made, for what stands before.

ghost use Rattle.std.specs.Prelude.{◌≡◌, ℕ, ◌<◌, ◌≤◌, true, false, Option, None, Some, IfOk, IfSome, if◌then◌else◌, length, slice_get, slice_index, slice_index_or, vec_len};
ghost use Rattle.fancy_input.specs.Lines.{byte_before};
ghost use Rattle.fancy_input.specs.Places.{is_continuation};
ghost use Rattle.fancy_bytes.specs.Sets.{member};
ghost use Rattle.fancy_code.specs.Code.{instrs_of};
ghost use Rattle.fancy_code.specs.declared.code.Code.{Code as CodeIs};
ghost use Rattle.fancy_prices.specs.declared.facts.Before.{Before as BeforeIs};
ghost use Rattle.fancy_prices.specs.declared.facts.Ending.TheVariants.{Last};
ghost use Rattle.fancy_prices.specs.Prices.{Dies, DiesBehind};
ghost use Rattle.fancy_prices.specs.Rows.{AreWhole, IsCostlyIn, TellsByte, TellsRow, costs_nothing};

use crate::facts::{Before, Ending, Facts};
use crate::free::{price_behind, price_of, tests_before};
use crate::kinds::{Kind, kinds_of};
use crate::price::Price;
use fancy_bytes::byte_set::ByteSet;
use fancy_code::code::Code;
use std::alloc::{AllocError, Global};

/// How many instructions are followed one after another.
const DEPTH: usize = 48;

/// What attempts cost, by the byte at which they are made.
#[derive(Drop)]
pub(crate) struct Row {
    pub(crate) prices: [Option<Price>; 256],
    /// At which bytes one costs something, or may find a match.
    pub(crate) costly: [bool; 256],
    ghost free: { IsCostlyIn prices costly },
}

/// What attempts cost, by what stands before and by the byte at which they are made.
#[derive(Drop)]
pub(crate) struct Rows {
    /// The first serves at the text's start.
    rows: Vec<Row>,
    /// Which one serves after each byte.
    numbers: [u8; 256],
    ghost some: { 0 < vec_len rows },
    ghost numbered: { (b : ℕ) → b < 256 → slice_index numbers b < vec_len rows },
}

/// Whether a row tells of an attempt that costs something. No answer rests on it.
fn costs_some(row: &[Option<Price>; 256]) -> bool {
    for price in row {
        if let Some(price) = price {
            if !price.is_nothing() {
                return true;
            }
        }
    }
    false
}

/// Whether a row tells something. No answer rests on it.
pub(crate) fn tells_some(row: &[Option<Price>; 256]) -> bool {
    for price in row {
        if price.is_some() {
            return true;
        }
    }
    false
}

/// Whether a byte continues a character of UTF-8.
pub fn is_continuation(byte: u8) -> bool
    ensures { result ≡ is_continuation byte }
{
    byte >= 0x80 && byte < 0xC0
}

/// Whether no byte of a set is one within a character.
pub(crate) fn are_whole(bytes: &ByteSet) -> bool
    ensures { result ≡ true → AreWhole bytes.now }
{
    for byte in 0..256u32 {
        if bytes.contains(byte as u8) && is_continuation(byte as u8) {
            return false;
        }
    }
    true
}

/// The price of an attempt that is made at the byte. Of one within a character nothing is told but that it costs nothing, since in text
/// none is made there.
fn told_at(here: u8, price: Price) -> Option<Price>
    ensures { (code : CodeIs) (before : Option BeforeIs)
        → Dies (instrs_of code) code.meaning (record { here = here; before = before })
        price.marks price.returns code.start
        → TellsByte code before here result }
{
    if is_continuation(here) {
        return price.if_nothing();
    }
    Some(price)
}

/// What an attempt costs that is made at the byte, if it is told that it finds nothing.
fn price_at(code: &Code, here: u8, before: Option<Before<'_>>) -> Option<Price>
    ensures { TellsByte code.now before.entry here result }
{
    let price = price_of(code, code.start, Facts { here, before }, DEPTH)?;
    told_at(here, price)
}

/// The same for each byte, where what stands before is not told.
fn plain_prices(code: &Code) -> [Option<Price>; 256]
    ensures { TellsRow code.now None result }
{
    let mut row = [None; 256];
    for byte in 0..256u32 {
        row[byte as usize] = price_at(code, byte as u8, None);
    }
    row
}

/// What an attempt costs that is made at the byte where this stands before. `behind` is what that tells alone.
fn price_after(code: &Code, here: u8, before: Before<'_>, behind: Option<Price>) -> Option<Price>
    requires { IfSome behind (λ p.
        DiesBehind (instrs_of code.now) (Last before) p.marks p.returns code.now.start) }
    ensures { TellsByte code.now (Some before.entry) here result }
{
    match behind {
        Some(price) => told_at(here, price),
        None => price_at(code, here, Some(before)),
    }
}

/// What attempts cost at each byte where this stands before. It is asked only of bytes of which nothing is told without that.
fn prices_after(
    code: &Code,
    plain: &[Option<Price>; 256],
    before: Before<'_>,
) -> [Option<Price>; 256]
    requires { TellsRow code.now None plain.now }
    ensures { TellsRow code.now (Some before.entry) result }
{
    let behind = price_behind(code, Ending::Last(before), DEPTH);
    let mut row = *plain;
    for byte in 0..256u32 {
        if row[byte as usize].is_none() {
            row[byte as usize] = price_after(code, byte as u8, before, behind);
        }
    }
    row
}

/// Whether an attempt costs nothing.
pub(crate) fn is_free(price: Option<Price>) -> bool
    ensures { result ≡ costs_nothing price }
{
    match price {
        Some(price) => price.marks == 0 && price.returns == 0,
        None => false,
    }
}

/// At which bytes an attempt costs something, or may find a match.
fn costly_of(prices: &[Option<Price>; 256]) -> [bool; 256]
    ensures { IsCostlyIn prices.now result }
{
    let mut costly = [true; 256];
    for byte in 0..256u32 {
        costly[byte as usize] = !is_free(prices[byte as usize]);
    }
    costly
}

impl Row {
    fn new(prices: [Option<Price>; 256]) -> Row
        ensures { result.prices ≡ prices }
    {
        let costly = costly_of(&prices);
        Row { prices, costly }
    }

    /// Whether an attempt costs something, or may find a match, at some byte.
    fn has_costly(&self) -> bool
        ensures { result ≡ false → (b : ℕ) → b < 256
            → slice_index_or self.now.costly b false ≡ false }
    {
        for byte in 0..256u32 {
            if self.costly[byte as usize] {
                return true;
            }
        }
        false
    }
}

/// The numbers, with this one for each byte of the set.
fn numbered(numbers: [u8; 256], bytes: &ByteSet, number: u8) -> [u8; 256]
    ensures { (b : ℕ) → b < 256 → slice_index result b
        ≡ (if member bytes.now b then number else (slice_index numbers b)) }
{
    let mut result = numbers;
    for byte in 0..256u32 {
        if bytes.contains(byte as u8) {
            result[byte as usize] = number;
        }
    }
    result
}

impl Rows {
    ghost use Rattle.fancy_prices.specs.Entries.{TellRows};
    ghost use Rattle.fancy_prices.specs.Around.{costly_in, row_of};

    /// The same after anything.
    fn alike(alloc: Global, code: &Code, plain: [Option<Price>; 256]) -> Result<Rows, AllocError>
        requires { TellsRow code.now None plain }
        ensures { IfOk result (TellRows code.now) }
    {
        let mut rows = Vec::new(alloc);
        rows.push(Row::new(plain))?;
        Ok(Rows {
            rows,
            numbers: [0; 256],
        })
    }

    /// By what the code tests before a position.
    fn apart(alloc: Global, code: &Code, plain: &[Option<Price>; 256]) -> Result<Rows, AllocError>
        requires { TellsRow code.now None plain.now }
        ensures { IfOk result (TellRows code.now) }
    {
        let mut rows = Vec::new(alloc);
        rows.push(Row::new(prices_after(code, plain, Before::Nothing)))?;
        rows.push(Row::new(*plain))?;
        let mut rows = Rows {
            rows,
            numbers: [1; 256],
        };
        let kinds = kinds_of(alloc, code)?;
        for kind in &kinds {
            rows = rows.with(code, plain, kind)?;
        }
        Ok(rows)
    }

    /// With a row of its own after each byte of a kind, if there are few so far.
    fn with(
        self,
        code: &Code,
        plain: &[Option<Price>; 256],
        kind: &Kind,
    ) -> Result<Rows, AllocError>
        requires plain { TellsRow code.now None plain.now }
        requires others { TellRows code.now self }
        ensures { IfOk result (TellRows code.now) }
    {
        let Rows { rows, numbers } = self;
        let mut rows = rows;
        let number = rows.len();
        if number > u8::MAX as usize {
            return Ok(Rows { rows, numbers });
        }
        rows.push(Row::new(prices_after(code, plain, Before::Among(kind))))?;
        let numbers = numbered(numbers, &kind.bytes, number as u8);
        Ok(Rows { rows, numbers })
    }

    /// Those of attempts with the code. Rows are told apart only where it may test what stands before.
    pub(crate) fn of(alloc: Global, code: &Code) -> Result<Rows, AllocError>
        ensures { IfOk result (TellRows code.now) }
    {
        let plain = plain_prices(code);
        if !tests_before(code, code.start, DEPTH) {
            return Rows::alike(alloc, code, plain);
        }
        Rows::apart(alloc, code, &plain)
    }

    /// The row that serves after a byte.
    #[inline]
    pub(crate) fn after(&self, byte: u8) -> &Row
        ensures { slice_get self.now.rows.items (slice_index self.now.numbers byte) ≡ Some result.now }
    {
        &self.rows[self.numbers[byte as usize] as usize]
    }

    /// The row that serves at a place.
    #[inline]
    pub(crate) fn before(&self, haystack: &[u8], place: usize) -> &Row
        requires { place ≤ length haystack.now }
        ensures { row_of self.now (byte_before haystack.now place) ≡ Some result.now }
    {
        if place == 0 {
            return &self.rows[0];
        }
        self.after(haystack[place - 1])
    }

    /// Whether an attempt at the byte costs something, or may find a match, after something.
    fn is_costly_at(&self, here: u8) -> bool
        ensures { result ≡ false → (k : ℕ) → k < vec_len self.now.rows
            → costly_in (slice_get self.now.rows.items k) here ≡ false }
    {
        for row in &self.rows {
            if row.costly[here as usize] {
                return true;
            }
        }
        false
    }

    /// The bytes at which one does.
    pub(crate) fn costly_bytes(&self) -> ByteSet
        ensures { (b : ℕ) → b < 256 → member result b ≡ false → (k : ℕ) → k < vec_len self.now.rows
            → costly_in (slice_get self.now.rows.items k) b ≡ false }
    {
        let mut bytes = ByteSet::new();
        for byte in 0..256u32 {
            if self.is_costly_at(byte as u8) {
                bytes.insert(byte as u8);
            }
        }
        bytes
    }

    /// Whether the row with a number has a byte at which one does.
    fn has_costly(&self, number: usize) -> bool
        ensures { result ≡ false → (here : ℕ) → here < 256
            → costly_in (slice_get self.now.rows.items number) here ≡ false }
    {
        match self.rows.get(number) {
            Some(row) => row.has_costly(),
            None => true,
        }
    }

    /// The rows that have a byte at which one does, by their number.
    fn costly_rows(&self) -> [bool; 256]
        ensures { (k : ℕ) → k < 256 → slice_index_or result k false ≡ false → (here : ℕ) → here < 256
            → costly_in (slice_get self.now.rows.items k) here ≡ false }
    {
        let mut costly = [false; 256];
        for number in 0..256usize {
            costly[number] = self.has_costly(number);
        }
        costly
    }

    /// The bytes after which one does, at some byte.
    pub(crate) fn bytes_before(&self) -> ByteSet
        ensures { (b : ℕ) → b < 256 → member result b ≡ false
            → (here : ℕ) → here < 256 → costly_in (row_of self.now (Some b)) here ≡ false }
    {
        let costly = self.costly_rows();
        let mut bytes = ByteSet::new();
        for byte in 0..256u32 {
            if costly[self.numbers[byte as usize] as usize] {
                bytes.insert(byte as u8);
            }
        }
        bytes
    }

    /// Whether an attempt is told that costs something. No answer rests on it.
    pub(crate) fn cost_some(&self) -> bool {
        for row in &self.rows {
            if costs_some(&row.prices) {
                return true;
            }
        }
        false
    }

    /// Whether something is told. No answer rests on it.
    pub(crate) fn tell_some(&self) -> bool {
        for row in &self.rows {
            if tells_some(&row.prices) {
                return true;
            }
        }
        false
    }
}
