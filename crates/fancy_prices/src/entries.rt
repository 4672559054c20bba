//! The positions at which a search must enter the code: at each other one an attempt finds nothing, and what it costs is told.

ghost use Rattle.std.specs.Prelude.{◌≡◌, ℕ, ◌+◌, ◌-◌, ◌<◌, ◌≤◌, true, false, None, Some, IfOk, IfSome, MatchOption, length, slice_index};
ghost use Rattle.std.specs.Option.{ForSome};
ghost use Rattle.fancy_input.specs.Lines.{byte_before};
ghost use Rattle.fancy_input.specs.Places.{is_continuation};
ghost use Rattle.fancy_code.specs.declared.code.Code.{Code};
ghost use Rattle.fancy_bytes.specs.Sets.{member};
ghost use Rattle.fancy_prices.specs.Around.{CostsNothingAt, IsAround, TellsRowBehind, is_costly, price_behind, row_of};

use crate::around::{BEFORE, around_of};
use crate::facts::Ending;
use crate::free::price_behind;
use crate::price::Price;
use crate::rows::{Row, Rows, is_continuation, tells_some};
use fancy_code::code::Code;
use fancy_prefilter::candidates::next_opening;
use fancy_prefilter::prefilter::Prefilter;
use fancy_prefilter::scan::Scan;
use std::alloc::{AllocError, Global};

/// How many instructions are followed one after another.
const DEPTH: usize = 48;

/// How many positions are looked at one at a time before a scan of many.
const NEAR: usize = 8;

/// From so many positions on the bytes round them are looked for.
const MANY: usize = 64;

/// The positions at which an attempt must be made, told by the byte there and what stands before it. At each other one within the
/// searched range an attempt finds nothing, and what it costs is told: how many choices it opens, and how many it takes back.
///
/// ```text
/// Entries::of(alloc, &code)    // of the code of "(?>a+)b": where the byte a stands
/// Entries::of(alloc, &code)    // of the code of "\b(?>a+)b": where the byte a stands after no ASCII letter
/// Entries::of(alloc, &code)    // of the code of "a|b": where one of them stands; at other bytes there is a choice, which is taken back
/// ```
#[derive(Drop)]
pub struct Entries {
    // none where any position is one; boxed, since it is large, and a pattern is moved while it is built
    told: Option<Box<Told>>,
}

/// What is told of attempts.
#[derive(Drop)]
struct Told {
    /// The bytes at which an attempt costs something, or may find a match, after something.
    bytes: Scan,
    /// What attempts cost by what stands before, and the byte at which they are made.
    rows: Rows,
    /// Whether some of them cost something.
    priced: bool,
    // what attempts cost by the byte before the one before their position; none where it tells nothing
    behind: Option<[Option<Price>; 256]>,
    // what tells by the bytes round it where an attempt costs something, or may find a match; none where those before it tell little
    around: Option<Prefilter>,
    ghost told: { (b : ℕ) → b < 256 → member bytes b ≡ false → CostsNothingAt rows b },
    ghost tells: { ForSome around (IsAround rows behind bytes) },
}

/// Positions of which it is told that attempts there find nothing.
#[derive(Clone, Copy)]
pub struct Priced {
    /// The position after them.
    pub past: usize,
    /// The returns of attempts at them.
    pub returns: usize,
}

/// What an attempt costs by the byte before the one before its position.
fn row_behind(code: &Code) -> [Option<Price>; 256]
    ensures { TellsRowBehind code.now result }
{
    let mut row = [None; 256];
    for byte in 0..256u32 {
        row[byte as usize] = price_behind(code, Ending::Second(byte as u8), DEPTH);
    }
    row
}

/// The same, if it is told of some byte.
fn prices_behind(code: &Code) -> Option<[Option<Price>; 256]>
    ensures { IfSome result (TellsRowBehind code.now) }
{
    let row = row_behind(code);
    if !tells_some(&row) {
        return None;
    }
    Some(row)
}

impl Told {
    ghost use Rattle.fancy_prices.specs.Entries.{ArePassed, ArePricedFrom, IsNextCostly, IsToldOf, is_told};

    /// What an attempt costs at a place, if the byte before the one before it tells that. It is told of no place within a character.
    #[inline]
    fn price_behind(&self, haystack: &[u8], place: usize) -> Option<Price>
        requires { place < length haystack.now }
        ensures { IfSome result (λ c. (is_continuation (slice_index haystack.now place) ≡ false)
            × (price_behind self.now.behind (byte_before haystack.now (place - 1)) ≡ Some c)) }
    {
        let Some(row) = &self.behind else {
            return None;
        };
        if place < 2 || is_continuation(haystack[place]) {
            return None;
        }
        row[haystack[place - 2] as usize]
    }

    /// What an attempt costs at a place, if that is told.
    #[inline]
    fn price(&self, haystack: &[u8], place: usize) -> Option<Price>
        requires { place < length haystack.now }
        ensures { IfSome result (IsToldOf (is_told (Some self.now)) haystack.now place) }
    {
        if self.priced {
            return self.price_by(self.rows.before(haystack, place), haystack, place);
        }
        self.price_behind(haystack, place)
    }

    /// The same, by the row that serves there.
    #[inline]
    fn price_by(&self, row: &Row, haystack: &[u8], place: usize) -> Option<Price>
        requires inside { place < length haystack.now }
        requires row { row_of self.now.rows (byte_before haystack.now place) ≡ Some row.now }
        ensures { IfSome result (IsToldOf (is_told (Some self.now)) haystack.now place) }
    {
        if let Some(price) = row.prices[haystack[place] as usize] {
            return Some(price);
        }
        self.price_behind(haystack, place)
    }

    /// Whether an attempt costs something, or may find a match, at a place.
    #[inline]
    fn is_costly(&self, haystack: &[u8], place: usize) -> bool
        requires { place < length haystack.now }
        ensures { result ≡ is_costly self.now.rows (byte_before haystack.now place) (slice_index haystack.now place) }
    {
        self.rows.before(haystack, place).costly[haystack[place] as usize]
    }

    /// The first place, from the one on and before the other, at which an attempt may find something or costs something. They are looked
    /// at one at a time.
    #[inline]
    fn next_near(&self, haystack: &[u8], from: usize, to: usize) -> Option<usize>
        requires ordered { from ≤ to }
        requires inside { to ≤ length haystack.now }
        ensures { MatchOption result (ArePassed self.now haystack.now from to) (IsNextCostly self.now haystack.now from to) }
    {
        let mut row = self.rows.before(haystack, from);
        for place in from..to {
            let byte = haystack[place];
            if row.costly[byte as usize] {
                return Some(place);
            }
            row = self.rows.after(byte);
        }
        None
    }

    /// The same, or else the other place. They are looked at by scans, many at a time, which is slower where one stands near.
    #[inline]
    fn next_far(&self, haystack: &[u8], from: usize, to: usize) -> usize
        requires ordered { from ≤ to }
        requires inside { to ≤ length haystack.now }
        ensures { IsNextCostly self.now haystack.now from to result }
    {
        let mut place = from;
        while place < to {
            let Some(seen) = self.bytes.next_seen(haystack, place, to) else {
                return to;
            };
            if self.is_costly(haystack, seen) {
                return seen;
            }
            place = seen + 1;
        }
        to
    }

    /// The same by the bytes round a place, where they tell more than the one there. Most often an attempt costs something at the first
    /// place that they let through.
    #[inline]
    fn next_around(&self, haystack: &[u8], from: usize, to: usize) -> usize
        requires ordered { from ≤ to }
        requires inside { to ≤ length haystack.now }
        ensures { IsNextCostly self.now haystack.now from to result }
    {
        let Some(around) = &self.around else {
            return self.next_far(haystack, from, to);
        };
        if from < BEFORE || to - from < MANY {
            return self.next_far(haystack, from, to);
        }
        let place = next_opening(around, haystack, to, from - BEFORE, to, &mut None) + BEFORE;
        if place >= to {
            return to;
        }
        if self.is_costly(haystack, place) {
            return place;
        }
        self.next_far(haystack, place + 1, to)
    }

    /// The same, or else the other place. The near ones are looked at one at a time, and past them many at a time. It is a call of its
    /// own, since most often there is one at the place where it would begin.
    #[inline(never)]
    fn next_ahead(&self, haystack: &[u8], from: usize, to: usize) -> usize
        requires ordered { from ≤ to }
        requires inside { to ≤ length haystack.now }
        ensures { IsNextCostly self.now haystack.now from to result }
    {
        let near = from + (to - from).min(NEAR);
        match self.next_near(haystack, from, near) {
            Some(place) => place,
            None => self.next_around(haystack, near, to),
        }
    }

    /// The places from one on, of which this price is told, up to one of which none is told, or at which an attempt may save more
    /// branches than so many.
    fn priced_from(
        &self,
        haystack: &[u8],
        price: Price,
        from: usize,
        to: usize,
        most: usize,
    ) -> Priced
        requires ordered { from < to }
        requires few { to ≤ from + 32 }
        requires inside { to ≤ length haystack.now }
        requires told { IsToldOf (is_told (Some self.now)) haystack.now from price }
        ensures { ArePricedFrom (is_told (Some self.now)) haystack.now from to result }
    {
        let mut returns = price.returns as usize;
        let mut row = self.rows.after(haystack[from]);
        for place in from + 1..to {
            let Some(price) = self.price_by(row, haystack, place) else {
                return Priced {
                    past: place,
                    returns,
                };
            };
            if price.marks as usize > most {
                return Priced {
                    past: place,
                    returns,
                };
            }
            returns += price.returns as usize;
            row = self.rows.after(haystack[place]);
        }
        Priced { past: to, returns }
    }
}

impl Entries {
    ghost use Rattle.fancy_prices.specs.Entries.{AreEntries, ArePricedFrom, IsNextEntry, IsToldAt, IsToldOf, is_entry, unboxed};

    /// Any position: nothing is told of the code.
    pub fn all() -> Entries
        ensures { (code : Code) → AreEntries (is_entry result) code }
    {
        Entries { told: None }
    }

    /// Those of an attempt with this code.
    ///
    /// It is refused where memory runs out.
    pub fn of(alloc: Global, code: &Code) -> Result<Entries, AllocError>
        ensures { IfOk result (λ entries. AreEntries (is_entry entries) code.now) }
    {
        let rows = Rows::of(alloc, code)?;
        if !rows.tell_some() {
            return Ok(Entries::all());
        }
        let priced = rows.cost_some();
        let bytes = rows.costly_bytes();
        let behind = prices_behind(code);
        let around = around_of(alloc, &rows, &behind, &bytes)?;
        let told = Told {
            bytes: Scan::new(bytes),
            rows,
            priced,
            behind,
            around,
        };
        Ok(Entries {
            told: Some(Box::new(alloc, told)?),
        })
    }

    /// What is told of attempts, if something is.
    #[inline]
    fn told(&self) -> Option<&Told>
        ensures { IfSome result (λ t. unboxed self.now.told ≡ Some t.now) }
    {
        match &self.told {
            Some(told) => Some(&**told),
            None => None,
        }
    }

    /// What an attempt costs at a place, if it is told that it finds nothing there, and saves no more branches than so many. `None` at
    /// the end of the range, and where the attempt must be made.
    #[inline]
    pub fn price(
        &self,
        haystack: &[u8],
        range_end: usize,
        place: usize,
        most: usize,
    ) -> Option<Price>
        requires inside { range_end ≤ length haystack.now }
        ensures told { IfSome result (λ p. IsToldAt (is_entry self.now) haystack.now range_end place p) }
        ensures few { IfSome result (λ p. p.marks ≤ most) }
    {
        let Some(told) = self.told() else {
            return None;
        };
        if place >= range_end {
            return None;
        }
        match told.price(haystack, place) {
            Some(price) if price.marks as usize <= most => Some(price),
            _ => None,
        }
    }

    /// The positions from one on, of which this price is told, up to one of which none is told, or at which an
    /// attempt may save more branches than so many.
    #[inline]
    pub fn priced_from(
        &self,
        haystack: &[u8],
        price: Price,
        from: usize,
        to: usize,
        most: usize,
    ) -> Priced
        requires ordered { from < to }
        requires few { to ≤ from + 32 }
        requires inside { to ≤ length haystack.now }
        requires told { IsToldOf (is_entry self.now) haystack.now from price }
        ensures { ArePricedFrom (is_entry self.now) haystack.now from to result }
    {
        match self.told() {
            Some(told) => told.priced_from(haystack, price, from, to, most),
            None => Priced {
                past: from + 1,
                returns: price.returns as usize,
            },
        }
    }

    /// The first position, from the one on and up to the last, at which an attempt may find something or costs something, or past the
    /// last where there is none. The end of the range is always one.
    #[inline(always)]
    pub fn next(&self, haystack: &[u8], range_end: usize, from: usize, last: usize) -> usize
        requires ordered { from ≤ last + 1 }
        requires last { last ≤ range_end }
        requires inside { range_end ≤ length haystack.now }
        ensures { IsNextEntry (is_entry self.now) haystack.now range_end from last result }
    {
        let Some(told) = self.told() else {
            return from;
        };
        let end = (last + 1).min(range_end);
        if end <= from {
            return from;
        }
        if told.bytes.only().is_some() {
            return told.next_far(haystack, from, end);
        }
        if told.is_costly(haystack, from) {
            return from;
        }
        told.next_ahead(haystack, from + 1, end)
    }
}
