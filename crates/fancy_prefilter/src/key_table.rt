//! Numbers of rows of byte sets, by keys of the bytes that stand first in them.

ghost use Rattle.std.specs.Prelude.{◌≡◌, ℕ, ◌+◌, ◌<◌, ◌≤◌, List, true, length};
ghost use Rattle.fancy_bytes.specs.Sets.{ByteFlags, member};
ghost use Rattle.fancy_prefilter.specs.Keys.{AreBelow, AreCovered, AreRising, Covers, IsAmong, RiseBetween, class_of, key_at, keys, mixed};

use fancy_bytes::byte_set::ByteSet;
use std::alloc::{AllocError, Global};

/// How many keys there are.
const KEYS: usize = 8192;

/// How many bytes a key is made of at most.
pub(crate) const WIDTH: usize = 4;

/// How many keys a row may have at most.
const WINDOWS: usize = 64;

/// How many classes of bytes there are: each ASCII byte, and all others.
const CLASSES: usize = 129;

/// The class of a byte.
#[inline]
pub(crate) fn class_of(byte: u8) -> usize
    ensures { result ≡ class_of byte }
{
    if byte < 0x80 { byte as usize } else { 128 }
}

/// The key after one more byte of this class.
#[inline]
pub(crate) fn mixed(seed: usize, class: usize) -> usize
    requires seed { seed < keys }
    requires class { class < 129 }
    ensures mixed { (byte : ℕ) → class_of byte ≡ class → result ≡ mixed seed byte }
    ensures small { result < keys }
{
    (seed * 53 + class) % KEYS
}

/// The key of the window at a place.
#[inline]
pub(crate) fn key_at(haystack: &[u8], place: usize, width: usize) -> usize
    requires { place + width ≤ length haystack.now }
    ensures key { result ≡ key_at width haystack.now place }
    ensures small { result < keys }
{
    let mut seed = 0;
    for i in 0..width {
        seed = mixed(seed, class_of(haystack[place + i]));
    }
    seed
}

/// Whether a byte of this class may be in the set.
fn has_class(set: &ByteSet, class: usize) -> bool
    ensures { (byte : ℕ) → byte < 256 → class_of byte ≡ class → member set.now byte ≡ true → result ≡ true }
{
    if class < 128 {
        return set.contains(class as u8);
    }
    for byte in 128..256u32 {
        if set.contains(byte as u8) {
            return true;
        }
    }
    false
}

/// How many classes of bytes the set has.
fn count_classes(set: &ByteSet) -> usize {
    let mut count = 0usize;
    for class in 0..CLASSES {
        if has_class(set, class) {
            count = count.saturating_add(1);
        }
    }
    count
}

/// Whether a row has so many sets, and few keys then.
fn is_short(row: &[ByteSet], width: usize) -> bool {
    if row.len() < width {
        return false;
    }
    let mut windows = 1usize;
    for i in 0..width {
        windows = windows.saturating_mul(count_classes(&row[i]));
    }
    windows <= WINDOWS
}

/// Whether each row has so many sets, and few keys then.
fn are_short(rows: &[Vec<ByteSet>], width: usize) -> bool {
    for row in rows {
        if !is_short(row, width) {
            return false;
        }
    }
    true
}

/// How many bytes keys of these rows are made of: as many as may be; none where even the first ones have too many.
pub(crate) fn width_of(rows: &[Vec<ByteSet>]) -> usize {
    for less in 0..WIDTH {
        if are_short(rows, WIDTH - less) {
            return WIDTH - less;
        }
    }
    0
}

/// A number at a key.
#[derive(Clone, Copy)]
pub(crate) struct Entry {
    key: usize,
    number: usize,
}

/// Adds a number at a key, where it is not the last that was added there.
fn add_entry(
    entry: Entry,
    latest: &mut Vec<usize>,
    entries: &mut Vec<Entry>,
) -> Result<(), AllocError> {
    if entry.key >= latest.len() || latest[entry.key] == entry.number.saturating_add(1) {
        return Ok(());
    }
    latest[entry.key] = entry.number.saturating_add(1);
    entries.push(entry)?;
    Ok(())
}

/// Adds a number at each key that bytes of these sets give.
#[cycle(gather)]
fn gather(
    sets: &[ByteSet],
    seed: usize,
    number: usize,
    latest: &mut Vec<usize>,
    entries: &mut Vec<Entry>,
) -> Result<(), AllocError>
    requires { seed < keys }
{
    let Some(set) = sets.first() else {
        return add_entry(Entry { key: seed, number }, latest, entries);
    };
    for class in 0..CLASSES {
        if has_class(set, class) {
            gather(&sets[1..], mixed(seed, class), number, latest, entries)?;
        }
    }
    Ok(())
}

/// The numbers of all rows at their keys, the least number first.
pub(crate) fn entries_of(
    alloc: Global,
    rows: &[Vec<ByteSet>],
    width: usize,
) -> Result<Vec<Entry>, AllocError> {
    let mut latest = Vec::new(alloc);
    latest.resize(KEYS, 0)?;
    let mut entries = Vec::new(alloc);
    for number in 0..rows.len() {
        let row = &rows[number];
        if width <= row.len() {
            gather(&row[..width], 0, number, &mut latest, &mut entries)?;
        }
    }
    Ok(entries)
}

/// Of each key how many entries stand before it, and after the last key how many there are.
pub(crate) fn starts_of(alloc: Global, entries: &[Entry]) -> Result<Vec<u32>, AllocError> {
    let mut counts = Vec::new(alloc);
    counts.resize(KEYS, 0u32)?;
    for entry in entries {
        if entry.key < counts.len() {
            counts[entry.key] = counts[entry.key].saturating_add(1);
        }
    }
    let mut starts = Vec::with_capacity(alloc, KEYS + 1)?;
    let mut before = 0u32;
    starts.push(before)?;
    for count in &counts {
        before = before.saturating_add(*count);
        starts.push(before)?;
    }
    Ok(starts)
}

/// The numbers of the entries, those of a key one after another in their order.
pub(crate) fn members_of(
    alloc: Global,
    entries: &[Entry],
    starts: &[u32],
) -> Result<Vec<u32>, AllocError> {
    let mut members = Vec::new(alloc);
    members.resize(entries.len(), 0u32)?;
    let mut next = starts.to_vec(alloc)?;
    for entry in entries {
        place_entry(*entry, &mut next, &mut members);
    }
    Ok(members)
}

/// Puts the number of an entry at the next place of its key.
fn place_entry(entry: Entry, next: &mut Vec<u32>, members: &mut Vec<u32>) {
    let Ok(number) = u32::try_from(entry.number) else {
        return;
    };
    if entry.key >= next.len() {
        return;
    }
    let at = next[entry.key] as usize;
    next[entry.key] = next[entry.key].saturating_add(1);
    if at < members.len() {
        members[at] = number;
    }
}

/// Whether these members rise, from the one place on and before the other.
fn do_rise(members: &[u32], from: usize, to: usize) -> bool
    ensures { result ≡ true → RiseBetween members.now from to }
{
    for i in from..to.min(members.len()) {
        if i > from && members[i - 1] >= members[i] {
            return false;
        }
    }
    true
}

/// Whether the members of each key rise.
fn are_rising(starts: &[u32], members: &[u32]) -> bool
    requires { length starts.now ≡ keys + 1 }
    ensures { result ≡ true → AreRising starts.now members.now }
{
    for key in 0..KEYS {
        if !do_rise(members, starts[key] as usize, starts[key + 1] as usize) {
            return false;
        }
    }
    true
}

/// Whether each member is below the count.
fn are_below(members: &[u32], count: usize) -> bool
    ensures { result ≡ true → AreBelow members.now count }
{
    for member in members {
        if *member as usize >= count {
            return false;
        }
    }
    true
}

/// Whether the number is among these members, from the one place on and before the other.
fn is_among(members: &[u32], from: usize, to: usize, number: usize) -> bool
    ensures { result ≡ true → IsAmong members.now from to number }
{
    for i in from..to.min(members.len()) {
        if members[i] as usize == number {
            return true;
        }
    }
    false
}

/// Whether the number is among those of each key that bytes of these sets give, after what was read before.
#[cycle(covers)]
fn covers(starts: &[u32], members: &[u32], number: usize, seed: usize, sets: &[ByteSet]) -> bool
    requires sized { length starts.now ≡ keys + 1 }
    requires seed { seed < keys }
    ensures { result ≡ true → Covers starts.now members.now number seed sets.now }
{
    let Some(set) = sets.first() else {
        return is_among(
            members,
            starts[seed] as usize,
            starts[seed + 1] as usize,
            number,
        );
    };
    for class in 0..CLASSES {
        if has_class(set, class)
            && !covers(starts, members, number, mixed(seed, class), &sets[1..])
        {
            return false;
        }
    }
    true
}

/// Whether the number of each row is among those of each key that its first bytes give.
fn covers_all(starts: &[u32], members: &[u32], rows: &[Vec<ByteSet>], width: usize) -> bool
    requires { length starts.now ≡ keys + 1 }
    ensures { result ≡ true → AreCovered starts.now members.now rows.now width }
{
    for number in 0..rows.len() {
        let row = &rows[number];
        if row.len() < width || !covers(starts, members, number, 0, &row[..width]) {
            return false;
        }
    }
    true
}

/// Whether a table of these starts and members tells of each row where it may stand, its numbers rise at each key, and each is that of a
/// row.
pub(crate) fn is_sound(starts: &[u32], members: &[u32], rows: &[Vec<ByteSet>], width: usize) -> bool
    ensures sized { result ≡ true → length starts.now ≡ keys + 1 }
    ensures rising { result ≡ true → AreRising starts.now members.now }
    ensures below { result ≡ true → AreBelow members.now (length rows.now) }
    ensures covered { result ≡ true → AreCovered starts.now members.now rows.now width }
{
    if starts.len() != KEYS + 1 {
        return false;
    }
    if !are_rising(starts, members) {
        return false;
    }
    if !are_below(members, rows.len()) {
        return false;
    }
    covers_all(starts, members, rows, width)
}

/// The numbers of rows of byte sets, by the key of the bytes that stand first in them. Rows with the same key stand one
/// after another in `members`, the least number first.
#[derive(Drop)]
pub struct KeyTable {
    /// How many bytes a key is made of.
    pub width: usize,
    /// Of each key where its numbers begin in `members`, and after the last key where they end.
    pub(crate) starts: Vec<u32>,
    /// The numbers.
    pub(crate) members: Vec<u32>,
    ghost wide: { 0 < width },
    ghost sized: { length starts.items ≡ keys + 1 },
    ghost rising: { AreRising starts.items members.items },
}
