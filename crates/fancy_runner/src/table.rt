//! The table of visited pairs.

ghost use Rattle.std.specs.Prelude.{◌≡◌, ◌+◌, ◌-◌, ◌*◌, ◌<◌, ◌≤◌, ◌^◌, ◌++◌, [], List, Bool, true, false, not, length, replicate, drop, OnOk, IfOk, slice_index_or, slice_set, vec_len, vec_capacity};
ghost use Rattle.fancy_runner.specs.Table.{full_word, with_gone, bits_of, IsCleared, IsForgotten};

use std::alloc::{AllocError, Global};
use std::marker::Model;

/// Appends a word again and again, up to a length. The room for them is there.
fn fill(words: &mut Vec<u64>, len: usize, word: u64)
    requires { len ≤ vec_capacity words.old }
    ensures items { words.new.items ≡ words.old.items ++ replicate (len - vec_len words.old) word }
    ensures capacity { vec_capacity words.new ≡ vec_capacity words.old }
{
    'fill: while words.len() < len {
        words.push_reserved(word);
    }
}

/// Puts so many words with all bits set before the others. The room for them is there.
fn put_before(words: &mut Vec<u64>, count: usize)
    requires { vec_len words.old + count ≤ vec_capacity words.old }
    ensures items { words.new.items ≡ replicate count full_word ++ words.old.items }
    ensures capacity { vec_capacity words.new ≡ vec_capacity words.old }
{
    if count == 0 {
        return;
    }
    let len = words.len() + count;
    fill(words, len, u64::MAX);
    words.rotate_right(count);
}

/// Takes so many words away from the front, or all. The room for them is kept.
fn drop_front(words: &mut Vec<u64>, count: usize)
    ensures items { words.new.items ≡ drop count words.old.items }
    ensures capacity { vec_capacity words.new ≡ vec_capacity words.old }
{
    if count >= words.len() {
        words.clear();
        return;
    }
    let left = words.len() - count;
    words.rotate_left(count);
    words.truncate(left);
}

/// Of fewer words, 64 KB of them, no part is forgotten, since the rest would have to be moved.
const LEAST_WORDS: usize = 8_192;

/// Which pairs were visited: one bit a pair. The room for all words is reserved when the table is made or
/// begun anew; a word is filled in only once a pair in it or past it is reached. The words at the front can be forgotten: then
/// their pairs count as visited.
#[derive(Drop)]
pub struct Table {
    // those that were not forgotten
    words: Vec<u64>,
    pairs: usize,
    // so many words were forgotten
    gone: usize,
}

impl Model for Table {
    ghost Value = { List Bool };

    ghost view = { λ t. bits_of (with_gone t.gone t.words.items) t.pairs };

    ghost invariant = { λ t. (t.pairs ≤ 64 * vec_capacity t.words)
        × (t.gone + vec_len t.words ≤ vec_capacity t.words) };
}

impl Table {
    /// A table of no pairs.
    pub fn new(alloc: Global) -> Table
        ensures { result ≡ [] }
    {
        Table {
            words: Vec::new(alloc),
            pairs: 0,
            gone: 0,
        }
    }

    /// Begins anew with so many pairs, none visited. The memory that it has is kept.
    pub fn reset(&mut self, pairs: usize) -> Result<(), AllocError>
        ensures { OnOk result (self.new ≡ replicate pairs false) }
    {
        self.words.clear();
        self.gone = 0;
        self.words.reserve(pairs.div_ceil(64))?;
        self.pairs = pairs;
        Ok(())
    }

    /// Marks a pair, and returns whether it was new. It takes no memory.
    pub fn mark(&mut self, n: usize) -> bool
        requires { n < length self.old }
        ensures new { result ≡ not (slice_index_or self.old n false) }
        ensures after { self.new ≡ slice_set self.old n true }
        ensures same { result ≡ false → self.new ≡ self.old }
    {
        let at = n / 64;
        if at < self.gone {
            return false;
        }
        let at = at - self.gone;
        fill(&mut self.words, at + 1, 0);
        let word = self.words[at];
        let bit = 1u64 << (n % 64);
        self.words[at] = word | bit;
        word & bit == 0
    }

    /// Whether a pair was visited.
    #[inline]
    pub fn has(&self, n: usize) -> bool
        requires { n < length self.now }
        ensures { result ≡ slice_index_or self.now n false }
    {
        let at = n / 64;
        if at < self.gone {
            return true;
        }
        let at = at - self.gone;
        if at >= self.words.len() {
            return false;
        }
        let word = self.words[at];
        word & (1u64 << (n % 64)) != 0
    }

    /// Takes the mark of a pair away, if it has one. It takes no memory.
    fn unmark(&mut self, n: usize)
        requires { n < length self.old }
        ensures { self.new ≡ slice_set self.old n false }
    {
        let back = self.gone.saturating_sub(n / 64);
        put_before(&mut self.words, back);
        self.gone -= back;
        let at = n / 64 - self.gone;
        if at < self.words.len() {
            let word = self.words[at];
            self.words[at] = word & !(1u64 << (n % 64));
        }
    }

    /// Takes the marks of so many pairs away, from the one with this number on. It takes no memory.
    pub fn clear(&mut self, from: usize, count: usize)
        requires within { from + count ≤ length self.old }
        requires small { length self.old < 2 ^ 64 }
        ensures { IsCleared self.old self.new from count }
    {
        'pairs: for k in 0..count {
            self.unmark(from + k);
        }
    }

    /// Forgets the words whose pairs all have lower numbers, where all words are such, or at least half of many; these pairs count as
    /// visited from then on.
    pub fn forget(&mut self, before: usize)
        requires { before ≤ length self.old }
        ensures { IsForgotten self.old self.new before }
    {
        let count = (before / 64).saturating_sub(self.gone);
        let len = self.words.len();
        if count < len && (len < LEAST_WORDS || count < len / 2) {
            return;
        }
        drop_front(&mut self.words, count);
        self.gone += count;
    }
}
