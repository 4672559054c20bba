//! The search for bytes that a haystack may lack.

ghost use Rattle.std.specs.Prelude.{◌≡◌, ◌&&◌, ℕ, List, nat_lt, not, IfOk};
ghost use Rattle.fancy_tree.specs.Pattern.{pattern_of};
ghost use Rattle.fancy_bytes.specs.Items.{includes};
ghost use Rattle.fancy_bytes.specs.Sets.{member};
ghost use Rattle.fancy_bytes.specs.Lacks.{includes_all, AreKnown, AreRequired};

use crate::byte_set::ByteSet;
use crate::required::required_bytes;
use fancy_tree::tree::{Meaning, Tree};
use memchr::memchr;
use std::alloc::{AllocError, Global};
use std::marker::Model;

/// Whether the byte stands in the haystack.
fn has_byte(haystack: &[u8], byte: u8) -> bool
    ensures { result ≡ includes haystack.now byte }
{
    memchr(byte, haystack).is_some()
}

/// Whether the byte stands in the haystack. It is looked for from the place on at first, where a search is about to go, and
/// then before it.
fn stands(haystack: &[u8], from: usize, byte: u8) -> bool
    ensures { result ≡ includes haystack.now byte }
{
    if from > haystack.len() {
        return has_byte(haystack, byte);
    }
    has_byte(&haystack[from..], byte) || has_byte(&haystack[..from], byte)
}

/// The members of a set, one after the other.
fn members_of(alloc: Global, set: &ByteSet) -> Result<Vec<u8>, AllocError>
    ensures { IfOk result (λ bytes. (b : ℕ) → includes bytes.items b ≡ (nat_lt b 256 && member set.now b)) }
{
    let mut bytes = Vec::new(alloc);
    for code in 0..256u32 {
        let byte = code as u8;
        if set.contains(byte) {
            bytes.push(byte)?;
        }
    }
    Ok(bytes)
}

/// What is known of the bytes of one haystack: those that were looked for, and stand in it or do not.
#[derive(Drop)]
pub struct KnownBytes {
    standing: ByteSet,
    lacking: ByteSet,
}

impl KnownBytes {
    /// Nothing is known yet.
    pub fn new() -> KnownBytes
        ensures { (haystack : List ℕ) → AreKnown result haystack }
    {
        KnownBytes {
            standing: ByteSet::new(),
            lacking: ByteSet::new(),
        }
    }

    /// Whether the byte stands in the haystack. It is looked for at most once, from a place on at first.
    fn has(&mut self, haystack: &[u8], from: usize, byte: u8) -> bool
        requires known { AreKnown self.old haystack.now }
        ensures value { result ≡ includes haystack.now byte }
        ensures known { AreKnown self.new haystack.now }
    {
        if self.standing.contains(byte) {
            return true;
        }
        if self.lacking.contains(byte) {
            return false;
        }
        if stands(haystack, from, byte) {
            self.standing.insert(byte);
            return true;
        }
        self.lacking.insert(byte);
        false
    }
}

/// The bytes that every haystack with a match has, made ready to be looked for.
#[derive(Drop)]
pub struct RequiredBytes {
    bytes: Vec<u8>,
}

impl Model for RequiredBytes {
    ghost Value = { List ℕ };

    ghost view = { λ r. r.bytes.items };
}

impl RequiredBytes {
    /// Those of the pattern. It is refused where memory runs out.
    pub fn new(alloc: Global, tree: &Tree, meaning: Meaning) -> Result<RequiredBytes, AllocError>
        ensures { IfOk result (AreRequired meaning (pattern_of tree.now)) }
    {
        let bytes = members_of(alloc, &required_bytes(tree, meaning))?;
        Ok(RequiredBytes { bytes })
    }

    /// Whether one of the bytes stands nowhere in the haystack. A byte of which that is not known yet is looked for, from a place
    /// on at first, and is known then.
    pub fn are_lacking(&self, haystack: &[u8], from: usize, known: &mut KnownBytes) -> bool
        requires known { AreKnown known.old haystack.now }
        ensures value { result ≡ not (includes_all haystack.now self.now) }
        ensures known { AreKnown known.new haystack.now }
    {
        for i in 0..self.bytes.len() {
            if !known.has(haystack, from, self.bytes[i]) {
                return true;
            }
        }
        false
    }
}
