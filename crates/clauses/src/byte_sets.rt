//! With which bytes a match begins, and which it needs.

ghost use Rattle.std.specs.Iterator.{YieldsFirst};
ghost use Rattle.std.specs.Prelude.{◌<◌, ◌==◌, ◌≡◌, IfErr, IfOk, chars, false, length, true, ℕ};
ghost use Rattle.fancy_regex.specs.Builders.{options_of};
ghost use Rattle.fancy_regex.specs.ByteIterations.{members_left};
ghost use Rattle.fancy_regex.specs.ByteMembers.{AddsBytes, IsSetOf, KeepsBytes, all_members, member};
ghost use Rattle.fancy_regex.specs.ByteSets.{HasRequiredBytes, HasStartBytes};
ghost use Rattle.fancy_regex.specs.Dialect.{IsPattern};
ghost use Rattle.fancy_regex.specs.Options.{dialect_of};
ghost use Rattle.fancy_regex.specs.Pattern.{Pattern};
ghost use Rattle.fancy_regex.specs.Refusals.{IsRefused};
ghost use Rattle.fancy_regex.specs.declared.Error.TheVariants.{Memory};

use fancy_regex::{ByteSet, Members, RegexOptionsBuilder, Result};
use std::alloc::Global;

/// The bytes that each match of a pattern starts with.
pub fn start_bytes(
    options: &RegexOptionsBuilder,
    alloc: Global,
    pattern: &str,
) -> Result<Option<ByteSet>>
    ensures value { IfOk result
        (λ set. HasStartBytes (options_of options.now) (chars pattern.now) set) }
    ensures refused { IfErr result
        (λ e. IsRefused e (dialect_of (options_of options.now)) (chars pattern.now)) }
    ensures succeeds { (p : Pattern)
        → IsPattern (dialect_of (options_of options.now)) (chars pattern.now) p
        → IfErr result (λ e. e ≡ Memory) }
{
    options.start_bytes(alloc, pattern)
}

/// The bytes that every haystack with a match has.
pub fn required_bytes(
    options: &RegexOptionsBuilder,
    alloc: Global,
    pattern: &str,
) -> Result<ByteSet>
    ensures value { IfOk result
        (λ set. HasRequiredBytes (options_of options.now) (chars pattern.now) set) }
    ensures refused { IfErr result
        (λ e. IsRefused e (dialect_of (options_of options.now)) (chars pattern.now)) }
    ensures succeeds { (p : Pattern)
        → IsPattern (dialect_of (options_of options.now)) (chars pattern.now) p
        → IfErr result (λ e. e ≡ Memory) }
{
    options.required_bytes(alloc, pattern)
}

/// The set of one byte.
pub fn of(byte: u8) -> ByteSet
    ensures { IsSetOf (λ b. b == byte) result }
{
    ByteSet::of(byte)
}

/// The set without members, and that of all bytes.
pub fn extremes() -> (ByteSet, ByteSet)
    ensures none { (b : ℕ) → b < 256 → member result.0 b ≡ false }
    ensures all { (b : ℕ) → b < 256 → member result.1 b ≡ true }
{
    (ByteSet::new(), ByteSet::all())
}

/// One more member.
pub fn insert(set: &mut ByteSet, byte: u8)
    ensures { AddsBytes (λ b. b == byte) set.old set.new }
{
    set.insert(byte);
}

/// The members of either set, and those of both.
pub fn joins(set: &ByteSet, other: &ByteSet) -> (ByteSet, ByteSet)
    ensures union { AddsBytes (member other.now) set.now result.0 }
    ensures intersection { KeepsBytes (member other.now) set.now result.1 }
{
    (set.union(other), set.intersection(other))
}

/// Whether a byte is a member, how many members there are, and whether there is none.
pub fn reads(set: &ByteSet, byte: u8) -> (bool, usize, bool)
    ensures contains { result.0 ≡ member set.now byte }
    ensures len { result.1 ≡ length (all_members set.now) }
    ensures is_empty { result.2 ≡ (length (all_members set.now) == 0) }
{
    (set.contains(byte), set.len(), set.is_empty())
}

/// The members in ascending order.
pub fn iter(set: &ByteSet) -> Members<'_>
    ensures { members_left result ≡ all_members set.now }
{
    set.iter()
}

/// The next member.
pub fn next_member(members: &mut Members<'_>) -> Option<u8>
    ensures { YieldsFirst members_left members.old result members.new }
{
    members.next()
}

/// A loop over the members ends.
pub fn ends(members: Members<'_>) {
    for _ in members {}
}
