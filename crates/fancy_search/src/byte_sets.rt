//! The bytes that matches of a pattern start with, and those that every haystack with a match has, without its code.

ghost use Rattle.std.specs.Prelude.{◌≡◌, chars, IfOk, IfErr};
ghost use Rattle.fancy_tree.specs.Pattern.{Pattern};
ghost use Rattle.fancy_tree.specs.declared.error.Error.TheVariants.{Memory};
ghost use Rattle.fancy_syntax.specs.Dialect.{IsPattern};
ghost use Rattle.fancy_syntax.specs.Refusals.{IsRefused};
ghost use Rattle.fancy_search.specs.ByteSets.{HasStartBytes, HasRequiredBytes};
ghost use Rattle.fancy_search.specs.Options.{dialect_of};

use crate::options::Options;
use fancy_bytes::byte_set::ByteSet;
use fancy_bytes::{required, start};
use fancy_syntax::parse::parse_with;
use fancy_tree::error::Result;
use std::alloc::Global;

/// The bytes that each match of this pattern starts with. `None` where a match may be empty, or may start elsewhere than where
/// it was searched (`\K`). It is refused where the text is no pattern of the dialect, and where memory runs out (`Memory`).
pub fn start_bytes(alloc: Global, pattern: &str, options: Options) -> Result<Option<ByteSet>>
    ensures value { IfOk result (λ set. HasStartBytes options (chars pattern.now) set) }
    ensures refused { IfErr result (λ e. IsRefused e (dialect_of options) (chars pattern.now)) }
    ensures succeeds { (p : Pattern) → IsPattern (dialect_of options) (chars pattern.now) p
        → IfErr result (λ e. e ≡ Memory) }
{
    let parsed = parse_with(alloc, pattern, options.parse_options())?;
    Ok(start::start_bytes(&parsed.tree, options.meaning()))
}

/// The bytes that every haystack has in which this pattern matches somewhere. It is refused where the text is no pattern of
/// the dialect, and where memory runs out (`Memory`).
pub fn required_bytes(alloc: Global, pattern: &str, options: Options) -> Result<ByteSet>
    ensures value { IfOk result (λ set. HasRequiredBytes options (chars pattern.now) set) }
    ensures refused { IfErr result (λ e. IsRefused e (dialect_of options) (chars pattern.now)) }
    ensures succeeds { (p : Pattern) → IsPattern (dialect_of options) (chars pattern.now) p
        → IfErr result (λ e. e ≡ Memory) }
{
    let parsed = parse_with(alloc, pattern, options.parse_options())?;
    Ok(required::required_bytes(&parsed.tree, options.meaning()))
}
