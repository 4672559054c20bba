//! Regexes with look-around and backreferences whose answers are proved.
//!
//! A pattern is read once, and is then searched for, in text or in bytes:
//!
//! ```text
//! let regex = Regex::new(alloc, "a|ab")?;
//! let found = regex.find("xab")?;  // the bytes 1..2
//! ```
//!
//! [`Regex`] finds, captures, splits and replaces; [`RegexOptionsBuilder`] and [`RegexBuilder`] build one with options, and
//! [`RegexInput`] says where to search. [`RegexSet`] asks several patterns at once, and cuts a text into tokens. [`Expander`]
//! expands and checks templates, and [`escape`] makes a pattern of a text. [`laws`] has the laws of regexes, `dialect_laws`,
//! `meaning_laws`, `byte_laws` and `template_laws` those of what they are made of.
//!
//! All offsets are byte offsets into the haystack. Whatever is refused has a name: see [`Error`]. Each search has a condition,
//! which [`Regex::can_search`] tests. The README of the repository has a whole program and examples by task; CALLING.md in this
//! crate's folder says what a caller with contracts needs.
#![tactic(auto)]

mod builder;
mod escapes;
pub mod laws;
mod options;
mod set;
mod tokens;

pub use builder::RegexBuilder;
pub use escapes::escape;
pub use fancy_bytes::byte_set::ByteSet;
pub use fancy_bytes::members::Members;
pub use fancy_core::cached::SearchCache;
pub use fancy_core::captures::{Captures, SubCaptureMatches};
pub use fancy_core::iter::{CaptureMatches, Matches};
pub use fancy_core::names::CaptureNames;
pub use fancy_core::regex::Regex;
pub use fancy_core::replacer::{NoExpand, ReplaceFn, Replacer, ReplacerRef};
pub use fancy_core::split::{Split, SplitN};
pub use fancy_explain::Explain;
pub use fancy_input::bytes::MatchBytes;
pub use fancy_input::input::{Haystack, Input, Request};
pub use fancy_input::matches::Match;
pub use fancy_input::refusal::SearchRefusal;
pub use fancy_input::regex_input::RegexInput;
pub use fancy_input::span::Span;
pub use fancy_input::work::Work;
pub use fancy_lines::{LineColumn, LineIndex, line_at};
pub use fancy_meaning::{byte_laws, laws as meaning_laws};
pub use fancy_search::options::Options;
pub use fancy_search::searcher::Onward;
pub use fancy_syntax::flags::Flags;
pub use fancy_syntax::laws as dialect_laws;
pub use fancy_template::expander::Expander;
pub use fancy_template::groups::{GroupNames, GroupTexts};
pub use fancy_template::laws as template_laws;
pub use fancy_template::steps::{Step, Steps};
pub use fancy_template::write::Writer;
pub use fancy_tree::error::{CompileError, Error, ParseErrorKind, Result, RuntimeError};
pub use fancy_tree::tree::{BytesMode, Meaning};
pub use options::RegexOptionsBuilder;
pub use set::{RegexSet, RegexSetMatch, RegexSetMatchesAt};
pub use tokens::{Token, Tokens};
