//! How a pattern is read and searched.

ghost use Rattle.std.specs.Prelude.{◌≡◌, ◌&&◌, not};
ghost use Rattle.fancy_syntax.specs.Views.{dialect_options};
ghost use Rattle.fancy_tree.specs.Pattern.{pattern_of};
ghost use Rattle.fancy_search.specs.Options.{by_default, meaning_in, dialect_of, is_easy_under, search_options};
ghost use Rattle.fancy_search.specs.ProgramSize.{passes};

use fancy_code::classify::is_easy;
use fancy_meaning::options::SearchOptions;
use fancy_syntax::flags::Flags;
use fancy_syntax::parse::ParseOptions;
use fancy_tree::tree::{BytesMode, Meaning, Tree};

/// How many returns a search may take where nothing else is set.
const BACKTRACK_LIMIT: usize = 1_000_000;

/// How many branches a search may have saved at one time where nothing else is set.
const STACK_LIMIT: usize = 1_000_000;

/// The options of a program: how its pattern is read, and how it is searched.
#[derive(Clone, Copy, PartialEq, Eq)]
pub struct Options {
    /// How bytes are read.
    pub bytes_mode: BytesMode,
    /// Whether items are of all of Unicode.
    pub unicode_mode: bool,
    /// The flags that hold at the pattern's start.
    pub flags: Flags,
    /// Whether groups without a name capture nothing where a group has one.
    pub ignore_numbered_groups_when_named_groups_exist: bool,
    /// Whether an input may suppress the text's start, its end, and `\G`.
    pub allow_input_assertion_overrides: bool,
    /// How many returns to an earlier choice a search for a hard pattern may take.
    pub backtrack_limit: usize,
    /// How many branches a search for a hard pattern may have saved at one time.
    pub stack_limit: usize,
    /// How much work a search may do, if that is limited: its steps, the units that look-behinds go back, the bytes of texts that
    /// backreferences compare, and the items that loops of one item read together.
    pub step_limit: Option<usize>,
    /// How many instructions a hard pattern's code may have, if that is limited.
    pub max_prog_size: Option<usize>,
    /// Whether empty matches are refused.
    pub find_not_empty: bool,
    /// Whether a search asks for the longest match at its position, and not for the one that the pattern prefers.
    pub leftmost_longest: bool,
    /// Whether a search for a hard pattern passes over the positions where no match begins, as the bytes of the haystack tell.
    pub seek: bool,
}

impl Default for Options {
    ghost is_default = { λ o. o ≡ by_default };

    /// `BytesMode::Unicode`, the Unicode mode on, at most 1,000,000 returns and as many saved branches, no limit of steps, and every
    /// other switch off.
    fn default() -> Options {
        Options {
            bytes_mode: BytesMode::Unicode,
            unicode_mode: true,
            flags: Flags::NONE,
            ignore_numbered_groups_when_named_groups_exist: false,
            allow_input_assertion_overrides: false,
            backtrack_limit: BACKTRACK_LIMIT,
            stack_limit: STACK_LIMIT,
            step_limit: None,
            max_prog_size: None,
            find_not_empty: false,
            leftmost_longest: false,
            seek: false,
        }
    }
}

impl Options {
    /// What an item consumes.
    pub(crate) fn meaning(&self) -> Meaning
        ensures { result ≡ meaning_in self.now }
    {
        self.bytes_mode.meaning(self.unicode_mode)
    }

    /// What holds at the start of a pattern.
    pub(crate) fn parse_options(&self) -> ParseOptions
        ensures { dialect_options result ≡ dialect_of self.now }
    {
        ParseOptions {
            meaning: self.meaning(),
            keeps_characters: self.bytes_mode.keeps_characters(),
            only_named: self.ignore_numbered_groups_when_named_groups_exist,
            not_empty: self.find_not_empty,
            flags: self.flags,
        }
    }

    /// What an engine is told of them.
    pub(crate) fn for_search(&self) -> SearchOptions
        ensures { result ≡ search_options self.now }
    {
        SearchOptions {
            on_boundaries: self.bytes_mode.keeps_characters(),
            overrides: self.allow_input_assertion_overrides,
            not_empty: self.find_not_empty,
            longest: self.leftmost_longest,
            backtrack_limit: self.backtrack_limit,
            stack_limit: self.stack_limit,
            step_limit: self.step_limit,
            seek: self.seek,
        }
    }

    /// Whether a pattern is easy under these options.
    pub(crate) fn is_easy(&self, tree: &Tree) -> bool
        ensures { result ≡ is_easy_under self.now (pattern_of tree.now) }
    {
        is_easy(tree) && !self.find_not_empty && !self.leftmost_longest
    }

    /// Whether a pattern, easy or hard, is refused for so many instructions.
    pub(crate) fn forbids(&self, easy: bool, count: usize) -> bool
        ensures { result ≡ (not easy && passes count self.now.max_prog_size) }
    {
        match self.max_prog_size {
            Some(size) => !easy && count > size,
            None => false,
        }
    }
}
