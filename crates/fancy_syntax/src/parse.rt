//! Patterns are read here.

ghost use Rattle.std.specs.Prelude.{◌≡◌, ◌+◌, ◌<◌, ◌^◌, length, IfOk, IfErr, Some, true, false, chars};
ghost use Rattle.fancy_tree.specs.declared.error.Error.TheVariants.{Memory};
ghost use Rattle.fancy_tree.specs.Sizes.{size, are_sized};
ghost use Rattle.fancy_syntax.specs.Dialect.{standard, begin, Spells, SpellsUnder, IsPattern};
ghost use Rattle.fancy_tree.specs.Names.{named_groups};
ghost use Rattle.fancy_tree.specs.GroupNames.{names_of};
ghost use Rattle.fancy_tree.specs.Pattern.{Pattern, pattern_of};
ghost use Rattle.fancy_tree.specs.Refers.{refers_to};
ghost use Rattle.fancy_syntax.specs.Refusals.{IsRefused};
ghost use Rattle.fancy_syntax.specs.Views.{dialect_options, draft_groups, draft_numbers, AreResolved, HaveFault, MemoryOr, RefusesReference, RefusesSizes, SpellsDraft, HasNoSpelling};

use crate::flags::Flags;
use crate::parser::Parser;
use crate::reference::Target;
use crate::resolve::{Groups, names_alone};
use fancy_class::cursor::Cursor;
use fancy_class::named_sets::NamedSets;
use fancy_tree::error::{CompileError, Error, ParseErrorKind};
use fancy_tree::name::{GroupName, Names, characters_of};
use fancy_tree::tree::{Meaning, Tree};
use std::alloc::Global;

/// How many parentheses may be open at one place.
const MAX_DEPTH: u32 = 128;

/// How many nodes a pattern may have, with counted repeats written out.
const MAX_NODES: usize = 4_000_000;

/// What holds at the start of a pattern.
#[derive(Clone, Copy, PartialEq, Eq)]
pub struct ParseOptions {
    /// What an item consumes.
    pub meaning: Meaning,
    /// Whether matches begin and end on character boundaries alone. Where they do not, `\xE9` is a byte.
    pub keeps_characters: bool,
    /// Whether groups without a name capture nothing, and have no number, where a group has one.
    pub only_named: bool,
    /// Whether empty matches are refused, so that a pattern of size 0 can never match.
    pub not_empty: bool,
    /// The flags that are set.
    pub flags: Flags,
}

impl ParseOptions {
    /// Items are characters, and no flag is set.
    pub const STANDARD: ParseOptions = ParseOptions {
        meaning: Meaning::Unicode,
        keeps_characters: true,
        only_named: false,
        not_empty: false,
        flags: Flags::NONE,
    };
}

/// What the text of a pattern says.
#[derive(Drop)]
pub struct Parsed {
    /// The pattern.
    pub tree: Tree,
    /// How many groups it has, with group 0, the whole match: those that are written have the numbers from 1 to
    /// `groups - 1`, in the order of their openings.
    pub groups: usize,
    /// The names of groups, in the order of their openings.
    pub names: Names,
}

/// Reads a pattern, whose items are characters.
///
/// The forms:
///
/// - literal characters, and a backslash before ASCII punctuation (other than `<` and `>`) or a space;
/// - the control characters `\a \e \f \n \r \t \v`, and characters by their numbers, as `\xE9`, `\u00E9`,
///   `\U000000E9` and `\x{E9}`;
/// - `.`, `\O`, `\N`, the sets `\d \s \w \h` and their complements `\D \S \W \H`, properties of Unicode as
///   `\p{Greek}`, `\pL` and `\P{Greek}`, and classes as `[a-z&&[^aeiou]]`;
/// - the assertions `^ $ \A \z \Z \b \B \< \> \b{start} \b{end} \b{start-half} \b{end-half}`, and `\G`, the search's start;
/// - `\K`, where the match starts, but not inside of look-around;
/// - groups `(..)`, which capture and are numbered from 1 by their openings, and `(?:..)`, which do not;
/// - capturing groups with a name, `(?<n>..)` and `(?P<n>..)`, where the name `n` is a row of alphabetic characters,
///   numbers (of category Nd, Nl or No) and `_`; several groups may have one name;
/// - atomic groups `(?>..)`, look-ahead `(?=..)` and look-behind `(?<=..)`, and their negations `(?!..)` and `(?<!..)`;
/// - backreferences by number, `\1`, of a row of digits that does not begin with 0; by name, `(?P=n)`; by name or else by
///   number, `\k<n>` and `\k'n'`; and `\k<-n>` and `\k'-n'` to the group `n` back from those opened before it, where 1
///   is the last one. A group may stand after a reference to it, and of several groups with one name the last is meant;
/// - conditionals `(?(1)yes|no)`, `(?(<n>)yes|no)` and `(?('n')yes|no)`, which test whether a group has taken part, and
///   `(?(condition)yes|no)`, whose condition is a pattern; the first branch is that for yes, and all others are that for no;
/// - branches joined by `|`;
/// - the quantifiers `?`, `*`, `+`, `{n}`, `{n,}`, `{n,m}` and `{,m}`, each with a `?` after it where it is lazy, or a
///   `+` where it is possessive; the bounds `n` and `m` are at most 4,294,967,295;
/// - comments `(?#..)` between items and before quantifiers;
/// - the flags `i m s x u R`, as `(?ms-x)` up to the end of the enclosing group, over later branches too, or as
///   `(?ms-x:..)` for a group.
///
/// At most 128 parentheses are open at one place, among them those of flags, of `(?P=n)` and both of `(?(`, but not those of
/// comments; and at most 128 brackets of classes.
///
/// A text that is no pattern is refused by an [`Error::ParseError`], whose place is a byte offset into it, of 0
/// to the length of `pattern`; one of more than 4,000,000 nodes by [`CompileError::PatternTooComplex`]. A reference to, or a test
/// of, a group that the pattern does not have is refused by [`CompileError::InvalidBackref`] with its number, or by
/// [`CompileError::InvalidGroupNameBackref`] with its name; a number above 4,294,967,295 stands as that. A look-behind
/// whose body has no one size, and is no alternative of branches that each have one, is refused by
/// [`CompileError::LookBehindNotConst`], as `(?<=a+)`; `(?<=a|bc)` is not. Where memory runs out the answer is
/// [`Error::Memory`], and a pattern is refused in no other case.
///
/// As an example `(a|b)?c` is the sequence of an optional group 1 and a character, so that `groups` is 2, while
/// `a)` is refused at place 1 with [`ParseErrorKind::GeneralParseError`].
pub fn parse(alloc: Global, pattern: &str) -> Result<Parsed, Error>
    ensures accepted { IfOk result
        (λ r. (h : IsPattern standard (chars pattern.now) (pattern_of r.tree)) × (h.end.opened + 1 ≡ r.groups)
        × (names_of r.names ≡ h.end.names)) }
    ensures refused { IfErr result (λ e. IsRefused e standard (chars pattern.now)) }
    ensures succeeds { (p : Pattern) → IsPattern standard (chars pattern.now) p → IfErr result (λ e. e ≡ Memory) }
{
    parse_with(alloc, pattern, ParseOptions::STANDARD)
}

/// Reads a pattern by the rules of [`parse`], where this holds at its start.
///
/// In [`Meaning::Bytes`] a literal past U+007F is the sequence of the bytes of its UTF-8, as `é` is of two.
///
/// Where `only_named` is set and a group has a name, `(..)` is read as `(?:..)`: `(a)(?<n>b)` has 2 groups, of which
/// `n` is number 1, and `()*(?<n>b)` is refused at place 2 with [`ParseErrorKind::TargetNotRepeatable`]. There groups are
/// referred to by name alone: `(?<n>a)\1` is refused by [`CompileError::NamedBackrefOnly`]. A pattern without names is
/// read as where the option is not set.
///
/// Where `not_empty` is set a pattern that always consumes 0 units is refused by [`CompileError::PatternCanNeverMatch`],
/// as the empty pattern, `^` or `(?=a)`; `a?` is not, and `()|a` is not.
pub fn parse_with(alloc: Global, pattern: &str, options: ParseOptions) -> Result<Parsed, Error>
    ensures accepted { IfOk result
        (λ r. (h : IsPattern (dialect_options options) (chars pattern.now) (pattern_of r.tree))
        × (h.end.opened + 1 ≡ r.groups) × (names_of r.names ≡ h.end.names)) }
    ensures refused { IfErr result (λ e. IsRefused e (dialect_options options) (chars pattern.now)) }
    ensures succeeds { (p : Pattern) → IsPattern (dialect_options options) (chars pattern.now) p
        → IfErr result (λ e. e ≡ Memory) }
{
    let characters = characters_of(alloc, pattern)?;
    let draft = read(alloc, &characters, options)?;
    if draft.tree.nodes() > MAX_NODES {
        return Err(Error::CompileError(CompileError::PatternTooComplex));
    }
    let parsed = draft.resolve(alloc, options.only_named)?;
    parsed.with_sizes(options)
}

impl Parsed {
    /// This pattern, if each look-behind in it can step back, and if it can match where empty matches are refused.
    fn with_sizes(self, options: ParseOptions) -> Result<Parsed, Error>
        ensures value { IfOk result (λ r. r ≡ self) }
        ensures sized { IfOk result (λ r. are_sized options.meaning (pattern_of r.tree) ≡ true) }
        ensures fills { IfOk result (λ r. options.not_empty ≡ true → (size options.meaning (pattern_of r.tree) ≡ Some 0) → ⊥) }
        ensures refused { IfErr result (λ e. RefusesSizes e (dialect_options options) (pattern_of self.tree)) }
    {
        if !self.tree.is_sized(options.meaning) {
            return Err(Error::CompileError(CompileError::LookBehindNotConst));
        }
        if options.not_empty && self.tree.consumes_nothing(options.meaning) {
            return Err(Error::CompileError(CompileError::PatternCanNeverMatch));
        }
        Ok(self)
    }
}

/// What the text of a pattern says, before its references are resolved: in the place of its group's number each has
/// its index among them.
#[derive(Drop)]
struct Draft {
    tree: Tree,
    groups: usize,
    names: Vec<GroupName>,
    wanted: Vec<Target>,
}

impl Draft {
    /// Puts the number of its group in each reference.
    fn resolve(self, alloc: Global, only_named: bool) -> Result<Parsed, Error>
        ensures tree { IfOk result (λ r. pattern_of r.tree ≡ refers_to (draft_numbers only_named self) (pattern_of self.tree)) }
        ensures same { IfOk result (λ r. (r.groups ≡ self.groups) × (names_of r.names ≡ named_groups self.names.items)) }
        ensures resolved { IfOk result (λ r. AreResolved (draft_groups only_named self) self.wanted.items) }
        ensures refused { IfErr result (λ e. RefusesReference e (HaveFault (draft_groups only_named self) self.wanted.items)) }
    {
        let Draft {
            mut tree,
            groups,
            names,
            wanted,
        } = self;
        let names = Names::new(alloc, names)?;
        let all = Groups {
            by_name: names_alone(only_named, &names),
            count: groups,
            names: &names,
        };
        let numbers = all.resolve_all(alloc, &wanted)?;
        tree.refer(&numbers);
        Ok(Parsed {
            tree,
            groups,
            names,
        })
    }
}

/// Reads a whole pattern: once more where a group has a name and those without are to capture nothing then.
fn read(alloc: Global, characters: &[char], options: ParseOptions) -> Result<Draft, Error>
    requires { length characters.now < 2 ^ 63 }
    ensures value { IfOk result (λ r. SpellsDraft (SpellsUnder (dialect_options options) characters.now) r) }
    ensures refused { IfErr result (λ e. MemoryOr e (HasNoSpelling (SpellsUnder (dialect_options options) characters.now))) }
{
    let capturing = read_whole(alloc, characters, options, true)?;
    if options.only_named && !capturing.names.is_empty() {
        return read_whole(alloc, characters, options, false);
    }
    Ok(capturing)
}

/// Reads a whole pattern, whose groups without a name capture, or do not.
fn read_whole(
    alloc: Global,
    characters: &[char],
    options: ParseOptions,
    unnamed_capture: bool,
) -> Result<Draft, Error>
    requires { length characters.now < 2 ^ 63 }
    ensures value { IfOk result (λ r. SpellsDraft (Spells (begin unnamed_capture (dialect_options options)) characters.now) r) }
    ensures refused { IfErr result (λ e. MemoryOr e (HasNoSpelling (Spells (begin unnamed_capture (dialect_options options)) characters.now))) }
{
    let mut parser = Parser {
        whole: characters,
        cursor: Cursor {
            rest: characters,
            named: NamedSets::new(alloc),
        },
        meaning: options.meaning,
        keeps_characters: options.keeps_characters,
        unnamed_capture,
        flags: options.flags,
        opened: 0,
        names: Vec::new(alloc),
        wanted: Vec::new(alloc),
        in_look_around: false,
        alloc,
    };
    let tree = parser.alternation(MAX_DEPTH)?;
    if !parser.cursor.rest.is_empty() {
        return Err(parser.error(ParseErrorKind::GeneralParseError));
    }
    Ok(Draft {
        tree,
        groups: parser.opened.saturating_add(1),
        names: parser.names,
        wanted: parser.wanted,
    })
}
