//! Laws of regexes: of the names of groups, of the lists over matches, of escaped texts, of templates that replace, and of the
//! tokens that a set cuts a text into.

ghost use Rattle.std.specs.Prelude.{◌≡◌, ◌<◌, ◌↔◌, ℕ, List, Some, length, chars};
ghost use Rattle.fancy_input.specs.declared.span.Span.{Span};
ghost use Rattle.fancy_tree.specs.Pattern.{Pattern};
ghost use Rattle.fancy_tree.specs.Text.{Text};
ghost use Rattle.fancy_tree.specs.declared.error.Error.{Error};
ghost use Rattle.fancy_syntax.specs.Dialect.{IsPattern, standard};
ghost use Rattle.fancy_syntax.specs.Refusals.{IsRefused};
ghost use Rattle.fancy_input.specs.Inputs.{haystack_in, request_in};
ghost use Rattle.fancy_search.specs.declared.options.Options.{Options};
ghost use Rattle.fancy_search.specs.Options.{dialect_of};
ghost use Rattle.fancy_search.specs.ProgramSize.{SetsNoSize, RefusesPattern, IsRefusedUnder};
ghost use Rattle.fancy_search.specs.MatchList.{InOrder};
ghost use Rattle.fancy_core.specs.Built.{IsOfItsText};
ghost use Rattle.fancy_core.specs.CaptureNames.{StandsOnGroup};
ghost use Rattle.fancy_core.specs.Searches.{matches_of_input};
ghost use Rattle.fancy_core.specs.Pieces.{AreBetween};
ghost use Rattle.fancy_core.specs.GroupTexts.{Seen, expansion_of};
ghost use Rattle.fancy_core.specs.Replacing.{fixed_of};
ghost use Rattle.fancy_core.specs.Splits.{match_spans};
ghost use Rattle.fancy_regex.specs.Escapes.{escaped_pattern};
ghost use Rattle.fancy_regex.specs.ListExamples.{WorkedLists};
ghost use Rattle.fancy_regex.specs.Laws.{EndsInNone, FitsPlaces, Rejoins, RejoinsFirst, CountsPieces, CutsNone, KeepsPieces, FindsAsOne};
ghost use Rattle.fancy_regex.specs.SetMembers.{SetQuery};
ghost use Rattle.fancy_regex.specs.SetExamples.{WorkedSets};
ghost use Rattle.fancy_regex.specs.Tokens.{CutsIntoTokens};
ghost use Rattle.fancy_regex.specs.EscapedLiterals.{IsOfEscape, IsLiterally, FindsTextFirst, FindsTextAtStart, FindsTextInText};

use fancy_core::regex::Regex;
use fancy_input::input::Input;
use fancy_input::regex_input::RegexInput;

/// A regex means the pattern that its text spells under its options; the number of its groups and their names are those
/// that the text has. So whoever is lent a regex can reason about what it finds.
pub fn regex_is_of_its_text(_regex: &Regex)
    ensures { ∥ IsOfItsText _regex.now ∥₁ }
{}

/// Where no size was set for the code of hard patterns, want of memory alone refuses a pattern of the dialect, and what is
/// refused for anything else is none.
pub fn without_a_size_memory_alone_refuses()
    ensures pattern { (o : Options) (p : Pattern) (e : Error) → SetsNoSize o → RefusesPattern o p e
        → e ≡ Error.Memory }
    ensures text { (o : Options) (t : Text) (e : Error) → SetsNoSize o → IsRefusedUnder o t e
        → IsRefused e (dialect_of o) t }
{}

/// A name is that of a group of the pattern, which is never group 0, the whole match; or on none.
#[tactic(auto, using(fancy_core::proofs::NumberedLemmas::stands_on_group))]
pub fn names_stand_on_groups(_regex: &Regex, _name: &str)
    ensures { StandsOnGroup _regex.now (chars _name.now) }
{}

/// The ends of the matches strictly increase, and each start is at or after the end before it. There are at most as many
/// as there are places to search: the searched length in bytes, and one more.
#[tactic(auto, using(fancy_search::proofs::MatchListLemmas::matches_in_order, fancy_search::proofs::ScanLemmas::scan_sound))]
pub fn ends_increase<S: Input>(_regex: &Regex, _input: &RegexInput<S>)
    ensures order { InOrder (matches_of_input _regex.now S.text S.bytes _input.now) }
    ensures count { FitsPlaces (request_in _input.now)
        (matches_of_input _regex.now S.text S.bytes _input.now) }
{}

/// The search at the end of the list of matches finds none.
#[tactic(auto, using(crate::proofs::EndLemmas::last_start_finds_none, fancy_search::proofs::ScanLemmas::scan_sound))]
pub fn last_search_finds_none<S: Input>(_regex: &Regex, _input: &RegexInput<S>)
    ensures { EndsInNone _regex.now S.text S.bytes _input.now }
{}

/// The definition gives some small lists of matches that are known from elsewhere.
pub fn worked_lists()
    ensures { WorkedLists }
{}

/// The pieces of a text between spans, with the texts of the spans between them, are the text.
pub fn pieces_rejoin()
    ensures { (t : List ℕ) (spans : List Span) → AreBetween 0 (length t) spans → Rejoins t spans }
{}

/// The pieces of a text between its matches, with the texts of the matches between them, are the text; and so are the first
/// pieces, with the texts of the matches that were cut at.
pub fn pieces_with_matches_are_the_text(_regex: &Regex, _text: &str)
    ensures all { Rejoins _text.now (match_spans _regex.now _text.now) }
    ensures first { (n : ℕ) → RejoinsFirst n _text.now (match_spans _regex.now _text.now) }
{}

/// There is one piece more than there are spans. A limit that allows all of them cuts none off; any other leaves as many as
/// it allows, which are the pieces up to the last of them.
pub fn limits_cut_pieces_off()
    ensures count { (n : ℕ) (t : List ℕ) (spans : List Span) → CountsPieces n t spans }
    ensures all { (n : ℕ) (t : List ℕ) (spans : List Span) → length spans < n → CutsNone n t spans }
    ensures before { (n : ℕ) (t : List ℕ) (spans : List Span) → KeepsPieces n t spans }
{}

/// What `escape` makes of a text is a pattern where the text has at most 4,000,000 characters: these characters, one after
/// the other, and no other pattern.
pub fn escapes_spell_their_text(_text: &str)
    ensures { (p : Pattern)
        → IsPattern standard (escaped_pattern (chars _text.now)) p ↔ IsLiterally p _text.now }
{}

/// The regex of what `escape` makes of a text finds the text, and nothing else: at the least place where it is within
/// the range and cuts no character of the haystack at its ends.
///
/// An anchored search finds it at the effective start or nowhere, and where the haystack is text, it finds it there wherever
/// it is there within the range.
///
/// ```text
/// // of `a.b`, with the escape `a\.b`
/// "a-b a.b"               // 4..7
/// "a-b a.b", anchored     // none
/// "a.b", range 0..2       // none
/// ```
pub fn escapes_find_their_text(_text: &str, _regex: &Regex)
    ensures first { IsOfEscape _regex.now _text.now → FindsTextFirst _regex.now _text.now }
    ensures anchored { IsOfEscape _regex.now _text.now → FindsTextAtStart _regex.now _text.now }
    ensures anchored_in_text { IsOfEscape _regex.now _text.now
        → FindsTextInText _regex.now _text.now }
{}

/// A template without `$` expands to its own characters, whatever was matched: the one text that a replacer has for
/// all matches is what it appends for each.
pub fn plain_template_is_its_expansion()
    ensures { (t : List ℕ) (seen : Seen) (x : List ℕ) → fixed_of t ≡ Some x
        → expansion_of t seen ≡ x }
{}

/// A set of one pattern gives first what the pattern gives: it finds the position of the pattern's first match, or none
/// where there is none; and its one item there has the groups of that match.
pub fn set_of_one_finds_as_its_pattern<S: Input>(_regex: &Regex, _input: &RegexInput<S>)
    ensures { FindsAsOne _regex.now (S.bytes (haystack_in _input.now)) (request_in _input.now) }
{}

/// The definitions give the answer of a small set, and small lists of tokens, that are known from elsewhere.
pub fn worked_sets()
    ensures { WorkedSets }
{}

/// What a pattern set cuts a text into, from any place on: each token is the longest of those that the patterns offer where the
/// one before ends, and of these the first; the texts of all of them, joined, are the text up to where they end; and there no
/// pattern offers one, or the range ends.
pub fn tokens_cut_the_text()
    ensures { (q : SetQuery) (p : ℕ) → CutsIntoTokens q p }
{}
