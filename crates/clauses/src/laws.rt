//! Laws: what holds of the dialect, of the definition of a search, of lists, of templates, of sets and of tokens.
//!
//! A law is a function that does nothing, and whose contract is what it says.

ghost use Rattle.std.specs.Prelude.{◌+◌, ◌<◌, ◌↔◌, ◌∷◌, ◌≡◌, Bool, List, Some, chars, length, ℕ};
ghost use Rattle.fancy_regex.specs.Built.{IsOfItsText};
ghost use Rattle.fancy_regex.specs.ByteLaws.{AttemptsBegin, AttemptsRequire, LackingIsNone, MatchesBegin, OutcomesBegin, OutcomesRequire, SkipsLoseNothing};
ghost use Rattle.fancy_regex.specs.CaptureNames.{StandsOnGroup};
ghost use Rattle.fancy_regex.specs.Dialect.{DialectOptions, IsPattern, Scope, Spells, begin, standard};
ghost use Rattle.fancy_regex.specs.EscapedLiterals.{FindsTextAtStart, FindsTextFirst, FindsTextInText, IsLiterally, IsOfEscape};
ghost use Rattle.fancy_regex.specs.Escapes.{escaped_pattern};
ghost use Rattle.fancy_regex.specs.Examples.{WorkedExamples};
ghost use Rattle.fancy_regex.specs.GroupNumbers.{Numbered, NumbersInOrder, Rising};
ghost use Rattle.fancy_regex.specs.GroupTexts.{Seen, expansion_of};
ghost use Rattle.fancy_regex.specs.Inputs.{haystack_in, request_in};
ghost use Rattle.fancy_regex.specs.Laws.{CountsPieces, CutsNone, EndsInNone, FindsAsOne, FitsPlaces, KeepsPieces, Rejoins, RejoinsFirst};
ghost use Rattle.fancy_regex.specs.ListExamples.{WorkedLists};
ghost use Rattle.fancy_regex.specs.MatchList.{InOrder};
ghost use Rattle.fancy_regex.specs.MeaningLaws.{AcceptanceIsDecided, AnswerIsLeastAndFirst, AnswerIsLeastAndLongest, CharactersEndWhereTheyReach, GroupsLieWithin, NoneIsKeptInside, NoneIsNone, OutcomesStayWithin, StarIs, StartsAreKeptForward};
ghost use Rattle.fancy_regex.specs.Options.{dialect_of};
ghost use Rattle.fancy_regex.specs.Pattern.{Pattern};
ghost use Rattle.fancy_regex.specs.Pieces.{AreBetween};
ghost use Rattle.fancy_regex.specs.ProgramSize.{IsRefusedUnder, RefusesPattern, SetsNoSize};
ghost use Rattle.fancy_regex.specs.Refusals.{IsRefused};
ghost use Rattle.fancy_regex.specs.Replacing.{fixed_of};
ghost use Rattle.fancy_regex.specs.Searches.{matches_of_input};
ghost use Rattle.fancy_regex.specs.SetExamples.{WorkedSets};
ghost use Rattle.fancy_regex.specs.SetMembers.{SetQuery};
ghost use Rattle.fancy_regex.specs.Splits.{match_spans};
ghost use Rattle.fancy_regex.specs.Templates.{literal, Cuts, ReadsDelimited, ReadsDigits, ReadsUndelimited, Step, TemplateSyntax, steps};
ghost use Rattle.fancy_regex.specs.Text.{Text};
ghost use Rattle.fancy_regex.specs.Tokens.{CutsIntoTokens};
ghost use Rattle.fancy_regex.specs.declared.Error.TheVariants.{Memory};
ghost use Rattle.fancy_regex.specs.declared.Error.{Error};
ghost use Rattle.fancy_regex.specs.declared.Options.{Options};
ghost use Rattle.fancy_regex.specs.declared.Span.{Span};

use fancy_regex::{
    Input, Regex, RegexInput, byte_laws, dialect_laws, laws, meaning_laws, template_laws,
};

/// A text spells at most one pattern, with so many groups and these names.
pub fn one_pattern()
    ensures spelled { (s : Scope) (text : Text) (p q : Pattern) (e f : Scope) → Spells s text p e
        → Spells s text q f
        → p ≡ q }
    ensures ends { (s : Scope) (text : Text) (p q : Pattern) (e f : Scope) → Spells s text p e
        → Spells s text q f
        → e ≡ f }
    ensures under_options { (o : DialectOptions) (text : Text) (p q : Pattern) → IsPattern o text p
        → IsPattern o text q
        → p ≡ q }
    ensures ends_under_options { (o : DialectOptions) (text : Text) (p q : Pattern)
        (x : IsPattern o text p) (y : IsPattern o text q) → x.end ≡ y.end }
{
    dialect_laws::one_pattern();
}

/// Groups are numbered in the order of their openings, and names stand on groups.
pub fn groups_are_numbered()
    ensures within { (s : Scope) (text : Text) (p : Pattern) (e : Scope) → Spells s text p e
        → Numbered (s.opened + 1) (e.opened + 1) p }
    ensures in_order { (s : Scope) (text : Text) (p : Pattern) (e : Scope) → Spells s text p e
        → NumbersInOrder (s.opened + 1) (e.opened + 1) p }
    ensures names { (unnamed : Bool) (o : DialectOptions) (text : Text) (p : Pattern) (e : Scope)
        → Spells (begin unnamed o) text p e → Rising 1 (e.opened + 1) e.names }
{
    dialect_laws::groups_are_numbered();
    dialect_laws::names_are_numbered();
}

/// A regex is of its text, and a name that it has is that of a group.
pub fn regex_is_of_its_text(regex: &Regex, name: &str)
    ensures text { ∥ IsOfItsText regex.now ∥₁ }
    ensures names { StandsOnGroup regex.now (chars name.now) }
{
    laws::regex_is_of_its_text(regex);
    laws::names_stand_on_groups(regex, name);
}

/// Where no size was set, want of memory alone refuses a pattern of the dialect.
pub fn without_a_size_memory_alone_refuses()
    ensures pattern { (o : Options) (p : Pattern) (e : Error) → SetsNoSize o → RefusesPattern o p e
        → e ≡ Memory }
    ensures text { (o : Options) (t : Text) (e : Error) → SetsNoSize o → IsRefusedUnder o t e
        → IsRefused e (dialect_of o) t }
{
    laws::without_a_size_memory_alone_refuses();
}

/// What a search finds: the first accepted outcome, or the longest, of the least position that has one.
pub fn searches()
    ensures star { StarIs }
    ensures outcomes { OutcomesStayWithin }
    ensures acceptance { AcceptanceIsDecided }
    ensures none { NoneIsNone }
    ensures first { AnswerIsLeastAndFirst }
    ensures longest { AnswerIsLeastAndLongest }
    ensures groups { GroupsLieWithin }
    ensures forward { StartsAreKeptForward }
    ensures kept { NoneIsKeptInside }
    ensures characters { CharactersEndWhereTheyReach }
    ensures examples { WorkedExamples }
{
    meaning_laws::star_is();
    meaning_laws::outcomes_stay_within();
    meaning_laws::acceptance_is_decided();
    meaning_laws::none_is_none();
    meaning_laws::answer_is_least_and_first();
    meaning_laws::answer_is_least_and_longest();
    meaning_laws::groups_lie_within();
    meaning_laws::starts_are_kept_forward();
    meaning_laws::none_is_kept_inside();
    meaning_laws::characters_end_where_they_reach();
    meaning_laws::worked_examples();
}

/// What the bytes of a haystack tell: where matches begin, and that there is none.
pub fn bytes()
    ensures begin { OutcomesBegin }
    ensures attempts { AttemptsBegin }
    ensures matches { MatchesBegin }
    ensures require { OutcomesRequire }
    ensures attempts_require { AttemptsRequire }
    ensures skips { SkipsLoseNothing }
    ensures lacking { LackingIsNone }
{
    byte_laws::outcomes_begin();
    byte_laws::attempts_begin();
    byte_laws::matches_begin();
    byte_laws::outcomes_require();
    byte_laws::attempts_require();
    byte_laws::skips_lose_nothing();
    byte_laws::lacking_is_none();
}

/// The matches of an input are in order, there are no more than places, and the last search finds none.
pub fn lists<S: Input>(regex: &Regex, input: &RegexInput<S>)
    ensures order { InOrder (matches_of_input regex.now S.text S.bytes input.now) }
    ensures count { FitsPlaces (request_in input.now)
        (matches_of_input regex.now S.text S.bytes input.now) }
    ensures end { EndsInNone regex.now S.text S.bytes input.now }
{
    laws::ends_increase(regex, input);
    laws::last_search_finds_none(regex, input);
}

/// Some small lists of matches that are known from elsewhere.
pub fn worked_lists()
    ensures { WorkedLists }
{
    laws::worked_lists();
}

/// The pieces of a text, with the texts of the matches between them, are the text.
pub fn pieces(regex: &Regex, text: &str)
    ensures spans { (t : List ℕ) (spans : List Span) → AreBetween 0 (length t) spans
        → Rejoins t spans }
    ensures all { Rejoins text.now (match_spans regex.now text.now) }
    ensures first { (n : ℕ) → RejoinsFirst n text.now (match_spans regex.now text.now) }
{
    laws::pieces_rejoin();
    laws::pieces_with_matches_are_the_text(regex, text);
}

/// A limit leaves as many pieces as it allows.
pub fn limits_cut_pieces_off()
    ensures count { (n : ℕ) (t : List ℕ) (spans : List Span) → CountsPieces n t spans }
    ensures all { (n : ℕ) (t : List ℕ) (spans : List Span) → length spans < n → CutsNone n t spans }
    ensures before { (n : ℕ) (t : List ℕ) (spans : List Span) → KeepsPieces n t spans }
{
    laws::limits_cut_pieces_off();
}

/// What `escape` makes of a text is a pattern for these characters and no other; the regex of it finds the text, and nothing else.
pub fn escapes(text: &str, regex: &Regex)
    ensures spelled { (p : Pattern) → IsPattern standard (escaped_pattern (chars text.now)) p
        ↔ IsLiterally p text.now }
    ensures first { IsOfEscape regex.now text.now → FindsTextFirst regex.now text.now }
    ensures anchored { IsOfEscape regex.now text.now → FindsTextAtStart regex.now text.now }
    ensures anchored_in_text { IsOfEscape regex.now text.now → FindsTextInText regex.now text.now }
{
    laws::escapes_spell_their_text(text);
    laws::escapes_find_their_text(text, regex);
}

/// A template is cut into steps in one way; each form is read as it is written.
pub fn templates()
    ensures some { (s : TemplateSyntax) (t : Text) → Cuts s t (steps s t) }
    ensures one { (s : TemplateSyntax) (t : Text) (xs : List Step) → Cuts s t xs → xs ≡ steps s t }
    ensures doubled { (s : TemplateSyntax) (t : Text) → steps s (s.mark ∷ s.mark ∷ t)
        ≡ literal s.mark ∷ steps s t }
    ensures delimited { (s : TemplateSyntax) (w t : Text) → ReadsDelimited s w t }
    ensures undelimited { (s : TemplateSyntax) (w t : Text) → ReadsUndelimited s w t }
    ensures digits { (s : TemplateSyntax) (w t : Text) → ReadsDigits s w t }
{
    template_laws::template_is_cut_in_one_way();
    template_laws::forms_are_read();
}

/// A template without `$` expands to its own characters.
pub fn plain_template_is_its_expansion()
    ensures { (t : List ℕ) (seen : Seen) (x : List ℕ) → fixed_of t ≡ Some x → expansion_of t seen
        ≡ x }
{
    laws::plain_template_is_its_expansion();
}

/// A set of one pattern finds what the pattern finds.
pub fn set_of_one_finds_as_its_pattern<S: Input>(regex: &Regex, input: &RegexInput<S>)
    ensures { FindsAsOne regex.now (S.bytes (haystack_in input.now)) (request_in input.now) }
{
    laws::set_of_one_finds_as_its_pattern(regex, input);
}

/// A small set and small lists of tokens that are known from elsewhere.
pub fn worked_sets()
    ensures { WorkedSets }
{
    laws::worked_sets();
}

/// The tokens, joined, are the text up to the first place without one.
pub fn tokens_cut_the_text()
    ensures { (q : SetQuery) (p : ℕ) → CutsIntoTokens q p }
{
    laws::tokens_cut_the_text();
}
