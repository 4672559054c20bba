//! The pieces of a text between its matches.
//!
//! `progress` says how far a split has come: its text, where the last match ended, the spans of the matches that are left, and
//! whether the rest was given. `searches` says whether a search may still be made.

ghost use Rattle.std.specs.Prelude.{◌-◌, ◌<◌, ◌^◌, ◌∷◌, ◌≡◌, IfNone, MatchOption, [], false, true, ⊤};
ghost use Rattle.fancy_regex.specs.NextAnswers.{ByAnswer};
ghost use Rattle.fancy_regex.specs.Pieces.{past_piece, pieces_left, rest_of};
ghost use Rattle.fancy_regex.specs.Regexes.{options_in};
ghost use Rattle.fancy_regex.specs.Remaining.{IfItem, IfRefusal};
ghost use Rattle.fancy_regex.specs.Searching.{Suits};
ghost use Rattle.fancy_regex.specs.Splits.{GivesPiece, GivesRest, RefusesOfFirst, RefusesPiece, at_start, first_left, has_ended_splitn, pieces_allowed, pieces_bound, progress, searches, split_allows_next, split_in, split_regex};

use fancy_regex::{Regex, Result, Split, SplitN};

/// All pieces.
pub fn split<'r, 't>(regex: &'r Regex, text: &'t str) -> Split<'r, 't>
    requires suits { Suits (options_in regex.now) true text.now }
    ensures progress { progress result ≡ at_start regex.now text.now }
    ensures searches { searches result ≡ true }
    ensures countable { pieces_bound result < 2 ^ 64 }
    ensures regex { split_regex result ≡ regex.now }
{
    regex.split(text)
}

/// The next piece.
pub fn next_piece<'t>(pieces: &mut Split<'_, 't>) -> Option<Result<&'t str>>
    ensures none { IfNone result (pieces_left (progress pieces.old) ≡ []) }
    ensures gives { IfItem result
        (λ x. pieces_left (progress pieces.old) ≡ x.now ∷ pieces_left (progress pieces.new)) }
    ensures refuses { ByAnswer result ⊤ (λ _. ⊤) (λ e. RefusesPiece e pieces.old pieces.new) }
    ensures rest { IfRefusal result
        (pieces_left (progress pieces.new) ≡ rest_of (progress pieces.old) ∷ []) }
    ensures allowed { IfItem result (λ _. split_allows_next pieces.old) }
    ensures moves { ByAnswer result (progress pieces.new ≡ progress pieces.old)
        (λ _. progress pieces.new ≡ past_piece (progress pieces.old))
        (λ _. progress pieces.new ≡ record (progress pieces.old) { spans = [] }) }
    ensures refused { IfRefusal result
        ((searches pieces.old ≡ true) × (searches pieces.new ≡ false)) }
    ensures regex { split_regex pieces.new ≡ split_regex pieces.old }
{
    pieces.next()
}

/// The first pieces, so many at most: the last of so many is the rest.
pub fn splitn<'r, 't>(regex: &'r Regex, text: &'t str, limit: usize) -> SplitN<'r, 't>
    requires suits { Suits (options_in regex.now) true text.now }
    ensures progress { progress (split_in result) ≡ at_start regex.now text.now }
    ensures limit { pieces_allowed result ≡ limit }
    ensures searches { searches (split_in result) ≡ true }
    ensures regex { split_regex (split_in result) ≡ regex.now }
{
    regex.splitn(text, limit)
}

/// The next of these.
pub fn next_of_first<'t>(pieces: &mut SplitN<'_, 't>) -> Option<Result<&'t str>>
    ensures none { IfNone result (first_left pieces.old ≡ []) }
    ensures gives { IfItem result (λ x. first_left pieces.old ≡ x.now ∷ first_left pieces.new) }
    ensures refuses { ByAnswer result ⊤ (λ _. ⊤) (λ e. RefusesOfFirst e pieces.old pieces.new) }
    ensures next { IfItem result (λ x. 1 < pieces_allowed pieces.old
        → GivesPiece x.now (split_in pieces.old) (split_in pieces.new)) }
    ensures last { IfItem result (λ x. pieces_allowed pieces.old ≡ 1
        → GivesRest x.now (split_in pieces.old) (split_in pieces.new)) }
    ensures refused { IfRefusal result (1 < pieces_allowed pieces.old) }
    ensures rest { IfRefusal result
        (first_left pieces.new ≡ rest_of (progress (split_in pieces.old)) ∷ []) }
    ensures counts { pieces_allowed pieces.new ≡ pieces_allowed pieces.old - 1 }
    ensures ends { MatchOption result (has_ended_splitn pieces.new ≡ true)
        (λ _. has_ended_splitn pieces.old ≡ false) }
    ensures stays { IfNone result
        ((progress (split_in pieces.new) ≡ progress (split_in pieces.old))
        × (searches (split_in pieces.new) ≡ searches (split_in pieces.old))) }
    ensures regex { split_regex (split_in pieces.new) ≡ split_regex (split_in pieces.old) }
{
    pieces.next()
}

/// Loops over the pieces end.
pub fn ends(pieces: Split<'_, '_>, first: SplitN<'_, '_>) {
    for _ in pieces {}
    for _ in first {}
}
