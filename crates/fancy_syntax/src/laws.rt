//! What holds of the dialect itself.

ghost use Rattle.std.specs.Prelude.{◌≡◌, ◌+◌, Bool};
ghost use Rattle.fancy_syntax.specs.Dialect.{Scope, DialectOptions, begin, Spells, IsPattern};
ghost use Rattle.fancy_tree.specs.GroupNumbers.{Numbered, NumbersInOrder, Rising};
ghost use Rattle.fancy_tree.specs.Pattern.{Pattern};
ghost use Rattle.fancy_tree.specs.Text.{Text};

/// A text spells at most one pattern, from one scope on and under one set of options, and its reading ends in one scope: with
/// so many groups, and with these names.
pub fn one_pattern()
    ensures spelled { (s : Scope) (text : Text) (p q : Pattern) (e f : Scope) → Spells s text p e → Spells s text q f
        → p ≡ q }
    ensures ends { (s : Scope) (text : Text) (p q : Pattern) (e f : Scope) → Spells s text p e → Spells s text q f
        → e ≡ f }
    ensures under_options { (o : DialectOptions) (text : Text) (p q : Pattern) → IsPattern o text p → IsPattern o text q
        → p ≡ q }
    ensures ends_under_options { (o : DialectOptions) (text : Text) (p q : Pattern)
        (x : IsPattern o text p) (y : IsPattern o text q) → x.end ≡ y.end }
{}

/// Groups are numbered one after the other in the order of their openings, from the number after those opened before on: so a
/// group has a lesser number than those inside it and than those after it, and all numbers are at most how many were opened
/// in the end.
pub fn groups_are_numbered()
    ensures within { (s : Scope) (text : Text) (p : Pattern) (e : Scope) → Spells s text p e
        → Numbered (s.opened + 1) (e.opened + 1) p }
    ensures in_order { (s : Scope) (text : Text) (p : Pattern) (e : Scope) → Spells s text p e
        → NumbersInOrder (s.opened + 1) (e.opened + 1) p }
{}

/// A name stands on a group of the pattern, and each on another: their numbers rise in the order of the openings.
pub fn names_are_numbered()
    ensures { (unnamed : Bool) (o : DialectOptions) (text : Text) (p : Pattern) (e : Scope)
        → Spells (begin unnamed o) text p e → Rising 1 (e.opened + 1) e.names }
{}
