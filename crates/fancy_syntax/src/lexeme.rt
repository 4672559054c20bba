//! Reading what is no group: characters, escapes and classes.

ghost use Rattle.std.specs.Prelude.{◌≡◌, ◌+◌, ◌<◌, ◌≤◌, ◌∷◌, ◌&&◌, not, nat_lt, ℕ, Some, Ok, true, drop, length, option_and_then, OnOk, IfOk};
ghost use Rattle.fancy_tree.specs.Pattern.{pattern_of, assertion};
ghost use Rattle.fancy_class.specs.Words.{is_at};
ghost use Rattle.fancy_tree.specs.Members.{Members, members};
ghost use Rattle.fancy_class.specs.EscapeGrammar.{is_property, set_letter};
ghost use Rattle.fancy_class.specs.ClassGrammar.{is_ascii_meaning};
ghost use Rattle.fancy_syntax.specs.Dialect.{IsMeant, leaf, one_of, any_case_of, character_lexeme, character_by_number, class_item_lexeme, any_item_members, ends_line};
ghost use Rattle.fancy_syntax.specs.Dialect as dialect;
ghost use Rattle.fancy_syntax.specs.Grammar.{IsAtom, start};
ghost use Rattle.fancy_syntax.specs.References.{begins_reference};
ghost use Rattle.fancy_syntax.specs.Views.{place, text_left, Gives, GivesMeant, GivesLexeme, bytes_before, error_at, scope_of};

use crate::build::{literal, reference};
use crate::count::begins_count;
use crate::escape::{
    anchor, escape_fault, is_escapable, is_one_item, is_special, place_test, start_mark,
};
use crate::parser::{Parser, unexpected_fault};
use crate::reference::{begins_reference, read_reference, reference_fault};
use fancy_class::class_item::ClassItem;
use fancy_class::context::{ClassContext, may_negate};
use fancy_class::escape::{control, set_letter};
use fancy_class::refusal::ClassRefusal;
use fancy_class::words::is_at_any;
use fancy_tree::error::{Error, ParseErrorKind};
use fancy_tree::named::universe;
use fancy_tree::operation::Operation;
use fancy_tree::set::Set;
use fancy_tree::sharing::case_variants;
use fancy_tree::tree::{Assertion, Meaning, Tree};
use std::alloc::{AllocError, Global};

/// What `\b` tests, by the word in braces after it, and how many characters that has.
fn boundary(text: &[char]) -> (Assertion, usize)
    ensures value { dialect.boundary text.now ≡ (result.0, drop result.1 text.now) }
    ensures room { result.1 ≤ length text.now }
{
    if text.starts_with(&['{', 's', 't', 'a', 'r', 't', '}']) {
        (Assertion::WordStart, 7)
    } else if text.starts_with(&['{', 'e', 'n', 'd', '}']) {
        (Assertion::WordEnd, 5)
    } else if text.starts_with(&['{', 's', 't', 'a', 'r', 't', '-', 'h', 'a', 'l', 'f', '}']) {
        (Assertion::WordStartHalf, 12)
    } else if text.starts_with(&['{', 'e', 'n', 'd', '-', 'h', 'a', 'l', 'f', '}']) {
        (Assertion::WordEndHalf, 10)
    } else {
        (Assertion::WordBoundary, 0)
    }
}

/// One item of a set.
#[tactic(auto, using(fancy_tree::proofs::PatternLemmas::pattern_equations))]
fn set_tree(set: Set) -> Tree
    ensures { (f : Members) → ((c : ℕ) → members set c ≡ f c) → IsMeant (one_of f) (pattern_of result) }
{
    Tree::Member(set)
}

/// A literal under flag `i`, with the characters that this flag takes for it.
#[tactic(auto, using(fancy_tree::proofs::PatternLemmas::pattern_equations))]
fn in_any_case(set: Set) -> Tree
    ensures { (f : Members) → ((c : ℕ) → members set c ≡ f c) → IsMeant (any_case_of f) (pattern_of result) }
{
    Tree::InAnyCase(set)
}

fn is_ascii_text(meaning: Meaning) -> bool
    ensures { result ≡ is_ascii_meaning meaning }
{
    matches!(meaning, Meaning::AsciiText)
}

/// The characters that end a line.
fn line_ends(alloc: Global, crlf: bool) -> Result<Set, AllocError>
    ensures { IfOk result (λ s. (c : ℕ) → members s c ≡ ends_line crlf c) }
{
    let feed = Set::range(alloc, 10, 10)?;
    if crlf {
        feed.combine(Operation::Union, &Set::range(alloc, 13, 13)?)
    } else {
        Ok(feed)
    }
}

impl<'a> Parser<'a> {
    /// The error of what a class or an item of one was refused for, at the place that is reached.
    fn class_error(&self, refusal: ClassRefusal) -> Error
        ensures { result ≡ error_at (bytes_before self.now.whole.now (text_left self.now)) refusal }
    {
        match refusal {
            ClassRefusal::Memory => Error::Memory,
            ClassRefusal::Invalid(kind) => self.error(kind),
        }
    }

    /// What is in force where a class stands.
    fn context(&self) -> ClassContext
        ensures meaning { result.meaning ≡ self.now.meaning }
        ensures fold { result.fold ≡ self.now.flags.ignore_case }
    {
        ClassContext {
            meaning: self.meaning,
            fold: self.flags.ignore_case,
            alloc: self.alloc,
        }
    }

    /// What any item can be, or any but one that ends a line.
    fn any_item_set(&self, all: bool) -> Result<Set, AllocError>
        ensures { IfOk result (λ s. (c : ℕ) → members s c ≡ any_item_members (scope_of self.now) all c) }
    {
        let every = universe(self.alloc, self.meaning)?;
        if all {
            return Ok(every);
        }
        let ends = line_ends(self.alloc, self.flags.crlf)?;
        every.combine(Operation::Difference, &ends)
    }

    /// Whether flag `i` gives this character others.
    fn is_folded(&self, c: char) -> bool
        ensures { result ≡ (self.now.flags.ignore_case && dialect.is_one_item self.now.meaning c) }
    {
        self.flags.ignore_case && is_one_item(self.meaning, c)
    }

    /// Whether a number stands for a byte, and not for a character.
    fn is_raw_byte(&self, c: char, is_byte: bool) -> bool
        ensures { result ≡ (is_byte && (nat_lt 127 c && not self.now.keeps_characters)) }
    {
        is_byte && c > '\u{7F}' && !self.keeps_characters
    }

    /// A character, under flag `i` with those that share its simple folding.
    #[tactic(auto, using(fancy_tree::proofs::PatternLemmas::pattern_equations))]
    fn literal_tree(&self, c: char) -> Result<Tree, AllocError>
        ensures { IfOk result (λ t. IsMeant (character_lexeme (scope_of self.now) c) (pattern_of t)) }
    {
        if self.is_folded(c) {
            return Ok(in_any_case(case_variants(self.alloc, self.meaning, c)?));
        }
        literal(self.alloc, self.meaning, c)
    }

    /// A character by its number, or a byte.
    #[tactic(auto, using(fancy_tree::proofs::PatternLemmas::pattern_equations))]
    fn literal_tree_by_number(&self, c: char, is_byte: bool) -> Result<Tree, AllocError>
        requires { is_byte ≡ true → c ≤ 255 }
        ensures { IfOk result (λ t. IsMeant (character_by_number (scope_of self.now) (c, is_byte)) (pattern_of t)) }
    {
        if self.is_raw_byte(c, is_byte) {
            return Ok(Tree::RawByte(c as u8));
        }
        self.literal_tree(c)
    }

    /// One item of the set that this stands for in a class.
    fn class_item_tree(&mut self, item: ClassItem) -> Result<Tree, AllocError>
        ensures value { IfOk result (λ t. IsMeant (class_item_lexeme (scope_of self.old) item) (pattern_of t)) }
        ensures whole { self.new.whole ≡ self.old.whole }
        ensures place { place self.new ≡ place self.old }
    {
        let context = self.context();
        let set = self.cursor.named.item_set(context, item)?;
        Ok(set_tree(set))
    }

    /// Reads so many characters that stand for this one.
    fn character(&mut self, c: char, count: usize) -> Result<Tree, Error>
        requires { count ≤ length (text_left self.old) }
        ensures value { GivesLexeme count (Some (character_lexeme (scope_of self.old) c)) result (place self.old) (place self.new) }
        ensures progress { OnOk result (length (text_left self.new) + count ≡ length (text_left self.old)) }
    {
        let tree = self.literal_tree(c)?;
        self.skip(count);
        Ok(tree)
    }

    /// Reads so many characters that stand for this leaf.
    fn leaf(&mut self, tree: Tree, count: usize) -> Tree
        requires { count ≤ length (text_left self.old) }
        ensures value { GivesLexeme count (Some (leaf (pattern_of tree))) (Ok result) (place self.old) (place self.new) }
        ensures progress { length (text_left self.new) + count ≡ length (text_left self.old) }
    {
        self.skip(count);
        tree
    }

    /// Reads so many characters that stand for this test.
    #[tactic(auto, using(fancy_tree::proofs::PatternLemmas::pattern_equations))]
    fn test(&mut self, test: Assertion, count: usize) -> Tree
        requires { count ≤ length (text_left self.old) }
        ensures value { GivesLexeme count (Some (leaf (assertion test))) (Ok result) (place self.old) (place self.new) }
        ensures progress { length (text_left self.new) + count ≡ length (text_left self.old) }
    {
        self.skip(count);
        Tree::Assertion(test)
    }

    /// Reads so many characters that stand for any item, or for any but one that ends a line.
    fn any_item(&mut self, all: bool, count: usize) -> Result<Tree, Error>
        requires { count ≤ length (text_left self.old) }
        ensures value { GivesLexeme count (dialect.any_item (scope_of self.old) all) result (place self.old) (place self.new) }
        ensures progress { OnOk result (length (text_left self.new) + count ≡ length (text_left self.old)) }
    {
        if is_ascii_text(self.meaning) {
            return Err(self.error(ParseErrorKind::InvalidClass));
        }
        let tree = set_tree(self.any_item_set(all)?);
        self.skip(count);
        Ok(tree)
    }

    /// Reads a backslash and a letter that stands for a set or its complement.
    fn read_set_escape(&mut self, c: char) -> Result<Tree, Error>
        requires { 2 ≤ length (text_left self.old) }
        ensures value { GivesLexeme 2 (option_and_then (dialect.set_lexeme (scope_of self.old)) (set_letter c)) result (place self.old) (place self.new) }
        ensures progress { OnOk result (length (text_left self.new) < length (text_left self.old)) }
    {
        match set_letter(c) {
            Some((which, negated)) if may_negate(self.meaning, negated) => {
                let tree = self.class_item_tree(ClassItem::NamedSet(which, negated))?;
                self.skip(2);
                Ok(tree)
            }
            _ => Err(self.error(escape_fault(&self.cursor.rest[1..]))),
        }
    }

    /// Reads a backslash and a letter that alone stands for something.
    fn read_letter_escape(&mut self, c: char) -> Result<Tree, Error>
        requires { 2 ≤ length (text_left self.old) }
        ensures value { GivesLexeme 2 (dialect.letter_lexeme (scope_of self.old) c) result (place self.old) (place self.new) }
        ensures progress { OnOk result (length (text_left self.new) < length (text_left self.old)) }
    {
        if let Some(c) = control(c) {
            return self.character(c, 2);
        }
        if let Some(test) = place_test(self.flags, c) {
            return Ok(self.test(test, 2));
        }
        if let Some(mark) = start_mark(self.in_look_around, c) {
            return Ok(self.leaf(mark, 2));
        }
        self.read_set_escape(c)
    }

    /// Reads a backslash, its letter, and a number.
    fn read_number_escape(&mut self, digits: usize) -> Result<Tree, Error>
        requires { 2 ≤ length (text_left self.old) }
        ensures value { GivesMeant (dialect.number_lexeme (scope_of self.old) digits (drop 2 (text_left self.old))) result (place self.old) (place self.new) }
        ensures progress { OnOk result (length (text_left self.new) < length (text_left self.old)) }
    {
        let start = self.cursor.rest;
        self.cursor.skip(2);
        match self.cursor.number(digits) {
            Ok((c, is_byte)) => Ok(self.literal_tree_by_number(c, is_byte)?),
            Err(refusal) => {
                self.cursor.rest = start;
                Err(self.class_error(refusal))
            }
        }
    }

    /// Reads an escape that names a property.
    fn property(&mut self) -> Result<Tree, Error>
        requires { is_property (text_left self.old) ≡ true }
        ensures value { GivesMeant (dialect.property_here (scope_of self.old) (text_left self.old)) result (place self.old) (place self.new) }
        ensures progress { OnOk result (length (text_left self.new) < length (text_left self.old)) }
    {
        let context = self.context();
        let start = self.cursor.rest;
        match self.cursor.property(context) {
            Ok(item) => Ok(self.class_item_tree(item)?),
            Err(refusal) => {
                self.cursor.rest = start;
                Err(self.class_error(refusal))
            }
        }
    }

    /// Reads `\b` with the word in braces after it, if one stands there.
    fn boundary(&mut self) -> Tree
        requires { 2 ≤ length (text_left self.old) }
        ensures value { GivesMeant (Some (dialect.boundary_here (drop 2 (text_left self.old)))) (Ok result) (place self.old) (place self.new) }
        ensures progress { length (text_left self.new) < length (text_left self.old) }
    {
        self.skip(2);
        let (test, width) = boundary(self.cursor.rest);
        self.test(test, width)
    }

    /// Reads a backslash and what it escapes, which begins with this character.
    fn escape(&mut self, c: char) -> Result<Tree, Error>
        requires { text_left self.old ≡ 92 ∷ c ∷ drop 2 (text_left self.old) }
        ensures value { GivesMeant (dialect.escape (scope_of self.old) c (drop 2 (text_left self.old))) result (place self.old) (place self.new) }
        ensures progress { OnOk result (length (text_left self.new) < length (text_left self.old)) }
    {
        if is_escapable(c) {
            return self.character(c, 2);
        }
        match c {
            'b' => Ok(self.boundary()),
            'x' => self.read_number_escape(2),
            'u' => self.read_number_escape(4),
            'U' => self.read_number_escape(8),
            'O' => self.any_item(true, 2),
            'N' => self.any_item(false, 2),
            'p' | 'P' => self.property(),
            _ => self.read_letter_escape(c),
        }
    }

    /// Reads a character that stands for itself, or for a place.
    fn read_unescaped(&mut self, c: char) -> Result<Tree, Error>
        requires { text_left self.old ≡ c ∷ drop 1 (text_left self.old) }
        ensures value { GivesMeant (dialect.unescaped_here (scope_of self.old) c (drop 1 (text_left self.old))) result (place self.old) (place self.new) }
        ensures progress { OnOk result (length (text_left self.new) < length (text_left self.old)) }
    {
        if let Some(test) = anchor(self.flags, c) {
            return Ok(self.test(test, 1));
        }
        if is_special(c) || begins_count(self.cursor.rest) {
            return Err(self.error(unexpected_fault(self.cursor.rest)));
        }
        self.character(c, 1)
    }

    /// Reads a character or an escape.
    fn lexeme(&mut self) -> Result<Tree, Error>
        ensures value { GivesMeant (dialect.lexeme (scope_of self.old) (text_left self.old)) result (place self.old) (place self.new) }
        ensures progress { OnOk result (length (text_left self.new) < length (text_left self.old)) }
    {
        match self.cursor.rest {
            ['\\', c, ..] => self.escape(*c),
            ['\\'] => Err(self.error(ParseErrorKind::TrailingBackslash)),
            ['.', ..] => self.any_item(self.flags.dot_all, 1),
            [c, ..] => self.read_unescaped(*c),
            [] => Err(self.error(unexpected_fault(self.cursor.rest))),
        }
    }

    /// Reads a class.
    #[tactic(auto, using(fancy_tree::proofs::PatternLemmas::pattern_equations))]
    fn class(&mut self) -> Result<Tree, Error>
        requires { is_at "[" (text_left self.old) ≡ true }
        ensures value { Gives pattern_of IsAtom result (place self.old) (place self.new) }
        ensures progress { OnOk result (length (text_left self.new) < length (text_left self.old)) }
    {
        let context = self.context();
        match self.cursor.class(context) {
            Ok(set) => Ok(Tree::Member(set.shared())),
            Err(refusal) => Err(self.class_error(refusal)),
        }
    }

    /// Reads a reference to a group; which one it names is settled where the pattern ends.
    fn reference(&mut self) -> Result<Tree, Error>
        requires { begins_reference (text_left self.old) ≡ true }
        ensures value { Gives pattern_of IsAtom result (place self.old) (place self.new) }
        ensures progress { OnOk result (length (text_left self.new) < length (text_left self.old)) }
    {
        let found = read_reference(self.alloc, self.cursor.rest, self.opened)?;
        match found {
            Some((target, after)) => {
                let index = self.wanted.len();
                self.wanted.push(target)?;
                self.cursor.rest = after;
                Ok(reference(self.flags.ignore_case, index))
            }
            None => Err(self.error(reference_fault(self.cursor.rest))),
        }
    }

    /// Reads a character, an escape, a class or a reference that begins with a backslash.
    pub(crate) fn atom(&mut self) -> Result<Tree, Error>
        ensures value { Gives pattern_of IsAtom result (place self.old) (place self.new) }
        ensures progress { OnOk result (length (text_left self.new) < length (text_left self.old)) }
    {
        if is_at_any(self.cursor.rest, &['[']) {
            return self.class();
        }
        if begins_reference(self.cursor.rest) {
            return self.reference();
        }
        self.lexeme()
    }
}
