//! What stands in a class: characters, ranges, sets, operators.

ghost use Rattle.std.specs.Prelude.{◌≡◌, ◌<◌, ◌≤◌, true, length, drop, option_map, IsTrue, IsSome, OnOk};
ghost use Rattle.fancy_class.specs.EscapeGrammar.{single_character};
ghost use Rattle.fancy_class.specs.ClassGrammar.{range, class_item, ends_operand, is_ranged, starts_class};
ghost use Rattle.fancy_class.specs.ClassReading.{operator, class_opening, is_bracket};
ghost use Rattle.fancy_class.specs.ClassViews.{ClassGivesValue};
ghost use Rattle.fancy_class.specs.Readings.{itself};

use crate::class_item::ClassItem;
use crate::context::{ClassContext, fits, may_negate};
use crate::cursor::Cursor;
use crate::refusal::ClassRefusal;
use crate::words::{begins, is_at_any};
use fancy_tree::error::ParseErrorKind;
use fancy_tree::operation::Operation;
use fancy_tree::tree::Meaning;

impl<'a> Cursor<'a> {
    /// Whether a range goes on here.
    fn is_ranged(&self) -> bool
        ensures value { result ≡ is_ranged self.now.rest.now }
        ensures room { IsTrue result → 0 < length self.now.rest.now }
    {
        match self.rest {
            ['-', ']' | '-', ..] => false,
            ['-', ..] => true,
            _ => false,
        }
    }

    /// Reads the last character of a range. An escape that stands for a set is none.
    fn last_of_range(&mut self) -> Result<(char, bool), ClassRefusal>
        ensures value { ClassGivesValue itself (single_character self.old.rest.now) result self.new.rest.now }
        ensures progress { OnOk result (length self.new.rest.now < length self.old.rest.now) }
    {
        let is_set = self.set_here().is_some() || self.is_property();
        match self.single_character() {
            Err(ClassRefusal::Invalid(_)) if is_set => {
                Err(ClassRefusal::Invalid(ParseErrorKind::InvalidClass))
            }
            found => found,
        }
    }

    /// Reads a character or a range.
    fn range(&mut self, meaning: Meaning) -> Result<ClassItem, ClassRefusal>
        ensures value { ClassGivesValue itself (range meaning self.old.rest.now) result self.new.rest.now }
        ensures progress { OnOk result (length self.new.rest.now < length self.old.rest.now) }
    {
        let (first, is_byte) = self.single_character()?;
        if !fits(meaning, first, is_byte) {
            return Err(ClassRefusal::Invalid(ParseErrorKind::InvalidClass));
        }
        if !self.is_ranged() {
            return Ok(ClassItem::Range(first, first));
        }
        self.skip(1);
        let (last, is_byte) = self.last_of_range()?;
        if !fits(meaning, last, is_byte) || last < first {
            return Err(ClassRefusal::Invalid(ParseErrorKind::InvalidClass));
        }
        Ok(ClassItem::Range(first, last))
    }

    /// Reads a character, a range or the name of a set.
    pub(crate) fn class_item(&mut self, context: ClassContext) -> Result<ClassItem, ClassRefusal>
        ensures value { ClassGivesValue itself (class_item context.meaning self.old.rest.now) result self.new.rest.now }
        ensures progress { OnOk result (length self.new.rest.now < length self.old.rest.now) }
    {
        if self.is_posix() {
            return self.posix(context.meaning);
        }
        if self.is_property() {
            return self.property(context);
        }
        let Some((which, negated)) = self.set_here() else {
            return self.range(context.meaning);
        };
        if !may_negate(context.meaning, negated) {
            return Err(ClassRefusal::Invalid(ParseErrorKind::InvalidClass));
        }
        self.skip(2);
        Ok(ClassItem::NamedSet(which, negated))
    }

    /// Reads a character, a range or the name of a set. Where it is refused the cursor stays before it.
    pub(crate) fn item_here(&mut self, context: ClassContext) -> Result<ClassItem, ClassRefusal>
        ensures value { ClassGivesValue itself (class_item context.meaning self.old.rest.now) result self.new.rest.now }
        ensures progress { OnOk result (length self.new.rest.now < length self.old.rest.now) }
        ensures forward { length self.new.rest.now ≤ length self.old.rest.now }
    {
        let start = self.rest;
        match self.class_item(context) {
            Ok(item) => Ok(item),
            Err(refusal) => {
                self.rest = start;
                Err(refusal)
            }
        }
    }

    /// Whether a nested class starts here.
    pub(crate) fn starts_class(&self) -> bool
        ensures value { result ≡ starts_class self.now.rest.now }
        ensures room { IsTrue result → 0 < length self.now.rest.now }
    {
        is_at_any(self.rest, &['[']) && !self.is_posix()
    }

    /// Whether no further item belongs to the operand.
    pub(crate) fn ends_operand(&self, first: bool) -> bool
        ensures { result ≡ ends_operand first self.now.rest.now }
    {
        self.rest.is_empty()
            || (!first && (is_at_any(self.rest, &[']']) || begins(self.rest, &['-', '-'])))
            || begins(self.rest, &['&', '&'])
            || begins(self.rest, &['~', '~'])
    }

    /// The operator that stands here, if one does.
    pub(crate) fn operator(&self) -> Option<Operation>
        ensures value { operator self.now.rest.now ≡ option_map (λ o. (o, drop 2 self.now.rest.now)) result }
        ensures room { IsSome result → 2 ≤ length self.now.rest.now }
    {
        if begins(self.rest, &['&', '&']) {
            Some(Operation::Intersection)
        } else if begins(self.rest, &['-', '-']) {
            Some(Operation::Difference)
        } else if begins(self.rest, &['~', '~']) {
            Some(Operation::SymmetricDifference)
        } else {
            None
        }
    }

    /// Reads what opens a class, and tells whether its complement is meant.
    pub(crate) fn opening(&mut self) -> bool
        requires { is_bracket self.old.rest.now ≡ true }
        ensures value { class_opening self.old.rest.now ≡ (result, self.new.rest.now) }
        ensures progress { length self.new.rest.now < length self.old.rest.now }
    {
        self.skip(1);
        if is_at_any(self.rest, &['^']) {
            self.skip(1);
            return true;
        }
        false
    }
}
