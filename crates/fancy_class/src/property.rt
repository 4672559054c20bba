//! Escapes that name a property of Unicode.

ghost use Rattle.std.specs.Prelude.{◌≡◌, ◌<◌, ◌≤◌, true, length, IsTrue, OnOk};
ghost use Rattle.fancy_class.specs.EscapeGrammar.{is_property, property_name};
ghost use Rattle.fancy_class.specs.ClassGrammar.{property, property_of};
ghost use Rattle.fancy_class.specs.ClassViews.{ClassGivesValue, IsInvalid};
ghost use Rattle.fancy_class.specs.Readings.{itself};

use crate::class_item::ClassItem;
use crate::context::ClassContext;
use crate::cursor::Cursor;
use crate::escape::before_brace;
use crate::refusal::ClassRefusal;
use crate::words::begins;
use fancy_tree::error::ParseErrorKind;
use fancy_tree::property::property_named;
use fancy_tree::tree::Meaning;

/// Why a property of this name is refused: a value of a property is a form of its own.
fn refusal(name: &[char]) -> ClassRefusal
    ensures { IsInvalid result }
{
    if name.contains(&'=') || name.contains(&':') {
        ClassRefusal::Invalid(ParseErrorKind::NotInProfile)
    } else {
        ClassRefusal::Invalid(ParseErrorKind::InvalidClass)
    }
}

impl<'a> Cursor<'a> {
    /// Whether an escape that names a property begins here.
    pub(crate) fn is_property(&self) -> bool
        ensures value { result ≡ is_property self.now.rest.now }
        ensures room { IsTrue result → 2 ≤ length self.now.rest.now }
    {
        begins(self.rest, &['\\', 'p']) || begins(self.rest, &['\\', 'P'])
    }

    /// Reads the name of a property: what stands in braces, or one character.
    fn property_name(&mut self) -> Result<&'a [char], ClassRefusal>
        ensures value { ClassGivesValue (λ s. s.now) (property_name self.old.rest.now) result self.new.rest.now }
        ensures forward { OnOk result (length self.new.rest.now ≤ length self.old.rest.now) }
    {
        match self.rest {
            ['{', inside @ ..] => {
                let len = before_brace(inside);
                if len == inside.len() {
                    return Err(ClassRefusal::Invalid(ParseErrorKind::InvalidClass));
                }
                self.skip(len + 2);
                Ok(&inside[..len])
            }
            [_, ..] => {
                let name = &self.rest[..1];
                self.skip(1);
                Ok(name)
            }
            [] => Err(ClassRefusal::Invalid(ParseErrorKind::InvalidClass)),
        }
    }

    /// Reads the name of a property and finds the property.
    fn property_end(
        &mut self,
        context: ClassContext,
        negated: bool,
    ) -> Result<ClassItem, ClassRefusal>
        ensures value { ClassGivesValue itself (property_of context.meaning negated (property_name self.old.rest.now)) result self.new.rest.now }
        ensures forward { OnOk result (length self.new.rest.now ≤ length self.old.rest.now) }
    {
        let name = self.property_name()?;
        if !matches!(context.meaning, Meaning::Unicode) {
            return Err(ClassRefusal::Invalid(ParseErrorKind::InvalidClass));
        }
        let Some(found) = property_named(context.alloc, name)? else {
            return Err(refusal(name));
        };
        Ok(ClassItem::Property(found, negated))
    }

    /// Reads an escape that names a property.
    pub fn property(&mut self, context: ClassContext) -> Result<ClassItem, ClassRefusal>
        requires { is_property self.old.rest.now ≡ true }
        ensures value { ClassGivesValue itself (property context.meaning self.old.rest.now) result self.new.rest.now }
        ensures progress { OnOk result (length self.new.rest.now < length self.old.rest.now) }
    {
        let negated = begins(self.rest, &['\\', 'P']);
        self.skip(2);
        self.property_end(context, negated)
    }
}
