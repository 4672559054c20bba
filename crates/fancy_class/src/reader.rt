//! Classes, from bracket to bracket.

ghost use Rattle.std.specs.Prelude.{◌≡◌, ◌<◌, ◌≤◌, true, length, OnOk};
ghost use Rattle.fancy_tree.specs.Members.{members, edges_of};
ghost use Rattle.fancy_class.specs.ClassGrammar.{none_of, ReadsClass, ReadsEdges};
ghost use Rattle.fancy_class.specs.ClassReading.{is_bracket, ClassReading, OperandItemsReading};
ghost use Rattle.fancy_class.specs.ClassViews.{ClassGives};

use crate::chain::Chain;
use crate::class_builder::ClassBuilder;
use crate::context::{ClassContext, may_negate};
use crate::cursor::Cursor;
use crate::refusal::ClassRefusal;
use crate::words::is_at_any;
use fancy_tree::error::ParseErrorKind;
use fancy_tree::set::Set;

/// How many brackets may be open at one place.
const DEEPEST: u32 = 128;

impl<'a> Cursor<'a> {
    /// Reads the class that stands here. Where it is refused the cursor stands at the fault: at the item, or at the bracket of a
    /// class that is not closed, nested too deep, or complemented where that has no meaning.
    pub fn class(&mut self, context: ClassContext) -> Result<Set, ClassRefusal>
        requires { is_bracket self.old.rest.now ≡ true }
        ensures value { ClassGives members (ReadsClass context.meaning context.fold)
            result self.old.rest.now self.new.rest.now }
        ensures edges { ClassGives edges_of (ReadsEdges context.meaning context.fold)
            result self.old.rest.now self.new.rest.now }
        ensures progress { OnOk result (length self.new.rest.now < length self.old.rest.now) }
        ensures forward { length self.new.rest.now ≤ length self.old.rest.now }
    {
        self.bracketed_class(context, DEEPEST)
    }

    /// Reads a class; `room` brackets may be open in it, its own with them.
    #[cycle(reader)]
    fn bracketed_class(&mut self, context: ClassContext, room: u32) -> Result<Set, ClassRefusal>
        requires { is_bracket self.old.rest.now ≡ true }
        ensures value { ClassGives members (ClassReading context.meaning context.fold room) result self.old.rest.now self.new.rest.now }
        ensures progress { OnOk result (length self.new.rest.now < length self.old.rest.now) }
        ensures forward { length self.new.rest.now ≤ length self.old.rest.now }
    {
        let start = self.rest;
        let negated = self.opening();
        if !may_negate(context.meaning, negated) {
            self.rest = start;
            return Err(ClassRefusal::Invalid(ParseErrorKind::InvalidClass));
        }
        if room == 0 {
            self.rest = start;
            return Err(ClassRefusal::Invalid(ParseErrorKind::RecursionExceeded));
        }
        let first = self.items(context, room - 1, true)?;
        let mut chain = Chain::new(context.alloc, first);
        'operands: while let Some(how) = self.operator() {
            self.skip(2);
            let right = self.items(context, room - 1, false)?;
            chain.add(how, right)?;
        }
        if !is_at_any(self.rest, &[']']) {
            self.rest = start;
            return Err(ClassRefusal::Invalid(ParseErrorKind::InvalidClass));
        }
        self.skip(1);
        let set = chain.into_set()?;
        Ok(context.negate_if(negated, set)?)
    }

    /// Reads items up to an operator or the end; at its start a class may have a bracket or two hyphens as
    /// members.
    #[cycle(reader)]
    fn items(
        &mut self,
        context: ClassContext,
        room: u32,
        mut first: bool,
    ) -> Result<Set, ClassRefusal>
        ensures value { ClassGives members (OperandItemsReading context.meaning context.fold room first none_of) result self.old.rest.now self.new.rest.now }
        ensures forward { length self.new.rest.now ≤ length self.old.rest.now }
    {
        let mut builder = ClassBuilder::new(context.alloc);
        'more: while !self.ends_operand(first) {
            if self.starts_class() {
                let nested = self.bracketed_class(context, room)?;
                builder.add_class(nested)?;
            } else {
                let item = self.item_here(context)?;
                builder.add_item(item)?;
            }
            first = false;
        }
        Ok(builder.build(context, &mut self.named)?)
    }
}
