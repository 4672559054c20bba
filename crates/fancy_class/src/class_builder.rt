//! The members of an operand, item by item.

ghost use Rattle.std.specs.Prelude.{◌≡◌, ℕ, false, OnOk, IfOk};
ghost use Rattle.fancy_tree.specs.Members.{members};
ghost use Rattle.fancy_class.specs.declared.context.ClassContext.{ClassContext as Context};
ghost use Rattle.fancy_class.specs.ClassGrammar.{item_members};
ghost use Rattle.fancy_class.specs.ClassViews.{builder_members, Adds};

use crate::chain::Chain;
use crate::class_item::ClassItem;
use crate::context::ClassContext;
use crate::named_sets::NamedSets;
use fancy_tree::named::characters;
use fancy_tree::operation::Operation;
use fancy_tree::set::Set;
use std::alloc::{AllocError, Global};

/// The items of an operand so far. What they say is united at once, at the end.
#[derive(Drop)]
pub(crate) struct ClassBuilder {
    /// The characters and the ranges of characters, which are to be widened.
    ranges: Vec<(u32, u32)>,
    /// The sets that have a name, each once.
    named: Vec<ClassItem>,
    /// The nested classes.
    nested: Chain,
}

impl ClassBuilder {
    /// No members.
    pub(crate) fn new(alloc: Global) -> ClassBuilder
        ensures { (context : Context) (c : ℕ) → builder_members context result c ≡ false }
    {
        ClassBuilder {
            ranges: Vec::new(alloc),
            named: Vec::new(alloc),
            nested: Chain::new(alloc, Set::empty(alloc)),
        }
    }

    /// Adds a nested class.
    pub(crate) fn add_class(&mut self, set: Set) -> Result<(), AllocError>
        ensures { OnOk result ((context : Context) → Adds context self.old self.new (members set)) }
    {
        self.nested.add(Operation::Union, set)?;
        Ok(())
    }

    /// Adds what an item says. A set that has a name is added once, however often it is named.
    pub(crate) fn add_item(&mut self, item: ClassItem) -> Result<(), AllocError>
        ensures { OnOk result ((context : Context)
            → Adds context self.old self.new (item_members context.meaning context.fold item)) }
    {
        if let ClassItem::Range(first, last) = item {
            self.ranges.push((first as u32, last as u32))?;
        } else if !self.named.contains(&item) {
            self.named.push(item)?;
        }
        Ok(())
    }

    /// All members, under the flags in force. Sets that have a name are taken from those that were made last.
    pub(crate) fn build(
        self,
        context: ClassContext,
        last: &mut NamedSets,
    ) -> Result<Set, AllocError>
        ensures { IfOk result (λ s. (c : ℕ) → members s c ≡ builder_members context self c) }
    {
        let ClassBuilder {
            ranges,
            named,
            nested: mut all,
        } = self;
        let ranges = characters(context.alloc, &ranges)?;
        all.add(Operation::Union, context.fold_case(ranges)?)?;
        for item in &named {
            all.add(Operation::Union, last.item_set(context, *item)?)?;
        }
        all.into_set()
    }
}
