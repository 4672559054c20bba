//! The sets with a name that were made last.

ghost use Rattle.std.specs.Prelude.{◌≡◌, ℕ, IfOk, IfSome, IsTrue};
ghost use Rattle.fancy_tree.specs.Members.{members};
ghost use Rattle.fancy_class.specs.ClassGrammar.{item_members};

use crate::class_item::ClassItem;
use crate::context::ClassContext;
use fancy_tree::set::Set;
use fancy_tree::tree::Meaning;
use std::alloc::{AllocError, Global};

/// How many are remembered.
const REMEMBERED: usize = 8;

/// A set, and what it was asked by: the item, and what was in force.
#[derive(Drop)]
struct NamedSet {
    meaning: Meaning,
    fold: bool,
    item: ClassItem,
    set: Set,
    ghost is_asked: { (c : ℕ) → members set c ≡ item_members meaning fold item c },
}

/// The sets that were made last for items that name one. An item that stands there again, with the same flags in force, takes the
/// set that is there, so `\w` written a million times is one set.
#[derive(Drop)]
pub struct NamedSets {
    last: Vec<NamedSet>,
    // where the next one goes when there is room for no more
    oldest: usize,
}

impl NamedSet {
    /// Whether it was asked by this.
    fn is_of(&self, context: ClassContext, item: ClassItem) -> bool
        ensures meaning { IsTrue result → self.now.meaning ≡ context.meaning }
        ensures fold { IsTrue result → self.now.fold ≡ context.fold }
        ensures item { IsTrue result → self.now.item ≡ item }
    {
        self.meaning == context.meaning && self.fold == context.fold && self.item == item
    }
}

impl NamedSets {
    /// None yet.
    pub fn new(alloc: Global) -> NamedSets {
        NamedSets {
            last: Vec::new(alloc),
            oldest: 0,
        }
    }

    /// The set of the item, if it is remembered.
    fn remembered(&self, context: ClassContext, item: ClassItem) -> Option<&Set>
        ensures { IfSome result (λ s. (c : ℕ) → members s.now c ≡ item_members context.meaning context.fold item c) }
    {
        for named in &self.last {
            if named.is_of(context, item) {
                return Some(&named.set);
            }
        }
        None
    }

    /// Remembers one more, in the place of the oldest where there is room for no more.
    fn remember(&mut self, named: NamedSet) -> Result<(), AllocError> {
        if self.last.len() < REMEMBERED {
            self.last.push(named)?;
            return Ok(());
        }
        let place = self.oldest % REMEMBERED;
        self.last[place] = named;
        self.oldest = place + 1;
        Ok(())
    }

    /// The members of an item that names a set.
    pub fn item_set(&mut self, context: ClassContext, item: ClassItem) -> Result<Set, AllocError>
        ensures { IfOk result (λ s. (c : ℕ) → members s c ≡ item_members context.meaning context.fold item c) }
    {
        if let Some(set) = self.remembered(context, item) {
            return set.copied();
        }
        let made = context.item_set(item)?.shared();
        let set = made.copied()?;
        let ClassContext { meaning, fold, .. } = context;
        self.remember(NamedSet {
            meaning,
            fold,
            item,
            set,
        })?;
        Ok(made)
    }
}
