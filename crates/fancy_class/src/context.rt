//! What is in force where a class stands.

ghost use Rattle.std.specs.Prelude.{◌≡◌, ℕ, IfOk};
ghost use Rattle.fancy_tree.specs.Members.{members};
ghost use Rattle.fancy_class.specs.ClassGrammar.{fits, fold_case, negate_if, may_negate, set_members, item_members};

use crate::class_item::ClassItem;
use fancy_tree::named::{characters, members_of, universe};
use fancy_tree::operation::Operation;
use fancy_tree::property::property_members;
use fancy_tree::set::Set;
use fancy_tree::tree::Meaning;
use fancy_tree::widening::case_closure;
use std::alloc::{AllocError, Global};

/// What is in force where a class stands.
#[derive(Clone, Copy)]
pub struct ClassContext {
    /// What an item consumes.
    pub meaning: Meaning,
    /// Flag `i`: sets are widened by the characters that share a simple folding with a member.
    pub fold: bool,
    pub alloc: Global,
}

/// Whether a class can have a character as a member, which was written as a byte or not.
pub(crate) fn fits(meaning: Meaning, c: char, is_byte: bool) -> bool
    ensures { result ≡ fits meaning c is_byte }
{
    match meaning {
        Meaning::Unicode => true,
        Meaning::Bytes => is_byte || (c as u32) < 128,
        Meaning::AsciiText => (c as u32) < 128,
    }
}

/// Whether a set may have its complement taken.
pub fn may_negate(meaning: Meaning, negated: bool) -> bool
    ensures { result ≡ may_negate meaning negated }
{
    !(negated && matches!(meaning, Meaning::AsciiText))
}

impl ClassContext {
    /// The set with what flag `i` adds to it, where it is set.
    pub(crate) fn fold_case(self, set: Set) -> Result<Set, AllocError>
        ensures { IfOk result (λ s. (c : ℕ) → members s c ≡ fold_case self.meaning self.fold (members set) c) }
    {
        if self.fold {
            case_closure(self.meaning, &set)
        } else {
            Ok(set)
        }
    }

    /// The set, or its complement where it is negated.
    pub(crate) fn negate_if(self, negated: bool, set: Set) -> Result<Set, AllocError>
        ensures { IfOk result (λ s. (c : ℕ) → members s c ≡ negate_if self.meaning negated (members set) c) }
    {
        if !negated {
            return Ok(set);
        }
        universe(self.alloc, self.meaning)?.combine(Operation::Difference, &set)
    }

    /// A set that has a name, or its complement where it is negated.
    fn named_set(self, set: Set, negated: bool) -> Result<Set, AllocError>
        ensures { IfOk result
            (λ s. (c : ℕ) → members s c ≡ set_members self.meaning self.fold negated (members set) c) }
    {
        let set = self.fold_case(set)?;
        self.negate_if(negated, set)
    }

    /// The members of an item.
    pub fn item_set(self, item: ClassItem) -> Result<Set, AllocError>
        ensures { IfOk result (λ s. (c : ℕ) → members s c ≡ item_members self.meaning self.fold item c) }
    {
        match item {
            ClassItem::Range(first, last) => {
                self.fold_case(characters(self.alloc, &[(first as u32, last as u32)])?)
            }
            ClassItem::NamedSet(which, negated) => {
                self.named_set(members_of(self.alloc, self.meaning, which)?, negated)
            }
            ClassItem::Property(property, negated) => {
                self.named_set(property_members(self.alloc, property)?, negated)
            }
        }
    }
}
