//! Operators on sets, one after another.

ghost use Rattle.std.specs.Prelude.{◌≡◌, ℕ, OnOk, IfOk, if◌then◌else◌};
ghost use Rattle.fancy_tree.specs.Members.{members, applied};
ghost use Rattle.fancy_class.specs.Chains.{steps_of, chain_members, Changes};

use fancy_tree::operation::Operation;
use fancy_tree::set::{LAST, Set};
use std::alloc::{AllocError, Global};

/// An operator, and the set after it.
#[derive(Drop)]
pub(crate) struct Step {
    how: Operation,
    right: Set,
}

/// A set, and the operators that were applied to it, each after those before it.
///
/// An operator is not applied at once, since that walks over the whole set. It waits until the sets that wait have as many edges as
/// the set itself, and then all of them are applied by one walk. So an operator costs in proportion to the edges of its own set,
/// with the logarithm of how many wait, and the sets that wait are no larger than the set and the last of them.
#[derive(Drop)]
pub(crate) struct Chain {
    set: Set,
    /// The operators that wait.
    steps: Vec<Step>,
    /// How many edges their sets have, and one more for each.
    waiting: usize,
}

impl Chain {
    /// The set alone.
    pub(crate) fn new(alloc: Global, set: Set) -> Chain
        ensures { (c : ℕ) → chain_members result c ≡ members set c }
    {
        Chain {
            set,
            steps: Vec::new(alloc),
            waiting: 0,
        }
    }

    /// Applies an operator.
    pub(crate) fn add(&mut self, how: Operation, right: Set) -> Result<(), AllocError>
        ensures { OnOk result ((c : ℕ)
            → chain_members self.new c ≡ applied how (chain_members self.old c) (members right c)) }
    {
        let edges = right.edges().len();
        self.waiting = self.waiting.saturating_add(edges).saturating_add(1);
        self.steps.push(Step { how, right })?;
        if self.waiting >= self.set.edges().len() {
            self.set = self.settled()?;
            self.steps.clear();
            self.waiting = 0;
        }
        Ok(())
    }

    /// What the operators that wait make of the set.
    fn settled(&self) -> Result<Set, AllocError>
        ensures { IfOk result (λ s. (c : ℕ) → members s c ≡ chain_members self.now c) }
    {
        if let [step] = self.steps.as_slice() {
            return self.set.combine(step.how, &step.right);
        }
        let change = Change::of_steps(*self.steps.allocator(), &self.steps)?;
        change.of(&self.set)
    }

    /// The set that the operators give.
    pub(crate) fn into_set(self) -> Result<Set, AllocError>
        ensures { IfOk result (λ s. (c : ℕ) → members s c ≡ chain_members self c) }
    {
        if self.steps.is_empty() {
            return Ok(self.set);
        }
        self.settled()
    }
}

/// What a row of operators makes of any set.
#[derive(Drop)]
pub(crate) struct Change {
    /// The members of the set that stay.
    kept: Set,
    /// The other numbers that become members.
    gained: Set,
}

impl Change {
    /// What these operators make of a set. Each half of them is a change, and the second is made to what the first gives.
    fn of_steps(alloc: Global, steps: &[Step]) -> Result<Change, AllocError>
        ensures { IfOk result (λ change. Changes change (steps_of steps.now)) }
    {
        match steps {
            [] => Ok(Change {
                kept: Set::range(alloc, 0, LAST)?,
                gained: Set::empty(alloc),
            }),
            [step] => Ok(Change {
                kept: Set::range(alloc, 0, LAST)?.combine(step.how, &step.right)?,
                gained: Set::empty(alloc).combine(step.how, &step.right)?,
            }),
            _ => {
                let (first, second) = steps.split_at(steps.len() / 2);
                let first = Change::of_steps(alloc, first)?;
                let second = Change::of_steps(alloc, second)?;
                Ok(Change {
                    kept: second.of(&first.kept)?,
                    gained: second.of(&first.gained)?,
                })
            }
        }
    }

    /// What it makes of this set.
    fn of(&self, set: &Set) -> Result<Set, AllocError>
        ensures { IfOk result (λ s. (c : ℕ) → members s c
            ≡ (if members set.now c then members self.now.kept c else members self.now.gained c)) }
    {
        let kept = set.combine(Operation::Intersection, &self.kept)?;
        let gained = self.gained.combine(Operation::Difference, set)?;
        kept.combine(Operation::Union, &gained)
    }
}
