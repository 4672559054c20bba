//! Which group a reference names, once the whole pattern is read.

ghost use Rattle.std.specs.Prelude.{◌≡◌, ℕ, ◌-◌, ◌^◌, ◌&&◌, min, map, IfOk, IfErr, chars, string_bytes};
ghost use Rattle.fancy_syntax.specs.Dialect.{has_name};
ghost use Rattle.fancy_tree.specs.GroupNames.{names_of};
ghost use Rattle.fancy_syntax.specs.References.{no_name as no_name_fault, group_numbered, group_in_digits, resolve, group_for};
ghost use Rattle.fancy_syntax.specs.Views.{target_of, targets_of, groups_of, AreResolved, HaveFault, Resolves, RefusesReference};

use crate::count::{decimal, past_digits};
use crate::reference::{LARGEST_TOLD, Target};
use fancy_tree::error::{CompileError, Error};
use fancy_tree::name::{Names, characters_of};
use std::alloc::Global;

/// The groups of a whole pattern, as references look at them.
#[derive(Clone, Copy)]
pub(crate) struct Groups<'a> {
    /// Whether groups are referred to by name alone.
    pub(crate) by_name: bool,
    /// How many there are, with group 0, the whole match.
    pub(crate) count: usize,
    pub(crate) names: &'a Names,
}

/// Whether groups are referred to by name alone: where only those with a name are to capture, and there is one.
#[tactic(auto, using(crate::proofs::ResolveLemmas::any_named))]
pub(crate) fn names_alone(only_named: bool, names: &Names) -> bool
    ensures { result ≡ (only_named && has_name (names_of names.now)) }
{
    only_named && !names.groups().is_empty()
}

/// The refusal of a reference to a name that no group has.
fn no_name(alloc: Global, name: &str) -> Error
    ensures { RefusesReference result (λ f. f ≡ no_name_fault (chars name.now)) }
{
    match String::from_str(alloc, name) {
        Ok(name) => Error::CompileError(CompileError::InvalidGroupNameBackref(name)),
        Err(_) => Error::Memory,
    }
}

impl Groups<'_> {
    /// The group of this number.
    fn resolve_number(&self, number: u64) -> Result<usize, Error>
        ensures { (n : ℕ) → number ≡ min n (2 ^ 64 - 1) → Resolves (group_numbered (groups_of self.now) n) result }
    {
        if self.by_name {
            return Err(Error::CompileError(CompileError::NamedBackrefOnly));
        }
        if number >= 1 && number < self.count as u64 {
            return Ok(number as usize);
        }
        Err(Error::CompileError(CompileError::InvalidBackref(number.min(LARGEST_TOLD) as usize)))
    }

    /// The group of the number that these digits are.
    fn resolve_digits(&self, alloc: Global, name: &str) -> Result<usize, Error>
        ensures { Resolves (group_in_digits (groups_of self.now) (chars name.now)) result }
    {
        let digits = characters_of(alloc, name)?;
        if past_digits(&digits).is_empty() {
            return self.resolve_number(decimal(&digits));
        }
        Err(no_name(alloc, name))
    }

    /// The group that a reference names.
    fn resolve(&self, alloc: Global, target: &Target) -> Result<usize, Error>
        ensures { Resolves (resolve (groups_of self.now) (target_of target.now)) result }
    {
        match target {
            Target::Numbered(number) => self.resolve_number(*number as u64),
            Target::Missing(number) if !self.by_name => {
                Err(Error::CompileError(CompileError::InvalidBackref(*number)))
            }
            Target::Missing(_) => Err(Error::CompileError(CompileError::NamedBackrefOnly)),
            Target::Called(name) => match self.names.last_named(name.as_str()) {
                Some(group) => Ok(group),
                None => Err(no_name(alloc, name.as_str())),
            },
            Target::CalledOrNumbered(name) => match self.names.last_named(name.as_str()) {
                Some(group) => Ok(group),
                None => self.resolve_digits(alloc, name.as_str()),
            },
        }
    }

    /// The group that each reference names.
    pub(crate) fn resolve_all(&self, alloc: Global, targets: &[Target]) -> Result<Vec<usize>, Error>
        ensures numbers { IfOk result (λ v. v.items ≡ map (group_for (groups_of self.now)) (targets_of targets.now)) }
        ensures resolved { IfOk result (λ v. AreResolved (groups_of self.now) targets.now) }
        ensures refused { IfErr result (λ e. RefusesReference e (HaveFault (groups_of self.now) targets.now)) }
    {
        let mut numbers = Vec::new(alloc);
        for target in targets {
            let number = self.resolve(alloc, target)?;
            numbers.push(number)?;
        }
        Ok(numbers)
    }
}
