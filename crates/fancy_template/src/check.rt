//! Whether a template fits a regex.

ghost use Rattle.std.specs.Prelude.{◌≡◌, None, chars, IfOk, IfErr};
ghost use Rattle.fancy_template.specs.Expanders.{step_of};
ghost use Rattle.fancy_template.specs.Checks.{no_name, step_fault, fault_of_name, fault_of_number, Tells, TellsThe};

use crate::expander::Expander;
use crate::groups::GroupNames;
use crate::scan::as_number;
use crate::steps::Step;
use fancy_tree::error::{CompileError, Error, ParseErrorKind, Result};

impl Expander {
    ghost use Rattle.fancy_template.specs.Checks.{template_fault};

    /// Checks that a template names only groups that the regex has. The first step that does not pass says why:
    ///
    /// - A name that no group has is read as a number; where it is none, it is
    ///   `CompileError::InvalidGroupNameBackref`.
    /// - Number 0, the whole match, passes. Another number is `CompileError::NamedBackrefOnly` where groups have
    ///   names, and `CompileError::InvalidBackref` where the regex has no such group.
    /// - A substitution character that begins no form is `ParseErrorKind::GeneralParseError`, with the
    ///   place 0.
    ///
    /// ```text
    /// // a regex without groups that capture
    /// Expander::default().check("$0", &regex)  // Ok
    /// Expander::default().check("$1", &regex)  // Err(CompileError(InvalidBackref(1)))
    /// Expander::default().check("a$", &regex)  // Err(ParseError(0, GeneralParseError))
    /// ```
    pub fn check<G: GroupNames>(&self, template: &str, regex: &G) -> Result<()>
        ensures passes { IfOk result (λ _. template_fault self.now (G.groups regex.now) template.now ≡ None) }
        ensures refused { IfErr result (λ e. TellsThe e (template_fault self.now (G.groups regex.now) template.now)) }
    {
        for step in self.steps(template) {
            check_step(step, regex)?;
        }
        Ok(())
    }
}

fn check_step<G: GroupNames>(step: Step<'_>, regex: &G) -> Result<()>
    ensures passes { IfOk result (λ _. step_fault (G.groups regex.now) (step_of step.entry) ≡ None) }
    ensures refused { IfErr result (λ e. TellsThe e (step_fault (G.groups regex.now) (step_of step.entry))) }
{
    match step {
        Step::Literal(_) => Ok(()),
        Step::Name(name) => check_name(name, regex),
        Step::Number(number) => check_number(number, regex),
        Step::Error => Err(Error::ParseError(0, ParseErrorKind::GeneralParseError)),
    }
}

fn check_name<G: GroupNames>(name: &str, regex: &G) -> Result<()>
    ensures passes { IfOk result (λ _. fault_of_name (G.groups regex.now) (chars name.now) ≡ None) }
    ensures refused { IfErr result (λ e. TellsThe e (fault_of_name (G.groups regex.now) (chars name.now))) }
{
    if regex.group_named(name).is_some() {
        return Ok(());
    }
    match as_number(name) {
        Some(number) => check_number(number, regex),
        None => Err(no_group_named(name, regex)),
    }
}

fn check_number<G: GroupNames>(number: usize, regex: &G) -> Result<()>
    ensures passes { IfOk result (λ _. fault_of_number (G.groups regex.now) number ≡ None) }
    ensures refused { IfErr result (λ e. TellsThe e (fault_of_number (G.groups regex.now) number)) }
{
    if number == 0 {
        return Ok(());
    }
    if regex.has_names() {
        return Err(Error::CompileError(CompileError::NamedBackrefOnly));
    }
    if number < regex.group_count() {
        Ok(())
    } else {
        Err(Error::CompileError(CompileError::InvalidBackref(number)))
    }
}

/// The refusal of a name, which is copied into it.
fn no_group_named<G: GroupNames>(name: &str, regex: &G) -> Error
    ensures { Tells result (no_name (chars name.now)) }
{
    match String::from_str(regex.allocator(), name) {
        Ok(name) => Error::CompileError(CompileError::InvalidGroupNameBackref(name)),
        Err(_) => Error::Memory,
    }
}
