//! Cutting a template into its steps.

ghost use Rattle.std.specs.Prelude.{◌≡◌, ℕ, chars, length, option_map, map};
ghost use Rattle.std.specs.Iterator.{at_most, YieldsFirstBy};
ghost use Rattle.fancy_template.specs.Templates.{form, name_in_delimiters, undelimited, number_form};
ghost use Rattle.fancy_template.specs.Expanders.{syntax_of, step_of, steps_left, step_read, form_in};

use crate::expander::Expander;
use crate::scan::{CharKind, after_char, after_word, split_first, split_row};

/// What a template is cut into.
#[derive(Clone, Copy, PartialEq, Eq)]
pub enum Step<'a> {
    /// A character that gives itself.
    Literal(char),
    /// The group with this name; without such a group, the one whose decimal number this is.
    Name(&'a str),
    /// The group with this number.
    Number(usize),
    /// A substitution character that begins no form. The next step is that character.
    Error,
}

/// The steps of a template, in order.
///
/// ```text
/// Expander::default().steps("$1a$")  // Name("1a"), Error, Literal('$')
/// Expander::python().steps("\\10")   // Number(10)
/// ```
#[derive(Drop)]
pub struct Steps<'a> {
    pub(crate) expander: Expander,
    pub(crate) rest: &'a str,
    pub(crate) owes_mark: bool,
}

impl<'a> Iterator for Steps<'a> {
    type Item = Step<'a>;

    ghost next_gives = { YieldsFirstBy step_of steps_left };

    ghost remaining = { λ s. at_most (length (steps_left s)) };

    fn next(&mut self) -> Option<Step<'a>> {
        if self.owes_mark {
            self.owes_mark = false;
            return Some(Step::Literal(self.expander.mark));
        }
        let Some((first, after)) = split_first(self.rest) else {
            return None;
        };
        self.rest = after;
        if first != self.expander.mark {
            return Some(Step::Literal(first));
        }
        match read_form(&self.expander, after) {
            Some((step, rest)) => {
                self.rest = rest;
                Some(step)
            }
            None => {
                self.owes_mark = true;
                Some(Step::Error)
            }
        }
    }
}

/// The form at the front of a text after a substitution character, and what follows it.
fn read_form<'a>(expander: &Expander, text: &'a str) -> Option<(Step<'a>, &'a str)>
    ensures { option_map step_read result ≡ option_map (form_in (chars text.now)) (form (syntax_of expander.now) (chars text.now)) }
{
    if let Some(rest) = after_char(text, expander.mark) {
        return Some((Step::Literal(expander.mark), rest));
    }
    if let Some(read) = read_delimited(expander, text) {
        return Some(read);
    }
    if let Some(read) = read_undelimited(expander, text) {
        return Some(read);
    }
    read_number(text)
}

/// A name between delimiters.
fn read_delimited<'a>(expander: &Expander, text: &'a str) -> Option<(Step<'a>, &'a str)>
    ensures { option_map step_read result ≡ option_map (form_in (chars text.now)) (name_in_delimiters (syntax_of expander.now) (chars text.now)) }
{
    let Some(inside) = after_word(text, expander.delimiters.opening()) else {
        return None;
    };
    let (name, after) = split_row(inside, CharKind::OfName);
    if name.is_empty() {
        return None;
    }
    match after_word(after, expander.delimiters.closing()) {
        Some(rest) => Some((Step::Name(name), rest)),
        None => None,
    }
}

/// A name with nothing around it, where that is allowed.
fn read_undelimited<'a>(expander: &Expander, text: &'a str) -> Option<(Step<'a>, &'a str)>
    ensures { option_map step_read result ≡ option_map (form_in (chars text.now)) (undelimited (syntax_of expander.now) (chars text.now)) }
{
    if !expander.undelimited {
        return None;
    }
    let (name, rest) = split_row(text, CharKind::OfName);
    if name.is_empty() {
        return None;
    }
    Some((Step::Name(name), rest))
}

/// A number: all digits that are there.
fn read_number(text: &str) -> Option<(Step<'_>, &str)>
    ensures { option_map step_read result ≡ option_map (form_in (chars text.now)) (number_form (chars text.now)) }
{
    let (digits, rest) = split_row(text, CharKind::Digit);
    match digits.parse::<usize>() {
        Ok(number) => Some((Step::Number(number), rest)),
        Err(_) => None,
    }
}
