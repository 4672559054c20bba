//! References to groups, as they are written: `\1`, `\k<n>`, `\k'n'`, `\k<-1>`, `(?P=n)`, and in conditions `1`, `<n>` and `'n'`.

ghost use Rattle.std.specs.Prelude.{◌≡◌, ℕ, ◌-◌, ◌^◌, ◌<◌, ◌≤◌, min, IfOk, IfSome, length, option_map};
ghost use Rattle.fancy_syntax.specs.References.{back, number_reference, distance_reference, name_reference, delimited_target, read_reference, begins_reference, within_largest, number_condition, name_condition, group_condition, is_left_out};
ghost use Rattle.fancy_syntax.specs.Views.{target_of, reading_of};

use crate::count::{decimal, is_at_digit, past_digits};
use fancy_class::words::is_at_any;
use fancy_tree::error::ParseErrorKind;
use fancy_tree::name::{split_name, text_of};
use std::alloc::{AllocError, Global};

/// The largest number that a reference or the refusal of one tells.
pub(crate) const LARGEST_TOLD: u64 = 4_294_967_295;

/// What a reference names.
#[derive(Drop)]
pub(crate) enum Target {
    /// The group of this number.
    Numbered(usize),
    /// No group: there is none so many back, or none of so large a number.
    Missing(usize),
    /// The last group of this name.
    Called(String),
    /// The last group of this name, or where no group has it the one whose number these digits are.
    CalledOrNumbered(String),
}

/// A reference that was read, and the text after it.
pub(crate) type ReadReference<'a> = (Target, &'a [char]);

/// Whether what may only be a reference begins here.
pub(crate) fn begins_reference(text: &[char]) -> bool
    ensures { result ≡ begins_reference text.now }
{
    match text {
        ['\\', after @ ..] => {
            is_at_any(after, &['1', '2', '3', '4', '5', '6', '7', '8', '9', 'k'])
        }
        _ => false,
    }
}

/// The group that is so many back from the `opened` ones before a place; 1 is the last one.
fn back(opened: usize, distance: u64) -> Target
    requires { opened < 2 ^ 63 }
    ensures { (k : ℕ) → distance ≡ min k (2 ^ 64 - 1) → target_of result ≡ back opened k }
{
    if distance >= 1 && distance <= opened as u64 {
        Target::Numbered(opened - (distance as usize - 1))
    } else {
        Target::Missing(distance.min(LARGEST_TOLD) as usize)
    }
}

/// The row of digits that stands after a backslash, if its first is not 0.
fn number_reference(text: &[char]) -> Option<ReadReference<'_>>
    ensures value { option_map reading_of result ≡ number_reference text.now }
    ensures shorter { IfSome result (λ r. length r.1.now ≤ length text.now) }
{
    if !is_at_any(text, &['1', '2', '3', '4', '5', '6', '7', '8', '9']) {
        return None;
    }
    let number = decimal(text);
    if number > LARGEST_TOLD {
        return None;
    }
    Some((Target::Numbered(number as usize), past_digits(text)))
}

/// A row of digits up to this delimiter: a distance back from the `opened` groups before it.
fn distance_reference(text: &[char], opened: usize, delimiter: char) -> Option<ReadReference<'_>>
    requires { opened < 2 ^ 63 }
    ensures value { option_map reading_of result ≡ distance_reference opened delimiter text.now }
    ensures shorter { IfSome result (λ r. length r.1.now ≤ length text.now) }
{
    match past_digits(text) {
        [c, after @ ..] if *c == delimiter && is_at_digit(text) => {
            Some((back(opened, decimal(text)), after))
        }
        _ => None,
    }
}

/// A name up to this delimiter.
fn name_reference(
    alloc: Global,
    text: &[char],
    delimiter: char,
) -> Result<Option<ReadReference<'_>>, AllocError>
    ensures value { IfOk result (λ r. option_map reading_of r ≡ name_reference delimiter text.now) }
    ensures shorter { IfOk result (λ r. IfSome r (λ x. length x.1.now ≤ length text.now)) }
{
    let (name, after) = split_name(text);
    match after {
        [c, after @ ..] if *c == delimiter && !name.is_empty() => {
            let name = text_of(alloc, name)?;
            Ok(Some((Target::CalledOrNumbered(name), after)))
        }
        _ => Ok(None),
    }
}

/// A name, or a dash and a distance, up to this delimiter.
fn delimited_target(
    alloc: Global,
    text: &[char],
    opened: usize,
    delimiter: char,
) -> Result<Option<ReadReference<'_>>, AllocError>
    requires { opened < 2 ^ 63 }
    ensures value { IfOk result (λ r. option_map reading_of r ≡ delimited_target opened delimiter text.now) }
    ensures shorter { IfOk result (λ r. IfSome r (λ x. length x.1.now ≤ length text.now)) }
{
    match text {
        ['-', digits @ ..] => Ok(distance_reference(digits, opened, delimiter)),
        _ => name_reference(alloc, text, delimiter),
    }
}

/// The reference that a text begins with, where so many groups were opened before it; none where it begins with none.
pub(crate) fn read_reference(
    alloc: Global,
    text: &[char],
    opened: usize,
) -> Result<Option<ReadReference<'_>>, AllocError>
    requires { opened < 2 ^ 63 }
    ensures value { IfOk result (λ r. option_map reading_of r ≡ read_reference opened text.now) }
    ensures shorter { IfOk result (λ r. IfSome r (λ x. length x.1.now < length text.now)) }
{
    if text.starts_with(&['\\', 'k', '<']) {
        return delimited_target(alloc, &text[3..], opened, '>');
    }
    if text.starts_with(&['\\', 'k', '\'']) {
        return delimited_target(alloc, &text[3..], opened, '\'');
    }
    match text {
        ['\\', digits @ ..] => Ok(number_reference(digits)),
        _ => Ok(None),
    }
}

/// The group of this number; none has one above 2^32 - 1.
fn within_largest(number: u64) -> Target
    ensures { (n : ℕ) → number ≡ min n (2 ^ 64 - 1) → target_of result ≡ within_largest n }
{
    if number <= LARGEST_TOLD {
        Target::Numbered(number as usize)
    } else {
        Target::Missing(LARGEST_TOLD as usize)
    }
}

/// A row of digits up to a parenthesis.
fn number_condition(text: &[char]) -> Option<ReadReference<'_>>
    ensures value { option_map reading_of result ≡ number_condition text.now }
    ensures shorter { IfSome result (λ r. length r.1.now ≤ length text.now) }
{
    match past_digits(text) {
        [')', after @ ..] if is_at_digit(text) => { Some((within_largest(decimal(text)), after)) }
        _ => None,
    }
}

/// A name up to this delimiter and a parenthesis.
fn name_condition(
    alloc: Global,
    text: &[char],
    delimiter: char,
) -> Result<Option<ReadReference<'_>>, AllocError>
    ensures value { IfOk result (λ r. option_map reading_of r ≡ name_condition delimiter text.now) }
    ensures shorter { IfOk result (λ r. IfSome r (λ x. length x.1.now ≤ length text.now)) }
{
    let (name, after) = split_name(text);
    match after {
        [c, ')', after @ ..] if *c == delimiter && !name.is_empty() => {
            let name = text_of(alloc, name)?;
            Ok(Some((Target::Called(name), after)))
        }
        _ => Ok(None),
    }
}

/// The group that a condition tests, and the text after the condition's parenthesis; none where the condition is no test of a
/// group.
pub(crate) fn read_condition(
    alloc: Global,
    text: &[char],
) -> Result<Option<ReadReference<'_>>, AllocError>
    ensures value { IfOk result (λ r. option_map reading_of r ≡ group_condition text.now) }
    ensures shorter { IfOk result (λ r. IfSome r (λ x. length x.1.now ≤ length text.now)) }
{
    match text {
        ['<', name @ ..] => name_condition(alloc, name, '>'),
        ['\'', name @ ..] => name_condition(alloc, name, '\''),
        _ => Ok(number_condition(text)),
    }
}

/// Whether a condition in a form that is left out begins here: a definition, or look-around without parentheses of its own.
pub(crate) fn is_left_out(text: &[char]) -> bool
    ensures { result ≡ is_left_out text.now }
{
    text.starts_with(&['D', 'E', 'F', 'I', 'N', 'E', ')']) || is_at_any(text, &['?'])
}

/// What is wrong where a reference is to stand and none does.
pub(crate) fn reference_fault(text: &[char]) -> ParseErrorKind {
    match text {
        ['\\', 'k', '<', inside @ ..] => delimited_fault(inside, '>'),
        ['\\', 'k', '\'', inside @ ..] => delimited_fault(inside, '\''),
        _ => ParseErrorKind::InvalidEscape,
    }
}

/// What is wrong between delimiters: other dialects count levels and groups further on by digits after a sign.
fn delimited_fault(inside: &[char], delimiter: char) -> ParseErrorKind {
    let (name, after) = split_name(inside);
    match after {
        ['-', ..] if name.is_empty() => ParseErrorKind::InvalidGroupName,
        ['+' | '-', digits @ ..]
            if is_at_digit(digits) && is_at_any(past_digits(digits), &[delimiter]) => {
            ParseErrorKind::NotInProfile
        }
        _ => ParseErrorKind::InvalidGroupName,
    }
}
