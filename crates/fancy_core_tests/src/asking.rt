//! What the tests ask of a pattern: the rows of their tables, and for each kind of call one function that checks rows.

mod fact;
mod groups;
mod nested;
mod replaced;
mod settings;
mod spans;
mod verdicts;

pub(crate) use fact::check;
pub(crate) use groups::{Group, PartsRow, check_input, check_owned_parts, check_parts, taken};
pub(crate) use nested::{nested, repeated};
pub(crate) use replaced::{ReplacedRow, check_answer, check_fixed, check_replaced};
pub(crate) use settings::{owned, regex_of, regex_with, searchable};
pub(crate) use spans::{Span, check_find, check_part, span_of};
pub(crate) use verdicts::{Verdict, check_verdict};
