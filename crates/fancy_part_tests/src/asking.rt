//! What the tests ask of a part.

mod fact;
mod refusals;

pub(crate) use fact::check;
pub(crate) use refusals::is_too_complex;
