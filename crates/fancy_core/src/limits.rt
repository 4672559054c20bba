//! How many matches may be replaced.

ghost use Rattle.std.specs.Prelude.{◌≡◌};
ghost use Rattle.fancy_core.specs.ItemLimits.{limit_of, is_reached, one_fewer};

/// How many matches may be replaced: 0 means no limit.
pub(crate) fn limit_of(limit: usize) -> Option<usize>
    ensures { result ≡ limit_of limit }
{
    if limit == 0 { None } else { Some(limit) }
}

/// Whether none may be replaced any more.
pub(crate) fn is_reached(left: Option<usize>) -> bool
    ensures { result ≡ is_reached left }
{
    match left {
        Some(count) => count == 0,
        None => false,
    }
}

/// How many more may be replaced after one.
pub(crate) fn one_fewer(left: Option<usize>) -> Option<usize>
    ensures { result ≡ one_fewer left }
{
    match left {
        Some(count) => Some(count.saturating_sub(1)),
        None => None,
    }
}
