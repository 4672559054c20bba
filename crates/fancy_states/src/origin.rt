//! Of which ways of a row those come that a step leads to.

ghost use Rattle.std.specs.Prelude.{◌≡◌, ◌<◌, IfSome, nat_eq, nat_lt, true};
ghost use Rattle.std.specs.List.{list_all};
ghost use Rattle.fancy_states.specs.Origins.{ComeFrom};

/// Of which ways of its row those come that a step leads to, and the match that it finds.
#[derive(Clone, Copy, PartialEq, Eq, Debug)]
pub enum Origin {
    /// None of them comes from the last way of the row.
    Earlier,
    /// All of them come from the last way of the row.
    Last,
    /// Neither is told.
    Mixed,
}

/// Whether all numbers are below one.
fn are_all_below(numbers: &[usize], bound: usize) -> bool
    ensures { result ≡ list_all (λ f. nat_lt f bound) numbers.now }
{
    numbers.iter().all(|number| *number < bound)
}

/// Whether all numbers are the same one.
fn are_all(numbers: &[usize], one: usize) -> bool
    ensures { result ≡ list_all (λ f. nat_eq f one) numbers.now }
{
    numbers.iter().all(|number| *number == one)
}

/// Of which of so many ways of a row those come that a step leads to, and the match that it finds. Where the one way of a row ends
/// without a match, and no search walks on there, neither is told: there a walk ends in which no way waits at two places in a row.
pub fn origin_of(came: &[usize], matched: Option<usize>, ways: usize, walks: bool) -> Origin
    ensures { ComeFrom result ways came.now matched }
{
    if ways == 0 {
        return Origin::Mixed;
    }
    if ways == 1 && came.is_empty() && matched.is_none() && !walks {
        return Origin::Mixed;
    }
    let last = ways - 1;
    if are_all_below(came, last) && matched.unwrap_or(0) < last {
        return Origin::Earlier;
    }
    if are_all(came, last) && matched.unwrap_or(last) == last {
        return Origin::Last;
    }
    Origin::Mixed
}
