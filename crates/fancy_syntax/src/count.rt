//! Numbers of turns, as `*`, `{2}`, `{2,}`, `{2,5}` and `{,5}`.

ghost use Rattle.std.specs.Prelude.{◌≡◌, ◌≤◌, ◌-◌, ◌^◌, min, true, false, Some, None, IfSome, option_map, if◌then◌else◌, length};
ghost use Rattle.fancy_syntax.specs.Counts.{is_at_digit, is_count, begins_count, past_digits, decimal};
ghost use Rattle.fancy_syntax.specs.Grammar.{bounds_in, past_count, are_bounds};
ghost use Rattle.fancy_syntax.specs.Views.{bounds_of};

/// How often a body may be repeated.
#[derive(Clone, Copy)]
pub(crate) struct Turns {
    /// The least number of turns.
    pub(crate) low: u32,
    /// The greatest number of turns, where there is one.
    pub(crate) high: Option<u32>,
}

/// Whether a count stands at the start of the text.
pub(crate) fn begins_count(text: &[char]) -> bool
    ensures { result ≡ begins_count text.now }
{
    match text {
        ['{', inside @ ..] => is_count(inside),
        _ => false,
    }
}

/// Whether a brace in front of the text would begin a count: `n}`, `n,}`, `n,m}` or `,m}`.
fn is_count(text: &[char]) -> bool
    ensures { result ≡ is_count text.now }
{
    match past_digits(text) {
        ['}', ..] => is_at_digit(text),
        [',', upper @ ..] => {
            matches!(past_digits(upper), ['}', ..]) && (is_at_digit(text) || is_at_digit(upper))
        }
        _ => false,
    }
}

/// The number that the row of digits which stands first is; `u64::MAX` stands for any number past it.
pub(crate) fn decimal(text: &[char]) -> u64
    ensures { result ≡ min (decimal text.now) (2 ^ 64 - 1) }
{
    let mut number: u64 = 0;
    for c in text {
        if !c.is_ascii_digit() {
            return number;
        }
        number = number.saturating_mul(10).saturating_add(*c as u64 - 48);
    }
    number
}

/// The bounds that stand after a brace, where it begins a count; none where they are reversed or above `u32::MAX`.
pub(crate) fn bounds(text: &[char]) -> Option<Turns>
    ensures some { IfSome result (λ t. (bounds_of t ≡ bounds_in text.now) × (are_bounds (bounds_in text.now) ≡ true)) }
    ensures none { result ≡ None → are_bounds (bounds_in text.now) ≡ false }
{
    let least = decimal(text);
    let after = past_digits(text);
    if let ['}', ..] = after {
        return within_limit(least, Some(least));
    }
    match after {
        [_, upper @ ..] if is_at_digit(upper) => within_limit(least, Some(decimal(upper))),
        _ => within_limit(least, None),
    }
}

fn within_limit(low: u64, high: Option<u64>) -> Option<Turns>
    ensures { option_map bounds_of result ≡ (if are_bounds (low, high) then Some (low, high) else None) }
{
    let greatest = high.unwrap_or(u64::from(u32::MAX));
    if low > greatest || greatest > u64::from(u32::MAX) {
        return None;
    }
    Some(Turns {
        low: low as u32,
        high: high.map(|high| high as u32),
    })
}

/// What follows the count that stands after a brace.
pub(crate) fn past_count(text: &[char]) -> &[char]
    ensures value { result.now ≡ past_count text.now }
    ensures shorter { length result.now ≤ length text.now }
{
    match past_digits(text) {
        ['}', after @ ..] => after,
        [_, upper @ ..] => match past_digits(upper) {
            [_, after @ ..] => after,
            [] => &[],
        },
        [] => &[],
    }
}

/// Whether the text begins with a digit.
pub(crate) fn is_at_digit(text: &[char]) -> bool
    ensures { result ≡ is_at_digit text.now }
{
    match text {
        [c, ..] => c.is_ascii_digit(),
        [] => false,
    }
}

/// What follows the row of digits that stands first.
pub(crate) fn past_digits(text: &[char]) -> &[char]
    ensures value { result.now ≡ past_digits text.now }
    ensures shorter { length result.now ≤ length text.now }
{
    for (i, c) in text.iter().enumerate() {
        if !c.is_ascii_digit() {
            return &text[i..];
        }
    }
    &[]
}
