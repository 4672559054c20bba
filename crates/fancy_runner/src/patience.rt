//! How long searches go on before they leave off.

ghost use Rattle.std.specs.Prelude.{◌≡◌, ◌+◌, ◌-◌, ◌*◌, ◌^◌, ◌<◌, ◌≤◌, true, false};

/// Where attempts are short, fewer than one step for so many bytes are few.
const BYTES_A_STEP: usize = 4;

/// How long searches of one text go on: until they took so many steps together, and the rest of the text would take as many again, at
/// the rate at which they took them.
#[derive(Clone, Copy, PartialEq, Eq)]
pub struct Patience {
    /// So many steps are enough.
    pub steps: usize,
    /// How many the searches before took.
    pub taken: usize,
    /// Where the first search began, a byte offset.
    pub first: usize,
    /// Whether attempts are short, so that searches which take few steps for their bytes go on.
    pub is_short: bool,
}

impl Patience {
    /// That of the next search, after one that took so many steps.
    pub fn after(self, steps: usize) -> Patience
        ensures steps { result.steps ≡ self.steps }
        ensures taken { self.taken + steps < 2 ^ 64 → result.taken ≡ self.taken + steps }
        ensures first { result.first ≡ self.first }
        ensures short { result.is_short ≡ self.is_short }
    {
        Patience {
            taken: self.taken.saturating_add(steps),
            ..self
        }
    }

    /// Whether searches went on quickly up to a place, a byte offset, once the last one took so many steps: attempts are short, and all
    /// searches took fewer than one step for four bytes.
    ///
    /// ```text
    /// let patience = Patience { steps: 1000, taken: 300, first: 0, is_short: true };
    /// patience.is_quick(100, 1600)     // false: a step for four bytes
    /// patience.is_quick(100, 1700)     // true
    /// ```
    pub fn is_quick(self, steps: usize, place: usize) -> bool
        ensures long { self.is_short ≡ false → result ≡ false }
        ensures few { self.is_short ≡ true
            → 4 * (self.taken + steps) < place - self.first → result ≡ true }
        ensures many { place - self.first ≤ 4 * (self.taken + steps) → result ≡ false }
    {
        let taken = self.taken.saturating_add(steps);
        let passed = place.saturating_sub(self.first);
        self.is_short && taken.saturating_mul(BYTES_A_STEP) < passed
    }

    /// Whether it is over at a place, once a search took so many steps, where the text goes up to `end`; both are byte offsets.
    ///
    /// ```text
    /// let patience = Patience { steps: 1000, taken: 400, first: 0, is_short: true };
    /// patience.is_over(500, 100, 5000)     // false: 900 steps are too few
    /// patience.is_over(700, 100, 5000)     // true: the rest takes more at 11 steps a byte
    /// patience.is_over(700, 4990, 9000)    // false: these are few for 4990 bytes
    /// patience.is_over(700, 1000, 1500)    // false: the rest takes a few
    /// ```
    pub fn is_over(self, steps: usize, place: usize, end: usize) -> bool
        ensures few { self.taken + steps < self.steps → result ≡ false }
        ensures quick { self.is_short ≡ true
            → 4 * (self.taken + steps) < place - self.first → result ≡ false }
        ensures enough { self.steps ≤ self.taken + steps
            → (self.is_short ≡ true → place - self.first ≤ 4 * (self.taken + steps))
            → self.steps * (place - self.first) ≤ (self.taken + steps) * (end - place)
            → result ≡ true }
        ensures short { self.steps * (place - self.first) < 2 ^ 64
            → (self.taken + steps) * (end - place) < self.steps * (place - self.first)
            → result ≡ false }
    {
        let taken = self.taken.saturating_add(steps);
        if taken < self.steps || self.is_quick(steps, place) {
            return false;
        }
        let passed = place.saturating_sub(self.first);
        let left = end.saturating_sub(place);
        taken.saturating_mul(left) >= self.steps.saturating_mul(passed)
    }
}
