//! What is told of attempts with a code.

ghost use Rattle.std.specs.Prelude.{IfOk};
ghost use Rattle.fancy_code.specs.declared.code.Code.{Code};
ghost use Rattle.fancy_splits.specs.Told.{ArePrices};

use crate::front::Front;
use crate::splits::Splits;
use fancy_code::code::Code;
use fancy_prices::entries::Entries;
use std::alloc::{AllocError, Global};

/// What is told of attempts with a code: where they must be made, and its choices.
#[derive(Drop)]
pub struct Prices {
    /// The positions at which an attempt must be made.
    pub entries: Entries,
    /// Its choices, and at which bytes their ways may go on.
    pub splits: Splits,
    /// The loop that attempts come to, where an item of it stands.
    pub front: Option<Front>,
}

impl Prices {
    /// Any position is an entry, and no choice is noted: nothing is told of the code.
    pub fn none(alloc: Global) -> Prices
        ensures { (code : Code) → ArePrices result code }
    {
        Prices {
            entries: Entries::all(),
            splits: Splits::none(alloc),
            front: None,
        }
    }

    /// What is told of attempts with this code.
    ///
    /// It is refused where memory runs out.
    pub fn of(alloc: Global, code: &Code) -> Result<Prices, AllocError>
        ensures { IfOk result (λ prices. ArePrices prices code.now) }
    {
        let splits = Splits::of(alloc, code)?;
        let front = Front::of(code, &splits);
        Ok(Prices {
            entries: Entries::of(alloc, code)?,
            splits,
            front,
        })
    }
}
