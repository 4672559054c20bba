//! The commands of the program `fre`.
//!
//! | Words | Output | Status |
//! |---|---|---|
//! | `find P T` | `start..end text` of the first match of the pattern P in the text T | 0, or 1 without a match |
//! | `captures P T` | for each group k of the first match `k start..end text`, or `k none` | 0, or 1 without a match |
//! | `split P T` | a line for each piece of the text T between the matches of the pattern P | 0 |
//! | `replace P T R` | the text T with all matches of P replaced by the template R | 0 |
//! | `set T P..` | `k start..end text` for each pattern k that matches at the least position where one does | 0, or 1 without a match |
//! | `tokens T P..` | `k start..end text` for each token of the text T, of the pattern k; then `unmatched p`, where there is none at p | 0, or 1 after `unmatched` |
//!
//! A command that is refused writes one line `error: ` and what is wrong to its second writer, and its
//! status is 2: `usage` for other words, the refusal's name for a pattern or a search, `Output` where the
//! first writer fails. Faults are found in this order. A fault of the second writer is ignored.
#![tactic(auto)]

mod commands;
mod fault;
mod lines;

pub use commands::run;
