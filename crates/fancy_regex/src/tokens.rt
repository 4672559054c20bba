//! The tokens that a pattern set cuts a text into.

ghost use Rattle.std.specs.Prelude.{◌≡◌, ◌≤◌, false};
ghost use Rattle.std.specs.Iterator.{at_most};
ghost use Rattle.std.proofs.Props.{props};
ghost use Rattle.fancy_bytes.specs.Lacks.{AreKnown};
ghost use Rattle.fancy_input.specs.Inputs.{haystack_in, request_in};
ghost use Rattle.fancy_regex.specs.Sets.{asked_of_set, CanSearchAll};
ghost use Rattle.fancy_regex.specs.Trials.{AreNotedFrom};

mod borrowed_text;
mod longest;
mod owned_text;
mod token;

use crate::set::RegexSet;
use crate::set::trials::Trials;
use fancy_input::input::{Haystack, Input};
use fancy_input::regex_input::RegexInput;
use fancy_tree::error::Result;
pub use token::Token;

/// The tokens of an input, one after another; made by [`RegexSet::tokens`].
///
/// The list ends without an error at the range's end. Before it, a place at which no pattern gives a token gives
/// `RuntimeError(Unmatched(place))`, and a pattern that is refused gives its refusal; either ends the list. Only patterns that may
/// start with the byte at the place are tried, and those alone can refuse. For each token the work begins anew that a
/// `RegexOptionsBuilder::step_limit` bounds: what all patterns do at its place. A list that has ended stays ended, and
/// [`Tokens::place`] tells where it ended.
pub struct Tokens<'r, S: Haystack> {
    set: &'r RegexSet,
    input: RegexInput<S>,
    // where the next token starts, as a byte offset
    place: usize,
    ended: bool,
    // what the patterns are tried in
    trials: Trials,
    ghost searched: { CanSearchAll S.text S.bytes set.now input },
    ghost starts: { (request_in input).range_start ≤ place },
    ghost known: { AreKnown trials.cache.known (S.bytes (haystack_in input)) },
    ghost noted: { ended ≡ false
        → AreNotedFrom 0 (asked_of_set set.now S.bytes input) place trials } by { Prim.hlevel props },
}

/// By hand, so that what the patterns found out in the haystack is left to their attempts in others, and crates above do not prove it
/// once more.
impl<'r, S: Haystack> Drop for Tokens<'r, S> {
    fn drop(self) {
        let Tokens {
            set,
            input: _,
            place: _,
            ended,
            mut trials,
        } = self;
        if !ended {
            trials.leave(&set.members);
        }
    }
}

impl RegexSet {
    ghost use Rattle.fancy_regex.specs.TokenLists.{AreTokensOf};

    /// Cuts the input into tokens, from its effective start on: at each place the longest match that starts there, the next one
    /// where that ends.
    ///
    /// At a place each pattern is tried as a search of the input anchored there. What it finds may be the token if it starts at
    /// the place, and not after it by a `\K`, and is not empty. Of several the longest is taken, and of those that are as long
    /// the one with the lowest index. Each pattern offers one match, the one that it prefers: `a|ab` offers `a`, also before a
    /// `b`. The range of the input and what it suppresses hold at each place, and `\G` holds there too; whether it is anchored
    /// has no effect. No memory is taken until a token is asked for. A `RegexOptionsBuilder::step_limit` holds for each token: for
    /// what all patterns do at its place.
    ///
    /// ```text
    /// let set = RegexSet::new(alloc, &["if", "[a-z]+", "[0-9]+", " +"])?;
    /// set.tokens(RegexInput::new("if iffy 42"))    // 0 from 0 to 2, 3 to 3, 1 to 7, 3 to 8, 2 to 10
    /// set.tokens(RegexInput::new("if!"))           // 0 from 0 to 2, then Err(RuntimeError(Unmatched(2)))
    /// ```
    pub fn tokens<S: Input>(&self, input: RegexInput<S>) -> Tokens<'_, S>
        requires searched { CanSearchAll S.text S.bytes self.now input }
        ensures { AreTokensOf S.bytes self.now (haystack_in input) (request_in input) result }
    {
        let alloc = *self.members.allocator();
        let place = input.request().effective_start();
        Tokens {
            set: self,
            input,
            place,
            ended: false,
            trials: Trials::new(alloc),
        }
    }
}

impl<'r, S: Input> Tokens<'r, S> {
    ghost use Rattle.fancy_regex.specs.TokenLists.{token_set, token_haystack, token_place};

    /// The set whose patterns give the tokens.
    pub fn regex_set(&self) -> &'r RegexSet
        ensures { result.now ≡ token_set self.now }
    {
        self.set
    }

    /// The whole haystack, also where a part of it is cut into tokens.
    pub fn haystack(&self) -> S
        ensures { result ≡ token_haystack self.now }
    {
        self.input.haystack()
    }

    /// Where the next token starts, as a byte offset: at first the effective start of the input, then where the token before
    /// ends. Where the list has ended, this is where it ended: 2, for the text `"if!"` of which no pattern takes the `!`.
    pub fn place(&self) -> usize
        ensures { result ≡ token_place self.now }
    {
        self.place
    }
}

impl<'r, S: Input> Iterator for Tokens<'r, S> {
    ghost use Rattle.fancy_regex.specs.TokenLists.{IsNextToken, token_turns};

    type Item = Result<Token<'r, S>>;

    ghost next_gives = { IsNextToken S.bytes };

    ghost remaining = { λ t. at_most (token_turns t) };

    fn next(&mut self) -> Option<Result<Token<'r, S>>> {
        if self.ended {
            return None;
        }
        let set = self.set;
        if self.place >= self.input.request().range_end {
            self.ended = true;
            self.trials.leave(&set.members);
            return None;
        }
        match set.token_at(&self.input, self.place, &mut self.trials) {
            Ok(token) => {
                self.place = token.end();
                Some(Ok(token))
            }
            Err(error) => {
                self.ended = true;
                Some(Err(error))
            }
        }
    }
}
