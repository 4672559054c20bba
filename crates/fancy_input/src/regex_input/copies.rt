//! The same input once more, and an input of a haystack.

ghost use Rattle.std.specs.Prelude.{◌≡◌, ⊤};
ghost use Rattle.fancy_input.specs.Inputs.{haystack_in, request_in};
ghost use Rattle.fancy_input.specs.Requests.{whole};

use crate::input::{Haystack, Input};
use crate::regex_input::RegexInput;
use std::alloc::AllocError;

impl<S: Haystack> RegexInput<S> {
    /// The same input once more. Unlike `clone` it cannot fail.
    pub fn again(&self) -> RegexInput<S>
        ensures haystack { haystack_in result ≡ haystack_in self.now }
        ensures request { request_in result ≡ request_in self.now }
    {
        RegexInput {
            haystack: self.haystack,
            request: self.request,
        }
    }
}

impl<S: Input> From<S> for RegexInput<S> {
    ghost from_gives = { λ s r. (haystack_in r ≡ s) × (request_in r ≡ whole (S.bytes s)) };

    fn from(haystack: S) -> RegexInput<S> {
        RegexInput::new(haystack)
    }
}

impl<S: Haystack> Clone for RegexInput<S> {
    ghost is_clone = { λ a b. (haystack_in b ≡ haystack_in a) × (request_in b ≡ request_in a) };

    ghost is_infallible = { λ _. ⊤ };

    fn clone(&self) -> Result<RegexInput<S>, AllocError> {
        Ok(self.again())
    }
}
