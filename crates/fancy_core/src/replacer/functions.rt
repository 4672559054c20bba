//! Functions as replacers.

ghost use Rattle.std.specs.Prelude.{◌≡◌, ◌⊎◌, None, Ok, Err, string_bytes};
ghost use Rattle.std.proofs.Common.{rules};
ghost use Rattle.fancy_tree.specs.declared.error.Error.TheVariants.{Memory};
ghost use Rattle.fancy_core.specs.GroupTexts.{bytes_of_str, seen_in};

use crate::captures::Captures;
use crate::replacer::Replacer;
use fancy_tree::error::Result;

/// A function that gives the text for each match. It may keep a state from call to call.
///
/// ```text
/// let mut calls = 0u32;
/// let mut count = ReplaceFn::new(|_captures: &Captures<'_, &str>| {
///     calls = calls.wrapping_add(1);
///     Ok(format!(in alloc; "{calls}")?)
/// });
/// Regex::new(alloc, "a|b")?.replace_all("xab", count.by_ref())    // "x12"
/// ```
pub struct ReplaceFn<F>(F);

impl<F: Drop> Drop for ReplaceFn<F> {
    fn drop(self) {
        let ReplaceFn(_) = self;
    }
}

impl<F: FnMut(&Captures<'_, &str>) -> Result<String>> ReplaceFn<F> {
    /// The function as a replacer. It may always be called: so it counts by `wrapping_add`, as a sum by `+` might not fit.
    /// An error that it returns is the answer of the replacement.
    pub fn new(function: F) -> ReplaceFn<F>
        requires { F.IsAlwaysCallable function }
        ensures { result.0 ≡ function }
    {
        ReplaceFn(function)
    }
}

impl<F: FnMut(&Captures<'_, &str>) -> Result<String>> Replacer for ReplaceFn<F> {
    ghost fixed = { λ _. None };

    ghost callable = { λ s. F.IsAlwaysCallable s.0 };

    ghost appends = { λ s c text t. (captures : _) × (answer : _) × (seen_in bytes_of_str captures.now ≡ c)
        × F.step s.0 captures (Ok answer) t.0 × (text ≡ string_bytes answer) };

    // The function refuses, or it answers and memory runs out where its answer is appended. Its call left the state after.
    ghost refuses = { λ s c e t. (captures : _) × (seen_in bytes_of_str captures.now ≡ c)
        × (F.step s.0 captures (Err e) t.0 ⊎ ((e ≡ Memory) × (answer : _) × F.step s.0 captures (Ok answer) t.0)) };

    ghost same = { λ s t c x y f a. Prim.search rules };

    fn replace_append(&mut self, captures: &Captures<'_, &str>, dst: &mut String) -> Result<()> {
        match (self.0)(captures) {
            Ok(text) => {
                dst.push_str(text.as_str())?;
                Ok(())
            }
            Err(error) => Err(error),
        }
    }

    fn fixed_text(&self) -> Option<&str> {
        None
    }
}
