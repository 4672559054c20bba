//! A replacer that is lent.

ghost use Rattle.std.specs.Prelude.{◌≡◌};

use crate::captures::Captures;
use crate::replacer::Replacer;
use fancy_tree::error::Result;

/// A replacer that lends another one, made by [`Replacer::by_ref`]. Each call is a call of that other one, which keeps the
/// state that the call leaves.
///
/// ```text
/// // a replacer that counts its calls, on a|b
/// regex.replace_all("xab", count.by_ref())    // "x12"
/// regex.replace("bxa", count.by_ref())        // "3xa": it goes on from there
/// ```
pub struct ReplacerRef<'a, R: Replacer>(pub &'a mut R);

impl<'a, R: Replacer> Drop for ReplacerRef<'a, R> {
    fn drop(self)
        ensures { self.exit.0.now ≡ self.entry.0.now }
    {
        let ReplacerRef(_) = self;
    }
}

impl<'a, R: Replacer> Replacer for ReplacerRef<'a, R> {
    ghost fixed = { λ s. R.fixed s.0.now };

    ghost callable = { λ s. R.callable s.0.now };

    // a call goes to the one that is lent, and lends the same one afterwards
    ghost appends = { λ s c text t. (t.0.ghost_name ≡ s.0.ghost_name) × R.appends s.0.now c text t.0.now };

    ghost refuses = { λ s c e t. (t.0.ghost_name ≡ s.0.ghost_name) × R.refuses s.0.now c e t.0.now };

    ghost same = { λ s t c x y f a. R.same s.0.now t.0.now c x y f a.1 };

    fn replace_append(&mut self, captures: &Captures<'_, &str>, dst: &mut String) -> Result<()> {
        self.0.replace_append(captures, dst)
    }

    fn fixed_text(&self) -> Option<&str> {
        self.0.fixed_text()
    }
}
