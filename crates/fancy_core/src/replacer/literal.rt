//! A text that is taken as it is.

ghost use Rattle.std.specs.Prelude.{◌≡◌, Some};
ghost use Rattle.std.proofs.Common.{rules};
ghost use Rattle.fancy_tree.specs.declared.error.Error.TheVariants.{Memory};

use crate::captures::Captures;
use crate::replacer::Replacer;
use fancy_tree::error::Result;

/// A text that is taken as it is, also where it has substitution characters.
///
/// ```text
/// regex.replace(text, NoExpand("$2 $last"))  // the match becomes "$2 $last"
/// ```
#[derive(Clone, Copy)]
pub struct NoExpand<'t>(pub &'t str);

impl<'t> Replacer for NoExpand<'t> {
    ghost fixed = { λ s. Some s.0.now };

    ghost appends = { λ s c text t. (t ≡ s) × (text ≡ s.0.now) };

    ghost refuses = { λ s c e t. (t ≡ s) × (e ≡ Memory) };

    ghost same = { λ s t c x y f a. Prim.search rules };

    fn replace_append(&mut self, _captures: &Captures<'_, &str>, dst: &mut String) -> Result<()> {
        dst.push_str(self.0)?;
        Ok(())
    }

    fn fixed_text(&self) -> Option<&str> {
        Some(self.0)
    }
}
