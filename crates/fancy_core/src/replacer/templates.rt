//! Texts as replacers: templates, as `Captures::expand` reads them.

ghost use Rattle.std.specs.Prelude.{◌≡◌, IfErr, OnOk, OnErr, option_map, string_bytes};
ghost use Rattle.std.specs.Cow.{cow_str_bytes};
ghost use Rattle.fancy_tree.specs.declared.error.Error.TheVariants.{Memory};
ghost use Rattle.fancy_template.specs.Appended.{AddsSome};
ghost use Rattle.fancy_core.specs.GroupTexts.{bytes_of_str, seen_in};
ghost use Rattle.fancy_core.specs.Replacing.{fixed_of, Expands};

use crate::captures::Captures;
use crate::replacer::Replacer;
use fancy_template::expander::includes;
use fancy_tree::error::{Error, Result};
use std::alloc::Global;
use std::borrow::CowStr;

impl<'t> Replacer for &'t str {
    ghost fixed = { λ s. fixed_of s.now };

    ghost appends = { λ s c text t. (t ≡ s) × Expands s.now c text };

    ghost refuses = { λ s c e t. (t ≡ s) × (e ≡ Memory) };

    ghost same = { λ s t c x y f a. a.1.fixed x f };

    fn replace_append(&mut self, captures: &Captures<'_, &str>, dst: &mut String) -> Result<()> {
        append_expanded(*self, captures, dst)
    }

    fn fixed_text(&self) -> Option<&str> {
        without_marks(*self)
    }
}

impl<'t> Replacer for &'t String {
    ghost fixed = { λ s. fixed_of (string_bytes s.now) };

    ghost appends = { λ s c text t. (t ≡ s) × Expands (string_bytes s.now) c text };

    ghost refuses = { λ s c e t. (t ≡ s) × (e ≡ Memory) };

    ghost same = { λ s t c x y f a. a.1.fixed x f };

    fn replace_append(&mut self, captures: &Captures<'_, &str>, dst: &mut String) -> Result<()> {
        append_expanded(String::as_str(*self), captures, dst)
    }

    fn fixed_text(&self) -> Option<&str> {
        without_marks(String::as_str(*self))
    }
}

impl Replacer for String {
    ghost fixed = { λ s. fixed_of (string_bytes s) };

    ghost appends = { λ s c text t. (t ≡ s) × Expands (string_bytes s) c text };

    ghost refuses = { λ s c e t. (t ≡ s) × (e ≡ Memory) };

    ghost same = { λ s t c x y f a. a.1.fixed x f };

    fn replace_append(&mut self, captures: &Captures<'_, &str>, dst: &mut String) -> Result<()> {
        append_expanded(self.as_str(), captures, dst)
    }

    fn fixed_text(&self) -> Option<&str> {
        without_marks(self.as_str())
    }
}

impl<'a> Replacer for CowStr<'a, Global> {
    ghost fixed = { λ s. fixed_of (cow_str_bytes s) };

    ghost appends = { λ s c text t. (t ≡ s) × Expands (cow_str_bytes s) c text };

    ghost refuses = { λ s c e t. (t ≡ s) × (e ≡ Memory) };

    ghost same = { λ s t c x y f a. a.1.fixed x f };

    fn replace_append(&mut self, captures: &Captures<'_, &str>, dst: &mut String) -> Result<()> {
        append_expanded(self.as_str(), captures, dst)
    }

    fn fixed_text(&self) -> Option<&str> {
        without_marks(self.as_str())
    }
}

impl<'a, 'b> Replacer for &'b CowStr<'a, Global> {
    ghost fixed = { λ s. fixed_of (cow_str_bytes s.now) };

    ghost appends = { λ s c text t. (t ≡ s) × Expands (cow_str_bytes s.now) c text };

    ghost refuses = { λ s c e t. (t ≡ s) × (e ≡ Memory) };

    ghost same = { λ s t c x y f a. a.1.fixed x f };

    fn replace_append(&mut self, captures: &Captures<'_, &str>, dst: &mut String) -> Result<()> {
        append_expanded(CowStr::as_str(*self), captures, dst)
    }

    fn fixed_text(&self) -> Option<&str> {
        without_marks(CowStr::as_str(*self))
    }
}

/// Appends what a template expands to.
fn append_expanded(template: &str, captures: &Captures<'_, &str>, dst: &mut String) -> Result<()>
    ensures ok { OnOk result
        (AddsSome dst.old dst.new (Expands template.now (seen_in bytes_of_str captures.now))) }
    ensures kept { OnErr result (string_bytes dst.new ≡ string_bytes dst.old) }
    ensures refused { IfErr result (λ e. e ≡ Error.Memory) }
{
    captures.expand(template, dst)
}

/// The template, where it has no `$`: it expands to itself then.
fn without_marks(template: &str) -> Option<&str>
    ensures { option_map (λ t. t.now) result ≡ fixed_of template.now }
{
    if includes(template, '$') {
        None
    } else {
        Some(template)
    }
}
