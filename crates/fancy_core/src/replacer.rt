//! What matches are replaced by.

ghost use Rattle.std.specs.Prelude.{◌≡◌, ⊤, ℕ, List, Option, Some, IfErr, OnOk, OnErr, option_map, string_bytes};
ghost use Rattle.std.specs.Cow.{cow_str_bytes};
ghost use Rattle.fancy_tree.specs.declared.error.Error.{Error as Refusal};
ghost use Rattle.fancy_template.specs.Appended.{AddsSome};
ghost use Rattle.fancy_core.specs.GroupTexts.{Seen, seen_in_str};

mod functions;
mod lent;
mod literal;
mod templates;

use crate::captures::Captures;
use fancy_tree::error::Result;
pub use functions::ReplaceFn;
pub use lent::ReplacerRef;
pub use literal::NoExpand;
use std::alloc::Global;
use std::borrow::CowStr;

/// Gives the text that a match is replaced by.
///
/// A `&str`, `&String`, `String`, `CowStr` or `&CowStr` is a template, which [`Captures::expand`] expands. [`NoExpand`]
/// is a text that is taken as it is, [`ReplaceFn`] calls a function, and [`Replacer::by_ref`] lends a replacer.
///
/// Where a replacer has one text for all matches, that is what each call appends.
///
/// ```text
/// // on [ab]
/// regex.replace_all("a-b", "$0$0")            // "aa-bb"
/// regex.replace_all("a-b", NoExpand("$0"))    // "$0-$0"
/// ```
pub trait Replacer {
    // The text for all matches, if there is one.
    ghost fixed: { Self → Option (List ℕ) };

    // In which states a match may be handed to it.
    ghost callable: { Self → Type 0 } = { λ _. ⊤ };

    // What a call may append: the state that the replacer was in, the match, the text, and the state that it is in then.
    ghost appends: { Self → Seen → List ℕ → Self → Type 0 };

    // What a call may refuse with: the state that the replacer was in, the match, the error, and the state that it is in then.
    ghost refuses: { Self → Seen → Refusal → Self → Type 0 };

    /// Appends the text that the match is replaced by. A refusal leaves `dst` as it was, and the replacer in a state in
    /// which it may be called again.
    fn replace_append(&mut self, captures: &Captures<'_, &str>, dst: &mut String) -> Result<()>
        requires { callable self.old }
        ensures ok { OnOk result
            (AddsSome dst.old dst.new (λ t.
            appends self.old (seen_in_str captures.now) t self.new)) }
        ensures kept { OnErr result (string_bytes dst.new ≡ string_bytes dst.old) }
        ensures refused { IfErr result (λ e.
            refuses self.old (seen_in_str captures.now) e self.new) }
        ensures again { callable self.new };

    /// The text for all matches, if there is one. It is asked for once, before the first search.
    ///
    /// Of the templates `"x"` is such a text, and `"$1"` and `"$$"` are none.
    fn fixed_text(&self) -> Option<&str>
        ensures { option_map (λ t. t.now) result ≡ fixed self.now };

    /// The text for all matches, if there is one, as [`Replacer::fixed_text`] gives it. After this call nothing is known of the
    /// replacer, since it lends text out of it: a caller who goes on with the replacer asks `fixed_text`.
    final fn no_expansion(&mut self) -> Option<CowStr<'_, Global>>
        ensures { option_map cow_str_bytes result ≡ fixed self.old }
    {
        match self.fixed_text() {
            Some(text) => Some(CowStr::Borrowed(text)),
            None => None,
        }
    }

    /// A replacer that lends this one, so that it can be handed in more than once.
    final fn by_ref(&mut self) -> ReplacerRef<'_, Self>
    where
        Self: Sized,
        ensures same { result.0.ghost_name ≡ self.entry.ghost_name }
        ensures value { result.0.now ≡ self.old }
    {
        ReplacerRef(self)
    }

    // Where there is a text for all matches, that is what is appended.
    ghost same: { (s t : Self) (seen : Seen) (x y : List ℕ) → fixed s ≡ Some x → appends s seen y t
        → y ≡ x };
}
