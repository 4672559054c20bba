//! The texts of groups, and what templates make of them.

ghost use Rattle.std.specs.Prelude.{◌≡◌, string_bytes, IfErr, OnOk, OnErr};
ghost use Rattle.fancy_template.specs.Appended.{AddsText};
ghost use Rattle.fancy_core.specs.GroupTexts.{AreOfText, group_texts, expansion_of, seen_in};

use crate::captures::Captures;
use fancy_input::input::Input;
use fancy_input::matches::Match;
use fancy_template::expander::Expander;
use fancy_template::groups::{GroupNames, GroupTexts};
use fancy_tree::error::{Error, Result};
use std::alloc::Global;

impl<'r, 't, S: Input<Match = Match<'t>>> GroupTexts<'t> for Captures<'r, S> {
    ghost captured = { λ c. group_texts (seen_in S.bytes c) };

    ghost readable = { λ _. AreOfText S.span S.within };

    fn text_numbered(&self, number: usize) -> Option<&'t str> {
        let group = self.get(number)?;
        Some(group.as_str())
    }

    fn text_named(&self, name: &str) -> Option<&'t str> {
        let number = self.regex.group_named(name)?;
        self.text_numbered(number)
    }

    fn allocator(&self) -> Global {
        self.regex.allocator()
    }
}

impl<'r, 't, S: Input<Match = Match<'t>>> Captures<'r, S> {
    /// Appends what a template expands to, as [`Expander::default`] reads it. A refusal leaves `dst` as it was.
    ///
    /// ```text
    /// // the captures of (?P<first>\w+)\s+(?P<second>\w+) on "deep fried"
    /// captures.expand("${first}_$second", &mut dst)  // appends "deep_fried"
    /// captures.expand("$1a", &mut dst)               // appends nothing: no group is named 1a
    /// ```
    pub fn expand(&self, template: &str, dst: &mut String) -> Result<()>
        requires of_text { AreOfText S.span S.within }
        ensures value { OnOk result
            (AddsText dst.old (expansion_of template.now (seen_in S.bytes self.now)) dst.new) }
        ensures kept { OnErr result (string_bytes dst.new ≡ string_bytes dst.old) }
        ensures refused { IfErr result (λ e. e ≡ Error.Memory) }
    {
        Expander::default().append_expansion(dst, template, self)
    }
}
