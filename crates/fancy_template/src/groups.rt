//! What a template asks of a match and of a regex.

ghost use Rattle.std.specs.Prelude.{◌≡◌, ⊤, chars, option_map};
ghost use Rattle.fancy_template.specs.Checks.{TemplateGroups};
ghost use Rattle.fancy_template.specs.Expansions.{Captured};

use std::alloc::Global;

/// The texts of the groups of a match, as [`Expander::expansion`](crate::expander::Expander::expansion) asks for them. They are
/// lent out of the text that was searched. The captures of a match in text have them.
pub trait GroupTexts<'t> {
    // What the groups matched, by their names and by their numbers.
    ghost captured: { Self → Captured };

    // Where their texts may be asked for.
    ghost readable: { Self → Type 0 } = { λ _. ⊤ };

    /// The text of the group with this number, if there is one and it took part.
    fn text_numbered(&self, number: usize) -> Option<&'t str>
        requires of_text { readable self.now }
        ensures { option_map (λ t. t.now) result ≡ (captured self.now).text_of_number number };

    /// The text of the group with this name, if there is one and it took part.
    fn text_named(&self, name: &str) -> Option<&'t str>
        requires of_text { readable self.now }
        ensures { option_map (λ t. t.now) result ≡ (captured self.now).text_of_name (chars name.now) };

    /// The allocator for what a template expands to.
    fn allocator(&self) -> Global;
}

/// The groups that a template may name, as [`Expander::check`](crate::expander::Expander::check) asks for them. A regex has
/// them.
pub trait GroupNames {
    // How many there are, and their names.
    ghost groups: { Self → TemplateGroups };

    /// How many groups there are, with group 0, the whole match.
    fn group_count(&self) -> usize
        ensures { result ≡ (groups self.now).count };

    /// Whether any group has a name.
    fn has_names(&self) -> bool
        ensures { result ≡ (groups self.now).has_names };

    /// The number of the group that has this name.
    fn group_named(&self, name: &str) -> Option<usize>
        ensures { result ≡ (groups self.now).group_named (chars name.now) };

    /// The allocator for a refusal, which has a copy of the name.
    fn allocator(&self) -> Global;
}
