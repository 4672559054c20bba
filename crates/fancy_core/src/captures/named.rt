//! Captures by the names of groups.

ghost use Rattle.std.specs.Prelude.{◌≡◌, IfSome, chars, option_map};
ghost use Rattle.fancy_core.specs.Captures.{searched_in, span_by_name};

use crate::captures::Captures;
use fancy_input::input::Input;
use fancy_template::groups::GroupNames;

impl<'r, S: Input> Captures<'r, S> {
    /// What the last group in the pattern with this name matched. `None` where that group took no part, and where no
    /// group has the name. Group 0, the whole match, never has a name (the law `fancy_regex::laws::names_stand_on_groups`).
    ///
    /// ```text
    /// let regex = Regex::new(alloc, "(?<a>x)(?<a>y)")?;
    /// let captures = regex.captures("xy")?;  // Some
    /// captures.name("a")  // 1..2
    /// captures.name("b")  // None
    /// ```
    pub fn name(&self, name: &str) -> Option<S::Match>
        ensures found { option_map S.span result ≡ span_by_name self.now (chars name.now) }
        ensures within { IfSome result (λ m. S.within m ≡ S.bytes (searched_in self.now)) }
    {
        let number = self.regex.group_named(name)?;
        self.get(number)
    }
}
