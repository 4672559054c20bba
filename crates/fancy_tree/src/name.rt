//! Names of groups.

ghost use Rattle.std.specs.Prelude.{◌≡◌, ℕ, List, IfOk, IsUtf8, chars, string_bytes};
ghost use Rattle.std.specs.BTreeMap.{get_by_text};
ghost use Rattle.fancy_tree.specs.Names.{is_name_character, name_here, past_name, last_named, named_groups};

use std::alloc::{AllocError, Global};
use std::collections::BTreeMap;
use unicode::properties::{GeneralCategory, is_alphabetic};

/// A name, and the group that has it. A name may stand on several groups.
#[derive(Drop)]
pub struct GroupName {
    /// The name, as it stands between `<` and `>`.
    pub name: String,
    /// The number of the group, from 1 on.
    pub group: usize,
}

/// The names of the groups of a pattern, as a list and to be looked up.
#[derive(Drop)]
pub struct Names {
    /// The groups that have a name, in the order of their openings.
    groups: Vec<GroupName>,
    /// By each name the number of the last group that has it.
    last: BTreeMap<String, usize>,
    ghost finds_last: { (name : List ℕ) → IsUtf8 name
        → get_by_text last name ≡ last_named (chars name) (named_groups groups.items) },
}

/// Whether a character may stand in the name of a group: one that is alphabetic, of category Nd, Nl or No, or
/// `_`.
///
/// ```text
/// is_name_character('é')  // true
/// is_name_character('²')  // true
/// is_name_character('-')  // false
/// ```
pub fn is_name_character(c: char) -> bool
    ensures { result ≡ is_name_character c }
{
    if is_alphabetic(c) || c == '_' {
        return true;
    }
    let category = GeneralCategory::for_char(c);
    category == GeneralCategory::DecimalNumber
        || category == GeneralCategory::LetterNumber
        || category == GeneralCategory::OtherNumber
}

/// The row of such characters that stands first, perhaps empty, and what follows it.
pub fn split_name(text: &[char]) -> (&[char], &[char])
    ensures name { result.0.now ≡ name_here text.now }
    ensures after { result.1.now ≡ past_name text.now }
{
    for (i, c) in text.iter().enumerate() {
        if !is_name_character(*c) {
            return text.split_at(i);
        }
    }
    (text, &[])
}

impl Names {
    ghost use Rattle.fancy_tree.specs.GroupNames.{names_of};

    /// The names of these groups, which stand in the order of their openings.
    pub fn new(alloc: Global, groups: Vec<GroupName>) -> Result<Names, AllocError>
        ensures { IfOk result (λ names. names_of names ≡ named_groups groups.items) }
    {
        let mut last = BTreeMap::new(alloc);
        for named in &groups {
            last.insert(named.name.clone()?, named.group)?;
        }
        Ok(Names { groups, last })
    }

    /// The groups that have a name, in the order of their openings.
    pub fn groups(&self) -> &[GroupName]
        ensures { named_groups result.now ≡ names_of self.now }
    {
        &self.groups
    }

    /// The number of the last group that has the name. The time is that of a few comparisons of names, however many there are.
    pub fn last_named(&self, name: &str) -> Option<usize>
        ensures { result ≡ last_named (chars name.now) (names_of self.now) }
    {
        self.last.get(name).copied()
    }
}

/// The characters of a text.
pub fn characters_of(alloc: Global, text: &str) -> Result<Vec<char>, AllocError>
    ensures { IfOk result (λ v. v.items ≡ chars text.now) }
{
    let characters: Vec<char> = text.chars().collect(alloc)?;
    Ok(characters)
}

/// These characters as a text.
pub fn text_of(alloc: Global, characters: &[char]) -> Result<String, AllocError>
    ensures { IfOk result (λ s. chars (string_bytes s) ≡ characters.now) }
{
    let text: String = characters.iter().copied().collect(alloc)?;
    Ok(text)
}
