//! Items of a class.

use fancy_tree::named::Named;
use unicode::sets::Set as PropertySet;

/// What an item says that is no nested class; `true` stands for the complement.
#[derive(Clone, Copy, PartialEq, Eq)]
pub enum ClassItem {
    /// The characters from the first to the last.
    Range(char, char),
    /// A set with a fixed name, as `\d` or `[:alpha:]`.
    NamedSet(Named, bool),
    /// A property of Unicode, as `\p{Greek}`.
    Property(PropertySet, bool),
}
