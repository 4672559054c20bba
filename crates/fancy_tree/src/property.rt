//! Sets of characters that a property of Unicode names.

ghost use Rattle.std.specs.Prelude.{◌≡◌, ℕ, Some, [], ◌∷◌, IfOk};
ghost use Rattle.fancy_tree.specs.Properties.{is_property_character, is_property_name, property_named};
ghost use Rattle.fancy_tree.specs.Members.{members};
ghost use Rattle.fancy_tree.specs.Properties.{has_property};
ghost use Rattle.ucd_sets.specs.declared.set.Set.TheVariants.{CategoryGroup};
ghost use Rattle.ucd_category.specs.declared.GeneralCategoryGroup.TheVariants.{Letter, Mark, Number, Punctuation, Symbol, Separator, Other};

use crate::named::characters;
use crate::set::Set;
use std::alloc::{AllocError, Global};
use unicode::sets::{Set as PropertySet, by_name, normalize};

fn is_property_character(c: char) -> bool
    ensures { result ≡ is_property_character c }
{
    c.is_ascii() && !['=', ':'].contains(&c)
}

/// Whether a name can be one of a property: ASCII characters other than `=` and `:`, at least one.
fn is_property_name(name: &[char]) -> bool
    ensures { result ≡ is_property_name name.now }
{
    let mut rest = name;
    while let [c, others @ ..] = rest {
        if !is_property_character(*c) {
            return false;
        }
        rest = others;
    }
    !name.is_empty()
}

/// The property with this name, as in `\p{Greek}`, if there is one. The name may be written loosely.
pub fn property_named(alloc: Global, name: &[char]) -> Result<Option<PropertySet>, AllocError>
    ensures { IfOk result (λ found. found ≡ property_named name.now) }
{
    if !is_property_name(name) {
        return Ok(None);
    }
    let name = normalize(alloc, name)?;
    Ok(by_name(&name).ok())
}

/// The characters that have a property.
pub fn property_members(alloc: Global, property: PropertySet) -> Result<Set, AllocError>
    ensures { IfOk result (λ s. (c : ℕ) → members s c ≡ has_property property c) }
{
    characters(alloc, &property.ranges(alloc)?)
}

/// A name of one letter is that of a group of general categories, in either case.
pub fn property_letters_law()
    ensures letter { (property_named (76 ∷ []) ≡ Some (CategoryGroup Letter))
        × (property_named (108 ∷ []) ≡ Some (CategoryGroup Letter)) }
    ensures mark { (property_named (77 ∷ []) ≡ Some (CategoryGroup Mark))
        × (property_named (109 ∷ []) ≡ Some (CategoryGroup Mark)) }
    ensures number { (property_named (78 ∷ []) ≡ Some (CategoryGroup Number))
        × (property_named (110 ∷ []) ≡ Some (CategoryGroup Number)) }
    ensures punctuation { (property_named (80 ∷ []) ≡ Some (CategoryGroup Punctuation))
        × (property_named (112 ∷ []) ≡ Some (CategoryGroup Punctuation)) }
    ensures symbol { (property_named (83 ∷ []) ≡ Some (CategoryGroup Symbol))
        × (property_named (115 ∷ []) ≡ Some (CategoryGroup Symbol)) }
    ensures separator { (property_named (90 ∷ []) ≡ Some (CategoryGroup Separator))
        × (property_named (122 ∷ []) ≡ Some (CategoryGroup Separator)) }
    ensures other { (property_named (67 ∷ []) ≡ Some (CategoryGroup Other))
        × (property_named (99 ∷ []) ≡ Some (CategoryGroup Other)) }
{}
