//! What flag `i` adds to a set.

ghost use Rattle.std.specs.Prelude.{◌≡◌, ◌↔◌, ◌≤◌, ℕ, Bool, true, ◌||◌, IfOk};
ghost use Rattle.fancy_tree.specs.Members.{members};
ghost use Rattle.fancy_tree.specs.Widening.{case_closure, in_pairs, ascii_pairs, SharesFolding};

use crate::set::Set;
use crate::tree::Meaning;
use std::alloc::AllocError;
use unicode::case::fold_pairs;

/// Each ASCII letter with its other case.
const ASCII_PAIRS: [(u32, u32); 52] = [
    (65, 97),
    (66, 98),
    (67, 99),
    (68, 100),
    (69, 101),
    (70, 102),
    (71, 103),
    (72, 104),
    (73, 105),
    (74, 106),
    (75, 107),
    (76, 108),
    (77, 109),
    (78, 110),
    (79, 111),
    (80, 112),
    (81, 113),
    (82, 114),
    (83, 115),
    (84, 116),
    (85, 117),
    (86, 118),
    (87, 119),
    (88, 120),
    (89, 121),
    (90, 122),
    (97, 65),
    (98, 66),
    (99, 67),
    (100, 68),
    (101, 69),
    (102, 70),
    (103, 71),
    (104, 72),
    (105, 73),
    (106, 74),
    (107, 75),
    (108, 76),
    (109, 77),
    (110, 78),
    (111, 79),
    (112, 80),
    (113, 81),
    (114, 82),
    (115, 83),
    (116, 84),
    (117, 85),
    (118, 86),
    (119, 87),
    (120, 88),
    (121, 89),
    (122, 90),
];

/// This set with what flag `i` adds to it.
pub fn case_closure(meaning: Meaning, set: &Set) -> Result<Set, AllocError>
    ensures { IfOk result (λ s. (c : ℕ) → members s c ≡ case_closure meaning (members set.now) c) }
{
    match meaning {
        Meaning::Unicode => set.with_pairs(fold_pairs()),
        Meaning::Bytes | Meaning::AsciiText => set.with_pairs(&ASCII_PAIRS),
    }
}

/// A character is a member in Unicode meaning exactly where it shares a simple folding with one.
pub fn widening_law()
    ensures { (p : ℕ → Bool) (c : ℕ) → (case_closure Meaning.Unicode p c ≡ true) ↔ SharesFolding p c }
{}
