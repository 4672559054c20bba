//! Units before a place, which no public call shows by itself.

use crate::asking::check;
use fancy_machine::units::units_back;
use fancy_tree::tree::Meaning;

#[test]
fn units_stand_before_a_place(rt: HostRuntime) {
    let text = "aé".as_bytes();
    check(
        &rt,
        units_back(text, Meaning::Unicode, 1, 3) == Some(1),
        "one back",
    );
    check(
        &rt,
        units_back(text, Meaning::Unicode, 3, 3) == None,
        "three back",
    );
}
