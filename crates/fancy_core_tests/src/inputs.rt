//! Haystacks of each form, and what an input says of itself.

use crate::asking::{check, check_find, check_part, owned, regex_of};
use fancy_input::regex_input::RegexInput;
use fancy_tree::tree::BytesMode;

#[test]
fn searches_each_form(rt: HostRuntime) {
    let text = owned(&rt, rt.alloc(), "ab");
    check_find(&rt, rt.alloc(), "b", &text, Some((1, 2)));
    check_find(&rt, rt.alloc(), "b", b"ab", Some((1, 2)));
    let bytes: &[u8] = b"ab";
    let regex = regex_of(&rt, rt.alloc(), "b");
    check_part(&rt, regex.find_from_pos(bytes, 1), b"b");
    let matched = regex.is_match(bytes).expect(&rt, "b");
    check(&rt, matched, "a match");
}

#[test]
fn an_input_tells_its_settings(rt: HostRuntime) {
    let input = RegexInput::new("xabab").range(2..5);
    check(&rt, input.haystack() == "xabab", "the haystack");
    check(&rt, input.start() == 0, "the start");
    check(&rt, input.get_range() == (2..5), "the range");
    // matches stand between characters by default
    check(&rt, BytesMode::default() == BytesMode::Unicode, "the mode");
}
