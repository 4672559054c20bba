//! The code of a pattern, which no public call shows by itself.

use crate::asking::check;
use fancy_code::compile::compile;
use fancy_tree::tree::{Meaning, RepeatKind, Tree};

#[test]
#[tactic(auto, using(fancy_tree::proofs::PatternLemmas::pattern_equations), unfolding(fancy_tree::specs::Sizes::nodes))]
fn a_star_shares_its_turn(rt: HostRuntime) {
    // as in `a+`
    let alloc = rt.alloc();
    let tree = Tree::Repeat {
        low: 1,
        high: None,
        kind: RepeatKind::Greedy,
        body: Box::new(alloc, Tree::Character('a')).expect(&rt, "no memory"),
    };
    let code = compile(alloc, &tree, 1, Meaning::Unicode).expect(&rt, "no memory");
    check(&rt, code.len() == 6, "the length");
    check(&rt, code.start == 5, "the start");
    check(&rt, code.groups == 1, "the groups");
}
