//! What the searches of one list count together, and where a list that is given up would go on. Where an easy pattern is served by the runner, they take no more steps than one
//! search alone may take, and the code's length for each.

ghost use Rattle.std.specs.Prelude.{◌≡◌, ◌≤◌, true};
ghost use Rattle.fancy_input.specs.Work.{steps_of, returns_of};
ghost use Rattle.fancy_search.specs.SearchCounts.{HasRoomFor};

use crate::asking::{check, regex_of, regex_with, repeated, searchable};
use fancy_bytes::lacking::KnownBytes;
use fancy_core::iter::Matches;
use fancy_input::input::Request;
use fancy_input::regex_input::RegexInput;
use fancy_input::work::Work;
use fancy_search::asked::Asked;
use fancy_search::cache::{Cache, Kept};
use fancy_search::options::Options;
use fancy_search::program::Program;
use std::alloc::Global;
use std::process::Abort;

/// Patterns, and texts that are repeated. Each search of the list reads the rest of the text in vain.
const READS_THE_REST: &[(&str, &str)] = &[
    ("a(?:[^x]*x)?", "a"),
    ("(a)(?:[^x]*(x))?", "a"),
    ("é(?:[^x]*x)?", "é"),
];

/// Whether the counts have room for one more search for an easy pattern.
fn has_room(program: &Program, request: Request, work: &Work) -> bool
    requires ordered { request.start ≤ request.range_end }
    requires paired { returns_of work.now ≤ steps_of work.now }
    ensures { result ≡ true → HasRoomFor program.now request work.now }
{
    let places = request.range_end - request.start;
    let Some(most) = program.code_len().checked_mul(places.saturating_add(1)) else {
        return false;
    };
    let steps = work.steps().checked_add(most);
    let returns = work
        .returns()
        .checked_add(program.options().backtrack_limit);
    steps.is_some() && returns.is_some()
}

/// How many steps the searches of a list take together, one from the end of the match before, in a whole text.
fn steps_of_list(rt: &impl Abort, alloc: Global, program: &Program, text: &str) -> usize {
    let haystack = text.as_bytes();
    let mut request = Request {
        start: 0,
        range_start: 0,
        range_end: haystack.len(),
        anchored: false,
        start_text: true,
        end_text: true,
        continues: true,
    };
    let mut kept = Kept::Nothing;
    let mut known = KnownBytes::new();
    let mut cache = Cache::new(alloc);
    let mut work = Work::new();
    'matches: while request.start <= haystack.len() {
        assert!(rt; has_room(program, request, &work), "{text}");
        let asked = Asked {
            haystack,
            text: true,
            request: &request,
            continues: true,
            groups: true,
        };
        let answer = program.search_next(&asked, &mut kept, &mut known, &mut cache, &mut work);
        let Some(found) = answer.expect(rt, "a search") else {
            return work.steps();
        };
        request.start = found.end.max(request.start + 1);
    }
    work.steps()
}

/// Checks that a list of so many matches takes a number of steps that grows with the text alone.
fn check_list(rt: &impl Abort, alloc: Global, (pattern, word): (&str, &str), count: usize) {
    let text = repeated(rt, alloc, word, count);
    let program = Program::new(alloc, pattern, Options::default()).expect(rt, pattern);
    check(rt, program.is_easy(), pattern);
    let steps = steps_of_list(rt, alloc, &program, text.as_str());
    let places = text.len().saturating_add(1);
    let most = program.code_len().saturating_mul(places).saturating_mul(2);
    check(rt, steps <= most, pattern);
}

#[test]
fn a_list_is_bounded_by_its_text(rt: HostRuntime) {
    for &row in READS_THE_REST {
        check_list(&rt, rt.alloc(), row, 2_000);
    }
}

// a search for each match that begins its work anew would take minutes
#[test]
fn a_long_list_ends_in_time(rt: HostRuntime) {
    let text = repeated(&rt, rt.alloc(), "a", 30_000);
    let regex = regex_of(&rt, rt.alloc(), "a(?:[^x]*x)?");
    let count = regex.find_iter(text.as_str()).count();
    check(&rt, count == 30_000, "30,000 matches");
}

/// Checks that a list has an item, and no other after it, and where its next search would start then.
fn check_only_item(rt: &impl Abort, mut matches: Matches<'_, &str>, start: usize) {
    check(rt, matches.next().is_some(), "an item");
    check(rt, matches.next().is_none(), "the end");
    check(rt, matches.next().is_none(), "the end again");
    check(rt, matches.input().start() == start, "the next start");
}

// the search for the first match takes a return
#[test]
fn a_list_that_is_given_up_has_passed_the_end(rt: HostRuntime) {
    let options = Options {
        backtrack_limit: 0,
        ..Options::default()
    };
    let regex = regex_with(&rt, rt.alloc(), options, ",(?:x|y)(?=z)");
    let input = searchable(&rt, &regex, RegexInput::new(",yz"));
    check_only_item(&rt, regex.find_iter_input(input), 4);
}
