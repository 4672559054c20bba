//! The settings of a search: what they are, and how they are changed.

ghost use Rattle.std.specs.Prelude.{◌≡◌, ◌≤◌, length};
ghost use Rattle.fancy_input.specs.Inputs.{haystack_in, request_in};
ghost use Rattle.fancy_input.specs.Requests.{whole, effective_start};

use crate::input::{Input, Request};
use crate::regex_input::RegexInput;
use std::ops::Range;

impl<S: Input> RegexInput<S> {
    /// The whole haystack from its start, not anchored, with nothing suppressed.
    ///
    /// ```text
    /// RegexInput::new("xabab").get_range()    // 0..5
    /// ```
    pub fn new(haystack: S) -> RegexInput<S>
        ensures haystack { haystack_in result ≡ haystack }
        ensures request { request_in result ≡ whole (S.bytes haystack) }
    {
        let request = Request {
            start: 0,
            range_start: 0,
            range_end: haystack.len(),
            anchored: false,
            start_text: true,
            end_text: true,
            continues: true,
        };
        RegexInput { haystack, request }
    }

    /// The whole haystack, also where a part of it is to be searched.
    pub fn haystack(&self) -> S
        ensures { result ≡ haystack_in self.now }
    {
        self.haystack
    }

    /// The position that was asked for, in bytes: 0, or what `from_pos` was given.
    pub fn start(&self) -> usize
        ensures { result ≡ (request_in self.now).start }
    {
        self.request().start
    }

    /// The range in which a match begins and ends, in bytes: that of the whole haystack, or what `range` was given.
    pub fn get_range(&self) -> Range<usize>
        ensures starts { result.start ≡ (request_in self.now).range_start }
        ensures ends { result.end ≡ (request_in self.now).range_end }
        ensures ordered { result.start ≤ result.end }
        ensures inside { result.end ≤ length (S.bytes (haystack_in self.now)) }
    {
        self.request.range_start..self.request.range_end
    }

    /// All the settings.
    pub fn request(&self) -> Request
        ensures value { result ≡ request_in self.now }
        ensures ordered { result.range_start ≤ result.range_end }
        ensures inside { result.range_end ≤ length (S.bytes (haystack_in self.now)) }
    {
        self.request
    }

    /// The first position that is tried, in bytes: the greater of `start` and the start of the range.
    ///
    /// ```text
    /// RegexInput::new("xabab").from_pos(1).range(2..5).effective_start()    // 2
    /// ```
    pub fn effective_start(&self) -> usize
        ensures { result ≡ effective_start (request_in self.now) }
    {
        self.request.effective_start()
    }

    /// Has the search start at `start`, in bytes, which may be any number: from past the end of the range
    /// nothing is found.
    ///
    /// ```text
    /// Regex::new(alloc, "a|ab")?.find_input(RegexInput::new("xabab").from_pos(2))    // Some: 3..4
    /// ```
    pub fn from_pos(mut self, start: usize) -> RegexInput<S>
        ensures haystack { haystack_in result ≡ haystack_in self }
        ensures request { request_in result ≡ record (request_in self) { start = start } }
    {
        self.request.start = start;
        self
    }

    /// Has matches begin and end in `range`, in bytes, which is within the haystack.
    ///
    /// An empty match may be at the end of the range. The ends need not be boundaries of characters here; a search of text asks
    /// for that (`Regex::can_search`).
    ///
    /// ```text
    /// let input = RegexInput::new("xabab").range(2..5);
    /// Regex::new(alloc, "a|ab")?.find_input(input)    // Some: 3..4
    /// Regex::new(alloc, "^ab")?.find_input(input)     // None: `^` holds at 0, the start of the text, and not at 2
    /// ```
    pub fn range(mut self, range: Range<usize>) -> RegexInput<S>
        requires ordered { range.start ≤ range.end }
        requires inside { range.end ≤ length (S.bytes (haystack_in self)) }
        ensures haystack { haystack_in result ≡ haystack_in self }
        ensures request { request_in result
            ≡ record (request_in self) { range_start = range.start; range_end = range.end } }
    {
        self.request.range_start = range.start;
        self.request.range_end = range.end;
        self
    }

    /// With `false` nothing is the start of the text: `^` and `\A` do not hold there, in a search by a regex that
    /// was built with `allow_input_assertion_overrides`. `true`, which holds at first, takes that back.
    ///
    /// ```text
    /// // ^a$, built with allow_input_assertion_overrides(true); without that, Some: 0..1
    /// regex.find_input(RegexInput::new("a").start_text(false))    // None
    /// ```
    pub fn start_text(mut self, yes: bool) -> RegexInput<S>
        ensures haystack { haystack_in result ≡ haystack_in self }
        ensures request { request_in result ≡ record (request_in self) { start_text = yes } }
    {
        self.request.start_text = yes;
        self
    }

    /// With `false` nothing is the end of the text: `$` and `\z` do not hold there, in a search by a regex that
    /// was built with `allow_input_assertion_overrides`. `true`, which holds at first, takes that back.
    ///
    /// ```text
    /// // ^a$, built with allow_input_assertion_overrides(true); without that, Some: 0..1
    /// regex.find_input(RegexInput::new("a").end_text(false))    // None
    /// ```
    pub fn end_text(mut self, yes: bool) -> RegexInput<S>
        ensures haystack { haystack_in result ≡ haystack_in self }
        ensures request { request_in result ≡ record (request_in self) { end_text = yes } }
    {
        self.request.end_text = yes;
        self
    }

    /// With `false` there was no match before: `\G` holds nowhere, in a search by a regex that was built with
    /// `allow_input_assertion_overrides`. `true`, which holds at first, takes that back.
    ///
    /// ```text
    /// // \Ga, built with allow_input_assertion_overrides(true)
    /// regex.find_input(RegexInput::new("a").continue_from_previous_match_end(false))    // None
    /// ```
    pub fn continue_from_previous_match_end(mut self, yes: bool) -> RegexInput<S>
        ensures haystack { haystack_in result ≡ haystack_in self }
        ensures request { request_in result ≡ record (request_in self) { continues = yes } }
    {
        self.request.continues = yes;
        self
    }

    /// With `true` one position alone is tried, the greater of `start` and the start of the range.
    ///
    /// ```text
    /// let regex = Regex::new(alloc, "a|ab")?;
    /// regex.find_input(RegexInput::new("xab").anchored(true))                // None
    /// regex.find_input(RegexInput::new("xab").from_pos(1).anchored(true))    // Some: 1..2
    /// ```
    pub fn anchored(mut self, yes: bool) -> RegexInput<S>
        ensures haystack { haystack_in result ≡ haystack_in self }
        ensures request { request_in result ≡ record (request_in self) { anchored = yes } }
    {
        self.request.anchored = yes;
        self
    }
}
