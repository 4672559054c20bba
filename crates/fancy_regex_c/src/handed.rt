//! A haystack as the caller hands it in: bytes, and whether they are text.

ghost use Rattle.std.specs.Prelude.{◌≡◌, ◌<◌, ◌≤◌, true, false, length, IfErr, IfOk, IsUtf8};
ghost use Rattle.std.proofs.Props.{props};
ghost use Rattle.fancy_regex.specs.Inputs.{haystack_in, request_in};
ghost use Rattle.fancy_regex.specs.Spans.{span_in_bytes, bytes_in};
ghost use Rattle.fancy_regex_c.specs.Answers.{IsUnread};
ghost use Rattle.fancy_regex_c.specs.Asked.{asked, says_text, IsAsSaid, IsPlace, IsPlaceIn, IsPlaceInSet, IsPlaceOfSet};

use crate::answers::{NO_PLACE, NOT_TEXT};
use crate::plain::{ANCHORED, NO_END, NO_START, NOT_CONTINUED, Request, TEXT};
use fancy_regex::{Haystack, Input, MatchBytes, Regex, RegexInput, RegexSet};

/// Bytes, and whether they are text, which then is UTF-8.
#[derive(Clone, Copy)]
pub struct Handed<'h> {
    bytes: &'h [u8],
    is_text: bool,
    ghost utf8: { is_text ≡ true → IsUtf8 bytes.now } by { Prim.hlevel props },
}

impl<'h> Haystack for Handed<'h> {
    ghost bytes = { λ h. h.bytes.now };

    ghost text = { λ h. h.is_text };
}

impl<'h> Input for Handed<'h> {
    type Match = MatchBytes<'h>;

    ghost within = { λ m. bytes_in m };

    ghost span = { λ m. span_in_bytes m };

    fn as_bytes(&self) -> &[u8] {
        self.bytes
    }

    fn is_text(&self) -> bool {
        self.is_text
    }

    fn make_match(&self, start: usize, end: usize) -> MatchBytes<'h> {
        MatchBytes::new(self.bytes, start, end)
    }
}

impl<'h> Handed<'h> {
    ghost use Rattle.fancy_regex_c.specs.Handed.{handed_bytes, is_handed_text};

    /// Text.
    pub fn text(text: &'h str) -> Handed<'h>
        ensures bytes { handed_bytes result ≡ text.now }
        ensures text { is_handed_text result ≡ true }
    {
        Handed {
            bytes: text.as_bytes(),
            is_text: true,
        }
    }

    /// Bytes.
    pub fn bytes(bytes: &'h [u8]) -> Handed<'h>
        ensures bytes { handed_bytes result ≡ bytes.now }
        ensures text { is_handed_text result ≡ false }
    {
        Handed {
            bytes,
            is_text: false,
        }
    }

    /// The bytes as the request reads them; `NOT_TEXT` for those that are to be text and are none.
    pub fn new(bytes: &'h [u8], request: Request) -> Result<Handed<'h>, u32>
        ensures bytes { IfOk result (λ h. handed_bytes h ≡ bytes.now) }
        ensures text { IfOk result (λ h. is_handed_text h ≡ says_text request) }
        ensures said { IfOk result (λ _. IsAsSaid bytes.now request) }
        ensures refused { IfErr result (λ answer. answer ≡ 2) }
        ensures not_text { IfErr result (λ _. IsAsSaid bytes.now request → ⊥) }
    {
        if !request.has(TEXT) {
            return Ok(Handed::bytes(bytes));
        }
        match str::from_utf8(bytes) {
            Ok(text) => Ok(Handed::text(text)),
            Err(_) => Err(NOT_TEXT),
        }
    }

    /// What the request asks of the haystack; `NO_PLACE` for a range that is not within it.
    pub fn input(self, request: Request) -> Result<RegexInput<Handed<'h>>, u32>
        ensures haystack { IfOk result (λ i. haystack_in i ≡ self.entry) }
        ensures request { IfOk result (λ i. request_in i ≡ asked request) }
        ensures inside { IfOk result (λ _. request.end ≤ length (handed_bytes self.entry)) }
        ensures refused { IfErr result (λ answer. answer ≡ 3) }
        ensures outside { IfErr result (λ _. length (handed_bytes self.entry) < request.end) }
    {
        if request.end > self.bytes.len() {
            return Err(NO_PLACE);
        }
        Ok(
            RegexInput::new(self)
                .from_pos(request.start)
                .range(0..request.end)
                .anchored(request.has(ANCHORED))
                .start_text(!request.has(NO_START))
                .end_text(!request.has(NO_END))
                .continue_from_previous_match_end(!request.has(NOT_CONTINUED)),
        )
    }

    /// What the request asks of the haystack, if the regex may search it so; else `NO_PLACE`.
    pub fn input_in(self, regex: &Regex, request: Request) -> Result<RegexInput<Handed<'h>>, u32>
        ensures haystack { IfOk result (λ i. haystack_in i ≡ self.entry) }
        ensures request { IfOk result (λ i. request_in i ≡ asked request) }
        ensures place { IfOk result
            (λ _. IsPlaceIn regex.now (is_handed_text self.entry) (handed_bytes self.entry) request) }
        ensures refused { IfErr result (λ answer. answer ≡ 3) }
        ensures no_place { IfErr result
            (λ _. IsPlaceIn regex.now (is_handed_text self.entry) (handed_bytes self.entry) request → ⊥) }
    {
        let input = self.input(request)?;
        if regex.can_search(&input) {
            Ok(input)
        } else {
            Err(NO_PLACE)
        }
    }

    /// What the request asks of the haystack, if the set may search it so; else `NO_PLACE`.
    pub fn input_in_set(
        self,
        set: &RegexSet,
        request: Request,
    ) -> Result<RegexInput<Handed<'h>>, u32>
        ensures haystack { IfOk result (λ i. haystack_in i ≡ self.entry) }
        ensures request { IfOk result (λ i. request_in i ≡ asked request) }
        ensures place { IfOk result
            (λ _. IsPlaceInSet set.now (is_handed_text self.entry) (handed_bytes self.entry) request) }
        ensures refused { IfErr result (λ answer. answer ≡ 3) }
        ensures no_place { IfErr result
            (λ _. IsPlaceInSet set.now (is_handed_text self.entry) (handed_bytes self.entry) request → ⊥) }
    {
        let input = self.input(request)?;
        if set.can_search(&input) {
            Ok(input)
        } else {
            Err(NO_PLACE)
        }
    }

    /// What the request asks of the bytes, if the regex may search them so; else `NOT_TEXT` or `NO_PLACE`.
    pub fn input_for(
        regex: &Regex,
        bytes: &'h [u8],
        request: Request,
    ) -> Result<RegexInput<Handed<'h>>, u32>
        ensures bytes { IfOk result (λ i. handed_bytes (haystack_in i) ≡ bytes.now) }
        ensures text { IfOk result (λ i. is_handed_text (haystack_in i) ≡ says_text request) }
        ensures request { IfOk result (λ i. request_in i ≡ asked request) }
        ensures said { IfOk result (λ _. IsAsSaid bytes.now request) }
        ensures place { IfOk result (λ _. IsPlace regex.now bytes.now request) }
        ensures refused { IfErr result
            (λ answer. IsUnread (IsAsSaid bytes.now request) (IsPlace regex.now bytes.now request) answer) }
    {
        Handed::new(bytes, request)?.input_in(regex, request)
    }

    /// What the request asks of the bytes, if the set may search them so; else `NOT_TEXT` or `NO_PLACE`.
    pub fn input_for_set(
        set: &RegexSet,
        bytes: &'h [u8],
        request: Request,
    ) -> Result<RegexInput<Handed<'h>>, u32>
        ensures bytes { IfOk result (λ i. handed_bytes (haystack_in i) ≡ bytes.now) }
        ensures text { IfOk result (λ i. is_handed_text (haystack_in i) ≡ says_text request) }
        ensures request { IfOk result (λ i. request_in i ≡ asked request) }
        ensures said { IfOk result (λ _. IsAsSaid bytes.now request) }
        ensures place { IfOk result (λ _. IsPlaceOfSet set.now bytes.now request) }
        ensures refused { IfErr result
            (λ answer. IsUnread (IsAsSaid bytes.now request) (IsPlaceOfSet set.now bytes.now request) answer) }
    {
        Handed::new(bytes, request)?.input_in_set(set, request)
    }
}
