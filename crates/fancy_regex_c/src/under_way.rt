//! Lists under way, each of which owns its haystack and shares its regex or its set.
//!
//! A list is asked for one item at a time. It has some of them ready, and finds more once they are given out: 8 at first, and four
//! times as many each time, up to 512. So what a search is refused for is told in its turn, and a list that is left early did not
//! search much further.

ghost use Rattle.std.specs.Prelude.{◌≡◌, ◌≤◌, ◌<◌, ◌+◌, ◌*◌, ◌⊎◌, ◌↔◌, IsTrue, true, false, not, nat_eq, IfOk, IfErr, MatchOption, None, length, take, drop, slice_index_or, vec_items};
ghost use Rattle.fancy_regex_c.specs.Answers.{IsUnread};
ghost use Rattle.fancy_regex_c.specs.Asked.{says_text, IsAsSaid, IsPlace, IsPlaceOfSet};
ghost use Rattle.fancy_regex_c.specs.Handed.{handed_bytes, is_handed_text};
ghost use Rattle.fancy_regex_c.specs.Handles.{IsSame, ByRegex, BySet, HeldRegex, HeldSet};
ghost use Rattle.fancy_regex_c.specs.Lists.{TellsRowsIn, TellsSpansIn};
ghost use Rattle.fancy_regex_c.specs.NextMatches.{IsNewMatchListOf, IsNextMatch};
ghost use Rattle.fancy_regex_c.specs.NextTokens.{IsNewTokenListOf, IsNextToken};
ghost use Rattle.fancy_regex_c.specs.UnderWay.{owned_bytes, is_owned_text, ByMatches, ByTokens, HeldMatches, HeldTokens, Begins};

use crate::answers::{DONE, NO_HANDLE, NO_MEMORY, NONE, NOT_TEXT, UNMATCHED};
use crate::handed::Handed;
use crate::handle::{Handle, Kept};
use crate::lists::{captures_all_in, find_all_in};
use crate::plain::{Member, Request, Span, TEXT};
use crate::regexes::keep;
use crate::sets::tokens_in;
use fancy_regex::{Regex, RegexSet};
use std::alloc::Global;
use std::sync::Arc;

/// How many items are found at first.
const FIRST: usize = 8;

/// How many items are found at a time at most.
const MOST: usize = 512;

/// A haystack of a list's own.
#[derive(Drop)]
enum Owned {
    Text(String),
    Bytes(Vec<u8>),
}

impl Owned {
    /// A copy of the bytes as the request reads them, or the answer for those that are to be text and are none.
    fn new(alloc: Global, bytes: &[u8], request: Request) -> Result<Owned, u32>
        ensures bytes { IfOk result (λ o. owned_bytes o ≡ bytes.now) }
        ensures text { IfOk result (λ o. is_owned_text o ≡ says_text request) }
        ensures said { IfOk result (λ _. IsAsSaid bytes.now request) }
        ensures refused { IfErr result
            (λ answer. ((answer ≡ 2) × (IsAsSaid bytes.now request → ⊥)) ⊎ (answer ≡ 4)) }
    {
        if !request.has(TEXT) {
            return match Vec::from_slice(alloc, bytes) {
                Ok(bytes) => Ok(Owned::Bytes(bytes)),
                Err(_) => Err(NO_MEMORY),
            };
        }
        let Ok(text) = str::from_utf8(bytes) else {
            return Err(NOT_TEXT);
        };
        match String::from_str(alloc, text) {
            Ok(text) => Ok(Owned::Text(text)),
            Err(_) => Err(NO_MEMORY),
        }
    }

    fn lend(&self) -> Handed<'_>
        ensures bytes { handed_bytes result ≡ owned_bytes self.now }
        ensures text { is_handed_text result ≡ is_owned_text self.now }
    {
        match self {
            Owned::Text(text) => Handed::text(text.as_str()),
            Owned::Bytes(bytes) => Handed::bytes(bytes.as_slice()),
        }
    }
}

/// How many items are ready, and what is answered after them.
#[derive(Clone, Copy)]
struct Progress {
    ready: usize,
    given: usize,
    // how many items are found the next time
    room: usize,
    // `DONE` while there may be more
    last: u32,
}

impl Progress {
    ghost use Rattle.fancy_regex_c.specs.Courses.{WantsMore};

    fn new() -> Progress
        ensures { result ≡ record { ready = 0; given = 0; room = 8; last = 0 } }
    {
        Progress {
            ready: 0,
            given: 0,
            room: FIRST,
            last: DONE,
        }
    }

    fn wants_more(&self) -> bool
        ensures { IsTrue result ↔ WantsMore self.now }
    {
        self.given >= self.ready && self.last == DONE
    }

    fn found(&mut self, ready: usize, last: u32)
        ensures ready { self.new.ready ≡ ready }
        ensures given { self.new.given ≡ 0 }
        ensures last { self.new.last ≡ last }
        ensures room { 0 < self.old.room → 0 < self.new.room }
    {
        self.ready = ready;
        self.given = 0;
        self.last = last;
        self.room = self.room.saturating_mul(4).min(MOST);
    }

    /// The number of the next item that is ready.
    fn take(&mut self) -> Option<usize>
        ensures same { (self.new.ready ≡ self.old.ready) × (self.new.room ≡ self.old.room)
            × (self.new.last ≡ self.old.last) }
        ensures taken { MatchOption result
            ((self.old.ready ≤ self.old.given) × (self.new.given ≡ self.old.given))
            (λ i. (i ≡ self.old.given) × (i < self.old.ready) × (self.new.given ≡ i + 1)) }
    {
        if self.given >= self.ready {
            return None;
        }
        self.given += 1;
        Some(self.given - 1)
    }

    /// What is answered after the last item: why there is none, and then that there is none.
    fn end(&mut self) -> u32
        ensures told { result ≡ self.old.last }
        ensures ended { self.new.last ≡ 1 }
        ensures same { (self.new.ready ≡ self.old.ready) × (self.new.given ≡ self.old.given)
            × (self.new.room ≡ self.old.room) }
    {
        let answer = self.last;
        self.last = NONE;
        answer
    }
}

/// A list of matches.
#[derive(Drop)]
pub struct MatchList {
    regex: Arc<Regex, Global>,
    haystack: Owned,
    request: Request,
    has_groups: bool,
    // those of the matches that are ready, one after another
    spans: Vec<Span>,
    progress: Progress,
}

/// Gives the next matches, with their groups or not.
fn rows_in(
    regex: &Regex,
    haystack: Handed<'_>,
    has_groups: bool,
    request: &mut Request,
    spans: &mut [Span],
    written: &mut usize,
) -> u32
    ensures groups { has_groups ≡ true
        → TellsRowsIn regex.now (is_handed_text haystack.entry) (handed_bytes haystack.entry)
        request.old request.new spans.old spans.new written.new result }
    ensures alone { has_groups ≡ false
        → TellsSpansIn regex.now (is_handed_text haystack.entry) (handed_bytes haystack.entry)
        request.old request.new spans.old spans.new written.new result }
{
    if has_groups {
        captures_all_in(regex, haystack, request, spans, written)
    } else {
        find_all_in(regex, haystack, request, spans, written)
    }
}

impl MatchList {
    ghost use Rattle.fancy_regex_c.specs.Courses.{WantsMore};
    ghost use Rattle.fancy_regex_c.specs.NextMatches.{FindsMatches, ReadiesMatches, IsNextMatch, IsRow, width_by};
    ghost use Rattle.fancy_regex_c.specs.Searches.{crossing};

    /// How many spans a match has.
    fn width(&self) -> usize
        ensures { result ≡ width_by self.now.has_groups self.now.regex.value }
    {
        if self.has_groups {
            self.regex.captures_len()
        } else {
            1
        }
    }

    /// Finds more matches. Where memory is refused the list stays as it is, and finds them when it is asked again.
    fn find_more(&mut self) -> u32
        ensures answer { (result ≡ 0) ⊎ (result ≡ 4) }
        ensures found { result ≡ 0 → FindsMatches self.old self.new }
        ensures same { result ≡ 4 → self.new ≡ record self.old { spans = self.new.spans } }
    {
        let wanted = self.progress.room.saturating_mul(self.width());
        let Ok(()) = self.spans.resize(wanted, Span::absent()) else {
            return NO_MEMORY;
        };
        let mut count = 0;
        let mut request = self.request;
        let haystack = self.haystack.lend();
        let last = rows_in(
            &self.regex,
            haystack,
            self.has_groups,
            &mut request,
            &mut self.spans,
            &mut count,
        );
        if last == NO_MEMORY {
            return NO_MEMORY;
        }
        self.request = request;
        self.progress.found(count, last);
        DONE
    }

    /// Has a match ready, if there is one.
    fn make_ready(&mut self) -> u32
        ensures answer { (result ≡ 0) ⊎ (result ≡ 4) }
        ensures ready { result ≡ 0 → ReadiesMatches self.old self.new }
        ensures wants { result ≡ 4 → WantsMore self.old.progress }
        ensures same { result ≡ 4 → self.new ≡ record self.old { spans = self.new.spans } }
    {
        if self.progress.wants_more() {
            self.find_more()
        } else {
            DONE
        }
    }

    /// A span of a match that is ready, which is absent past the match's last one.
    fn span_at(&self, index: usize, number: usize) -> Span
        ensures { (index + 1) * width_by self.now.has_groups self.now.regex.value
            ≤ length (vec_items self.now.spans)
            → result ≡ slice_index_or (take (width_by self.now.has_groups self.now.regex.value)
            (drop (index * width_by self.now.has_groups self.now.regex.value)
            (vec_items self.now.spans))) number (crossing None) }
    {
        let width = self.width();
        if number >= width {
            return Span::absent();
        }
        let first = index.saturating_mul(width);
        match self.spans.get(first.saturating_add(number)) {
            Some(span) => *span,
            None => Span::absent(),
        }
    }

    /// Writes the spans of a match that is ready, as many as there is room for.
    fn put(&self, index: usize, groups: &mut [Span])
        ensures { (index + 1) * width_by self.now.has_groups self.now.regex.value
            ≤ length (vec_items self.now.spans)
            → IsRow groups.new (take (width_by self.now.has_groups self.now.regex.value)
            (drop (index * width_by self.now.has_groups self.now.regex.value)
            (vec_items self.now.spans))) }
    {
        for number in 0..groups.len() {
            groups[number] = self.span_at(index, number);
        }
    }

    /// Writes the groups of the next match.
    fn next(&mut self, groups: &mut [Span]) -> u32
        ensures { IsNextMatch self.old self.new groups.old groups.new result }
    {
        let answer = self.make_ready();
        if answer != DONE {
            return answer;
        }
        match self.progress.take() {
            Some(index) => {
                self.put(index, groups);
                DONE
            }
            None => self.progress.end(),
        }
    }
}

fn list_of(
    alloc: Global,
    regex: &Arc<Regex, Global>,
    haystack: &[u8],
    request: Request,
    has_groups: bool,
) -> Result<MatchList, u32>
    ensures list { IfOk result
        (λ l. IsNewMatchListOf has_groups regex.now.value haystack.now request l) }
    ensures said { IfOk result (λ _. IsAsSaid haystack.now request) }
    ensures place { IfOk result (λ _. IsPlace regex.now.value haystack.now request) }
    ensures refused { IfErr result (λ answer.
        IsUnread (IsAsSaid haystack.now request) (IsPlace regex.now.value haystack.now request) answer
        ⊎ (answer ≡ 4)) }
{
    let haystack = Owned::new(alloc, haystack, request)?;
    haystack.lend().input_in(regex, request)?;
    let Ok(regex) = regex.clone() else {
        return Err(NO_MEMORY);
    };
    Ok(MatchList {
        regex,
        haystack,
        request,
        has_groups,
        spans: Vec::new(alloc),
        progress: Progress::new(),
    })
}

impl Kept {
    fn begin_matches(
        &self,
        alloc: Global,
        haystack: &[u8],
        request: Request,
        has_groups: bool,
        list: &mut Handle,
    ) -> u32
        ensures { ByRegex self.now
            (λ r. Begins (IsAsSaid haystack.now request) (IsPlace r haystack.now request)
            (HeldMatches list.new (IsNewMatchListOf has_groups r haystack.now request) ⊥)
            (IsSame list.new list.old) result)
            ((result ≡ 5) × IsSame list.new list.old) }
    {
        match self {
            Kept::Regex(regex) => match list_of(alloc, regex, haystack, request, has_groups) {
                Ok(matches) => keep(alloc, Kept::Matches(matches), list),
                Err(answer) => answer,
            },
            _ => NO_HANDLE,
        }
    }

    fn begin_tokens(
        &self,
        alloc: Global,
        haystack: &[u8],
        request: Request,
        list: &mut Handle,
    ) -> u32
        ensures { BySet self.now
            (λ s. Begins (IsAsSaid haystack.now request) (IsPlaceOfSet s haystack.now request)
            (HeldTokens list.new (IsNewTokenListOf s haystack.now request) ⊥) (IsSame list.new list.old) result)
            ((result ≡ 5) × IsSame list.new list.old) }
    {
        match self {
            Kept::Set(set) => match tokens_of(alloc, set, haystack, request) {
                Ok(tokens) => keep(alloc, Kept::Tokens(tokens), list),
                Err(answer) => answer,
            },
            _ => NO_HANDLE,
        }
    }

    fn next_match(&mut self, groups: &mut [Span]) -> u32
        ensures { ByMatches self.old
            (λ l. ByMatches self.new (λ m. IsNextMatch l m groups.old groups.new result) ⊥)
            ((result ≡ 5) × (self.new ≡ self.old) × (groups.new ≡ groups.old)) }
    {
        match self {
            Kept::Matches(matches) => matches.next(groups),
            _ => NO_HANDLE,
        }
    }

    fn next_token(&mut self, token: &mut Member) -> u32
        ensures { ByTokens self.old
            (λ l. ByTokens self.new (λ m. IsNextToken l m token.old token.new result) ⊥)
            ((result ≡ 5) × (self.new ≡ self.old) × (token.new ≡ token.old)) }
    {
        match self {
            Kept::Tokens(tokens) => tokens.next(token),
            _ => NO_HANDLE,
        }
    }
}

/// Begins a list of matches, with their groups where `has_groups` is not 0. It copies the haystack.
///
/// For all answers but `DONE` the other handle keeps what it held: `NOT_TEXT` and `NO_PLACE`, as those of
/// [`crate::regexes::fancy_regex_is_match`]; `NO_MEMORY`; `NO_HANDLE` where the handle holds no regex.
#[unsafe(no_mangle)]
pub extern "C" fn fancy_regex_matches_new(
    alloc: Global,
    regex: &mut Handle,
    haystack: &[u8],
    request: &Request,
    has_groups: u32,
    list: &mut Handle,
) -> u32
    ensures kept { IsSame regex.new regex.old }
    ensures answer { HeldRegex regex.old
        (λ r. Begins (IsAsSaid haystack.now request.now) (IsPlace r haystack.now request.now)
        (HeldMatches list.new
        (IsNewMatchListOf (not (nat_eq has_groups 0)) r haystack.now request.now) ⊥)
        (IsSame list.new list.old) result)
        ((result ≡ 5) × IsSame list.new list.old) }
{
    let Some(kept) = regex.take(alloc) else {
        return NO_HANDLE;
    };
    let answer = kept.begin_matches(alloc, haystack, *request, has_groups != 0, list);
    *regex = Handle::of(kept);
    answer
}

/// Writes the groups of the next match of a list, as many as there is room for. `NO_HANDLE` where the handle holds no such list.
#[unsafe(no_mangle)]
pub extern "C" fn fancy_regex_next(alloc: Global, list: &mut Handle, groups: &mut [Span]) -> u32
    ensures { HeldMatches list.old
        (λ l. HeldMatches list.new (λ m. IsNextMatch l m groups.old groups.new result) ⊥)
        ((result ≡ 5) × IsSame list.new list.old × (groups.new ≡ groups.old)) }
{
    let Some(mut kept) = list.take(alloc) else {
        return NO_HANDLE;
    };
    let answer = kept.next_match(groups);
    *list = Handle::of(kept);
    answer
}

/// A list of tokens.
#[derive(Drop)]
pub struct TokenList {
    set: Arc<RegexSet, Global>,
    haystack: Owned,
    request: Request,
    tokens: Vec<Member>,
    progress: Progress,
}

impl TokenList {
    ghost use Rattle.fancy_regex_c.specs.Courses.{WantsMore};
    ghost use Rattle.fancy_regex_c.specs.NextTokens.{FindsTokens, ReadiesTokens, IsNextToken};

    /// Finds more tokens. Where memory is refused the list stays as it is, and finds them when it is asked again.
    fn find_more(&mut self) -> u32
        ensures answer { (result ≡ 0) ⊎ (result ≡ 4) }
        ensures found { result ≡ 0 → FindsTokens self.old self.new }
        ensures same { result ≡ 4 → self.new ≡ record self.old { tokens = self.new.tokens } }
    {
        let nothing = Member::nothing_at(0);
        let Ok(()) = self.tokens.resize(self.progress.room, nothing) else {
            return NO_MEMORY;
        };
        let mut count = 0;
        let mut request = self.request;
        let haystack = self.haystack.lend();
        let last = tokens_in(
            &self.set,
            haystack,
            &mut request,
            &mut self.tokens,
            &mut count,
        );
        if last == NO_MEMORY {
            return NO_MEMORY;
        }
        self.request = request;
        self.progress.found(count, last);
        DONE
    }

    /// Has a token ready, if there is one.
    fn make_ready(&mut self) -> u32
        ensures answer { (result ≡ 0) ⊎ (result ≡ 4) }
        ensures ready { result ≡ 0 → ReadiesTokens self.old self.new }
        ensures wants { result ≡ 4 → WantsMore self.old.progress }
        ensures same { result ≡ 4 → self.new ≡ record self.old { tokens = self.new.tokens } }
    {
        if self.progress.wants_more() {
            self.find_more()
        } else {
            DONE
        }
    }

    /// Writes the next token. Where there is none at a place, that place is written.
    fn next(&mut self, token: &mut Member) -> u32
        ensures { IsNextToken self.old self.new token.old token.new result }
    {
        let answer = self.make_ready();
        if answer != DONE {
            return answer;
        }
        if let Some(index) = self.progress.take() {
            if let Some(found) = self.tokens.get(index) {
                *token = *found;
            }
            return DONE;
        }
        let answer = self.progress.end();
        if answer == UNMATCHED {
            *token = Member::nothing_at(self.request.start);
        }
        answer
    }
}

fn tokens_of(
    alloc: Global,
    set: &Arc<RegexSet, Global>,
    haystack: &[u8],
    request: Request,
) -> Result<TokenList, u32>
    ensures list { IfOk result (λ l. IsNewTokenListOf set.now.value haystack.now request l) }
    ensures said { IfOk result (λ _. IsAsSaid haystack.now request) }
    ensures place { IfOk result (λ _. IsPlaceOfSet set.now.value haystack.now request) }
    ensures refused { IfErr result (λ answer.
        IsUnread (IsAsSaid haystack.now request) (IsPlaceOfSet set.now.value haystack.now request) answer
        ⊎ (answer ≡ 4)) }
{
    let haystack = Owned::new(alloc, haystack, request)?;
    haystack.lend().input_in_set(set, request)?;
    let Ok(set) = set.clone() else {
        return Err(NO_MEMORY);
    };
    Ok(TokenList {
        set,
        haystack,
        request,
        tokens: Vec::new(alloc),
        progress: Progress::new(),
    })
}

/// Begins a list of tokens. It copies the haystack. The answers are those of [`fancy_regex_matches_new`]; `NO_HANDLE` where the handle holds
/// no set.
#[unsafe(no_mangle)]
pub extern "C" fn fancy_regex_tokens_new(
    alloc: Global,
    set: &mut Handle,
    haystack: &[u8],
    request: &Request,
    list: &mut Handle,
) -> u32
    ensures kept { IsSame set.new set.old }
    ensures answer { HeldSet set.old
        (λ s. Begins (IsAsSaid haystack.now request.now) (IsPlaceOfSet s haystack.now request.now)
        (HeldTokens list.new (IsNewTokenListOf s haystack.now request.now) ⊥) (IsSame list.new list.old) result)
        ((result ≡ 5) × IsSame list.new list.old) }
{
    let Some(kept) = set.take(alloc) else {
        return NO_HANDLE;
    };
    let answer = kept.begin_tokens(alloc, haystack, *request, list);
    *set = Handle::of(kept);
    answer
}

/// Writes the next token of a list. `NO_HANDLE` where the handle holds no such list.
#[unsafe(no_mangle)]
pub extern "C" fn fancy_regex_next_token(
    alloc: Global,
    list: &mut Handle,
    token: &mut Member,
) -> u32
    ensures { HeldTokens list.old
        (λ l. HeldTokens list.new (λ m. IsNextToken l m token.old token.new result) ⊥)
        ((result ≡ 5) × IsSame list.new list.old × (token.new ≡ token.old)) }
{
    let Some(mut kept) = list.take(alloc) else {
        return NO_HANDLE;
    };
    let answer = kept.next_token(token);
    *list = Handle::of(kept);
    answer
}
