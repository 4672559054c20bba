//! A text while its matches are replaced, one after another.

ghost use Rattle.std.specs.Prelude.{◌≡◌, ◌≤◌, ◌↔◌, ◌⊎◌, ◌++◌, ◌∷◌, [], None, true, false, length, string_bytes, IsTrue, IfOk, IfErr, IfSome, OnOk, MatchBool, MatchOption, List, ℕ};
ghost use Rattle.std.specs.Borrow.{Bor};
ghost use Rattle.std.specs.Cow.{cow_str_bytes, IsBorrowedStr};
ghost use Rattle.fancy_input.specs.Places.{is_boundary};
ghost use Rattle.fancy_input.specs.Requests.{whole};
ghost use Rattle.fancy_template.specs.Appended.{AddsSome, AddsText};
ghost use Rattle.fancy_core.specs.GroupTexts.{bytes_of_str, seen_in};
ghost use Rattle.fancy_search.specs.FoundItems.{item_in, HasGroups};
ghost use Rattle.fancy_core.specs.ItemLimits.{limit_of, is_reached, one_fewer};
ghost use Rattle.fancy_search.specs.MatchList.{start_of, stop_of};
ghost use Rattle.fancy_core.specs.Regexes.{options_in};
ghost use Rattle.fancy_core.specs.Replacing.{first_matches, AllowsReplacing};
ghost use Rattle.fancy_search.specs.KeptTables.{Keeps};
ghost use Rattle.fancy_search.specs.Searching.{Suits};

use crate::captures::Captures;
use crate::limits::{is_reached, limit_of, one_fewer};
use crate::regex::Regex;
use crate::replacer::Replacer;
use crate::split::part;
use fancy_input::regex_input::RegexInput;
use fancy_search::cache::Cache;
use fancy_search::groups::groups_found;
use fancy_search::searcher::{FoundItem, Searcher};
use fancy_tree::error::{Error, Result};
use std::alloc::Global;
use std::borrow::CowStr;

/// A text whose matches are being replaced, from left to right.
///
/// Each match is asked for by `next_match`, which writes the part before it. What replaces the match is pushed then.
#[derive(Drop)]
pub(crate) struct Rewriting<'r, 't> {
    regex: &'r Regex,
    searcher: Searcher<&'t str>,
    cache: Cache,
    // how many matches may still be replaced
    left: Option<usize>,
    // the new text up to the end of the last match
    out: String,
    // where that match ended
    last: usize,
    // whether there was one
    found: bool,
    ghost suits: { Suits (options_in regex.now) true searcher.haystack.now },
    ghost kept: { Keeps (λ (h : Bor (List ℕ)). h.now) regex.now.program searcher cache },
    ghost inside: { last ≤ length searcher.haystack.now },
    ghost cleanly: { IsTrue (is_boundary searcher.haystack.now last) },
    ghost before: { searcher.ended ≡ false → last ≤ searcher.request.start },
    ghost of_text: { searcher.request
        ≡ record (whole searcher.haystack.now) { start = searcher.request.start } },
}

impl<'r, 't> Rewriting<'r, 't> {
    ghost use Rattle.fancy_core.specs.Rewriting.{rewriting_regex, rewriting_text, todo_of, seen_at, all_written, AllowsTodo, HoldsFirst, Stays, TakesFirst, WritesTo, RefusesSearch};

    /// A text of which nothing is replaced yet, and so many matches are to be: all of them where `limit` is 0. `groups` says whether the
    /// groups of each match are asked for.
    pub fn new(regex: &'r Regex, text: &'t str, limit: usize, groups: bool) -> Rewriting<'r, 't>
        requires suits { Suits (options_in regex.now) true text.now }
        ensures regex { rewriting_regex result ≡ regex.now }
        ensures text { rewriting_text result ≡ text.now }
        ensures todo { todo_of result ≡ first_matches regex.now text.now limit }
        ensures allowed { AllowsTodo result → AllowsReplacing regex.now text.now limit }
        ensures left { result.left ≡ limit_of limit }
        ensures out { string_bytes result.out ≡ [] }
        ensures last { result.last ≡ 0 }
        ensures found { result.found ≡ false }
        ensures asks { result.searcher.groups ≡ groups }
    {
        Rewriting {
            regex,
            searcher: Searcher::new(RegexInput::new(text), groups),
            cache: Cache::new(regex.allocator()),
            left: limit_of(limit),
            out: String::new(regex.allocator()),
            last: 0,
            found: false,
        }
    }

    /// The next match that is to be replaced, after the part before it. With none left no search is made.
    pub fn next_match(&mut self) -> Result<Option<FoundItem>>
        ensures steps { IfOk result (λ o. MatchOption o (todo_of self.old ≡ []) (λ i.
            TakesFirst self.old i self.new)) }
        ensures held { self.old.searcher.groups ≡ true
            → IfOk result (λ o. IfSome o (λ i. HoldsFirst self.old i self.new)) }
        ensures allowed { IfOk result
            (λ o. MatchOption o (AllowsTodo self.old) (λ _. AllowsTodo self.new
            → AllowsTodo self.old)) }
        ensures written { IfOk result
            (λ o. MatchOption o (self.new.out ≡ self.old.out) (λ i.
            WritesTo i.found.start self.old self.new)) }
        ensures last { IfOk result (λ o. MatchOption o (self.new.last ≡ self.old.last)
            (λ i. self.new.last ≡ stop_of (item_in self.new.cache None i))) }
        ensures left { IfOk result (λ o. IfSome o (λ _. self.new.left ≡ one_fewer self.old.left)) }
        ensures found { IfOk result
            (λ o. MatchOption o (self.new.found ≡ self.old.found) (λ _. self.new.found ≡ true)) }
        ensures regex { rewriting_regex self.new ≡ rewriting_regex self.old }
        ensures text { rewriting_text self.new ≡ rewriting_text self.old }
        ensures groups { IfOk result
            (λ o. IfSome o (λ i. HasGroups true (rewriting_text self.old) i.found self.new.cache)) }
        ensures asks { self.new.searcher.groups ≡ self.old.searcher.groups }
        ensures idle { is_reached self.old.left ≡ true
            → (self.new.searcher ≡ self.old.searcher) × (self.new.cache ≡ self.old.cache) }
        ensures refused { IfErr result (λ e. (e ≡ Error.Memory) ⊎ RefusesSearch self.old e) }
    {
        if is_reached(self.left) {
            return Ok(None);
        }
        match self
            .searcher
            .next_item(&self.regex.program, &mut self.cache)
        {
            None => Ok(None),
            Some(Ok(item)) => {
                let before = part(self.searcher.haystack(), self.last, item.found.start);
                self.out.push_str(before)?;
                self.last = item.found.end;
                self.left = one_fewer(self.left);
                self.found = true;
                Ok(Some(item))
            }
            Some(Err(error)) => Err(error),
        }
    }

    /// Writes a text in the place of the last match.
    pub fn push(&mut self, text: &str) -> Result<()>
        ensures ok { OnOk result (AddsText self.old.out text.now self.new.out) }
        ensures stays { Stays self.old self.new }
        ensures refused { IfErr result (λ e. e ≡ Error.Memory) }
    {
        self.out.push_str(text)?;
        Ok(())
    }

    /// Writes the answer of a replacer in the place of the last match, which is this one.
    pub fn push_answer<R: Replacer>(&mut self, item: FoundItem, replacer: &mut R) -> Result<()>
        requires groups { HasGroups true (rewriting_text self.old) item.found self.old.cache }
        requires callable { R.callable replacer.old }
        ensures ok { OnOk result (AddsSome self.old.out self.new.out
            (λ answer. R.appends replacer.old (seen_at self.old item) answer replacer.new)) }
        ensures again { R.callable replacer.new }
        ensures stays { Stays self.old self.new }
        ensures refused { IfErr result
            (λ e. ((e ≡ Error.Memory) × (replacer.new ≡ replacer.old))
            ⊎ R.refuses replacer.old (seen_at self.old item) e replacer.new) }
    {
        let captures = self.captures_at(item)?;
        replacer.replace_append(&captures, &mut self.out)
    }

    /// The new text with the rest after the last match. Where nothing matched it is the text itself, borrowed.
    pub fn finish(self) -> Result<CowStr<'t, Global>>
        ensures value { IfOk result (λ t. MatchBool self.entry.found
            (cow_str_bytes t ≡ all_written self.entry)
            (cow_str_bytes t ≡ rewriting_text self.entry)) }
        ensures borrowed { IfOk result (λ t. IsBorrowedStr t ↔ (self.entry.found ≡ false)) }
        ensures refused { IfErr result (λ e. e ≡ Error.Memory) }
    {
        let text = self.searcher.haystack();
        if !self.found {
            return Ok(CowStr::Borrowed(text));
        }
        let rest = part(text, self.last, text.len());
        let Rewriting {
            regex: _,
            searcher: _,
            cache: _,
            left: _,
            mut out,
            last: _,
            found: _,
        } = self;
        out.push_str(rest)?;
        Ok(CowStr::Owned(out))
    }

    /// The groups of a match, which the search left in the cache.
    fn captures_at(&self, item: FoundItem) -> Result<Captures<'r, &'t str>>
        requires groups { HasGroups true (rewriting_text self.now) item.found self.now.cache }
        ensures seen { IfOk result (λ c. seen_in bytes_of_str c ≡ seen_at self.now item) }
        ensures refused { IfErr result (λ e. e ≡ Error.Memory) }
    {
        let regex = self.regex;
        let groups = groups_found(regex.allocator(), &regex.program, item.found, &self.cache)?;
        Ok(Captures::new(regex, self.searcher.haystack(), groups))
    }
}
