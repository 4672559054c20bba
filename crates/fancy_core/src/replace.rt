//! Replacing matches.

ghost use Rattle.std.specs.Prelude.{◌≡◌, ◌↔◌, [], true, None, IfOk, IfErr};
ghost use Rattle.std.specs.Cow.{cow_str_bytes, IsBorrowedStr};
ghost use Rattle.fancy_core.specs.Regexes.{options_in};
ghost use Rattle.fancy_core.specs.Replacing.{replacing, Replaces, ReplacesBy, Fails, FailsBy, IsRefusedAfterSome, AllowsReplacing, all_matches, first_matches, text_with_each};
ghost use Rattle.fancy_search.specs.Searching.{Suits};

use crate::regex::Regex;
use crate::replacer::Replacer;
use crate::rewriting::Rewriting;
use fancy_tree::error::{Error, Result};
use std::alloc::Global;
use std::borrow::CowStr;

impl Regex {
    /// The text with the first match replaced.
    ///
    /// ```text
    /// // (?P<first>\w+)\s+(?P<second>\w+)
    /// regex.replace("deep fried", "${first}_$second")  // "deep_fried"
    /// regex.replace("deep fried", "$1a")               // "": no group has the name 1a, and `${1}a` is meant
    /// ```
    pub fn replace<'t, R: Replacer + Drop>(
        &self,
        text: &'t str,
        replacer: R,
    ) -> Result<CowStr<'t, Global>>
        requires suits { Suits (options_in self.now) true text.now }
        requires callable { R.callable replacer }
        ensures borrowed { IfOk result (λ t.
            IsBorrowedStr t ↔ (all_matches self.now text.now ≡ [])) }
        ensures kept { IfOk result (λ t. IsBorrowedStr t → cow_str_bytes t ≡ text.now) }
        ensures text { ReplacesBy
            (replacing R.fixed R.appends R.refuses self.now text.now 1) replacer result }
        ensures refused { FailsBy
            (replacing R.fixed R.appends R.refuses self.now text.now 1) replacer result }
    {
        self.try_replacen(text, 1, replacer)
    }

    /// The text with all matches replaced.
    ///
    /// ```text
    /// Regex::new(alloc, "aa")?.replace_all("aaaa aaa aa a", "xx")  // "xxxx xxa xx a"
    /// ```
    pub fn replace_all<'t, R: Replacer + Drop>(
        &self,
        text: &'t str,
        replacer: R,
    ) -> Result<CowStr<'t, Global>>
        requires suits { Suits (options_in self.now) true text.now }
        requires callable { R.callable replacer }
        ensures borrowed { IfOk result (λ t.
            IsBorrowedStr t ↔ (all_matches self.now text.now ≡ [])) }
        ensures kept { IfOk result (λ t. IsBorrowedStr t → cow_str_bytes t ≡ text.now) }
        ensures text { ReplacesBy
            (replacing R.fixed R.appends R.refuses self.now text.now 0) replacer result }
        ensures refused { FailsBy
            (replacing R.fixed R.appends R.refuses self.now text.now 0) replacer result }
    {
        self.try_replacen(text, 0, replacer)
    }

    /// The text with the first `limit` matches replaced, and with all of them where `limit` is 0.
    ///
    /// ```text
    /// Regex::new(alloc, "bla")?.replacen("blablabla", 2, "foo")  // "foofoobla"
    /// ```
    pub fn replacen<'t, R: Replacer + Drop>(
        &self,
        text: &'t str,
        limit: usize,
        replacer: R,
    ) -> Result<CowStr<'t, Global>>
        requires suits { Suits (options_in self.now) true text.now }
        requires callable { R.callable replacer }
        ensures borrowed { IfOk result (λ t.
            IsBorrowedStr t ↔ (all_matches self.now text.now ≡ [])) }
        ensures kept { IfOk result (λ t. IsBorrowedStr t → cow_str_bytes t ≡ text.now) }
        ensures text { ReplacesBy
            (replacing R.fixed R.appends R.refuses self.now text.now limit) replacer result }
        ensures refused { FailsBy
            (replacing R.fixed R.appends R.refuses self.now text.now limit) replacer result }
    {
        self.try_replacen(text, limit, replacer)
    }

    /// The text with the first `limit` matches replaced, and with all of them where `limit` is 0, as
    /// [`Regex::replacen`] gives it.
    ///
    /// Where nothing matches it is the text itself, borrowed. The replacer is asked for its one text for all
    /// matches before the first search; where it has none, it is called for each match in order. No search and no call
    /// is made once the limit is reached. The first error of a search or of a call of the replacer is the answer.
    ///
    /// ```text
    /// let regex = Regex::new(alloc, "a")?;
    /// regex.try_replacen("aaa", 1, "x")    // "xaa"
    /// regex.try_replacen("aaa", 0, "x")    // "xxx"
    /// regex.try_replacen("bbb", 0, "x")    // "bbb", borrowed
    /// ```
    pub fn try_replacen<'t, R: Replacer + Drop>(
        &self,
        text: &'t str,
        limit: usize,
        mut replacer: R,
    ) -> Result<CowStr<'t, Global>>
        requires suits { Suits (options_in self.now) true text.now }
        requires callable { R.callable replacer }
        ensures borrowed { IfOk result (λ t.
            IsBorrowedStr t ↔ (all_matches self.now text.now ≡ [])) }
        ensures kept { IfOk result (λ t. IsBorrowedStr t → cow_str_bytes t ≡ text.now) }
        ensures text { ReplacesBy
            (replacing R.fixed R.appends R.refuses self.now text.now limit) replacer result }
        ensures refused { FailsBy
            (replacing R.fixed R.appends R.refuses self.now text.now limit) replacer result }
    {
        self.try_replacen_by(text, limit, &mut replacer)
    }

    /// The text with the first `limit` matches replaced, and with all of them where `limit` is 0, by a replacer that is
    /// lent.
    ///
    /// It gives what [`Regex::try_replacen`] gives, and leaves the replacer in the state that its last call left, so that it can
    /// go on from there. One with one text for all matches is not called, and stays as it was.
    ///
    /// It is refused where a search is, where memory runs out, and where a call of the replacer refuses. Such a call
    /// leaves the replacer in the state that it says; else it is in the state that the calls for the matches before left.
    /// It may be called again in each case.
    ///
    /// ```text
    /// // a replacer that counts its calls, on a|b
    /// regex.try_replacen_by("xab", 0, &mut count)  // "x12"
    /// regex.try_replacen_by("bxa", 1, &mut count)  // "3xa"
    /// ```
    pub fn try_replacen_by<'t, R: Replacer>(
        &self,
        text: &'t str,
        limit: usize,
        replacer: &mut R,
    ) -> Result<CowStr<'t, Global>>
        requires suits { Suits (options_in self.now) true text.now }
        requires callable { R.callable replacer.old }
        ensures borrowed { IfOk result (λ t.
            IsBorrowedStr t ↔ (all_matches self.now text.now ≡ [])) }
        ensures kept { IfOk result (λ t. IsBorrowedStr t → cow_str_bytes t ≡ text.now) }
        ensures text { Replaces (replacing R.fixed R.appends R.refuses self.now text.now limit)
            replacer.old replacer.new result }
        ensures refused { Fails (replacing R.fixed R.appends R.refuses self.now text.now limit)
            replacer.old replacer.new result }
        ensures again { R.callable replacer.new }
    {
        if let Some(fixed) = replacer.fixed_text() {
            return self.fill(text, limit, fixed);
        }
        self.rewrite(text, limit, replacer)
    }

    /// The text with this one in the place of the first matches. No groups are collected.
    fn fill<'t>(&self, text: &'t str, limit: usize, fixed: &str) -> Result<CowStr<'t, Global>>
        requires suits { Suits (options_in self.now) true text.now }
        ensures borrowed { IfOk result (λ t.
            IsBorrowedStr t ↔ (all_matches self.now text.now ≡ [])) }
        ensures kept { IfOk result (λ t. IsBorrowedStr t → cow_str_bytes t ≡ text.now) }
        ensures text { IfOk result (λ t. cow_str_bytes t
            ≡ text_with_each text.now (first_matches self.now text.now limit) fixed.now) }
        ensures allowed { IfOk result (λ _. AllowsReplacing self.now text.now limit) }
        ensures refused { IfErr result (λ e. IsRefusedAfterSome self.now text.now limit e) }
    {
        let mut rewriting = Rewriting::new(self, text, limit, false);
        'matches: while let Some(_) = rewriting.next_match()? {
            rewriting.push(fixed)?;
        }
        rewriting.finish()
    }

    /// The text with the first matches replaced by what calls of the replacer append.
    fn rewrite<'t, R: Replacer>(
        &self,
        text: &'t str,
        limit: usize,
        replacer: &mut R,
    ) -> Result<CowStr<'t, Global>>
        requires suits { Suits (options_in self.now) true text.now }
        requires callable { R.callable replacer.old }
        ensures borrowed { IfOk result (λ t.
            IsBorrowedStr t ↔ (all_matches self.now text.now ≡ [])) }
        ensures kept { IfOk result (λ t. IsBorrowedStr t → cow_str_bytes t ≡ text.now) }
        ensures text { Replaces (replacing (λ _. None) R.appends R.refuses self.now text.now limit)
            replacer.old replacer.new result }
        ensures refused { Fails (replacing (λ _. None) R.appends R.refuses self.now text.now limit)
            replacer.old replacer.new result }
        ensures again { R.callable replacer.new }
    {
        let mut rewriting = Rewriting::new(self, text, limit, true);
        'matches: while let Some(item) = rewriting.next_match()? {
            rewriting.push_answer(item, replacer)?;
        }
        rewriting.finish()
    }
}
