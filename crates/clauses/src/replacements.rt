//! Texts with their matches replaced, and what replaces them.
//!
//! `R.fixed` is the one text that a replacer has for all matches, if it has one, `R.appends` what a call of it may append, and
//! `R.refuses` what a call may refuse with. `replacing` puts these together with the regex, the text and the limit, which takes all
//! matches where it is 0.

ghost use Rattle.std.specs.Cow.{IsBorrowedStr, cow_str_bytes};
ghost use Rattle.std.specs.Prelude.{◌↔◌, ◌≡◌, ◌⊎◌, Err, IfErr, IfOk, None, Ok, OnErr, OnOk, [], chars, false, option_map, string_bytes, true};
ghost use Rattle.fancy_regex.specs.Appended.{AddsSome};
ghost use Rattle.fancy_regex.specs.Escapes.{escape_of, has_special};
ghost use Rattle.fancy_regex.specs.GroupTexts.{bytes_of_str, seen_in, seen_in_str};
ghost use Rattle.fancy_regex.specs.Regexes.{options_in};
ghost use Rattle.fancy_regex.specs.Replacing.{Fails, FailsBy, Replaces, ReplacesBy, all_matches, replacing, with_template, with_text};
ghost use Rattle.fancy_regex.specs.Searching.{Suits};
ghost use Rattle.fancy_regex.specs.declared.Error.TheVariants.{Memory};

use fancy_regex::{
    Captures, NoExpand, Regex, ReplaceFn, Replacer, ReplacerRef, Result, escape as escaped,
};
use std::alloc::Global;
use std::borrow::CowStr;

/// The text with its first match replaced.
pub fn replace<'t, R: Replacer + Drop>(
    regex: &Regex,
    text: &'t str,
    replacer: R,
) -> Result<CowStr<'t, Global>>
    requires suits { Suits (options_in regex.now) true text.now }
    requires callable { R.callable replacer }
    ensures borrowed { IfOk result (λ t. IsBorrowedStr t ↔ (all_matches regex.now text.now ≡ [])) }
    ensures kept { IfOk result (λ t. IsBorrowedStr t → cow_str_bytes t ≡ text.now) }
    ensures text { ReplacesBy
        (replacing R.fixed R.appends R.refuses regex.now text.now 1) replacer result }
    ensures refused { FailsBy
        (replacing R.fixed R.appends R.refuses regex.now text.now 1) replacer result }
{
    regex.replace(text, replacer)
}

/// The text with all its matches replaced.
pub fn replace_all<'t, R: Replacer + Drop>(
    regex: &Regex,
    text: &'t str,
    replacer: R,
) -> Result<CowStr<'t, Global>>
    requires suits { Suits (options_in regex.now) true text.now }
    requires callable { R.callable replacer }
    ensures borrowed { IfOk result (λ t. IsBorrowedStr t ↔ (all_matches regex.now text.now ≡ [])) }
    ensures kept { IfOk result (λ t. IsBorrowedStr t → cow_str_bytes t ≡ text.now) }
    ensures text { ReplacesBy
        (replacing R.fixed R.appends R.refuses regex.now text.now 0) replacer result }
    ensures refused { FailsBy
        (replacing R.fixed R.appends R.refuses regex.now text.now 0) replacer result }
{
    regex.replace_all(text, replacer)
}

/// The text with its first matches replaced, so many as the limit says.
pub fn replacen<'t, R: Replacer + Drop>(
    regex: &Regex,
    text: &'t str,
    limit: usize,
    replacer: R,
) -> Result<CowStr<'t, Global>>
    requires suits { Suits (options_in regex.now) true text.now }
    requires callable { R.callable replacer }
    ensures borrowed { IfOk result (λ t. IsBorrowedStr t ↔ (all_matches regex.now text.now ≡ [])) }
    ensures kept { IfOk result (λ t. IsBorrowedStr t → cow_str_bytes t ≡ text.now) }
    ensures text { ReplacesBy
        (replacing R.fixed R.appends R.refuses regex.now text.now limit) replacer result }
    ensures refused { FailsBy
        (replacing R.fixed R.appends R.refuses regex.now text.now limit) replacer result }
{
    regex.replacen(text, limit, replacer)
}

/// The same.
pub fn try_replacen<'t, R: Replacer + Drop>(
    regex: &Regex,
    text: &'t str,
    limit: usize,
    replacer: R,
) -> Result<CowStr<'t, Global>>
    requires suits { Suits (options_in regex.now) true text.now }
    requires callable { R.callable replacer }
    ensures borrowed { IfOk result (λ t. IsBorrowedStr t ↔ (all_matches regex.now text.now ≡ [])) }
    ensures kept { IfOk result (λ t. IsBorrowedStr t → cow_str_bytes t ≡ text.now) }
    ensures text { ReplacesBy
        (replacing R.fixed R.appends R.refuses regex.now text.now limit) replacer result }
    ensures refused { FailsBy
        (replacing R.fixed R.appends R.refuses regex.now text.now limit) replacer result }
{
    regex.try_replacen(text, limit, replacer)
}

/// The same by a replacer that is lent. It may be called again, also after a refusal.
pub fn try_replacen_by<'t, R: Replacer>(
    regex: &Regex,
    text: &'t str,
    limit: usize,
    replacer: &mut R,
) -> Result<CowStr<'t, Global>>
    requires suits { Suits (options_in regex.now) true text.now }
    requires callable { R.callable replacer.old }
    ensures borrowed { IfOk result (λ t. IsBorrowedStr t ↔ (all_matches regex.now text.now ≡ [])) }
    ensures kept { IfOk result (λ t. IsBorrowedStr t → cow_str_bytes t ≡ text.now) }
    ensures text { Replaces (replacing R.fixed R.appends R.refuses regex.now text.now limit)
        replacer.old replacer.new result }
    ensures refused { Fails (replacing R.fixed R.appends R.refuses regex.now text.now limit)
        replacer.old replacer.new result }
    ensures again { R.callable replacer.new }
{
    regex.try_replacen_by(text, limit, replacer)
}

/// One call of a replacer. A refusal leaves the text as it was.
pub fn replace_append<R: Replacer>(
    replacer: &mut R,
    captures: &Captures<'_, &str>,
    dst: &mut String,
) -> Result<()>
    requires { R.callable replacer.old }
    ensures ok { OnOk result
        (AddsSome dst.old dst.new
        (λ t. R.appends replacer.old (seen_in_str captures.now) t replacer.new)) }
    ensures kept { OnErr result (string_bytes dst.new ≡ string_bytes dst.old) }
    ensures refused { IfErr result
        (λ e. R.refuses replacer.old (seen_in_str captures.now) e replacer.new) }
    ensures again { R.callable replacer.new }
{
    replacer.replace_append(captures, dst)
}

/// The one text that a replacer has for all matches.
pub fn fixed_text<R: Replacer>(replacer: &R) -> Option<&str>
    ensures { option_map (λ t. t.now) result ≡ R.fixed replacer.now }
{
    replacer.fixed_text()
}

/// The same text, borrowed.
pub fn no_expansion<R: Replacer>(replacer: &mut R) -> Option<CowStr<'_, Global>>
    ensures { option_map cow_str_bytes result ≡ R.fixed replacer.old }
{
    replacer.no_expansion()
}

/// A replacer that lends this one.
pub fn by_ref<R: Replacer>(replacer: &mut R) -> ReplacerRef<'_, R>
    ensures same { result.0.ghost_name ≡ replacer.entry.ghost_name }
    ensures value { result.0.now ≡ replacer.old }
{
    replacer.by_ref()
}

/// A `&str` is a template; without `$` it is one text for all matches.
pub fn by_template<'t>(
    regex: &Regex,
    text: &'t str,
    limit: usize,
    template: &str,
) -> Result<CowStr<'t, Global>>
    requires suits { Suits (options_in regex.now) true text.now }
    ensures text { ReplacesBy
        (with_template (λ s. s.now) regex.now text.now limit) template.entry result }
    ensures refused { FailsBy
        (with_template (λ s. s.now) regex.now text.now limit) template.entry result }
{
    regex.replacen(text, limit, template)
}

/// A `&String` is one, too.
pub fn by_string_template<'t>(
    regex: &Regex,
    text: &'t str,
    limit: usize,
    template: &String,
) -> Result<CowStr<'t, Global>>
    requires suits { Suits (options_in regex.now) true text.now }
    ensures text { ReplacesBy
        (with_template (λ s. string_bytes s.now) regex.now text.now limit) template.entry result }
    ensures refused { FailsBy
        (with_template (λ s. string_bytes s.now) regex.now text.now limit) template.entry result }
{
    regex.replacen(text, limit, template)
}

/// And a `String`.
pub fn by_owned_template<'t>(
    regex: &Regex,
    text: &'t str,
    limit: usize,
    template: String,
) -> Result<CowStr<'t, Global>>
    requires suits { Suits (options_in regex.now) true text.now }
    ensures text { ReplacesBy
        (with_template (λ s. string_bytes s) regex.now text.now limit) template result }
    ensures refused { FailsBy
        (with_template (λ s. string_bytes s) regex.now text.now limit) template result }
{
    regex.replacen(text, limit, template)
}

/// And a `CowStr`.
pub fn by_cow_template<'t>(
    regex: &Regex,
    text: &'t str,
    limit: usize,
    template: CowStr<'_, Global>,
) -> Result<CowStr<'t, Global>>
    requires suits { Suits (options_in regex.now) true text.now }
    ensures text { ReplacesBy
        (with_template (λ s. cow_str_bytes s) regex.now text.now limit) template.entry result }
    ensures refused { FailsBy
        (with_template (λ s. cow_str_bytes s) regex.now text.now limit) template.entry result }
{
    regex.replacen(text, limit, template)
}

/// And a `&CowStr`.
pub fn by_lent_cow_template<'t>(
    regex: &Regex,
    text: &'t str,
    limit: usize,
    template: &CowStr<'_, Global>,
) -> Result<CowStr<'t, Global>>
    requires suits { Suits (options_in regex.now) true text.now }
    ensures text { ReplacesBy
        (with_template (λ s. cow_str_bytes s.now) regex.now text.now limit) template.entry result }
    ensures refused { FailsBy
        (with_template (λ s. cow_str_bytes s.now) regex.now text.now limit) template.entry result }
{
    regex.replacen(text, limit, template)
}

/// `NoExpand` is a text that is taken as it is.
pub fn by_literal<'t>(
    regex: &Regex,
    text: &'t str,
    limit: usize,
    literal: NoExpand<'_>,
) -> Result<CowStr<'t, Global>>
    requires suits { Suits (options_in regex.now) true text.now }
    ensures text { ReplacesBy
        (with_text (λ s. s.0.now) regex.now text.now limit) literal.entry result }
    ensures refused { FailsBy
        (with_text (λ s. s.0.now) regex.now text.now limit) literal.entry result }
{
    regex.replacen(text, limit, literal)
}

/// A function as a replacer, which may always be called.
pub fn function<F: FnMut(&Captures<'_, &str>) -> Result<String>>(function: F) -> ReplaceFn<F>
    requires { F.IsAlwaysCallable function }
    ensures { result.0 ≡ function }
{
    ReplaceFn::new(function)
}

/// A call of it appends what the function answers, and refuses as the function does or for want of memory.
pub fn call_function<F: FnMut(&Captures<'_, &str>) -> Result<String>>(
    replacer: &mut ReplaceFn<F>,
    captures: &Captures<'_, &str>,
    dst: &mut String,
) -> Result<()>
    requires { F.IsAlwaysCallable replacer.old.0 }
    ensures ok { OnOk result (AddsSome dst.old dst.new (λ t. (seen : _) × (answer : _)
        × (seen_in bytes_of_str seen.now ≡ seen_in_str captures.now)
        × F.step replacer.old.0 seen (Ok answer) replacer.new.0 × (t ≡ string_bytes answer))) }
    ensures kept { OnErr result (string_bytes dst.new ≡ string_bytes dst.old) }
    ensures refused { IfErr result
        (λ e. (seen : _) × (seen_in bytes_of_str seen.now ≡ seen_in_str captures.now)
        × (F.step replacer.old.0 seen (Err e) replacer.new.0
        ⊎ ((e ≡ Memory) × (answer : _) × F.step replacer.old.0 seen (Ok answer) replacer.new.0))) }
    ensures again { F.IsAlwaysCallable replacer.new.0 }
{
    replacer.replace_append(captures, dst)
}

/// A function has no one text for all matches.
pub fn fixed_text_of_function<F: FnMut(&Captures<'_, &str>) -> Result<String>>(
    replacer: &ReplaceFn<F>,
) -> Option<&str>
    ensures { result ≡ None }
{
    replacer.fixed_text()
}

/// A pattern that means a text as it is.
pub fn escape(alloc: Global, text: &str) -> Result<CowStr<'_, Global>>
    ensures value { IfOk result (λ r. cow_str_bytes r ≡ escape_of text.now) }
    ensures borrowed { IfOk result (λ r. IsBorrowedStr r ↔ (has_special (chars text.now) ≡ false)) }
    ensures refused { IfErr result (λ e. e ≡ Memory) }
{
    escaped(alloc, text)
}
