//! Laws of the byte sets of a pattern: each contract here states one, and nothing is computed.

ghost use Rattle.fancy_meaning.specs.ByteLaws.{OutcomesBegin, AttemptsBegin, MatchesBegin, OutcomesRequire, AttemptsRequire, SkipsLoseNothing, LackingIsNone, LiteralsRequire, SetsRequire};

/// Each outcome stands where its pattern began, which must be nullable, or one of the first bytes is there, before the limit of what may
/// be consumed.
pub fn outcomes_begin()
    ensures { OutcomesBegin }
{}

/// A pattern that is not nullable has an accepted outcome only where one of its first bytes stands, within the range.
pub fn attempts_begin()
    ensures { AttemptsBegin }
{}

/// Where the first bytes tell, each match starts at one of them that stands within the range, and where it was tried.
pub fn matches_begin()
    ensures { MatchesBegin }
{}

/// Where a pattern has an outcome, each byte that it requires stands in the haystack.
pub fn outcomes_require()
    ensures { OutcomesRequire }
{}

/// Where an attempt has an accepted outcome, each required byte stands in the haystack.
pub fn attempts_require()
    ensures { AttemptsRequire }
{}

/// Positions where no first byte stands within the range may be passed over.
pub fn skips_lose_nothing()
    ensures { SkipsLoseNothing }
{}

/// Where a required byte stands nowhere, nothing is found.
pub fn lacking_is_none()
    ensures { LackingIsNone }
{}

/// A literal in any case, whose characters the edges of a set give, requires a byte exactly where each of its forms has it.
pub fn literals_require()
    ensures { LiteralsRequire }
{}

/// Another set requires a byte exactly where it has one member alone, and that has the byte.
pub fn sets_require()
    ensures { SetsRequire }
{}
