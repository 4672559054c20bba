//! Laws of the definitions: each contract here states one, and nothing is computed.

ghost use Rattle.fancy_meaning.specs.Laws.{StarIs, OutcomesStayWithin, AcceptanceIsDecided, NoneIsNone, AnswerIsLeastAndFirst, AnswerIsLeastAndLongest, GroupsLieWithin, StartsAreKeptForward, NoneIsKeptInside, CharactersEndWhereTheyReach};
ghost use Rattle.fancy_meaning.specs.Examples.{WorkedExamples};

/// A star is one more turn and then the star, or leaving, where a turn that consumes nothing fails.
pub fn star_is()
    ensures { StarIs }
{}

/// A pattern never steps back: what it reaches stands at or after its start, and by the limit.
pub fn outcomes_stay_within()
    ensures { OutcomesStayWithin }
{}

/// The test of acceptance tells exactly the accepted outcomes.
pub fn acceptance_is_decided()
    ensures { AcceptanceIsDecided }
{}

/// A search finds nothing exactly where no position has an accepted outcome.
pub fn none_is_none()
    ensures { NoneIsNone }
{}

/// What a search finds is the first accepted outcome of the least position that has one, where the longest is not
/// asked for.
pub fn answer_is_least_and_first()
    ensures { AnswerIsLeastAndFirst }
{}

/// Where the longest match is asked for, what a search finds is the first of those accepted outcomes of the least
/// position that end last.
pub fn answer_is_least_and_longest()
    ensures { AnswerIsLeastAndLongest }
{}

/// What a search finds lies within its range, and its groups within the haystack, of text on character boundaries.
pub fn groups_lie_within()
    ensures { GroupsLieWithin }
{}

/// Where no `\K` stands in look-around, a match never starts before the position where it was tried, nor after its
/// own end.
pub fn starts_are_kept_forward()
    ensures { StartsAreKeptForward }
{}

/// A pattern without `\K` has none in look-around.
pub fn none_is_kept_inside()
    ensures { NoneIsKeptInside }
{}

/// A character ends at a place exactly where it starts somewhere and its bytes reach to there.
pub fn characters_end_where_they_reach()
    ensures { CharactersEndWhereTheyReach }
{}

/// The definitions give the answers of some small searches that are known from elsewhere.
pub fn worked_examples()
    ensures { WorkedExamples }
{}
