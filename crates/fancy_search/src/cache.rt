//! What searches work in, by whichever engine.

ghost use Rattle.std.specs.Prelude.{◌≡◌, ℕ, List, [], None, Some, option_map, IfOk, IfErr, IfSome, true, slice_index_or};
ghost use Rattle.fancy_code.specs.declared.code.Code.{Code};
ghost use Rattle.fancy_input.specs.Work.{steps_of, returns_of, units_of};

use crate::read_past::ReadPast;
use fancy_bytes::lacking::KnownBytes;
use fancy_input::span::Span;
use fancy_input::work::Work;
use fancy_machine::search as machine;
use fancy_runner::notes::{KeptTable, Notes};
use fancy_runner::patience::Patience;
use fancy_runner::search as runner;
use fancy_states::cells::Cells;
use std::alloc::{AllocError, Global};

/// So many bytes past the end of its match a search may read, and it is not noted how far it read.
const NEAR: usize = 8;

/// For how many bytes that are read twice a byte makes up that is passed over.
const PASSED: usize = 8;

/// Steps lead the runner no more once so many more bytes were read twice than were made up for.
const MOST_IN_VAIN: usize = 4096;

/// Which engine served a search.
#[derive(Clone, Copy, PartialEq, Eq)]
pub enum Engine {
    /// The memoised runner, which serves easy patterns.
    Runner,
    /// The backtracking machine, which serves the others.
    Machine,
    /// The automaton, or the reading of straight code, where the code of an easy pattern ends no group. A pattern may have groups
    /// still, so many with the whole match, none of which takes part in a match.
    WithoutGroups(usize),
    /// The automaton, for a search whose groups were not asked: it holds none.
    Unasked,
}

/// What a search takes over from those before, of one list or from one position to the next, which left it in what they worked in.
#[derive(Clone, Copy, PartialEq, Eq)]
pub enum Kept {
    /// Nothing: it is a search alone, or the first one.
    Nothing,
    /// The runner's table, if the runner left one. It serves the next search too.
    Runner(Option<KeptTable>),
    /// Nothing. The runner serves for so long, and then the automaton.
    Begun(Patience),
    /// The steps that the automaton remembers.
    Steps,
    /// What the machine read of the line ends that close the haystack.
    Lines,
}

impl Kept {
    ghost use Rattle.fancy_search.specs.KeptTables.{is_steps, table_kept};

    /// The table, if one is kept.
    pub(crate) fn table(self) -> Option<KeptTable>
        ensures { result ≡ table_kept self }
    {
        match self {
            Kept::Runner(table) => table,
            _ => None,
        }
    }

    /// Whether the automaton may go on with what is kept.
    #[inline(always)]
    pub(crate) fn may_be_followed(self) -> bool
        ensures { result ≡ true → table_kept self ≡ None }
    {
        match self {
            Kept::Nothing | Kept::Begun(_) | Kept::Steps => true,
            Kept::Runner(_) | Kept::Lines => false,
        }
    }

    /// Whether steps are kept.
    pub(crate) fn is_steps(self) -> bool
        ensures { result ≡ is_steps self }
    {
        matches!(self, Kept::Steps)
    }

    /// Whether it is kept what the machine read.
    pub(crate) fn is_lines(self) -> bool
        ensures { result ≡ true → self ≡ Kept.Lines }
    {
        matches!(self, Kept::Lines)
    }
}

/// The steps that the automaton remembers of some code, and how far the searches by it read on.
#[derive(Drop)]
pub struct RememberedSteps {
    pub(crate) cells: Cells,
    read: ReadPast,
    /// How many bytes were read twice, where these steps lead the runner, that none passed over made up for.
    vain: usize,
}

impl RememberedSteps {
    ghost use Rattle.fancy_search.specs.StepsOf.{AreStepsOf};
    ghost use Rattle.fancy_search.specs.KeptTables.{keeps_no_table};

    /// None is remembered yet. `walks` says that searches walk on by them where no way waits.
    pub(crate) fn new(alloc: Global, walks: bool) -> Result<Box<RememberedSteps>, AllocError>
        ensures { (code : Code) → IfOk result (λ steps. AreStepsOf code steps.value) }
    {
        let mut cells = Cells::new(alloc);
        cells.walks = walks;
        cells.clear(0);
        let steps = RememberedSteps {
            cells,
            read: ReadPast::new(0),
            vain: 0,
        };
        Ok(Box::new(alloc, steps)?)
    }

    /// Makes them ready for searches of a haystack of so many bytes, of which the first begins at `first`, a byte offset.
    pub(crate) fn go_on(&mut self, bytes: usize, first: usize)
        ensures { (code : Code) → AreStepsOf code self.old → AreStepsOf code self.new }
    {
        self.cells.make_room(bytes);
        self.read = ReadPast::new(first);
    }

    /// Whether they serve the next search too, after one that ended at `end`, a byte offset: not once searches read much more than
    /// they came on by.
    #[inline(always)]
    pub(crate) fn serve_on(&mut self, end: usize) -> bool
        ensures cells { self.new.cells ≡ self.old.cells }
    {
        let past = self.cells.reached().saturating_sub(end);
        if past <= NEAR {
            return true;
        }
        self.read.add(past);
        self.read.is_little_before(end)
    }

    /// What is kept after a search that they led, whose match ends at `end`, a byte offset: so many bytes were passed over, and so many read
    /// twice, or as many steps taken that they saved none of.
    pub(crate) fn lead_on(&mut self, end: usize, passed: usize, twice: usize) -> Kept
        ensures cells { self.new.cells ≡ self.old.cells }
        ensures left { keeps_no_table result ≡ true }
    {
        let made_up = passed.saturating_mul(PASSED);
        self.vain = self.vain.saturating_sub(made_up).saturating_add(twice);
        if self.serve_on(end) && self.vain < MOST_IN_VAIN {
            Kept::Steps
        } else {
            Kept::Runner(None)
        }
    }
}

/// What the attempts with one program in one haystack found out, kept from position to position.
pub struct AttemptNotes {
    // what is kept for the next attempt: where it is a table, in the notes
    pub(crate) kept: Kept,
    pub(crate) notes: Notes,
    // the steps that the automaton remembers, once it served
    pub(crate) steps: Option<Box<RememberedSteps>>,
}

/// By hand, so that crates above do not prove it once more.
impl Drop for AttemptNotes {
    fn drop(self) {
        let AttemptNotes {
            kept: _,
            notes: _,
            steps: _,
        } = self;
    }
}

impl AttemptNotes {
    ghost use Rattle.fancy_search.specs.KeptTables.{KeepsNotes, is_steps};

    /// Nothing was found out yet, and no memory is taken.
    pub fn new(alloc: Global) -> AttemptNotes
        ensures nothing { result.kept ≡ Kept.Nothing }
    {
        AttemptNotes {
            kept: Kept::Nothing,
            notes: Notes::new(alloc),
            steps: None,
        }
    }

    /// The steps that the automaton remembers, where they are kept for the next attempt.
    pub(crate) fn kept_steps(&self) -> Option<&RememberedSteps>
        ensures kept { IfSome result (λ _. is_steps self.now.kept ≡ true) }
        ensures held { IfSome result (λ steps.
            option_map (λ held. held.value) self.now.steps ≡ Some steps.now) }
    {
        if !matches!(self.kept, Kept::Steps) {
            return None;
        }
        match &self.steps {
            Some(steps) => Some(steps),
            None => None,
        }
    }
}

/// What attempts in one haystack work in, reused from one to the next, with whichever program.
#[derive(Drop)]
pub struct AttemptCache {
    /// What the engines work in, with the groups of the last match.
    pub engines: Cache,
    /// What is known of the haystack's bytes.
    pub known: KnownBytes,
    /// How much the attempts did that are counted.
    pub work: Work,
}

impl AttemptCache {
    ghost use Rattle.fancy_bytes.specs.Lacks.{AreKnown};

    /// It has no memory yet, and nothing is known of the haystack, which may be any.
    pub fn new(alloc: Global) -> AttemptCache
        ensures known { (haystack : List ℕ) → AreKnown result.known haystack }
        ensures steps { steps_of result.work ≡ 0 }
        ensures returns { returns_of result.work ≡ 0 }
        ensures units { units_of result.work ≡ 0 }
    {
        AttemptCache {
            engines: Cache::new(alloc),
            known: KnownBytes::new(),
            work: Work::new(),
        }
    }
}

/// What searches work in, reused from one to the next, with the groups of the last match.
#[derive(Drop)]
pub struct Cache {
    pub(crate) runner: runner::Cache,
    pub(crate) machine: machine::Cache,
    pub(crate) steps: Option<Box<RememberedSteps>>,
    /// Which engine worked in it last.
    pub(crate) served: Engine,
}

impl Cache {
    ghost use Rattle.fancy_search.specs.Cached.{cached_groups};

    /// It has no memory yet, which the searches take, and holds no group.
    pub fn new(alloc: Global) -> Cache
        ensures { cached_groups result ≡ [] }
    {
        Cache {
            runner: runner::Cache::new(alloc),
            machine: machine::Cache::new(alloc),
            steps: None,
            served: Engine::Runner,
        }
    }

    /// Where the group with this number stands in what the search before found, in byte offsets. `None` where the group took
    /// no part, or there is none with this number. After a search that found nothing, or whose groups were not asked, the answer means
    /// nothing.
    pub fn group(&self, number: usize) -> Option<Span>
        ensures { result ≡ slice_index_or (cached_groups self.now) number None }
    {
        match self.served {
            Engine::Runner => self.runner.group(number),
            Engine::Machine => self.machine.group(number),
            Engine::WithoutGroups(_) | Engine::Unasked => None,
        }
    }
}
