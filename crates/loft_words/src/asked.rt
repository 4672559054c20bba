//! What a command line asks for, in plain values.

ghost use Rattle.std.specs.Prelude.{◌≡◌, true, false};
ghost use Rattle.loft_words.specs.declared.asked.Colours.TheVariants.{Auto, Always, Never};

/// A command, with what it works on.
#[derive(Drop)]
pub struct Command<'w> {
    pub task: Task<'w>,
    /// How its patterns are read.
    pub options: PatternOptions,
    /// Whether each file is read whole, and not line by line.
    pub whole: bool,
    /// The names of its files, of which there is at least one. `-` is standard input.
    pub files: Vec<&'w str>,
}

/// What a command does.
#[derive(Clone, Copy)]
pub enum Task<'w> {
    /// It works with a pattern.
    ByPattern {
        pattern: &'w str,
        work: PatternWork<'w>,
    },
    /// It works with the patterns of a list of rules, whose name this is.
    ByRules {
        list: &'w str,
        work: RulesWork,
    },
    /// It writes how a pattern is read.
    Explain {
        pattern: &'w str,
    },
    /// It writes the manual page.
    Manual,
}

/// What is done with a pattern.
#[derive(Clone, Copy)]
pub enum PatternWork<'w> {
    /// Texts that match are written.
    Find { report: Report, colours: Colours },
    /// Matches are replaced.
    Replace { by: Replacement<'w>, way: Way },
    /// The pieces between matches are written, each with this byte after it.
    Split { terminator: u8 },
}

/// What is done with the patterns of rules.
#[derive(Clone, Copy)]
pub enum RulesWork {
    /// The tokens of files are written, one by one.
    Tokens,
    /// The files are written in colours by the kinds of their tokens.
    Highlight,
    /// The places where rules match are written.
    Check,
}

/// What replaces matches.
#[derive(Clone, Copy)]
pub struct Replacement<'w> {
    /// The template, or the text that is put in as it is.
    pub with: &'w str,
    /// Whether it is put in as it is.
    pub literal: bool,
    /// How many matches of a text are replaced at most; 0 is all.
    pub limit: usize,
}

/// Where the replaced texts go.
#[derive(Clone, Copy)]
pub enum Way {
    /// To the output.
    Print,
    /// To the output, as a diff.
    Preview,
    /// Into the files.
    InPlace,
}

/// What is written of a text that matches.
#[derive(Clone, Copy)]
pub enum Report {
    /// The text with its place.
    Lines,
    /// Each match alone.
    Matches,
    /// Each group of each match with its place.
    Groups,
    /// How many texts of the file match.
    Counts,
    /// The name of the file.
    Names,
    /// Each match as JSON.
    Json,
}

/// When matches are coloured.
#[derive(Clone, Copy)]
pub enum Colours {
    /// On a terminal.
    Auto,
    Always,
    Never,
}

impl Colours {
    /// Whether matches are coloured on an output that is a terminal or is none.
    pub fn are_wanted(self, terminal: bool) -> bool
        ensures auto { self ≡ Auto → result ≡ terminal }
        ensures always { self ≡ Always → result ≡ true }
        ensures never { self ≡ Never → result ≡ false }
    {
        match self {
            Colours::Auto => terminal,
            Colours::Always => true,
            Colours::Never => false,
        }
    }
}

/// How patterns are read.
#[derive(Clone, Copy)]
pub struct PatternOptions {
    /// A character matches in either case.
    pub ignore_case: bool,
    /// `^` and `$` hold at lines.
    pub line_anchors: bool,
    /// `.` takes line feeds.
    pub dot_all: bool,
    /// Blanks and comments in the pattern are skipped.
    pub extended: bool,
    /// A carriage return ends a line too.
    pub crlf: bool,
    /// Patterns and files are read as bytes.
    pub ascii: bool,
    /// The longest match at a place is found.
    pub longest: bool,
    /// Places where no match begins are passed over, for hard patterns.
    pub seek: bool,
    /// After how many returns a search is given up.
    pub backtrack_limit: Option<usize>,
    /// After how many steps a search is given up.
    pub step_limit: Option<usize>,
}
