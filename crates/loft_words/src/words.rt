//! The words that the program takes, and what help and the manual page say of them.

/// An option of a command.
pub(crate) struct Choice {
    /// Its long name.
    pub(crate) name: &'static str,
    /// Its letter, if it has one.
    pub(crate) letter: Option<char>,
    /// What its value is.
    pub(crate) value: Value,
    /// What it does.
    pub(crate) help: &'static str,
}

/// The option of a row: its name, its letter, what its value is, and what it does.
macro_rules! row {
    ($name:literal, $letter:expr, $value:ident => $help:literal) => {
        Choice {
            name: $name,
            letter: $letter,
            value: Value::$value,
            help: $help,
        }
    };
}

/// What the value of an option is.
#[derive(Clone, Copy)]
pub(crate) enum Value {
    /// There is none: the option is given or not.
    Nothing,
    /// A number.
    Number,
    /// One of `WHENS`.
    When,
    /// The name of a list of rules, which has to be there.
    Rules,
}

impl Value {
    /// What it is called.
    pub(crate) fn name(self) -> &'static str {
        match self {
            Value::Nothing => "",
            Value::Number => "N",
            Value::When => "WHEN",
            Value::Rules => "RULES",
        }
    }
}

/// What commands do.
#[derive(Clone, Copy)]
pub(crate) enum Verb {
    Find,
    Replace,
    Split,
    Tokens,
    Check,
    Explain,
    Manual,
}

/// A command.
pub(crate) struct Described {
    pub(crate) name: &'static str,
    pub(crate) verb: Verb,
    /// What it does.
    pub(crate) about: &'static str,
    /// The words before its files, by what they are called.
    pub(crate) words: &'static [&'static str],
    pub(crate) has_files: bool,
    pub(crate) options: &'static [Choice],
    pub(crate) examples: &'static str,
}

/// What the program does.
pub(crate) const ABOUT: &str = "Searches and changes files by patterns";

/// What the program's help ends with.
pub(crate) const STATUS: &str = "\
A FILE that is not given, or `-`, is standard input. A line that is no UTF-8 is searched as bytes.
Status: 0 something was found, 1 nothing was, 2 there was a fault. A file with a fault is named, and the others are done.";

/// The version.
pub(crate) const VERSION: &str = "0.1.0";

/// The rows of the options of patterns.
static PATTERN_OPTIONS: [Choice; 10] = [
    row!("ignore-case", Some('i'), Nothing => "Let a character match in either case"),
    row!("line-anchors", Some('m'), Nothing => "Let ^ and $ hold at lines"),
    row!("dot-all", Some('s'), Nothing => "Let . take line feeds"),
    row!("extended", Some('x'), Nothing => "Skip blanks and comments in the pattern"),
    row!("crlf", Some('R'), Nothing => "Let a carriage return end a line too"),
    row!("ascii", None, Nothing => "Read patterns and files as bytes"),
    row!("longest", None, Nothing => "Find the longest match at a place"),
    row!("seek", None, Nothing => "Pass over places where no match begins, for hard patterns"),
    row!("backtrack-limit", None, Number => "Give a search up after N returns"),
    row!("step-limit", None, Number => "Give a search up after N steps"),
];

/// Whether files are read whole.
const WHOLE: Choice =
    row!("multiline", None, Nothing => "Search each file whole, and not line by line");

const FIND: [Choice; 7] = [
    row!("only-matching", Some('o'), Nothing => "Print the matches alone, each on a line"),
    row!("groups", Some('g'), Nothing => "Print each group of each match with its place"),
    row!("count", Some('c'), Nothing => "Print how many lines of each file match, as file:count"),
    row!("files-with-matches", Some('l'), Nothing => "Print the names of files that match"),
    row!("json", None, Nothing => "Print each match with its groups as a line of JSON"),
    WHOLE,
    row!("color", None, When => "Colour matches: auto, always or never"),
];

/// When matches are coloured.
pub(crate) static WHENS: [&str; 3] = ["auto", "always", "never"];

const REPLACE: [Choice; 5] = [
    row!("in-place", None, Nothing => "Change the files, each in one step, and print nothing"),
    row!("preview", None, Nothing => "Print what would change as a diff, and change nothing"),
    row!("literal", None, Nothing => "Put REPLACEMENT in as it is"),
    WHOLE,
    row!("limit", Some('n'), Number => "Replace the first N matches of each line"),
];

const SPLIT: [Choice; 2] = [
    row!("null", Some('0'), Nothing => "End each piece by a zero byte"),
    WHOLE,
];

const RULES: Choice = row!("rules", None, Rules => "The list of rules, a CSV file");

const TOKENS: [Choice; 2] = [
    row!("highlight", None, Nothing => "Print the file in colours by kind"),
    RULES,
];

const CHECK: [Choice; 2] = [WHOLE, RULES];

/// The rows of all commands.
static COMMANDS: [Described; 7] = [
    Described {
        name: "find",
        verb: Verb::Find,
        about: "Print the lines that match, as file:line:column:line",
        words: &["PATTERN"],
        has_files: true,
        options: &FIND,
        examples: "\
loft find 'TODO|FIXME' src/*.rt
loft find -o '[\\w.]+@[\\w.]+' mail.log
loft find --json '(?<year>\\d{4})-(?<month>\\d\\d)' notes.txt
loft find --multiline 'fn \\w+\\([^)]*\\)' main.rt",
    },
    Described {
        name: "replace",
        verb: Verb::Replace,
        about: "Print the files with matches replaced; $1 and ${name} are groups",
        words: &["PATTERN", "REPLACEMENT"],
        has_files: true,
        options: &REPLACE,
        examples: "\
loft replace '[\\w.]+@([\\w.]+)' '***@$1' mail.log
loft replace --preview '\\bold_name\\b' new_name src/*.rt
loft replace --in-place '\\bold_name\\b' new_name src/*.rt",
    },
    Described {
        name: "split",
        verb: Verb::Split,
        about: "Print the pieces between matches, each on a line",
        words: &["PATTERN"],
        has_files: true,
        options: &SPLIT,
        examples: "loft split '\\s*,\\s*' names.csv",
    },
    Described {
        name: "tokens",
        verb: Verb::Tokens,
        about: "Print the tokens of files, as kind start..end text",
        words: &[],
        has_files: true,
        options: &TOKENS,
        examples: "\
loft tokens --rules kinds.csv main.rt
loft tokens --rules kinds.csv --highlight main.rt

A rule of kinds.csv is a name and a pattern: number,\\d+",
    },
    Described {
        name: "check",
        verb: Verb::Check,
        about: "Print where rules match, as file:line:column: name: message",
        words: &[],
        has_files: true,
        options: &CHECK,
        examples: "\
loft check --rules lint.csv src/*.rt

A rule of lint.csv is a name, a pattern, a message and a severity, error or warning:
no-tabs,\\t,write blanks,warning
Status 1 where a rule of severity error matched, else 0.",
    },
    Described {
        name: "explain",
        verb: Verb::Explain,
        about: "Print how a pattern is read, or what is wrong with it",
        words: &["PATTERN"],
        has_files: false,
        options: &[],
        examples: "loft explain '(?<year>\\d{4})-(\\d\\d)'",
    },
    Described {
        name: "manual",
        verb: Verb::Manual,
        about: "Print the manual page",
        words: &[],
        has_files: false,
        options: &[],
        examples: "loft manual > loft.1",
    },
];

/// All commands.
pub(crate) fn commands() -> &'static [Described] {
    &COMMANDS
}

/// The options of patterns, which each command has.
pub(crate) fn pattern_options() -> &'static [Choice] {
    &PATTERN_OPTIONS
}

/// What the command of this name does.
pub(crate) fn verb_of(name: &str) -> Option<Verb> {
    for described in commands() {
        if described.name == name {
            return Some(described.verb);
        }
    }
    None
}
