//! What is wrong with a class.

/// Why a class, or what is used as one, is refused.
#[derive(Clone, Copy)]
pub(crate) enum ClassFault {
    /// Its bracket is not closed.
    NotClosed,
    /// A range ends before it begins.
    Reversed,
    /// A range ends with a set.
    EndsWithSet,
    /// No set or property has the name.
    UnknownName,
    /// The set, or the character, is not allowed in the meaning of the pattern.
    NotInMeaning,
}

impl ClassFault {
    /// What is wrong.
    pub(crate) fn message(self) -> &'static str {
        match self {
            ClassFault::NotClosed => "the class is not closed",
            ClassFault::Reversed => "the range ends before it begins",
            ClassFault::EndsWithSet => "a set ends the range",
            ClassFault::UnknownName => "no set or property has this name",
            ClassFault::NotInMeaning => "this set or character is not allowed in this mode",
        }
    }

    /// What to do about it.
    pub(crate) fn hint(self) -> &'static str {
        match self {
            ClassFault::NotClosed => r"write the `]`, or `\[` for the bracket itself",
            ClassFault::Reversed => "write the lesser end first",
            ClassFault::EndsWithSet =>
                r"write a character as the end, or `\-` for the hyphen itself",
            ClassFault::UnknownName => "write a name of Unicode, or of a POSIX set",
            ClassFault::NotInMeaning =>
                "use the default `bytes_mode` and `unicode_mode`, or list ASCII characters",
        }
    }
}

/// The names of POSIX sets.
const POSIX_NAMES: [&str; 14] = [
    "alnum", "alpha", "ascii", "blank", "cntrl", "digit", "graph", "lower", "print", "punct",
    "space", "upper", "word", "xdigit",
];

/// Whether a POSIX set that exists is written here, after its bracket and colon.
fn is_known_posix(rest: &str) -> bool {
    let name = rest.strip_prefix("^").unwrap_or(rest);
    POSIX_NAMES.iter().any(|known| match name.strip_prefix(*known) {
        Some(after) => after.starts_with(":]"),
        None => false,
    })
}

/// Whether a bracket closes what is here, not counting one that is escaped.
fn has_closing_bracket(rest: &str) -> bool {
    let mut escaped = false;
    for c in rest.chars() {
        if c == ']' && !escaped {
            return true;
        }
        escaped = c == '\\' && !escaped;
    }
    false
}

/// What follows the character, or the escape of one, that is here.
fn after_character(rest: &str) -> &str {
    let Some(escaped) = rest.strip_prefix("\\") else {
        let mut chars = rest.chars();
        let _ = chars.next();
        return chars.as_str();
    };
    let digits = match escaped.chars().next() {
        Some('x') => 2usize,
        Some('u') => 4,
        Some('U') => 8,
        _ => 0,
    };
    if digits > 0 && escaped.get(1..2) == Some("{") {
        return match escaped.split_once("}") {
            Some((_, after)) => after,
            None => "",
        };
    }
    let mut chars = escaped.chars();
    for _ in 0..=digits {
        let _ = chars.next();
    }
    chars.as_str()
}

/// Whether a set begins here: a class, or an escape for a set.
fn begins_set(rest: &str) -> bool {
    match rest.strip_prefix("\\") {
        Some(escaped) => escaped.starts_with(&['d', 'D', 'w', 'W', 's', 'S', 'h', 'H', 'p', 'P']),
        None => rest.starts_with("["),
    }
}

/// What is wrong with the range, or the character, that is here.
fn fault_of_range(rest: &str) -> ClassFault {
    let Some(last) = after_character(rest).strip_prefix("-") else {
        return ClassFault::NotInMeaning;
    };
    if begins_set(last) {
        return ClassFault::EndsWithSet;
    }
    let escaped = rest.starts_with("\\") || last.starts_with("\\");
    if escaped || rest.chars().next() > last.chars().next() {
        ClassFault::Reversed
    } else {
        ClassFault::NotInMeaning
    }
}

/// What is wrong with the item of a class, or the class, that begins here.
pub(crate) fn fault_of_class(rest: &str) -> ClassFault {
    if let Some(name) = rest.strip_prefix("[:") {
        return if is_known_posix(name) {
            ClassFault::NotInMeaning
        } else {
            ClassFault::UnknownName
        };
    }
    if let Some(items) = rest.strip_prefix("[") {
        return match items.strip_prefix("^") {
            Some(items) if has_closing_bracket(after_character(items)) => ClassFault::NotInMeaning,
            _ => ClassFault::NotClosed,
        };
    }
    if rest.starts_with("\\p") || rest.starts_with("\\P") {
        return ClassFault::UnknownName;
    }
    if begins_set(rest) {
        return ClassFault::NotInMeaning;
    }
    fault_of_range(rest)
}
