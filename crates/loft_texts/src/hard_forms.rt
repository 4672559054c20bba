//! Why a pattern is hard, as far as its text shows.

/// Forms that make a pattern hard, and what they are called. The first that fits at a place is told.
static FORMS: [(&str, &str); 14] = [
    ("(?=", "look-ahead"),
    ("(?!", "negative look-ahead"),
    ("(?<=", "look-behind"),
    ("(?<!", "negative look-behind"),
    ("(?>", "atomic group"),
    ("(?(", "conditional"),
    ("(?P=", "backreference"),
    ("\\k", "backreference"),
    ("\\K", "kept start"),
    ("\\G", "continuation"),
    ("*+", "possessive repeat"),
    ("++", "possessive repeat"),
    ("?+", "possessive repeat"),
    ("}+", "possessive repeat"),
];

/// The form that begins here, if one does.
fn form_here(rest: &str) -> Option<&'static str> {
    for (mark, name) in &FORMS {
        if rest.starts_with(*mark) {
            return Some(*name);
        }
    }
    let digit = rest.strip_prefix("\\")?.chars().next()?;
    ('1'..='9').contains(&digit).then_some("backreference")
}

/// The first form in the text of a pattern that makes it hard, and its place in bytes. What is escaped is passed over, and what
/// is in a class.
pub fn first_hard_form(pattern: &str) -> Option<(usize, &'static str)> {
    let mut escaped = false;
    let mut open = 0usize;
    for (at, c) in pattern.char_indices() {
        if escaped {
            escaped = false;
            continue;
        }
        if open == 0 {
            if let Some(name) = form_here(pattern.get(at..).unwrap_or("")) {
                return Some((at, name));
            }
        }
        match c {
            '\\' => escaped = true,
            '[' => open = open.saturating_add(1),
            ']' => open = open.saturating_sub(1),
            _ => {}
        }
    }
    None
}
