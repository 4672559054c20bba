//! Which texts stand seldom in others.

/// Whether the byte is a sign that texts have seldom, or a capital letter.
fn is_rare(byte: u8) -> bool {
    matches!(byte, b'!' | b'#'..=b'&' | b'*' | b'+' | b'?'..=b'Z' | b'\\' | b'^' | b'`' | b'{'..=b'~')
}

/// Whether the byte is a letter, a digit or past ASCII.
fn is_letter(byte: u8) -> bool {
    byte.is_ascii_alphanumeric() || byte >= 0x80
}

/// Whether texts have it seldom: a byte of it is rare, or two bytes of it are letters, digits or past ASCII.
pub fn stands_seldom(text: &[u8]) -> bool {
    let letters = text.iter().filter(|byte| is_letter(**byte)).count();
    letters >= 2 || text.iter().any(|byte| is_rare(*byte))
}
