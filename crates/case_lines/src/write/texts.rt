//! Writes strings and names.

use crate::write::output::{Output, digits_of};

/// Writes a string in quotes, escaped.
pub fn write_text(out: &mut Output, text: &str) {
    out.char('"');
    for character in text.chars() {
        write_character(out, character);
    }
    out.char('"');
}

/// Writes a character, escaped if it is a quote, a backslash or a control character.
fn write_character(out: &mut Output, character: char) {
    match character {
        '\\' => out.word("\\\\"),
        '"' => out.word("\\\""),
        '\n' => out.word("\\n"),
        '\r' => out.word("\\r"),
        '\t' => out.word("\\t"),
        '\0'..='\u{1f}' | '\u{7f}' => write_code(out, character as u8),
        _ => out.char(character),
    }
}

/// Writes the escape of a control character, as `\u{7f}`.
fn write_code(out: &mut Output, code: u8) {
    let [first, second] = digits_of(code);
    out.word("\\u{");
    if first != b'0' {
        out.char(char::from(first));
    }
    out.char(char::from(second));
    out.char('}');
}

/// Writes a name: bare if it is a word that begins with no digit, else in quotes.
pub fn write_name(out: &mut Output, name: &str) {
    if is_word(name.as_bytes()) {
        out.word(name);
    } else {
        write_text(out, name);
    }
}

/// Whether these bytes are letters, digits and `_`, and begin with no digit.
fn is_word(bytes: &[u8]) -> bool {
    match bytes.first() {
        Some(first) if !first.is_ascii_digit() => bytes
            .iter()
            .all(|byte| byte.is_ascii_alphanumeric() || *byte == b'_'),
        _ => false,
    }
}
