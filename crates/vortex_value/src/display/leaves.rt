//! How truth values, strings and bytes are printed, and what stands between parts.

ghost use Rattle.std.specs.Prelude.{◌≡◌, ◌++◌, IsTrue, codes, drop, encode_utf8, length, map, take};
ghost use Rattle.vortex_value.specs.Words.{WritesOnOk, before_at, chars, encode_utf8_all, escaped, escaped_char};
ghost use Rattle.vortex_value.specs.Words.{flat_map, hexadecimal, in_quotes, joined, null_text, shortened, truth_text};
ghost use Rattle.vortex_value.specs.Words.{two_digits};

use std::fmt::{self, Formatter, Write};
use vortex_dtype::FieldName;

/// How many items a shortened list shows at each of its ends. One of at most twice as many is shown
/// whole.
const SHOWN: usize = 5;

/// Writes `null`.
pub(super) fn write_null<W: Write>(f: &mut Formatter<W>) -> fmt::Result
    ensures { WritesOnOk W.write_str_gives f.old result null_text f.new }
{
    f.write_str("null")
}

/// Writes the name of a field or of a variant, as it is.
pub(super) fn write_name<W: Write>(name: &FieldName, f: &mut Formatter<W>) -> fmt::Result
    ensures { WritesOnOk W.write_str_gives f.old result name.now f.new }
{
    f.write_str(name.as_str())
}

/// Writes what stands before a field, its name, and the colon after it.
pub(super) fn write_label<W: Write>(
    index: usize,
    name: &FieldName,
    f: &mut Formatter<W>,
) -> fmt::Result
    ensures { WritesOnOk W.write_str_gives f.old result
        (before_at index (codes ", ") ++ (name.now ++ codes ": ")) f.new }
{
    write_separator(index, ", ", f)?;
    write_name(name, f)?;
    f.write_str(": ")
}

/// Writes the name of a variant, and the parenthesis after it.
pub(super) fn write_opening<W: Write>(name: &FieldName, f: &mut Formatter<W>) -> fmt::Result
    ensures { WritesOnOk W.write_str_gives f.old result (name.now ++ codes "(") f.new }
{
    write_name(name, f)?;
    f.write_str("(")
}

pub(super) fn truth(truth: bool) -> &'static str
    ensures { result.now ≡ truth_text truth }
{
    if truth { "true" } else { "false" }
}

/// What stands before the part at this place: the separator, or nothing before the first.
fn before(index: usize, separator: &'static str) -> &'static str
    ensures { result.now ≡ before_at index separator.now }
{
    if index == 0 { "" } else { separator }
}

/// Writes the separator before the part at this place, but nothing before the first.
pub(super) fn write_separator<W: Write>(
    index: usize,
    separator: &'static str,
    f: &mut Formatter<W>,
) -> fmt::Result
    ensures { WritesOnOk W.write_str_gives f.old result
        (before_at index separator.now) f.new }
{
    f.write_str(before(index, separator))
}

/// How many characters the string has.
fn count_characters(text: &str) -> usize
    ensures { result ≡ length (chars text.now) }
{
    text.chars().count()
}

/// Writes the characters from this place on, as many as are shown at an end.
fn write_shown<W: Write>(text: &str, from: usize, f: &mut Formatter<W>) -> fmt::Result
    ensures { WritesOnOk W.write_str_gives f.old result
        (encode_utf8_all (take SHOWN (drop from (chars text.now)))) f.new }
{
    for character in text.chars().skip(from).take(SHOWN) {
        f.write_char(character)?;
    }
    Ok(())
}

/// Writes the characters, of many only those at both ends.
fn write_shortened<W: Write>(text: &str, f: &mut Formatter<W>) -> fmt::Result
    ensures { WritesOnOk W.write_str_gives f.old result
        (shortened encode_utf8_all (chars text.now)) f.new }
{
    let count = count_characters(text);
    if count <= 2 * SHOWN {
        return f.write_str(text);
    }
    write_shown(text, 0, f)?;
    f.write_str("..")?;
    write_shown(text, count - SHOWN, f)
}

/// Writes the characters in quotes, of many only those at both ends, without escapes.
pub(super) fn write_quoted<W: Write>(text: &str, f: &mut Formatter<W>) -> fmt::Result
    ensures { WritesOnOk W.write_str_gives f.old result
        (in_quotes (shortened encode_utf8_all (chars text.now))) f.new }
{
    f.write_str("\"")?;
    write_shortened(text, f)?;
    f.write_str("\"")
}

/// Writes what stands in quotes for a character, by the escape table.
#[tactic(auto, unfolding(crate::specs::Texts::escaped_char))]
fn write_escaped_character<W: Write>(character: char, f: &mut Formatter<W>) -> fmt::Result
    ensures { WritesOnOk W.write_str_gives f.old result (escaped_char character) f.new }
{
    match character {
        '\\' => f.write_str("\\\\"),
        '"' => f.write_str("\\\""),
        '\n' => f.write_str("\\n"),
        '\r' => f.write_str("\\r"),
        '\t' => f.write_str("\\t"),
        '\0'..' ' | '\x7f' => write!(f, "\\u{{{:x}}}", character as u32),
        _ => f.write_char(character),
    }
}

/// Whether the character stands for itself in quotes.
#[inline(always)]
#[tactic(auto, unfolding(crate::specs::Texts::escaped_char))]
fn is_kept(character: char) -> bool
    ensures { IsTrue result → escaped_char character ≡ encode_utf8 character }
{
    !matches!(character, '\0'..' ' | '"' | '\\' | '\x7f')
}

/// Whether each character stands for itself in quotes.
fn are_kept(text: &str) -> bool
    ensures { IsTrue result → flat_map escaped_char (chars text.now) ≡ text.now }
{
    for character in text.chars() {
        if !is_kept(character) {
            return false;
        }
    }
    true
}

/// Writes the characters, each by the escape table. Mostly nothing is escaped, and they are written
/// at once.
fn write_characters<W: Write>(text: &str, f: &mut Formatter<W>) -> fmt::Result
    ensures { WritesOnOk W.write_str_gives f.old result
        (flat_map escaped_char (chars text.now)) f.new }
{
    if are_kept(text) {
        return f.write_str(text);
    }
    for character in text.chars() {
        write_escaped_character(character, f)?;
    }
    Ok(())
}

/// Writes the characters in quotes, each by the escape table.
pub(super) fn write_escaped<W: Write>(text: &str, f: &mut Formatter<W>) -> fmt::Result
    ensures { WritesOnOk W.write_str_gives f.old result (escaped text.now) f.new }
{
    f.write_str("\"")?;
    write_characters(text, f)?;
    f.write_str("\"")
}

/// Writes a byte as two digits.
#[tactic(auto, using(crate::proofs::TextSteps::digits_of_byte))]
fn write_two_digits<W: Write>(byte: u8, f: &mut Formatter<W>) -> fmt::Result
    ensures { WritesOnOk W.write_str_gives f.old result (two_digits byte) f.new }
{
    write!(f, "{byte:02x}")
}

/// Writes each byte as two digits.
fn write_digits<W: Write>(bytes: &[u8], f: &mut Formatter<W>) -> fmt::Result
    ensures { WritesOnOk W.write_str_gives f.old result (flat_map two_digits bytes.now) f.new }
{
    for byte in bytes {
        write_two_digits(*byte, f)?;
    }
    Ok(())
}

/// Writes the bytes as two digits each, of many only those at both ends.
pub(super) fn write_shortened_bytes<W: Write>(bytes: &[u8], f: &mut Formatter<W>) -> fmt::Result
    ensures { WritesOnOk W.write_str_gives f.old result
        (shortened (flat_map two_digits) bytes.now) f.new }
{
    if bytes.len() <= 2 * SHOWN {
        return write_digits(bytes, f);
    }
    write_digits(&bytes[..SHOWN], f)?;
    f.write_str("..")?;
    write_digits(&bytes[bytes.len() - SHOWN..], f)
}

/// Writes a byte in as many digits as it needs.
fn write_hexadecimal<W: Write>(byte: u8, f: &mut Formatter<W>) -> fmt::Result
    ensures { WritesOnOk W.write_str_gives f.old result (hexadecimal byte) f.new }
{
    write!(f, "{byte:x}")
}

/// Writes the bytes in hexadecimal, a space between each two.
fn write_spaced<W: Write>(bytes: &[u8], f: &mut Formatter<W>) -> fmt::Result
    ensures { WritesOnOk W.write_str_gives f.old result
        (joined (codes " ") (map hexadecimal bytes.now)) f.new }
{
    for (index, byte) in bytes.iter().enumerate() {
        write_separator(index, " ", f)?;
        write_hexadecimal(*byte, f)?;
    }
    Ok(())
}

/// Writes the bytes in quotes, in hexadecimal, a space between each two.
pub(super) fn write_bytes<W: Write>(bytes: &[u8], f: &mut Formatter<W>) -> fmt::Result
    ensures { WritesOnOk W.write_str_gives f.old result
        (in_quotes (joined (codes " ") (map hexadecimal bytes.now))) f.new }
{
    f.write_str("\"")?;
    write_spaced(bytes, f)?;
    f.write_str("\"")
}
