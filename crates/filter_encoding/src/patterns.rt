//! Patterns: how many parts they have, and each by a number in three bytes.

ghost use Rattle.std.specs.Prelude.{◌≡◌, ◌↔◌, ◌∷◌, ◌+◌, ◌*◌, ◌^◌, ◌<◌, ◌≤◌, ◌++◌, ℕ, List, IfErr, IfOk, IsTrue};
ghost use Rattle.std.specs.Prelude.{IfSome, MatchResult, OnOk, Some, encode_utf8_all, false, map};
ghost use Rattle.std.specs.List.{AllByRecursion};
ghost use Rattle.std.specs.String.{string_bytes};
ghost use Rattle.std.specs.Str.{chars};
ghost use Rattle.like_patterns.specs.Patterns.{Part};
ghost use Rattle.like_patterns.specs.Texts.{part_text, parts_from, pattern_text};
ghost use Rattle.filter_encoding.specs.declared.error.FilterEncodingError.TheVariants as Refusals;
ghost use Rattle.filter_encoding.specs.declared.reader.FilterDecodeError.TheVariants.{Bad, NoMemory};
ghost use Rattle.filter_encoding.specs.Patterns.{IsCase, IsNumber, IsPart, case_byte, case_bytes, goes_on, part_bytes};
ghost use Rattle.filter_encoding.specs.Patterns.{part_number, part_of, three_bytes};
ghost use Rattle.filter_encoding.specs.Words.{AreListed, AreSo, Reads, Writes, each_bytes, left, listed};

use crate::error::FilterEncodingError;
use crate::places::{append_place, read_place};
use crate::reader::{FilterDecodeError, Reader};
use crate::writing::{append_all, append_byte};
use like_patterns::laws::texts_come_back;
use like_patterns::{Case, Pattern};
use std::alloc::Global;

/// The number of `_`.
const ANY_CHARACTER: u32 = 0x11_0000;
/// The number of `%`.
const ANY_STRING: u32 = 0x11_0001;

/// A part of a pattern.
#[derive(Clone, Copy)]
pub(crate) enum PatternPart {
    /// A character that stands for itself.
    Character(char),
    /// `_`.
    AnyCharacter,
    /// `%`.
    AnyString,
}

// ---- writing

/// The byte of a case.
fn case_byte(case: Case) -> u8
    ensures { result ≡ case_byte case }
{
    match case {
        Case::Sensitive => 0,
        Case::Insensitive => 1,
    }
}

/// Appends a case.
pub(crate) fn append_case(case: Case, out: &mut Vec<u8>) -> Result<(), FilterEncodingError>
    ensures { Writes (IsCase case) (case_bytes case) result out.old.items out.new.items }
{
    append_byte(case_byte(case), out)
}

/// Appends a pattern.
pub(crate) fn append_pattern(
    pattern: &Pattern,
    out: &mut Vec<u8>,
) -> Result<(), FilterEncodingError>
    ensures { Writes (AreListed IsPart pattern.now) (listed part_bytes pattern.now)
        result out.old.items out.new.items }
{
    let parts = parts_in(*out.allocator(), pattern)?;
    append_place(parts.len(), out)?;
    append_parts(&parts, out)
}

/// The parts of a pattern.
fn parts_in(alloc: Global, pattern: &Pattern) -> Result<Vec<PatternPart>, FilterEncodingError>
    ensures parts { IfOk result (λ parts. map part_of parts.items ≡ pattern.now) }
    ensures scalar { IfOk result (λ parts. AllByRecursion IsPart (map part_of parts.items)) }
    ensures refused { IfErr result (λ e. e ≡ Refusals.OutOfMemory) }
{
    texts_come_back();
    let text = pattern.to_string(alloc)?;
    parts_spelled(alloc, text.as_str())
}

/// The parts that a text spells, with the escape `\`.
fn parts_spelled(alloc: Global, text: &str) -> Result<Vec<PatternPart>, FilterEncodingError>
    ensures parts { IfOk result (λ parts. (ps : List Part) → parts_from (Some 92) false (chars text.now) ≡ Some ps
        → map part_of parts.items ≡ ps) }
    ensures scalar { IfOk result (λ parts. AllByRecursion IsPart (map part_of parts.items)) }
    ensures refused { IfErr result (λ e. e ≡ Refusals.OutOfMemory) }
{
    let mut parts = Vec::new(alloc);
    let mut is_escaped = false;
    for character in text.chars() {
        match part_at(character, is_escaped) {
            Some(part) => {
                parts.push(part)?;
                is_escaped = false;
            }
            None => is_escaped = true,
        }
    }
    Ok(parts)
}

/// The part that a character is, perhaps behind the escape. `None` if it is the escape.
fn part_at(character: char, is_escaped: bool) -> Option<PatternPart>
    ensures goes { (cs : List ℕ) → parts_from (Some 92) is_escaped (character ∷ cs) ≡ goes_on result cs }
    ensures scalar { IfSome result (λ part. IsPart (part_of part)) }
{
    if is_escaped {
        return Some(PatternPart::Character(character));
    }
    match character {
        '\\' => None,
        '%' => Some(PatternPart::AnyString),
        '_' => Some(PatternPart::AnyCharacter),
        _ => Some(PatternPart::Character(character)),
    }
}

/// Appends each part.
fn append_parts(parts: &[PatternPart], out: &mut Vec<u8>) -> Result<(), FilterEncodingError>
    requires { AllByRecursion IsPart (map part_of parts.now) }
    ensures { Writes (AllByRecursion IsPart (map part_of parts.now))
        (each_bytes part_bytes (map part_of parts.now)) result out.old.items out.new.items }
{
    for part in parts {
        append_part(part, out)?;
    }
    Ok(())
}

/// Appends a part.
fn append_part(part: &PatternPart, out: &mut Vec<u8>) -> Result<(), FilterEncodingError>
    requires { IsPart (part_of part.now) }
    ensures { Writes (IsPart (part_of part.now)) (part_bytes (part_of part.now))
        result out.old.items out.new.items }
{
    append_number(part_number(*part), out)
}

/// The number of a part.
fn part_number(part: PatternPart) -> u32
    requires { IsPart (part_of part) }
    ensures is { result ≡ part_number (part_of part) }
    ensures small { result < 2 ^ 24 }
{
    match part {
        PatternPart::Character(character) => character as u32,
        PatternPart::AnyCharacter => ANY_CHARACTER,
        PatternPart::AnyString => ANY_STRING,
    }
}

/// Appends a number as three bytes.
fn append_number(number: u32, out: &mut Vec<u8>) -> Result<(), FilterEncodingError>
    requires { number < 2 ^ 24 }
    ensures { Writes (Unit {0}) (three_bytes number) result out.old.items out.new.items }
{
    let high = (number / 65536) as u8;
    let middle = (number / 256 % 256) as u8;
    let low = (number % 256) as u8;
    append_all(&[high, middle, low], out)
}

// ---- reading

/// The next case.
pub(crate) fn read_case(reader: &mut Reader<'_>) -> Result<Case, FilterDecodeError>
    ensures { Reads case_bytes IsCase (λ case. case) result (left reader.old) (left reader.new) }
{
    if reader.takes(0) {
        return Ok(Case::Sensitive);
    }
    if reader.takes(1) {
        return Ok(Case::Insensitive);
    }
    Err(FilterDecodeError::Bad)
}

/// The next pattern.
pub(crate) fn read_pattern(
    alloc: Global,
    reader: &mut Reader<'_>,
) -> Result<Pattern, FilterDecodeError>
    ensures { Reads (listed part_bytes) (AreListed IsPart) (λ pattern. pattern)
        result (left reader.old) (left reader.new) }
{
    let parts = read_parts(alloc, reader)?;
    pattern_of(alloc, &parts)
}

/// The next parts: how many there are, and each.
fn read_parts(alloc: Global, reader: &mut Reader<'_>) -> Result<Vec<PatternPart>, FilterDecodeError>
    ensures { Reads (listed part_bytes) (AreListed IsPart) (λ v. map part_of v.items)
        result (left reader.old) (left reader.new) }
{
    let count = read_place(reader)?;
    read_so_many(alloc, count, reader)
}

/// So many parts.
fn read_so_many(
    alloc: Global,
    count: usize,
    reader: &mut Reader<'_>,
) -> Result<Vec<PatternPart>, FilterDecodeError>
    ensures { Reads (each_bytes part_bytes) (AreSo count IsPart) (λ v. map part_of v.items)
        result (left reader.old) (left reader.new) }
{
    let mut parts = Vec::new(alloc);
    for taken in 0..count {
        let part = read_part(reader)?;
        parts.push(part)?;
    }
    Ok(parts)
}

/// The next part.
fn read_part(reader: &mut Reader<'_>) -> Result<PatternPart, FilterDecodeError>
    ensures { Reads part_bytes IsPart part_of result (left reader.old) (left reader.new) }
{
    let high = read_byte(0, 65536, reader)?;
    let middle = read_byte(high, 256, reader)?;
    let number = read_byte(middle, 1, reader)?;
    Ok(part_with(number))
}

/// Whether a part has this number.
fn is_number(number: u32) -> bool
    ensures { IsTrue result ↔ IsNumber number }
{
    number < 0xD800 || (0xE000 <= number && number < 0x11_0002)
}

/// The number with the next byte, which counts so much, if a part has it.
fn read_byte(number: u32, unit: u32, reader: &mut Reader<'_>) -> Result<u32, FilterDecodeError>
    requires number { number < 2 ^ 24 }
    requires unit { unit ≤ 65536 }
    ensures { MatchResult result
        (λ whole. (byte : ℕ) × (byte < 256) × (left reader.old ≡ byte ∷ left reader.new)
        × (whole ≡ number + byte * unit) × IsNumber whole)
        (λ e. (e ≡ Bad) × (left reader.new ≡ left reader.old)
        × ((byte : ℕ) (bs : List ℕ) → left reader.old ≡ byte ∷ bs → ¬ (IsNumber (number + byte * unit)))) }
{
    let Some(byte) = reader.first() else {
        return Err(FilterDecodeError::Bad);
    };
    let whole = number + u32::from(byte) * unit;
    if is_number(whole) {
        reader.advance(1);
        Ok(whole)
    } else {
        Err(FilterDecodeError::Bad)
    }
}

/// The part with this number.
fn part_with(number: u32) -> PatternPart
    requires { IsNumber number }
    ensures is { part_number (part_of result) ≡ number }
    ensures scalar { IsPart (part_of result) }
{
    if number == ANY_CHARACTER {
        return PatternPart::AnyCharacter;
    }
    if number == ANY_STRING {
        return PatternPart::AnyString;
    }
    match char::from_u32(number) {
        Some(character) => PatternPart::Character(character),
        None => unreachable!(),
    }
}

/// The pattern of these parts.
fn pattern_of(alloc: Global, parts: &[PatternPart]) -> Result<Pattern, FilterDecodeError>
    ensures made { IfOk result (λ pattern. pattern ≡ map part_of parts.now) }
    ensures refused { IfErr result (λ e. e ≡ NoMemory) }
{
    texts_come_back();
    let text = text_of(alloc, parts)?;
    match Pattern::parse(alloc, text.as_str(), Some('\\')) {
        Ok(pattern) => Ok(pattern),
        Err(_) => Err(FilterDecodeError::NoMemory),
    }
}

/// The text of a pattern of these parts, with the escape `\`.
fn text_of(alloc: Global, parts: &[PatternPart]) -> Result<String, FilterDecodeError>
    ensures text { IfOk result (λ text. string_bytes text
        ≡ encode_utf8_all (pattern_text (map part_of parts.now))) }
    ensures refused { IfErr result (λ e. e ≡ NoMemory) }
{
    let mut text = String::new(alloc);
    for part in parts {
        push_part(part, &mut text)?;
    }
    Ok(text)
}

/// Adds the text of a part.
fn push_part(part: &PatternPart, text: &mut String) -> Result<(), FilterDecodeError>
    ensures text { OnOk result (string_bytes text.new
        ≡ string_bytes text.old ++ encode_utf8_all (part_text (part_of part.now))) }
    ensures refused { IfErr result (λ e. e ≡ NoMemory) }
{
    match *part {
        PatternPart::Character(character) => {
            if matches!(character, '%' | '_' | '\\') {
                text.push('\\')?;
            }
            text.push(character)?;
        }
        PatternPart::AnyCharacter => text.push('_')?,
        PatternPart::AnyString => text.push('%')?,
    }
    Ok(())
}
