// SPDX-License-Identifier: Apache-2.0
//! Patterns: read, compared with strings, looked into, and written.

ghost use Rattle.std.specs.Prelude.{◌≡◌, ◌++◌, ◌∷◌, ◌↔◌, ◌-◌, ◌^◌, [], ℕ, List, IfOk, IsTrue, MatchOption, Some};
ghost use Rattle.std.specs.Prelude.{false, length, map, min, true};
ghost use Rattle.std.specs.Fmt.{WritesOnOk};
ghost use Rattle.std.specs.List.{list_any};
ghost use Rattle.std.specs.Str.{IsUtf8, chars, encode_utf8_all};
ghost use Rattle.like_patterns.specs.declared.case.Case.TheVariants.{Sensitive};
ghost use Rattle.like_patterns.specs.declared.error.PatternError.TheVariants.{EscapeAtEnd};
ghost use Rattle.like_patterns.specs.declared.pieces.Piece.TheVariants.{AnyString};
ghost use Rattle.like_patterns.specs.Patterns.{Part, any_string, is_like, leading, literal};
ghost use Rattle.like_patterns.specs.Pieces.{are_in_runs, literals, parts_of, piece_parts, piece_shape};
ghost use Rattle.like_patterns.specs.Texts.{EndsInEscape, has_special, is_escape, is_special, part_text, pattern_of};
ghost use Rattle.like_patterns.specs.Texts.{pattern_text, quotable, quotable_text};

use crate::case::Case;
use crate::error::PatternError;
use crate::matching::is_match;
use crate::pieces::{Fixed, Piece};
use crate::reading::read;
use std::alloc::{AllocError, Global};
use std::fmt::{self, Debug, Display, Formatter, Write};
use std::marker::Model;

/// A pattern of `like`.
#[derive(Drop)]
pub struct Pattern {
    pieces: Vec<Piece>,
}

impl Model for Pattern {
    ghost Value = { List Part };

    ghost view = { λ pattern. parts_of Sensitive pattern.pieces.items };

    ghost invariant = { λ pattern. are_in_runs false pattern.pieces.items ≡ true };
}

impl Pattern {
    /// The pattern that a text spells. Behind the escape, if there is one, each character stands for
    /// itself.
    pub fn parse(alloc: Global, text: &str, escape: Option<char>) -> Result<Pattern, PatternError>
        ensures read { IfOk result (λ pattern. pattern_of escape (chars text.now) ≡ Some pattern) }
        ensures refused { (offset : ℕ) → result ≡ Err (EscapeAtEnd offset) → EndsInEscape escape text.now offset }
    {
        let pieces = read(alloc, text, escape)?;
        Ok(Pattern { pieces })
    }

    /// Whether the pattern matches a string.
    #[inline]
    pub fn is_match(&self, case: Case, text: &str) -> bool
        ensures { result ≡ is_like case self.now (chars text.now) }
    {
        is_match(case, &self.pieces, text.as_bytes())
    }

    /// Whether the pattern matches the string that bytes in UTF-8 spell.
    #[inline]
    pub fn is_match_of_bytes(&self, case: Case, text: &[u8]) -> bool
        requires { IsUtf8 text.now }
        ensures { result ≡ is_like case self.now (chars text.now) }
    {
        is_match(case, &self.pieces, text)
    }

    /// What stands before the first `_` or `%`. Each string that the pattern matches begins so, unless
    /// letters have no case.
    pub fn prefix(&self) -> &str
        ensures { result.now ≡ encode_utf8_all (leading self.now) }
    {
        leading_text(&self.pieces).0
    }

    /// The only string that it matches, if it has no `_` and no `%`.
    pub fn as_exact(&self) -> Option<&str>
        ensures { MatchOption result (¬ ((cs : List ℕ) × (self.now ≡ literals cs)))
            (λ text. self.now ≡ literals (chars text.now)) }
    {
        let (text, behind) = leading_text(&self.pieces);
        if behind.is_empty() { Some(text) } else { None }
    }

    /// What stands before the `%`, if that ends the pattern, and it has no other and no `_`.
    pub fn as_prefix(&self) -> Option<&str>
        ensures { MatchOption result (¬ ((cs : List ℕ) × (self.now ≡ literals cs ++ any_string ∷ [])))
            (λ text. self.now ≡ literals (chars text.now) ++ any_string ∷ []) }
    {
        let (text, behind) = leading_text(&self.pieces);
        if is_any_string(behind) {
            Some(text)
        } else {
            None
        }
    }

    /// Whether something is escaped in the pattern as it is written: a `%`, `_` or `\` that stands for
    /// itself. If nothing is, the text spells the pattern without an escape too.
    pub fn needs_escape(&self) -> bool
        ensures { result ≡ has_special self.now }
    {
        for piece in &self.pieces {
            if is_escaped(piece) {
                return true;
            }
        }
        false
    }

    /// How many characters stand for themselves in the pattern, with each `_` and `%`, as far as a `usize`
    /// counts.
    pub fn count_parts(&self) -> usize
        ensures { result ≡ min (length self.now) (2 ^ 64 - 1) }
    {
        count_parts(&self.pieces)
    }

    /// Writes the pattern as its `Display` does, but each quote in it twice.
    pub fn write_doubled<W: Write>(&self, quote: char, f: &mut Formatter<W>) -> fmt::Result
        ensures { WritesOnOk W.write_str_gives f.old result
            (quotable_text (Some quote) (pattern_text self.now)) f.new }
    {
        write_pieces(&self.pieces, Some(quote), f)
    }

    /// A copy with memory of its own.
    pub fn clone(&self, alloc: Global) -> Result<Pattern, AllocError>
        ensures { IfOk result (λ copy. copy ≡ self.now) }
    {
        let pieces = copy_pieces(alloc, &self.pieces)?;
        Ok(Pattern { pieces })
    }
}

/// How many parts the pieces are, as far as a `usize` counts.
fn count_parts(pieces: &[Piece]) -> usize
    ensures { result ≡ min (length (parts_of Sensitive pieces.now)) (2 ^ 64 - 1) }
{
    let mut count = 0_usize;
    for piece in pieces {
        count = count.saturating_add(count_in(piece));
    }
    count
}

/// How many parts a piece is.
fn count_in(piece: &Piece) -> usize
    ensures { result ≡ length (piece_parts Sensitive piece.now) }
{
    match piece {
        Piece::Fixed(Fixed::Text(text)) => count_characters(text.string.as_str()),
        Piece::Fixed(Fixed::AnyCharacter) => 1,
        Piece::AnyString => 1,
    }
}

/// How many characters a text has.
fn count_characters(text: &str) -> usize
    ensures { result ≡ length (literals (chars text.now)) }
{
    text.chars().count()
}

/// Copies of the pieces, in order.
fn copy_pieces(alloc: Global, pieces: &[Piece]) -> Result<Vec<Piece>, AllocError>
    ensures { IfOk result (λ copies. map piece_shape copies.items ≡ map piece_shape pieces.now) }
{
    let mut copies = Vec::with_capacity(alloc, pieces.len())?;
    for piece in pieces {
        copies.push(piece.clone(alloc)?)?;
    }
    Ok(copies)
}

/// The characters before the first wildcard, and the pieces behind them.
fn leading_text(pieces: &[Piece]) -> (&str, &[Piece])
    requires { are_in_runs false pieces.now ≡ true }
    ensures parts { parts_of Sensitive pieces.now ≡ literals (chars result.0.now) ++ parts_of Sensitive result.1.now }
    ensures behind { are_in_runs true result.1.now ≡ true }
    ensures utf8 { IsUtf8 result.0.now }
{
    match pieces {
        [first, behind @ ..] => match first {
            Piece::Fixed(Fixed::Text(text)) => (text.string.as_str(), behind),
            _ => ("", pieces),
        },
        [] => ("", pieces),
    }
}

/// Whether the pieces are one `%`.
fn is_any_string(pieces: &[Piece]) -> bool
    ensures { IsTrue result ↔ (pieces.now ≡ AnyString ∷ []) }
{
    match pieces {
        [only] => match only {
            Piece::AnyString => true,
            Piece::Fixed(_) => false,
        },
        _ => false,
    }
}

/// Whether something is escaped in a piece.
fn is_escaped(piece: &Piece) -> bool
    ensures { result ≡ has_special (piece_parts Sensitive piece.now) }
{
    match piece {
        Piece::Fixed(fixed) => match fixed {
            Fixed::Text(text) => has_special(text.string.as_bytes()),
            Fixed::AnyCharacter => false,
        },
        Piece::AnyString => false,
    }
}

/// Whether a byte of the text has a meaning of its own where the escape is `\`.
fn has_special(text: &[u8]) -> bool
    ensures { result ≡ list_any is_special text.now }
{
    text.iter().any(|byte| matches!(*byte, b'%' | b'_' | b'\\'))
}

/// Whether a character is the quote, if there is one.
fn is_quote(quote: Option<char>, character: char) -> bool
    ensures { result ≡ is_escape quote character }
{
    match quote {
        Some(quote) => character == quote,
        None => false,
    }
}

/// Writes a character, twice if it is the quote.
fn write_quotable<W: Write>(
    character: char,
    quote: Option<char>,
    f: &mut Formatter<W>,
) -> fmt::Result
    ensures { WritesOnOk W.write_str_gives f.old result (quotable quote character) f.new }
{
    if is_quote(quote, character) {
        f.write_char(character)?;
    }
    f.write_char(character)
}

/// Writes a character that stands for itself, behind a `\` if it has a meaning of its own.
fn write_literal<W: Write>(
    character: char,
    quote: Option<char>,
    f: &mut Formatter<W>,
) -> fmt::Result
    ensures { WritesOnOk W.write_str_gives f.old result
        (quotable_text quote (part_text (literal character))) f.new }
{
    if matches!(character, '%' | '_' | '\\') {
        write_quotable('\\', quote, f)?;
    }
    write_quotable(character, quote, f)
}

/// Writes characters that stand for themselves.
fn write_text<W: Write>(text: &str, quote: Option<char>, f: &mut Formatter<W>) -> fmt::Result
    ensures { WritesOnOk W.write_str_gives f.old result
        (quotable_text quote (pattern_text (literals (chars text.now)))) f.new }
{
    for character in text.chars() {
        write_literal(character, quote, f)?;
    }
    Ok(())
}

/// Writes a piece.
fn write_piece<W: Write>(piece: &Piece, quote: Option<char>, f: &mut Formatter<W>) -> fmt::Result
    ensures { WritesOnOk W.write_str_gives f.old result
        (quotable_text quote (pattern_text (piece_parts Sensitive piece.now))) f.new }
{
    match piece {
        Piece::Fixed(Fixed::Text(text)) => write_text(text.string.as_str(), quote, f),
        Piece::Fixed(Fixed::AnyCharacter) => write_quotable('_', quote, f),
        Piece::AnyString => write_quotable('%', quote, f),
    }
}

/// Writes pieces, and each quote in them twice, if there is one.
fn write_pieces<W: Write>(
    pieces: &[Piece],
    quote: Option<char>,
    f: &mut Formatter<W>,
) -> fmt::Result
    ensures { WritesOnOk W.write_str_gives f.old result
        (quotable_text quote (pattern_text (parts_of Sensitive pieces.now))) f.new }
{
    for piece in pieces {
        write_piece(piece, quote, f)?;
    }
    Ok(())
}

/// The pattern as a text whose escape is `\`.
impl Display for Pattern {
    ghost output = { λ pattern. Some (encode_utf8_all (pattern_text pattern)) };

    fn fmt<W: Write>(&self, f: &mut Formatter<W>) -> fmt::Result {
        write_pieces(&self.pieces, None, f)
    }
}

/// As `Display` writes it.
impl Debug for Pattern {
    fn fmt<W: Write>(&self, f: &mut Formatter<W>) -> fmt::Result {
        Display::fmt(self, f)
    }
}
