// SPDX-License-Identifier: Apache-2.0
//! The pieces of a pattern are read from its text.

ghost use Rattle.std.specs.Prelude.{◌≡◌, ◌++◌, [], ℕ, IfErr, IfOk, IfSome, OnOk, false, true, is_some};
ghost use Rattle.std.specs.Str.{chars};
ghost use Rattle.std.specs.String.{string_bytes};
ghost use Rattle.like_patterns.specs.declared.case.Case.TheVariants.{Sensitive};
ghost use Rattle.like_patterns.specs.declared.error.PatternError.TheVariants.{EscapeAtEnd, OutOfMemory};
ghost use Rattle.like_patterns.specs.Pieces.{are_in_runs, parts_of, piece_parts};
ghost use Rattle.like_patterns.specs.Reading.{Goes, IsOpen, IsWildcard, reader_parts};
ghost use Rattle.like_patterns.specs.Texts.{EndsInEscape, is_escape, pattern_of};

use crate::error::PatternError;
use crate::pieces::{Fixed, Piece};
use crate::text::Text;
use std::alloc::Global;
use std::mem;

/// The pieces that were read, and the characters behind them that stand for themselves.
#[derive(Drop)]
struct Reader {
    pieces: Vec<Piece>,
    run: String,
}

/// The pieces of a pattern.
pub(crate) fn read(
    alloc: Global,
    text: &str,
    escape: Option<char>,
) -> Result<Vec<Piece>, PatternError>
    ensures read { IfOk result (λ pieces. pattern_of escape (chars text.now) ≡ Some (parts_of Sensitive pieces.items)) }
    ensures runs { IfOk result (λ pieces. are_in_runs false pieces.items ≡ true) }
    ensures refused { (offset : ℕ) → result ≡ Err (EscapeAtEnd offset) → EndsInEscape escape text.now offset }
{
    let mut reader = Reader {
        pieces: Vec::new(alloc),
        run: String::new(alloc),
    };
    let mut pending = None;
    for character in text.chars() {
        pending = reader.take(alloc, character, escape, pending.is_some())?;
    }
    if let Some(escape) = pending {
        let offset = text.len() - escape.len_utf8();
        return Err(PatternError::EscapeAtEnd { offset });
    }
    reader.end_run(alloc)?;
    let Reader { pieces, run: _ } = reader;
    Ok(pieces)
}

/// Whether a character is the escape, if there is one.
#[inline]
fn is_escape(escape: Option<char>, character: char) -> bool
    ensures { result ≡ is_escape escape character }
{
    match escape {
        Some(escape) => character == escape,
        None => false,
    }
}

impl Reader {
    /// Takes a character, perhaps behind the escape. If it is the escape itself, that is given back.
    fn take(
        &mut self,
        alloc: Global,
        character: char,
        escape: Option<char>,
        is_escaped: bool,
    ) -> Result<Option<char>, PatternError>
        requires { IsOpen self.old }
        ensures read { IfOk result (λ pending. Goes escape (reader_parts self.old) is_escaped character
            (reader_parts self.new) (is_some pending)) }
        ensures open { OnOk result (IsOpen self.new) }
        ensures escapes { IfOk result (λ pending. IfSome pending (λ c. (c ≡ character) × (escape ≡ Some c))) }
        ensures memory { IfErr result (λ e. e ≡ OutOfMemory) }
    {
        if is_escaped {
            self.run.push(character)?;
            return Ok(None);
        }
        if is_escape(escape, character) {
            return Ok(Some(character));
        }
        match character {
            '%' => self.push(alloc, Piece::AnyString)?,
            '_' => self.push(alloc, Piece::Fixed(Fixed::AnyCharacter))?,
            _ => self.run.push(character)?,
        }
        Ok(None)
    }

    /// Adds a wildcard.
    fn push(&mut self, alloc: Global, wildcard: Piece) -> Result<(), PatternError>
        requires open { IsOpen self.old }
        requires wildcard { IsWildcard wildcard }
        ensures parts { OnOk result (reader_parts self.new ≡ reader_parts self.old ++ piece_parts Sensitive wildcard) }
        ensures open { OnOk result (IsOpen self.new) }
        ensures memory { IfErr result (λ e. e ≡ OutOfMemory) }
    {
        self.end_run(alloc)?;
        self.pieces.push(wildcard)?;
        Ok(())
    }

    /// Makes a piece of the characters that stand for themselves, if there are any.
    fn end_run(&mut self, alloc: Global) -> Result<(), PatternError>
        requires { IsOpen self.old }
        ensures parts { OnOk result (parts_of Sensitive self.new.pieces.items ≡ reader_parts self.old) }
        ensures run { OnOk result (string_bytes self.new.run ≡ []) }
        ensures runs { OnOk result (are_in_runs false self.new.pieces.items ≡ true) }
        ensures memory { IfErr result (λ e. e ≡ OutOfMemory) }
    {
        if self.run.is_empty() {
            return Ok(());
        }
        let run = mem::replace(&mut self.run, String::new(alloc));
        let text = Text::new(alloc, run)?;
        self.pieces.push(Piece::Fixed(Fixed::Text(text)))?;
        Ok(())
    }
}
