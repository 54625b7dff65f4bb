// SPDX-License-Identifier: Apache-2.0
//! The pieces of a pattern.

ghost use Rattle.std.specs.Prelude.{◌≡◌, IfOk, IfSome, MatchOption};
ghost use Rattle.std.specs.Str.{IsUtf8};
ghost use Rattle.like_patterns.specs.Characters.{compared};
ghost use Rattle.like_patterns.specs.Pieces.{FailsAtEnd, FailsAtFront, StripsEnd};
ghost use Rattle.like_patterns.specs.Pieces.{StripsFront, fixed_parts, piece_shape};

use crate::case::Case;
use crate::characters::{after_character, before_character};
use crate::text::Text;
use std::alloc::{AllocError, Global};

/// What stands for a number of characters that the pattern fixes.
#[derive(Drop)]
pub(crate) enum Fixed {
    /// These characters.
    Text(Text),
    /// `_`: one character.
    AnyCharacter,
}

/// A piece of a pattern. No two texts stand beside each other.
#[derive(Drop)]
pub(crate) enum Piece {
    /// For a fixed number of characters.
    Fixed(Fixed),
    /// `%`: any string.
    AnyString,
}

impl Fixed {
    /// What follows, if the text begins with it.
    #[inline]
    pub(crate) fn after<'a>(&self, case: Case, text: &'a [u8]) -> Option<&'a [u8]>
        requires { IsUtf8 text.now }
        ensures rest { MatchOption result (FailsAtFront (fixed_parts case self.now) (compared case text.now))
            (λ rest. StripsFront (fixed_parts case self.now) (compared case text.now) (compared case rest.now)) }
        ensures utf8 { IfSome result (λ rest. IsUtf8 rest.now) }
    {
        match self {
            Fixed::Text(wanted) => wanted.after(case, text),
            Fixed::AnyCharacter => after_character(text),
        }
    }

    /// What stands before, if the text ends with it.
    #[inline]
    pub(crate) fn before<'a>(&self, case: Case, text: &'a [u8]) -> Option<&'a [u8]>
        requires { IsUtf8 text.now }
        ensures front { MatchOption result (FailsAtEnd (fixed_parts case self.now) (compared case text.now))
            (λ front. StripsEnd (fixed_parts case self.now) (compared case text.now) (compared case front.now)) }
        ensures utf8 { IfSome result (λ front. IsUtf8 front.now) }
    {
        match self {
            Fixed::Text(wanted) => wanted.before(case, text),
            Fixed::AnyCharacter => before_character(text),
        }
    }
}

impl Piece {
    /// A copy with memory of its own.
    pub(crate) fn clone(&self, alloc: Global) -> Result<Piece, AllocError>
        ensures { IfOk result (λ copy. piece_shape copy ≡ piece_shape self.now) }
    {
        match self {
            Piece::Fixed(Fixed::Text(text)) => Ok(Piece::Fixed(Fixed::Text(text.clone(alloc)?))),
            Piece::Fixed(Fixed::AnyCharacter) => Ok(Piece::Fixed(Fixed::AnyCharacter)),
            Piece::AnyString => Ok(Piece::AnyString),
        }
    }
}
