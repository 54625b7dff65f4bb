// SPDX-License-Identifier: Apache-2.0
//! Texts are compared with pieces: from the front up to the first `%`, from the end up to the last, and
//! between them from one `%` to the next.

ghost use Rattle.std.specs.Prelude.{◌≡◌, ◌∷◌, ◌++◌, ◌≤◌, IfSome, MatchOption, false, length};
ghost use Rattle.std.specs.Str.{IsUtf8, chars};
ghost use Rattle.std.specs.String.{string_bytes};
ghost use Rattle.like_patterns.specs.Characters.{compared};
ghost use Rattle.like_patterns.specs.Patterns.{any_string, matches};
ghost use Rattle.like_patterns.specs.Pieces.{FailsAtFront, StopsAtAny, StripsTo, literals, matches_inside, parts_of};
ghost use Rattle.like_patterns.specs.Pieces.{piece_parts};

use crate::case::Case;
use crate::characters::after_character;
use crate::pieces::{Fixed, Piece};
use crate::text::Text;

/// Whether the pieces match the text.
pub(crate) fn is_match(case: Case, pieces: &[Piece], text: &[u8]) -> bool
    requires { IsUtf8 text.now }
    ensures { result ≡ matches (parts_of case pieces.now) (chars (compared case text.now)) }
{
    match strip_front(case, pieces, text) {
        None => false,
        Some((left, rest)) => match left {
            [] => rest.is_empty(),
            [_, behind @ ..] => is_match_behind_any(case, behind, rest),
        },
    }
}

/// The pieces from the first `%` on, and what is left of the text for them, if it begins as those before.
#[inline]
fn strip_front<'p, 't>(
    case: Case,
    pieces: &'p [Piece],
    text: &'t [u8],
) -> Option<(&'p [Piece], &'t [u8])>
    requires { IsUtf8 text.now }
    ensures left { MatchOption result (FailsAtFront (parts_of case pieces.now) (compared case text.now))
        (λ left. StripsTo (parts_of case pieces.now) (compared case text.now)
        (parts_of case left.0.now) (compared case left.1.now)) }
    ensures stops { IfSome result (λ left. StopsAtAny left.0.now) }
    ensures shorter { IfSome result (λ left. length left.0.now ≤ length pieces.now) }
    ensures utf8 { IfSome result (λ left. IsUtf8 left.1.now) }
{
    let mut left = pieces;
    let mut rest = text;
    while let [piece, behind @ ..] = left {
        match piece {
            Piece::AnyString => return Some((left, rest)),
            Piece::Fixed(fixed) => rest = fixed.after(case, rest)?,
        }
        left = behind;
    }
    Some((left, rest))
}

/// Whether the pieces match some end of the text.
fn is_match_behind_any(case: Case, pieces: &[Piece], text: &[u8]) -> bool
    requires { IsUtf8 text.now }
    ensures { result ≡ matches (any_string ∷ parts_of case pieces.now) (chars (compared case text.now)) }
{
    let mut left = pieces;
    let mut rest = text;
    while let Some((piece, before)) = left.split_last() {
        match piece {
            Piece::AnyString => return is_match_inside(case, before, rest),
            Piece::Fixed(fixed) => match fixed.before(case, rest) {
                Some(front) => rest = front,
                None => return false,
            },
        }
        left = before;
    }
    true
}

/// Whether the pieces match some part of the text.
fn is_match_inside(case: Case, pieces: &[Piece], text: &[u8]) -> bool
    requires { IsUtf8 text.now }
    ensures { result ≡ matches_inside (parts_of case pieces.now) (compared case text.now) }
{
    let mut left = pieces;
    let mut rest = text;
    while let [piece, behind @ ..] = left {
        match strip_piece(case, piece, behind, rest) {
            Some((next, after)) => {
                left = next;
                rest = after;
            }
            None => return false,
        }
    }
    true
}

/// The pieces that are left, and the text that is left for them, behind the first place where this piece
/// and those up to the next `%` match. A `_` is taken from the front, since that leaves as much to find.
#[inline]
fn strip_piece<'p, 't>(
    case: Case,
    piece: &Piece,
    behind: &'p [Piece],
    text: &'t [u8],
) -> Option<(&'p [Piece], &'t [u8])>
    requires { IsUtf8 text.now }
    ensures left { MatchOption result
        (matches_inside (piece_parts case piece.now ++ parts_of case behind.now) (compared case text.now) ≡ false)
        (λ left. matches_inside (piece_parts case piece.now ++ parts_of case behind.now) (compared case text.now)
        ≡ matches_inside (parts_of case left.0.now) (compared case left.1.now)) }
    ensures shorter { IfSome result (λ left. length left.0.now ≤ length behind.now) }
    ensures utf8 { IfSome result (λ left. IsUtf8 left.1.now) }
{
    match piece {
        Piece::AnyString => Some((behind, text)),
        Piece::Fixed(fixed) => match fixed {
            Fixed::AnyCharacter => match after_character(text) {
                Some(rest) => Some((behind, rest)),
                None => None,
            },
            Fixed::Text(wanted) => find_piece(case, wanted, behind, text),
        },
    }
}

/// The same behind the first place of these characters that the pieces up to the next `%` follow.
fn find_piece<'p, 't>(
    case: Case,
    wanted: &Text,
    behind: &'p [Piece],
    text: &'t [u8],
) -> Option<(&'p [Piece], &'t [u8])>
    requires { IsUtf8 text.now }
    ensures left { MatchOption result (matches_inside (literals (chars (compared case (string_bytes wanted.now.string)))
        ++ parts_of case behind.now) (compared case text.now) ≡ false)
        (λ left. matches_inside (literals (chars (compared case (string_bytes wanted.now.string)))
        ++ parts_of case behind.now) (compared case text.now)
        ≡ matches_inside (parts_of case left.0.now) (compared case left.1.now)) }
    ensures shorter { IfSome result (λ left. length left.0.now ≤ length behind.now) }
    ensures utf8 { IfSome result (λ left. IsUtf8 left.1.now) }
{
    let mut rest = text;
    while let Some(place) = wanted.find(case, rest) {
        let found = &rest[place..];
        let after = &found[wanted.len()..];
        if let Some(left) = strip_front(case, behind, after) {
            return Some(left);
        }
        match after_character(found) {
            Some(next) => rest = next,
            None => return None,
        }
    }
    None
}
