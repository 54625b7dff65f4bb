// SPDX-License-Identifier: Apache-2.0
//! One character is cut off a text, at its front or its end.

ghost use Rattle.std.specs.Prelude.{◌≡◌, ◌↔◌, ◌<◌, [], IsTrue, MatchOption, IfSome, length};
ghost use Rattle.std.specs.Str.{IsUtf8};
ghost use Rattle.like_patterns.specs.Characters.{BeginsWithOne, EndsWithOne, IsInside};

/// Whether a byte is not the first of its character.
#[inline(always)]
fn is_inside(byte: u8) -> bool
    ensures { IsTrue result ↔ IsInside byte }
{
    128 <= byte && byte < 192
}

/// What follows the first character, if there is one.
#[inline]
pub(crate) fn after_character(text: &[u8]) -> Option<&[u8]>
    requires { IsUtf8 text.now }
    ensures rest { MatchOption result (text.now ≡ []) (λ rest. BeginsWithOne text.now rest.now) }
    ensures shorter { IfSome result (λ rest. length rest.now < length text.now) }
{
    let [_, tail @ ..] = text else {
        return None;
    };
    let mut rest = tail;
    while let [byte, others @ ..] = rest {
        if !is_inside(*byte) {
            return Some(rest);
        }
        rest = others;
    }
    Some(rest)
}

/// What stands before the last character, if there is one.
#[inline]
pub(crate) fn before_character(text: &[u8]) -> Option<&[u8]>
    requires { IsUtf8 text.now }
    ensures { MatchOption result (text.now ≡ []) (λ front. EndsWithOne text.now front.now) }
{
    let mut rest = text;
    while let [front @ .., byte] = rest {
        if !is_inside(*byte) {
            return Some(front);
        }
        rest = front;
    }
    None
}
