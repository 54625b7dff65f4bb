//! Which bytes can come next in the key of a text.

ghost use Rattle.std.specs.Prelude.{◌≡◌, ◌≤◌, ◌⊎◌, ◌∷◌, [], MatchOption, length, drop, IsUtf8};
ghost use Rattle.vortex_row.specs.Keys.{inverted};
ghost use Rattle.vortex_row.specs.Reading.{BeginsWithOne, ContinueWith, IsStuck, NoneBegins};
ghost use Rattle.vortex_row.specs.Strings.{ComesNext, IsEscaped, IsProper, highest_after, lowest_after};

use crate::reader::inverted_if;
use crate::tags::{END, ESCAPE};

/// What may come next in the key of a text.
#[derive(Clone, Copy)]
enum Next {
    /// A character, or the end.
    Character,
    /// The second byte of the two that a byte 0 or 1 is written as.
    Escaped,
    /// A byte of a character, from `low` to `high`, and so many more.
    Within { low: u8, high: u8, more: u8 },
}

/// What may come after the first byte of a character. `None` if it is no such byte.
#[tactic(auto, using(crate::proofs::TextSteps::leads))]
fn after_lead(byte: u8) -> Option<Next>
    requires { 2 ≤ byte }
    ensures { MatchOption result (NoneBegins (ComesNext Next.Character) byte)
        (λ next. IsProper next
        × ContinueWith (byte ∷ []) (ComesNext Next.Character) (ComesNext next)) }
{
    let more = match byte {
        0..=127 => return Some(Next::Character),
        194..=223 => 0,
        224..=239 => 1,
        240..=244 => 2,
        _ => return None,
    };
    Some(Next::Within {
        low: lowest_after(byte),
        high: highest_after(byte),
        more,
    })
}

/// The least byte that may follow this first byte of a character.
fn lowest_after(byte: u8) -> u8
    ensures { result ≡ lowest_after byte }
{
    match byte {
        224 => 160,
        240 => 144,
        _ => 128,
    }
}

/// The greatest byte that may follow this first byte of a character.
fn highest_after(byte: u8) -> u8
    ensures { result ≡ highest_after byte }
{
    match byte {
        237 => 159,
        244 => 143,
        _ => 191,
    }
}

/// What may come after this byte. `None` if it cannot come, and after the end.
#[tactic(auto, using(crate::proofs::TextSteps::nexts))]
fn after(next: Next, byte: u8) -> Option<Next>
    requires { IsProper next }
    ensures { MatchOption result
        (NoneBegins (ComesNext next) byte ⊎ ((next ≡ Next.Character) × (byte ≡ 0)))
        (λ then. IsProper then × ContinueWith (byte ∷ []) (ComesNext next) (ComesNext then)) }
{
    match (next, byte) {
        (Next::Character, END) => None,
        (Next::Character, ESCAPE) => Some(Next::Escaped),
        (Next::Character, _) => after_lead(byte),
        (Next::Escaped, 1 | 2) => Some(Next::Character),
        (Next::Within { low, high, more }, _) if low <= byte && byte <= high => {
            Some(if more == 0 {
                Next::Character
            } else {
                Next::Within {
                    low: 128,
                    high: 191,
                    more: more - 1,
                }
            })
        }
        _ => None,
    }
}

/// The offset of the first byte that cannot come in the escaped encoding of a text, or of its end
/// if none is there.
pub(super) fn first_bad(bytes: &[u8], invert: bool) -> usize
    ensures within { result ≤ length bytes.now }
    ensures bad { IsStuck (IsEscaped IsUtf8) (inverted invert bytes.now)
        (drop result (inverted invert bytes.now))
        ⊎ BeginsWithOne (IsEscaped IsUtf8) (inverted invert bytes.now) }
{
    let mut next = Next::Character;
    for place in 0..bytes.len() {
        match after(next, inverted_if(invert, bytes[place])) {
            Some(then) => next = then,
            None => return place,
        }
    }
    bytes.len()
}
