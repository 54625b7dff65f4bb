// SPDX-License-Identifier: Apache-2.0
//! A search for which letters of ASCII have no case.

ghost use Rattle.std.specs.Prelude.{map};
ghost use Rattle.std.specs.Char.{to_ascii_lowercase};
ghost use Rattle.memchr.specs.Find.{FindsNeedle};

use memchr::memchr2;

/// The offset of the first place in a text where the wanted bytes stand, but for the case of letters.
pub(crate) fn find_insensitive(text: &[u8], wanted: &[u8]) -> Option<usize>
    ensures { FindsNeedle (map to_ascii_lowercase text.now) (map to_ascii_lowercase wanted.now) 0 result }
{
    let [first, ..] = wanted else {
        return Some(0);
    };
    let (lower, upper) = (first.to_ascii_lowercase(), first.to_ascii_uppercase());
    let mut place = 0;
    while let Some(step) = memchr2(lower, upper, &text[place..]) {
        place += step;
        if text.len() - place < wanted.len() {
            return None;
        }
        if text[place..place + wanted.len()].eq_ignore_ascii_case(wanted) {
            return Some(place);
        }
        place += 1;
    }
    None
}
