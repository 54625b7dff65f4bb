// SPDX-License-Identifier: Apache-2.0
//! Whether the case of letters counts.

ghost use Rattle.std.specs.Prelude.{◌≡◌, ◌↔◌, IsTrue};
ghost use Rattle.like_patterns.specs.Characters.{compared};

/// Whether the case of ASCII's letters counts.
#[derive(Clone, Copy, Debug, PartialEq, Eq)]
pub enum Case {
    /// It counts, as for `like`.
    Sensitive,
    /// It does not count, as for `ilike`. Letters beyond ASCII are equal to themselves alone.
    Insensitive,
}

/// Whether two texts are the same.
#[inline]
pub(crate) fn are_same(case: Case, one: &[u8], other: &[u8]) -> bool
    ensures { IsTrue result ↔ (compared case one.now ≡ compared case other.now) }
{
    match case {
        Case::Sensitive => one == other,
        Case::Insensitive => one.eq_ignore_ascii_case(other),
    }
}
