// SPDX-License-Identifier: Apache-2.0
//! Characters of a pattern that stand for themselves, one behind another.

ghost use Rattle.std.specs.Prelude.{◌≡◌};
ghost use Rattle.std.specs.String.{string_bytes};

use crate::case::{Case, are_same};
use crate::searching::find_insensitive;
use memchr::memmem::Finder;
use std::alloc::{AllocError, Global};

/// Characters that stand for themselves, and what was made ready to search for them.
#[derive(Drop)]
pub(crate) struct Text {
    pub(crate) string: String,
    finder: Finder<'static>,
    ghost same: { finder ≡ string_bytes string },
}

impl Text {
    ghost use Rattle.std.specs.Prelude.{MatchOption, IfOk, length};
    ghost use Rattle.memchr.specs.Find.{FindsNeedle};
    ghost use Rattle.like_patterns.specs.Characters.{Begins, BeginsOtherwise, Ends, EndsOtherwise, compared};

    /// These characters.
    pub(crate) fn new(alloc: Global, string: String) -> Result<Text, AllocError>
        ensures { IfOk result (λ text. text.string ≡ string) }
    {
        let finder = Finder::new(string.as_bytes()).into_owned(alloc)?;
        Ok(Text { string, finder })
    }

    /// A copy with memory of its own.
    pub(crate) fn clone(&self, alloc: Global) -> Result<Text, AllocError>
        ensures { IfOk result (λ copy. string_bytes copy.string ≡ string_bytes self.now.string) }
    {
        Text::new(alloc, String::from_str(alloc, self.string.as_str())?)
    }

    /// How many bytes they have.
    #[inline(always)]
    pub(crate) fn len(&self) -> usize
        ensures { result ≡ length (string_bytes self.now.string) }
    {
        self.string.len()
    }

    /// What follows them, if the text begins with them.
    #[inline]
    pub(crate) fn after<'a>(&self, case: Case, text: &'a [u8]) -> Option<&'a [u8]>
        ensures { MatchOption result (BeginsOtherwise case text.now (string_bytes self.now.string))
            (λ rest. Begins case text.now (string_bytes self.now.string) rest.now) }
    {
        if text.len() < self.len() {
            return None;
        }
        let (front, rest) = text.split_at(self.len());
        if are_same(case, front, self.string.as_bytes()) {
            Some(rest)
        } else {
            None
        }
    }

    /// What stands before them, if the text ends with them.
    #[inline]
    pub(crate) fn before<'a>(&self, case: Case, text: &'a [u8]) -> Option<&'a [u8]>
        ensures { MatchOption result (EndsOtherwise case text.now (string_bytes self.now.string))
            (λ front. Ends case text.now (string_bytes self.now.string) front.now) }
    {
        if text.len() < self.len() {
            return None;
        }
        let (front, rest) = text.split_at(text.len() - self.len());
        if are_same(case, rest, self.string.as_bytes()) {
            Some(front)
        } else {
            None
        }
    }

    /// The offset of the first place in a text where they stand.
    #[inline]
    pub(crate) fn find(&self, case: Case, text: &[u8]) -> Option<usize>
        ensures { FindsNeedle (compared case text.now) (compared case (string_bytes self.now.string)) 0 result }
    {
        match case {
            Case::Sensitive => self.finder.find(text),
            Case::Insensitive => find_insensitive(text, self.string.as_bytes()),
        }
    }
}
