// SPDX-License-Identifier: Apache-2.0
//! Laws of patterns, each the contract of a function that does nothing.

ghost use Rattle.like_patterns.specs.Laws.{ExactMatch, MatchesBegin, PlainTextsComeBack, PrefixMatches, TextsComeBack};

/// A string that a pattern matches begins with what stands before the first `_` or `%`.
pub fn matches_begin_with_prefix()
    ensures { MatchesBegin }
{}

/// A pattern without `_` and `%` matches one string.
pub fn exact_match()
    ensures { ExactMatch }
{}

/// A pattern whose only `%` ends it, without `_`, matches all that begins as it does.
pub fn prefix_matches()
    ensures { PrefixMatches }
{}

/// What is written of a pattern is read as that pattern: with the escape `\`, and without one if nothing
/// is escaped.
pub fn texts_come_back()
    ensures escaped { TextsComeBack }
    ensures plain { PlainTextsComeBack }
{}
