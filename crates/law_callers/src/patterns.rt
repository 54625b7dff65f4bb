//! Patterns of `like`: strings that they match for certain or cannot match, and what is written of them.

ghost use Rattle.std.specs.Prelude.{◌≡◌, ◌↔◌, ◌++◌, ℕ, List, IfOk, IfSome, IsTrue, false, true};
ghost use Rattle.std.specs.Str.{chars};
ghost use Rattle.like_patterns.specs.Patterns.{is_like};
ghost use Rattle.like_patterns.specs.declared.case.Case.TheVariants.{Sensitive};

use like_patterns::laws::{
    exact_match, matches_begin_with_prefix, prefix_matches, texts_come_back,
};
use like_patterns::{Pattern, PatternError};
use std::alloc::Global;

/// Whether a string can be skipped: it does not begin with what stands before the pattern's first
/// wildcard.
pub fn can_skip_string(pattern: &Pattern, text: &str) -> bool
    ensures { result ≡ true → is_like Sensitive pattern.now (chars text.now) ≡ false }
{
    matches_begin_with_prefix();
    !begins_with(text, pattern.prefix())
}

/// Whether the pattern matches a string, by one comparison of bytes. `None` if it has other wildcards
/// than one `%` at its end.
pub fn match_at_once(pattern: &Pattern, text: &str) -> Option<bool>
    ensures { IfSome result (λ found. found ≡ is_like Sensitive pattern.now (chars text.now)) }
{
    exact_match();
    prefix_matches();
    if let Some(exact) = pattern.as_exact() {
        return Some(are_same(text, exact));
    }
    match pattern.as_prefix() {
        Some(prefix) => Some(begins_with(text, prefix)),
        None => None,
    }
}

/// Whether two strings have the same characters.
fn are_same(one: &str, other: &str) -> bool
    ensures { IsTrue result ↔ (chars one.now ≡ chars other.now) }
{
    one == other
}

/// Whether a string begins with the characters of another.
fn begins_with(text: &str, prefix: &str) -> bool
    ensures { IsTrue result ↔ ((rest : List ℕ) × (chars text.now ≡ chars prefix.now ++ rest)) }
{
    text.as_bytes().starts_with(prefix.as_bytes())
}

/// Writes a pattern, and reads it again, without an escape if nothing is escaped.
pub fn write_and_read(alloc: Global, pattern: &Pattern) -> Result<Pattern, PatternError>
    ensures { IfOk result (λ again. again ≡ pattern.now) }
{
    texts_come_back();
    let Ok(text) = format!(in alloc; "{pattern}") else {
        return Err(PatternError::OutOfMemory);
    };
    let escape = if pattern.needs_escape() {
        Some('\\')
    } else {
        None
    };
    Pattern::parse(alloc, text.as_str(), escape)
}
