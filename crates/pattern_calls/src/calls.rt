//! Calls of patterns.

use crate::pattern_inputs::{Input, PatternInputs};
use case_lines::{Answer, CallResult, Line, Named, text_of};
use like_patterns::{Case, Pattern, PatternError};
use std::alloc::Global;
use std::str;
use vortex_dtype::VortexError;

#[derive(Clone, Copy)]
enum Call {
    Parse,
    IsMatch(Case),
    IsMatchOfBytes(Case),
    Prefix,
    AsExact,
    AsPrefix,
    NeedsEscape,
}

const CALLS: [Named<Call, Input>; 9] = [
    ("pattern", Call::Parse, &[Input::Pattern]),
    (
        "like",
        Call::IsMatch(Case::Sensitive),
        &[Input::Text, Input::Pattern],
    ),
    (
        "ilike",
        Call::IsMatch(Case::Insensitive),
        &[Input::Text, Input::Pattern],
    ),
    (
        "like_of_bytes",
        Call::IsMatchOfBytes(Case::Sensitive),
        &[Input::Bytes, Input::Pattern],
    ),
    (
        "ilike_of_bytes",
        Call::IsMatchOfBytes(Case::Insensitive),
        &[Input::Bytes, Input::Pattern],
    ),
    ("pattern_prefix", Call::Prefix, &[Input::Pattern]),
    ("pattern_as_exact", Call::AsExact, &[Input::Pattern]),
    ("pattern_as_prefix", Call::AsPrefix, &[Input::Pattern]),
    ("pattern_needs_escape", Call::NeedsEscape, &[Input::Pattern]),
];

/// Answers the line if it names one of these calls.
pub fn answer(line: &mut Line<'_>) {
    line.lend(&CALLS, answer_of);
}

fn answer_of(alloc: Global, call: Call, given: &PatternInputs) -> CallResult {
    match Pattern::parse(alloc, given.spelling.as_str(), given.escape) {
        Ok(pattern) => answer_of_pattern(alloc, call, given, &pattern),
        Err(PatternError::OutOfMemory) => Err(VortexError::OutOfMemory),
        Err(PatternError::EscapeAtEnd { offset }) => escape_at_end(alloc, offset),
    }
}

fn answer_of_pattern(
    alloc: Global,
    call: Call,
    given: &PatternInputs,
    pattern: &Pattern,
) -> CallResult {
    match call {
        Call::Parse => text_of(alloc, pattern),
        Call::IsMatch(case) => Ok(Answer::Truth(pattern.is_match(case, given.text.as_str()))),
        Call::IsMatchOfBytes(case) => Ok(match_of_bytes(pattern, case, given.bytes.as_slice())),
        Call::Prefix => text_or_none(alloc, Some(pattern.prefix())),
        Call::AsExact => text_or_none(alloc, pattern.as_exact()),
        Call::AsPrefix => text_or_none(alloc, pattern.as_prefix()),
        Call::NeedsEscape => Ok(Answer::Truth(pattern.needs_escape())),
    }
}

/// Only strings are compared.
fn match_of_bytes(pattern: &Pattern, case: Case, bytes: &[u8]) -> Answer {
    match str::from_utf8(bytes) {
        Ok(text) => Answer::Truth(pattern.is_match_of_bytes(case, text.as_bytes())),
        Err(_) => Answer::Unmet,
    }
}

fn text_or_none(alloc: Global, text: Option<&str>) -> CallResult {
    match text {
        Some(text) => Ok(Answer::Text(String::from_str(alloc, text)?)),
        None => Ok(Answer::None),
    }
}

/// The refusal of a pattern that the escape at this offset ends.
fn escape_at_end(alloc: Global, offset: usize) -> CallResult {
    match format!(in alloc; "EscapeAtEnd {offset}") {
        Ok(text) => Ok(Answer::Written(text)),
        Err(_) => Err(VortexError::OutOfMemory),
    }
}
