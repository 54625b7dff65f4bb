//! What calls of filters answer, and how it is written.

use case_lines::{Output, WriteAnswer, truth_word, write_bytes, write_count, write_places};
use filter_encoding::FilterEncodingError;
use filter_pruning::Outcomes;
use filter_sql::{Expected, ParseError};
use vortex_filter::{FilterError, Truth};

/// What a call of filters answers.
#[derive(Drop)]
pub enum FilterAnswer {
    /// A filter, as SQL text.
    Sql(String),
    /// What a filter is on a row.
    Truth(Truth),
    /// Whether a row, or a row of a zone, matches.
    Matches(bool),
    /// The places of the rows or zones that match.
    Places(Vec<usize>),
    Outcomes(Outcomes),
    /// The filter fits the columns.
    Fits,
    Refused(FilterError),
    TextRefused(ParseError),
    /// A filter in bytes.
    Bytes(Vec<u8>),
    EncodingRefused(FilterEncodingError),
}

impl WriteAnswer for FilterAnswer {
    fn write_answer(&self, out: &mut Output) {
        match self {
            FilterAnswer::Sql(text) => out.word(text),
            FilterAnswer::Truth(truth) => out.word(filter_truth_word(*truth)),
            FilterAnswer::Matches(matches) => out.word(truth_word(*matches)),
            FilterAnswer::Places(places) => write_places(out, places),
            FilterAnswer::Outcomes(outcomes) => write_outcomes(out, *outcomes),
            FilterAnswer::Fits => out.word("ok"),
            FilterAnswer::Refused(refusal) => write_refusal(out, *refusal),
            FilterAnswer::TextRefused(refusal) => write_text_refusal(out, *refusal),
            FilterAnswer::Bytes(bytes) => write_bytes(out, bytes),
            FilterAnswer::EncodingRefused(refusal) => write_encoding_refusal(out, *refusal),
        }
    }
}

fn filter_truth_word(truth: Truth) -> &'static str {
    match truth {
        Truth::False => "false",
        Truth::Unknown => "unknown",
        Truth::True => "true",
    }
}

/// Writes the truths that are possible, with spaces between them, or `none`.
fn write_outcomes(out: &mut Output, outcomes: Outcomes) {
    let mut is_first = true;
    for truth in [Truth::True, Truth::False, Truth::Unknown] {
        if outcomes.allows(truth) {
            out.word(if is_first { "" } else { " " });
            out.word(filter_truth_word(truth));
            is_first = false;
        }
    }
    out.word(if is_first { "none" } else { "" });
}

/// Writes the name of a refusal, which test it is, and the test's column.
fn write_refusal(out: &mut Output, refusal: FilterError) {
    let (name, test, column) = match refusal {
        FilterError::OutOfMemory => return out.word("OutOfMemory"),
        FilterError::NoColumn { test, column } => ("NoColumn", test, column),
        FilterError::HasVariant { test, column } => ("HasVariant", test, column),
        FilterError::TypesDiffer { test, column } => ("TypesDiffer", test, column),
    };
    out.word(name);
    write_count(out, test);
    write_count(out, column);
}

/// Writes the name of a refusal of SQL text, its place, and what was expected.
fn write_text_refusal(out: &mut Output, refusal: ParseError) {
    out.word(text_refusal_name(refusal));
    if let Some(place) = refusal.offset() {
        write_count(out, place);
    }
    if let ParseError::Expected { expected, .. } = refusal {
        out.char(' ');
        out.word(expected_name(expected));
    }
}

/// Writes the name of a refusal of a filter in bytes, and its place.
fn write_encoding_refusal(out: &mut Output, refusal: FilterEncodingError) {
    let (name, offset) = match refusal {
        FilterEncodingError::OutOfMemory => return out.word("OutOfMemory"),
        FilterEncodingError::NoEncoding => return out.word("NoEncoding"),
        FilterEncodingError::BadBytes { offset } => ("BadBytes", offset),
        FilterEncodingError::NotAValue { offset } => ("NotAValue", offset),
    };
    out.word(name);
    write_count(out, offset);
}

fn text_refusal_name(refusal: ParseError) -> &'static str {
    match refusal {
        ParseError::OutOfMemory => "OutOfMemory",
        ParseError::Expected { .. } => "Expected",
        ParseError::NoColumn { .. } => "NoColumn",
        ParseError::TypesDiffer { .. } => "TypesDiffer",
        ParseError::NoLiteral { .. } => "NoLiteral",
        ParseError::NumberTooLong { .. } => "NumberTooLong",
        ParseError::BadText { .. } => "BadText",
        ParseError::TooDeep { .. } => "TooDeep",
    }
}

fn expected_name(expected: Expected) -> &'static str {
    match expected {
        Expected::Filter => "Filter",
        Expected::Column => "Column",
        Expected::Operator => "Operator",
        Expected::Literal => "Literal",
        Expected::Pattern => "Pattern",
        Expected::Escape => "Escape",
        Expected::Null => "Null",
        Expected::And => "And",
        Expected::Opening => "Opening",
        Expected::Closing => "Closing",
        Expected::Comma => "Comma",
        Expected::End => "End",
    }
}
