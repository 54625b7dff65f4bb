//! Calls of filters.

use crate::answers::FilterAnswer;
use crate::filter_inputs::{FilterInputs, Input};
use crate::prepared::{prepare, read_prepared};
use case_lines::{Line, Named, put, take_scalar};
use filter_pruning::{may_match, must_match, outcomes_of, simplify};
use filter_sql::{Column, ParseError, Sql, parse_within};
use std::alloc::Global;
use std::fmt::Display;
use vortex_dtype::VortexError;
use vortex_filter::{Filter, FilterError};

/// What is asked of a filter on rows or zones.
#[derive(Clone, Copy)]
enum On {
    Truth,
    Matches,
    Matching,
    Outcomes,
    MayMatch,
    MustMatch,
    MatchingZones,
}

const ON: [Named<On, Input>; 7] = [
    ("truth", On::Truth, &[Input::OnCells]),
    ("matches", On::Matches, &[Input::OnCells]),
    ("matching", On::Matching, &[Input::OnRows]),
    ("outcomes", On::Outcomes, &[Input::OnZone]),
    ("may_match", On::MayMatch, &[Input::OnZone]),
    ("must_match", On::MustMatch, &[Input::OnZone]),
    ("matching_zones", On::MatchingZones, &[Input::OnZones]),
];

/// What makes or checks a filter.
#[derive(Clone, Copy)]
enum Call {
    Parse,
    Prepare,
    ReadPrepared,
    Simplify,
    Check,
    Coerce,
    Clone,
    And,
    Or,
    Not,
}

const CALLS: [Named<Call, Input>; 10] = [
    ("parse", Call::Parse, &[Input::Text]),
    ("prepare", Call::Prepare, &[Input::Text]),
    ("read_prepared", Call::ReadPrepared, &[Input::Literal]),
    ("simplify", Call::Simplify, &[Input::OnZone]),
    ("check", Call::Check, &[Input::ForTypes]),
    ("coerce", Call::Coerce, &[Input::ForTypes]),
    ("clone_filter", Call::Clone, &[Input::OnCells]),
    ("and_filter", Call::And, &[Input::OnCells]),
    ("or_filter", Call::Or, &[Input::OnCells]),
    ("not_filter", Call::Not, &[Input::OnCells]),
];

/// The comparison of a column with a literal, which may be of any type.
#[derive(Clone, Copy)]
enum Compare {
    Cell,
    Zone,
}

const COMPARE: [Named<Compare, Input>; 2] = [
    (
        "compare",
        Compare::Cell,
        &[Input::Cell, Input::Operator, Input::Literal],
    ),
    (
        "compare_zone",
        Compare::Zone,
        &[Input::Zone, Input::Operator, Input::Literal],
    ),
];

/// Answers the line if it names one of these calls.
pub fn answer(line: &mut Line<'_>) {
    line.lend(&ON, answer_on);
    line.lend(&CALLS, answer_of);
    line.give(&COMPARE, comparison);
}

/// An answer, or the refusal that all calls have.
pub(crate) type FilterResult = Result<FilterAnswer, VortexError>;

fn answer_on(alloc: Global, call: On, given: &FilterInputs) -> FilterResult {
    let filter = &given.filter;
    match call {
        On::Truth => Ok(FilterAnswer::Truth(filter.truth(&given.cells))),
        On::Matches => Ok(FilterAnswer::Matches(filter.matches(&given.cells))),
        On::Matching => matching(alloc, given),
        On::Outcomes => Ok(FilterAnswer::Outcomes(outcomes_of(filter, &given.zones))),
        On::MayMatch => Ok(FilterAnswer::Matches(may_match(filter, &given.zones))),
        On::MustMatch => Ok(FilterAnswer::Matches(must_match(filter, &given.zones))),
        On::MatchingZones => matching_zones(alloc, given),
    }
}

/// The places of the rows that match.
fn matching(alloc: Global, given: &FilterInputs) -> FilterResult {
    let mut places = Vec::new(alloc);
    let mut rows = given.cells.chunks(given.width.max(1));
    for place in 0..given.count {
        // Without columns a row has no cells.
        if given.filter.matches(rows.next().unwrap_or(&[])) {
            places.push(place)?;
        }
    }
    Ok(FilterAnswer::Places(places))
}

/// The places of the zones that may have a row that matches.
fn matching_zones(alloc: Global, given: &FilterInputs) -> FilterResult {
    let mut places = Vec::new(alloc);
    let mut zones = given.zones.chunks(given.width.max(1));
    for place in 0..given.count {
        if outcomes_of(&given.filter, zones.next().unwrap_or(&[])).may_be_true {
            places.push(place)?;
        }
    }
    Ok(FilterAnswer::Places(places))
}

fn answer_of(alloc: Global, call: Call, given: &FilterInputs) -> FilterResult {
    let filter = &given.filter;
    let made = match call {
        Call::Parse => return parse(alloc, given),
        Call::Prepare => return prepare(alloc, given),
        Call::ReadPrepared => return read_prepared(alloc, given),
        Call::Check => return fits(filter.check(&given.dtypes)),
        Call::Simplify => simplify(alloc, filter, &given.zones),
        Call::Coerce => filter.coerce(alloc, &given.dtypes),
        Call::Clone => filter.clone(alloc),
        Call::And => and_itself(alloc, filter),
        Call::Or => or_itself(alloc, filter),
        Call::Not => negation(alloc, filter),
    };
    match made {
        Ok(filter) => made_answer(alloc, filter),
        Err(refusal) => refused(refusal),
    }
}

/// A filter that was made, as SQL text.
fn made_answer(alloc: Global, filter: Filter) -> FilterResult {
    let answer = sql_answer(alloc, &filter, &[]);
    drop(filter);
    answer
}

fn fits(checked: Result<(), FilterError>) -> FilterResult {
    match checked {
        Ok(()) => Ok(FilterAnswer::Fits),
        Err(refusal) => refused(refusal),
    }
}

/// A refusal, which is an answer; `OutOfMemory` is that of all calls.
fn refused(refusal: FilterError) -> FilterResult {
    match refusal {
        FilterError::OutOfMemory => Err(VortexError::OutOfMemory),
        _ => Ok(FilterAnswer::Refused(refusal)),
    }
}

/// A filter as SQL text, with the names of its columns.
pub(crate) fn sql_answer(alloc: Global, filter: &Filter, columns: &[Column]) -> FilterResult {
    match Sql::of(alloc, filter, columns) {
        Ok(sql) => shown_answer(alloc, &sql),
        Err(_) => Err(VortexError::OutOfMemory),
    }
}

/// SQL text, as it is.
fn shown_answer<T: Display>(alloc: Global, shown: &T) -> FilterResult {
    match format!(in alloc; "{shown}") {
        Ok(text) => Ok(FilterAnswer::Sql(text)),
        Err(_) => Err(VortexError::OutOfMemory),
    }
}

fn parse(alloc: Global, given: &FilterInputs) -> FilterResult {
    match parse_within(alloc, &given.text, &given.columns, given.depth) {
        Ok(filter) => parsed_answer(alloc, filter, &given.columns),
        Err(ParseError::OutOfMemory) => Err(VortexError::OutOfMemory),
        Err(refusal) => Ok(FilterAnswer::TextRefused(refusal)),
    }
}

/// A filter that was read, as SQL text with the names of its columns.
fn parsed_answer(alloc: Global, filter: Filter, columns: &[Column]) -> FilterResult {
    let answer = sql_answer(alloc, &filter, columns);
    drop(filter);
    answer
}

/// The filter `and` itself.
fn and_itself(alloc: Global, filter: &Filter) -> Result<Filter, FilterError> {
    let (left, right) = copies(alloc, filter)?;
    Filter::and(alloc, left, right)
}

/// The filter `or` itself.
fn or_itself(alloc: Global, filter: &Filter) -> Result<Filter, FilterError> {
    let (left, right) = copies(alloc, filter)?;
    Filter::or(alloc, left, right)
}

fn negation(alloc: Global, filter: &Filter) -> Result<Filter, FilterError> {
    Filter::not(alloc, filter.clone(alloc)?)
}

/// Two copies of a filter.
fn copies(alloc: Global, filter: &Filter) -> Result<(Filter, Filter), FilterError> {
    let first = filter.clone(alloc)?;
    match filter.clone(alloc) {
        Ok(second) => Ok((first, second)),
        Err(refusal) => {
            drop(first);
            Err(refusal)
        }
    }
}

fn comparison(_alloc: Global, call: Compare, given: &mut FilterInputs) -> FilterResult {
    let filter = Filter::Compare {
        column: 0,
        operator: given.operator,
        literal: take_scalar(&mut given.literal),
    };
    put(&mut given.filter, filter);
    Ok(match call {
        Compare::Cell => FilterAnswer::Truth(given.filter.truth(&given.cells)),
        Compare::Zone => FilterAnswer::Outcomes(outcomes_of(&given.filter, &given.zones)),
    })
}
