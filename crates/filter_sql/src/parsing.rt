//! Filters from SQL text.

mod column_names;
mod conditions;
mod errors;
mod filters;
mod literals;
mod predicates;
mod tokens;

ghost use Rattle.std.specs.Prelude.{◌≡◌, ◌≤◌, ℕ, List, IfErr, IfOk, None, OnOk, Some, length};
ghost use Rattle.std.specs.List.{AllByRecursion};
ghost use Rattle.vortex_filter.specs.Checking.{FitsColumns};
ghost use Rattle.filter_sql.specs.ColumnNames.{column_trees};
ghost use Rattle.filter_sql.specs.Faults.{IsPlaced};
ghost use Rattle.vortex_filter.specs.FilterLiterals.{AreValid, literals_of};
ghost use Rattle.vortex_filter.specs.Formula.{Formula, formula};
ghost use Rattle.filter_sql.specs.Parsing.{AllOrdered, IsReadable, IsSql, IsSqlWithin, ReadsAs, RefusesSql};
ghost use Rattle.filter_sql.specs.Parsing.{RefusesSqlWithin, depth, depth as text_depth, types_of};
ghost use Rattle.filter_sql.specs.Printing.{IsSqlText};
ghost use Rattle.filter_sql.specs.Mistakes.{IsFaultIn, caused, error_at, error_of, filter_mistake, if_whole};
ghost use Rattle.filter_sql.specs.Mistakes.{place_where};
ghost use Rattle.filter_sql.specs.Reading.{filter_at};
ghost use Rattle.filter_sql.specs.Texts.{items};
ghost use Rattle.filter_sql.specs.Tokens.{trees};

use crate::column::Column;
use crate::error::ParseError;
use crate::lex::{Ending, LexError as Unread, at, lex};
use crate::token::Placed;
use errors::{Cause, TokenError};
use filters::filter_of;
use like_patterns::laws::texts_come_back;
use logical_scalars::laws::shapes_say_types;
use logical_types::laws::{integers_lie_at_themselves, shapes_say_words};
use std::alloc::Global;
use vortex_filter::Filter;

/// How many connectives and parentheses may nest in a text that `parse` reads.
pub const MAX_DEPTH: usize = 256;

/// The filter that SQL text is, over columns by name and type.
///
/// A name is one of the first column with exactly that name; if there is none, `$1` is the
/// first column, and so on. A literal takes the column's type: in a column of numbers a string is
/// its number, and in one of days or times it is the value that it writes. A number between two
/// values, below or above all of them makes a comparison what it is for each value: True or False,
/// and Unknown for a null. A pattern of `like` that asks for a prefix alone is read as
/// `Filter::StartsWith`, and any other one, and each of `ilike`, as `Filter::Like`.
///
/// `TooDeep` if more than `MAX_DEPTH` connectives and parentheses nest. Of several mistakes the
/// first one from the front is told. Memory is asked for the tokens of the text before the first of
/// them is judged, so `OutOfMemory` may come in place of each answer.
pub fn parse(alloc: Global, text: &str, columns: &[Column]) -> Result<Filter, ParseError>
    // What is read is what the grammar says.
    ensures read { IfOk result (λ filter.
        IsSql (column_trees columns.now) text.now (formula filter)) }
    // What is printed is read again, unless memory runs out.
    ensures printed { (names : List (List ℕ)) (f : Formula)
        → IsReadable (column_trees columns.now) names f → depth f ≤ 256
        → IsSqlText names f text.now → ReadsAs f result }
    // It fits the columns, if no variant stands in their types.
    ensures fits { AllOrdered (column_trees columns.now) → IfOk result (λ filter.
        FitsColumns (types_of (column_trees columns.now)) (formula filter)) }
    // Each literal is valid for its type, so its raw integers are of the type too.
    ensures valid { IfOk result (λ filter. AreValid (literals_of filter)) }
    ensures refused { IfErr result (RefusesSql (column_trees columns.now) text.now) }
    ensures placed { IfErr result (IsPlaced (length text.now)) }
{
    parse_within(alloc, text, columns, MAX_DEPTH)
}

/// As `parse`, but at most `depth` connectives and parentheses may nest.
///
/// Each level takes stack, of this call and of all that later walk the filter.
/// `TooDeep` if more nest.
pub fn parse_within(
    alloc: Global,
    text: &str,
    columns: &[Column],
    depth: usize,
) -> Result<Filter, ParseError>
    ensures read { IfOk result (λ filter.
        IsSqlWithin depth (column_trees columns.now) text.now (formula filter)) }
    ensures printed { (names : List (List ℕ)) (f : Formula)
        → IsReadable (column_trees columns.now) names f → text_depth f ≤ depth
        → IsSqlText names f text.now → ReadsAs f result }
    ensures fits { AllOrdered (column_trees columns.now) → IfOk result (λ filter.
        FitsColumns (types_of (column_trees columns.now)) (formula filter)) }
    ensures valid { IfOk result (λ filter. AreValid (literals_of filter)) }
    ensures refused { IfErr result
        (RefusesSqlWithin depth (column_trees columns.now) text.now) }
    ensures placed { IfErr result (IsPlaced (length text.now)) }
{
    integers_lie_at_themselves();
    shapes_say_types();
    shapes_say_words();
    texts_come_back();
    let lexed = lex(alloc, text)?;
    filter_in(alloc, columns, &lexed.tokens, lexed.ending, depth)
}

/// The filter that the tokens of a text are, if it ends with them.
fn filter_in(
    alloc: Global,
    columns: &[Column],
    tokens: &[Placed],
    ending: Ending,
    depth: usize,
) -> Result<Filter, ParseError>
    requires { AllByRecursion (λ p. p.place ≤ ending.place) tokens.now }
    ensures whole { OnOk result (ending.fault ≡ None) }
    ensures given { IfOk result (λ filter.
        filter_at (column_trees columns.now) depth (trees tokens.now) ≡ Some (formula filter)) }
    ensures valid { IfOk result (λ filter. AreValid (literals_of filter)) }
    ensures refused { IfErr result
        (IsFaultIn (items tokens.now) ending
        (filter_at (column_trees columns.now) depth (trees tokens.now))
        (filter_mistake (column_trees columns.now) depth (trees tokens.now))) }
    ensures placed { IfErr result (IsPlaced ending.place) }
{
    match filter_of(alloc, columns, tokens, depth) {
        Ok(filter) => ended(filter, ending),
        Err(fault) => Err(placed(fault, tokens, ending)),
    }
}

/// The filter, if the text ends behind it.
fn ended(filter: Filter, ending: Ending) -> Result<Filter, ParseError>
    ensures { result ≡ if_whole ending.place ending.fault filter }
{
    match ending.fault {
        None => Ok(filter),
        Some(fault) => {
            drop(filter);
            Err(at(fault, ending.place))
        }
    }
}

/// The error for a fault among the tokens of a text, which end so.
fn placed(fault: TokenError, tokens: &[Placed], ending: Ending) -> ParseError
    requires { AllByRecursion (λ p. p.place ≤ ending.place) tokens.now }
    ensures error { result ≡ error_of (items tokens.now) ending fault }
    ensures placed { IsPlaced ending.place result }
{
    match fault {
        TokenError::NoMemory => ParseError::OutOfMemory,
        TokenError::At(left, cause) => mistake_at(left, cause, tokens, ending.place, ending.fault),
    }
}

/// The error of a mistake where so many tokens are left, before an end where no token begins for
/// this fault.
#[tactic(auto, using(crate::proofs::ParseSteps::mistakes))]
fn mistake_at(
    left: usize,
    cause: Cause,
    tokens: &[Placed],
    end: usize,
    fault: Option<Unread>,
) -> ParseError
    requires { AllByRecursion (λ p. p.place ≤ end) tokens.now }
    ensures error { result ≡ error_at (items tokens.now) end fault left cause }
    ensures placed { IsPlaced end result }
{
    match fault {
        Some(fault) if left == 0 => at(fault, end),
        _ => caused(place_at(tokens, left, end), cause),
    }
}

/// The error at an offset.
fn caused(place: usize, cause: Cause) -> ParseError
    ensures { result ≡ caused place cause }
{
    match cause {
        Cause::Expected(expected) => ParseError::Expected {
            offset: place,
            expected,
        },
        Cause::NoColumn => ParseError::NoColumn { offset: place },
        Cause::TypesDiffer => ParseError::TypesDiffer { offset: place },
        Cause::NoLiteral => ParseError::NoLiteral { offset: place },
        Cause::NumberTooLong => ParseError::NumberTooLong { offset: place },
        Cause::TooDeep => ParseError::TooDeep { offset: place },
    }
}

/// The offset where so many tokens are left.
#[tactic(auto, using(crate::proofs::ParseSteps::places))]
fn place_at(tokens: &[Placed], left: usize, end: usize) -> usize
    requires { AllByRecursion (λ p. p.place ≤ end) tokens.now }
    ensures place { result ≡ place_where (items tokens.now) end left }
    ensures within { result ≤ end }
{
    match tokens.get(tokens.len().saturating_sub(left)) {
        Some(placed) => placed.place,
        None => end,
    }
}
