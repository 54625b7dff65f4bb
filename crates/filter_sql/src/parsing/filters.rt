//! Filters with connectives.

ghost use Rattle.std.specs.Prelude.{◌≡◌, suc, IfOk, MatchResult};
ghost use Rattle.filter_sql.specs.ColumnNames.{column_trees};
ghost use Rattle.vortex_filter.specs.FilterLiterals.{AreValid, literals_of};
ghost use Rattle.vortex_filter.specs.Formula.{formula};
ghost use Rattle.filter_sql.specs.Tokens.{trees};
ghost use Rattle.filter_sql.specs.Mistakes.{Gives, conjunction_mistake, disjunction_mistake, filter_mistake, mistakes};
ghost use Rattle.filter_sql.specs.Mistakes.{operand_mistake, predicate_mistake, too_deep};
ghost use Rattle.filter_sql.specs.Reading.{conjunction_of, disjunction_of, filter_at, operand_of, predicate_at, reads};

use crate::column::Column;
use crate::error::Expected;
use crate::parsing::errors::{Cause, TokenError};
use crate::parsing::predicates::boxed_predicate;
use crate::parsing::tokens::{after_closing, after_keyword, after_opening, expected, tokens_left};
use crate::token::{Keyword, Placed};
use std::alloc::Global;
use vortex_filter::{Filter, both, either, negation};

/// A filter on the heap.
fn boxed(alloc: Global, filter: Filter) -> Result<Box<Filter>, TokenError>
    ensures { MatchResult result (λ f. f.value ≡ filter) (λ e. e ≡ TokenError.NoMemory) }
{
    Ok(Box::new(alloc, filter)?)
}

/// How deep what comes next may nest.
fn deeper(rest: &[Placed], depth: usize) -> Result<usize, TokenError>
    ensures { MatchResult result (λ d. depth ≡ suc d)
        (λ e. (depth ≡ 0) × (e ≡ too_deep (trees rest.now))) }
{
    match depth {
        0 => Err(TokenError::At(tokens_left(rest), Cause::TooDeep)),
        _ => Ok(depth - 1),
    }
}

/// Filters with `or` between them, and what follows.
#[tactic(auto, using(vortex_filter::proofs::LiteralSteps::valid))]
#[cycle(filters)]
pub(crate) fn disjunction<'a>(
    alloc: Global,
    columns: &[Column],
    rest: &'a [Placed],
    depth: usize,
) -> Result<(Box<Filter>, &'a [Placed]), TokenError>
    ensures read { Gives (λ x. (formula x.0.value, trees x.1.now)) result
        (disjunction_of (predicate_at (column_trees columns.now))
        (reads (predicate_at (column_trees columns.now)) depth) (trees rest.now))
        (disjunction_mistake (predicate_at (column_trees columns.now))
        (predicate_mistake (column_trees columns.now))
        (reads (predicate_at (column_trees columns.now)) depth)
        (mistakes (predicate_at (column_trees columns.now))
        (predicate_mistake (column_trees columns.now)) depth) (trees rest.now)) }
    ensures valid { IfOk result (λ x. AreValid (literals_of x.0.value)) }
{
    let (left, rest) = conjunction(alloc, columns, rest, depth)?;
    let Some(after) = after_keyword(rest, Keyword::Or) else {
        return Ok((left, rest));
    };
    let depth = deeper(after, depth)?;
    let (right, rest) = disjunction(alloc, columns, after, depth)?;
    Ok((boxed(alloc, either(left, right))?, rest))
}

/// Filters with `and` between them, and what follows.
#[tactic(auto, using(vortex_filter::proofs::LiteralSteps::valid))]
#[cycle(filters)]
fn conjunction<'a>(
    alloc: Global,
    columns: &[Column],
    rest: &'a [Placed],
    depth: usize,
) -> Result<(Box<Filter>, &'a [Placed]), TokenError>
    ensures read { Gives (λ x. (formula x.0.value, trees x.1.now)) result
        (conjunction_of (predicate_at (column_trees columns.now))
        (reads (predicate_at (column_trees columns.now)) depth) (trees rest.now))
        (conjunction_mistake (predicate_at (column_trees columns.now))
        (predicate_mistake (column_trees columns.now))
        (reads (predicate_at (column_trees columns.now)) depth)
        (mistakes (predicate_at (column_trees columns.now))
        (predicate_mistake (column_trees columns.now)) depth) (trees rest.now)) }
    ensures valid { IfOk result (λ x. AreValid (literals_of x.0.value)) }
{
    let (left, rest) = operand(alloc, columns, rest, depth)?;
    let Some(after) = after_keyword(rest, Keyword::And) else {
        return Ok((left, rest));
    };
    let depth = deeper(after, depth)?;
    let (right, rest) = conjunction(alloc, columns, after, depth)?;
    Ok((boxed(alloc, both(left, right))?, rest))
}

/// A predicate, a filter in parentheses or one after `not`, and what follows.
#[tactic(auto, using(vortex_filter::proofs::LiteralSteps::valid))]
#[cycle(filters)]
fn operand<'a>(
    alloc: Global,
    columns: &[Column],
    rest: &'a [Placed],
    depth: usize,
) -> Result<(Box<Filter>, &'a [Placed]), TokenError>
    ensures read { Gives (λ x. (formula x.0.value, trees x.1.now)) result
        (operand_of (predicate_at (column_trees columns.now))
        (reads (predicate_at (column_trees columns.now)) depth) (trees rest.now))
        (operand_mistake (predicate_at (column_trees columns.now))
        (predicate_mistake (column_trees columns.now))
        (reads (predicate_at (column_trees columns.now)) depth)
        (mistakes (predicate_at (column_trees columns.now))
        (predicate_mistake (column_trees columns.now)) depth) (trees rest.now)) }
    ensures valid { IfOk result (λ x. AreValid (literals_of x.0.value)) }
{
    if let Some(after) = after_keyword(rest, Keyword::Not) {
        let depth = deeper(after, depth)?;
        let (inner, rest) = operand(alloc, columns, after, depth)?;
        return Ok((boxed(alloc, negation(inner))?, rest));
    }
    if let Some(after) = after_opening(rest) {
        let depth = deeper(after, depth)?;
        let (inner, rest) = disjunction(alloc, columns, after, depth)?;
        let Some(rest) = after_closing(rest) else {
            return Err(expected(rest, Expected::Closing));
        };
        return Ok((inner, rest));
    }
    boxed_predicate(alloc, columns, rest)
}

/// The filter that all of the tokens are.
#[tactic(auto, unfolding(crate::specs::Reading::filter_at, crate::specs::Mistakes::filter_mistake))]
pub(crate) fn filter_of(
    alloc: Global,
    columns: &[Column],
    tokens: &[Placed],
    depth: usize,
) -> Result<Filter, TokenError>
    ensures read { Gives formula result (filter_at (column_trees columns.now) depth (trees tokens.now))
        (filter_mistake (column_trees columns.now) depth (trees tokens.now)) }
    ensures valid { IfOk result (λ filter. AreValid (literals_of filter)) }
{
    let (filter, rest) = disjunction(alloc, columns, tokens, depth)?;
    match rest {
        [] => Ok(Box::into_inner(filter)),
        [_, ..] => {
            drop(filter);
            Err(expected(rest, Expected::End))
        }
    }
}
