//! Filters without connectives.

ghost use Rattle.std.specs.Prelude.{◌≡◌, IfOk};
ghost use Rattle.vortex_dtype.specs.TypeOf.{type_of};
ghost use Rattle.filter_sql.specs.ColumnNames.{column_trees};
ghost use Rattle.vortex_filter.specs.FilterLiterals.{AreValid, literals_of};
ghost use Rattle.vortex_filter.specs.CheckSteps.{holds_strings};
ghost use Rattle.vortex_filter.specs.Positions.{position_tree, scalars_of};
ghost use Rattle.vortex_filter.specs.Formula.{formula};
ghost use Rattle.filter_sql.specs.Tokens.{trees};
ghost use Rattle.filter_sql.specs.Mistakes.{Gives, expected, predicate_mistake, prefix_call_mistake};
ghost use Rattle.filter_sql.specs.Reading.{constant_at, predicate_at, prefix_call_at, prefix_in};

use crate::column::Column;
use crate::error::Expected;
use crate::parsing::column_names::{Found, expect_column};
use crate::parsing::conditions::condition;
use crate::parsing::errors::{Cause, TokenError};
use crate::parsing::literals::{position_at, prefix};
use crate::parsing::tokens::{
    after_keyword, expect_closing, expect_comma, expect_name, expect_opening, expected, name_at,
    tokens_left,
};
use crate::token::{Keyword, Placed, Token};
use std::alloc::Global;
use vortex_dtype::DType;
use vortex_filter::{Filter, Position, Truth};

/// A predicate on the heap, and what follows. It is a call of its own, so that what it needs on the
/// stack is not taken again at each level of a filter.
#[tactic(auto, using(vortex_filter::proofs::LiteralSteps::valid))]
#[inline(never)]
pub(crate) fn boxed_predicate<'a>(
    alloc: Global,
    columns: &[Column],
    rest: &'a [Placed],
) -> Result<(Box<Filter>, &'a [Placed]), TokenError>
    ensures read { Gives (λ x. (formula x.0.value, trees x.1.now)) result
        (predicate_at (column_trees columns.now) (trees rest.now))
        (predicate_mistake (column_trees columns.now) (trees rest.now)) }
    ensures valid { IfOk result (λ x. AreValid (literals_of x.0.value)) }
{
    let (filter, rest) = predicate(alloc, columns, rest)?;
    Ok((Box::new(alloc, filter)?, rest))
}

/// A test of a column, `starts_with` or a constant, and what follows.
#[tactic(auto, unfolding(crate::specs::Reading::predicate_at, crate::specs::Mistakes::predicate_mistake))]
fn predicate<'a>(
    alloc: Global,
    columns: &[Column],
    rest: &'a [Placed],
) -> Result<(Filter, &'a [Placed]), TokenError>
    ensures read { Gives (λ x. (formula x.0, trees x.1.now)) result
        (predicate_at (column_trees columns.now) (trees rest.now))
        (predicate_mistake (column_trees columns.now) (trees rest.now)) }
    ensures valid { IfOk result (λ x. AreValid (literals_of x.0)) }
{
    if let Some((name, after)) = name_at(rest) {
        let column = expect_column(columns, name, tokens_left(rest))?;
        return condition(alloc, column, after);
    }
    let Some(after) = after_keyword(rest, Keyword::StartsWith) else {
        return constant_at(rest);
    };
    prefix_call(alloc, columns, after)
}

/// What follows `starts_with`: a column and a literal in parentheses.
#[tactic(auto, unfolding(crate::specs::Reading::prefix_call_at, crate::specs::Mistakes::prefix_call_mistake), using(vortex_filter::proofs::LiteralSteps::valid))]
fn prefix_call<'a>(
    alloc: Global,
    columns: &[Column],
    rest: &'a [Placed],
) -> Result<(Filter, &'a [Placed]), TokenError>
    ensures read { Gives (λ x. (formula x.0, trees x.1.now)) result
        (prefix_call_at (column_trees columns.now) (trees rest.now))
        (prefix_call_mistake (column_trees columns.now) (trees rest.now)) }
    ensures valid { IfOk result (λ x. AreValid (literals_of x.0)) }
{
    let named = expect_opening(rest)?;
    let (name, rest) = expect_name(named)?;
    let column = expect_column(columns, name, tokens_left(named))?;
    let written = expect_comma(rest)?;
    let (literal, rest) = position_at(alloc, column.dtype, written)?;
    let rest = expect_closing(rest)?;
    Ok((prefix_in(column, literal, tokens_left(written))?, rest))
}

/// Whether the column begins with the literal, where so many tokens are left.
#[tactic(auto, unfolding(crate::specs::Reading::prefix_in))]
fn prefix_in(column: Found<'_>, literal: Position, left: usize) -> Result<Filter, TokenError>
    ensures read { Gives formula result
        (prefix_in (column.entry.place, type_of column.entry.dtype.now) (position_tree literal))
        (TokenError.At left Cause.TypesDiffer) }
    ensures literals { IfOk result (λ f. literals_of f ≡ scalars_of literal) }
{
    if holds_strings(column.dtype) {
        return prefix(column.place, literal, left);
    }
    drop(literal);
    Err(TokenError::At(left, Cause::TypesDiffer))
}

/// Whether values of the type can begin with a prefix.
fn holds_strings(dtype: &DType) -> bool
    ensures { result ≡ holds_strings (type_of dtype.now) }
{
    dtype.is_utf8() || dtype.is_binary()
}

/// `true`, `false` or `null`.
#[tactic(auto, unfolding(crate::specs::Reading::constant_at), using(vortex_filter::proofs::Steps::shown, vortex_filter::proofs::LiteralSteps::valid))]
fn constant_at(rest: &[Placed]) -> Result<(Filter, &[Placed]), TokenError>
    ensures read { Gives (λ x. (formula x.0, trees x.1.now)) result
        (constant_at (trees rest.now)) (expected (trees rest.now) Expected.Filter) }
    ensures valid { IfOk result (λ x. AreValid (literals_of x.0)) }
{
    let [first, after @ ..] = rest else {
        return Err(expected(rest, Expected::Filter));
    };
    let truth = match &first.token {
        Token::Keyword(Keyword::True) => Truth::True,
        Token::Keyword(Keyword::False) => Truth::False,
        Token::Keyword(Keyword::Null) => Truth::Unknown,
        _ => return Err(expected(rest, Expected::Filter)),
    };
    Ok((Filter::Constant(truth), after))
}
