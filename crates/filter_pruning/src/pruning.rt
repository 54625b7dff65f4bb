//! What a filter can be on the rows of a zone, by the zone's statistics.

ghost use Rattle.std.specs.Prelude.{◌≡◌, ◌↔◌, IsTrue, false, map, option_map, slice_get};
ghost use Rattle.filter_pruning.specs.Words.{Covers, MatchesEachRow, MatchesNoRow, cell_of, compare_outcomes, formula};
ghost use Rattle.filter_pruning.specs.Words.{is_only_true, known, member_outcomes, null_outcomes, only, option_copied};
ghost use Rattle.filter_pruning.specs.Words.{outcomes, range_outcomes, unknown_outcomes, value_outcomes};

use crate::orders::Orders;
use crate::outcomes::Outcomes;
use crate::pattern_pruning::outcomes_of_pattern;
use crate::prefix_pruning::outcomes_of_prefix;
use vortex_filter::{CompareOperator, Filter, Truth};
use vortex_statistics::ColumnStatistics;
use vortex_value::Scalar;
use vortex_value::laws::{order_is_reversed, order_is_transitive};

/// What a filter can be on the rows of a zone, if these are right of its columns. A column without
/// statistics, or with some that leave all open, may have any cells.
pub fn outcomes_of(filter: &Filter, statistics: &[ColumnStatistics]) -> Outcomes
    ensures value { result ≡ outcomes (formula filter.now) (map known statistics.now) }
    ensures covers { Covers (formula filter.now) (map known statistics.now) result }
{
    order_is_reversed();
    order_is_transitive();
    possible(filter, statistics)
}

/// Whether a row of the zone may match. If not, none does, and the zone can be skipped.
pub fn may_match(filter: &Filter, statistics: &[ColumnStatistics]) -> bool
    ensures value { result
        ≡ (outcomes (formula filter.now) (map known statistics.now)).may_be_true }
    ensures loses_nothing { result ≡ false
        → MatchesNoRow (formula filter.now) (map known statistics.now) }
{
    outcomes_of(filter, statistics).may_be_true
}

/// Whether each row of the zone must match. If so, the zone can be taken whole.
pub fn must_match(filter: &Filter, statistics: &[ColumnStatistics]) -> bool
    ensures value { result
        ≡ is_only_true (outcomes (formula filter.now) (map known statistics.now)) }
    ensures takes_all { IsTrue result
        → MatchesEachRow (formula filter.now) (map known statistics.now) }
{
    outcomes_of(filter, statistics).is_only_true()
}

/// The outcomes. It reads on only until they cannot change any more.
#[cycle(outcomes)]
#[tactic(auto, using(vortex_filter::proofs::Steps::shown))]
fn possible(filter: &Filter, statistics: &[ColumnStatistics]) -> Outcomes
    ensures { result ≡ outcomes (formula filter.now) (map known statistics.now) }
{
    match filter {
        Filter::Constant(truth) => Outcomes::only(*truth),
        Filter::Compare {
            column,
            operator,
            literal,
        } => outcomes_of_comparison(known_of(statistics, *column), *operator, literal),
        Filter::IsNull { column } => outcomes_of_null(known_of(statistics, *column)),
        Filter::In { column, literals } => {
            outcomes_of_in(known_of(statistics, *column), literals)
        }
        Filter::Between {
            column,
            lower,
            upper,
        } => outcomes_of_range(known_of(statistics, *column), lower, upper),
        Filter::StartsWith { column, prefix } => {
            outcomes_of_prefix(known_of(statistics, *column), prefix)
        }
        Filter::Like {
            column,
            pattern,
            case,
        } => outcomes_of_pattern(known_of(statistics, *column), pattern, *case),
        Filter::And(left, right) => {
            let left = possible(left, statistics);
            if is_settled(left, Truth::False) {
                return left;
            }
            left.and(possible(right, statistics))
        }
        Filter::Or(left, right) => {
            let left = possible(left, statistics);
            if is_settled(left, Truth::True) {
                return left;
            }
            left.or(possible(right, statistics))
        }
        Filter::Not(inner) => possible(inner, statistics).negate(),
    }
}

/// Whether this truth value, and no other, is possible.
pub(crate) fn is_settled(outcomes: Outcomes, truth: Truth) -> bool
    ensures { IsTrue result ↔ (outcomes ≡ only truth) }
{
    outcomes == Outcomes::only(truth)
}

/// The statistics of this column, if there are any.
#[tactic(auto, using(crate::proofs::Cells::known_is))]
fn known_of(statistics: &[ColumnStatistics], column: usize) -> Option<&ColumnStatistics>
    ensures { option_map known (option_copied result)
        ≡ slice_get (map known statistics.now) column }
{
    statistics.get(column)
}

/// What a comparison can be.
#[tactic(auto, using(vortex_filter::proofs::Cells::null_is))]
fn outcomes_of_comparison(
    statistics: Option<&ColumnStatistics>,
    operator: CompareOperator,
    literal: &Scalar,
) -> Outcomes
    ensures { result ≡ compare_outcomes
        (option_map known (option_copied statistics.entry)) operator (cell_of literal.now) }
{
    match (statistics, literal.is_null()) {
        (None, true) => Outcomes::only(Truth::Unknown),
        (None, false) => Outcomes::any(),
        (Some(statistics), true) => outcomes_of_unknown(statistics),
        (Some(statistics), false) => outcomes_of_value(statistics, operator, literal),
    }
}

/// What a test can be that is Unknown on each row.
fn outcomes_of_unknown(statistics: &ColumnStatistics) -> Outcomes
    ensures { result ≡ unknown_outcomes (known statistics.now) }
{
    Outcomes {
        may_be_false: false,
        may_be_unknown: statistics.may_be_null() || statistics.may_be_value(),
        may_be_true: false,
    }
}

/// What a comparison with a literal can be that is not null.
fn outcomes_of_value(
    statistics: &ColumnStatistics,
    operator: CompareOperator,
    literal: &Scalar,
) -> Outcomes
    ensures { result ≡ value_outcomes (known statistics.now) operator (cell_of literal.now) }
{
    let orders = Orders::of(statistics, literal);
    let may_be_value = statistics.may_be_value();
    Outcomes {
        may_be_false: may_be_value && orders.may_fail(operator),
        may_be_unknown: statistics.may_be_null() || (may_be_value && orders.incomparable),
        may_be_true: may_be_value && orders.may_hold(operator),
    }
}

/// What a test for null can be.
fn outcomes_of_null(statistics: Option<&ColumnStatistics>) -> Outcomes
    ensures { result ≡ null_outcomes (option_map known (option_copied statistics.entry)) }
{
    match statistics {
        Some(statistics) => Outcomes {
            may_be_false: statistics.may_be_value(),
            may_be_unknown: false,
            may_be_true: statistics.may_be_null(),
        },
        None => Outcomes {
            may_be_false: true,
            may_be_unknown: false,
            may_be_true: true,
        },
    }
}

/// What it can be that a cell is equal to one of the literals.
fn outcomes_of_in(statistics: Option<&ColumnStatistics>, literals: &[Scalar]) -> Outcomes
    ensures { result ≡ member_outcomes
        (option_map known (option_copied statistics.entry)) (map cell_of literals.now) }
{
    let mut any = Outcomes::only(Truth::False);
    for literal in literals {
        any = any.or(outcomes_of_comparison(statistics, CompareOperator::Eq, literal));
        if is_settled(any, Truth::True) {
            return any;
        }
    }
    any
}

/// What it can be that a cell is from the one literal up to the other.
fn outcomes_of_range(
    statistics: Option<&ColumnStatistics>,
    lower: &Scalar,
    upper: &Scalar,
) -> Outcomes
    ensures { result ≡ range_outcomes (option_map known (option_copied statistics.entry))
        (cell_of lower.now) (cell_of upper.now) }
{
    let from = outcomes_of_comparison(statistics, CompareOperator::Gte, lower);
    if is_settled(from, Truth::False) {
        return from;
    }
    from.and(outcomes_of_comparison(statistics, CompareOperator::Lte, upper))
}
