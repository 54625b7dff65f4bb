//! What it can be that the strings of a zone match a pattern.

ghost use Rattle.std.specs.Prelude.{◌≡◌, option_map};
ghost use Rattle.filter_pruning.specs.Words.{bound_front_order, cell_front_order, cell_of, compared_bytes};
ghost use Rattle.filter_pruning.specs.Words.{front_outcomes, is_exact, known, known_bound, nat_cmp, option_copied};
ghost use Rattle.filter_pruning.specs.Words.{pattern_outcomes, pattern_outcomes_by, slice_cmp};

use crate::orders::rules_out;
use crate::outcomes::Outcomes;
use like_patterns::{Case, Pattern};
use std::cmp::Ordering;
use vortex_statistics::{Bound, ColumnStatistics};
use vortex_value::{Scalar, ScalarValue};

/// What it can be that a cell matches the pattern.
pub(crate) fn outcomes_of_pattern(
    statistics: Option<&ColumnStatistics>,
    pattern: &Pattern,
    case: Case,
) -> Outcomes
    ensures { result ≡ pattern_outcomes
        (option_map known (option_copied statistics.entry)) case pattern.now }
{
    let Some(statistics) = statistics else {
        return Outcomes::any();
    };
    match case {
        Case::Sensitive => {
            outcomes_of_front(statistics, pattern.prefix().as_bytes(), is_exact(pattern))
        }
        Case::Insensitive => outcomes_of_front(statistics, &[], false),
    }
}

/// Whether one string alone matches the pattern, if letters have a case.
#[tactic(auto, using(crate::proofs::PatternLaws::exactly))]
fn is_exact(pattern: &Pattern) -> bool
    ensures { result ≡ is_exact pattern.now }
{
    match pattern.as_exact() {
        Some(_text) => true,
        None => false,
    }
}

/// What it can be that a cell matches a pattern with this front. Whole says that nothing stands
/// behind it in the pattern.
fn outcomes_of_front(statistics: &ColumnStatistics, front: &[u8], is_whole: bool) -> Outcomes
    ensures { result ≡ front_outcomes is_whole front.now (known statistics.now) }
{
    let lower = order_of_bound(statistics.lower.as_ref(), front, is_whole);
    let upper = order_of_bound(statistics.upper.as_ref(), front, is_whole);
    outcomes_between(
        is_whole,
        statistics.may_be_null(),
        statistics.may_be_value(),
        rules_out(statistics.lower.as_ref(), lower) || rules_out(statistics.upper.as_ref(), upper),
        lower,
        upper,
    )
}

/// What it can be, by how the front stands to the bounds. `never` says that no value is a string.
fn outcomes_between(
    is_whole: bool,
    has_nulls: bool,
    has_values: bool,
    never: bool,
    lower: Option<Ordering>,
    upper: Option<Ordering>,
) -> Outcomes
    ensures { result ≡ pattern_outcomes_by is_whole has_nulls has_values never lower upper }
{
    let is_below = lower.is_some_and(|order| order.is_lt());
    let is_above = upper.is_some_and(|order| order.is_gt());
    let lower_is = lower.is_some_and(|order| order.is_eq());
    let upper_is = upper.is_some_and(|order| order.is_eq());
    let is_known = lower.is_some() || upper.is_some();
    Outcomes {
        may_be_false: has_values && !(never || (is_whole && (lower_is && upper_is))),
        may_be_unknown: has_nulls || (has_values && !is_known),
        may_be_true: has_values && !(never || (is_below || is_above)),
    }
}

/// How the front stands to the bound; `None` if that is not there, or no string.
fn order_of_bound(bound: Option<&Bound>, front: &[u8], is_whole: bool) -> Option<Ordering>
    ensures { result ≡ bound_front_order is_whole front.now
        (option_map known_bound (option_copied bound.entry)) }
{
    order_of_value(&bound?.value, front, is_whole)
}

/// How the front stands to the value; `None` if that is no string.
fn order_of_value(value: &Scalar, front: &[u8], is_whole: bool) -> Option<Ordering>
    ensures { result ≡ cell_front_order is_whole front.now (cell_of value.now) }
{
    if !value.dtype.is_utf8() {
        return None;
    }
    match value.value() {
        Some(ScalarValue::Utf8(text)) => {
            Some(order_of_bytes(text.inner().as_slice(), front, is_whole))
        }
        _ => None,
    }
}

/// How the front stands to the bytes: to all of them, or to as many.
#[tactic(auto, using(vortex_filter::proofs::PrefixSteps::take_whole))]
fn order_of_bytes(bytes: &[u8], front: &[u8], is_whole: bool) -> Ordering
    ensures { result ≡ slice_cmp nat_cmp front.now (compared_bytes is_whole front.now bytes.now) }
{
    if is_whole || bytes.len() < front.len() {
        front.cmp(bytes)
    } else {
        front.cmp(&bytes[..front.len()])
    }
}
