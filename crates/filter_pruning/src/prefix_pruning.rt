//! What it can be that the strings or bytes of a zone begin with a prefix.

ghost use Rattle.std.specs.Prelude.{◌≡◌, None, option_map};
ghost use Rattle.filter_pruning.specs.Words.{bound_prefix_order, cell_of, is_prefix, known, known_bound, never_begins};
ghost use Rattle.filter_pruning.specs.Words.{option_copied, prefix_outcomes, prefix_outcomes_by};

use crate::orders::rules_out;
use crate::outcomes::Outcomes;
use std::cmp::Ordering;
use vortex_filter::{Truth, order_of_prefix};
use vortex_statistics::{Bound, ColumnStatistics};
use vortex_value::{Scalar, ScalarValue};

/// What it can be that a cell begins with the prefix.
pub(crate) fn outcomes_of_prefix(statistics: Option<&ColumnStatistics>, prefix: &Scalar) -> Outcomes
    ensures { result ≡ prefix_outcomes
        (option_map known (option_copied statistics.entry)) (cell_of prefix.now) }
{
    let Some(statistics) = statistics else {
        return without_statistics(prefix);
    };
    let lower = order_of_bound(statistics.lower.as_ref(), prefix);
    let upper = order_of_bound(statistics.upper.as_ref(), prefix);
    outcomes_between(
        statistics.may_be_null(),
        statistics.may_be_value(),
        never_begins(statistics, prefix, lower, upper),
        lower,
        upper,
    )
}

/// What it can be if nothing is known of the column.
fn without_statistics(prefix: &Scalar) -> Outcomes
    ensures { result ≡ prefix_outcomes None (cell_of prefix.now) }
{
    if is_prefix(prefix) {
        Outcomes::any()
    } else {
        Outcomes::only(Truth::Unknown)
    }
}

/// Whether no value is of the prefix's type, by how the prefix stands to the beginnings of the
/// bounds.
fn never_begins(
    statistics: &ColumnStatistics,
    prefix: &Scalar,
    lower: Option<Ordering>,
    upper: Option<Ordering>,
) -> bool
    requires lower { lower
        ≡ bound_prefix_order (known statistics.now).lower (cell_of prefix.now) }
    requires upper { upper
        ≡ bound_prefix_order (known statistics.now).upper (cell_of prefix.now) }
    ensures { result ≡ never_begins (known statistics.now) (cell_of prefix.now) }
{
    !is_prefix(prefix)
        || (rules_out(statistics.lower.as_ref(), lower)
            || rules_out(statistics.upper.as_ref(), upper))
}

/// What it can be, by how the prefix stands to the beginnings of the bounds. `never` says that no
/// value is of the prefix's type.
fn outcomes_between(
    has_nulls: bool,
    has_values: bool,
    never: bool,
    lower: Option<Ordering>,
    upper: Option<Ordering>,
) -> Outcomes
    ensures { result ≡ prefix_outcomes_by has_nulls has_values never lower upper }
{
    let is_below = lower.is_some_and(|order| order.is_lt());
    let is_above = upper.is_some_and(|order| order.is_gt());
    let lower_begins = lower.is_some_and(|order| order.is_eq());
    let upper_begins = upper.is_some_and(|order| order.is_eq());
    let is_known = lower.is_some() || upper.is_some();
    Outcomes {
        may_be_false: has_values && !(never || (lower_begins && upper_begins)),
        may_be_unknown: has_nulls || (has_values && !is_known),
        may_be_true: has_values && !(never || (is_below || is_above)),
    }
}

/// How the prefix stands to the beginning of the bound; `None` if the bound is not there.
fn order_of_bound(bound: Option<&Bound>, prefix: &Scalar) -> Option<Ordering>
    ensures { result ≡ bound_prefix_order
        (option_map known_bound (option_copied bound.entry)) (cell_of prefix.now) }
{
    order_of_prefix(&bound?.value, prefix)
}

/// Whether the prefix is a string or bytes.
fn is_prefix(prefix: &Scalar) -> bool
    ensures { result ≡ is_prefix (cell_of prefix.now) }
{
    matches!(
        prefix.value(),
        Some(ScalarValue::Utf8(_) | ScalarValue::Binary(_))
    )
}
