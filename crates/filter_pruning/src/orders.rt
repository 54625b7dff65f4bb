//! How the values of a zone can stand to a literal.

ghost use Rattle.std.specs.Prelude.{◌≡◌, Some, false, option_map, true};
ghost use Rattle.filter_pruning.specs.Words.{bound_order, cell_of, cell_order, is_plain, is_plain_bound, known};
ghost use Rattle.filter_pruning.specs.Words.{known_bound, may_fail, may_hold, option_copied, order_from_above, orders};
ghost use Rattle.filter_pruning.specs.Words.{orders_between, rules_out, settles};

use std::cmp::Ordering;
use vortex_cells::compare_scalars;
use vortex_filter::CompareOperator;
use vortex_statistics::{Bound, ColumnStatistics};
use vortex_value::{Scalar, ScalarValue};

/// How a value of a zone can stand to a literal.
#[derive(Clone, Copy, Debug)]
pub(crate) struct Orders {
    /// Whether a value can be below the literal.
    pub(crate) less: bool,
    /// Whether a value can be equal to it.
    pub(crate) equal: bool,
    /// Whether a value can be above it.
    pub(crate) greater: bool,
    /// Whether a value can have no order with it.
    pub(crate) incomparable: bool,
}

impl Orders {
    /// What the bounds of the zone do not rule out.
    pub(crate) fn of(statistics: &ColumnStatistics, literal: &Scalar) -> Orders
        ensures { result ≡ orders (known statistics.now) (cell_of literal.now) }
    {
        let lower = order_of_lower(statistics.lower.as_ref(), literal);
        let upper = order_of_upper(statistics.upper.as_ref(), literal);
        match (lower, upper) {
            (Some(lower), Some(upper)) if is_plain_bound(statistics.lower.as_ref()) => {
                Orders::of_both(lower, upper)
            }
            _ => Orders::between(
                rules_out(statistics.lower.as_ref(), lower)
                    || rules_out(statistics.upper.as_ref(), upper),
                settles(statistics.lower.as_ref(), lower)
                    || settles(statistics.upper.as_ref(), upper),
                lower,
                upper,
            ),
        }
    }

    /// By how both bounds stand to the literal, each from its own side, if each value compares with
    /// it.
    fn of_both(lower: Ordering, upper: Ordering) -> Orders
        ensures { result ≡ orders_between false true (Some lower) (Some upper) }
    {
        Orders {
            less: !lower.is_ge(),
            equal: !(lower.is_gt() || upper.is_gt()),
            greater: !upper.is_ge(),
            incomparable: false,
        }
    }

    /// By whether no value compares with the literal or each does, and by how the bounds stand to
    /// it, each from its own side.
    fn between(
        never: bool,
        always: bool,
        lower: Option<Ordering>,
        upper: Option<Ordering>,
    ) -> Orders
        ensures { result ≡ orders_between never always lower upper }
    {
        let is_from_lower = lower.is_some_and(|order| order.is_ge());
        let is_to_upper = upper.is_some_and(|order| order.is_ge());
        let is_below = lower.is_some_and(|order| order.is_gt());
        let is_above = upper.is_some_and(|order| order.is_gt());
        Orders {
            less: !(never || is_from_lower),
            equal: !(never || (is_below || is_above)),
            greater: !(never || is_to_upper),
            incomparable: !(always || (is_from_lower || is_to_upper)),
        }
    }

    /// Whether the comparison holds in one of the orders.
    pub(crate) fn may_hold(self, operator: CompareOperator) -> bool
        ensures { result ≡ may_hold operator self }
    {
        (self.less && operator.holds(Ordering::Less))
            || (self.equal && operator.holds(Ordering::Equal))
            || (self.greater && operator.holds(Ordering::Greater))
    }

    /// Whether the comparison fails in one of the orders.
    pub(crate) fn may_fail(self, operator: CompareOperator) -> bool
        ensures { result ≡ may_fail operator self }
    {
        (self.less && !operator.holds(Ordering::Less))
            || (self.equal && !operator.holds(Ordering::Equal))
            || (self.greater && !operator.holds(Ordering::Greater))
    }
}

/// How the lower bound stands to the literal; `None` if it is not there.
fn order_of_lower(bound: Option<&Bound>, literal: &Scalar) -> Option<Ordering>
    ensures { result ≡ bound_order cell_order
        (option_map known_bound (option_copied bound.entry)) (cell_of literal.now) }
{
    compare_scalars(&bound?.value, literal)
}

/// How the upper bound stands to the literal, from above; `None` if it is not there.
fn order_of_upper(bound: Option<&Bound>, literal: &Scalar) -> Option<Ordering>
    ensures { result ≡ bound_order order_from_above
        (option_map known_bound (option_copied bound.entry)) (cell_of literal.now) }
{
    compare_scalars(literal, &bound?.value)
}

/// Whether each value compares with the literal, because a bound without parts does.
fn settles(bound: Option<&Bound>, order: Option<Ordering>) -> bool
    ensures { result ≡ settles (option_map known_bound (option_copied bound.entry)) order }
{
    order.is_some() && is_plain_bound(bound)
}

/// Whether no value compares with the literal, because a bound without parts does not.
pub(crate) fn rules_out(bound: Option<&Bound>, order: Option<Ordering>) -> bool
    ensures { result ≡ rules_out (option_map known_bound (option_copied bound.entry)) order }
{
    order.is_none() && is_plain_bound(bound)
}

/// Whether there is a bound, and it has no parts.
fn is_plain_bound(bound: Option<&Bound>) -> bool
    ensures { result ≡ is_plain_bound (option_map known_bound (option_copied bound.entry)) }
{
    match bound {
        Some(bound) => is_plain(&bound.value),
        None => false,
    }
}

/// Whether the value is a truth value, an integer, a string or bytes.
fn is_plain(scalar: &Scalar) -> bool
    ensures { result ≡ is_plain (cell_of scalar.now) }
{
    matches!(
        scalar.value(),
        Some(
            ScalarValue::Bool(_)
                | ScalarValue::Primitive(_)
                | ScalarValue::Utf8(_)
                | ScalarValue::Binary(_)
        )
    )
}
