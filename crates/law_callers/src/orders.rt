//! What a caller derives about the order of scalars, from the laws alone.

ghost use Rattle.std.specs.Prelude.{◌≡◌, IfSome, Some};
ghost use Rattle.law_callers.specs.Words.{scalar_order};

use std::cmp::Ordering;
use vortex_value::Scalar;
use vortex_value::laws::{order_is_reversed, order_is_transitive};

/// The order of two scalars, from the comparison the other way round.
pub fn order_from_behind(first: &Scalar, second: &Scalar) -> Option<Ordering>
    ensures { result ≡ scalar_order first.now second.now }
{
    order_is_reversed();
    second.partial_cmp(first).map(|order| order.reverse())
}

/// The order of the first and the third scalar, if comparisons with the second give it.
pub fn order_through(first: &Scalar, second: &Scalar, third: &Scalar) -> Option<Ordering>
    ensures { IfSome result (λ order. scalar_order first.now third.now ≡ Some order) }
{
    order_is_transitive();
    match (first.partial_cmp(second), second.partial_cmp(third)) {
        (Some(Ordering::Less), Some(Ordering::Less)) => Some(Ordering::Less),
        (Some(Ordering::Less), Some(Ordering::Equal)) => Some(Ordering::Less),
        _ => None,
    }
}
