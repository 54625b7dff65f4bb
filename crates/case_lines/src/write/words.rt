//! Words of answers.

use std::cmp::Ordering;

/// The word of a truth value.
pub fn truth_word(is_true: bool) -> &'static str {
    if is_true { "true" } else { "false" }
}

/// The word of an order.
pub fn order_word(order: Ordering) -> &'static str {
    match order {
        Ordering::Less => "less",
        Ordering::Equal => "equal",
        Ordering::Greater => "greater",
    }
}
