//! The statistics of two pieces of a column together.

ghost use Rattle.std.specs.Prelude.{◌≡◌, ◌+◌, ◌<◌, ◌≤◌, ◌^◌, false, IfErr, IfOk, fold, map, option_map};
ghost use Rattle.std.specs.List.{All};
ghost use Rattle.vortex_statistics.specs.Words.{AreCompleteTogether, AreRightForAll, AreRightTogether, HasValidBounds};
ghost use Rattle.vortex_statistics.specs.Words.{IsValidBound, TooManyRows, bound_of_both, bound_order, cell_order};
ghost use Rattle.vortex_statistics.specs.Words.{empty_statistics, joined, known, known_bound, merged, nothing};
ghost use Rattle.vortex_statistics.specs.Words.{option_copied, outer_by, rows_of, sum_of};

use crate::column_statistics::{Bound, ColumnStatistics};
use crate::error::StatisticsError;
use std::cmp::Ordering;
use vortex_value::laws::{order_is_reversed, order_is_transitive};

impl ColumnStatistics {
    /// The statistics of this piece and then the other one.
    ///
    /// The count of nulls stays known if both are. A bound stays if both pieces that may have values
    /// have one, and the two compare; it is exact if the outer one is. Where values of one column do
    /// not compare, the grouping can decide whether a bound stays, but never that it is right.
    ///
    /// `TooManyRows` exactly if 64 bits do not count the rows of both.
    pub fn merge(self, other: ColumnStatistics) -> Result<ColumnStatistics, StatisticsError>
        ensures value { IfOk result (λ u. known u ≡ merged (known self) (known other)) }
        ensures right { IfOk result
            (λ u. AreRightTogether (known self) (known other) (known u)) }
        ensures complete { IfOk result
            (λ u. AreCompleteTogether (known self) (known other) (known u)) }
        ensures valid { IfOk result
            (λ u. HasValidBounds self → HasValidBounds other → HasValidBounds u) }
        ensures fits { IfOk result (λ _. self.row_count + other.row_count < 2 ^ 64) }
        ensures refused { IfErr result
            (λ e. (e ≡ TooManyRows) × (2 ^ 64 ≤ self.row_count + other.row_count)) }
        // The statistics of no rows are neutral, on both sides.
        ensures onto_none { self ≡ empty_statistics → result ≡ Ok other }
        ensures with_none { other ≡ empty_statistics → result ≡ Ok self }
    {
        order_is_reversed();
        order_is_transitive();
        let Some(row_count) = self.row_count.checked_add(other.row_count) else {
            drop((self, other));
            return Err(StatisticsError::TooManyRows);
        };
        let lower_order = order_of(self.lower.as_ref(), other.lower.as_ref());
        let upper_order = order_of(other.upper.as_ref(), self.upper.as_ref());
        let has_values = self.may_be_value();
        let others_have_values = other.may_be_value();
        Ok(ColumnStatistics {
            row_count,
            null_count: sum_of(self.null_count, other.null_count),
            lower: merge_bounds(
                lower_order,
                has_values,
                others_have_values,
                self.lower,
                other.lower,
            ),
            upper: merge_bounds(
                upper_order,
                has_values,
                others_have_values,
                self.upper,
                other.upper,
            ),
        })
    }

    /// The statistics of all pieces, one after the other, merged from the first to the last.
    ///
    /// `TooManyRows` exactly if 64 bits do not count the rows of all.
    pub fn merge_all(pieces: Vec<ColumnStatistics>) -> Result<ColumnStatistics, StatisticsError>
        ensures value { IfOk result (λ s. known s ≡ fold merged nothing (map known pieces.items)) }
        ensures right { IfOk result (λ s. AreRightForAll (map known pieces.items) (known s)) }
        ensures valid { IfOk result (λ s. All HasValidBounds pieces.items → HasValidBounds s) }
        ensures fits { IfOk result (λ _. rows_of pieces.items < 2 ^ 64) }
        ensures refused { IfErr result
            (λ e. (e ≡ TooManyRows) × (2 ^ 64 ≤ rows_of pieces.items)) }
    {
        order_is_reversed();
        order_is_transitive();
        let mut total = ColumnStatistics::empty();
        for piece in pieces {
            total = total.merge(piece)?;
        }
        Ok(total)
    }
}

/// The sum, if both are known and it fits.
pub(crate) fn sum_of(count: Option<u64>, other: Option<u64>) -> Option<u64>
    ensures { result ≡ sum_of count other }
{
    match (count, other) {
        (Some(count), Some(other)) => count.checked_add(other),
        _ => None,
    }
}

/// How two bounds compare; `None` if one is not there.
fn order_of(bound: Option<&Bound>, other: Option<&Bound>) -> Option<Ordering>
    ensures { result ≡ bound_order cell_order
        (option_map known_bound (option_copied bound.entry))
        (option_map known_bound (option_copied other.entry)) }
{
    bound?.value.partial_cmp(&other?.value)
}

/// A bound of two pieces, by how their bounds compare and whether each may have values.
fn merge_bounds(
    order: Option<Ordering>,
    has_values: bool,
    others_have_values: bool,
    bound: Option<Bound>,
    other: Option<Bound>,
) -> Option<Bound>
    ensures value { option_map known_bound result
        ≡ bound_of_both order has_values others_have_values
        (option_map known_bound bound) (option_map known_bound other) }
    ensures valid { IsValidBound bound → IsValidBound other → IsValidBound result }
    ensures onto_none { has_values ≡ false → bound ≡ None → result ≡ other }
    ensures with_none { others_have_values ≡ false → other ≡ None → result ≡ bound }
{
    match (has_values, others_have_values) {
        (true, true) => outer(order, bound, other),
        (true, false) => {
            drop(other);
            bound
        }
        (false, true) => {
            drop(bound);
            other
        }
        (false, false) => bound.or(other),
    }
}

/// The outer one of two bounds that compare so; `None` if they do not compare.
fn outer(order: Option<Ordering>, bound: Option<Bound>, other: Option<Bound>) -> Option<Bound>
    ensures value { option_map known_bound result
        ≡ outer_by order (option_map known_bound bound) (option_map known_bound other) }
    ensures valid { IsValidBound bound → IsValidBound other → IsValidBound result }
{
    match order {
        Some(Ordering::Less) => {
            drop(other);
            bound
        }
        Some(Ordering::Equal) => join(bound, other),
        Some(Ordering::Greater) => {
            drop(bound);
            other
        }
        None => {
            drop((bound, other));
            None
        }
    }
}

/// The first of two equal bounds, exact if one is.
fn join(bound: Option<Bound>, other: Option<Bound>) -> Option<Bound>
    ensures value { option_map known_bound result
        ≡ joined (option_map known_bound bound) (option_map known_bound other) }
    ensures valid { IsValidBound bound → IsValidBound result }
{
    let Some(bound) = bound else {
        drop(other);
        return None;
    };
    let Some(other) = other else {
        drop(bound);
        return None;
    };
    let is_exact = bound.is_exact || other.is_exact;
    drop(other);
    Some(Bound {
        value: bound.value,
        is_exact,
    })
}
