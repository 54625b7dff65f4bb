//! The statistics of cells and one cell more.

ghost use Rattle.std.specs.Prelude.{◌≡◌, ◌⊎◌, ◌+◌, ◌<◌, ◌^◌, Some, false, true, IfErr, IfOk, OnErr, OnOk, option_map};
ghost use Rattle.vortex_statistics.specs.Words.{Cell, HasValidBounds, IsCompleteWith, IsFlatValue, IsRightWith};
ghost use Rattle.vortex_statistics.specs.Words.{IsValid, IsValidBound, IsValidRef, OutOfMemory, RefusesCell, after};
ghost use Rattle.vortex_statistics.specs.Words.{cell_of_ref, change_by, change_of, exact_bound, known, known_bound};
ghost use Rattle.vortex_statistics.specs.Words.{lower_change, observed, order_from_above, ref_raw, ref_type, replaces};
ghost use Rattle.vortex_statistics.specs.Words.{replacing, upper_change};

use crate::column_statistics::{Bound, ColumnStatistics};
use crate::error::StatisticsError;
use crate::merging::sum_of;
use std::alloc::Global;
use std::cmp::Ordering;
use vortex_cells::compare_refs;
use vortex_value::ScalarRef;
use vortex_value::laws::{order_is_reversed, order_is_transitive};

impl ColumnStatistics {
    /// Counts one cell more, a value or a null, and takes it as a bound if it is past one. It is
    /// compared with the lower bound, and with the upper one if that does not decide.
    ///
    /// It copies only what becomes a bound. `TooManyRows` if 64 bits do not count its row. Else
    /// `OutOfMemory`, only for a value that becomes a bound. It never comes for a valid one of a
    /// type whose values take no memory, as an integer. After a refusal nothing has changed.
    pub fn observe(&mut self, alloc: Global, value: ScalarRef<'_>) -> Result<(), StatisticsError>
        ensures value { OnOk result
            (known self.new ≡ observed (known self.old) (cell_of_ref value.entry)) }
        ensures right { OnOk result
            (IsRightWith (known self.old) (cell_of_ref value.entry) (known self.new)) }
        ensures complete { OnOk result
            (IsCompleteWith (known self.old) (cell_of_ref value.entry) (known self.new)) }
        ensures valid { OnOk result
            (IsValidRef value.entry → HasValidBounds self.old → HasValidBounds self.new) }
        ensures fits { OnOk result (self.old.row_count + 1 < 2 ^ 64) }
        ensures refused { IfErr result (RefusesCell (known self.old) value.entry) }
        ensures unchanged { OnErr result (self.new ≡ self.old) }
    {
        order_is_reversed();
        order_is_transitive();
        let Some(row_count) = self.row_count.checked_add(1) else {
            return Err(StatisticsError::TooManyRows);
        };
        if value.is_null() {
            self.row_count = row_count;
            self.null_count = sum_of(self.null_count, Some(1));
            return Ok(());
        }
        let (below, above) = self.changes(value);
        self.change_bounds(alloc, below, above, value)?;
        self.row_count = row_count;
        Ok(())
    }

    /// Changes both bounds, or neither if there is no memory for a copy of the value.
    #[inline(always)]
    pub(crate) fn change_bounds(
        &mut self,
        alloc: Global,
        below: Change,
        above: Change,
        value: ScalarRef<'_>,
    ) -> Result<(), StatisticsError>
        ensures lower { OnOk result (option_map known_bound self.new.lower
            ≡ after below (option_map known_bound self.old.lower) (cell_of_ref value.entry)) }
        ensures upper { OnOk result (option_map known_bound self.new.upper
            ≡ after above (option_map known_bound self.old.upper) (cell_of_ref value.entry)) }
        ensures valid { OnOk result
            (IsValidRef value.entry → HasValidBounds self.old → HasValidBounds self.new) }
        ensures rows { self.new.row_count ≡ self.old.row_count }
        ensures nulls { self.new.null_count ≡ self.old.null_count }
        ensures refused { IfErr result (λ e. (e ≡ OutOfMemory)
            × ((replaces below ≡ true) ⊎ (replaces above ≡ true))
            × ¬ (IsFlatValue (ref_type value.entry) (ref_raw value.entry))) }
        ensures unchanged { OnErr result (self.new ≡ self.old) }
    {
        if below.replaces() {
            if above.replaces() {
                return replace_both(alloc, &mut self.lower, &mut self.upper, value);
            }
            replace(alloc, &mut self.lower, value)?;
            change_in_place(&mut self.upper, above);
            return Ok(());
        }
        if above.replaces() {
            replace(alloc, &mut self.upper, value)?;
        } else {
            change_in_place(&mut self.upper, above);
        }
        change_in_place(&mut self.lower, below);
        Ok(())
    }

    /// What a value does to the lower and to the upper bound. A value below an exact lower bound is
    /// below some value, and so not above the upper bound.
    #[inline(always)]
    fn changes(&self, value: ScalarRef<'_>) -> (Change, Change)
        ensures below { result.0 ≡ lower_change (known self.now) (cell_of_ref value.entry) }
        ensures above { result.1 ≡ upper_change (known self.now) (cell_of_ref value.entry) }
    {
        if !self.may_be_value() {
            let first = replacing(value);
            return (first, first);
        }
        let Some(lower) = &self.lower else {
            return (Change::Keep, self.upper_change(value));
        };
        let below = change_by(compare_refs(ScalarRef::of(&lower.value), value), value);
        if lower.is_exact && below.replaces() {
            return (below, Change::Keep);
        }
        (below, self.upper_change(value))
    }

    /// What a value does to the upper bound, by its order with it.
    #[inline(always)]
    fn upper_change(&self, value: ScalarRef<'_>) -> Change
        ensures { result ≡ change_of order_from_above
            (option_map known_bound self.now.upper) (cell_of_ref value.entry) }
    {
        let Some(upper) = &self.upper else {
            return Change::Keep;
        };
        change_by(compare_refs(value, ScalarRef::of(&upper.value)), value)
    }
}

/// What a value does to a bound.
#[derive(Clone, Copy)]
pub(crate) enum Change {
    /// The bound stays.
    Keep,
    /// The bound stays, and some value is equal to it.
    Confirm,
    /// The value is past the bound, and becomes the bound.
    Replace,
    /// The value does not compare with the bound, or with itself: there is no bound any more.
    Remove,
}

impl Change {
    /// Whether the value becomes the bound.
    #[inline(always)]
    fn replaces(self) -> bool
        ensures { result ≡ replaces self }
    {
        matches!(self, Change::Replace)
    }
}

/// What a value does to a bound, by how the bound compares with it.
#[inline(always)]
fn change_by(order: Option<Ordering>, value: ScalarRef<'_>) -> Change
    ensures { result ≡ change_by order (cell_of_ref value.entry) }
{
    match order {
        Some(Ordering::Less) => Change::Keep,
        Some(Ordering::Equal) => Change::Confirm,
        Some(Ordering::Greater) => replacing(value),
        None => Change::Remove,
    }
}

/// A value in the place of a bound, if it has an order with itself.
pub(crate) fn replacing(value: ScalarRef<'_>) -> Change
    ensures { result ≡ replacing (cell_of_ref value.entry) }
{
    if value.partial_cmp(&value).is_some() {
        Change::Replace
    } else {
        Change::Remove
    }
}

/// Puts a copy of the value in the place of both bounds, or of neither.
fn replace_both(
    alloc: Global,
    lower: &mut Option<Bound>,
    upper: &mut Option<Bound>,
    value: ScalarRef<'_>,
) -> Result<(), StatisticsError>
    ensures lower { OnOk result (option_map known_bound lower.new
        ≡ Some (exact_bound (cell_of_ref value.entry))) }
    ensures upper { OnOk result (option_map known_bound upper.new
        ≡ Some (exact_bound (cell_of_ref value.entry))) }
    ensures valid { OnOk result (IsValidRef value.entry
        → IsValidBound lower.new × IsValidBound upper.new) }
    ensures refused { IfErr result (λ e. (e ≡ OutOfMemory)
        × ¬ (IsFlatValue (ref_type value.entry) (ref_raw value.entry))) }
    ensures lower_stays { OnErr result (lower.new ≡ lower.old) }
    ensures upper_stays { OnErr result (upper.new ≡ upper.old) }
{
    let bound = copied(alloc, value)?;
    match replace(alloc, upper, value) {
        Ok(()) => {
            *lower = Some(bound);
            Ok(())
        }
        Err(cause) => {
            drop(bound);
            Err(cause)
        }
    }
}

/// Puts a copy of the value in the place of a bound.
fn replace(
    alloc: Global,
    bound: &mut Option<Bound>,
    value: ScalarRef<'_>,
) -> Result<(), StatisticsError>
    ensures made { OnOk result (option_map known_bound bound.new
        ≡ Some (exact_bound (cell_of_ref value.entry))) }
    ensures valid { OnOk result (IsValidRef value.entry → IsValidBound bound.new) }
    ensures refused { IfErr result (λ e. (e ≡ OutOfMemory)
        × ¬ (IsFlatValue (ref_type value.entry) (ref_raw value.entry))) }
    ensures unchanged { OnErr result (bound.new ≡ bound.old) }
{
    *bound = Some(copied(alloc, value)?);
    Ok(())
}

/// A copy of a value, as a bound.
#[tactic(auto, using(crate::proofs::ValidLaws::copies))]
fn copied(alloc: Global, value: ScalarRef<'_>) -> Result<Bound, StatisticsError>
    ensures made { IfOk result (λ bound. known_bound bound
        ≡ exact_bound (cell_of_ref value.entry)) }
    ensures valid { IfOk result (λ bound. IsValidRef value.entry → IsValid bound.value) }
    ensures refused { IfErr result (λ e. (e ≡ OutOfMemory)
        × ¬ (IsFlatValue (ref_type value.entry) (ref_raw value.entry))) }
{
    match value.to_scalar(alloc) {
        Ok(value) => Ok(Bound {
            value,
            is_exact: true,
        }),
        Err(cause) => {
            drop(cause);
            Err(StatisticsError::OutOfMemory)
        }
    }
}

/// Changes a bound that no value replaces.
#[inline(always)]
fn change_in_place(bound: &mut Option<Bound>, change: Change)
    requires { replaces change ≡ false }
    ensures changed { (x : Cell) → option_map known_bound bound.new
        ≡ after change (option_map known_bound bound.old) x }
    ensures valid { IsValidBound bound.old → IsValidBound bound.new }
{
    match change {
        Change::Keep => {}
        Change::Confirm => {
            if let Some(bound) = bound {
                bound.is_exact = true;
            }
        }
        Change::Remove => *bound = None,
        Change::Replace => unreachable!(),
    }
}
