//! What callers derive from the contracts and the laws of keys alone. Keys give the order of two
//! scalars, and a cast keeps them. Columns are sorted, searched and merged by keys.

ghost use Rattle.std.specs.Prelude.{◌++◌, ◌≡◌, [], IfNone, IfOk, IfSome, MatchOption, Some, option_copied, slice_get};
ghost use Rattle.std.specs.Prelude.{true};
ghost use Rattle.std.specs.List.{All, HoldsAt};
ghost use Rattle.std.specs.List.Sorted.{IsPermutation, IsSorted, IsSortedBy, IsStable};
ghost use Rattle.std.specs.declared.cmp.Ordering.{Ordering};
ghost use Rattle.vortex_value.specs.Values.Refs.{IsValidRef, ref_content, ref_order};
ghost use Rattle.vortex_row.specs.Columns.{in_column};
ghost use Rattle.law_callers.specs.Keyed.{HasEqualContent, is_below, keyed_cmp};
ghost use Rattle.law_callers.specs.Merging.{IsTakenFrom, is_from_second};

use crate::keyed::Keyed;
use std::alloc::{AllocError, Global};
use std::cmp::Ordering;
use std::collections::VecDeque;
use vortex_dtype::{DType, VortexError};
use vortex_row::laws::{casts_keep_keys, keys_are_apart, keys_are_ordered, order_is_content_order};
use vortex_row::{RowError, SortOptions, append_key, compare_keys};
use vortex_value::ScalarRef;

/// The order of two scalars by their keys alone. It is that of `partial_cmp` if that has one,
/// reversed and with nulls as the options say.
pub fn order_by_keys(
    alloc: Global,
    x: ScalarRef<'_>,
    y: ScalarRef<'_>,
    options: SortOptions,
) -> Result<Ordering, RowError>
    ensures { IfOk result (λ order. (r : Ordering) → ref_order x.entry y.entry ≡ Some r
        → order ≡ in_column options (ref_content x.entry) (ref_content y.entry) r) }
{
    keys_are_ordered();
    order_is_content_order();
    let mut first = Vec::new(alloc);
    append_key(x, options, &mut first)?;
    let mut second = Vec::new(alloc);
    append_key(y, options, &mut second)?;
    Ok(compare_keys(first.as_slice(), second.as_slice()))
}

/// Whether a scalar and what a cast makes of it have one key: they do.
pub fn cast_has_same_key(
    alloc: Global,
    x: ScalarRef<'_>,
    target: &DType,
    options: SortOptions,
) -> Result<bool, CastError>
    requires { IsValidRef x }
    ensures { IfOk result (λ same. same ≡ true) }
{
    casts_keep_keys();
    let mut before = Vec::new(alloc);
    append_key(x, options, &mut before)?;
    let made = x.cast(alloc, target)?;
    let mut after = Vec::new(alloc);
    append_key(ScalarRef::of(&made), options, &mut after)?;
    Ok(before == after)
}

/// Why a cast or a key was refused.
#[derive(Debug, Drop)]
pub enum CastError {
    /// The cast was refused.
    Cast(VortexError),
    /// The key was refused.
    Key(RowError),
}

impl From<VortexError> for CastError {
    fn from(error: VortexError) -> CastError {
        CastError::Cast(error)
    }
}

impl From<RowError> for CastError {
    fn from(error: RowError) -> CastError {
        CastError::Key(error)
    }
}

/// Sorts a column by its keys alone. Then it is sorted by the order of contents, and by
/// `partial_cmp`: no scalar is below the one before it.
pub fn sort_by_keys(column: &mut Vec<Keyed>)
    ensures permutation { IsPermutation column.old.items column.new.items }
    ensures sorted { IsSorted keyed_cmp column.new.items }
    ensures partial { IsSortedBy is_below column.new.items }
{
    keys_are_ordered();
    order_is_content_order();
    column.sort_unstable();
}

/// The place of a scalar whose content equals that of the sought one, in a column that is sorted.
/// `None` exactly if there is none, whatever types they have.
pub fn find_by_key(column: &[Keyed], sought: &Keyed) -> Option<usize>
    requires { IsSorted keyed_cmp column.now }
    ensures { MatchOption result
        (All (λ x. ¬ (HasEqualContent sought.now x)) column.now)
        (HoldsAt (HasEqualContent sought.now) column.now) }
{
    keys_are_ordered();
    keys_are_apart();
    match column.binary_search(sought) {
        Ok(place) => Some(place),
        Err(_) => None,
    }
}

/// Puts two columns together by their keys, one of `i32` and one of `i64` as well. Each step takes the
/// lesser of the two first scalars, and of equal ones that of `left`. So there are as many steps as
/// scalars, and none is copied.
///
/// Of sorted columns what comes is sorted. Equal contents stand as they stood, those of `left` first.
pub fn merge_by_keys(
    alloc: Global,
    left: Vec<Keyed>,
    right: Vec<Keyed>,
) -> Result<Vec<Keyed>, AllocError>
    ensures permutation { IfOk result (λ merged.
        IsPermutation (left.items ++ right.items) merged.items) }
    ensures sorted { IsSorted keyed_cmp left.items → IsSorted keyed_cmp right.items
        → IfOk result (λ merged. IsSorted keyed_cmp merged.items) }
    ensures partial { IsSorted keyed_cmp left.items → IsSorted keyed_cmp right.items
        → IfOk result (λ merged. IsSortedBy is_below merged.items) }
    ensures stable { IsSorted keyed_cmp left.items → IsSorted keyed_cmp right.items
        → IfOk result (λ merged. IsStable keyed_cmp (left.items ++ right.items) merged.items) }
{
    keys_are_ordered();
    order_is_content_order();
    let mut merged = Vec::new(alloc);
    let mut left = VecDeque::from_vec(left);
    let mut right = VecDeque::from_vec(right);
    while let Some(next) = take_lesser(&mut left, &mut right) {
        merged.push(next)?;
    }
    Ok(merged)
}

/// Takes the lesser of the two first scalars, and of equal ones that of `left`.
fn take_lesser(left: &mut VecDeque<Keyed>, right: &mut VecDeque<Keyed>) -> Option<Keyed>
    ensures taken { IfSome result (IsTakenFrom
        (is_from_second keyed_cmp (slice_get left.old.items 0) (slice_get right.old.items 0))
        left.old.items right.old.items left.new.items right.new.items) }
    ensures none { IfNone result ((left.old.items ≡ []) × (right.old.items ≡ [])) }
{
    if is_from_right(left.front(), right.front()) {
        right.pop_front()
    } else {
        left.pop_front()
    }
}

/// Whether the next scalar is the first of `right`.
fn is_from_right(left: Option<&Keyed>, right: Option<&Keyed>) -> bool
    ensures { result ≡
        is_from_second keyed_cmp (option_copied left.entry) (option_copied right.entry) }
{
    match (left, right) {
        (Some(x), Some(y)) => y.compare(x).is_lt(),
        (Some(_), None) => false,
        (None, _) => true,
    }
}
