//! Which strings and bytes begin with a prefix.

ghost use Rattle.std.specs.Prelude.{◌≡◌, length, take};
ghost use Rattle.vortex_filter.specs.Words.{cell_of, cell_prefix_order, lent_cell, nat_cmp, prefix_truth, same_type};
ghost use Rattle.vortex_filter.specs.Words.{slice_cmp, type_of};

use crate::truth::Truth;
use std::cmp::Ordering;
use vortex_dtype::DType;
use vortex_value::{Scalar, ScalarValue};

/// Whether a cell begins with the prefix.
pub(crate) fn truth_of_prefix(cell: Option<&Scalar>, prefix: &Scalar) -> Truth
    ensures { result ≡ prefix_truth (lent_cell cell.entry) (cell_of prefix.now) }
{
    let Some(value) = cell else {
        return Truth::Unknown;
    };
    match order_of_prefix(value, prefix) {
        Some(order) => Truth::of(order.is_eq()),
        None => Truth::Unknown,
    }
}

/// How the prefix stands to as many bytes of the value's beginning, if both are strings or both
/// bytes, and their types the same up to nullability.
pub fn order_of_prefix(value: &Scalar, prefix: &Scalar) -> Option<Ordering>
    ensures { result ≡ cell_prefix_order (cell_of value.now) (cell_of prefix.now) }
{
    if !are_same(&value.dtype, &prefix.dtype) {
        return None;
    }
    match (value.value(), prefix.value()) {
        (Some(ScalarValue::Utf8(text)), Some(ScalarValue::Utf8(prefix))) => {
            Some(order_of_bytes(text.inner().as_slice(), prefix.inner().as_slice()))
        }
        (Some(ScalarValue::Binary(bytes)), Some(ScalarValue::Binary(prefix))) => {
            Some(order_of_bytes(bytes.as_slice(), prefix.as_slice()))
        }
        _ => None,
    }
}

/// How the prefix stands to as many of the bytes.
#[tactic(auto, using(crate::proofs::PrefixSteps::take_whole))]
fn order_of_bytes(bytes: &[u8], prefix: &[u8]) -> Ordering
    ensures { result ≡ slice_cmp nat_cmp prefix.now (take (length prefix.now) bytes.now) }
{
    if bytes.len() < prefix.len() {
        prefix.cmp(bytes)
    } else {
        prefix.cmp(&bytes[..prefix.len()])
    }
}

/// Whether the types are the same up to nullability.
fn are_same(a: &DType, b: &DType) -> bool
    ensures { result ≡ same_type (type_of a.now) (type_of b.now) }
{
    a.eq_ignore_nullability(b)
}
