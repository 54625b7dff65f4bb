//! How two cells compare.

ghost use Rattle.std.specs.Prelude.{◌≡◌, Some, true};
ghost use Rattle.std.specs.Ordering.{int_cmp};
ghost use Rattle.vortex_cells.specs.Words.{cell_of, cell_of_ref, cell_order, same_type, type_of, whole_of};

use std::cmp::Ordering;
use vortex_dtype::DType;
use vortex_pvalue::PValue;
use vortex_value::{Scalar, ScalarRef, ScalarValue};

/// How two scalars compare: what `Scalar::partial_cmp` says, sooner for integers, strings and bytes.
/// Of this port alone: filters compare by it.
#[inline(always)]
pub fn compare_scalars(a: &Scalar, b: &Scalar) -> Option<Ordering>
    ensures { result ≡ cell_order (cell_of a.now) (cell_of b.now) }
{
    compare_refs(ScalarRef::of(a), ScalarRef::of(b))
}

/// How two borrowed scalars compare: what `ScalarRef::partial_cmp` says. Integers of one type,
/// strings and bytes are compared here, without a walk over their types.
#[inline(always)]
pub fn compare_refs(a: ScalarRef<'_>, b: ScalarRef<'_>) -> Option<Ordering>
    ensures { result ≡ cell_order (cell_of_ref a.entry) (cell_of_ref b.entry) }
{
    match (a.value(), b.value()) {
        (Some(ScalarValue::Primitive(x)), Some(ScalarValue::Primitive(y)))
            if are_of_one_kind(a.dtype(), b.dtype()) => { compare_numbers(x, y) }
        _ => compare_texts(a, b),
    }
}

/// How two integers compare. Those of the commonest kind are compared without a call.
#[inline(always)]
fn compare_numbers(x: &PValue, y: &PValue) -> Option<Ordering>
    ensures { result ≡ Some (int_cmp (whole_of x.now) (whole_of y.now)) }
{
    match (x, y) {
        (PValue::I64(x), PValue::I64(y)) => Some(x.cmp(y)),
        _ => x.partial_cmp(y),
    }
}

/// How two scalars compare. Strings and bytes are compared here.
#[inline(always)]
fn compare_texts(a: ScalarRef<'_>, b: ScalarRef<'_>) -> Option<Ordering>
    ensures { result ≡ cell_order (cell_of_ref a.entry) (cell_of_ref b.entry) }
{
    if !are_one_text_type(a.dtype(), b.dtype()) {
        return compare_any(a, b);
    }
    match (a.value(), b.value()) {
        (Some(ScalarValue::Utf8(x)), Some(ScalarValue::Utf8(y))) => Some(x.cmp(y)),
        (Some(ScalarValue::Binary(x)), Some(ScalarValue::Binary(y))) => Some(x.cmp(y)),
        _ => compare_any(a, b),
    }
}

/// How two scalars of any types compare. Callers of `compare_refs` then need no scalar in memory for it.
#[inline(never)]
fn compare_any(a: ScalarRef<'_>, b: ScalarRef<'_>) -> Option<Ordering>
    ensures { result ≡ cell_order (cell_of_ref a.entry) (cell_of_ref b.entry) }
{
    a.partial_cmp(&b)
}

/// Whether both types are one of integers, up to nullability. If so, they are the same.
#[inline(always)]
fn are_of_one_kind(a: &DType, b: &DType) -> bool
    ensures { result ≡ true → same_type (type_of a.now) (type_of b.now) ≡ true }
{
    match (a, b) {
        (DType::Primitive(j, _), DType::Primitive(k, _)) => *j == *k,
        _ => false,
    }
}

/// Whether both types are of strings, or both of bytes, up to nullability. If so, they are the same.
#[inline(always)]
fn are_one_text_type(a: &DType, b: &DType) -> bool
    ensures { result ≡ true → same_type (type_of a.now) (type_of b.now) ≡ true }
{
    matches!(
        (a, b),
        (DType::Utf8(_), DType::Utf8(_)) | (DType::Binary(_), DType::Binary(_))
    )
}
