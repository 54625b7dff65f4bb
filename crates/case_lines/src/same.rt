//! Exact sameness, to see whether a call changed what it borrowed. Unlike `==` of raw values and
//! scalars it tells `PType`s and nullability apart.

use vortex_value::{Scalar, ScalarRef, ScalarValue, UnionValue};

/// Whether two raw values are exactly the same, `PType`s and variants' types included.
#[cycle(same)]
fn same_value(a: &ScalarValue, b: &ScalarValue) -> bool {
    match (a, b) {
        (ScalarValue::Bool(x), ScalarValue::Bool(y)) => x == y,
        (ScalarValue::Primitive(x), ScalarValue::Primitive(y)) => x == y && x.ptype() == y.ptype(),
        (ScalarValue::Utf8(x), ScalarValue::Utf8(y)) => x == y,
        (ScalarValue::Binary(x), ScalarValue::Binary(y)) => x == y,
        (ScalarValue::Tuple(xs), ScalarValue::Tuple(ys)) => same_parts(xs, ys),
        (ScalarValue::Union(x), ScalarValue::Union(y)) => same_union(x, y),
        (ScalarValue::Variant(x), ScalarValue::Variant(y)) => same_scalar(x, y),
        _ => false,
    }
}

/// Whether two raw values are exactly the same, or both absent.
#[cycle(same)]
pub fn same_raw(a: Option<&ScalarValue>, b: Option<&ScalarValue>) -> bool {
    match (a, b) {
        (Some(x), Some(y)) => same_value(x, y),
        (None, None) => true,
        _ => false,
    }
}

/// Whether two tuples have the same number of parts, exactly the same at each place.
#[cycle(same)]
fn same_parts(a: &[Option<ScalarValue>], b: &[Option<ScalarValue>]) -> bool {
    if a.len() != b.len() {
        return false;
    }
    for (x, y) in a.iter().zip(b) {
        if !same_raw(x.as_ref(), y.as_ref()) {
            return false;
        }
    }
    true
}

/// Whether two unions have the same id, and exactly the same child.
#[cycle(same)]
fn same_union(a: &UnionValue, b: &UnionValue) -> bool {
    a.type_id == b.type_id && same_raw(a.child.as_deref(), b.child.as_deref())
}

/// Whether two scalars have equal types, and exactly the same raw value.
#[cycle(same)]
pub fn same_scalar(a: &Scalar, b: &Scalar) -> bool {
    a.dtype == b.dtype && same_raw(a.value.as_ref(), b.value.as_ref())
}

/// Whether a scalar is exactly the lent one.
pub fn same_as_lent(scalar: &Scalar, lent: ScalarRef<'_>) -> bool {
    scalar.dtype == *lent.dtype() && same_raw(scalar.value.as_ref(), lent.value())
}

/// Whether two slices have exactly the same scalars.
pub fn same_scalars(a: &[Scalar], b: &[Scalar]) -> bool {
    a.len() == b.len() && a.iter().zip(b).all(|(x, y)| same_scalar(x, y))
}

/// Whether two slices have exactly the same raw values and nulls.
pub fn same_raws(a: &[Option<ScalarValue>], b: &[Option<ScalarValue>]) -> bool {
    a.len() == b.len()
        && a.iter()
            .zip(b)
            .all(|(x, y)| same_raw(x.as_ref(), y.as_ref()))
}
