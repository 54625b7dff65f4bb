//! The order of raw values and of scalars: nulls first, and variants have none.
#![tactic(auto, using(crate::proofs::OrderSteps::shown))]

ghost use Rattle.std.specs.Prelude.{◌≡◌, Some, length};
ghost use Rattle.vortex_value.specs.Words.{content, contents, lent_raw, nat_cmp, order, orders, scalar_order};
ghost use Rattle.vortex_value.specs.Words.{union_tree, value_tree, value_trees};

use crate::refs::ScalarRef;
use crate::scalars::Scalar;
use crate::unions::UnionValue;
use crate::values::ScalarValue;
use std::cmp::Ordering;

/// The order of two optional raw values: a null is below all others.
#[cycle(order)]
#[inline(always)]
pub(crate) fn compare(a: Option<&ScalarValue>, b: Option<&ScalarValue>) -> Option<Ordering>
    ensures { result ≡ order
        (content (lent_raw a.entry)) (content (lent_raw b.entry)) }
{
    match (a, b) {
        (Some(a), Some(b)) => compare_values(a, b),
        (None, Some(_)) => Some(Ordering::Less),
        (Some(_), None) => Some(Ordering::Greater),
        (None, None) => Some(Ordering::Equal),
    }
}

/// The order of two raw values; `None` for two variants, and for values of different variants of
/// the enum.
#[cycle(order)]
#[inline(always)]
fn compare_values(a: &ScalarValue, b: &ScalarValue) -> Option<Ordering>
    ensures { result ≡ order (content (value_tree a.now)) (content (value_tree b.now)) }
{
    match (a, b) {
        (ScalarValue::Bool(x), ScalarValue::Bool(y)) => Some(x.cmp(y)),
        (ScalarValue::Primitive(x), ScalarValue::Primitive(y)) => x.partial_cmp(y),
        (ScalarValue::Utf8(x), ScalarValue::Utf8(y)) => Some(x.cmp(y)),
        (ScalarValue::Binary(x), ScalarValue::Binary(y)) => Some(x.cmp(y)),
        (ScalarValue::Tuple(xs), ScalarValue::Tuple(ys)) => compare_tuples(xs, ys),
        (ScalarValue::Union(x), ScalarValue::Union(y)) => compare_unions(x, y),
        _ => None,
    }
}

/// The order at the first place that is not equal on both sides, and else of the lengths.
#[cycle(order)]
fn compare_tuples(a: &[Option<ScalarValue>], b: &[Option<ScalarValue>]) -> Option<Ordering>
    ensures { result ≡ orders (contents (value_trees a.now)) (contents (value_trees b.now)) }
{
    for (x, y) in a.iter().zip(b) {
        let place = compare(x.as_ref(), y.as_ref());
        if place != Some(Ordering::Equal) {
            return place;
        }
    }
    compare_lengths(a, b)
}

/// The order of the lengths, which decides if no place of the shorter side does.
fn compare_lengths(a: &[Option<ScalarValue>], b: &[Option<ScalarValue>]) -> Option<Ordering>
    ensures { result ≡ Some (nat_cmp (length a.now) (length b.now)) }
{
    Some(a.len().cmp(&b.len()))
}

/// The order of the children if the ids are equal, else `None`.
#[cycle(order)]
fn compare_unions(a: &UnionValue, b: &UnionValue) -> Option<Ordering>
    ensures { result ≡ order (content (union_tree a.now)) (content (union_tree b.now)) }
{
    if a.type_id == b.type_id {
        compare(a.child.as_deref(), b.child.as_deref())
    } else {
        None
    }
}

impl Scalar {
    /// The order of the contents if the types are the same up to nullability, else `None`. A null
    /// is below all others, and two variants have no order.
    ///
    /// Ports the `PartialOrd` of `Scalar`. It is a plain call, since a variant equals itself and
    /// has no order with itself.
    pub fn partial_cmp(&self, other: &Scalar) -> Option<Ordering>
        ensures { result ≡ scalar_order self.now other.now }
    {
        ScalarRef::of(self).partial_cmp(&ScalarRef::of(other))
    }
}
