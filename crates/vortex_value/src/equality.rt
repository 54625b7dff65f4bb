//! Equality of raw values and of scalars: integers as whole numbers, types up to nullability.
#![tactic(auto, using(crate::proofs::ValueSteps::shown))]

ghost use Rattle.std.specs.Prelude.{◌≡◌, ◌&&◌};
ghost use Rattle.std.proofs.lemmas.Cmp.{on_equiv};
ghost use Rattle.vortex_value.specs.Words.{all_equal, content, contents, equal, lent_raw, partial_equiv_from_equiv};
ghost use Rattle.vortex_value.specs.Words.{same_type, scalar_content, scalar_type, type_of, typed, union_tree};
ghost use Rattle.vortex_value.specs.Words.{value_tree, value_trees, variant_tree};
ghost use Rattle.vortex_value.specs.Lemmas.EqualityLaws.{equal-equiv};

use crate::scalars::Scalar;
use crate::unions::UnionValue;
use crate::values::ScalarValue;
use vortex_dtype::DType;

/// Whether two types are the same up to nullability. The contract says it by the test that the
/// definition of equality uses, and the recursions below take it from here.
pub(crate) fn same_types(a: &DType, b: &DType) -> bool
    ensures { result ≡ same_type (type_of a.now) (type_of b.now) }
{
    a.eq_ignore_nullability(b)
}

/// Whether the contents of two raw values are equal.
#[cycle(equality)]
#[inline(always)]
fn equal_values(a: &ScalarValue, b: &ScalarValue) -> bool
    ensures { result ≡ equal (content (value_tree a.now)) (content (value_tree b.now)) }
{
    match (a, b) {
        (ScalarValue::Bool(x), ScalarValue::Bool(y)) => x == y,
        (ScalarValue::Primitive(x), ScalarValue::Primitive(y)) => x == y,
        (ScalarValue::Utf8(x), ScalarValue::Utf8(y)) => x == y,
        (ScalarValue::Binary(x), ScalarValue::Binary(y)) => x == y,
        (ScalarValue::Tuple(xs), ScalarValue::Tuple(ys)) => equal_tuples(xs, ys),
        (ScalarValue::Union(x), ScalarValue::Union(y)) => equal_unions(x, y),
        (ScalarValue::Variant(x), ScalarValue::Variant(y)) => equal_scalars(x, y),
        _ => false,
    }
}

/// Whether the contents of two optional raw values are equal: a null equals a null alone.
#[cycle(equality)]
#[inline(always)]
pub(crate) fn equal_optional(a: Option<&ScalarValue>, b: Option<&ScalarValue>) -> bool
    ensures { result ≡ equal
        (content (lent_raw a.entry)) (content (lent_raw b.entry)) }
{
    match (a, b) {
        (Some(x), Some(y)) => equal_values(x, y),
        (None, None) => true,
        _ => false,
    }
}

/// Whether there are equally many parts, equal place by place.
#[cycle(equality)]
fn equal_tuples(a: &[Option<ScalarValue>], b: &[Option<ScalarValue>]) -> bool
    ensures { result ≡ all_equal (contents (value_trees a.now)) (contents (value_trees b.now)) }
{
    if a.len() != b.len() {
        return false;
    }
    for (x, y) in a.iter().zip(b) {
        if !equal_optional(x.as_ref(), y.as_ref()) {
            return false;
        }
    }
    true
}

/// Whether the ids and the children are equal.
#[cycle(equality)]
fn equal_unions(a: &UnionValue, b: &UnionValue) -> bool
    ensures { result ≡ equal (content (union_tree a.now)) (content (union_tree b.now)) }
{
    if a.type_id != b.type_id {
        return false;
    }
    equal_optional(a.child.as_deref(), b.child.as_deref())
}

/// Whether the types are the same up to nullability and the contents equal.
#[cycle(equality)]
fn equal_scalars(a: &Scalar, b: &Scalar) -> bool
    ensures { result ≡ equal (content (variant_tree a.now)) (content (variant_tree b.now)) }
{
    if !same_types(&a.dtype, &b.dtype) {
        return false;
    }
    equal_optional(a.value.as_ref(), b.value.as_ref())
}

impl PartialEq for ScalarValue {
    ghost eq = { λ a b. equal (content (value_tree a)) (content (value_tree b)) };

    ghost laws = { partial_equiv_from_equiv (on_equiv (λ v. content (value_tree v)) equal-equiv) };

    fn eq(&self, other: &ScalarValue) -> bool {
        equal_values(self, other)
    }
}

impl Eq for ScalarValue {
    ghost laws = { on_equiv (λ v. content (value_tree v)) equal-equiv };
}

impl PartialEq for UnionValue {
    ghost eq = { λ a b. equal (content (union_tree a)) (content (union_tree b)) };

    ghost laws = { partial_equiv_from_equiv (on_equiv (λ u. content (union_tree u)) equal-equiv) };

    fn eq(&self, other: &UnionValue) -> bool {
        equal_unions(self, other)
    }
}

impl Eq for UnionValue {
    ghost laws = { on_equiv (λ u. content (union_tree u)) equal-equiv };
}

impl PartialEq for Scalar {
    ghost eq = { λ a b.
        same_type (scalar_type a) (scalar_type b) && equal (scalar_content a) (scalar_content b) };

    ghost laws = { partial_equiv_from_equiv
        (on_equiv (λ s. typed (scalar_type s) (scalar_content s)) equal-equiv) };

    fn eq(&self, other: &Scalar) -> bool {
        equal_scalars(self, other)
    }
}

impl Eq for Scalar {
    ghost laws = { on_equiv (λ s. typed (scalar_type s) (scalar_content s)) equal-equiv };
}
