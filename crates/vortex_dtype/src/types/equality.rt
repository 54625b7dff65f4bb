//! Equality of types and of their parts, with and without nullability: one recursion for both.

ghost use Rattle.std.specs.Prelude.{◌≡◌, true};
ghost use Rattle.vortex_dtype.specs.Lemmas.TypeLaws.{tree_eq-equiv, equiv-from_Decides, map_eq-Decides};
ghost use Rattle.vortex_dtype.specs.Lemmas.TypeLaws.{fields_eq-Decides, variants_eq-Decides, ext_eq-Decides};
ghost use Rattle.vortex_dtype.specs.Words.{dtype_trees, ext_eq, ext_of, fields_eq, fields_of, keep, lists_of, map_eq};
ghost use Rattle.vortex_dtype.specs.Words.{map_of, nullability_eq, on, on_equiv, partial_equiv_from_equiv, tree_eq};
ghost use Rattle.vortex_dtype.specs.Words.{trees_eq, trim, trim_all, type_of, variants_eq, variants_of};

use super::{DType, ExtDType, FieldLists, MapDType, StructFields, UnionVariants};
use crate::nullability::Nullability;

/// Whether two nullabilities are equal; if `exact` is false, all are.
fn nullabilities_agree(exact: bool, a: Nullability, b: Nullability) -> bool
    ensures { result ≡ nullability_eq (keep exact a) (keep exact b) }
{
    !exact || a == b
}

/// Whether two types are equal; if `exact` is false, up to nullability.
#[cycle(equal)]
pub(super) fn equal(exact: bool, a: &DType, b: &DType) -> bool
    ensures { result ≡ tree_eq (trim exact (type_of a.now)) (trim exact (type_of b.now)) }
{
    match (a, b) {
        (DType::Null, DType::Null) => true,
        (DType::Bool(m), DType::Bool(n)) => nullabilities_agree(exact, *m, *n),
        (DType::Primitive(j, m), DType::Primitive(k, n)) => {
            *j == *k && nullabilities_agree(exact, *m, *n)
        }
        (DType::Utf8(m), DType::Utf8(n)) => nullabilities_agree(exact, *m, *n),
        (DType::Binary(m), DType::Binary(n)) => nullabilities_agree(exact, *m, *n),
        (DType::List(s, m), DType::List(t, n)) => {
            equal(exact, s, t) && nullabilities_agree(exact, *m, *n)
        }
        (DType::FixedSizeList(s, i, m), DType::FixedSizeList(t, j, n)) => {
            equal(exact, s, t) && *i == *j && nullabilities_agree(exact, *m, *n)
        }
        (DType::Map(s, m), DType::Map(t, n)) => {
            maps_equal(exact, s, t) && nullabilities_agree(exact, *m, *n)
        }
        (DType::Struct(s, m), DType::Struct(t, n)) => {
            fields_equal(exact, s, t) && nullabilities_agree(exact, *m, *n)
        }
        (DType::Union(s, m), DType::Union(t, n)) => {
            variants_equal(exact, s, t) && nullabilities_agree(exact, *m, *n)
        }
        (DType::Variant(m), DType::Variant(n)) => nullabilities_agree(exact, *m, *n),
        (DType::Extension(s), DType::Extension(t)) => extensions_equal(exact, s, t),
        _ => false,
    }
}

#[cycle(equal)]
fn maps_equal(exact: bool, a: &MapDType, b: &MapDType) -> bool
    ensures { result ≡ map_eq exact (map_of a.now) (map_of b.now) }
{
    equal(exact, &a.key, &b.key)
        && equal(exact, &a.value, &b.value)
        && a.keys_sorted == b.keys_sorted
}

#[cycle(equal)]
fn fields_equal(exact: bool, a: &StructFields, b: &StructFields) -> bool
    ensures { result ≡ fields_eq exact (fields_of a.now) (fields_of b.now) }
{
    lists_equal(exact, a.lists(), b.lists())
}

#[cycle(equal)]
fn lists_equal(exact: bool, a: &FieldLists, b: &FieldLists) -> bool
    ensures { result ≡ fields_eq exact (lists_of a.now) (lists_of b.now) }
{
    a.names == b.names && all_equal(exact, &a.dtypes, &b.dtypes)
}

#[cycle(equal)]
fn variants_equal(exact: bool, a: &UnionVariants, b: &UnionVariants) -> bool
    ensures { result ≡ variants_eq exact (variants_of a.now) (variants_of b.now) }
{
    a.names == b.names && all_equal(exact, &a.dtypes, &b.dtypes) && a.type_ids == b.type_ids
}

#[cycle(equal)]
fn extensions_equal(exact: bool, a: &ExtDType, b: &ExtDType) -> bool
    ensures { result ≡ ext_eq exact (ext_of a.now) (ext_of b.now) }
{
    a.id == b.id && a.metadata == b.metadata && equal(exact, &a.storage, &b.storage)
}

/// Whether two lists of types are equal, place by place.
#[cycle(equal)]
fn all_equal(exact: bool, a: &[DType], b: &[DType]) -> bool
    ensures { result
        ≡ trees_eq (trim_all exact (dtype_trees a.now)) (trim_all exact (dtype_trees b.now)) }
{
    if a.len() != b.len() {
        return false;
    }
    for i in 0..a.len() {
        if !equal(exact, &a[i], &b[i]) {
            return false;
        }
    }
    true
}

impl PartialEq for DType {
    ghost eq = { on type_of tree_eq };

    ghost laws = { partial_equiv_from_equiv (on_equiv type_of tree_eq-equiv) };

    fn eq(&self, other: &DType) -> bool {
        equal(true, self, other)
    }
}

impl Eq for DType {
    ghost laws = { on_equiv type_of tree_eq-equiv };
}

impl PartialEq for MapDType {
    ghost eq = { on map_of (map_eq true) };

    ghost laws = { partial_equiv_from_equiv (on_equiv map_of (equiv-from_Decides (map_eq true) map_eq-Decides)) };

    fn eq(&self, other: &MapDType) -> bool {
        maps_equal(true, self, other)
    }
}

impl Eq for MapDType {
    ghost laws = { on_equiv map_of (equiv-from_Decides (map_eq true) map_eq-Decides) };
}

impl PartialEq for StructFields {
    ghost eq = { on fields_of (fields_eq true) };

    ghost laws = { partial_equiv_from_equiv (on_equiv fields_of (equiv-from_Decides (fields_eq true) fields_eq-Decides)) };

    fn eq(&self, other: &StructFields) -> bool {
        fields_equal(true, self, other)
    }
}

impl Eq for StructFields {
    ghost laws = { on_equiv fields_of (equiv-from_Decides (fields_eq true) fields_eq-Decides) };
}

impl PartialEq for UnionVariants {
    ghost eq = { on variants_of (variants_eq true) };

    ghost laws = { partial_equiv_from_equiv (on_equiv variants_of (equiv-from_Decides (variants_eq true) variants_eq-Decides)) };

    fn eq(&self, other: &UnionVariants) -> bool {
        variants_equal(true, self, other)
    }
}

impl Eq for UnionVariants {
    ghost laws = { on_equiv variants_of (equiv-from_Decides (variants_eq true) variants_eq-Decides) };
}

impl PartialEq for ExtDType {
    ghost eq = { on ext_of (ext_eq true) };

    ghost laws = { partial_equiv_from_equiv (on_equiv ext_of (equiv-from_Decides (ext_eq true) ext_eq-Decides)) };

    fn eq(&self, other: &ExtDType) -> bool {
        extensions_equal(true, self, other)
    }
}

impl Eq for ExtDType {
    ghost laws = { on_equiv ext_of (equiv-from_Decides (ext_eq true) ext_eq-Decides) };
}
