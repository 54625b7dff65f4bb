//! What types and their parts feed a hasher, with and without nullability: one recursion for both.

ghost use Rattle.std.specs.Prelude.{◌≡◌, fold, true};
ghost use Rattle.vortex_dtype.specs.Lemmas.TypeLaws.{tree_eq-same, map_eq-Decides, fields_eq-Decides};
ghost use Rattle.vortex_dtype.specs.Lemmas.TypeLaws.{variants_eq-Decides, ext_eq-Decides};
ghost use Rattle.vortex_dtype.specs.Words.{ap, dtype_trees, ext_feed, ext_of, fields_feed, fields_of, keep, lists_of};
ghost use Rattle.vortex_dtype.specs.Words.{map_feed, map_of, nullability_feed, tree_feed, trees_feed, trim, trim_all};
ghost use Rattle.vortex_dtype.specs.Words.{type_of, variant_number, variants_feed, variants_of};

use super::{DType, ExtDType, FieldLists, MapDType, StructFields, UnionVariants};
use crate::nullability::Nullability;
use std::hash::{Hash, Hasher};

/// Feeds a nullability; if `exact` is false, all feed alike.
fn feed_nullability<H: Hasher>(exact: bool, nullability: Nullability, state: &mut H)
    ensures { state.new ≡ fold H.write state.old (nullability_feed (keep exact nullability)) }
{
    match nullability {
        Nullability::Nullable if exact => state.write_u8(1),
        _ => state.write_u8(0),
    }
}

/// The number of a type's variant.
fn variant_number(dtype: &DType) -> u8
    ensures { result ≡ variant_number (type_of dtype.now) }
{
    match dtype {
        DType::Null => 0,
        DType::Bool(_) => 1,
        DType::Primitive(_, _) => 2,
        DType::Utf8(_) => 3,
        DType::Binary(_) => 4,
        DType::List(_, _) => 5,
        DType::FixedSizeList(_, _, _) => 6,
        DType::Map(_, _) => 7,
        DType::Struct(_, _) => 8,
        DType::Union(_, _) => 9,
        DType::Variant(_) => 10,
        DType::Extension(_) => 11,
    }
}

/// Feeds a type; if `exact` is false, without nullability.
#[cycle(feed)]
pub(super) fn feed<H: Hasher>(exact: bool, dtype: &DType, state: &mut H)
    ensures { state.new ≡ fold H.write state.old (tree_feed (trim exact (type_of dtype.now))) }
{
    state.write_u8(variant_number(dtype));
    let nullability = match dtype {
        DType::Null => return,
        DType::Bool(nullability)
        | DType::Utf8(nullability)
        | DType::Binary(nullability)
        | DType::Variant(nullability) => *nullability,
        DType::Primitive(ptype, nullability) => {
            state.write_u8(*ptype as u8);
            *nullability
        }
        DType::List(element, nullability) => {
            feed(exact, element, state);
            *nullability
        }
        DType::FixedSizeList(element, size, nullability) => {
            feed(exact, element, state);
            state.write_u32(*size);
            *nullability
        }
        DType::Map(map, nullability) => {
            feed_map(exact, map, state);
            *nullability
        }
        DType::Struct(fields, nullability) => {
            feed_fields(exact, fields, state);
            *nullability
        }
        DType::Union(variants, nullability) => {
            feed_variants(exact, variants, state);
            *nullability
        }
        DType::Extension(extension) => return feed_extension(exact, extension, state),
    };
    feed_nullability(exact, nullability, state);
}

#[cycle(feed)]
fn feed_all<H: Hasher>(exact: bool, dtypes: &[DType], state: &mut H)
    ensures { state.new
        ≡ fold H.write state.old (trees_feed (trim_all exact (dtype_trees dtypes.now))) }
{
    for dtype in dtypes {
        feed(exact, dtype, state);
    }
}

#[cycle(feed)]
fn feed_map<H: Hasher>(exact: bool, map: &MapDType, state: &mut H)
    ensures { state.new ≡ fold H.write state.old (map_feed exact (map_of map.now)) }
{
    feed(exact, &map.key, state);
    feed(exact, &map.value, state);
    map.keys_sorted.hash(state);
}

#[cycle(feed)]
fn feed_fields<H: Hasher>(exact: bool, fields: &StructFields, state: &mut H)
    ensures { state.new ≡ fold H.write state.old (fields_feed exact (fields_of fields.now)) }
{
    feed_lists(exact, fields.lists(), state);
}

#[cycle(feed)]
fn feed_lists<H: Hasher>(exact: bool, lists: &FieldLists, state: &mut H)
    ensures { state.new ≡ fold H.write state.old (fields_feed exact (lists_of lists.now)) }
{
    lists.names.hash(state);
    feed_all(exact, &lists.dtypes, state);
}

#[cycle(feed)]
fn feed_variants<H: Hasher>(exact: bool, variants: &UnionVariants, state: &mut H)
    ensures { state.new ≡ fold H.write state.old (variants_feed exact (variants_of variants.now)) }
{
    variants.names.hash(state);
    feed_all(exact, &variants.dtypes, state);
    variants.type_ids.hash(state);
}

#[cycle(feed)]
fn feed_extension<H: Hasher>(exact: bool, extension: &ExtDType, state: &mut H)
    ensures { state.new ≡ fold H.write state.old (ext_feed exact (ext_of extension.now)) }
{
    extension.id.hash(state);
    extension.metadata.hash(state);
    feed(exact, &extension.storage, state);
}

impl Hash for DType {
    ghost hash_input = { λ dtype. tree_feed (type_of dtype) };

    ghost respects_eq = { λ x y e. ap tree_feed (tree_eq-same (type_of x) (type_of y) e) };

    fn hash<H: Hasher>(&self, state: &mut H) {
        feed(true, self, state);
    }
}

impl Hash for MapDType {
    ghost hash_input = { λ part. map_feed true (map_of part) };

    ghost respects_eq = { λ x y e. ap (map_feed true) ((map_eq-Decides (map_of x) (map_of y)).0 e) };

    fn hash<H: Hasher>(&self, state: &mut H) {
        feed_map(true, self, state);
    }
}

impl Hash for StructFields {
    ghost hash_input = { λ part. fields_feed true (fields_of part) };

    ghost respects_eq = { λ x y e. ap (fields_feed true) ((fields_eq-Decides (fields_of x) (fields_of y)).0 e) };

    fn hash<H: Hasher>(&self, state: &mut H) {
        feed_fields(true, self, state);
    }
}

impl Hash for UnionVariants {
    ghost hash_input = { λ part. variants_feed true (variants_of part) };

    ghost respects_eq = { λ x y e. ap (variants_feed true) ((variants_eq-Decides (variants_of x) (variants_of y)).0 e) };

    fn hash<H: Hasher>(&self, state: &mut H) {
        feed_variants(true, self, state);
    }
}

impl Hash for ExtDType {
    ghost hash_input = { λ part. ext_feed true (ext_of part) };

    ghost respects_eq = { λ x y e. ap (ext_feed true) ((ext_eq-Decides (ext_of x) (ext_of y)).0 e) };

    fn hash<H: Hasher>(&self, state: &mut H) {
        feed_extension(true, self, state);
    }
}
