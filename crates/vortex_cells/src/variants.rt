//! Whether a variant stands in a type: then its values have no order, and no keys.

ghost use Rattle.std.specs.Prelude.{◌≡◌, ◌↔◌, false};
ghost use Rattle.vortex_cells.specs.Words.{FirstIsByte, HasByteIds, HasNoVariant, HaveByteIds, HaveNoVariant};
ghost use Rattle.vortex_cells.specs.Words.{dtype_trees, has_variant, have_variant, type_of, variants_of};

use vortex_dtype::{DType, UnionVariants};

/// Does nothing: its contract says that the first id is a byte, which the tree of a type does not.
#[inline(always)]
fn ids_are_bytes(variants: &UnionVariants)
    ensures { FirstIsByte (variants_of variants.now).type_ids }
{
    if variants.len() > 0 {
        let _id = variants.child_index_to_tag(0);
    }
}

/// Whether a variant stands in the type, at any depth: then its values have no order, and no keys.
/// If none does, a caller also gets that the ids of unions are bytes.
#[cycle(variants)]
#[tactic(auto, using(crate::proofs::VariantSteps::shown))]
pub fn has_variant(dtype: &DType) -> bool
    ensures decided { result ≡ has_variant (type_of dtype.now) }
    ensures none { (result ≡ false) ↔ HasNoVariant (type_of dtype.now) }
    ensures ids { result ≡ false → HasByteIds (type_of dtype.now) }
{
    match dtype {
        DType::Variant(_) => true,
        DType::List(element, _) => has_variant(element),
        DType::FixedSizeList(element, _, _) => has_variant(element),
        DType::Map(map, _) => has_variant(map.key_dtype()) || has_variant(map.value_dtype()),
        DType::Struct(fields, _) => have_variant(fields.dtypes()),
        DType::Union(variants, _) => {
            ids_are_bytes(variants);
            have_variant(variants.dtypes())
        }
        DType::Extension(extension) => has_variant(extension.storage_dtype()),
        _ => false,
    }
}

/// Whether a variant stands in any of the types, at any depth.
#[cycle(variants)]
#[tactic(auto, using(crate::proofs::VariantSteps::shown))]
pub fn have_variant(dtypes: &[DType]) -> bool
    ensures decided { result ≡ have_variant (dtype_trees dtypes.now) }
    ensures none { (result ≡ false) ↔ HaveNoVariant (dtype_trees dtypes.now) }
    ensures ids { result ≡ false → HaveByteIds (dtype_trees dtypes.now) }
{
    for dtype in dtypes {
        if has_variant(dtype) {
            return true;
        }
    }
    false
}
