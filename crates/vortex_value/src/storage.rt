//! The type below all extensions, and the variants of unions by id and by place.

ghost use Rattle.std.specs.Prelude.{◌≡◌, ◌==◌, IfSome, Some, option_map, position};
ghost use Rattle.vortex_value.specs.Words.{as_type_trees, ext_of, first_of, storage, type_of, type_with, variants_of};

use vortex_dtype::{DType, ExtDType, UnionVariants};

/// The type below all extensions. A type that is no extension costs no call. Of this port alone:
/// views look at what a type stores by it.
#[cycle(storage_of)]
#[inline(always)]
pub fn storage_of(dtype: &DType) -> &DType
    ensures { type_of result.now ≡ storage (type_of dtype.now) }
{
    match dtype {
        DType::Extension(extension) => storage_below(extension),
        _ => dtype,
    }
}

/// The type below this extension and all below it.
#[cycle(storage_of)]
fn storage_below(extension: &ExtDType) -> &DType
    ensures { type_of result.now ≡ storage (ext_of extension.now).storage }
{
    storage_of(extension.storage_dtype())
}

/// The place and the type of the variant with this id, if there is one.
#[tactic(auto, using(crate::proofs::Variants::by_place))]
pub(crate) fn variant_with(variants: &UnionVariants, id: u8) -> Option<(usize, &DType)>
    ensures typed { option_map (λ v. type_of v.1.now) result
        ≡ type_with id (variants_of variants.now).type_ids
        (as_type_trees (variants_of variants.now).types) }
    ensures placed { IfSome result
        (λ v. position (λ i. i == id) (variants_of variants.now).type_ids ≡ Some v.0) }
{
    let index = variants.tag_to_child_index(id)?;
    Some((index, variants.variant_by_index(index)?))
}

/// The id and the type of the first variant, if there is one.
pub(crate) fn first_variant(variants: &UnionVariants) -> Option<(u8, &DType)>
    ensures { option_map (λ first. (first.0, type_of first.1.now)) result
        ≡ first_of (variants_of variants.now).type_ids (variants_of variants.now).types }
{
    let id = variants.type_ids().next()?;
    Some((id, variants.variant_by_index(0)?))
}
