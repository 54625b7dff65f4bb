//! A law whose condition a caller knows from a maker: the ids of variants are distinct.

ghost use Rattle.std.specs.Prelude.{◌<◌, ◌≡◌, Some, false, length};
ghost use Rattle.law_callers.specs.Words.{repeats, variants_of};

use vortex_dtype::UnionVariants;
use vortex_dtype::laws::places_are_inverse;

/// The place that the id at this place is found at: the same place.
pub fn place_of_id_at(variants: &UnionVariants, index: usize) -> Option<usize>
    requires distinct { repeats (variants_of variants.now).type_ids ≡ false }
    requires within { index < length (variants_of variants.now).type_ids }
    ensures { result ≡ Some index }
{
    places_are_inverse();
    variants.tag_to_child_index(variants.child_index_to_tag(index))
}
