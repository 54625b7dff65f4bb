//! What a caller derives about types, from the contracts of their calls and the laws alone.

ghost use Rattle.std.specs.Prelude.{◌↔◌, ◌≡◌, IsTrue, fold};
ghost use Rattle.law_callers.specs.Words.{IsNullable, Same, erase, map_of, map_type_of, tree_feed, type_of};

use std::hash::{Hash, Hasher};
use vortex_dtype::laws::{
    equality, equality_decides, equality_is_an_equivalence, hash_agrees, nullable_is_the_same,
    same_is_an_equivalence, same_types_feed_the_same, trees_by_variant,
};
use vortex_dtype::{DType, MapDType, Nullability};

/// The map type of these parts.
pub fn map_with(map: MapDType, nullability: Nullability) -> DType
    ensures { type_of result ≡ map_type_of (map_of map) nullability }
{
    trees_by_variant();
    DType::Map(map, nullability)
}

/// Whether two types are equal: exactly then they are one tree.
pub fn are_equal(first: &DType, second: &DType) -> bool
    ensures { IsTrue result ↔ (type_of first.now ≡ type_of second.now) }
{
    equality();
    *first == *second
}

/// Whether two maps have equal key types: exactly then these are one tree.
pub fn have_equal_keys(first: &MapDType, second: &MapDType) -> bool
    ensures { IsTrue result ↔ ((map_of first.now).key ≡ (map_of second.now).key) }
{
    equality_decides();
    *first.key_dtype() == *second.key_dtype()
}

/// Whether the second type equals the first and the third: then these two are equal.
pub fn are_equal_through(first: &DType, second: &DType, third: &DType) -> bool
    ensures { IsTrue result → IsTrue (⟦<DType as PartialEq>⟧.eq first.now third.now) }
{
    equality_is_an_equivalence();
    *first == *second && *second == *third
}

/// Whether the second type is, up to nullability, the first and the third: then these two are.
pub fn are_same_through(first: &DType, second: &DType, third: &DType) -> bool
    ensures { IsTrue result → Same (type_of first.now) (type_of third.now) }
{
    same_is_an_equivalence();
    first.eq_ignore_nullability(second) && second.eq_ignore_nullability(third)
}

/// A type made nullable: it takes a null, and is the same up to nullability.
pub fn nullable(dtype: DType) -> DType
    ensures nullable { IsNullable (type_of result) }
    ensures same { Same (type_of result) (type_of dtype) }
{
    nullable_is_the_same();
    dtype.as_nullable()
}

/// Feeds the second of two equal types: what the first feeds.
pub fn feed_equal<H: Hasher>(_first: &DType, second: &DType, state: &mut H)
    requires { IsTrue (⟦<DType as PartialEq>⟧.eq _first.now second.now) }
    ensures { state.new ≡ fold H.write state.old (⟦<DType as Hash>⟧.hash_input _first.now) }
{
    hash_agrees();
    second.hash(state);
}

/// Feeds the second of two types without nullability: what the first feeds, if they are the same up
/// to nullability.
pub fn feed_same<H: Hasher>(_first: &DType, second: &DType, state: &mut H)
    requires { Same (type_of _first.now) (type_of second.now) }
    ensures { state.new ≡ fold H.write state.old (tree_feed (erase (type_of _first.now))) }
{
    same_types_feed_the_same();
    second.hash_ignore_nullability(state);
}
