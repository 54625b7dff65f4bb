//! Laws of types, each the contract of a function that does nothing.

ghost use Rattle.vortex_dtype.specs.Laws.{AgreesWithHash, EqualityDecides, EqualityIsEquivalence, EqualsBy};
ghost use Rattle.vortex_dtype.specs.Laws.{SameIsEquivalence, NullableIsSame, PlacesAreInverse, SameFeedSame};
ghost use Rattle.vortex_dtype.specs.Laws.{TreesByVariant};
ghost use Rattle.vortex_dtype.specs.Words.{ext_of, fields_of, map_of, type_of, variants_of};

use crate::types::{DType, ExtDType, MapDType, StructFields, UnionVariants};
use std::hash::Hash;

/// The tree that a contract sees of each variant of `DType`.
pub fn trees_by_variant()
    ensures { TreesByVariant }
{}

/// `tree_eq`, the test that `==` of types is proved to be, passes exactly if the trees are equal.
pub fn equality_decides()
    ensures { EqualityDecides }
{}

/// Equality of types is an equivalence.
pub fn equality_is_an_equivalence()
    ensures { EqualityIsEquivalence }
{}

/// Types are equal exactly if their trees are equal, nullability included. The parts of maps,
/// structs, unions and extensions are equal exactly if they hold equal trees, names and ids.
pub fn equality()
    ensures types { EqualsBy type_of ⟦<DType as PartialEq>⟧.eq }
    ensures maps { EqualsBy map_of ⟦<MapDType as PartialEq>⟧.eq }
    ensures structs { EqualsBy fields_of ⟦<StructFields as PartialEq>⟧.eq }
    ensures unions { EqualsBy variants_of ⟦<UnionVariants as PartialEq>⟧.eq }
    ensures extensions { EqualsBy ext_of ⟦<ExtDType as PartialEq>⟧.eq }
{}

/// Equal types, and equal parts, feed every hasher alike.
pub fn hash_agrees()
    ensures types { AgreesWithHash ⟦<DType as PartialEq>⟧.eq ⟦<DType as Hash>⟧.hash_input }
    ensures maps { AgreesWithHash ⟦<MapDType as PartialEq>⟧.eq ⟦<MapDType as Hash>⟧.hash_input }
    ensures structs { AgreesWithHash ⟦<StructFields as PartialEq>⟧.eq ⟦<StructFields as Hash>⟧.hash_input }
    ensures unions { AgreesWithHash ⟦<UnionVariants as PartialEq>⟧.eq ⟦<UnionVariants as Hash>⟧.hash_input }
    ensures extensions { AgreesWithHash ⟦<ExtDType as PartialEq>⟧.eq ⟦<ExtDType as Hash>⟧.hash_input }
{}

/// Being equal up to nullability is an equivalence on types.
pub fn same_is_an_equivalence()
    ensures { SameIsEquivalence }
{}

/// If no id stands twice, the place of an id and the id at a place are inverse to one another. No
/// id stands twice in the variants that `UnionVariants::try_new` makes.
pub fn places_are_inverse()
    ensures { PlacesAreInverse }
{}

/// A type made nullable takes a null, and is equal to the type up to nullability.
pub fn nullable_is_the_same()
    ensures { NullableIsSame }
{}

/// Types that are equal up to nullability feed every hasher alike if nullability is ignored.
pub fn same_types_feed_the_same()
    ensures { SameFeedSame }
{}
