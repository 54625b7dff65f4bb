//! The laws of views, which hold whatever calls gave a view.
//!
//! These functions do nothing when they run. The contract of each is a law over the definitions in
//! `specs/`, and its proof is the law's proof.

ghost use Rattle.vortex_views.specs.Words.{AgreesWithHash, EqualsAsViewed, IsEquivalence, OrderAgreesAsViewed};
ghost use Rattle.vortex_views.specs.Words.{scalar_entry, scalar_part};
ghost use Rattle.vortex_views.specs.ViewWords.{GivesEachPart, entries_left, ext_ref, fields_left, keys_left, list_ref};
ghost use Rattle.vortex_views.specs.ViewWords.{map_ref, struct_ref, union_ref, values_left};

use crate::extension::ExtScalar;
use crate::iterators::{Entries, Fields, Keys, Values};
use crate::list::ListScalar;
use crate::map::MapScalar;
use crate::struct_::StructScalar;
use crate::union::UnionScalar;
use std::hash::Hash;

/// An iterator over parts gives an item for each part that was left, in order, and then `None`. An
/// item is a copy of the part, or `OutOfMemory` if there was none for it.
pub fn iterators_give_each_part()
    ensures entries { GivesEachPart
        scalar_entry entries_left ⟦<Entries<'static> as Iterator>⟧.next_gives }
    ensures keys { GivesEachPart
        scalar_part keys_left ⟦<Keys<'static> as Iterator>⟧.next_gives }
    ensures values { GivesEachPart
        scalar_part values_left ⟦<Values<'static> as Iterator>⟧.next_gives }
    ensures fields { GivesEachPart
        scalar_part fields_left ⟦<Fields<'static> as Iterator>⟧.next_gives }
{}

/// Views are equal exactly if their types are the same up to nullability and their contents equal.
pub fn equality()
    ensures lists { EqualsAsViewed list_ref ⟦<ListScalar<'static> as PartialEq>⟧.eq }
    ensures maps { EqualsAsViewed map_ref ⟦<MapScalar<'static> as PartialEq>⟧.eq }
    ensures structs { EqualsAsViewed struct_ref ⟦<StructScalar<'static> as PartialEq>⟧.eq }
    ensures unions { EqualsAsViewed union_ref ⟦<UnionScalar<'static> as PartialEq>⟧.eq }
    ensures extensions { EqualsAsViewed ext_ref ⟦<ExtScalar<'static> as PartialEq>⟧.eq }
{
    vortex_value::laws::equality();
}

/// Equality is an equivalence: every view equals itself, equality goes both ways, and it goes on
/// from one view to the next.
pub fn equality_is_an_equivalence()
    ensures lists { IsEquivalence ⟦<ListScalar<'static> as PartialEq>⟧.eq }
    ensures maps { IsEquivalence ⟦<MapScalar<'static> as PartialEq>⟧.eq }
    ensures structs { IsEquivalence ⟦<StructScalar<'static> as PartialEq>⟧.eq }
    ensures unions { IsEquivalence ⟦<UnionScalar<'static> as PartialEq>⟧.eq }
    ensures extensions { IsEquivalence ⟦<ExtScalar<'static> as PartialEq>⟧.eq }
{}

/// Equal views feed every hasher the same.
pub fn hash_agrees()
    ensures lists { AgreesWithHash
        ⟦<ListScalar<'static> as PartialEq>⟧.eq ⟦<ListScalar<'static> as Hash>⟧.hash_input }
    ensures maps { AgreesWithHash
        ⟦<MapScalar<'static> as PartialEq>⟧.eq ⟦<MapScalar<'static> as Hash>⟧.hash_input }
    ensures structs { AgreesWithHash
        ⟦<StructScalar<'static> as PartialEq>⟧.eq ⟦<StructScalar<'static> as Hash>⟧.hash_input }
    ensures extensions { AgreesWithHash
        ⟦<ExtScalar<'static> as PartialEq>⟧.eq ⟦<ExtScalar<'static> as Hash>⟧.hash_input }
{
    vortex_value::laws::hash_agrees();
}

/// If a view is valid and its type has no variant at any depth, `partial_cmp` with another view
/// says `Equal` exactly if the two are equal.
pub fn order_agrees_with_equality()
    ensures lists { OrderAgreesAsViewed list_ref ⟦<ListScalar<'static> as PartialEq>⟧.eq }
    ensures structs { OrderAgreesAsViewed struct_ref ⟦<StructScalar<'static> as PartialEq>⟧.eq }
    ensures extensions { OrderAgreesAsViewed ext_ref ⟦<ExtScalar<'static> as PartialEq>⟧.eq }
{
    vortex_value::laws::order_agrees_with_equality();
}
