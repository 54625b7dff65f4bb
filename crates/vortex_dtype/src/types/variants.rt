//! The variants of unions, and their ids.

ghost use Rattle.std.specs.Prelude.{◌≡◌, ◌==◌, ◌<◌, IfOk, Some, length, option_map, position, slice_get, map};
ghost use Rattle.vortex_dtype.specs.Words.{GivesOrNoMemory, RefusesExactly, YieldsFirst, ids_left, item_count};
ghost use Rattle.vortex_dtype.specs.Words.{names_in, repeats, type_of, variants_cause, variants_of};

use super::copies::copy_variants;
use super::fields::dtype_at;
use super::{DType, UnionVariants};
use crate::error::{TypeCause, VortexError};
use crate::names::{FieldName, FieldNames};
use std::alloc::Global;
use std::slice;

impl UnionVariants {
    /// The variants with these names, types and ids. `BadType` with `LengthsDiffer` exactly if they
    /// are not equally many. Otherwise `BadType` with `RepeatedTypeId` exactly if two ids are
    /// equal. Takes no memory.
    pub fn try_new(
        _alloc: Global,
        names: Vec<FieldName>,
        dtypes: Vec<DType>,
        type_ids: Vec<u8>,
    ) -> Result<UnionVariants, VortexError>
        ensures refused { RefusesExactly
            (variants_cause (length names.items) (length dtypes.items) type_ids.items)
            result }
        ensures made { IfOk result (λ variants. variants_of variants ≡ record {
          names = names.items;
          types = map type_of dtypes.items;
          type_ids = type_ids.items;
        }) }
    {
        if names.len() != dtypes.len() || type_ids.len() != dtypes.len() {
            return Err(VortexError::BadType {
                cause: TypeCause::LengthsDiffer,
            });
        }
        if repeats(&type_ids) {
            return Err(VortexError::BadType {
                cause: TypeCause::RepeatedTypeId,
            });
        }
        Ok(UnionVariants {
            names,
            dtypes,
            type_ids,
        })
    }

    /// How many variants there are.
    pub fn len(&self) -> usize
        ensures { result ≡ length (variants_of self.now).type_ids }
    {
        self.type_ids.len()
    }

    /// The place of the variant with the id. `None` exactly if no variant has it.
    pub fn tag_to_child_index(&self, tag: u8) -> Option<usize>
        ensures { result ≡ position (λ id. id == tag) (variants_of self.now).type_ids }
    {
        find_id(&self.type_ids, tag)
    }

    /// The id of the variant at this place, which must be below `len`.
    ///
    /// Ports `UnionVariants::child_index_to_tag`, which panics past the end.
    pub fn child_index_to_tag(&self, index: usize) -> u8
        requires { index < length (variants_of self.now).type_ids }
        ensures { slice_get (variants_of self.now).type_ids index ≡ Some result }
    {
        id_at(&self.type_ids, index)
    }

    /// The type of the variant at this place. `None` exactly past the end.
    ///
    /// Ports `UnionVariants::variant_by_index`, which gives an owned type.
    pub fn variant_by_index(&self, index: usize) -> Option<&DType>
        ensures tree { option_map (λ dtype. type_of dtype.now) result
            ≡ slice_get (variants_of self.now).types index }
    {
        dtype_at(&self.dtypes, index)
    }

    /// The names, in order.
    pub fn names(&self) -> FieldNames<'_>
        ensures { names_in result ≡ (variants_of self.now).names }
    {
        FieldNames::of(&self.names)
    }

    /// The types, in order. Of this port alone, for recursions over types.
    pub fn dtypes(&self) -> &[DType]
        ensures { map type_of result.now ≡ (variants_of self.now).types }
    {
        &self.dtypes
    }

    /// A copy. `OutOfMemory` if there is no memory for it.
    pub fn clone(&self, alloc: Global) -> Result<UnionVariants, VortexError>
        ensures { GivesOrNoMemory (λ copy. variants_of copy ≡ variants_of self.now) result }
    {
        copy_variants(alloc, self)
    }
}

/// Whether some id stands at two places.
fn repeats(ids: &[u8]) -> bool
    ensures { result ≡ repeats ids.now }
{
    // Two of 257 bytes are equal, so the loop ends within 257 turns.
    for i in 0..ids.len() {
        if ids[i + 1..].contains(&ids[i]) {
            return true;
        }
    }
    false
}

// These functions are one line each, over a list alone. The methods above speak of the fold of a
// type, and the prover proves them from these contracts, but not from the lines themselves.

/// The place of the first of the ids that is this one.
fn find_id(ids: &[u8], tag: u8) -> Option<usize>
    ensures { result ≡ position (λ id. id == tag) ids.now }
{
    ids.iter().position(|id| *id == tag)
}

/// The id at this place.
fn id_at(ids: &[u8], index: usize) -> u8
    requires { index < length ids.now }
    ensures { slice_get ids.now index ≡ Some result }
{
    ids[index]
}

/// The ids of a union's variants, in order.
///
/// Ports the iterator that `UnionVariants::type_ids` gives.
#[derive(Drop)]
pub struct TypeIds<'a> {
    ids: slice::Iter<'a, u8>,
}

impl<'a> Iterator for TypeIds<'a> {
    type Item = u8;

    ghost next_gives = { YieldsFirst ids_left };

    ghost remaining = { item_count ids_left };

    /// The next id. `None` after the last.
    fn next(&mut self) -> Option<u8> {
        self.ids.next().copied()
    }
}

impl UnionVariants {
    /// The ids, in order.
    pub fn type_ids(&self) -> TypeIds<'_>
        ensures { ids_left result ≡ (variants_of self.now).type_ids }
    {
        TypeIds {
            ids: self.type_ids.iter(),
        }
    }
}
