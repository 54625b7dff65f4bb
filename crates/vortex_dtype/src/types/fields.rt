//! The fields of structs.

ghost use Rattle.std.specs.Prelude.{◌≡◌, ◌<◌, IfOk, IsOkAnd, length, option_map, slice_get, position, map, false};
ghost use Rattle.vortex_dtype.specs.Words.{GivesOrNoMemory, IsProjection, RefusesOrNoMemory, bytes_eq, field_index};
ghost use Rattle.vortex_dtype.specs.Words.{fields_of, lists_of, misses_a_name, names_in, project_cause};
ghost use Rattle.vortex_dtype.specs.Words.{size-FieldLists, size-StructFields, type_named, type_of};

use super::copies::copy_fields;
use super::{DType, FieldLists, HeldFields, StructFields};
use crate::error::VortexError;
use crate::names::{FieldName, FieldNames};
use std::alloc::Global;
use std::sync::Arc;

impl StructFields {
    /// The fields with these names and types, which must be equally many. Never refused: one
    /// allocation is tried, so that copies can share the fields. Without it, `clone` copies each.
    ///
    /// Ports `StructFields::new`, which panics if the lengths differ.
    pub fn new(
        alloc: Global,
        names: Vec<FieldName>,
        dtypes: Vec<DType>,
    ) -> Result<StructFields, VortexError>
        requires { length names.items ≡ length dtypes.items }
        ensures { IsOkAnd result (λ fields.
            fields_of fields ≡ record { names = names.items; types = map type_of dtypes.items }) }
    {
        Ok(StructFields::from_lists(alloc, FieldLists { names, dtypes }))
    }

    /// The fields in these lists, which copies share if there is memory for that.
    pub(super) fn from_lists(alloc: Global, lists: FieldLists) -> StructFields
        ensures { fields_of result ≡ lists_of lists }
    {
        let held = match Arc::new(alloc, lists) {
            Ok(lists) => HeldFields::Shared(lists),
            Err(refused) => HeldFields::Own(refused.value),
        };
        StructFields { held }
    }

    /// The names and the types.
    pub(super) fn lists(&self) -> &FieldLists
        ensures same { lists_of result.now ≡ fields_of self.now }
        ensures inside { size-FieldLists result.now < size-StructFields self.now }
    {
        match &self.held {
            HeldFields::Own(lists) => lists,
            HeldFields::Shared(lists) => lists,
        }
    }

    /// How many fields there are.
    pub fn nfields(&self) -> usize
        ensures { result ≡ length (fields_of self.now).types }
    {
        self.lists().dtypes.len()
    }

    /// The names, in order.
    pub fn names(&self) -> FieldNames<'_>
        ensures { names_in result ≡ (fields_of self.now).names }
    {
        FieldNames::of(&self.lists().names)
    }

    /// The types, in order. Of this port alone, for recursions over types.
    pub fn dtypes(&self) -> &[DType]
        ensures trees { map type_of result.now ≡ (fields_of self.now).types }
    {
        &self.lists().dtypes
    }

    /// The place of the first field with the name. `None` exactly if no field has it.
    pub fn find(&self, name: &str) -> Option<usize>
        ensures { result ≡ field_index (fields_of self.now) name.now }
    {
        find_name(&self.lists().names, name)
    }

    /// The type of the field at this place. `None` exactly past the end.
    ///
    /// Ports `StructFields::field_by_index`, which gives an owned type.
    pub fn field_by_index(&self, index: usize) -> Option<&DType>
        ensures tree { option_map (λ dtype. type_of dtype.now) result
            ≡ slice_get (fields_of self.now).types index }
    {
        dtype_at(&self.lists().dtypes, index)
    }

    /// For each of the names, in order, that name and the type of the first field that has it.
    /// `NoField` exactly if some name belongs to no field, tested before any allocation. Otherwise
    /// `OutOfMemory` if there is no memory.
    pub fn project(&self, alloc: Global, names: &[FieldName]) -> Result<StructFields, VortexError>
        ensures refused { RefusesOrNoMemory (project_cause (fields_of self.now) names.now) result }
        ensures made { IfOk result (λ fields.
            IsProjection (fields_of self.now) names.now (fields_of fields)) }
    {
        if self.misses_a_name(names) {
            return Err(VortexError::NoField);
        }
        self.project_found(alloc, names)
    }

    /// Whether some name belongs to no field.
    fn misses_a_name(&self, names: &[FieldName]) -> bool
        ensures { result ≡ misses_a_name (fields_of self.now) names.now }
    {
        for name in names {
            if self.field(name.as_str()).is_none() {
                return true;
            }
        }
        false
    }

    /// The fields with these names. There must be a field for each.
    fn project_found(&self, alloc: Global, names: &[FieldName]) -> Result<StructFields, VortexError>
        requires { misses_a_name (fields_of self.now) names.now ≡ false }
        ensures { GivesOrNoMemory
            (λ fields. IsProjection (fields_of self.now) names.now (fields_of fields)) result }
    {
        let mut kept = Vec::with_capacity(alloc, names.len())?;
        let mut dtypes = Vec::with_capacity(alloc, names.len())?;
        for name in names {
            let dtype = self.field(name.as_str()).unwrap();
            kept.push(name.clone(alloc)?)?;
            dtypes.push(dtype.clone(alloc)?)?;
        }
        Ok(StructFields::from_lists(
            alloc,
            FieldLists {
                names: kept,
                dtypes,
            },
        ))
    }

    /// The type of the first field with the name.
    fn field(&self, name: &str) -> Option<&DType>
        ensures { option_map (λ dtype. type_of dtype.now) result
            ≡ type_named (fields_of self.now) name.now }
    {
        dtype_at(&self.lists().dtypes, self.find(name)?)
    }

    /// A copy that shares the names and types. Each is copied only if there was no memory to share
    /// them, or if no further owner can be counted. Only that can answer `OutOfMemory`.
    pub fn clone(&self, alloc: Global) -> Result<StructFields, VortexError>
        ensures { GivesOrNoMemory (λ copy. fields_of copy ≡ fields_of self.now) result }
    {
        copy_fields(alloc, self)
    }
}

// These functions are one line each, over a list alone. The methods above speak of the fold of a
// type, and the prover proves them from these contracts, but not from the lines themselves.

/// The place of the first of the names that is this string.
fn find_name(names: &[FieldName], name: &str) -> Option<usize>
    ensures { result ≡ position (λ n. bytes_eq n name.now) names.now }
{
    names.iter().position(|n| n.as_str() == name)
}

/// The type at this place.
pub(super) fn dtype_at(dtypes: &[DType], index: usize) -> Option<&DType>
    ensures { option_map (λ dtype. type_of dtype.now) result
        ≡ slice_get (map type_of dtypes.now) index }
{
    dtypes.get(index)
}
