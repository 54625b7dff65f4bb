//! Views of maps.

ghost use Rattle.std.specs.Prelude.{◌≡◌, ◌==◌, Some, true, length, map, option_map, slice_get, is_some, All, IfSome};
ghost use Rattle.std.specs.Prelude.{IsTrue};
ghost use Rattle.vortex_views.specs.Words.{AnswersRefView, AreValidParts, CopiesEntryOf, GivesView, IsRefOf};
ghost use Rattle.vortex_views.specs.Words.{IsValidPart, IsValidRef, entries_of, is_absent, is_null_or_tuple, lent_raw};
ghost use Rattle.vortex_views.specs.Words.{map_in, map_of, parts_of, raw_of, ref_entry, ref_type, scalar_raw};
ghost use Rattle.vortex_views.specs.Words.{scalar_type, type_of};

use crate::iterators::{Entries, Keys, Values};
use crate::parts::{copy_entry_if_any, entry_at, is_null_or_tuple, items_of};
use std::alloc::Global;
use vortex_dtype::{DType, MapDType, VortexError};
use vortex_value::{Scalar, ScalarRef, ScalarValue};

mod comparisons;

/// A view of a scalar of a map type: a null, or entries in order, each a key and a value. Keys may
/// repeat.
#[derive(Clone, Copy, Debug)]
pub struct MapScalar<'a> {
    scalar: ScalarRef<'a>,
    ghost kind: { is_some (map_in (ref_type scalar)) ≡ true },
}

impl<'a> MapScalar<'a> {
    ghost use Rattle.vortex_views.specs.ViewWords.{entries_left, keys_left, map_ref, map_view_raw, map_view_type};
    ghost use Rattle.vortex_views.specs.ViewWords.{values_left, viewed_map};

    /// The view of a type and a raw value as a map. `None` is the null.
    ///
    /// `WrongKind` exactly if the type is no map; an extension over one is not. Else `Invalid` if
    /// the raw value is not valid for the type, with the first breach in reading order and the path
    /// to it. `OutOfMemory` comes in its place if the path has steps and there is no memory for
    /// them. A valid value takes no memory. Ports `MapScalar::try_new`, which panics at another
    /// variant of raw value and tests no part.
    pub fn try_new(
        alloc: Global,
        dtype: &'a DType,
        value: Option<&'a ScalarValue>,
    ) -> Result<MapScalar<'a>, VortexError>
        ensures { AnswersRefView map_ref (λ t. is_some (map_in t))
            (type_of dtype.now) (lent_raw value.entry) result }
    {
        if dtype.as_map_opt().is_none() {
            return Err(VortexError::WrongKind);
        }
        let scalar = ScalarRef::try_new(alloc, dtype, value)?;
        Ok(MapScalar { scalar })
    }

    /// The type.
    pub fn dtype(&self) -> &'a DType
        ensures { type_of result.now ≡ map_view_type self.now }
    {
        self.scalar.dtype()
    }

    /// The key type, the value type, and whether the keys are sorted.
    pub fn map_dtype(&self) -> &'a MapDType
        ensures { Some (map_of result.now) ≡ map_in (map_view_type self.now) }
    {
        self.scalar.dtype().as_map_opt().unwrap()
    }

    /// How many entries there are; a null has none.
    pub fn len(&self) -> usize
        ensures { result ≡ length (parts_of (map_view_raw self.now)) }
    {
        self.items().len()
    }

    /// Whether there are no entries; a null has none.
    pub fn is_empty(&self) -> bool
        ensures { result ≡ (length (parts_of (map_view_raw self.now)) == 0) }
    {
        self.len() == 0
    }

    /// Whether it is null.
    pub fn is_null(&self) -> bool
        ensures { result ≡ is_absent (map_view_raw self.now) }
    {
        self.scalar.is_null()
    }

    /// The key and the value of the entry at this place, borrowed; `None` exactly past the end. A
    /// null has no entries. Upstream has no such call.
    pub fn entry_ref(&self, index: usize) -> Option<(ScalarRef<'a>, ScalarRef<'a>)>
        ensures lent { option_map ref_entry result
            ≡ slice_get (entries_of (viewed_map self.now)) index }
        ensures valid { IsValidRef (map_ref self.now)
            → IfSome result (λ entry. IsValidRef entry.0 × IsValidRef entry.1) }
    {
        entry_at(self.map_dtype(), self.items(), index)
    }

    /// Copies of the key and the value of the entry at this place; `None` exactly past the end. A
    /// null has no entries.
    ///
    /// `OutOfMemory` if there is none for the copies. A valid map of types whose values take no
    /// memory never gives it.
    pub fn entry(
        &self,
        alloc: Global,
        index: usize,
    ) -> Result<Option<(Scalar, Scalar)>, VortexError>
        ensures { CopiesEntryOf
            (viewed_map self.now) (λ part. slice_get (entries_of part) index) result }
    {
        copy_entry_if_any(alloc, self.entry_ref(index))
    }

    /// An iterator over copies of the entries, each a key and a value, in order. A null has no
    /// entries.
    ///
    /// An item is `OutOfMemory` if there is none for the copies. The call itself takes no memory.
    pub fn entries(&self, alloc: Global) -> Entries<'a>
        ensures all { entries_left result ≡ entries_of (viewed_map self.now) }
        ensures valid { IsValidRef (map_ref self.now) → All AreValidParts (entries_left result) }
    {
        Entries::new(self.map_dtype(), self.items(), alloc)
    }

    /// An iterator over copies of the keys, in order. A null has no keys.
    ///
    /// An item is `OutOfMemory` if there is none for the copy. The call itself takes no memory.
    pub fn keys(&self, alloc: Global) -> Keys<'a>
        ensures all { keys_left result ≡ map (λ entry. entry.0) (entries_of (viewed_map self.now)) }
        ensures valid { IsValidRef (map_ref self.now) → All IsValidPart (keys_left result) }
    {
        Keys::of(self.entries(alloc))
    }

    /// An iterator over copies of the values, in order. A null has no values.
    ///
    /// An item is `OutOfMemory` if there is none for the copy. The call itself takes no memory.
    pub fn values(&self, alloc: Global) -> Values<'a>
        ensures all { values_left result
            ≡ map (λ entry. entry.1) (entries_of (viewed_map self.now)) }
        ensures valid { IsValidRef (map_ref self.now) → All IsValidPart (values_left result) }
    {
        Values::of(self.entries(alloc))
    }

    /// The raw values of the entries.
    fn items(&self) -> &'a [Option<ScalarValue>]
        ensures { map raw_of result.now ≡ parts_of (map_view_raw self.now) }
    {
        items_of(self.scalar.value())
    }
}

/// The view of a scalar's type and raw value, even if the value is not valid for the type. It is
/// valid if the scalar is.
///
/// `WrongKind` exactly if the type is no map, or the raw value is neither a null nor a tuple. Ports
/// `TryFrom<&Scalar> for MapScalar`.
impl<'a> TryFrom<&'a Scalar> for MapScalar<'a> {
    type Error = VortexError;

    ghost use Rattle.vortex_views.specs.ViewWords.{map_ref};

    ghost try_from_gives = { λ scalar. GivesView
        (λ view. IsRefOf (scalar_type scalar.now) (scalar_raw scalar.now) (map_ref view))
        (IsTrue (is_some (map_in (scalar_type scalar.now)))
        × IsTrue (is_null_or_tuple (scalar_raw scalar.now))) };

    fn try_from(scalar: &'a Scalar) -> Result<MapScalar<'a>, VortexError> {
        if scalar.dtype().as_map_opt().is_none() {
            return Err(VortexError::WrongKind);
        }
        if !is_null_or_tuple(scalar.value()) {
            return Err(VortexError::WrongKind);
        }
        Ok(MapScalar {
            scalar: ScalarRef::of(scalar),
        })
    }
}
