//! Iterators over the parts of views. Each gives a copy of the next part, or `OutOfMemory` if there
//! is none for it, and goes on to the part after it either way.

ghost use Rattle.std.specs.Prelude.{◌≡◌, length, map};
ghost use Rattle.vortex_views.specs.Words.{NeedNoMemory, NeedsNoMemory, YieldsFirstBy, entry_of, item_count, map_of};
ghost use Rattle.vortex_views.specs.Words.{raw_of, ref_entry, ref_part, scalar_entry, scalar_part, type_of, zip};
ghost use Rattle.vortex_views.specs.ViewWords.{YieldsCopies, entries_left, fields_left, keys_left, values_left};

use crate::parts::{copy_entry, copy_part, lent_entry};
use std::alloc::Global;
use vortex_dtype::{DType, MapDType, VortexError};
use vortex_value::{Scalar, ScalarRef, ScalarValue};

/// An iterator over copies of the entries of a map, each a key and a value, in order.
///
/// Ports the iterator that `MapScalar::entries` returns.
#[derive(Drop)]
pub struct Entries<'a> {
    map_dtype: &'a MapDType,
    rest: &'a [Option<ScalarValue>],
    alloc: Global,
}

impl<'a> Entries<'a> {
    /// An iterator over these entries of a map of this type.
    pub(crate) fn new(
        map_dtype: &'a MapDType,
        rest: &'a [Option<ScalarValue>],
        alloc: Global,
    ) -> Entries<'a>
        ensures { entries_left result
            ≡ map (entry_of (map_of map_dtype.entry.now)) (map raw_of rest.entry.now) }
    {
        Entries {
            map_dtype,
            rest,
            alloc,
        }
    }

    /// The next key and value, borrowed. The iterator goes on to the entry after them.
    fn lend_next(&mut self) -> Option<(ScalarRef<'a>, ScalarRef<'a>)>
        ensures { YieldsFirstBy ref_entry entries_left self.old result self.new }
    {
        let (entry, rest) = self.rest.split_first()?;
        self.rest = rest;
        Some(lent_entry(self.map_dtype, entry.as_ref()))
    }
}

impl Iterator for Entries<'_> {
    type Item = Result<(Scalar, Scalar), VortexError>;

    ghost next_gives = { YieldsCopies scalar_entry NeedNoMemory entries_left };

    ghost remaining = { item_count entries_left };

    fn next(&mut self) -> Option<Result<(Scalar, Scalar), VortexError>> {
        let entry = self.lend_next()?;
        Some(copy_entry(self.alloc, entry))
    }
}

/// An iterator over copies of the keys of a map, in order.
///
/// Ports the iterator that `MapScalar::keys` returns.
#[derive(Drop)]
pub struct Keys<'a> {
    entries: Entries<'a>,
}

impl<'a> Keys<'a> {
    /// An iterator over the keys of these entries.
    pub(crate) fn of(entries: Entries<'a>) -> Keys<'a>
        ensures { keys_left result ≡ map (λ e. e.0) (entries_left entries.entry) }
    {
        Keys { entries }
    }
}

impl Iterator for Keys<'_> {
    type Item = Result<Scalar, VortexError>;

    ghost next_gives = { YieldsCopies scalar_part NeedsNoMemory keys_left };

    ghost remaining = { item_count keys_left };

    fn next(&mut self) -> Option<Result<Scalar, VortexError>> {
        let (key, _) = self.entries.lend_next()?;
        Some(copy_part(self.entries.alloc, key))
    }
}

/// An iterator over copies of the values of a map, in order.
///
/// Ports the iterator that `MapScalar::values` returns.
#[derive(Drop)]
pub struct Values<'a> {
    entries: Entries<'a>,
}

impl<'a> Values<'a> {
    /// An iterator over the values of these entries.
    pub(crate) fn of(entries: Entries<'a>) -> Values<'a>
        ensures { values_left result ≡ map (λ e. e.1) (entries_left entries.entry) }
    {
        Values { entries }
    }
}

impl Iterator for Values<'_> {
    type Item = Result<Scalar, VortexError>;

    ghost next_gives = { YieldsCopies scalar_part NeedsNoMemory values_left };

    ghost remaining = { item_count values_left };

    fn next(&mut self) -> Option<Result<Scalar, VortexError>> {
        let (_, value) = self.entries.lend_next()?;
        Some(copy_part(self.entries.alloc, value))
    }
}

/// An iterator over copies of the fields of a struct, in order.
///
/// Ports the iterator that `StructScalar::fields_iter` returns.
#[derive(Drop)]
pub struct Fields<'a> {
    dtypes: &'a [DType],
    values: &'a [Option<ScalarValue>],
    alloc: Global,
}

impl<'a> Fields<'a> {
    /// An iterator over the fields of these types with these values, place by place.
    pub(crate) fn new(
        dtypes: &'a [DType],
        values: &'a [Option<ScalarValue>],
        alloc: Global,
    ) -> Fields<'a>
        ensures { fields_left result
            ≡ zip (map type_of dtypes.entry.now) (map raw_of values.entry.now) }
    {
        Fields {
            dtypes,
            values,
            alloc,
        }
    }

    /// How many fields are still to come, without those whose item was `OutOfMemory`.
    ///
    /// Ports the `len` of the iterator that `StructScalar::fields_iter` returns.
    #[tactic(auto, using(crate::proofs::FieldSteps::counted))]
    pub fn len(&self) -> usize
        ensures { result ≡ length (fields_left self.now) }
    {
        self.dtypes.len().min(self.values.len())
    }

    /// The next field, borrowed. The iterator goes on to the field after it.
    fn lend_next(&mut self) -> Option<ScalarRef<'a>>
        ensures { YieldsFirstBy ref_part fields_left self.old result self.new }
    {
        let (dtype, dtypes) = self.dtypes.split_first()?;
        let (value, values) = self.values.split_first()?;
        self.dtypes = dtypes;
        self.values = values;
        Some(ScalarRef::from_parts(dtype, value.as_ref()))
    }
}

impl Iterator for Fields<'_> {
    type Item = Result<Scalar, VortexError>;

    ghost next_gives = { YieldsCopies scalar_part NeedsNoMemory fields_left };

    ghost remaining = { item_count fields_left };

    fn next(&mut self) -> Option<Result<Scalar, VortexError>> {
        let field = self.lend_next()?;
        Some(copy_part(self.alloc, field))
    }
}
