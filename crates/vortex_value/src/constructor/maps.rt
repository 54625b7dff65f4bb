//! Makers of maps.

ghost use Rattle.std.specs.Prelude.{◌≡◌, IfOk, IfErr, IsErrAnd, MatchOption};
ghost use Rattle.vortex_value.specs.Words.{GivesOnly, IsFinite, IsMadeOf, IsRefusedAtLast, IsValid, IsValidEntry};
ghost use Rattle.vortex_value.specs.Words.{MadeOfItems, RefusesAtLast, RefusesOrNoMemory, SomeRun, WholeRun, WrongKind};
ghost use Rattle.vortex_value.specs.Words.{entries_cause, entry_cause, is_entry_of, map_cause, map_in, map_of};
ghost use Rattle.vortex_value.specs.Words.{raw_entries, raw_entry, raw_of, raw_tuple, type_of};

use crate::scalars::Scalar;
use crate::values::ScalarValue;
use std::alloc::Global;
use vortex_dtype::{DType, MapDType, VortexError};

impl Scalar {
    /// The map of these entries, in order. Neither their order nor repeated keys are looked at,
    /// even if the type says that keys are sorted.
    ///
    /// `WrongKind` exactly if the type is no map, before any entry is taken. Else each entry is
    /// looked at as it comes. `WrongChild` has the place of the first whose key or value is not
    /// exactly of the map's type, nullability included. `OutOfMemory` comes at the first that finds
    /// no memory. After a refusal no later entry is taken. Ports `Scalar::map`, which panics
    /// instead.
    pub fn map<I: IntoIterator<Item = (Scalar, Scalar)>>(
        alloc: Global,
        dtype: DType,
        entries: I,
    ) -> Result<Scalar, VortexError>
        requires { GivesOnly I.into_iter_gives I.IntoIter.can_next I.IntoIter.next_gives
            I.IntoIter.remaining entries IsValidEntry }
        ensures refused { MatchOption (map_in (type_of dtype))
            (IsErrAnd result (λ e. e ≡ WrongKind))
            (λ parts. RefusesAtLast I.into_iter_gives I.IntoIter.next_gives entries
            (entries_cause parts) result) }
        ensures made { MadeOfItems I.into_iter_gives I.IntoIter.next_gives entries
            (map_cause (map_in (type_of dtype)))
            (λ items. IsMadeOf (type_of dtype) (raw_tuple (raw_entries items))) result }
        ensures valid { IfOk result IsValid }
    {
        let value = map_value(alloc, &dtype, entries.into_iter());
        Scalar::with_value(dtype, value)
    }

    /// The map of these entries, as `map` makes it, with the same refusals. Ports
    /// `Scalar::try_map`.
    pub fn try_map<I: IntoIterator<Item = (Scalar, Scalar)>>(
        alloc: Global,
        dtype: DType,
        entries: I,
    ) -> Result<Scalar, VortexError>
        requires { GivesOnly I.into_iter_gives I.IntoIter.can_next I.IntoIter.next_gives
            I.IntoIter.remaining entries IsValidEntry }
        ensures refused { MatchOption (map_in (type_of dtype))
            (IsErrAnd result (λ e. e ≡ WrongKind))
            (λ parts. RefusesAtLast I.into_iter_gives I.IntoIter.next_gives entries
            (entries_cause parts) result) }
        ensures made { MadeOfItems I.into_iter_gives I.IntoIter.next_gives entries
            (map_cause (map_in (type_of dtype)))
            (λ items. IsMadeOf (type_of dtype) (raw_tuple (raw_entries items))) result }
        ensures valid { IfOk result IsValid }
    {
        Scalar::map(alloc, dtype, entries)
    }
}

/// The raw value of the map of these entries, or the refusal at the last that was taken.
fn map_value<I: Iterator<Item = (Scalar, Scalar)>>(
    alloc: Global,
    dtype: &DType,
    entries: I,
) -> Result<Option<ScalarValue>, VortexError>
    requires can { I.can_next entries }
    requires ends { IsFinite (I.remaining entries) }
    ensures refused { MatchOption (map_in (type_of dtype.now))
        (IsErrAnd result (λ e. e ≡ WrongKind))
        (λ parts. IfErr result (λ e. SomeRun I.next_gives entries
        (λ run. IsRefusedAtLast (entries_cause parts) e run.items))) }
    ensures made { IfOk result (λ value. WholeRun I.next_gives entries
        (λ run. (map_cause (map_in (type_of dtype.now)) run.items ≡ None)
        × (raw_of value ≡ raw_tuple (raw_entries run.items)))) }
{
    let Some(map) = dtype.as_map_opt() else {
        return Err(VortexError::WrongKind);
    };
    let mut parts = Vec::new(alloc);
    for entry in entries {
        let part = part_of(alloc, map, parts.len(), entry)?;
        parts.push(part)?;
    }
    Ok(Some(ScalarValue::Tuple(parts)))
}

/// The part that an entry at this place makes: a tuple of its key and value.
fn part_of(
    alloc: Global,
    map: &MapDType,
    index: usize,
    entry: (Scalar, Scalar),
) -> Result<Option<ScalarValue>, VortexError>
    ensures refused { RefusesOrNoMemory (entry_cause (map_of map.now) index entry) result }
    ensures made { IfOk result (λ part. raw_of part ≡ raw_entry entry) }
{
    if !is_entry_of(map, &entry) {
        drop(entry);
        return Err(VortexError::WrongChild { index });
    }
    let (key, value) = entry;
    let pair = vec![in alloc; key.into_value(), value.into_value()]?;
    Ok(Some(ScalarValue::Tuple(pair)))
}

/// Whether the key and the value are exactly of the map's type.
fn is_entry_of(map: &MapDType, entry: &(Scalar, Scalar)) -> bool
    ensures { result ≡ is_entry_of (map_of map.now) entry.now }
{
    entry.0.dtype == *map.key_dtype() && entry.1.dtype == *map.value_dtype()
}
