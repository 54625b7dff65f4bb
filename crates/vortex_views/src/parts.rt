//! The parts of values: how views find, lend and copy them.

ghost use Rattle.std.specs.Prelude.{◌≡◌, IfSome, IsOk, map, option_map, slice_get};
ghost use Rattle.vortex_views.specs.Words.{CopiesEntry, CopiesPart, GivesCopy, IsValidRef, NeedNoMemory, NeedsNoMemory};
ghost use Rattle.vortex_views.specs.Words.{entry_of, is_null_or_tuple, lent_raw, map_of, part_or_null, parts_of};
ghost use Rattle.vortex_views.specs.Words.{raw_of, ref_entry, ref_part, scalar_entry, scalar_part, type_of};

use std::alloc::Global;
use vortex_dtype::{DType, MapDType, VortexError};
use vortex_value::{Scalar, ScalarRef, ScalarValue};

/// The values of a list, a struct, a map or an entry, in order; other raw values have none.
#[tactic(auto, using(crate::proofs::PartSteps::shown))]
pub(crate) fn items_of<'a>(value: Option<&'a ScalarValue>) -> &'a [Option<ScalarValue>]
    ensures { map raw_of result.now ≡ parts_of (lent_raw value.entry) }
{
    match value {
        Some(ScalarValue::Tuple(items)) => items,
        _ => &[],
    }
}

/// The value at a place, as one of this type; `None` past the end.
pub(crate) fn part_at<'a>(
    dtype: &'a DType,
    items: &'a [Option<ScalarValue>],
    place: usize,
) -> Option<ScalarRef<'a>>
    ensures { option_map ref_part result
        ≡ option_map (λ v. (type_of dtype.now, v)) (slice_get (map raw_of items.now) place) }
{
    let item = items.get(place)?;
    Some(ScalarRef::from_parts(dtype, item.as_ref()))
}

/// The value at a place; a null past the end.
pub(crate) fn item_or_null<'a>(
    value: Option<&'a ScalarValue>,
    place: usize,
) -> Option<&'a ScalarValue>
    ensures { lent_raw result ≡ part_or_null (lent_raw value.entry) place }
{
    items_of(value).get(place)?.as_ref()
}

/// The key and the value of an entry of a map of this type.
pub(crate) fn lent_entry<'a>(
    map_dtype: &'a MapDType,
    entry: Option<&'a ScalarValue>,
) -> (ScalarRef<'a>, ScalarRef<'a>)
    ensures { ref_entry result ≡ entry_of (map_of map_dtype.now) (lent_raw entry.entry) }
{
    (
        ScalarRef::from_parts(map_dtype.key_dtype(), item_or_null(entry, 0)),
        ScalarRef::from_parts(map_dtype.value_dtype(), item_or_null(entry, 1)),
    )
}

/// The key and the value of the entry at a place of a map of this type; `None` past the end.
pub(crate) fn entry_at<'a>(
    map_dtype: &'a MapDType,
    items: &'a [Option<ScalarValue>],
    place: usize,
) -> Option<(ScalarRef<'a>, ScalarRef<'a>)>
    ensures { option_map ref_entry result
        ≡ option_map (entry_of (map_of map_dtype.now)) (slice_get (map raw_of items.now) place) }
{
    let entry = items.get(place)?;
    Some(lent_entry(map_dtype, entry.as_ref()))
}

/// A copy of a part that is lent, or `OutOfMemory`.
pub(crate) fn copy_part(alloc: Global, part: ScalarRef<'_>) -> Result<Scalar, VortexError>
    ensures given { GivesCopy scalar_part (ref_part part.entry) result }
    ensures flat { NeedsNoMemory (ref_part part.entry) → IsOk result }
{
    part.to_scalar(alloc)
}

/// Copies of a key and a value that are lent, or `OutOfMemory`.
pub(crate) fn copy_entry(
    alloc: Global,
    entry: (ScalarRef<'_>, ScalarRef<'_>),
) -> Result<(Scalar, Scalar), VortexError>
    ensures given { GivesCopy scalar_entry (ref_entry entry.entry) result }
    ensures flat { NeedNoMemory (ref_entry entry.entry) → IsOk result }
{
    let key = copy_part(alloc, entry.0)?;
    match copy_part(alloc, entry.1) {
        Ok(value) => Ok((key, value)),
        Err(refusal) => {
            drop(key);
            Err(refusal)
        }
    }
}

/// A copy of a part that is lent, if there is one, or `OutOfMemory`.
pub(crate) fn copy_part_if_any(
    alloc: Global,
    part: Option<ScalarRef<'_>>,
) -> Result<Option<Scalar>, VortexError>
    ensures { CopiesPart (IfSome part.entry IsValidRef) (option_map ref_part part.entry) result }
{
    match part {
        Some(part) => Ok(Some(copy_part(alloc, part)?)),
        None => Ok(None),
    }
}

/// Copies of a key and a value that are lent, if there are any, or `OutOfMemory`.
pub(crate) fn copy_entry_if_any(
    alloc: Global,
    entry: Option<(ScalarRef<'_>, ScalarRef<'_>)>,
) -> Result<Option<(Scalar, Scalar)>, VortexError>
    ensures { CopiesEntry (IfSome entry.entry (λ lent. IsValidRef lent.0 × IsValidRef lent.1))
        (option_map ref_entry entry.entry) result }
{
    match entry {
        Some(entry) => Ok(Some(copy_entry(alloc, entry)?)),
        None => Ok(None),
    }
}

/// Whether the raw value is a null, or the value of a list, a struct or a map.
pub(crate) fn is_null_or_tuple(value: Option<&ScalarValue>) -> bool
    ensures { result ≡ is_null_or_tuple (lent_raw value.entry) }
{
    matches!(value, None | Some(ScalarValue::Tuple(_)))
}
