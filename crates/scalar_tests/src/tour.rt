//! A number that is cast to other types, and a zone of a column that a search may skip.
#![tactic(auto)]

use std::alloc::Global;
use std::cmp::Ordering;
use vortex_array::{DType, IntoScalar, Nullability, PType, Scalar, VortexError};
use vortex_zone::ZoneBounds;

/// 1000i32 cast to another integer type: 1000i16 for I16, Err(CannotCast) for I8, which has no 1000.
pub fn thousand_as(alloc: Global, ptype: PType) -> Result<Scalar, VortexError> {
    let thousand = 1000i32.try_into_scalar(alloc)?;
    thousand.cast(alloc, &DType::Primitive(ptype, Nullability::NonNullable))
}

/// Whether a zone whose values lie between two strings, given in either order, may contain a word.
pub fn may_contain(alloc: Global, one: &str, other: &str, word: &str) -> Result<bool, VortexError> {
    let one = one.try_into_scalar(alloc)?;
    let other = other.try_into_scalar(alloc)?;
    let zone = match one.partial_cmp(&other) {
        Some(Ordering::Greater) => ZoneBounds::of(alloc, other, one, 16)?,
        _ => ZoneBounds::of(alloc, one, other, 16)?,
    };
    Ok(zone.may_contain(&word.try_into_scalar(alloc)?))
}
