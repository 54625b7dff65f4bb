//! Pruning: what a caller derives from the bounds of a zone alone.

ghost use Rattle.std.specs.Prelude.{◌≡◌, IfOk, IsTrue};
ghost use Rattle.law_callers.specs.Words.{IsValid, IsWithin, Same, absent, scalar_raw, scalar_type};

use std::alloc::Global;
use vortex_dtype::VortexError;
use vortex_value::Scalar;
use vortex_zone::ZoneBounds;

/// Whether a zone must be read for a value. It must if the value lies between the zone's least and
/// greatest.
pub fn is_read(
    alloc: Global,
    least: Scalar,
    greatest: Scalar,
    length: usize,
    value: &Scalar,
) -> Result<bool, VortexError>
    requires least { IsValid least }
    requires greatest { IsValid greatest }
    requires value { IsValid value.now }
    requires typed { Same (scalar_type value.now) (scalar_type least) }
    ensures { IfOk result (λ read. IsWithin least greatest value.now → IsTrue read) }
{
    let bounds = ZoneBounds::of(alloc, least, greatest, length)?;
    let read = bounds.may_contain(value);
    drop(bounds);
    Ok(read)
}

/// Whether a zone must be read for a null: always.
pub fn is_read_for_null(bounds: &ZoneBounds, null: &Scalar) -> bool
    requires null { scalar_raw null.now ≡ absent }
    requires value { IsValid null.now }
    requires typed { Same (scalar_type null.now) (scalar_type bounds.now.lower) }
    ensures { IsTrue result }
{
    bounds.may_contain(null)
}
