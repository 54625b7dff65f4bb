//! What callers derive of keys that are decoded: that a scalar comes back from its key, and that the
//! scalar of another type with its content does.

ghost use Rattle.std.specs.Prelude.{◌≡◌, ◌⊎◌, IfErr, IfOk, MatchResult};
ghost use Rattle.vortex_dtype.specs.TypeOf.{type_of};
ghost use Rattle.vortex_value.specs.TypesWithin.{HasNoVariant};
ghost use Rattle.vortex_value.specs.Validity.{Valid};
ghost use Rattle.vortex_value.specs.Values.Content.{content};
ghost use Rattle.vortex_value.specs.Values.RawTree.{RawTree};
ghost use Rattle.vortex_value.specs.Values.Refs.{IsValidRef, ref_content, ref_raw, ref_type};
ghost use Rattle.vortex_value.specs.Values.Scalars.{IsMadeOf};
ghost use Rattle.vortex_row.specs.declared.error.RowError.TheVariants.{HasVariant, OutOfMemory};

use std::alloc::Global;
use vortex_dtype::DType;
use vortex_row::{RowError, SortOptions, append_key, decode_key};
use vortex_value::{Scalar, ScalarRef};

/// The scalar that comes back from its key, whatever follows the key.
pub fn there_and_back(
    alloc: Global,
    x: ScalarRef<'_>,
    options: SortOptions,
    more: &[u8],
) -> Result<Scalar, RowError>
    requires { IsValidRef x }
    ensures back { IfOk result (IsMadeOf (ref_type x.entry) (ref_raw x.entry)) }
    ensures refused { IfErr result (λ e. (e ≡ HasVariant) ⊎ (e ≡ OutOfMemory)) }
{
    let mut key = Vec::new(alloc);
    append_key(x, options, &mut key)?;
    key.extend_from_slice(more)?;
    let (back, _taken) = decode_key(alloc, x.dtype(), options, key.as_slice())?;
    Ok(back)
}

/// The scalar of another type that the key of a scalar is decoded as. If the type has a value of the
/// content, it is that value: the key of an `i64` decodes as an `i8` that has the number.
pub fn decoded_as(
    alloc: Global,
    x: ScalarRef<'_>,
    target: &DType,
    options: SortOptions,
) -> Result<Scalar, RowError>
    ensures { (w : RawTree) → Valid (type_of target.now) w → content w ≡ ref_content x.entry
        → MatchResult result (IsMadeOf (type_of target.now) w)
        (λ e. (e ≡ HasVariant) ⊎ (e ≡ OutOfMemory)) }
{
    let mut key = Vec::new(alloc);
    append_key(x, options, &mut key)?;
    let (scalar, _taken) = decode_key(alloc, target, options, key.as_slice())?;
    Ok(scalar)
}
