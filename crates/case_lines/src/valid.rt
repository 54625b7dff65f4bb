//! Inputs that a call requires to be valid.

ghost use Rattle.std.specs.Prelude.{OnOk};
ghost use Rattle.case_lines.specs.Words.{All, IsValid, IsValidEntry};

use std::alloc::Global;
use vortex_dtype::VortexError;
use vortex_value::Scalar;

/// Refuses a scalar that is not valid.
pub fn validate(alloc: Global, scalar: &Scalar) -> Result<(), VortexError>
    ensures { OnOk result (IsValid scalar.now) }
{
    Scalar::validate(alloc, scalar.dtype(), scalar.value())
}

/// Refuses the first scalar that is not valid.
pub fn validate_all(alloc: Global, scalars: &[Scalar]) -> Result<(), VortexError>
    ensures { OnOk result (All IsValid scalars.now) }
{
    for scalar in scalars {
        validate(alloc, scalar)?;
    }
    Ok(())
}

/// Refuses the first key or value that is not valid.
pub fn validate_entries(alloc: Global, entries: &[(Scalar, Scalar)]) -> Result<(), VortexError>
    ensures { OnOk result (All IsValidEntry entries.now) }
{
    for entry in entries {
        validate(alloc, &entry.0)?;
        validate(alloc, &entry.1)?;
    }
    Ok(())
}
