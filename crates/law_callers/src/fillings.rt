//! What a caller derives about zeros and defaults, from the contracts and the laws alone.

ghost use Rattle.std.specs.Prelude.{◌≡◌, IfErr, IfOk, IfSome, Some, true};
ghost use Rattle.law_callers.specs.Words.{IsNullable, UnionsHaveVariants, is_zero_of, null, scalar_content};
ghost use Rattle.law_callers.specs.Words.{scalar_type, type_of};

use std::alloc::Global;
use vortex_dtype::{DType, VortexError};
use vortex_value::Scalar;
use vortex_value::laws::{default_by_cases, default_exists, zero_is_zero};

/// The zero of a type, if there is one: it is zero.
pub fn zero_of(alloc: Global, dtype: &DType) -> Result<Option<Scalar>, VortexError>
    ensures { IfOk result (λ made. IfSome made
        (λ zero. is_zero_of (scalar_type zero) (scalar_content zero) ≡ Some true)) }
{
    zero_is_zero();
    Scalar::zero_value(alloc, dtype)
}

/// The default of a type whose unions have variants: there always is one.
///
/// `OutOfMemory` is its only refusal.
pub fn default_of(alloc: Global, dtype: &DType) -> Result<Scalar, VortexError>
    requires { UnionsHaveVariants (type_of dtype.now) }
    ensures { IfErr result (λ e. e ≡ VortexError.OutOfMemory) }
{
    default_exists();
    match Scalar::default_value(alloc, dtype)? {
        Some(default) => Ok(default),
        None => unreachable!(),
    }
}

/// The default of a nullable type: a null.
///
/// `OutOfMemory` is its only refusal.
pub fn default_of_nullable(alloc: Global, dtype: &DType) -> Result<Scalar, VortexError>
    requires { IsNullable (type_of dtype.now) }
    ensures made { IfOk result (λ made. scalar_content made ≡ null) }
    ensures refused { IfErr result (λ e. e ≡ VortexError.OutOfMemory) }
{
    default_by_cases();
    match Scalar::default_value(alloc, dtype)? {
        Some(default) => Ok(default),
        None => unreachable!(),
    }
}
