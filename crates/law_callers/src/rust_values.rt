//! What a caller derives about Rust values made scalars and taken back, from the law alone.

ghost use Rattle.std.specs.Prelude.{◌≡◌, IfErr, IfOk};

use std::alloc::Global;
use vortex_array::laws::values_are_taken_back;
use vortex_array::{FromScalar, IntoScalar, RoundTrip};
use vortex_dtype::VortexError;
use vortex_value::ScalarRef;

/// A value made a scalar and taken back: the same value.
///
/// `OutOfMemory` is its only refusal.
pub fn there_and_back<T: RoundTrip>(alloc: Global, value: T) -> Result<T, VortexError>
    ensures same { IfOk result (λ back. T.FromScalar.given back ≡ T.FromScalar.given value) }
    ensures refused { IfErr result (λ e. e ≡ VortexError.OutOfMemory) }
{
    values_are_taken_back::<T>();
    let scalar = value.try_into_scalar(alloc)?;
    T::try_from_scalar(alloc, ScalarRef::of(&scalar))
}
