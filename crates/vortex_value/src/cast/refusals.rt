//! Why a step of a cast makes nothing.

ghost use Rattle.std.specs.Prelude.{◌≡◌};
ghost use Rattle.vortex_value.specs.Steps.CastSteps.{error_of};
ghost use Rattle.vortex_value.specs.declared.cast.refusals.Refusal.TheVariants.{NoMemory};

use std::alloc::AllocError;
use vortex_dtype::VortexError;

/// Why a step of a cast makes nothing. It is a byte and `VortexError` has several words, and each
/// level of a value answers with it.
#[derive(Clone, Copy, Debug)]
pub(crate) enum Refusal {
    /// The table does not allow the cast, or the target has no value of the content.
    Impossible,
    /// An allocation was refused.
    NoMemory,
}

impl From<AllocError> for Refusal {
    ghost from_gives = { λ _ refusal. refusal ≡ NoMemory };

    fn from(_error: AllocError) -> Refusal {
        Refusal::NoMemory
    }
}

impl From<Refusal> for VortexError {
    ghost from_gives = { λ refusal e. e ≡ error_of refusal };

    fn from(refusal: Refusal) -> VortexError {
        match refusal {
            Refusal::Impossible => VortexError::CannotCast,
            Refusal::NoMemory => VortexError::OutOfMemory,
        }
    }
}
