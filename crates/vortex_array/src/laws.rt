//! The laws of bounds and of conversions.
//!
//! These functions do nothing when they run. A caller gets the law that the contract states.

ghost use Rattle.vortex_array.specs.Words.{NamesAsGiven, TakesBack};

use crate::round_trip::RoundTrip;
pub use vortex_bounds::laws::{bounds_are_computed, bounds_are_unique, items_are_bytes};

/// A value that is converted into a scalar and back is the value that it was.
pub fn values_are_taken_back<T: RoundTrip>()
    ensures named { NamesAsGiven T.IntoScalar.given T.FromScalar.given }
    ensures taken { TakesBack T.IntoScalar.given T.taken T.native_type }
{}
