//! The laws of bounds.
//!
//! These functions do nothing when they run. A caller gets the law that the contract states.

ghost use Rattle.vortex_bounds.specs.Words.{BoundsAreComputed, BoundsAreUnique, IsString};

/// Each item of a slice of bytes is below 256.
pub fn items_are_bytes(_bytes: &[u8])
    ensures { IsString _bytes.now }
{}

/// The lower bound of some bytes is their first ones. The upper bound is these plus one, as one
/// number with its first byte the highest.
pub fn bounds_are_computed()
    ensures { BoundsAreComputed }
{}

/// Bytes have at most one lower and one upper bound of each length, and so have strings.
pub fn bounds_are_unique()
    ensures { BoundsAreUnique }
{}
