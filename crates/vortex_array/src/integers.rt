//! The eight integers as one trait, so that each conversion is written once.

ghost use Rattle.std.specs.Prelude.{◌≡◌, refl};
ghost use Rattle.vortex_array.specs.Words.{NonNullable, integer_type};

use vortex_dtype::NativeDType;
use vortex_pvalue::NativePType;

/// One of the eight integers.
///
/// A trait of this crate: an impl for all types of another crate's trait would clash with the impls
/// for `bool` and others.
pub trait Integer: NativePType + NativeDType {
    // The column type is the non-nullable integer type of this `PType`.
    ghost column: { Self.native_type ≡ integer_type Self.PTYPE NonNullable };
}

impl Integer for u8 {
    ghost column = { refl };
}

impl Integer for u16 {
    ghost column = { refl };
}

impl Integer for u32 {
    ghost column = { refl };
}

impl Integer for u64 {
    ghost column = { refl };
}

impl Integer for i8 {
    ghost column = { refl };
}

impl Integer for i16 {
    ghost column = { refl };
}

impl Integer for i32 {
    ghost column = { refl };
}

impl Integer for i64 {
    ghost column = { refl };
}
