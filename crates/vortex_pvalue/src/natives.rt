//! The Rust integer types, each with its `PType`.

ghost use Rattle.std.specs.Prelude.{◌≡◌, ◌↔◌, ℤ, IfSome, IfNone};
ghost use Rattle.vortex_pvalue.specs.Words.{InRange, PType, ptype_of, whole_of};

use crate::pvalues::PValue;
use num_traits::PrimInt;
use vortex_dtype::PType;

/// A Rust integer type that has a `PType` of its own: `u8` to `u64` and `i8` to `i64`.
///
/// Ports `vortex_array::dtype::NativePType`, for integers.
pub trait NativePType: PrimInt {
    ghost PTYPE: { PType };

    /// The `PType` of the type.
    const PTYPE: PType;

    /// The integer as a value of its type's `PType`.
    fn into_pvalue(self) -> PValue
        ensures whole { whole_of result ≡ Self.value self }
        ensures ptype { ptype_of result ≡ PTYPE }
        ensures in_range { InRange PTYPE (whole_of result) };

    /// The number of the value, as this type. `None` exactly if the type does not have it.
    ///
    /// Ports the conversions in upstream's `pvalue.rs`.
    fn from_pvalue(value: &PValue) -> Option<Self>
        ensures some { IfSome result (λ n. Self.value n ≡ whole_of value.now) }
        ensures none { IfNone result (¬ (InRange PTYPE (whole_of value.now))) }
    {
        num_traits::cast::<i128, Self>(value.whole())
    }

    // The type has exactly the numbers of its `PType`.
    ghost ptype_law: { (z : ℤ) → Self.fits z ↔ InRange PTYPE z };
}

impl NativePType for u8 {
    ghost PTYPE = { PType.U8 };

    const PTYPE: PType = PType::U8;

    fn into_pvalue(self) -> PValue {
        PValue::U8(self)
    }

    ghost ptype_law = { λ z. ((λ h. h), (λ h. h)) };
}

impl NativePType for u16 {
    ghost PTYPE = { PType.U16 };

    const PTYPE: PType = PType::U16;

    fn into_pvalue(self) -> PValue {
        PValue::U16(self)
    }

    ghost ptype_law = { λ z. ((λ h. h), (λ h. h)) };
}

impl NativePType for u32 {
    ghost PTYPE = { PType.U32 };

    const PTYPE: PType = PType::U32;

    fn into_pvalue(self) -> PValue {
        PValue::U32(self)
    }

    ghost ptype_law = { λ z. ((λ h. h), (λ h. h)) };
}

impl NativePType for u64 {
    ghost PTYPE = { PType.U64 };

    const PTYPE: PType = PType::U64;

    fn into_pvalue(self) -> PValue {
        PValue::U64(self)
    }

    ghost ptype_law = { λ z. ((λ h. h), (λ h. h)) };
}

impl NativePType for i8 {
    ghost PTYPE = { PType.I8 };

    const PTYPE: PType = PType::I8;

    fn into_pvalue(self) -> PValue {
        PValue::I8(self)
    }

    ghost ptype_law = { λ z. ((λ h. h), (λ h. h)) };
}

impl NativePType for i16 {
    ghost PTYPE = { PType.I16 };

    const PTYPE: PType = PType::I16;

    fn into_pvalue(self) -> PValue {
        PValue::I16(self)
    }

    ghost ptype_law = { λ z. ((λ h. h), (λ h. h)) };
}

impl NativePType for i32 {
    ghost PTYPE = { PType.I32 };

    const PTYPE: PType = PType::I32;

    fn into_pvalue(self) -> PValue {
        PValue::I32(self)
    }

    ghost ptype_law = { λ z. ((λ h. h), (λ h. h)) };
}

impl NativePType for i64 {
    ghost PTYPE = { PType.I64 };

    const PTYPE: PType = PType::I64;

    fn into_pvalue(self) -> PValue {
        PValue::I64(self)
    }

    ghost ptype_law = { λ z. ((λ h. h), (λ h. h)) };
}
