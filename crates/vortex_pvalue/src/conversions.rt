//! Conversions between integer values and Rust integers.

ghost use Rattle.std.specs.Prelude.{pos};
ghost use Rattle.vortex_pvalue.specs.Words.{Converts, IsNumber, PType};

use crate::pvalues::PValue;
use vortex_dtype::VortexError;

/// The `u8` as a `PValue::U8`.
impl From<u8> for PValue {
    ghost from_gives = { λ n v. IsNumber PType.U8 (pos n) v };

    fn from(value: u8) -> PValue {
        PValue::U8(value)
    }
}

/// The `u16` as a `PValue::U16`.
impl From<u16> for PValue {
    ghost from_gives = { λ n v. IsNumber PType.U16 (pos n) v };

    fn from(value: u16) -> PValue {
        PValue::U16(value)
    }
}

/// The `u32` as a `PValue::U32`.
impl From<u32> for PValue {
    ghost from_gives = { λ n v. IsNumber PType.U32 (pos n) v };

    fn from(value: u32) -> PValue {
        PValue::U32(value)
    }
}

/// The `u64` as a `PValue::U64`.
impl From<u64> for PValue {
    ghost from_gives = { λ n v. IsNumber PType.U64 (pos n) v };

    fn from(value: u64) -> PValue {
        PValue::U64(value)
    }
}

/// The `i8` as a `PValue::I8`.
impl From<i8> for PValue {
    ghost from_gives = { λ n v. IsNumber PType.I8 n v };

    fn from(value: i8) -> PValue {
        PValue::I8(value)
    }
}

/// The `i16` as a `PValue::I16`.
impl From<i16> for PValue {
    ghost from_gives = { λ n v. IsNumber PType.I16 n v };

    fn from(value: i16) -> PValue {
        PValue::I16(value)
    }
}

/// The `i32` as a `PValue::I32`.
impl From<i32> for PValue {
    ghost from_gives = { λ n v. IsNumber PType.I32 n v };

    fn from(value: i32) -> PValue {
        PValue::I32(value)
    }
}

/// The `i64` as a `PValue::I64`.
impl From<i64> for PValue {
    ghost from_gives = { λ n v. IsNumber PType.I64 n v };

    fn from(value: i64) -> PValue {
        PValue::I64(value)
    }
}

/// The `usize` as a `PValue::U64`.
impl From<usize> for PValue {
    ghost from_gives = { λ n v. IsNumber PType.U64 (pos n) v };

    fn from(value: usize) -> PValue {
        PValue::U64(value as u64)
    }
}

/// The number as `u8`. `OutOfRange` exactly if `u8` does not have it.
impl TryFrom<PValue> for u8 {
    type Error = VortexError;

    ghost try_from_gives = { λ v r. Converts (λ n. pos n) PType.U8 v r };

    fn try_from(value: PValue) -> Result<u8, VortexError> {
        value.cast()
    }
}

/// The number as `u16`. `OutOfRange` exactly if `u16` does not have it.
impl TryFrom<PValue> for u16 {
    type Error = VortexError;

    ghost try_from_gives = { λ v r. Converts (λ n. pos n) PType.U16 v r };

    fn try_from(value: PValue) -> Result<u16, VortexError> {
        value.cast()
    }
}

/// The number as `u32`. `OutOfRange` exactly if `u32` does not have it.
impl TryFrom<PValue> for u32 {
    type Error = VortexError;

    ghost try_from_gives = { λ v r. Converts (λ n. pos n) PType.U32 v r };

    fn try_from(value: PValue) -> Result<u32, VortexError> {
        value.cast()
    }
}

/// The number as `u64`. `OutOfRange` exactly if `u64` does not have it.
impl TryFrom<PValue> for u64 {
    type Error = VortexError;

    ghost try_from_gives = { λ v r. Converts (λ n. pos n) PType.U64 v r };

    fn try_from(value: PValue) -> Result<u64, VortexError> {
        value.cast()
    }
}

/// The number as `i8`. `OutOfRange` exactly if `i8` does not have it.
impl TryFrom<PValue> for i8 {
    type Error = VortexError;

    ghost try_from_gives = { λ v r. Converts (λ n. n) PType.I8 v r };

    fn try_from(value: PValue) -> Result<i8, VortexError> {
        value.cast()
    }
}

/// The number as `i16`. `OutOfRange` exactly if `i16` does not have it.
impl TryFrom<PValue> for i16 {
    type Error = VortexError;

    ghost try_from_gives = { λ v r. Converts (λ n. n) PType.I16 v r };

    fn try_from(value: PValue) -> Result<i16, VortexError> {
        value.cast()
    }
}

/// The number as `i32`. `OutOfRange` exactly if `i32` does not have it.
impl TryFrom<PValue> for i32 {
    type Error = VortexError;

    ghost try_from_gives = { λ v r. Converts (λ n. n) PType.I32 v r };

    fn try_from(value: PValue) -> Result<i32, VortexError> {
        value.cast()
    }
}

/// The number as `i64`. `OutOfRange` exactly if `i64` does not have it.
impl TryFrom<PValue> for i64 {
    type Error = VortexError;

    ghost try_from_gives = { λ v r. Converts (λ n. n) PType.I64 v r };

    fn try_from(value: PValue) -> Result<i64, VortexError> {
        value.cast()
    }
}

/// The number as `usize`. `OutOfRange` exactly if `U64` does not have it.
impl TryFrom<PValue> for usize {
    type Error = VortexError;

    ghost try_from_gives = { λ v r. Converts (λ n. pos n) PType.U64 v r };

    fn try_from(value: PValue) -> Result<usize, VortexError> {
        Ok(value.cast::<u64>()? as usize)
    }
}
