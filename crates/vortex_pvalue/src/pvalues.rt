//! Integer values of any of the eight `PType`s.

ghost use Rattle.std.specs.Prelude.{◌≡◌, ◌↔◌, IsTrue, MatchOption, MatchResult, Some, pos, length, ◌≤◌};
ghost use Rattle.std.specs.Hash as fed;
ghost use Rattle.vortex_pvalue.specs.Words.{InRange, IsNumber, array_vec_len, as_partial_cmp, byte_width_of, bytes_of};
ghost use Rattle.vortex_pvalue.specs.Words.{comparing, greatest_of, hashing, int_cmp, int_eq, least_of, on, other_sign};
ghost use Rattle.vortex_pvalue.specs.Words.{ptype_of, pvalue_text, rules, whole_of, wrapped};

use crate::laws::is_in_range;
use crate::natives::NativePType;
use arrayvec::ArrayVec;
use std::cmp::Ordering;
use std::fmt;
use std::hash::{Hash, Hasher};
use vortex_dtype::{PType, VortexError};

/// An integer of one of the eight `PType`s.
///
/// Values are equal, ordered and hashed as whole numbers, whatever their `PType`s. Ports the
/// integer variants of `vortex_array::scalar::PValue`.
#[derive(Clone, Copy, Debug)]
pub enum PValue {
    /// Unsigned of 1 byte.
    U8(u8),
    /// Unsigned of 2 bytes.
    U16(u16),
    /// Unsigned of 4 bytes.
    U32(u32),
    /// Unsigned of 8 bytes.
    U64(u64),
    /// Signed of 1 byte.
    I8(i8),
    /// Signed of 2 bytes.
    I16(i16),
    /// Signed of 4 bytes.
    I32(i32),
    /// Signed of 8 bytes.
    I64(i64),
}

impl PValue {
    /// The least value of the `PType`.
    pub fn min_value(ptype: PType) -> PValue
        ensures ptype { ptype_of result ≡ ptype }
        ensures least { whole_of result ≡ least_of ptype }
    {
        match ptype {
            PType::U8 => PValue::U8(u8::MIN),
            PType::U16 => PValue::U16(u16::MIN),
            PType::U32 => PValue::U32(u32::MIN),
            PType::U64 => PValue::U64(u64::MIN),
            PType::I8 => PValue::I8(i8::MIN),
            PType::I16 => PValue::I16(i16::MIN),
            PType::I32 => PValue::I32(i32::MIN),
            PType::I64 => PValue::I64(i64::MIN),
        }
    }

    /// The greatest value of the `PType`.
    pub fn max_value(ptype: PType) -> PValue
        ensures ptype { ptype_of result ≡ ptype }
        ensures greatest { whole_of result ≡ greatest_of ptype }
    {
        match ptype {
            PType::U8 => PValue::U8(u8::MAX),
            PType::U16 => PValue::U16(u16::MAX),
            PType::U32 => PValue::U32(u32::MAX),
            PType::U64 => PValue::U64(u64::MAX),
            PType::I8 => PValue::I8(i8::MAX),
            PType::I16 => PValue::I16(i16::MAX),
            PType::I32 => PValue::I32(i32::MAX),
            PType::I64 => PValue::I64(i64::MAX),
        }
    }

    /// The zero of the `PType`.
    pub fn zero(ptype: &PType) -> PValue
        ensures ptype { ptype_of result ≡ ptype.now }
        ensures zero { whole_of result ≡ pos 0 }
    {
        match ptype {
            PType::U8 => PValue::U8(0),
            PType::U16 => PValue::U16(0),
            PType::U32 => PValue::U32(0),
            PType::U64 => PValue::U64(0),
            PType::I8 => PValue::I8(0),
            PType::I16 => PValue::I16(0),
            PType::I32 => PValue::I32(0),
            PType::I64 => PValue::I64(0),
        }
    }

    /// Whether the number is zero.
    pub fn is_zero(&self) -> bool
        ensures { IsTrue result ↔ (whole_of self.now ≡ pos 0) }
    {
        match self {
            PValue::U8(n) => *n == 0,
            PValue::U16(n) => *n == 0,
            PValue::U32(n) => *n == 0,
            PValue::U64(n) => *n == 0,
            PValue::I8(n) => *n == 0,
            PValue::I16(n) => *n == 0,
            PValue::I32(n) => *n == 0,
            PValue::I64(n) => *n == 0,
        }
    }

    /// The value's `PType`.
    pub fn ptype(&self) -> PType
        ensures ptype { result ≡ ptype_of self.now }
        ensures in_range { InRange (ptype_of self.now) (whole_of self.now) }
    {
        is_in_range(self);
        match self {
            PValue::U8(_) => PType::U8,
            PValue::U16(_) => PType::U16,
            PValue::U32(_) => PType::U32,
            PValue::U64(_) => PType::U64,
            PValue::I8(_) => PType::I8,
            PValue::I16(_) => PType::I16,
            PValue::I32(_) => PType::I32,
            PValue::I64(_) => PType::I64,
        }
    }

    /// Whether the value's `PType` is this one.
    pub fn is_instance_of(&self, ptype: &PType) -> bool
        ensures { IsTrue result ↔ (ptype_of self.now ≡ ptype.now) }
    {
        self.ptype() == *ptype
    }

    /// The value as a whole number. Of this port alone.
    pub fn whole(&self) -> i128
        ensures whole { result ≡ whole_of self.now }
        ensures in_range { InRange (ptype_of self.now) result }
    {
        match self {
            PValue::U8(n) => *n as i128,
            PValue::U16(n) => *n as i128,
            PValue::U32(n) => *n as i128,
            PValue::U64(n) => *n as i128,
            PValue::I8(n) => *n as i128,
            PValue::I16(n) => *n as i128,
            PValue::I32(n) => *n as i128,
            PValue::I64(n) => *n as i128,
        }
    }

    /// The value of this `PType` with this whole number. `None` exactly if the `PType` does not have
    /// it. Of this port alone.
    pub fn from_whole(number: i128, ptype: PType) -> Option<PValue>
        ensures { MatchOption result (¬ (InRange ptype number)) (IsNumber ptype number) }
    {
        match ptype {
            PType::U8 => native::<u8>(number),
            PType::U16 => native::<u16>(number),
            PType::U32 => native::<u32>(number),
            PType::U64 => native::<u64>(number),
            PType::I8 => native::<i8>(number),
            PType::I16 => native::<i16>(number),
            PType::I32 => native::<i32>(number),
            PType::I64 => native::<i64>(number),
        }
    }

    /// The number as a Rust integer. `OutOfRange` exactly if the type does not have it.
    pub fn cast<T: NativePType>(&self) -> Result<T, VortexError>
        ensures { MatchResult result
            (λ n. T.value n ≡ whole_of self.now)
            (λ e. (e ≡ VortexError.OutOfRange) × ¬ (InRange T.PTYPE (whole_of self.now))) }
    {
        T::from_pvalue(self).ok_or(VortexError::OutOfRange)
    }

    /// The number as `i8`. `None` exactly if `i8` does not have it.
    pub fn as_i8(self) -> Option<i8>
        ensures { MatchOption result
            (¬ (InRange PType.I8 (whole_of self)))
            (λ n. n ≡ whole_of self) }
    {
        i8::from_pvalue(&self)
    }

    /// The number as `i16`. `None` exactly if `i16` does not have it.
    pub fn as_i16(self) -> Option<i16>
        ensures { MatchOption result
            (¬ (InRange PType.I16 (whole_of self)))
            (λ n. n ≡ whole_of self) }
    {
        i16::from_pvalue(&self)
    }

    /// The number as `i32`. `None` exactly if `i32` does not have it.
    pub fn as_i32(self) -> Option<i32>
        ensures { MatchOption result
            (¬ (InRange PType.I32 (whole_of self)))
            (λ n. n ≡ whole_of self) }
    {
        i32::from_pvalue(&self)
    }

    /// The number as `i64`. `None` exactly if `i64` does not have it.
    pub fn as_i64(self) -> Option<i64>
        ensures { MatchOption result
            (¬ (InRange PType.I64 (whole_of self)))
            (λ n. n ≡ whole_of self) }
    {
        i64::from_pvalue(&self)
    }

    /// The number as `u8`. `None` exactly if `u8` does not have it.
    pub fn as_u8(self) -> Option<u8>
        ensures { MatchOption result
            (¬ (InRange PType.U8 (whole_of self)))
            (λ n. pos n ≡ whole_of self) }
    {
        u8::from_pvalue(&self)
    }

    /// The number as `u16`. `None` exactly if `u16` does not have it.
    pub fn as_u16(self) -> Option<u16>
        ensures { MatchOption result
            (¬ (InRange PType.U16 (whole_of self)))
            (λ n. pos n ≡ whole_of self) }
    {
        u16::from_pvalue(&self)
    }

    /// The number as `u32`. `None` exactly if `u32` does not have it.
    pub fn as_u32(self) -> Option<u32>
        ensures { MatchOption result
            (¬ (InRange PType.U32 (whole_of self)))
            (λ n. pos n ≡ whole_of self) }
    {
        u32::from_pvalue(&self)
    }

    /// The number as `u64`. `None` exactly if `u64` does not have it.
    pub fn as_u64(self) -> Option<u64>
        ensures { MatchOption result
            (¬ (InRange PType.U64 (whole_of self)))
            (λ n. pos n ≡ whole_of self) }
    {
        u64::from_pvalue(&self)
    }

    /// The value of this `PType` with the same bits. The `PType` must be as wide as the value's own.
    pub fn reinterpret_cast(&self, ptype: PType) -> PValue
        requires { byte_width_of ptype ≡ byte_width_of (ptype_of self.now) }
        ensures ptype { ptype_of result ≡ ptype }
        ensures wrapped { whole_of result ≡ wrapped ptype (whole_of self.now) }
    {
        if self.ptype() == ptype {
            *self
        } else {
            self.with_other_sign()
        }
    }

    /// The value with the same bits, of the `PType` with the same width and the other sign.
    fn with_other_sign(&self) -> PValue
        ensures ptype { ptype_of result ≡ other_sign (ptype_of self.now) }
        ensures wrapped { whole_of result ≡ wrapped (other_sign (ptype_of self.now)) (whole_of self.now) }
    {
        match self {
            PValue::U8(n) => PValue::I8(n.cast_signed()),
            PValue::U16(n) => PValue::I16(n.cast_signed()),
            PValue::U32(n) => PValue::I32(n.cast_signed()),
            PValue::U64(n) => PValue::I64(n.cast_signed()),
            PValue::I8(n) => PValue::U8(n.cast_unsigned()),
            PValue::I16(n) => PValue::U16(n.cast_unsigned()),
            PValue::I32(n) => PValue::U32(n.cast_unsigned()),
            PValue::I64(n) => PValue::U64(n.cast_unsigned()),
        }
    }

    /// The bytes of the number in two's complement, the lowest first. There are as many as the
    /// `PType` is wide.
    ///
    /// Ports `PValue`'s `ToBytes::to_le_bytes`.
    pub fn to_le_bytes(&self) -> ArrayVec<u8, 8>
        ensures bytes { result.items ≡ bytes_of (ptype_of self.now) (whole_of self.now) }
        ensures width { array_vec_len result ≡ byte_width_of (ptype_of self.now) }
    {
        match self {
            PValue::U8(n) => array_of(&n.to_le_bytes()),
            PValue::U16(n) => array_of(&n.to_le_bytes()),
            PValue::U32(n) => array_of(&n.to_le_bytes()),
            PValue::U64(n) => array_of(&n.to_le_bytes()),
            PValue::I8(n) => array_of(&n.to_le_bytes()),
            PValue::I16(n) => array_of(&n.to_le_bytes()),
            PValue::I32(n) => array_of(&n.to_le_bytes()),
            PValue::I64(n) => array_of(&n.to_le_bytes()),
        }
    }
}

/// The whole number as a value of this type's `PType`. `None` exactly if the type does not have it.
fn native<T: NativePType>(number: i128) -> Option<PValue>
    ensures { MatchOption result (¬ (InRange T.PTYPE number)) (IsNumber T.PTYPE number) }
{
    let native = num_traits::cast::<i128, T>(number)?;
    Some(native.into_pvalue())
}

/// Copies these bytes into an array.
fn array_of(bytes: &[u8]) -> ArrayVec<u8, 8>
    requires { length bytes.now ≤ 8 }
    ensures { result.items ≡ bytes.now }
{
    let mut array = ArrayVec::new();
    for byte in bytes {
        array.push(*byte);
    }
    array
}

impl PartialEq for PValue {
    ghost eq = { on whole_of int_eq };

    ghost laws = { Prim.search (comparing, rules) };

    /// Integers of one `PType`, which are the rule, are compared at their own width.
    fn eq(&self, other: &PValue) -> bool {
        match (self, other) {
            (PValue::U8(x), PValue::U8(y)) => x == y,
            (PValue::U16(x), PValue::U16(y)) => x == y,
            (PValue::U32(x), PValue::U32(y)) => x == y,
            (PValue::U64(x), PValue::U64(y)) => x == y,
            (PValue::I8(x), PValue::I8(y)) => x == y,
            (PValue::I16(x), PValue::I16(y)) => x == y,
            (PValue::I32(x), PValue::I32(y)) => x == y,
            (PValue::I64(x), PValue::I64(y)) => x == y,
            _ => self.whole() == other.whole(),
        }
    }
}

impl Eq for PValue {
    ghost laws = { Prim.search (comparing, rules) };
}

impl PartialOrd for PValue {
    ghost partial_cmp = { as_partial_cmp (on whole_of int_cmp) };

    ghost laws = { Prim.search (comparing, rules) };

    /// Integers of one `PType`, which are the rule, are compared at their own width.
    fn partial_cmp(&self, other: &PValue) -> Option<Ordering> {
        Some(match (self, other) {
            (PValue::U8(x), PValue::U8(y)) => x.cmp(y),
            (PValue::U16(x), PValue::U16(y)) => x.cmp(y),
            (PValue::U32(x), PValue::U32(y)) => x.cmp(y),
            (PValue::U64(x), PValue::U64(y)) => x.cmp(y),
            (PValue::I8(x), PValue::I8(y)) => x.cmp(y),
            (PValue::I16(x), PValue::I16(y)) => x.cmp(y),
            (PValue::I32(x), PValue::I32(y)) => x.cmp(y),
            (PValue::I64(x), PValue::I64(y)) => x.cmp(y),
            _ => self.whole().cmp(&other.whole()),
        })
    }
}

impl Hash for PValue {
    ghost hash_input = { λ v. fed.i128 (whole_of v) };

    ghost respects_eq = { Prim.search (hashing, rules) };

    fn hash<H: Hasher>(&self, state: &mut H) {
        self.whole().hash(state);
    }
}

impl fmt::Display for PValue {
    ghost output = { λ v. Some (pvalue_text v) };

    fn fmt<W: fmt::Write>(&self, f: &mut fmt::Formatter<W>) -> fmt::Result {
        write!(f, "{}{}", self.whole(), self.ptype().name())
    }
}
