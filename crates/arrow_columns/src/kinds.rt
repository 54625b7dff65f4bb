//! Kinds of columns.

ghost use Rattle.std.specs.Prelude.{◌≡◌};
ghost use Rattle.arrow_columns.specs.Words.{integer_kind_at, kind_at, kind_with};

use crate::formats::Format;

/// A kind of integer.
#[derive(Clone, Copy, Debug, PartialEq, Eq)]
pub enum IntegerKind {
    U8,
    U16,
    U32,
    U64,
    I8,
    I16,
    I32,
    I64,
}

/// What an item of a buffer is.
#[derive(Clone, Copy, Debug, PartialEq, Eq)]
pub enum ItemKind {
    /// An integer.
    Integer(IntegerKind),
    /// A float of 32 bits, which stands for its storage: all NaNs are equal and above infinity, and
    /// both zeros are one.
    F32,
    /// A float of 64 bits, likewise.
    F64,
    /// An integer of 128 bits with a sign.
    I128,
}

/// A kind of column.
#[derive(Clone, Copy, Debug, PartialEq, Eq)]
pub enum Kind {
    /// Integers; dates, times and the like go by theirs.
    Integer(IntegerKind),
    /// Booleans, in a bitmap.
    Boolean,
    /// Strings, with offsets of 32 bits.
    Utf8,
    /// Strings, with offsets of 64 bits.
    LargeUtf8,
    /// Bytes, with offsets of 32 bits.
    Binary,
    /// Bytes, with offsets of 64 bits.
    LargeBinary,
    /// Nulls alone.
    Null,
    /// Values of a logical type.
    Logical(Format),
}

impl IntegerKind {
    /// The kind with this code, 0 to 7.
    pub fn from_code(code: u8) -> Option<IntegerKind>
        ensures { result ≡ integer_kind_at code }
    {
        match code {
            0 => Some(IntegerKind::U8),
            1 => Some(IntegerKind::U16),
            2 => Some(IntegerKind::U32),
            3 => Some(IntegerKind::U64),
            4 => Some(IntegerKind::I8),
            5 => Some(IntegerKind::I16),
            6 => Some(IntegerKind::I32),
            7 => Some(IntegerKind::I64),
            _ => None,
        }
    }
}

impl Kind {
    /// The kind with this code: 0 to 7 are those of integers, then come the others in their order, and
    /// from 14 on the formats of logical types. Decimals have none without a precision.
    pub fn from_code(code: u8) -> Option<Kind>
        ensures { result ≡ kind_at code }
    {
        Kind::with_code(code, 0, 0)
    }

    /// The kind with this code, and with this precision and scale if it is of decimals.
    pub fn with_code(code: u8, precision: u8, scale: u8) -> Option<Kind>
        ensures { result ≡ kind_with code precision scale }
    {
        match code {
            8 => Some(Kind::Boolean),
            9 => Some(Kind::Utf8),
            10 => Some(Kind::LargeUtf8),
            11 => Some(Kind::Binary),
            12 => Some(Kind::LargeBinary),
            13 => Some(Kind::Null),
            _ if code < 8 => Some(Kind::Integer(IntegerKind::from_code(code)?)),
            _ => Some(Kind::Logical(Format::from_code(code, precision, scale)?)),
        }
    }
}
