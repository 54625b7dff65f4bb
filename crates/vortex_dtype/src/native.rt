//! The column types of Rust types.

ghost use Rattle.std.specs.Prelude.{◌≡◌};
ghost use Rattle.vortex_dtype.specs.Words.{GivesOrNoMemory, I16, I32, I64, I8, NonNullable, TypeTree, U16, U32, U64};
ghost use Rattle.vortex_dtype.specs.Words.{U8, as_nullable, binary_type, bool_type, integer_type, list_type, type_of};
ghost use Rattle.vortex_dtype.specs.Words.{utf8_type};

use crate::buffer::{BufferString, ByteBuffer};
use crate::error::VortexError;
use crate::nullability::Nullability;
use crate::ptype::PType;
use crate::types::DType;
use std::alloc::Global;

/// A Rust type that has a column type: the type of the scalars that its values become.
///
/// Ports `vortex_array::dtype::NativeDType`.
pub trait NativeDType {
    ghost native_type: { TypeTree };

    /// The column type. `OutOfMemory` if there is no memory for it.
    fn dtype(alloc: Global) -> Result<DType, VortexError>
        ensures { GivesOrNoMemory (λ dtype. type_of dtype ≡ native_type) result };
}

/// `Bool`, without nulls.
impl NativeDType for bool {
    ghost native_type = { bool_type NonNullable };

    fn dtype(_alloc: Global) -> Result<DType, VortexError> {
        Ok(DType::Bool(Nullability::NonNullable))
    }
}

/// Unsigned integers of 1 byte, without nulls.
impl NativeDType for u8 {
    ghost native_type = { integer_type U8 NonNullable };

    fn dtype(_alloc: Global) -> Result<DType, VortexError> {
        Ok(DType::Primitive(PType::U8, Nullability::NonNullable))
    }
}

/// Unsigned integers of 2 bytes, without nulls.
impl NativeDType for u16 {
    ghost native_type = { integer_type U16 NonNullable };

    fn dtype(_alloc: Global) -> Result<DType, VortexError> {
        Ok(DType::Primitive(PType::U16, Nullability::NonNullable))
    }
}

/// Unsigned integers of 4 bytes, without nulls.
impl NativeDType for u32 {
    ghost native_type = { integer_type U32 NonNullable };

    fn dtype(_alloc: Global) -> Result<DType, VortexError> {
        Ok(DType::Primitive(PType::U32, Nullability::NonNullable))
    }
}

/// Unsigned integers of 8 bytes, without nulls.
impl NativeDType for u64 {
    ghost native_type = { integer_type U64 NonNullable };

    fn dtype(_alloc: Global) -> Result<DType, VortexError> {
        Ok(DType::Primitive(PType::U64, Nullability::NonNullable))
    }
}

/// Signed integers of 1 byte, without nulls.
impl NativeDType for i8 {
    ghost native_type = { integer_type I8 NonNullable };

    fn dtype(_alloc: Global) -> Result<DType, VortexError> {
        Ok(DType::Primitive(PType::I8, Nullability::NonNullable))
    }
}

/// Signed integers of 2 bytes, without nulls.
impl NativeDType for i16 {
    ghost native_type = { integer_type I16 NonNullable };

    fn dtype(_alloc: Global) -> Result<DType, VortexError> {
        Ok(DType::Primitive(PType::I16, Nullability::NonNullable))
    }
}

/// Signed integers of 4 bytes, without nulls.
impl NativeDType for i32 {
    ghost native_type = { integer_type I32 NonNullable };

    fn dtype(_alloc: Global) -> Result<DType, VortexError> {
        Ok(DType::Primitive(PType::I32, Nullability::NonNullable))
    }
}

/// Signed integers of 8 bytes, without nulls.
impl NativeDType for i64 {
    ghost native_type = { integer_type I64 NonNullable };

    fn dtype(_alloc: Global) -> Result<DType, VortexError> {
        Ok(DType::Primitive(PType::I64, Nullability::NonNullable))
    }
}

/// Unsigned integers of 8 bytes, without nulls.
impl NativeDType for usize {
    ghost native_type = { integer_type U64 NonNullable };

    fn dtype(_alloc: Global) -> Result<DType, VortexError> {
        Ok(DType::Primitive(PType::U64, Nullability::NonNullable))
    }
}

/// `Utf8`, without nulls.
impl NativeDType for String {
    ghost native_type = { utf8_type NonNullable };

    fn dtype(_alloc: Global) -> Result<DType, VortexError> {
        Ok(DType::Utf8(Nullability::NonNullable))
    }
}

/// `Utf8`, without nulls.
impl NativeDType for &str {
    ghost native_type = { utf8_type NonNullable };

    fn dtype(_alloc: Global) -> Result<DType, VortexError>
        ensures { GivesOrNoMemory (λ dtype. type_of dtype ≡ utf8_type NonNullable) result }
    {
        Ok(DType::Utf8(Nullability::NonNullable))
    }
}

/// `Utf8`, without nulls.
impl NativeDType for BufferString {
    ghost native_type = { utf8_type NonNullable };

    fn dtype(_alloc: Global) -> Result<DType, VortexError> {
        Ok(DType::Utf8(Nullability::NonNullable))
    }
}

/// `Binary`, without nulls.
impl NativeDType for ByteBuffer {
    ghost native_type = { binary_type NonNullable };

    fn dtype(_alloc: Global) -> Result<DType, VortexError> {
        Ok(DType::Binary(Nullability::NonNullable))
    }
}

/// `Binary`, without nulls.
impl NativeDType for &[u8] {
    ghost native_type = { binary_type NonNullable };

    fn dtype(_alloc: Global) -> Result<DType, VortexError>
        ensures { GivesOrNoMemory (λ dtype. type_of dtype ≡ binary_type NonNullable) result }
    {
        Ok(DType::Binary(Nullability::NonNullable))
    }
}

/// The column type of `T`, made nullable.
impl<T: NativeDType> NativeDType for Option<T> {
    ghost native_type = { as_nullable T.native_type };

    fn dtype(alloc: Global) -> Result<DType, VortexError> {
        Ok(T::dtype(alloc)?.as_nullable())
    }
}

/// Lists whose elements have the column type of `T`, without nulls.
impl<T: NativeDType> NativeDType for Vec<T> {
    ghost native_type = { list_type T.native_type NonNullable };

    fn dtype(alloc: Global) -> Result<DType, VortexError> {
        let element = T::dtype(alloc)?;
        Ok(DType::List(Box::new(alloc, element)?, Nullability::NonNullable))
    }
}
