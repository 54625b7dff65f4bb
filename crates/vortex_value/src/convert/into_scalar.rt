//! Raw values and scalars of truth values, strings and bytes.

ghost use Rattle.std.specs.Prelude.{◌≡◌};
ghost use Rattle.vortex_value.specs.Words.{IsMadeValid, NonNullable, Nullable, binary_type, bool_type, given_option};
ghost use Rattle.vortex_value.specs.Words.{raw_bool, raw_bytes, raw_text, utf8_type, value_tree};

use crate::scalars::Scalar;
use crate::values::ScalarValue;
use vortex_dtype::{BufferString, ByteBuffer, DType, Nullability};

/// The truth value.
impl From<bool> for ScalarValue {
    ghost from_gives = { λ b v. value_tree v ≡ raw_bool b };

    fn from(value: bool) -> ScalarValue {
        ScalarValue::Bool(value)
    }
}

/// The truth value, of the type Bool that takes no null.
impl From<bool> for Scalar {
    ghost from_gives = { λ b y. IsMadeValid (bool_type NonNullable) (raw_bool b) y };

    fn from(value: bool) -> Scalar {
        Scalar::bool(value, Nullability::NonNullable)
    }
}

/// The truth value, of the nullable type Bool; `None` is the null.
impl From<Option<bool>> for Scalar {
    ghost from_gives = { λ o y. IsMadeValid (bool_type Nullable) (given_option raw_bool o) y };

    fn from(value: Option<bool>) -> Scalar {
        match value {
            Some(value) => Scalar::bool(value, Nullability::Nullable),
            None => Scalar::null(DType::Bool(Nullability::Nullable)),
        }
    }
}

/// The string, moved.
impl From<BufferString> for ScalarValue {
    ghost from_gives = { λ t v. value_tree v ≡ raw_text t };

    fn from(text: BufferString) -> ScalarValue {
        ScalarValue::Utf8(text)
    }
}

/// The string, moved, of the type Utf8 that takes no null.
impl From<BufferString> for Scalar {
    ghost from_gives = { λ t y. IsMadeValid (utf8_type NonNullable) (raw_text t) y };

    fn from(text: BufferString) -> Scalar {
        Scalar::utf8(text, Nullability::NonNullable)
    }
}

/// The string, moved, of the nullable type Utf8; `None` is the null.
impl From<Option<BufferString>> for Scalar {
    ghost from_gives = { λ o y. IsMadeValid (utf8_type Nullable) (given_option raw_text o) y };

    fn from(text: Option<BufferString>) -> Scalar {
        match text {
            Some(text) => Scalar::utf8(text, Nullability::Nullable),
            None => Scalar::null(DType::Utf8(Nullability::Nullable)),
        }
    }
}

/// The bytes, moved.
impl From<ByteBuffer> for ScalarValue {
    ghost from_gives = { λ b v. value_tree v ≡ raw_bytes b };

    fn from(bytes: ByteBuffer) -> ScalarValue {
        ScalarValue::Binary(bytes)
    }
}

/// The bytes, moved, of the type Binary that takes no null.
impl From<ByteBuffer> for Scalar {
    ghost from_gives = { λ b y. IsMadeValid (binary_type NonNullable) (raw_bytes b) y };

    fn from(bytes: ByteBuffer) -> Scalar {
        Scalar::binary(bytes, Nullability::NonNullable)
    }
}

/// The bytes, moved, of the nullable type Binary; `None` is the null.
impl From<Option<ByteBuffer>> for Scalar {
    ghost from_gives = { λ o y. IsMadeValid (binary_type Nullable) (given_option raw_bytes o) y };

    fn from(bytes: Option<ByteBuffer>) -> Scalar {
        match bytes {
            Some(bytes) => Scalar::binary(bytes, Nullability::Nullable),
            None => Scalar::null(DType::Binary(Nullability::Nullable)),
        }
    }
}
