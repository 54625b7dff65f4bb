//! Conversions into a scalar and back.

ghost use Rattle.std.specs.Prelude.{refl, string_bytes};
ghost use Rattle.vortex_array.specs.ConversionLaws.{bool_back, bytes_back, integer_back, option_bool_back};
ghost use Rattle.vortex_array.specs.ConversionLaws.{option_bytes_back, option_integer_back, option_text_back};
ghost use Rattle.vortex_array.specs.ConversionLaws.{option_usize_back, text_back, usize_back, vec_back, vec_named};
ghost use Rattle.vortex_array.specs.Words.{NamesAsGiven, NonNullable, Nullable, TakesBack};

use crate::from_scalar::FromScalar;
use crate::integers::Integer;
use crate::into_scalar::IntoScalar;
use vortex_dtype::{BufferString, ByteBuffer};

/// A Rust type whose values survive the conversion into a scalar and back.
///
/// The trait has laws and no functions. By them a value that went through `try_into_scalar` and then
/// `try_from_scalar` is the value that it was. Upstream has no such trait.
pub trait RoundTrip: IntoScalar + FromScalar {
    /// Both traits give a value the same raw value.
    ghost named: { NamesAsGiven Self.IntoScalar.given Self.FromScalar.given };

    /// A valid raw value of the column type that a value gives converts back into that value.
    ghost taken_back: { TakesBack Self.IntoScalar.given Self.taken Self.native_type };
}

impl RoundTrip for bool {
    ghost named = { λ x. refl };

    ghost taken_back = { bool_back NonNullable };
}

impl RoundTrip for Option<bool> {
    ghost named = { λ x. refl };

    ghost taken_back = { option_bool_back Nullable };
}

/// For the eight integers.
impl<T: Integer> RoundTrip for T {
    ghost named = { λ x. refl };

    ghost taken_back = { integer_back T.PTYPE T.native_type T.value T.column };
}

/// For the eight integers, at the nullable column type.
impl<T: Integer> RoundTrip for Option<T> {
    ghost named = { λ x. refl };

    ghost taken_back = { option_integer_back T.PTYPE T.native_type T.value T.column };
}

impl RoundTrip for usize {
    ghost named = { λ x. refl };

    ghost taken_back = { usize_back NonNullable };
}

impl RoundTrip for Option<usize> {
    ghost named = { λ x. refl };

    ghost taken_back = { option_usize_back Nullable };
}

impl RoundTrip for ByteBuffer {
    ghost named = { λ x. refl };

    ghost taken_back = { bytes_back NonNullable };
}

impl RoundTrip for Option<ByteBuffer> {
    ghost named = { λ x. refl };

    ghost taken_back = { option_bytes_back Nullable };
}

impl RoundTrip for BufferString {
    ghost named = { λ x. refl };

    ghost taken_back = { text_back NonNullable (λ text. text) };
}

impl RoundTrip for Option<BufferString> {
    ghost named = { λ x. refl };

    ghost taken_back = { option_text_back Nullable };
}

impl RoundTrip for String {
    ghost named = { λ x. refl };

    ghost taken_back = { text_back NonNullable string_bytes };
}

/// Follows from the laws of the element type.
impl<T: RoundTrip + Drop> RoundTrip for Vec<T> {
    ghost named = { vec_named T.IntoScalar.given T.FromScalar.given T.named };

    ghost taken_back = { vec_back T.IntoScalar.given T.taken T.native_type NonNullable T.taken_back };
}
