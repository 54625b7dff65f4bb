//! Lower and upper bounds of scalars by truncation.

ghost use Rattle.std.specs.Prelude.{◌≡◌, ◌≤◌, ℕ, List, Some, length, IfErr, IfOk, IsOk, MatchOption, MatchResult, refl};
ghost use Rattle.vortex_bounds.specs.Words as Spec;

use crate::increment_bytes::increment_bytes;
use crate::laws::items_are_bytes;
use crate::string_like::{IncrementError, StringLike};
use arrayvec::ArrayVec;
use std::alloc::Global;
use vortex_dtype::{BufferString, ByteBuffer, INLINE_BYTES, Nullability, VortexError};
use vortex_value::Scalar;

/// A value that can be truncated to a length in bytes. Its values are ordered as their bytes.
///
/// Ports `ScalarTruncation`.
pub trait ScalarTruncation: Drop {
    /// The bytes of a value.
    ghost bytes: { Self → List ℕ };

    /// The type of its scalar, by nullability.
    ghost type_at: { Spec.Nullability → Spec.TypeTree };

    /// The raw value of its scalar, by its bytes.
    ghost raw_at: { List ℕ → Spec.RawTree };

    /// For the bytes of a value and a length: these bytes are the best lower bound.
    ghost IsBestLower: { List ℕ → ℕ → List ℕ → Type 0 };

    /// For the bytes of a value and a length: these bytes are the best upper bound.
    ghost IsBestUpper: { List ℕ → ℕ → List ℕ → Type 0 };

    /// For the bytes of a value and a length: there is no upper bound.
    ghost HasNoBestUpper: { List ℕ → ℕ → Type 0 };

    /// Moves the value out of the scalar; `None` if the scalar is null. Takes no memory.
    ///
    /// `WrongKind` exactly if the type, or a raw value that is not null, does not fit `Self`. An
    /// extension type never fits.
    fn from_scalar(scalar: Scalar) -> Result<Option<Self>, VortexError>
        ensures typed { IfOk result (λ _. Spec.IsTypeOfKind type_at (Spec.scalar_type scalar)) }
        ensures value { IfOk result (λ o. MatchOption o (Spec.scalar_raw scalar ≡ Spec.absent)
            (λ v. Spec.scalar_raw scalar ≡ raw_at (bytes v))) }
        ensures refused { IfErr result (λ e. (e ≡ Spec.WrongKind)
            × ¬ (Spec.IsTypeOfKind type_at (Spec.scalar_type scalar) × Spec.MayHold raw_at (Spec.scalar_raw scalar))) };

    /// The length of the value in bytes.
    fn len(&self) -> usize
        ensures { result ≡ length (bytes self.now) };

    /// The scalar of the value, with this nullability. Takes no memory.
    fn into_scalar(self, nullability: Nullability) -> Scalar
        ensures made { Spec.IsMadeOf (type_at nullability) (raw_at (bytes self)) result }
        ensures valid { Spec.IsValid result };

    /// The best lower bound of at most `max_length` bytes: not above this value.
    ///
    /// `OutOfMemory` only if `max_length` is above 22.
    fn lower_bound(self, alloc: Global, max_length: usize) -> Result<Self, VortexError>
        requires { max_length ≤ length (bytes self) }
        ensures given { Spec.GivesOrNoMemory
            (λ bound. IsBestLower (bytes self) max_length (bytes bound)) result }
        ensures inline { max_length ≤ INLINE_BYTES → IsOk result };

    /// The best upper bound at `max_length` bytes: above this value. `None` if there is none.
    ///
    /// `OutOfMemory` only if `max_length` is above 22.
    fn upper_bound(self, alloc: Global, max_length: usize) -> Result<Option<Self>, VortexError>
        requires { max_length ≤ length (bytes self) }
        ensures given { MatchResult result
            (λ o. MatchOption o (HasNoBestUpper (bytes self) max_length)
            (λ bound. IsBestUpper (bytes self) max_length (bytes bound)))
            (λ e. e ≡ Spec.OutOfMemory) }
        ensures inline { max_length ≤ INLINE_BYTES → IsOk result };

    /// The type at a nullability has that nullability.
    ghost type_law: { (n : Spec.Nullability) → Spec.nullability_of (type_at n) ≡ n };

    /// Scalars are ordered as their bytes are.
    ghost order_law: { (b c : List ℕ)
        → Spec.order (Spec.content (raw_at b)) (Spec.content (raw_at c)) ≡ Some (Spec.slice_cmp Spec.nat_cmp b c) };

    /// A lower bound is not above what it bounds.
    ghost lower_law: { (b : List ℕ) (n : ℕ) (r : List ℕ) → IsBestLower b n r → Spec.NotAbove r b };

    /// An upper bound is above what it bounds.
    ghost upper_law: { (b : List ℕ) (n : ℕ) (r : List ℕ) → IsBestUpper b n r → Spec.Below b r };
}

/// The value if it has at most `max_length` bytes, else its lower bound: as a scalar, with `true`
/// if the value was cut. `None` of `None`.
///
/// `OutOfMemory` only if the value is longer and `max_length` is above 22 bytes. Ports
/// `lower_bound`.
pub fn lower_bound<T: ScalarTruncation>(
    alloc: Global,
    value: Option<T>,
    max_length: usize,
    nullability: Nullability,
) -> Result<Option<(Scalar, bool)>, VortexError>
    ensures { Spec.IsLowerAnswer T.IsBestLower T.raw_at T.type_at T.bytes
        value max_length nullability result }
{
    let Some(value) = value else {
        return Ok(None);
    };
    if value.len() <= max_length {
        return Ok(Some((value.into_scalar(nullability), false)));
    }
    let bound = value.lower_bound(alloc, max_length)?;
    Ok(Some((bound.into_scalar(nullability), true)))
}

/// The value if it has at most `max_length` bytes, else its upper bound: as a scalar, with `true`
/// if the value was cut. `None` of `None`, and if a longer value has no upper bound.
///
/// `OutOfMemory` only if the value is longer and `max_length` is above 22 bytes. Ports
/// `upper_bound`.
pub fn upper_bound<T: ScalarTruncation>(
    alloc: Global,
    value: Option<T>,
    max_length: usize,
    nullability: Nullability,
) -> Result<Option<(Scalar, bool)>, VortexError>
    ensures { Spec.IsUpperAnswer T.IsBestUpper T.HasNoBestUpper T.raw_at T.type_at T.bytes
        value max_length nullability result }
{
    let Some(value) = value else {
        return Ok(None);
    };
    if value.len() <= max_length {
        return Ok(Some((value.into_scalar(nullability), false)));
    }
    let Some(bound) = value.upper_bound(alloc, max_length)? else {
        return Ok(None);
    };
    Ok(Some((bound.into_scalar(nullability), true)))
}

/// The bounds among all bytes. The lower one is the first bytes; the upper one is these plus one, as
/// one number with its first byte the highest.
impl ScalarTruncation for ByteBuffer {
    ghost bytes = { λ buffer. buffer };

    ghost type_at = { Spec.binary_type };

    ghost raw_at = { Spec.raw_bytes };

    ghost IsBestLower = { Spec.IsLower };

    ghost IsBestUpper = { Spec.IsUpper };

    ghost HasNoBestUpper = { Spec.HasNoUpper };

    fn from_scalar(scalar: Scalar) -> Result<Option<ByteBuffer>, VortexError> {
        Option::<ByteBuffer>::try_from(scalar)
    }

    fn len(&self) -> usize {
        self.len()
    }

    fn into_scalar(self, nullability: Nullability) -> Scalar {
        Scalar::binary(self, nullability)
    }

    #[tactic(auto, using(crate::proofs::ScalarBounds::lower_slice))]
    fn lower_bound(self, _alloc: Global, max_length: usize) -> Result<ByteBuffer, VortexError> {
        items_are_bytes(self.as_slice());
        self.slice(0..max_length)
    }

    fn upper_bound(
        self,
        alloc: Global,
        max_length: usize,
    ) -> Result<Option<ByteBuffer>, VortexError> {
        items_are_bytes(self.as_slice());
        next_bytes(alloc, &self.as_slice()[..max_length])
    }

    ghost type_law = { λ n. refl };

    ghost order_law = { λ b c. refl };

    ghost lower_law = { λ b n r h. h.not_above };

    ghost upper_law = { λ b n r h. h.above };
}

/// The bounds among strings. The lower one is the longest beginning of whole characters; the upper
/// one is that with its last character replaced by the next one of as many bytes.
impl ScalarTruncation for BufferString {
    ghost bytes = { λ text. text };

    ghost type_at = { Spec.utf8_type };

    ghost raw_at = { Spec.raw_text };

    ghost IsBestLower = { Spec.IsTextLower };

    ghost IsBestUpper = { Spec.IsTextUpper };

    ghost HasNoBestUpper = { Spec.HasNoTextUpper };

    fn from_scalar(scalar: Scalar) -> Result<Option<BufferString>, VortexError> {
        Option::<BufferString>::try_from(scalar)
    }

    fn len(&self) -> usize {
        self.len()
    }

    fn into_scalar(self, nullability: Nullability) -> Scalar {
        Scalar::utf8(self, nullability)
    }

    fn lower_bound(self, _alloc: Global, max_length: usize) -> Result<BufferString, VortexError> {
        text_prefix(self, max_length)
    }

    fn upper_bound(
        self,
        _alloc: Global,
        max_length: usize,
    ) -> Result<Option<BufferString>, VortexError> {
        match text_prefix(self, max_length)?.increment() {
            Ok(bound) => Ok(Some(bound)),
            Err(IncrementError::Last(_)) => Ok(None),
            Err(IncrementError::Memory(_)) => Err(VortexError::OutOfMemory),
        }
    }

    ghost type_law = { λ n. refl };

    ghost order_law = { λ b c. refl };

    ghost lower_law = { λ b n r h. h.not_above };

    ghost upper_law = { λ b n r h. h.above };
}

/// The next bytes of the same length; `None` if each byte is 255. At most 22 bytes take no memory.
fn next_bytes(alloc: Global, bytes: &[u8]) -> Result<Option<ByteBuffer>, VortexError>
    ensures given { Spec.GivesOrNoMemory (λ next. next ≡ Spec.next_string bytes.now) result }
    ensures inline { length bytes.now ≤ INLINE_BYTES → IsOk result }
{
    if let Ok(mut short) = ArrayVec::<u8, INLINE_BYTES>::try_from(bytes) {
        return if increment_bytes(short.as_mut_slice()) {
            Ok(Some(ByteBuffer::from_slice(alloc, short.as_slice())?))
        } else {
            Ok(None)
        };
    }
    let mut long = Vec::from_slice(alloc, bytes)?;
    if increment_bytes(long.as_mut_slice()) {
        Ok(Some(ByteBuffer::from_vec(long)?))
    } else {
        Ok(None)
    }
}

/// The longest beginning of whole characters that has at most `max_length` bytes. Takes no memory
/// if that is at most 22.
fn text_prefix(text: BufferString, max_length: usize) -> Result<BufferString, VortexError>
    ensures given { Spec.GivesOrNoMemory (λ r. Spec.IsTextLower text max_length r) result }
    ensures inline { max_length ≤ INLINE_BYTES → IsOk result }
{
    let end = text.as_str().floor_char_boundary(max_length);
    text.slice(0..end)
}
