//! Scalars of columns and of rows from their keys.

ghost use Rattle.std.specs.Prelude.{◌≡◌, ◌≢◌, ◌≤◌, ◌∷◌, ℕ, List, MatchResult, false, length, true};
ghost use Rattle.vortex_row.specs.ColumnReading.{AreColumnKeys, HasColumn, HasColumnAt, HasRow, IsColumnKey, IsRefusal};
ghost use Rattle.vortex_row.specs.ColumnReading.{IsRefusalAt};
ghost use Rattle.vortex_row.specs.Words.{IsNullable, OutOfMemory, absent, dtype_trees, null_byte, raw_of, scalar_raw};
ghost use Rattle.vortex_row.specs.Words.{scalar_type, type_of};

use super::inhabited::of_row;
use super::values::read_into;
use crate::error::RowError;
use crate::options::SortOptions;
use crate::reader::{KeyDecodeError, Reader, bytes_from};
use crate::tags::null_byte;
use std::alloc::Global;
use vortex_dtype::DType;
use vortex_value::{Scalar, ScalarValue};

/// Whether the bytes begin with the key of a null, and the type takes one.
#[tactic(auto, using(crate::proofs::DecodeSteps::nulls))]
fn begins_with_null(dtype: &DType, options: SortOptions, bytes: &[u8]) -> bool
    ensures null { result ≡ true
        → HasColumn options (type_of dtype.now) absent bytes.now 1 }
    ensures other { result ≡ false → IsNullable (type_of dtype.now)
        → (bs : List ℕ) → bytes.now ≢ null_byte options.nulls_first ∷ bs }
{
    match bytes {
        [first, ..] => *first == null_byte(options.nulls_first) && dtype.is_nullable(),
        [] => false,
    }
}

/// Puts the value of the type that the bytes begin with the key of in this place. How many bytes that
/// key has.
#[tactic(auto, using(crate::proofs::DecodeSteps::shown))]
#[inline(always)]
fn read_column(
    alloc: Global,
    dtype: &DType,
    options: SortOptions,
    bytes: &[u8],
    place: &mut Option<ScalarValue>,
) -> Result<usize, RowError>
    ensures { MatchResult result
        (λ n. HasColumn options (type_of dtype.now) (raw_of place.new) bytes.now n)
        (λ e. IsRefusal (IsColumnKey options (type_of dtype.now)) bytes.now e) }
{
    if begins_with_null(dtype, options, bytes) {
        *place = None;
        return Ok(1);
    }
    let mut reader = Reader {
        rest: bytes,
        invert: options.descending,
    };
    let answer = read_into(alloc, dtype, &mut reader, place);
    let taken = bytes.len().saturating_sub(reader.rest.len());
    match answer {
        Ok(()) => Ok(taken),
        Err(KeyDecodeError::NoMemory) => Err(RowError::OutOfMemory),
        Err(KeyDecodeError::Bad) => Err(RowError::BadKey { offset: taken }),
    }
}

/// Whether the two are one type without parts. False says nothing.
#[inline(always)]
fn are_one_leaf(a: &DType, b: &DType) -> bool
    ensures { result ≡ true → type_of a.now ≡ type_of b.now }
{
    match (a, b) {
        (DType::Bool(m), DType::Bool(n))
        | (DType::Utf8(m), DType::Utf8(n))
        | (DType::Binary(m), DType::Binary(n)) => m == n,
        (DType::Primitive(k, m), DType::Primitive(l, n)) => k == l && m == n,
        _ => false,
    }
}

/// A copy of the type. `OutOfMemory` if it finds no memory.
fn copied(alloc: Global, dtype: &DType) -> Result<DType, RowError>
    ensures { MatchResult result (λ t. type_of t ≡ type_of dtype.now) (λ e. e ≡ OutOfMemory) }
{
    match dtype.clone(alloc) {
        Ok(dtype) => Ok(dtype),
        Err(error) => {
            drop(error);
            Err(RowError::OutOfMemory)
        }
    }
}

/// Puts a copy of the type in this place. `OutOfMemory` if it finds no memory.
#[inline(never)]
fn put_type(alloc: Global, dtype: &DType, place: &mut DType) -> Result<(), RowError>
    ensures { MatchResult result (λ _. type_of place.new ≡ type_of dtype.now) (λ e. e ≡ OutOfMemory) }
{
    *place = copied(alloc, dtype)?;
    Ok(())
}

/// Puts the scalar of the type that the bytes begin with the key of in the place of this one, whose
/// type is not made again if it is that one. How many bytes that key has.
#[tactic(auto, using(crate::proofs::DecodeSteps::shown))]
#[inline(never)]
pub(super) fn decode_column_into(
    alloc: Global,
    dtype: &DType,
    options: SortOptions,
    bytes: &[u8],
    scalar: &mut Scalar,
) -> Result<usize, RowError>
    ensures { MatchResult result
        (λ n. (scalar_type scalar.new ≡ type_of dtype.now)
        × HasColumn options (type_of dtype.now) (scalar_raw scalar.new) bytes.now n)
        (λ e. IsRefusal (IsColumnKey options (type_of dtype.now)) bytes.now e) }
{
    let taken = read_column(alloc, dtype, options, bytes, &mut scalar.value)?;
    if !are_one_leaf(&scalar.dtype, dtype) {
        put_type(alloc, dtype, &mut scalar.dtype)?;
    }
    Ok(taken)
}

/// The scalar of the type that the bytes begin with the key of, and how many bytes that has.
#[tactic(auto, using(crate::proofs::DecodeSteps::shown))]
pub(super) fn decode_column(
    alloc: Global,
    dtype: &DType,
    options: SortOptions,
    bytes: &[u8],
) -> Result<(Scalar, usize), RowError>
    ensures { MatchResult result
        (λ p. (scalar_type p.0 ≡ type_of dtype.now)
        × HasColumn options (type_of dtype.now) (scalar_raw p.0) bytes.now p.1)
        (λ e. IsRefusal (IsColumnKey options (type_of dtype.now)) bytes.now e) }
{
    let mut scalar = Scalar {
        dtype: DType::Null,
        value: None,
    };
    match decode_column_into(alloc, dtype, options, bytes, &mut scalar) {
        Ok(taken) => Ok((scalar, taken)),
        Err(error) => {
            drop(scalar);
            Err(error)
        }
    }
}

/// The scalar of the type that the bytes from an offset on begin with the key of, and the offset
/// after that key.
#[tactic(auto, using(crate::proofs::RowDecodeSteps::places))]
fn decode_at(
    alloc: Global,
    dtype: &DType,
    options: SortOptions,
    bytes: &[u8],
    place: usize,
) -> Result<(Scalar, usize), RowError>
    requires { place ≤ length bytes.now }
    ensures { MatchResult result
        (λ p. HasColumnAt options (type_of dtype.now) p.0 bytes.now place p.1)
        (λ e. IsRefusalAt (IsColumnKey options (type_of dtype.now)) bytes.now place e) }
{
    match decode_column(alloc, dtype, options, bytes_from(bytes, place)) {
        Ok((scalar, taken)) => Ok((scalar, place + taken)),
        Err(RowError::BadKey { offset: bad }) => Err(RowError::BadKey {
            offset: place + bad,
        }),
        Err(error) => Err(error),
    }
}

/// The scalars of the types that the bytes begin with the key of the row of, and how many bytes that
/// has.
#[tactic(auto, using(crate::proofs::RowDecodeSteps::shown))]
pub(super) fn decode_columns(
    alloc: Global,
    dtypes: &[DType],
    options: &[SortOptions],
    bytes: &[u8],
) -> Result<(Vec<Scalar>, usize), RowError>
    requires { length dtypes.now ≡ length options.now }
    ensures { MatchResult result
        (λ p. HasRow options.now (dtype_trees dtypes.now) p.0.items bytes.now p.1)
        (λ e. IsRefusal (AreColumnKeys options.now (dtype_trees dtypes.now)) bytes.now e) }
{
    let mut scalars = Vec::with_capacity(alloc, dtypes.len())?;
    let mut place = 0;
    for column in 0..dtypes.len() {
        match decode_at(alloc, &dtypes[column], options[column], bytes, place) {
            Ok((scalar, next)) => {
                scalars.push(scalar)?;
                place = next;
            }
            Err(error) => return Err(of_row(dtypes, error)),
        }
    }
    Ok((scalars, place))
}
