// SPDX-License-Identifier: Apache-2.0
//! Scalars of logical types, from and to storages and words.

ghost use Rattle.std.specs.Prelude.{◌≡◌, ◌≢◌, ℤ, IfErr, IfNone, IfOk, IfSome, MatchOption, string_bytes};
ghost use Rattle.vortex_value.specs.Words.{GivesOrNoMemory, IsMadeOf, IsValid, OutOfMemory, value_tree};
ghost use Rattle.vortex_dtype.specs.Words.{type_of};
ghost use Rattle.logical_scalars.specs.Stored.{Holds, IsOfLogicalType, logical_tree, raw_storage, storage_tree};
ghost use Rattle.logical_types.specs.Extensions.{FitsStorage, storage_type_of};
ghost use Rattle.logical_types.specs.Printed.{IsPrinted};
ghost use Rattle.logical_types.specs.Words.{IsStorageOf, Writes};

use crate::types::{extension_of, is_of_logical_type};
use logical_types::{
    LogicalType, StorageType, bytes_of_decimal, decimal_of_bytes, is_value_of, laws,
    storage_of_word, storage_type, word_of_storage,
};
use std::alloc::{AllocError, Global};
use vortex_dtype::{ByteBuffer, DType, Nullability, VortexError};
use vortex_pvalue::PValue;
use vortex_value::{Scalar, ScalarValue};

/// The scalar of the value with this storage. None if it is no storage of the type. `OutOfMemory` is the
/// only refusal.
pub fn scalar_of_storage(
    alloc: Global,
    logical: LogicalType,
    storage: i128,
    nullability: Nullability,
) -> Result<Option<Scalar>, VortexError>
    ensures made { IfOk result (λ made. MatchOption made (¬ (IsStorageOf logical storage))
        (λ x. IsMadeOf (logical_tree logical nullability) (raw_storage (storage_type_of logical) storage) x)) }
    ensures valid { IfOk result (λ made. IfSome made IsValid) }
    ensures refused { IfErr result (λ e. e ≡ OutOfMemory) }
{
    if !is_value_of(logical, storage) {
        return Ok(None);
    }
    laws::storages_fit(logical);
    let extension = extension_of(alloc, logical, nullability)?;
    let stored = stored(alloc, storage_type(logical), storage, nullability)?;
    Ok(Some(Scalar::extension_ref(extension, stored)?))
}

/// The scalar of a storage, without its extension.
fn stored(
    alloc: Global,
    kind: StorageType,
    storage: i128,
    nullability: Nullability,
) -> Result<Scalar, VortexError>
    requires { FitsStorage kind storage }
    ensures made { GivesOrNoMemory (IsMadeOf (storage_tree kind nullability) (raw_storage kind storage)) result }
    ensures valid { IfOk result IsValid }
{
    match kind {
        StorageType::I32 => Ok(Scalar::primitive(storage as i32, nullability)),
        StorageType::I64 => Ok(Scalar::primitive(storage as i64, nullability)),
        StorageType::Bytes => {
            let bytes = ByteBuffer::from_slice(alloc, &bytes_of_decimal(storage))?;
            Ok(Scalar::binary(bytes, nullability))
        }
    }
}

/// The scalar of the value with this storage, of the type of a column, whose zone may have any name.
/// `OutOfMemory` is the only refusal.
#[tactic(auto, using(crate::proofs::Columns::columns))]
pub fn scalar_of_column(
    alloc: Global,
    dtype: &DType,
    logical: LogicalType,
    storage: i128,
) -> Result<Scalar, VortexError>
    requires is { IsOfLogicalType (type_of dtype.now) logical }
    requires value { IsStorageOf logical storage }
    ensures made { GivesOrNoMemory (IsMadeOf (type_of dtype.now)
        (raw_storage (storage_type_of logical) storage)) result }
    ensures valid { IfOk result IsValid }
{
    laws::storages_fit(logical);
    let value = value_of_storage(alloc, storage_type(logical), storage)?;
    let dtype = dtype.clone(alloc)?;
    Ok(Scalar {
        dtype,
        value: Some(value),
    })
}

/// The raw value of a storage.
fn value_of_storage(
    alloc: Global,
    kind: StorageType,
    storage: i128,
) -> Result<ScalarValue, VortexError>
    requires { FitsStorage kind storage }
    ensures { GivesOrNoMemory (λ value. value_tree value ≡ raw_storage kind storage) result }
{
    match kind {
        StorageType::I32 => Ok(ScalarValue::Primitive(PValue::I32(storage as i32))),
        StorageType::I64 => Ok(ScalarValue::Primitive(PValue::I64(storage as i64))),
        StorageType::Bytes => {
            let bytes = ByteBuffer::from_slice(alloc, &bytes_of_decimal(storage))?;
            Ok(ScalarValue::Binary(bytes))
        }
    }
}

/// The scalar of the value that a word writes. None if it writes none of the type, or if a digit would be
/// lost. `OutOfMemory` is the only refusal.
pub fn scalar_of_word(
    alloc: Global,
    logical: LogicalType,
    word: &[u8],
    nullability: Nullability,
) -> Result<Option<Scalar>, VortexError>
    ensures made { IfOk result (λ made. MatchOption made ((z : ℤ) → ¬ (Writes logical word.now z))
        (λ x. (z : ℤ) × Writes logical word.now z
        × IsMadeOf (logical_tree logical nullability) (raw_storage (storage_type_of logical) z) x)) }
    ensures valid { IfOk result (λ made. IfSome made IsValid) }
    ensures refused { IfErr result (λ e. e ≡ OutOfMemory) }
{
    match storage_of_word(logical, word) {
        Some(storage) => scalar_of_storage(alloc, logical, storage, nullability),
        None => Ok(None),
    }
}

/// The storage of the value that a scalar of a logical type is. None of a null, and of a scalar that is no
/// value of the type.
pub fn storage_of_scalar(logical: LogicalType, scalar: &Scalar) -> Option<i128>
    ensures some { IfSome result (λ z. Holds logical z scalar.now) }
    ensures none { IfNone result ((z : ℤ) → ¬ (Holds logical z scalar.now)) }
{
    if !is_of_logical_type(logical, scalar.dtype()) {
        return None;
    }
    laws::storages_fit(logical);
    let storage = storage_in(storage_type(logical), scalar.value()?)?;
    if is_value_of(logical, storage) {
        Some(storage)
    } else {
        None
    }
}

/// The number that a raw value stores.
fn storage_in(kind: StorageType, value: &ScalarValue) -> Option<i128>
    ensures some { IfSome result (λ z. value_tree value.now ≡ raw_storage kind z) }
    ensures none { IfNone result ((z : ℤ) → FitsStorage kind z → value_tree value.now ≢ raw_storage kind z) }
{
    match (kind, value) {
        (StorageType::I32, ScalarValue::Primitive(PValue::I32(number))) => Some(*number as i128),
        (StorageType::I64, ScalarValue::Primitive(PValue::I64(number))) => Some(*number as i128),
        (StorageType::Bytes, ScalarValue::Binary(bytes)) => decimal_of_bytes(bytes.as_slice()),
        _ => None,
    }
}

/// The word of the value that a scalar of a logical type is, which is read as that value. None of a null,
/// and of a scalar that is no value of the type.
pub fn word_of_scalar(
    alloc: Global,
    logical: LogicalType,
    scalar: &Scalar,
) -> Result<Option<String>, AllocError>
    ensures reads { IfOk result (λ word. MatchOption word ((z : ℤ) → ¬ (Holds logical z scalar.now))
        (λ text. (z : ℤ) × Holds logical z scalar.now × Writes logical (string_bytes text) z)) }
    ensures printed { IfOk result (λ word. IfSome word
        (λ text. (z : ℤ) × Holds logical z scalar.now × IsPrinted logical (string_bytes text) z)) }
{
    match storage_of_scalar(logical, scalar) {
        Some(storage) => word_of_storage(alloc, logical, storage),
        None => Ok(None),
    }
}
