// SPDX-License-Identifier: Apache-2.0
//! Words of values of logical types.

ghost use Rattle.std.specs.Prelude.{ℤ, IfNone, IfOk, IfSome, MatchOption, string_bytes};
ghost use Rattle.logical_types.specs.Printed.{IsPrinted};
ghost use Rattle.logical_types.specs.Words.{IsStorageOf, Writes};
ghost use Rattle.logical_types.specs.declared.logical.LogicalType.TheVariants as LogicalType;

use crate::clock::{time_of_word, word_of_time};
use crate::dates::{day_of_word, word_of_day};
use crate::decimals::{decimal_of_word, text_of_decimal};
use crate::floats::{
    f32_storage_of_word, f64_storage_of_word, word_of_f32_storage, word_of_f64_storage,
};
use crate::logical::{DecimalType, LogicalType};
use crate::times::{TimeUnit, timestamp_of_word, word_of_timestamp};
use float_storage::{is_f32_storage, is_f64_storage};
use ryu::Buffer;
use std::alloc::{AllocError, Global};

/// The storage of the value that a word writes. None of a word of no value of the type, and of one that
/// would lose a digit.
pub fn storage_of_word(logical: LogicalType, word: &[u8]) -> Option<i128>
    ensures some { IfSome result (λ z. Writes logical word.now z) }
    ensures none { IfNone result ((z : ℤ) → ¬ (Writes logical word.now z)) }
    ensures valid { IfSome result (IsStorageOf logical) }
{
    match logical {
        LogicalType::Float64 => match f64_storage_of_word(word) {
            Some(storage) => Some(storage as i128),
            None => None,
        },
        LogicalType::Float32 => match f32_storage_of_word(word) {
            Some(storage) => Some(storage as i128),
            None => None,
        },
        LogicalType::Decimal(decimal) => decimal_of_word(decimal, word),
        LogicalType::Date => match day_of_word(word) {
            Some(day) => Some(day as i128),
            None => None,
        },
        LogicalType::Time(unit) => match time_of_word(unit, word) {
            Some(time) => Some(time as i128),
            None => None,
        },
        LogicalType::Timestamp { unit, is_zoned } => match timestamp_of_word(unit, is_zoned, word) {
            Some(timestamp) => Some(timestamp as i128),
            None => None,
        },
    }
}

/// The word of the value with this storage, which is read as that value: a decimal has each of its places,
/// and a zoned timestamp ends in `Z`. None if it is no storage of the type. `OutOfMemory` is the only
/// refusal.
pub fn word_of_storage(
    alloc: Global,
    logical: LogicalType,
    storage: i128,
) -> Result<Option<String>, AllocError>
    ensures reads { IfOk result (λ word. MatchOption word (¬ (IsStorageOf logical storage))
        (λ text. Writes logical (string_bytes text) storage)) }
    ensures printed { IfOk result (λ word. IfSome word
        (λ text. IsPrinted logical (string_bytes text) storage)) }
{
    match logical {
        LogicalType::Float64 => f64_word(alloc, storage),
        LogicalType::Float32 => f32_word(alloc, storage),
        LogicalType::Decimal(decimal) => decimal_word(alloc, decimal, storage),
        LogicalType::Date => date_word(alloc, storage),
        LogicalType::Time(unit) => time_word(alloc, unit, storage),
        LogicalType::Timestamp { unit, is_zoned } => {
            timestamp_word(alloc, unit, is_zoned, storage)
        }
    }
}

fn f64_word(alloc: Global, storage: i128) -> Result<Option<String>, AllocError>
    ensures reads { IfOk result (λ word. MatchOption word (¬ (IsStorageOf LogicalType.Float64 storage))
        (λ text. Writes LogicalType.Float64 (string_bytes text) storage)) }
    ensures printed { IfOk result (λ word. IfSome word
        (λ text. IsPrinted LogicalType.Float64 (string_bytes text) storage)) }
{
    let Ok(storage) = i64::try_from(storage) else {
        return Ok(None);
    };
    if !is_f64_storage(storage) {
        return Ok(None);
    }
    let mut buffer = Buffer::new();
    let text = String::from_str(alloc, word_of_f64_storage(storage, &mut buffer))?;
    Ok(Some(text))
}

fn f32_word(alloc: Global, storage: i128) -> Result<Option<String>, AllocError>
    ensures reads { IfOk result (λ word. MatchOption word (¬ (IsStorageOf LogicalType.Float32 storage))
        (λ text. Writes LogicalType.Float32 (string_bytes text) storage)) }
    ensures printed { IfOk result (λ word. IfSome word
        (λ text. IsPrinted LogicalType.Float32 (string_bytes text) storage)) }
{
    let Ok(storage) = i32::try_from(storage) else {
        return Ok(None);
    };
    if !is_f32_storage(storage) {
        return Ok(None);
    }
    let mut buffer = Buffer::new();
    let text = String::from_str(alloc, word_of_f32_storage(storage, &mut buffer))?;
    Ok(Some(text))
}

fn decimal_word(
    alloc: Global,
    decimal: DecimalType,
    storage: i128,
) -> Result<Option<String>, AllocError>
    ensures reads { IfOk result (λ word. MatchOption word (¬ (IsStorageOf (LogicalType.Decimal decimal) storage))
        (λ text. Writes (LogicalType.Decimal decimal) (string_bytes text) storage)) }
    ensures printed { IfOk result (λ word. IfSome word
        (λ text. IsPrinted (LogicalType.Decimal decimal) (string_bytes text) storage)) }
{
    if storage.unsigned_abs() >= decimal.limit() {
        return Ok(None);
    }
    let text = text_of_decimal(alloc, storage, decimal.scale)?;
    Ok(Some(text))
}

fn date_word(alloc: Global, storage: i128) -> Result<Option<String>, AllocError>
    ensures reads { IfOk result (λ word. MatchOption word (¬ (IsStorageOf LogicalType.Date storage))
        (λ text. Writes LogicalType.Date (string_bytes text) storage)) }
    ensures printed { IfOk result (λ word. IfSome word
        (λ text. IsPrinted LogicalType.Date (string_bytes text) storage)) }
{
    let Ok(day) = i32::try_from(storage) else {
        return Ok(None);
    };
    match word_of_day(day) {
        Some(word) => {
            let text = String::from_str(alloc, word.as_str())?;
            Ok(Some(text))
        }
        None => Ok(None),
    }
}

fn time_word(alloc: Global, unit: TimeUnit, storage: i128) -> Result<Option<String>, AllocError>
    ensures reads { IfOk result (λ word. MatchOption word (¬ (IsStorageOf (LogicalType.Time unit) storage))
        (λ text. Writes (LogicalType.Time unit) (string_bytes text) storage)) }
    ensures printed { IfOk result (λ word. IfSome word
        (λ text. IsPrinted (LogicalType.Time unit) (string_bytes text) storage)) }
{
    let Ok(time) = i64::try_from(storage) else {
        return Ok(None);
    };
    match word_of_time(unit, time) {
        Some(word) => {
            let text = String::from_str(alloc, word.as_str())?;
            Ok(Some(text))
        }
        None => Ok(None),
    }
}

fn timestamp_word(
    alloc: Global,
    unit: TimeUnit,
    is_zoned: bool,
    storage: i128,
) -> Result<Option<String>, AllocError>
    ensures reads { IfOk result (λ word. MatchOption word
        (¬ (IsStorageOf (LogicalType.Timestamp unit is_zoned) storage))
        (λ text. Writes (LogicalType.Timestamp unit is_zoned) (string_bytes text) storage)) }
    ensures printed { IfOk result (λ word. IfSome word
        (λ text. IsPrinted (LogicalType.Timestamp unit is_zoned) (string_bytes text) storage)) }
{
    let Ok(timestamp) = i64::try_from(storage) else {
        return Ok(None);
    };
    match word_of_timestamp(unit, is_zoned, timestamp) {
        Some(word) => {
            let text = String::from_str(alloc, word.as_str())?;
            Ok(Some(text))
        }
        None => Ok(None),
    }
}
