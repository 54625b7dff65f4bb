//! Calls of logical types.

use crate::answers::LogicalAnswer;
use crate::logical_inputs::{Input, LogicalInputs};
use case_lines::{Line, Named};
use float_storage::{
    f32_bits_of_storage, f64_bits_of_storage, is_f32_storage, is_f64_storage, storage_of_f32_bits,
    storage_of_f64_bits,
};
use logical_types::{
    DecimalPlace, DecimalType, LogicalType, bytes_of_decimal, decimal_of_bytes,
    f32_storage_of_parts, f64_storage_of_parts, is_value_of, logical_type_named,
    logical_type_of_extension, place_among_values, place_of_word, storage_of_word, storages_of,
    word_of_storage,
};
use std::alloc::Global;
use vortex_dtype::VortexError;

#[derive(Clone, Copy)]
enum Call {
    Named,
    Extension,
    OfExtension,
    StorageOfWord,
    WordOfStorage,
    IsValue,
    Storages,
    Place,
    PlaceAmong,
    StorageOfBits,
    BitsOfStorage,
    StorageOfParts,
    BytesOfDecimal,
    DecimalOfBytes,
}

const CALLS: [Named<Call, Input>; 14] = [
    ("logical_type", Call::Named, &[Input::Word]),
    ("extension_of", Call::Extension, &[Input::Type]),
    (
        "logical_type_of_extension",
        Call::OfExtension,
        &[Input::Word, Input::Bytes, Input::Storage],
    ),
    (
        "storage_of_word",
        Call::StorageOfWord,
        &[Input::Type, Input::Word],
    ),
    (
        "word_of_storage",
        Call::WordOfStorage,
        &[Input::Type, Input::Number],
    ),
    ("is_value_of", Call::IsValue, &[Input::Type, Input::Number]),
    ("storages_of", Call::Storages, &[Input::Type]),
    ("place_of_word", Call::Place, &[Input::Type, Input::Word]),
    (
        "place_among_values",
        Call::PlaceAmong,
        &[Input::Type, Input::Word],
    ),
    (
        "storage_of_bits",
        Call::StorageOfBits,
        &[Input::Type, Input::Number],
    ),
    (
        "bits_of_storage",
        Call::BitsOfStorage,
        &[Input::Type, Input::Number],
    ),
    (
        "storage_of_parts",
        Call::StorageOfParts,
        &[Input::Type, Input::Number, Input::Exponent],
    ),
    ("bytes_of_decimal", Call::BytesOfDecimal, &[Input::Number]),
    ("decimal_of_bytes", Call::DecimalOfBytes, &[Input::Bytes]),
];

/// Answers the line if it names one of these calls.
pub fn answer(line: &mut Line<'_>) {
    line.lend(&CALLS, answer_of);
}

fn answer_of(
    alloc: Global,
    call: Call,
    given: &LogicalInputs,
) -> Result<LogicalAnswer, VortexError> {
    let logical = given.logical;
    let word = given.word.as_str();
    Ok(match call {
        Call::Named => type_or_none(logical_type_named(word.as_bytes())),
        Call::Extension => LogicalAnswer::Extension(logical),
        Call::OfExtension => {
            let bytes = given.bytes.as_slice();
            type_or_none(logical_type_of_extension(word, bytes, given.storage))
        }
        Call::StorageOfWord => number_or_none(storage_of_word(logical, word.as_bytes())),
        Call::WordOfStorage => match word_of_storage(alloc, logical, given.number)? {
            Some(word) => LogicalAnswer::Word(word),
            None => LogicalAnswer::None,
        },
        Call::IsValue => LogicalAnswer::Truth(is_value_of(logical, given.number)),
        Call::Storages => LogicalAnswer::Range(storages_of(logical)),
        Call::Place => match decimal_in(logical) {
            Some(decimal) => place_or_none(place_of_word(decimal, word.as_bytes())),
            None => LogicalAnswer::None,
        },
        Call::PlaceAmong => match decimal_in(logical) {
            Some(decimal) => place_or_none(place_among_values(decimal, word.as_bytes())),
            None => LogicalAnswer::None,
        },
        Call::StorageOfBits => met(storage_of_bits(logical, given.number)),
        Call::BitsOfStorage => met(bits_of_storage(logical, given.number)),
        Call::StorageOfParts => parts_answer(given),
        Call::BytesOfDecimal => LogicalAnswer::Bytes(bytes_of_decimal(given.number)),
        Call::DecimalOfBytes => number_or_none(decimal_of_bytes(given.bytes.as_slice())),
    })
}

fn type_or_none(logical: Option<LogicalType>) -> LogicalAnswer {
    match logical {
        Some(logical) => LogicalAnswer::Type(logical),
        None => LogicalAnswer::None,
    }
}

fn number_or_none(number: Option<i128>) -> LogicalAnswer {
    match number {
        Some(number) => LogicalAnswer::Number(number),
        None => LogicalAnswer::None,
    }
}

/// Only decimals have places.
fn decimal_in(logical: LogicalType) -> Option<DecimalType> {
    match logical {
        LogicalType::Decimal(decimal) => Some(decimal),
        _ => None,
    }
}

fn place_or_none(place: Option<DecimalPlace>) -> LogicalAnswer {
    match place {
        Some(place) => LogicalAnswer::Place(place),
        None => LogicalAnswer::None,
    }
}

/// A number, or `Unmet`.
fn met(number: Option<i128>) -> LogicalAnswer {
    match number {
        Some(number) => LogicalAnswer::Number(number),
        None => LogicalAnswer::Unmet,
    }
}

/// The storage of the float of these bits. Only floats have bits.
fn storage_of_bits(logical: LogicalType, bits: i128) -> Option<i128> {
    match logical {
        LogicalType::Float64 => Some(i128::from(storage_of_f64_bits(u64::try_from(bits).ok()?))),
        LogicalType::Float32 => Some(i128::from(storage_of_f32_bits(u32::try_from(bits).ok()?))),
        _ => None,
    }
}

/// The bits of the float of this storage.
fn bits_of_storage(logical: LogicalType, storage: i128) -> Option<i128> {
    match logical {
        LogicalType::Float64 => {
            let storage = i64::try_from(storage).ok()?;
            if !is_f64_storage(storage) {
                return None;
            }
            Some(i128::from(f64_bits_of_storage(storage)))
        }
        LogicalType::Float32 => {
            let storage = i32::try_from(storage).ok()?;
            if !is_f32_storage(storage) {
                return None;
            }
            Some(i128::from(f32_bits_of_storage(storage)))
        }
        _ => None,
    }
}

/// The storage of the float nearest to a number times a power of ten.
fn parts_answer(given: &LogicalInputs) -> LogicalAnswer {
    let (Ok(digits), Ok(exponent)) = (
        u64::try_from(given.number.unsigned_abs()),
        i64::try_from(given.exponent),
    ) else {
        return LogicalAnswer::Unmet;
    };
    let is_negative = given.number < 0;
    match given.logical {
        LogicalType::Float64 => {
            let storage = f64_storage_of_parts(is_negative, digits, exponent);
            number_or_none(storage.map(i128::from))
        }
        LogicalType::Float32 => {
            let storage = f32_storage_of_parts(is_negative, digits, exponent);
            number_or_none(storage.map(i128::from))
        }
        _ => LogicalAnswer::Unmet,
    }
}
