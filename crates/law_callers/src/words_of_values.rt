//! Words that are written of values of logical types, and read again.

ghost use Rattle.std.specs.Prelude.{◌≡◌, ◌<◌, ◌^◌, IfOk, IfSome, Some, unsigned_abs};
ghost use Rattle.logical_types.specs.DecimalWorth.{IsWorth};
ghost use Rattle.logical_types.specs.Places.{IsPlaceOfWord, fine_scale};
ghost use Rattle.logical_types.specs.Words.{IsStorageOf};

use logical_types::laws::{
    a_word_is_of_one_value, decimals_are_exact, decimals_read_back, places_are_exact,
};
use logical_types::{
    DecimalPlace, DecimalType, LogicalType, decimal_of_word, place_of_word, storage_of_word,
    text_of_decimal, word_of_storage,
};
use std::alloc::{AllocError, Global};

/// Writes the word of a value, and reads the value of the word.
pub fn write_and_read_value(
    alloc: Global,
    logical: LogicalType,
    storage: i128,
) -> Result<Option<i128>, AllocError>
    ensures { IfOk result (λ read. IsStorageOf logical storage → read ≡ Some storage) }
{
    a_word_is_of_one_value(logical);
    match word_of_storage(alloc, logical, storage)? {
        Some(word) => Ok(storage_of_word(logical, word.as_bytes())),
        None => Ok(None),
    }
}

/// Writes a decimal, and reads it again.
pub fn write_and_read_decimal(
    alloc: Global,
    decimal: DecimalType,
    number: i128,
) -> Result<Option<i128>, AllocError>
    ensures { IfOk result (λ read. unsigned_abs number < 10 ^ decimal.precision → read ≡ Some number) }
{
    decimals_read_back(decimal, number);
    let word = text_of_decimal(alloc, number, decimal.scale)?;
    Ok(decimal_of_word(decimal, word.as_bytes()))
}

/// Reads a decimal: exactly what its word is worth.
pub fn read_decimal(decimal: DecimalType, word: &[u8]) -> Option<i128>
    ensures { IfSome result (IsWorth decimal.scale word.now) }
{
    decimals_are_exact(decimal);
    decimal_of_word(decimal, word)
}

/// Where the number of a word lies among the values of a type: exactly the number that the word is worth.
pub fn place_decimal(decimal: DecimalType, word: &[u8]) -> Option<DecimalPlace>
    ensures { IfSome result (λ place. (h : IsPlaceOfWord decimal word.now place)
        × IsWorth (fine_scale decimal.scale word.now) word.now h.number) }
{
    places_are_exact(decimal);
    place_of_word(decimal, word)
}
