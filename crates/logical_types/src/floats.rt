// SPDX-License-Identifier: Apache-2.0
//! Words of floats: the storage of the float that one writes, and a word for each storage.

ghost use Rattle.std.specs.Prelude.{◌≡◌, ◌≤◌, IfSome, IsAscii, Some, length};
ghost use Rattle.std.specs.Float.{binary32, binary64};
ghost use Rattle.float_storage.specs.Storage.{IsStorage, storage_of};
ghost use Rattle.logical_types.specs.Printed.{IsFloatText};
ghost use Rattle.logical_types.specs.Floats.{finite, has_digit, storage_written};
ghost use Rattle.fast_float.specs.Rounding.{nearest_to_decimal};

use float_storage::{f32_of_storage, f64_of_storage, storage_of_f32, storage_of_f64};
use ryu::Buffer;

/// The storage of the infinity of f64.
const INFINITY_64: i64 = 0x7ff0_0000_0000_0000;

/// The storage of the infinity of f32.
const INFINITY_32: i32 = 0x7f80_0000;

/// The storage of the f64 nearest to the number that the word writes, or of `inf`, `infinity` or `nan`
/// in any case, each perhaps with a sign. None of any other word, and of a number so great that the
/// nearest is infinity.
pub fn f64_storage_of_word(word: &[u8]) -> Option<i64>
    ensures value { result ≡ storage_written binary64 word.now }
    ensures within { IfSome result (IsStorage binary64) }
{
    let storage = match fast_float::parse::<f64, &[u8]>(word) {
        Ok(number) => storage_of_f64(number),
        Err(_) => return None,
    };
    let is_infinite = storage == INFINITY_64 || storage == -INFINITY_64;
    if is_infinite && has_digit(word) {
        None
    } else {
        Some(storage)
    }
}

/// The same for f32.
pub fn f32_storage_of_word(word: &[u8]) -> Option<i32>
    ensures value { result ≡ storage_written binary32 word.now }
    ensures within { IfSome result (IsStorage binary32) }
{
    let storage = match fast_float::parse::<f32, &[u8]>(word) {
        Ok(number) => storage_of_f32(number),
        Err(_) => return None,
    };
    let is_infinite = storage == INFINITY_32 || storage == -INFINITY_32;
    if is_infinite && has_digit(word) {
        None
    } else {
        Some(storage)
    }
}

/// The storage of the f64 nearest to digits * 10 ^ exponent, negated if the number is negative. None if
/// the nearest is infinity.
pub fn f64_storage_of_parts(is_negative: bool, digits: u64, exponent: i64) -> Option<i64>
    ensures value { result ≡ finite binary64
        (storage_of binary64 (nearest_to_decimal binary64 is_negative digits exponent)) }
    ensures within { IfSome result (IsStorage binary64) }
{
    let number: f64 = fast_float::from_parts(is_negative, digits, exponent);
    let storage = storage_of_f64(number);
    if storage == INFINITY_64 || storage == -INFINITY_64 {
        None
    } else {
        Some(storage)
    }
}

/// The same for f32.
pub fn f32_storage_of_parts(is_negative: bool, digits: u64, exponent: i64) -> Option<i32>
    ensures value { result ≡ finite binary32
        (storage_of binary32 (nearest_to_decimal binary32 is_negative digits exponent)) }
    ensures within { IfSome result (IsStorage binary32) }
{
    let number: f32 = fast_float::from_parts(is_negative, digits, exponent);
    let storage = storage_of_f32(number);
    if storage == INFINITY_32 || storage == -INFINITY_32 {
        None
    } else {
        Some(storage)
    }
}

/// A short word of the f64 with this storage that is read as it: of zero `0.0`, of infinities `inf` and
/// `-inf`, and `NaN`.
pub fn word_of_f64_storage(storage: i64, buffer: &mut Buffer) -> &str
    requires { IsStorage binary64 storage }
    ensures reads { storage_written binary64 result.now ≡ Some storage }
    ensures text { IsFloatText binary64 16 4 result.now storage }
    ensures short { length result.now ≤ 25 }
    ensures ascii { IsAscii result.now }
{
    if storage == 0 {
        "0.0"
    } else if storage == INFINITY_64 {
        "inf"
    } else if storage == -INFINITY_64 {
        "-inf"
    } else {
        buffer.format(f64_of_storage(storage))
    }
}

/// The same for f32.
pub fn word_of_f32_storage(storage: i32, buffer: &mut Buffer) -> &str
    requires { IsStorage binary32 storage }
    ensures reads { storage_written binary32 result.now ≡ Some storage }
    ensures text { IsFloatText binary32 13 5 result.now storage }
    ensures short { length result.now ≤ 25 }
    ensures ascii { IsAscii result.now }
{
    if storage == 0 {
        "0.0"
    } else if storage == INFINITY_32 {
        "inf"
    } else if storage == -INFINITY_32 {
        "-inf"
    } else {
        buffer.format(f32_of_storage(storage))
    }
}

/// Whether a byte is a digit: then a word is no `inf` and no `nan`.
fn has_digit(word: &[u8]) -> bool
    ensures { result ≡ has_digit word.now }
{
    word.iter().any(|byte| byte.is_ascii_digit())
}
