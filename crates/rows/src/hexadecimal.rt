//! Bytes as hexadecimal digits.
#![tactic(auto, using(crate::proofs::HexWords::sized))]

ghost use Rattle.std.specs.Prelude.{◌*◌, ◌≡◌, ◌≤◌, IfOk, IsOk, MatchResult, None, Some, length, unwrap_or};
ghost use Rattle.rows.specs.Words.{byte_of_digits, decode_sized, hex_digit_value, hex_named};

use std::alloc::{AllocError, Global};
use vortex_dtype::{ByteBuffer, INLINE_BYTES};

/// The value of each byte as a hexadecimal digit of either case; 256 if it is none.
const DIGIT_VALUES: [u16; 256] = [
    256, 256, 256, 256, 256, 256, 256, 256, 256, 256, 256, 256, 256, 256, 256, 256, 256, 256, 256,
    256, 256, 256, 256, 256, 256, 256, 256, 256, 256, 256, 256, 256, 256, 256, 256, 256, 256, 256,
    256, 256, 256, 256, 256, 256, 256, 256, 256, 256, 0, 1, 2, 3, 4, 5, 6, 7, 8, 9, 256, 256, 256,
    256, 256, 256, 256, 10, 11, 12, 13, 14, 15, 256, 256, 256, 256, 256, 256, 256, 256, 256, 256,
    256, 256, 256, 256, 256, 256, 256, 256, 256, 256, 256, 256, 256, 256, 256, 256, 10, 11, 12, 13,
    14, 15, 256, 256, 256, 256, 256, 256, 256, 256, 256, 256, 256, 256, 256, 256, 256, 256, 256,
    256, 256, 256, 256, 256, 256, 256, 256, 256, 256, 256, 256, 256, 256, 256, 256, 256, 256, 256,
    256, 256, 256, 256, 256, 256, 256, 256, 256, 256, 256, 256, 256, 256, 256, 256, 256, 256, 256,
    256, 256, 256, 256, 256, 256, 256, 256, 256, 256, 256, 256, 256, 256, 256, 256, 256, 256, 256,
    256, 256, 256, 256, 256, 256, 256, 256, 256, 256, 256, 256, 256, 256, 256, 256, 256, 256, 256,
    256, 256, 256, 256, 256, 256, 256, 256, 256, 256, 256, 256, 256, 256, 256, 256, 256, 256, 256,
    256, 256, 256, 256, 256, 256, 256, 256, 256, 256, 256, 256, 256, 256, 256, 256, 256, 256, 256,
    256, 256, 256, 256, 256, 256, 256, 256, 256, 256, 256, 256, 256, 256, 256, 256, 256, 256, 256,
    256, 256, 256,
];

/// The bytes that the hexadecimal digits represent, two a byte. `None` if their number is odd, or
/// one is not a digit. At most 44 digits take no memory.
pub fn hex_named(alloc: Global, word: &[u8]) -> Result<Option<ByteBuffer>, AllocError>
    ensures bytes { IfOk result (λ bytes. bytes ≡ hex_named word.now) }
    ensures short { length word.now ≤ 2 * INLINE_BYTES → IsOk result }
{
    if word.len() <= 2 * INLINE_BYTES {
        Ok(short_hex(alloc, word))
    } else {
        long_hex(alloc, word)
    }
}

/// The bytes that at most 44 digits represent. Takes no memory.
fn short_hex(alloc: Global, word: &[u8]) -> Option<ByteBuffer>
    requires { length word.now ≤ 2 * INLINE_BYTES }
    ensures { result ≡ hex_named word.now }
{
    let mut room = [0; INLINE_BYTES];
    let bytes = &mut room[..word.len() / 2];
    read_digits(word, bytes)?;
    match ByteBuffer::from_slice(alloc, bytes) {
        Ok(value) => Some(value),
        Err(_) => unreachable!(),
    }
}

/// The bytes that the digits represent, by way of a vector.
fn long_hex(alloc: Global, word: &[u8]) -> Result<Option<ByteBuffer>, AllocError>
    ensures { IfOk result (λ bytes. bytes ≡ hex_named word.now) }
{
    let mut bytes = vec![in alloc; 0; word.len() / 2]?;
    if read_digits(word, bytes.as_mut_slice()).is_none() {
        return Ok(None);
    }
    let value = ByteBuffer::from_vec(bytes).map_err(|_| AllocError)?;
    Ok(Some(value))
}

/// Reads two digits into each byte. `None` if there are not just as many, or one is not a digit.
///
/// By a table. By `hex::decode_to_slice`, which compares each digit with the ends of three ranges,
/// lines of all commands take a fifth more instructions.
#[inline(always)]
fn read_digits(word: &[u8], bytes: &mut [u8]) -> Option<()>
    ensures { MatchResult (decode_sized word.now (length bytes.old))
        (λ read. (result ≡ Some tt) × (bytes.new ≡ read))
        (λ _. result ≡ None) }
{
    if word.len() % 2 != 0 || word.len() / 2 != bytes.len() {
        return None;
    }
    for i in 0..bytes.len() {
        bytes[i] = byte_of(word[2 * i], word[2 * i + 1])?;
    }
    Some(())
}

/// The byte of two digits, if both are.
#[inline(always)]
fn byte_of(high: u8, low: u8) -> Option<u8>
    ensures { result ≡ byte_of_digits high low }
{
    u8::try_from(16 * value_of(high) + value_of(low)).ok()
}

/// The value of a digit of either case; 256 if the byte is none.
#[inline(always)]
fn value_of(digit: u8) -> u16
    ensures value { result ≡ unwrap_or (hex_digit_value digit) 256 }
    ensures small { result ≤ 256 }
{
    DIGIT_VALUES[digit as usize]
}
