// SPDX-License-Identifier: Apache-2.0
//! Decimals of more than 18 digits as 16 bytes, which sort as the numbers do.

ghost use Rattle.std.specs.Prelude.{◌≡◌, ◌≢◌, ◌+ℤ◌, IfNone, IfSome, length, pos};
ghost use Rattle.std.specs.Int.{bytes_high_first};
ghost use Rattle.logical_types.specs.Storing.{decimal_bytes};

/// The bit of the sign.
const SIGN: u128 = 0x8000_0000_0000_0000_0000_0000_0000_0000;

/// The bytes of a number: its 128 bits with that of the sign turned, the greatest byte first.
pub fn bytes_of_decimal(number: i128) -> [u8; 16]
    ensures { result ≡ decimal_bytes number }
{
    turned(number).to_be_bytes()
}

/// A number with the bit of the sign turned: more by 2 ^ 127.
fn turned(number: i128) -> u128
    ensures { pos result ≡ number +ℤ pos 170_141_183_460_469_231_731_687_303_715_884_105_728 }
{
    if number < 0 {
        (number - i128::MIN) as u128
    } else {
        number as u128 + SIGN
    }
}

/// The number of 16 bytes. None of bytes of another length.
pub fn decimal_of_bytes(bytes: &[u8]) -> Option<i128>
    ensures some { IfSome result (λ z. decimal_bytes z ≡ bytes.now) }
    ensures none { IfNone result (length bytes.now ≢ 16) }
{
    if bytes.len() != 16 {
        return None;
    }
    Some(turned_back(big_endian(bytes)))
}

/// The number of bytes, the greatest first.
fn big_endian(bytes: &[u8]) -> u128
    requires { length bytes.now ≡ 16 }
    ensures { bytes_high_first 16 result ≡ bytes.now }
{
    let mut value = 0;
    for byte in bytes {
        value = value * 256 + *byte as u128;
    }
    value
}

/// A number with the bit of the sign turned back.
fn turned_back(value: u128) -> i128
    ensures { pos value ≡ result +ℤ pos 170_141_183_460_469_231_731_687_303_715_884_105_728 }
{
    if value >= SIGN {
        (value - SIGN) as i128
    } else {
        value as i128 + i128::MIN
    }
}
