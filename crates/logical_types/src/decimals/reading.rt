// SPDX-License-Identifier: Apache-2.0
//! Words of decimals, read.

ghost use Rattle.std.specs.Prelude.{◌≡◌, ◌<◌, ◌≤◌, ◌+◌, ◌*◌, ◌^◌, IfNone, IfSome, false, unsigned_abs};
ghost use Rattle.logical_types.specs.Decimals.{decimal_value, fraction_from, scaled, whole_from};

use crate::logical::DecimalType;

/// 10 ^ 37: a number below it may have one digit more.
const TENTH: u128 = 10_000_000_000_000_000_000_000_000_000_000_000_000;

/// A number with one digit more behind it, if that is below the limit.
fn with_digit(limit: u128, value: u128, digit: u8) -> Option<u128>
    requires small { limit ≤ 10 ^ 38 }
    requires digit { digit < 10 }
    ensures some { IfSome result (λ n. (n ≡ value * 10 + digit) × (n < limit)) }
    ensures none { IfNone result (limit ≤ value * 10 + digit) }
{
    if value >= TENTH {
        return None;
    }
    let next = value * 10 + digit as u128;
    if next < limit { Some(next) } else { None }
}

/// A value with so many zeros behind it, if that is below the limit.
fn scaled(limit: u128, places: u8, value: u128) -> Option<u128>
    requires small { limit ≤ 10 ^ 38 }
    requires below { value < limit }
    ensures value { result ≡ scaled limit places value }
    ensures below { IfSome result (λ n. n < limit) }
{
    let mut product = value;
    for _place in 0..places {
        match with_digit(limit, product, 0) {
            Some(next) => product = next,
            None => return None,
        }
    }
    Some(product)
}

/// What digits behind a point say after a value.
fn fraction_from(limit: u128, scale: u8, whole: u128, digits: &[u8]) -> Option<u128>
    requires small { limit ≤ 10 ^ 38 }
    requires below { whole < limit }
    ensures value { result ≡ fraction_from limit scale false whole digits.now }
    ensures below { IfSome result (λ n. n < limit) }
{
    let mut places = scale;
    let mut value = whole;
    let mut some = false;
    let mut rest = digits;
    while let [byte, tail @ ..] = rest {
        if !byte.is_ascii_digit() {
            return None;
        }
        if places == 0 {
            if *byte != b'0' {
                return None;
            }
        } else {
            match with_digit(limit, value, *byte - b'0') {
                Some(next) => value = next,
                None => return None,
            }
            places -= 1;
        }
        some = true;
        rest = tail;
    }
    if some {
        scaled(limit, places, value)
    } else {
        None
    }
}

/// What digits, and perhaps a point and more digits, say.
fn whole_from(limit: u128, scale: u8, digits: &[u8]) -> Option<u128>
    requires small { limit ≤ 10 ^ 38 }
    requires some { 0 < limit }
    ensures value { result ≡ whole_from limit scale false 0 digits.now }
    ensures below { IfSome result (λ n. n < limit) }
{
    let mut value = 0;
    let mut some = false;
    let mut rest = digits;
    while let [byte, tail @ ..] = rest {
        if byte.is_ascii_digit() {
            match with_digit(limit, value, *byte - b'0') {
                Some(next) => value = next,
                None => return None,
            }
            some = true;
            rest = tail;
        } else if some && *byte == b'.' {
            return fraction_from(limit, scale, value, tail);
        } else {
            return None;
        }
    }
    if some {
        scaled(limit, scale, value)
    } else {
        None
    }
}

/// The number that a word writes, times 10 ^ scale, if it is below the limit in size.
fn decimal_below(limit: u128, scale: u8, word: &[u8]) -> Option<i128>
    requires small { limit ≤ 10 ^ 38 }
    requires some { 0 < limit }
    ensures value { result ≡ decimal_value limit scale word.now }
    ensures below { IfSome result (λ z. unsigned_abs z < limit) }
{
    match word {
        [b'-', digits @ ..] => match whole_from(limit, scale, digits) {
            Some(size) => Some(-(size as i128)),
            None => None,
        },
        _ => match whole_from(limit, scale, word) {
            Some(size) => Some(size as i128),
            None => None,
        },
    }
}

/// The number that the word writes, times 10 ^ scale. None if it is no such number, if it has digits
/// that the scale has no place for, or if it has more digits than the precision.
pub fn decimal_of_word(decimal: DecimalType, word: &[u8]) -> Option<i128>
    ensures value { result ≡ decimal_value (10 ^ decimal.precision) decimal.scale word.now }
    ensures below { IfSome result (λ z. unsigned_abs z < 10 ^ decimal.precision) }
{
    decimal_below(decimal.limit(), decimal.scale, word)
}
