// SPDX-License-Identifier: Apache-2.0
//! Where a decimal number lies among the values of a type.

ghost use Rattle.std.specs.Prelude.{◌≡◌, ◌<◌, ◌≤◌, ◌-◌, ◌/◌, ◌%◌, ◌^◌, IfNone, IfSome, None, neg_ℤ, option_map, pos};
ghost use Rattle.logical_types.specs.Places.{IsPlaceOf, IsPlaceOfWord, fine_scale, number_at, places_behind};
ghost use Rattle.logical_types.specs.Shapes.{IsAmong, place_at, place_below_zero, place_from_zero, place_in};

use super::reading::decimal_of_word;
use crate::logical::DecimalType;

/// Where a number lies among the values of a type of decimals.
#[derive(Clone, Copy, Debug, PartialEq, Eq)]
pub enum DecimalPlace {
    /// It is this value.
    At(i128),
    /// It lies between this value and the next.
    Behind(i128),
    /// It is below every value.
    BelowAll,
    /// It is above every value.
    AboveAll,
}

/// Where the number that a word writes lies among the values of a type: so a comparison with it is one
/// with a value. None if the word writes no number, or one of more than 38 digits.
pub fn place_of_word(decimal: DecimalType, word: &[u8]) -> Option<DecimalPlace>
    ensures some { IfSome result (IsPlaceOfWord decimal word.now) }
    ensures none { IfNone result (number_at (fine_scale decimal.scale word.now) word.now ≡ None) }
    ensures value { result ≡ option_map
        (place_at (10 ^ decimal.precision) (10 ^ (fine_scale decimal.scale word.now - decimal.scale)))
        (number_at (fine_scale decimal.scale word.now) word.now) }
{
    let scale = fine_scale(decimal.scale, word)?;
    let fine = DecimalType {
        precision: 38,
        scale,
    };
    let number = decimal_of_word(fine, word)?;
    let unit = unit_between(decimal.scale, scale);
    Some(place_of(decimal.limit(), unit, number))
}

/// The same as one place: at a value that the word writes, or else where its number lies. None if it
/// writes no number, or one that is no value and has more than 38 digits.
#[tactic(auto, unfolding(crate::specs::Shapes::place_in))]
pub fn place_among_values(decimal: DecimalType, word: &[u8]) -> Option<DecimalPlace>
    ensures value { result ≡ place_in decimal.precision decimal.scale word.now }
    ensures within { IfSome result (IsAmong (10 ^ decimal.precision)) }
{
    match decimal_of_word(decimal, word) {
        Some(number) => Some(DecimalPlace::At(number)),
        None => place_of_word(decimal, word),
    }
}

/// As many places as the word has, or as the type. None if that is more than 38.
fn fine_scale(scale: u8, word: &[u8]) -> Option<u8>
    requires { scale ≤ 38 }
    ensures some { IfSome result (λ n. (n ≡ fine_scale scale word.now) × (n ≤ 38) × (scale ≤ n)) }
    ensures none { IfNone result (38 < fine_scale scale word.now) }
{
    let places = places_behind(word);
    if places > 38 {
        return None;
    }
    Some(scale.max(places as u8))
}

/// How many bytes stand behind the first point of a word.
fn places_behind(word: &[u8]) -> usize
    ensures { result ≡ places_behind word.now }
{
    let mut rest = word;
    while let [byte, tail @ ..] = rest {
        if *byte == b'.' {
            return tail.len();
        }
        rest = tail;
    }
    0
}

/// How many units at one scale are a unit at another.
fn unit_between(scale: u8, fine: u8) -> u128
    requires order { scale ≤ fine }
    requires small { fine ≤ 38 }
    ensures value { result ≡ 10 ^ (fine - scale) }
    ensures some { 0 < result }
{
    10u128.pow((fine - scale) as u32)
}

/// Where a number lies among the multiples of a unit whose factors are below a limit in size.
fn place_of(limit: u128, unit: u128, number: i128) -> DecimalPlace
    requires some { 0 < limit }
    requires small { limit ≤ 10 ^ 38 }
    requires unit { 0 < unit }
    ensures lies { IsPlaceOf limit unit number result }
    ensures value { result ≡ place_at limit unit number }
{
    if number < 0 {
        place_below_zero(limit, unit, number.unsigned_abs())
    } else {
        place_from_zero(limit, unit, number as u128)
    }
}

fn place_from_zero(limit: u128, unit: u128, size: u128) -> DecimalPlace
    requires some { 0 < limit }
    requires small { limit ≤ 10 ^ 38 }
    requires unit { 0 < unit }
    ensures lies { IsPlaceOf limit unit (pos size) result }
    ensures value { result ≡ place_from_zero limit (size / unit) (size % unit) }
{
    let factor = size / unit;
    let rest = size % unit;
    if rest == 0 && factor < limit {
        DecimalPlace::At(factor as i128)
    } else if rest != 0 && factor < limit - 1 {
        DecimalPlace::Behind(factor as i128)
    } else {
        DecimalPlace::AboveAll
    }
}

fn place_below_zero(limit: u128, unit: u128, size: u128) -> DecimalPlace
    requires some { 0 < limit }
    requires small { limit ≤ 10 ^ 38 }
    requires unit { 0 < unit }
    ensures lies { IsPlaceOf limit unit (neg_ℤ (pos size)) result }
    ensures value { result ≡ place_below_zero limit (size / unit) (size % unit) }
{
    let factor = size / unit;
    let rest = size % unit;
    if rest == 0 && factor < limit {
        DecimalPlace::At(-(factor as i128))
    } else if rest != 0 && factor < limit - 1 {
        DecimalPlace::Behind(-(factor as i128) - 1)
    } else {
        DecimalPlace::BelowAll
    }
}
