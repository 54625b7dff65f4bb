//! Keys of numbers, written into a slice from an offset on.

ghost use Rattle.std.specs.Prelude.{◌≡◌, ◌≤◌, ◌∷◌, drop, pos};
ghost use Rattle.vortex_row.specs.Words.{HasSlot, IsWhole, Writes, big_endian, inverted, side_byte, side_key};
ghost use Rattle.vortex_row.specs.Words.{whole_key, whole_of};

use super::bytes::{put, put_all};
use crate::lengths::leading_zero_bytes;
use crate::reader::{inverted_again, inverted_if, inverted_word};
use crate::tags::{GREATEST, LEAST};
use vortex_pvalue::PValue;

/// A number that is not below zero, and that it is not below.
#[inline(always)]
fn upward(number: u64) -> (u64, bool)
    ensures { side_key result.1 result.0 ≡ whole_key (pos number) }
{
    (number, false)
}

/// How far a number is from zero, and whether it is below.
#[inline(always)]
fn sides(number: i64) -> (u64, bool)
    ensures { side_key result.1 result.0 ≡ whole_key number }
{
    if number < 0 {
        (number.unsigned_abs(), true)
    } else {
        (number as u64, false)
    }
}

/// How far a number is from zero, and whether it is below.
#[inline(always)]
fn number_sides(number: &PValue) -> (u64, bool)
    ensures key { side_key result.1 result.0 ≡ whole_key (whole_of number.now) }
    ensures held { IsWhole (whole_of number.now) }
{
    match *number {
        PValue::U8(n) => upward(u64::from(n)),
        PValue::U16(n) => upward(u64::from(n)),
        PValue::U32(n) => upward(u64::from(n)),
        PValue::U64(n) => upward(n),
        PValue::I8(n) => sides(i64::from(n)),
        PValue::I16(n) => sides(i64::from(n)),
        PValue::I32(n) => sides(i64::from(n)),
        PValue::I64(n) => sides(n),
    }
}

/// The first byte of the key of a number, so many of whose eight bytes are not used.
#[inline(always)]
fn side_byte(is_below: bool, unused: usize) -> u8
    requires { unused ≤ 8 }
    ensures { result ≡ side_byte is_below unused }
{
    if is_below {
        LEAST + unused as u8
    } else {
        GREATEST - unused as u8
    }
}

/// Writes a number's first byte, and after it its eight bytes but those that are not used. They
/// are written at once if all eight fit, the used ones first.
#[inline(always)]
#[tactic(auto, using(crate::proofs::SlotSteps::numbers))]
fn put_used(first: u8, number: u64, unused: usize, place: usize, room: &mut [u8]) -> usize
    requires few { unused ≤ 8 }
    requires room { HasSlot room.old place (first ∷ drop unused (big_endian 8 number)) }
    ensures { Writes (first ∷ drop unused (big_endian 8 number)) place result room.old room.new }
{
    let start = put(first, place, room);
    if room.len() - start < 8 {
        put_all(&number.to_be_bytes()[unused..], start, room)
    } else {
        let shifted = number.wrapping_shl(8 * unused as u32);
        let end = put_all(&shifted.to_be_bytes(), start, room);
        end - unused
    }
}

/// Writes the key of the number that is so far from zero, inverted if that is asked for. No branch
/// hangs on the side of zero: one would be guessed wrong at every other number of a column of both.
#[inline(always)]
fn put_side(distance: u64, is_below: bool, invert: bool, place: usize, room: &mut [u8]) -> usize
    requires { HasSlot room.old place (side_key is_below distance) }
    ensures { Writes (inverted invert (side_key is_below distance)) place result room.old room.new }
{
    let unused = leading_zero_bytes(distance);
    let first = inverted_if(invert, side_byte(is_below, unused));
    let word = inverted_word(inverted_again(is_below, invert), distance);
    put_used(first, word, unused, place, room)
}

/// Writes the key of a number that is not below zero, inverted if that is asked for.
#[inline(always)]
pub(crate) fn put_upward(number: u64, invert: bool, place: usize, room: &mut [u8]) -> usize
    requires { HasSlot room.old place (whole_key (pos number)) }
    ensures { Writes (inverted invert (whole_key (pos number))) place result room.old room.new }
{
    let (distance, is_below) = upward(number);
    put_side(distance, is_below, invert, place, room)
}

/// Writes the key of a number that may be below zero, inverted if that is asked for.
#[inline(always)]
pub(crate) fn put_integer(number: i64, invert: bool, place: usize, room: &mut [u8]) -> usize
    requires { HasSlot room.old place (whole_key number) }
    ensures { Writes (inverted invert (whole_key number)) place result room.old room.new }
{
    let (distance, is_below) = sides(number);
    put_side(distance, is_below, invert, place, room)
}

/// Writes the key of a number, inverted if that is asked for.
#[inline(always)]
pub(super) fn put_number(number: &PValue, invert: bool, place: usize, room: &mut [u8]) -> usize
    requires { HasSlot room.old place (whole_key (whole_of number.now)) }
    ensures written { Writes (inverted invert (whole_key (whole_of number.now)))
        place result room.old room.new }
    ensures held { IsWhole (whole_of number.now) }
{
    let (distance, is_below) = number_sides(number);
    put_side(distance, is_below, invert, place, room)
}
