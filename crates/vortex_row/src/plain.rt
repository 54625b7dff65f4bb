//! Plain values of columns, which are no scalars, and their keys.

ghost use Rattle.std.specs.Prelude.{◌≡◌, length};
ghost use Rattle.vortex_row.specs.Words.{HasSlot, Writes, capped, key, key_with, plain_content};

use crate::encode::{put, put_integer, put_string, put_upward};
use crate::lengths::{integer_length, string_length, upward_length};
use crate::options::SortOptions;
use crate::reader::inverted_if;
use crate::tags::{STRING, TEXT, null_byte, truth_byte};

/// A value without parts, as the buffers of a column have it. It has the key of the scalar with
/// this content.
#[derive(Clone, Copy, Debug, PartialEq, Eq)]
pub enum PlainValue<'a> {
    /// Null, in a column of any type.
    Null,
    /// A truth value.
    Bool(bool),
    /// An integer of an unsigned type, of any width.
    Unsigned(u64),
    /// An integer of a signed type, of any width.
    Signed(i64),
    /// A string.
    Utf8(&'a str),
    /// Bytes.
    Binary(&'a [u8]),
}

/// How many bytes the key of a plain value has, under any options. It is the greatest `usize` if
/// the key has more.
#[inline(always)]
pub fn plain_key_length(value: PlainValue<'_>) -> usize
    ensures { result ≡ capped (length (key (plain_content value.entry))) }
{
    match value {
        PlainValue::Null | PlainValue::Bool(_) => 1,
        PlainValue::Unsigned(number) => upward_length(number),
        PlainValue::Signed(number) => integer_length(number),
        PlainValue::Utf8(text) => string_length(text.as_bytes()),
        PlainValue::Binary(bytes) => string_length(bytes),
    }
}

/// Writes the key of a value in a column that is sorted so from this offset on, and answers the
/// offset after it. What stands before the offset stays, and what comes after the key may be
/// overwritten.
#[inline(always)]
#[tactic(auto, using(crate::proofs::SlotSteps::plain))]
pub fn write_plain_key(
    value: PlainValue<'_>,
    options: SortOptions,
    place: usize,
    room: &mut [u8],
) -> usize
    requires { HasSlot room.old place (key_with options (plain_content value)) }
    ensures { Writes (key_with options (plain_content value.entry)) place result room.old room.new }
{
    let invert = options.descending;
    match value {
        PlainValue::Null => put(null_byte(options.nulls_first), place, room),
        PlainValue::Bool(truth) => put(inverted_if(invert, truth_byte(truth)), place, room),
        PlainValue::Unsigned(number) => put_upward(number, invert, place, room),
        PlainValue::Signed(number) => put_integer(number, invert, place, room),
        PlainValue::Utf8(text) => put_string(TEXT, text.as_bytes(), invert, place, room),
        PlainValue::Binary(bytes) => put_string(STRING, bytes, invert, place, room),
    }
}
