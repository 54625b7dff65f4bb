//! Keys of raw values, written into a slice from an offset on.

ghost use Rattle.std.specs.Prelude.{true};
ghost use Rattle.vortex_row.specs.Words.{AreHeld, HasSlot, IsHeld, Writes, content, contents, inverted, key, key_with};
ghost use Rattle.vortex_row.specs.Words.{keys, lent_raw, union_tree, value_tree, value_trees};

use super::bytes::{invert_between, put};
use super::numbers::put_number;
use super::strings::put_string;
use crate::options::SortOptions;
use crate::tags::{END, NULL, SEQUENCE, STRING, TAGGED, TEXT, TYPED, null_byte, truth_byte};
use vortex_value::{ScalarValue, UnionValue};

/// Writes the key of an optional raw value.
#[cycle(put)]
#[tactic(auto, using(crate::proofs::SlotSteps::shown))]
#[inline(always)]
fn put_part(part: Option<&ScalarValue>, place: usize, room: &mut [u8]) -> usize
    requires { HasSlot room.old place (key (content (lent_raw part))) }
    ensures written { Writes (key (content (lent_raw part.entry))) place result room.old room.new }
    ensures held { IsHeld (content (lent_raw part.entry)) }
{
    match part {
        Some(value) => put_value(value, place, room),
        None => put(NULL, place, room),
    }
}

/// Writes the key of a raw value.
#[cycle(put)]
#[tactic(auto, using(crate::proofs::SlotSteps::shown))]
#[inline(always)]
fn put_value(value: &ScalarValue, place: usize, room: &mut [u8]) -> usize
    requires { HasSlot room.old place (key (content (value_tree value.now))) }
    ensures written { Writes (key (content (value_tree value.now))) place result room.old room.new }
    ensures held { IsHeld (content (value_tree value.now)) }
{
    match value {
        ScalarValue::Bool(truth) => put(truth_byte(*truth), place, room),
        ScalarValue::Primitive(number) => put_number(number, false, place, room),
        ScalarValue::Utf8(text) => put_string(TEXT, text.inner().as_slice(), false, place, room),
        ScalarValue::Binary(bytes) => put_string(STRING, bytes.as_slice(), false, place, room),
        ScalarValue::Tuple(parts) => {
            let start = put(SEQUENCE, place, room);
            put_parts(parts, start, room)
        }
        ScalarValue::Union(union) => put_union(union, place, room),
        ScalarValue::Variant(_) => put(TYPED, place, room),
    }
}

/// Writes the keys of the parts, and their end.
#[cycle(put)]
#[tactic(auto, using(crate::proofs::SlotSteps::shown))]
fn put_parts(parts: &[Option<ScalarValue>], start: usize, room: &mut [u8]) -> usize
    requires { HasSlot room.old start (keys (contents (value_trees parts.now))) }
    ensures written { Writes (keys (contents (value_trees parts.now))) start result room.old room.new }
    ensures held { AreHeld (contents (value_trees parts.now)) }
{
    let mut place = start;
    for part in parts {
        place = put_part(part.as_ref(), place, room);
    }
    put(END, place, room)
}

/// Writes the key of a union: its id, and the key of its child.
#[cycle(put)]
#[tactic(auto, using(crate::proofs::SlotSteps::shown))]
fn put_union(union: &UnionValue, place: usize, room: &mut [u8]) -> usize
    requires { HasSlot room.old place (key (content (union_tree union.now))) }
    ensures written { Writes (key (content (union_tree union.now))) place result room.old room.new }
    ensures held { IsHeld (content (union_tree union.now)) }
{
    let id = put(TAGGED, place, room);
    let child = put(union.type_id, id, room);
    put_part(union.child.as_deref(), child, room)
}

/// Writes the key of a raw value in a column whose greater values come first.
#[tactic(auto, using(crate::proofs::SlotSteps::inverting))]
fn put_inverted(value: &ScalarValue, place: usize, room: &mut [u8]) -> usize
    requires { HasSlot room.old place (key (content (value_tree value.now))) }
    ensures written { Writes (inverted true (key (content (value_tree value.now)))) place result room.old room.new }
    ensures held { IsHeld (content (value_tree value.now)) }
{
    let next = put_value(value, place, room);
    invert_between(place, next, room);
    next
}

/// Writes the key of an optional raw value in a column.
#[tactic(auto, using(crate::proofs::SlotSteps::in_columns))]
pub(crate) fn put_column(
    value: Option<&ScalarValue>,
    options: SortOptions,
    place: usize,
    room: &mut [u8],
) -> usize
    requires { HasSlot room.old place (key_with options (content (lent_raw value))) }
    ensures written { Writes (key_with options (content (lent_raw value.entry))) place result room.old room.new }
    ensures held { IsHeld (content (lent_raw value.entry)) }
{
    match value {
        None => put(null_byte(options.nulls_first), place, room),
        Some(ScalarValue::Primitive(number)) => put_number(number, options.descending, place, room),
        Some(value) if options.descending => put_inverted(value, place, room),
        Some(value) => put_value(value, place, room),
    }
}
