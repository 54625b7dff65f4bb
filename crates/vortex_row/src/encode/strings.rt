//! Keys of strings, written into a slice from an offset on.

ghost use Rattle.std.specs.Prelude.{[], ◌++◌, ◌<◌, ◌≡◌, ◌≤◌, ◌∷◌, MatchOption, drop, length, slice_index, take};
ghost use Rattle.vortex_row.specs.Words.{AreBytes, HasSlot, Writes, escape, escaped, inverted};

use super::bytes::{invert_between, put, put_all};
use crate::lengths::is_plain;
use crate::tags::{END, ESCAPE, PLAIN};

/// Writes a byte of a string that is written as two.
#[tactic(auto, using(crate::proofs::SlotSteps::doubled))]
fn put_doubled(byte: u8, place: usize, room: &mut [u8]) -> usize
    requires low { byte < 2 }
    requires room { HasSlot room.old place (escape byte) }
    ensures { Writes (escape byte) place result room.old room.new }
{
    put_all(&[ESCAPE, byte + 1], place, room)
}

/// The offset of the first byte that is written as two, if there is one.
#[tactic(auto, using(crate::proofs::EncodeSteps::doubled))]
fn doubled_place(bytes: &[u8]) -> Option<usize>
    ensures { MatchOption result
        (escaped bytes.now ≡ bytes.now ++ 0 ∷ [])
        (λ place. (place < length bytes.now) × (slice_index bytes.now place < 2) × (escaped bytes.now
        ≡ take place bytes.now ++ escaped (drop place bytes.now))) }
{
    for place in 0..bytes.len() {
        if bytes[place] < PLAIN {
            return Some(place);
        }
    }
    None
}

/// Writes a string run by run: the bytes before one that is written as two, and that one.
#[tactic(auto, using(crate::proofs::SlotSteps::strings))]
fn put_runs(bytes: &[u8], start: usize, room: &mut [u8]) -> usize
    requires { HasSlot room.old start (escaped bytes.now) }
    ensures { Writes (escaped bytes.now) start result room.old room.new }
{
    let mut rest = bytes;
    let mut place = start;
    while let Some(end) = doubled_place(rest) {
        place = put_all(&rest[..end], place, room);
        place = put_doubled(rest[end], place, room);
        rest = &rest[end + 1..];
    }
    place = put_all(rest, place, room);
    put(END, place, room)
}

/// How a byte of a string is written: as the first one, or both, of these two bytes.
#[inline(always)]
#[tactic(auto, using(crate::proofs::EncodeSteps::doubled))]
fn escape_of(byte: u8) -> (u8, u8, usize)
    ensures bytes { take result.2 (result.0 ∷ result.1 ∷ []) ≡ escape byte }
    ensures some { 1 ≤ result.2 }
    ensures few { result.2 ≤ 2 }
{
    let next = byte.wrapping_add(1);
    if byte < PLAIN {
        (ESCAPE, next, 2)
    } else {
        (byte, next, 1)
    }
}

/// Writes a string of at most 32 bytes. It makes two bytes of each and keeps one or both, so that
/// no branch hangs on where the doubled bytes stand. A list of strings of 16 bytes, 2 of them
/// doubled, takes 382 instructions a string with this and `doubled_of_few`, and 545 without both.
#[tactic(auto, using(crate::proofs::SlotSteps::strings))]
fn put_few(bytes: &[u8], start: usize, room: &mut [u8]) -> usize
    requires few { length bytes.now ≤ 32 }
    requires room { HasSlot room.old start (escaped bytes.now) }
    ensures { Writes (escaped bytes.now) start result room.old room.new }
{
    let mut made = [0u8; 66];
    let mut place = 0usize;
    for byte in bytes {
        let (first, second, count) = escape_of(*byte);
        made[place] = first;
        made[place + 1] = second;
        place += count;
    }
    made[place] = END;
    put_all(&made[..place + 1], start, room)
}

/// Writes a string of which some bytes are written as two.
#[inline(never)]
#[tactic(auto, using(crate::proofs::SlotSteps::strings))]
fn put_special(bytes: &[u8], place: usize, room: &mut [u8]) -> usize
    requires { HasSlot room.old place (escaped bytes.now) }
    ensures { Writes (escaped bytes.now) place result room.old room.new }
{
    if bytes.len() <= 32 {
        put_few(bytes, place, room)
    } else {
        put_runs(bytes, place, room)
    }
}

/// Writes the bytes of a string, and its end.
#[inline(always)]
#[tactic(auto, using(crate::proofs::SlotSteps::strings))]
fn put_escaped(bytes: &[u8], place: usize, room: &mut [u8]) -> usize
    requires { HasSlot room.old place (escaped bytes.now) }
    ensures { Writes (escaped bytes.now) place result room.old room.new }
{
    if is_plain(bytes) {
        let end = put_all(bytes, place, room);
        put(END, end, room)
    } else {
        put_special(bytes, place, room)
    }
}

/// Writes the key of a string that begins with this byte, inverted if that is asked for.
#[inline(always)]
#[tactic(auto, using(crate::proofs::SlotSteps::strings))]
pub(crate) fn put_string(
    first: u8,
    bytes: &[u8],
    invert: bool,
    place: usize,
    room: &mut [u8],
) -> usize
    requires { HasSlot room.old place (first ∷ escaped bytes.now) }
    ensures written { Writes (inverted invert (first ∷ escaped bytes.now)) place result room.old room.new }
    ensures held { AreBytes bytes.now }
{
    let start = put(first, place, room);
    let end = put_escaped(bytes, start, room);
    if invert {
        invert_between(place, end, room);
    }
    end
}
