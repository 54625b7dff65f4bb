//! Bytes that are written into a slice from an offset on.

ghost use Rattle.std.specs.Prelude.{[], ◌++◌, ◌-◌, ◌≡◌, ◌≤◌, ◌∷◌, take, drop, true, length};
ghost use Rattle.vortex_row.specs.Words.{HasSlot, Writes, inverted};

/// Writes one byte.
#[inline(always)]
#[tactic(auto, using(crate::proofs::SlotSteps::bytes))]
pub(crate) fn put(byte: u8, place: usize, room: &mut [u8]) -> usize
    requires { HasSlot room.old place (byte ∷ []) }
    ensures { Writes (byte ∷ []) place result room.old room.new }
{
    room[place] = byte;
    place + 1
}

/// Writes these bytes.
#[inline(always)]
#[tactic(auto, using(crate::proofs::SlotSteps::bytes))]
pub(crate) fn put_all(bytes: &[u8], place: usize, room: &mut [u8]) -> usize
    requires { HasSlot room.old place bytes.now }
    ensures { Writes bytes.now place result room.old room.new }
{
    let next = place + bytes.len();
    room[place..next].copy_from_slice(bytes);
    next
}

/// Inverts each byte, which reverses the order of strings of them.
fn invert(bytes: &mut [u8])
    ensures { bytes.new ≡ inverted true bytes.old }
{
    for byte in bytes.iter_mut() {
        *byte = 255 - *byte;
    }
}

/// Inverts each byte from this offset to that.
pub(crate) fn invert_between(start: usize, end: usize, room: &mut [u8])
    requires order { start ≤ end }
    requires within { end ≤ length room.old }
    ensures { room.new ≡ take start room.old
        ++ inverted true (take (end - start) (drop start room.old))
        ++ drop (end - start) (drop start room.old) }
{
    invert(&mut room[start..end]);
}
