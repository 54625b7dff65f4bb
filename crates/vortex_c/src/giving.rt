//! What is given goes into the caller's buffer.

ghost use Rattle.std.specs.Prelude.{◌≡◌, ◌≢◌, ◌≤◌, ◌<◌, ◌⊎◌, drop, length, take};

use crate::status::{BUFFER_TOO_SMALL, GIVEN};

/// Writes values to a buffer, and how many they are; only that if the buffer is too small.
pub(crate) fn give<T: Copy>(values: &[T], buffer: &mut [T], count: &mut usize) -> u32
    ensures statuses { (result ≡ GIVEN) ⊎ (result ≡ BUFFER_TOO_SMALL) }
    ensures count { count.new ≡ length values.now }
    ensures within { result ≡ GIVEN → length values.now ≤ length buffer.old }
    ensures given { result ≡ GIVEN → take (length values.now) buffer.new ≡ values.now }
    ensures rest { result ≡ GIVEN
        → drop (length values.now) buffer.new ≡ drop (length values.now) buffer.old }
    ensures small { result ≡ BUFFER_TOO_SMALL → length buffer.old < length values.now }
    ensures kept { result ≢ GIVEN → buffer.new ≡ buffer.old }
{
    let needed = values.len();
    *count = needed;
    if needed <= buffer.len() {
        buffer[..needed].copy_from_slice(values);
        GIVEN
    } else {
        BUFFER_TOO_SMALL
    }
}
