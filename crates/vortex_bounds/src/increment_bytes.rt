//! The next bytes of as many.

ghost use Rattle.std.specs.Prelude.{◌≡◌, MatchBool, Some, None};
ghost use Rattle.vortex_bounds.specs.Words.{next_string};

/// Adds one to the bytes, read as one number with its first byte the highest. False if each byte
/// was 255.
pub(crate) fn increment_bytes(bytes: &mut [u8]) -> bool
    ensures { MatchBool result
        (next_string bytes.old ≡ Some bytes.new)
        (next_string bytes.old ≡ None) }
{
    for i in (0..bytes.len()).rev() {
        if bytes[i] < 255 {
            bytes[i] += 1;
            return true;
        }
        bytes[i] = 0;
    }
    false
}
