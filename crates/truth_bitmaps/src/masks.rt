//! The rows that match, as the bits of bytes.

ghost use Rattle.std.specs.Prelude.{◌≡◌, ◌*◌, ◌+◌, ◌<◌, ◌≤◌, ℕ, drop, false, length};
ghost use Rattle.truth_bitmaps.specs.Truths.{AreMatches, byte_count, is_set};

use crate::words::TruthWord;

/// Writes a bit for each of so many rows, 1 if it is True of the row, from the least significant bit
/// on. The bits after the last row are 0, and the bytes after them stay.
pub fn write_matches(words: &[TruthWord], count: usize, mask: &mut [u8])
    requires words { count ≤ 64 * length words.now }
    requires buffer { byte_count count ≤ length mask.old }
    ensures matches { AreMatches words.now count mask.new }
    ensures rest { drop (byte_count count) mask.new ≡ drop (byte_count count) mask.old }
{
    let whole = count / 8;
    for place in 0..whole {
        mask[place] = byte_of(words[place / 8].is_true, place % 8);
    }
    if count % 8 != 0 {
        mask[whole] = low_bits(byte_of(words[whole / 8].is_true, whole % 8), count % 8);
    }
}

/// A byte of a word.
fn byte_of(word: u64, place: usize) -> u8
    requires { place < 8 }
    ensures { (bit : ℕ) → bit < 8 → is_set result bit ≡ is_set word (8 * place + bit) }
{
    (word >> (8 * place) & 255) as u8
}

/// The bits below this one. The others are 0.
fn low_bits(byte: u8, end: usize) -> u8
    requires { end < 8 }
    ensures below { (bit : ℕ) → bit < end → is_set result bit ≡ is_set byte bit }
    ensures rest { (bit : ℕ) → end ≤ bit → is_set result bit ≡ false }
{
    byte % (1 << end)
}
