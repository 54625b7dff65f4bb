//! Bitmaps in bytes, a word at a time.

ghost use Rattle.std.specs.Prelude.{◌≡◌, ◌+◌, ◌*◌, ◌<◌, ◌≤◌, ◌^◌, ℕ, Some, if◌then◌else◌, length, slice_index};
ghost use Rattle.truth_bitmaps.specs.Truths.{bit_in, is_set, truth_at, under_null};

use crate::blocks::word_count;
use crate::words::TruthWord;

/// Writes one truth value for each of so many rows whose bit is set in a bitmap, and another for the
/// others. The rows begin at this bit.
pub fn write_bits(
    words: &mut [TruthWord],
    bitmap: &[u8],
    offset: usize,
    count: usize,
    if_set: bool,
    if_clear: bool,
)
    requires words { count ≤ 64 * length words.old }
    requires end { offset + count < 2 ^ 64 }
    ensures rows { (row : ℕ) → row < count → truth_at words.new row
        ≡ Some (if (bit_in bitmap.now (offset + row)) then if_set else if_clear) }
    ensures size { length words.new ≡ length words.old }
{
    for k in 0..word_count(count) {
        let bits = word_from(bitmap, offset + 64 * k);
        words[k] = TruthWord::known(chosen(bits, if_set, if_clear));
    }
}

/// Unknown for each of so many rows that is null by a bitmap of validity, whose rows begin at this
/// bit. The others stay.
pub fn mark_nulls(words: &mut [TruthWord], validity: &[u8], offset: usize, count: usize)
    requires words { count ≤ 64 * length words.old }
    requires end { offset + count < 2 ^ 64 }
    ensures rows { (row : ℕ) → row < count → truth_at words.new row
        ≡ under_null (bit_in validity.now (offset + row)) (truth_at words.old row) }
    ensures size { length words.new ≡ length words.old }
{
    for k in 0..word_count(count) {
        words[k] = words[k].with_validity(word_from(validity, offset + 64 * k));
    }
}

/// A bit for each of 64 rows: this one if its bit is set, else the other.
fn chosen(bits: u64, if_set: bool, if_clear: bool) -> u64
    ensures { (row : ℕ) → row < 64 → is_set result row ≡ (if (is_set bits row) then if_set else if_clear) }
{
    match (if_set, if_clear) {
        (true, true) => u64::MAX,
        (true, false) => bits,
        (false, true) => bits ^ u64::MAX,
        (false, false) => 0,
    }
}

/// The bits of 64 rows, from a bit on. Those past the end are 0.
fn word_from(bitmap: &[u8], from: usize) -> u64
    ensures { (row : ℕ) → row < 64 → is_set result row ≡ bit_in bitmap.now (from + row) }
{
    let low = eight_bytes(bitmap, from / 8);
    let shift = from % 8;
    if shift == 0 {
        return low;
    }
    low >> shift | u64::from(byte_or_zero(bitmap, from / 8 + 8)) << (64 - shift)
}

/// Eight bytes from a place on, of which the first has the lowest bits. Those past the end are 0.
fn eight_bytes(bytes: &[u8], place: usize) -> u64
    requires { place + 8 < 2 ^ 64 }
    ensures { (bit : ℕ) → bit < 64 → is_set result bit ≡ bit_in bytes.now (8 * place + bit) }
{
    let mut word = 0;
    for k in 0..8 {
        word |= u64::from(byte_or_zero(bytes, place + k)) << (8 * k);
    }
    word
}

/// The byte at a place, or 0 past the end.
fn byte_or_zero(bytes: &[u8], place: usize) -> u8
    ensures { result ≡ slice_index bytes.now place }
{
    match bytes.get(place) {
        Some(byte) => *byte,
        None => 0,
    }
}
