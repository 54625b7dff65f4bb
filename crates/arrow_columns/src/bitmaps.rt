//! Bitmaps.

ghost use Rattle.std.specs.Prelude.{◌≡◌, ◌≢◌, ℕ, ◌<◌, ◌≤◌, ◌*◌, ◌/◌, drop, false, true, length};
ghost use Rattle.arrow_columns.specs.Words.{HasBits, bit_of, bitmap_length, is_valid};

/// How many bytes a bitmap of so many rows has.
pub fn bitmap_length(count: usize) -> usize
    ensures { result ≡ bitmap_length count }
{
    count.div_ceil(8)
}

/// Whether bit i is set.
pub fn is_set(bitmap: &[u8], i: usize) -> bool
    requires { i < 8 * length bitmap.now }
    ensures { result ≡ bit_of bitmap.now i }
{
    bitmap[i / 8] >> (i % 8) & 1 == 1
}

/// Writes bit i, which is 0. The other bits stay.
pub fn put_bit(bitmap: &mut [u8], i: usize, is_set: bool)
    requires within { i < 8 * length bitmap.old }
    requires clear { bit_of bitmap.old i ≡ false }
    ensures bit { bit_of bitmap.new i ≡ is_set }
    ensures others { (other : ℕ) → other ≢ i → bit_of bitmap.new other ≡ bit_of bitmap.old other }
    ensures rest { (k : ℕ) → i / 8 < k → drop k bitmap.new ≡ drop k bitmap.old }
{
    if is_set {
        bitmap[i / 8] |= 1 << (i % 8);
    }
}

/// Whether row i, which is below the end, is no null.
pub fn is_row_valid(validity: &[u8], i: usize, end: usize) -> bool
    requires bits { HasBits validity.now end }
    requires below { i < end }
    ensures { result ≡ is_valid validity.now i }
{
    validity.is_empty() || is_set(validity, i)
}

/// The first row that is no null, or the end.
pub fn first_valid(validity: &[u8], from: usize, end: usize) -> usize
    requires range { from ≤ end }
    requires bits { HasBits validity.now end }
    ensures from { from ≤ result }
    ensures end { result ≤ end }
    ensures nulls { (k : ℕ) → k < result → from ≤ k → is_valid validity.now k ≡ false }
    ensures valid { result < end → is_valid validity.now result ≡ true }
{
    for i in from..end {
        if is_row_valid(validity, i, end) {
            return i;
        }
    }
    end
}
