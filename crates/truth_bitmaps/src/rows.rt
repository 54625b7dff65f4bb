//! A test of each row, as words.

ghost use Rattle.std.specs.Prelude.{◌≡◌, ℕ, ◌+◌, ◌*◌, ◌^◌, ◌<◌, ◌≤◌, ◌==◌, Bool, Some, false, length, slice_index};
ghost use Rattle.truth_bitmaps.specs.Truths.{is_set, truth_at};

use crate::words::TruthWord;
use std::simd::prelude::*;

/// Writes whether a test holds of each of so many rows. The compiler makes one loop of it and the
/// test, which tests several rows at once.
#[inline(always)]
pub fn write_rows<F: Fn(usize) -> bool>(words: &mut [TruthWord], count: usize, holds: F)
    requires words { count ≤ 64 * length words.old }
    requires callable { (row : ℕ) → row < count → F.pre holds row }
    ensures rows { (row : ℕ) → row < count
        → (b : Bool) × F.post holds row b × (truth_at words.new row ≡ Some b) }
    ensures size { length words.new ≡ length words.old }
{
    let whole = count / 64;
    for k in 0..whole {
        words[k] = TruthWord::known(bits_of(64 * k, 64, &holds));
    }
    if count % 64 != 0 {
        words[whole] = TruthWord::known(bits_of(64 * whole, count % 64, &holds));
    }
}

/// A bit for each of so many rows from one on, 1 if the test holds. The bits after them are 0.
///
/// Each row is tested into a byte, since the compiler then tests several rows at once.
#[inline(always)]
fn bits_of<F: Fn(usize) -> bool>(from: usize, count: usize, holds: &F) -> u64
    requires count { count ≤ 64 }
    requires end { from + count < 2 ^ 64 }
    requires callable { (row : ℕ) → row < count → F.pre holds.now (from + row) }
    ensures rows { (row : ℕ) → row < count → F.post holds.now (from + row) (is_set result row) }
    ensures rest { (row : ℕ) → count ≤ row → row < 64 → is_set result row ≡ false }
{
    let mut tests = [0; 64];
    for row in 0..count {
        tests[row] = u8::from(holds(from + row));
    }
    ones_of(tests)
}

/// A bit for each byte, 1 if the byte is 1.
#[inline(always)]
fn ones_of(bytes: [u8; 64]) -> u64
    ensures { (row : ℕ) → row < 64 → is_set result row ≡ (slice_index bytes row == 1) }
{
    u8x64::from_array(bytes)
        .simd_eq(u8x64::splat(1))
        .to_bitmask()
}
