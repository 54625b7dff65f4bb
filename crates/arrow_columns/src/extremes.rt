//! The loops that gather the statistics of integers.

ghost use Rattle.std.specs.Prelude.{[], ◌≡◌, ◌≢◌, ℕ, ◌<◌, ◌≤◌, ◌-◌, ◌*◌, false, if◌then◌else◌, length};
ghost use Rattle.std.specs.Prelude.{slice_index_or, true};
ghost use Rattle.arrow_columns.specs.Words.{AreGathered, AreStatisticsOf, HasBits, cell_of_item, cells_from};
ghost use Rattle.arrow_columns.specs.Words.{is_valid, number_of};

use crate::bitmaps::{first_valid, is_set};
use crate::items::Item;
use crate::statistics::{IntegerExtremes, IntegerStatistics};

/// What is known of some rows, of which one at least is no null.
#[derive(Drop)]
pub struct Gathered<T> {
    pub null_count: usize,
    pub least: T,
    pub greatest: T,
}

/// The statistics of some rows.
pub fn statistics_of_rows<const N: usize, T: Item<N>>(
    validity: &[u8],
    items: &[[u8; N]],
    from: usize,
    end: usize,
) -> IntegerStatistics
    requires narrow { N ≤ 16 }
    requires range { from ≤ end }
    requires items { end ≤ length items.now }
    requires bits { HasBits validity.now end }
    ensures { AreStatisticsOf (cells_from validity.now
        (λ i. number_of T.kind (slice_index_or items.now i [])) from (end - from)) result }
{
    let start = first_valid(validity, from, end);
    if start == end {
        return IntegerStatistics {
            null_count: end - from,
            extremes: None,
        };
    }
    let gathered = gather::<N, T>(validity, items, from, start, end);
    IntegerStatistics {
        null_count: gathered.null_count,
        extremes: Some(IntegerExtremes {
            least: gathered.least.whole(),
            greatest: gathered.greatest.whole(),
        }),
    }
}

/// What some rows give, of which this is the first that is no null.
fn gather<const N: usize, T: Item<N>>(
    validity: &[u8],
    items: &[[u8; N]],
    from: usize,
    start: usize,
    end: usize,
) -> Gathered<T>
    requires narrow { N ≤ 16 }
    requires from { from ≤ start }
    requires range { start < end }
    requires items { end ≤ length items.now }
    requires bits { HasBits validity.now end }
    requires nulls { (k : ℕ) → k < start → from ≤ k → is_valid validity.now k ≡ false }
    requires valid { is_valid validity.now start ≡ true }
    ensures { AreGathered T.number
        (cell_of_item T.kind validity.now items.now) from end result }
{
    if validity.is_empty() {
        without_nulls::<N, T>(validity, items, from, end)
    } else {
        with_nulls::<N, T>(validity, items, from, start, end)
    }
}

/// What rows without a bitmap give: there is one at least.
pub fn without_nulls<const N: usize, T: Item<N>>(
    validity: &[u8],
    items: &[[u8; N]],
    from: usize,
    end: usize,
) -> Gathered<T>
    requires range { from < end }
    requires items { end ≤ length items.now }
    requires no_bitmap { length validity.now ≡ 0 }
    ensures { AreGathered T.number
        (cell_of_item T.kind validity.now items.now) from end result }
{
    let first = T::of_bytes(items[from]);
    let mut least = first;
    let mut greatest = first;
    for i in from + 1..end {
        let value = T::of_bytes(items[i]);
        least = least.lesser(value);
        greatest = greatest.greater(value);
    }
    Gathered {
        null_count: 0,
        least,
        greatest,
    }
}

/// What rows with a bitmap give, of which this is the first that is no null. Most go by whole bytes
/// of the bitmap.
fn with_nulls<const N: usize, T: Item<N>>(
    validity: &[u8],
    items: &[[u8; N]],
    from: usize,
    start: usize,
    end: usize,
) -> Gathered<T>
    requires narrow { N ≤ 16 }
    requires from { from ≤ start }
    requires range { start < end }
    requires items { end ≤ length items.now }
    requires bitmap { length validity.now ≢ 0 }
    requires bits { end ≤ 8 * length validity.now }
    requires nulls { (k : ℕ) → k < start → from ≤ k → is_valid validity.now k ≡ false }
    requires valid { is_valid validity.now start ≡ true }
    ensures { AreGathered T.number
        (cell_of_item T.kind validity.now items.now) from end result }
{
    let first = T::of_bytes(items[start]);
    let gathered = Gathered {
        null_count: start - from,
        least: first,
        greatest: first,
    };
    let first_byte = start / 8 + 1;
    let end_byte = end / 8;
    if end_byte <= first_byte {
        return by_rows::<N, T>(validity, items, from, start + 1, end, gathered);
    }
    let gathered = by_rows::<N, T>(validity, items, from, start + 1, 8 * first_byte, gathered);
    let gathered = by_bytes::<N, T>(validity, items, from, first_byte, end_byte, gathered);
    by_rows::<N, T>(validity, items, from, 8 * end_byte, end, gathered)
}

/// The same, with the rows up to an end.
fn by_rows<const N: usize, T: Item<N>>(
    validity: &[u8],
    items: &[[u8; N]],
    from: usize,
    start: usize,
    end: usize,
    gathered: Gathered<T>,
) -> Gathered<T>
    requires range { start ≤ end }
    requires from { from < start }
    requires items { end ≤ length items.now }
    requires bitmap { length validity.now ≢ 0 }
    requires bits { end ≤ 8 * length validity.now }
    requires gathered { AreGathered T.number
        (cell_of_item T.kind validity.now items.now) from start gathered }
    ensures { AreGathered T.number
        (cell_of_item T.kind validity.now items.now) from end result }
{
    let mut null_count = gathered.null_count;
    let mut least = gathered.least;
    let mut greatest = gathered.greatest;
    for i in start..end {
        if is_set(validity, i) {
            let value = T::of_bytes(items[i]);
            least = least.lesser(value);
            greatest = greatest.greater(value);
        } else {
            null_count += 1;
        }
    }
    Gathered {
        null_count,
        least,
        greatest,
    }
}

/// The same, with the rows of whole bytes of the bitmap. In place of what stands under a null each
/// extreme takes one that is known, which leaves it as it is.
fn by_bytes<const N: usize, T: Item<N>>(
    validity: &[u8],
    items: &[[u8; N]],
    from: usize,
    first_byte: usize,
    end_byte: usize,
    gathered: Gathered<T>,
) -> Gathered<T>
    requires range { first_byte ≤ end_byte }
    requires from { from < 8 * first_byte }
    requires items { 8 * end_byte ≤ length items.now }
    requires bits { end_byte ≤ length validity.now }
    requires gathered { AreGathered T.number (cell_of_item T.kind validity.now items.now)
        from (8 * first_byte) gathered }
    ensures { AreGathered T.number (cell_of_item T.kind validity.now items.now) from (8 * end_byte) result }
{
    let low = gathered.least;
    let high = gathered.greatest;
    let mut null_count = gathered.null_count;
    let mut least = gathered.least;
    let mut greatest = gathered.greatest;
    for b in first_byte..end_byte {
        let byte = validity[b];
        for j in 0..8 {
            let value = T::of_bytes(items[8 * b + j]);
            let is_valid = byte >> j & 1 == 1;
            least = least.lesser(one_of(is_valid, value, low));
            greatest = greatest.greater(one_of(is_valid, value, high));
        }
        null_count += byte.count_zeros() as usize;
    }
    Gathered {
        null_count,
        least,
        greatest,
    }
}

/// The first value if this is true, else the other.
fn one_of<T: Copy + Drop>(is_first: bool, first: T, other: T) -> T
    ensures { result ≡ (if is_first then first else other) }
{
    if is_first { first } else { other }
}
