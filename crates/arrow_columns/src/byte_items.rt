//! The rows of a column of strings or bytes, by its offsets.

ghost use Rattle.std.specs.Prelude.{[], ◌≡◌, ℕ, ◌+◌, ◌<◌, ◌≤◌, IsUtf8, List, MatchBool, MatchOption, length};
ghost use Rattle.std.specs.Prelude.{slice_index_or, true};
ghost use Rattle.std.specs.Bool.{OnTrue};
ghost use Rattle.std.specs.Str.{IsCharBoundary};
ghost use Rattle.arrow_columns.specs.Words.{AreRows, GoUp, HasBits, IsRow, bytes_between, is_valid, offset_of};

use crate::bitmaps::is_row_valid;
use crate::offsets::Offset;
use simdutf8::is_utf8;

/// The first row whose offsets go down, or past the end of the bytes.
pub fn first_bad<const N: usize, T: Offset<N>>(
    bytes: &[u8],
    offsets: &[[u8; N]],
    from: usize,
    end: usize,
) -> Option<usize>
    requires narrow { N ≤ 8 }
    requires range { from ≤ end }
    requires offsets { end < length offsets.now }
    ensures { let offset : ℕ → ℕ = λ i. offset_of T.width (slice_index_or offsets.now i []) in
        MatchOption result (AreRows T.width bytes.now offset from end)
        (λ k. (k < end) × (from ≤ k) × AreRows T.width bytes.now offset from k
        × ¬ (IsRow T.width bytes.now offset k)) }
{
    if are_rows::<N, T>(bytes, offsets, from, end) {
        return None;
    }
    let limit = bytes.len().min(T::largest());
    for i in from..end {
        let begin = T::of_bytes(offsets[i]);
        let stop = T::of_bytes(offsets[i + 1]);
        if stop < begin || limit < stop {
            return Some(i);
        }
    }
    None
}

/// Offset i.
#[inline(always)]
pub fn read_offset<const N: usize, T: Offset<N>>(offsets: &[[u8; N]], i: usize) -> usize
    requires { i < length offsets.now }
    ensures { result ≡ offset_of T.width (slice_index_or offsets.now i []) }
{
    T::of_bytes(offsets[i])
}

/// Whether the offsets of each row are good. It looks at all of them, so that several are tested at
/// once.
fn are_rows<const N: usize, T: Offset<N>>(
    bytes: &[u8],
    offsets: &[[u8; N]],
    from: usize,
    end: usize,
) -> bool
    requires narrow { N ≤ 8 }
    requires range { from ≤ end }
    requires offsets { end < length offsets.now }
    ensures { let offset : ℕ → ℕ = λ i. offset_of T.width (slice_index_or offsets.now i []) in
        OnTrue result (AreRows T.width bytes.now offset from end) }
{
    let limit = bytes.len().min(T::largest());
    let last = read_offset::<N, T>(offsets, end);
    if limit < last {
        return false;
    }
    go_up::<N, T>(offsets, from, end)
}

/// Whether the offsets of no row go down.
fn go_up<const N: usize, T: Offset<N>>(offsets: &[[u8; N]], from: usize, end: usize) -> bool
    requires narrow { N ≤ 8 }
    requires range { from ≤ end }
    requires offsets { end < length offsets.now }
    ensures { let offset : ℕ → ℕ = λ i. offset_of T.width (slice_index_or offsets.now i []) in
        OnTrue result (GoUp offset from end) }
{
    let mut is_up = true;
    for i in from..end {
        let begin = read_offset::<N, T>(offsets, i);
        let stop = read_offset::<N, T>(offsets, i + 1);
        if stop < begin {
            is_up = false;
        }
    }
    is_up
}

/// The bytes of row i.
pub fn row<'a, const N: usize, T: Offset<N>>(
    bytes: &'a [u8],
    offsets: &[[u8; N]],
    i: usize,
) -> &'a [u8]
    requires offsets { i + 1 < length offsets.now }
    requires row { IsRow T.width bytes.now (λ i. offset_of T.width (slice_index_or offsets.now i [])) i }
    ensures { result.now ≡ bytes_between bytes.now (λ i. offset_of T.width (slice_index_or offsets.now i [])) i }
{
    &bytes[T::of_bytes(offsets[i])..T::of_bytes(offsets[i + 1])]
}

/// The first row that is no null and no UTF-8.
pub fn first_not_utf8<const N: usize, T: Offset<N>>(
    validity: &[u8],
    bytes: &[u8],
    offsets: &[[u8; N]],
    from: usize,
    end: usize,
) -> Option<usize>
    requires narrow { N ≤ 8 }
    requires range { from ≤ end }
    requires bits { HasBits validity.now end }
    requires offsets { end < length offsets.now }
    requires rows { AreRows T.width bytes.now (λ i. offset_of T.width (slice_index_or offsets.now i [])) from end }
    ensures { let value : ℕ → List ℕ = bytes_between bytes.now
        (λ i. offset_of T.width (slice_index_or offsets.now i [])) in
        MatchOption result ((k : ℕ) → k < end → from ≤ k → is_valid validity.now k ≡ true → IsUtf8 (value k))
        (λ k. (k < end) × (from ≤ k)
        × ((j : ℕ) → j < k → from ≤ j → is_valid validity.now j ≡ true → IsUtf8 (value j))
        × (is_valid validity.now k ≡ true) × ¬ (IsUtf8 (value k))) }
{
    if are_utf8::<N, T>(bytes, offsets, from, end) {
        return None;
    }
    for i in from..end {
        if is_row_valid(validity, i, end) && !is_utf8(row::<N, T>(bytes, offsets, i)) {
            return Some(i);
        }
    }
    None
}

/// Whether the bytes of all rows are UTF-8 together, and no row begins within a character. Each row is
/// UTF-8 then, and many bytes are tested at once.
fn are_utf8<const N: usize, T: Offset<N>>(
    bytes: &[u8],
    offsets: &[[u8; N]],
    from: usize,
    end: usize,
) -> bool
    requires narrow { N ≤ 8 }
    requires range { from ≤ end }
    requires offsets { end < length offsets.now }
    requires rows { AreRows T.width bytes.now (λ i. offset_of T.width (slice_index_or offsets.now i [])) from end }
    ensures { let value : ℕ → List ℕ = bytes_between bytes.now
        (λ i. offset_of T.width (slice_index_or offsets.now i [])) in
        OnTrue result ((k : ℕ) → k < end → from ≤ k → IsUtf8 (value k)) }
{
    if from == end {
        return true;
    }
    let begin = read_offset::<N, T>(offsets, from);
    let stop = read_offset::<N, T>(offsets, end);
    let part = &bytes[begin..stop];
    if part.is_ascii() {
        return true;
    }
    is_utf8(part) && begin_characters::<N, T>(bytes, offsets, from, end)
}

/// Whether a character of a text begins where each row does, unless the text ends there.
fn begin_characters<const N: usize, T: Offset<N>>(
    text: &[u8],
    offsets: &[[u8; N]],
    from: usize,
    end: usize,
) -> bool
    requires narrow { N ≤ 8 }
    requires range { from ≤ end }
    requires offsets { end < length offsets.now }
    requires rows { AreRows T.width text.now (λ i. offset_of T.width (slice_index_or offsets.now i [])) from end }
    ensures { let offset : ℕ → ℕ = λ i. offset_of T.width (slice_index_or offsets.now i []) in
        OnTrue result ((k : ℕ) → k < end → from ≤ k → IsCharBoundary text.now (offset k)) }
{
    for i in from..end {
        if is_inside(text, read_offset::<N, T>(offsets, i)) {
            return false;
        }
    }
    true
}

/// Whether the byte at a place is not the first of its character.
#[inline(always)]
fn is_inside(text: &[u8], place: usize) -> bool
    requires { place ≤ length text.now }
    ensures { MatchBool result (¬ (IsCharBoundary text.now place)) (IsCharBoundary text.now place) }
{
    place < text.len() && matches!(text[place], 128..192)
}
