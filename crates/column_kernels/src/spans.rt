//! Tests of strings, or bytes, where they lie.

ghost use Rattle.std.specs.Prelude.{[], ◌≡◌, ℕ, ◌+◌, ◌*◌, ◌<◌, ◌≤◌, Bool, List, Some, length, slice_index_or};
ghost use Rattle.std.specs.Prelude.{slice_range};
ghost use Rattle.column_kernels.specs.Words.{AreTruths, IsByteColumn, IsRow, byte_cell, bytes_between, bytes_of_offset};
ghost use Rattle.column_kernels.specs.Words.{offset_in, offset_of, tested};

use crate::validity::mark_null_rows;
use arrow_columns::{ByteRows, Column, Offset, OffsetWidth, read_offset};
use truth_bitmaps::{TruthWord, write_rows};

/// A test of bytes.
pub(crate) trait ByteTest {
    ghost says: { Self → List ℕ → Bool };

    /// What it says of the bytes from `begin` to `stop`.
    fn is_met(&self, bytes: &[u8], begin: usize, stop: usize) -> bool
        requires order { begin ≤ stop }
        requires within { stop ≤ length bytes.now }
        ensures { result ≡ says self.now (slice_range bytes.now begin stop) };
}

/// Writes what a test says of so many strings, or bytes, of a column, from a row on.
#[inline(always)]
pub(crate) fn test_spans<T: ByteTest>(
    rows: &ByteRows,
    from: usize,
    count: usize,
    test: &T,
    words: &mut [TruthWord],
)
    requires range { from + count ≤ rows.now.column.length }
    requires words { count ≤ 64 * length words.old }
    ensures truth { AreTruths (λ row. tested (T.says test.now)
        (byte_cell rows.now.width rows.now.column (from + row))) count words.new }
    ensures size { length words.new ≡ length words.old }
{
    write_all(rows, from, count, test, words);
    mark_null_rows(rows.column, from, count, words);
}

/// Writes what it says of each, null or not.
#[inline(always)]
fn write_all<T: ByteTest>(
    rows: &ByteRows,
    from: usize,
    count: usize,
    test: &T,
    words: &mut [TruthWord],
)
    requires range { from + count ≤ rows.now.column.length }
    requires words { count ≤ 64 * length words.old }
    ensures truth { AreTruths (λ row. Some (T.says test.now (bytes_between rows.now.column.values.now
        (offset_in rows.now.width rows.now.column) (rows.now.column.offset + (from + row))))) count words.new }
    ensures size { length words.new ≡ length words.old }
{
    match rows.width {
        OffsetWidth::Bits32 => write_spans::<4, u32, T>(rows.column, from, count, test, words),
        OffsetWidth::Bits64 => write_spans::<8, u64, T>(rows.column, from, count, test, words),
    }
}

/// The same by offsets of N bytes.
#[inline(always)]
fn write_spans<const N: usize, O: Offset<N>, T: ByteTest>(
    column: Column,
    from: usize,
    count: usize,
    test: &T,
    words: &mut [TruthWord],
)
    requires narrow { N ≤ 8 }
    requires some { 0 < N }
    requires width { N ≡ bytes_of_offset O.width }
    requires column { IsByteColumn O.width column }
    requires range { from + count ≤ column.length }
    requires words { count ≤ 64 * length words.old }
    ensures truth { AreTruths (λ row. Some (T.says test.now (bytes_between column.entry.values.now
        (offset_in O.width column.entry) (column.entry.offset + (from + row))))) count words.new }
    ensures size { length words.new ≡ length words.old }
{
    let (offsets, _) = column.offsets.as_chunks::<N>();
    let bytes = column.values;
    let first = column.offset + from;
    write_rows(
        words,
        count,
        |row: usize| -> bool
            requires offsets { first + row + 1 < length offsets.now }
            requires row { IsRow O.width bytes.now
                (λ i. offset_of O.width (slice_index_or offsets.now i [])) (first + row) }
            ensures { result ≡ T.says test.entry.now (bytes_between bytes.entry.now
                (λ i. offset_of O.width (slice_index_or offsets.entry.now i [])) (first + row)) }
        {
            let begin = read_offset::<N, O>(offsets, first + row);
            let stop = read_offset::<N, O>(offsets, first + row + 1);
            test.is_met(bytes, begin, stop)
        },
    );
}
