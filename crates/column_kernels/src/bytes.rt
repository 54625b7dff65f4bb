//! Strings and bytes that are compared with a literal.

ghost use Rattle.std.specs.Prelude.{◌≡◌, ◌+◌, ◌*◌, ◌≤◌, length, nat_eq};
ghost use Rattle.column_kernels.specs.Words.{AreTruths, byte_cell, compared, nat_cmp, slice_cmp};
ghost use Rattle.column_kernels.specs.Words.{starts_with, tested};

use crate::needles::{Beginning, Comparison, Equal, Needle, Unequal};
use crate::spans::test_spans;
use arrow_columns::ByteRows;
use truth_bitmaps::TruthWord;
use vortex_filter::CompareOperator;

/// Compares so many strings, or bytes, of a column, from a row on, with a literal.
pub(crate) fn compare_bytes(
    rows: &ByteRows,
    from: usize,
    count: usize,
    operator: CompareOperator,
    literal: &[u8],
    words: &mut [TruthWord],
)
    requires range { from + count ≤ rows.now.column.length }
    requires words { count ≤ 64 * length words.old }
    ensures truth { AreTruths (λ row. compared operator (λ bytes. slice_cmp nat_cmp bytes literal.now)
        (byte_cell rows.now.width rows.now.column (from + row))) count words.new }
    ensures size { length words.new ≡ length words.old }
{
    match operator {
        CompareOperator::Eq => {
            let needle = Needle::of(literal);
            test_spans(rows, from, count, &Equal { needle }, words);
        }
        CompareOperator::NotEq => {
            let needle = Needle::of(literal);
            test_spans(rows, from, count, &Unequal { needle }, words);
        }
        _ => {
            let test = Comparison { operator, literal };
            test_spans(rows, from, count, &test, words);
        }
    }
}

/// Writes which of so many strings, or bytes, of a column begin with a prefix, from a row on.
pub(crate) fn test_prefix(
    rows: &ByteRows,
    from: usize,
    count: usize,
    prefix: &[u8],
    words: &mut [TruthWord],
)
    requires range { from + count ≤ rows.now.column.length }
    requires words { count ≤ 64 * length words.old }
    ensures truth { AreTruths (λ row. tested (λ bytes. starts_with nat_eq bytes prefix.now)
        (byte_cell rows.now.width rows.now.column (from + row))) count words.new }
    ensures size { length words.new ≡ length words.old }
{
    let needle = Needle::of(prefix);
    test_spans(rows, from, count, &Beginning { needle }, words);
}
