//! Which rows of columns match, a block at a time.

ghost use Rattle.std.specs.Prelude.{◌≡◌, ◌+◌, ◌*◌, ◌^◌, ◌<◌, ◌≤◌, drop, length};
ghost use Rattle.column_kernels.specs.FilterWords.{HaveRowsTo, HaveTexts, IsMask, bitmap_length, cells_of_row, formula};
ghost use Rattle.column_kernels.specs.FilterWords.{matching};

use crate::evaluation::{BLOCK_WORDS, NO_ROW, write_truths};
use arrow_columns::Rows;
use truth_bitmaps::{word_count, write_matches};
use vortex_filter::Filter;

/// The most rows of a block.
const BLOCK_ROWS: usize = 2048;

/// Writes a bit for each of so many rows of columns, 1 if the filter matches it, from the least
/// significant bit on. The bits after the last row are 0, and the bytes after them stay. It takes no
/// memory. A column that is not there has a null in each row. Strings have to be UTF-8, as those of a column
/// that was read are.
pub fn write_mask(filter: &Filter, columns: &[Rows], count: usize, mask: &mut [u8])
    requires rows { HaveRowsTo count columns.now }
    requires texts { HaveTexts columns.now }
    requires buffer { bitmap_length count ≤ length mask.old }
    ensures masked { IsMask (matching (formula filter.now) (cells_of_row columns.now)) count mask.new }
    ensures rest { drop (bitmap_length count) mask.new ≡ drop (bitmap_length count) mask.old }
{
    for block in 0..count.div_ceil(BLOCK_ROWS) {
        let from = BLOCK_ROWS * block;
        let rows = BLOCK_ROWS.min(count - from);
        write_block(filter, columns, from, rows, &mut mask[from / 8..]);
    }
}

/// The same of so many rows, from a row on.
fn write_block(filter: &Filter, columns: &[Rows], from: usize, count: usize, mask: &mut [u8])
    requires rows { HaveRowsTo (from + count) columns.now }
    requires texts { HaveTexts columns.now }
    requires end { from + count < 2 ^ 64 }
    requires block { count ≤ BLOCK_ROWS }
    requires buffer { bitmap_length count ≤ length mask.old }
    ensures masked { IsMask (λ row. matching (formula filter.now) (cells_of_row columns.now) (from + row))
        count mask.new }
    ensures rest { drop (bitmap_length count) mask.new ≡ drop (bitmap_length count) mask.old }
{
    let mut block = [NO_ROW; BLOCK_WORDS];
    let words = &mut block[..word_count(count)];
    write_truths(filter, columns, from, count, words);
    write_matches(words, count, mask);
}
