//! Which rows of columns match.

ghost use Rattle.std.specs.Prelude.{◌≡◌, ◌≤◌, IfErr, OnOk, drop, length, map};
ghost use Rattle.column_filters.specs.Words.{AreColumnsOf, IsMask, IsMaskError, bitmap_length, cells_of_columns};
ghost use Rattle.column_filters.specs.Words.{formula, matching, type_of};

use crate::errors::MaskError;
use crate::tables::read_columns;
use arrow_columns::{Column, bitmap_length};
use column_kernels::write_mask;
use std::alloc::Global;
use vortex_dtype::DType;
use vortex_filter::Filter;
use vortex_filter::laws::named_columns_decide;

/// Writes which of so many rows of columns of these types match: a bit for each, from the least
/// significant one on. The bits after the last row are 0, and the bytes after them stay. Without
/// columns the filter is the same on each row. A column that the filter does not name is not looked at.
///
/// It is refused with `BufferTooSmall` exactly if the mask has fewer bytes than `bitmap_length` of the
/// rows, before all else, and then as by `read_columns`, which alone asks for memory. After a refusal the
/// mask is as it was.
pub fn mask_of_columns(
    alloc: Global,
    filter: &Filter,
    types: &[DType],
    columns: &[Column],
    count: usize,
    mask: &mut [u8],
) -> Result<(), MaskError>
    ensures masked { OnOk result
        (IsMask (matching (formula filter.now) (cells_of_columns columns.now)) count mask.new) }
    ensures columns { OnOk result
        (AreColumnsOf (formula filter.now) columns.now (map type_of types.now) count) }
    ensures buffer { OnOk result (bitmap_length count ≤ length mask.old) }
    ensures refused { IfErr result
        (IsMaskError (formula filter.now) columns.now (map type_of types.now) count (length mask.old)) }
    ensures rest { drop (bitmap_length count) mask.new ≡ drop (bitmap_length count) mask.old }
    ensures kept { IfErr result (λ _. mask.new ≡ mask.old) }
{
    if mask.len() < bitmap_length(count) {
        return Err(MaskError::BufferTooSmall);
    }
    let rows = read_columns(alloc, filter, columns, types, count)?;
    named_columns_decide();
    write_mask(filter, &rows, count, mask);
    Ok(())
}
