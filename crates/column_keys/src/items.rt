//! What is written of one row: an integer, or an item.

ghost use Rattle.std.specs.Prelude.{◌≡◌, ◌+◌, ◌*◌, ◌<◌, ◌≤◌, ℕ, length};
ghost use Rattle.column_keys.specs.Words.{byte_width_of, bytes_of, bytes_of_stored, item_at, ptype_of, whole_of};

use column_items::StoredItem;
use vortex_pvalue::PValue;

/// Writes the integer of this row.
pub(crate) fn put_number(values: &mut [u8], row: usize, number: PValue)
    requires { (row + 1) * byte_width_of (ptype_of number) ≤ length values.old }
    ensures item { item_at (byte_width_of (ptype_of number)) values.new row
        ≡ bytes_of (ptype_of number) (whole_of number) }
    ensures before { (k : ℕ) → k < row → item_at (byte_width_of (ptype_of number)) values.new k
        ≡ item_at (byte_width_of (ptype_of number)) values.old k }
{
    let bytes = number.to_le_bytes();
    let start = row * bytes.len();
    values[start..start + bytes.len()].copy_from_slice(&bytes);
}

/// Writes the item of this row.
pub(crate) fn put_item(values: &mut [u8], row: usize, item: StoredItem)
    requires { (row + 1) * length (bytes_of_stored item) ≤ length values.old }
    ensures item { item_at (length (bytes_of_stored item)) values.new row ≡ bytes_of_stored item }
    ensures before { (k : ℕ) → k < row → item_at (length (bytes_of_stored item)) values.new k
        ≡ item_at (length (bytes_of_stored item)) values.old k }
{
    let bytes = item.as_slice();
    let start = row * bytes.len();
    values[start..start + bytes.len()].copy_from_slice(bytes);
}
