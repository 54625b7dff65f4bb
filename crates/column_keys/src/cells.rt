//! The cells of a column in rows, and what a cell has to be written.

ghost use Rattle.std.specs.Prelude.{◌≡◌, ◌<◌, length, slice_index_or};
ghost use Rattle.column_keys.specs.Words.{FitsItem, HasContentOf, HaveColumn, IsNumberIn, IsValueOf, Logical, Nullable};
ghost use Rattle.column_keys.specs.Words.{Valid, absent, bytes_in, integer_type, is_present, items_of};
ghost use Rattle.column_keys.specs.Words.{number_in, ptype_of, raws_in, scalar_content, scalar_raw, truth_in};
ghost use Rattle.column_keys.specs.Words.{whole_of};

use arrow_columns::Format;
use column_items::stored_number;
use vortex_dtype::PType;
use vortex_pvalue::PValue;
use vortex_value::{Scalar, ScalarValue};

/// The cell of a row in the column of this number.
pub(crate) fn cell_at<'a>(rows: &'a [Vec<Scalar>], row: usize, which: usize) -> &'a Scalar
    requires row { row < length rows.now }
    requires column { HaveColumn rows.now which }
    ensures { scalar_raw result.now ≡ slice_index_or (raws_in rows.now which) row absent }
{
    let cells = rows[row].as_slice();
    &cells[which]
}

/// Whether the cell is no null.
pub(crate) fn is_present(cell: &Scalar) -> bool
    ensures { result ≡ is_present (scalar_content cell.now) }
{
    match &cell.value {
        Some(_) => true,
        None => false,
    }
}

/// The integer of a cell of this type, or 0 for a null.
pub(crate) fn number_or_zero(cell: &Scalar, ptype: PType) -> PValue
    requires { Valid (integer_type ptype Nullable) (scalar_raw cell.now) }
    ensures typed { ptype_of result ≡ ptype }
    ensures number { whole_of result ≡ number_in (scalar_content cell.now) }
{
    match &cell.value {
        Some(ScalarValue::Primitive(number)) => *number,
        _ => PValue::zero(&ptype),
    }
}

/// The number that a cell stores as a value of the format, or 0 for a null.
pub(crate) fn stored_or_zero(cell: &Scalar, format: Format) -> i128
    requires { HasContentOf (Logical format) (scalar_content cell.now) }
    ensures number { IsNumberIn format (scalar_content cell.now) result }
    ensures value { IsValueOf format result }
    ensures fits { FitsItem (items_of format) result }
{
    let Some(value) = &cell.value else {
        return 0;
    };
    let Some(number) = stored_number(format, value) else {
        unreachable!()
    };
    number
}

/// The truth value of a cell, or false if it has none.
pub(crate) fn truth_or_false(cell: &Scalar) -> bool
    ensures { result ≡ truth_in (scalar_content cell.now) }
{
    match &cell.value {
        Some(ScalarValue::Bool(value)) => *value,
        _ => false,
    }
}

/// The bytes of a cell: of a string, or of bytes; else none.
pub(crate) fn bytes_or_none(cell: &Scalar) -> &[u8]
    ensures { result.now ≡ bytes_in (scalar_content cell.now) }
{
    match &cell.value {
        Some(ScalarValue::Utf8(text)) => text.as_str().as_bytes(),
        Some(ScalarValue::Binary(bytes)) => bytes.as_slice(),
        _ => &[],
    }
}
