//! The steps from rows to columns: the cells of each are written into its buffers.

ghost use Rattle.std.specs.Prelude.{◌≡◌, ◌+◌, ◌*◌, ◌<◌, ◌≤◌, ℕ, drop, false, length, map, slice_index, take};
ghost use Rattle.std.specs.List.{All};
ghost use Rattle.column_keys.specs.Read.{AreWrittenIn, HaveColumns, HaveCounts, HaveSpace, IsWritten};
ghost use Rattle.column_keys.specs.Read.{HasSpace, HaveStored, HaveValues};
ghost use Rattle.column_keys.specs.Words.{AreBits, AreIntegers, AreKinds, AreNumbers, AreStored, AreStrings};
ghost use Rattle.column_keys.specs.Words.{HaveColumn, IsColumnOf, Logical, items_of, width_of_item};
ghost use Rattle.column_keys.specs.Words.{Nullable, Valid, bit_of, bitmap_length, bytes_length, content, integer_type};
ghost use Rattle.column_keys.specs.Words.{is_present, offsets_length, ptype_of_kind, raws_in, truth_in, type_of_kind};
ghost use Rattle.column_keys.specs.Words.{values_length, width_of};

use crate::buffers::ColumnBuffers;
use crate::cells::{
    bytes_or_none, cell_at, is_present, number_or_zero, stored_or_zero, truth_or_false,
};
use crate::counting::offsets_length;
use crate::items::{put_item, put_number};
use crate::types::known_kind;
use arrow_columns::{Format, IntegerKind, Kind, bitmap_length, put_bit};
use column_cells::ptype_of;
use column_items::item_of_number;
use vortex_value::Scalar;

/// Writes the columns of these kinds, of rows.
pub(crate) fn write_columns(
    kinds: &[Option<Kind>],
    rows: &[Vec<Scalar>],
    columns: &mut [ColumnBuffers],
)
    requires few { length rows.now < usize.MAX }
    requires kinds { AreKinds kinds.now (length kinds.now) }
    requires lengths { length columns.old ≡ length kinds.now }
    requires cells { HaveColumns rows.now (length kinds.now) }
    requires typed { HaveValues kinds.now rows.now }
    requires counts { HaveCounts kinds.now rows.now columns.old }
    requires stored { HaveStored kinds.now rows.now (length kinds.now) }
    requires space { HaveSpace kinds.now rows.now (length kinds.now) columns.old }
    ensures { AreWrittenIn kinds.now rows.now (length kinds.now) columns.old columns.new }
{
    for which in 0..kinds.len() {
        let kind = known_kind(kinds[which]);
        let column = &mut columns[which];
        write_column(rows, which, kind, column);
    }
}

/// Writes one column, of this kind.
pub fn write_column(rows: &[Vec<Scalar>], which: usize, kind: Kind, column: &mut ColumnBuffers)
    requires few { length rows.now < usize.MAX }
    requires cells { HaveColumn rows.now which }
    requires typed { All (Valid (type_of_kind kind)) (raws_in rows.now which) }
    requires stored { AreStored kind (map content (raws_in rows.now which)) (length rows.now) }
    requires counted { column.old.count ≡ values_length kind (map content (raws_in rows.now which)) }
    requires space { HasSpace kind (length rows.now) column.old }
    ensures { IsWritten kind (map content (raws_in rows.now which)) column.old column.new }
{
    let count = column.count;
    write_front(
        rows,
        which,
        kind,
        count,
        column.validity,
        column.values,
        column.offsets,
    );
}

/// Writes one column to the front of its buffers, whose values have so many bytes.
fn write_front(
    rows: &[Vec<Scalar>],
    which: usize,
    kind: Kind,
    count: usize,
    validity: &mut [u8],
    values: &mut [u8],
    offsets: &mut [u64],
)
    requires few { length rows.now < usize.MAX }
    requires cells { HaveColumn rows.now which }
    requires typed { All (Valid (type_of_kind kind)) (raws_in rows.now which) }
    requires stored { AreStored kind (map content (raws_in rows.now which)) (length rows.now) }
    requires counted { count ≡ values_length kind (map content (raws_in rows.now which)) }
    requires bits { bitmap_length (length rows.now) ≤ length validity.old }
    requires items { count ≤ length values.old }
    requires places { offsets_length kind (length rows.now) ≤ length offsets.old }
    ensures column { IsColumnOf kind (map content (raws_in rows.now which))
        (take (bitmap_length (length rows.now)) validity.new) (take count values.new)
        (take (offsets_length kind (length rows.now)) offsets.new) }
    ensures rest_validity { drop (bitmap_length (length rows.now)) validity.new
        ≡ drop (bitmap_length (length rows.now)) validity.old }
    ensures rest_values { drop count values.new ≡ drop count values.old }
    ensures rest_offsets { drop (offsets_length kind (length rows.now)) offsets.new
        ≡ drop (offsets_length kind (length rows.now)) offsets.old }
{
    write_whole(
        rows,
        which,
        kind,
        &mut validity[..bitmap_length(rows.len())],
        &mut values[..count],
        &mut offsets[..offsets_length(kind, rows.len())],
    );
}

/// Writes one column to buffers of its lengths.
fn write_whole(
    rows: &[Vec<Scalar>],
    which: usize,
    kind: Kind,
    validity: &mut [u8],
    values: &mut [u8],
    offsets: &mut [u64],
)
    requires few { length rows.now < usize.MAX }
    requires cells { HaveColumn rows.now which }
    requires typed { All (Valid (type_of_kind kind)) (raws_in rows.now which) }
    requires stored { AreStored kind (map content (raws_in rows.now which)) (length rows.now) }
    requires bits { length validity.old ≡ bitmap_length (length rows.now) }
    requires items { length values.old ≡ values_length kind (map content (raws_in rows.now which)) }
    requires places { length offsets.old ≡ offsets_length kind (length rows.now) }
    ensures { IsColumnOf kind (map content (raws_in rows.now which)) validity.new values.new offsets.new }
{
    write_validity(rows, which, validity);
    match kind {
        Kind::Integer(kind) => write_integers(rows, which, kind, values),
        Kind::Boolean => write_booleans(rows, which, values),
        Kind::Utf8 | Kind::LargeUtf8 | Kind::Binary | Kind::LargeBinary => {
            write_strings(rows, which, values, offsets)
        }
        Kind::Null => {}
        Kind::Logical(format) => write_values(rows, which, format, values),
    }
}

/// Makes each bit 0.
fn clear(bitmap: &mut [u8])
    ensures { (i : ℕ) → bit_of bitmap.new i ≡ false }
{
    for byte in bitmap.iter_mut() {
        *byte = 0;
    }
}

/// Writes a bit for each row, 0 for a null.
fn write_validity(rows: &[Vec<Scalar>], which: usize, validity: &mut [u8])
    requires column { HaveColumn rows.now which }
    requires bits { bitmap_length (length rows.now) ≤ length validity.old }
    ensures { AreBits is_present (map content (raws_in rows.now which)) validity.new }
{
    clear(validity);
    for row in 0..rows.len() {
        put_bit(validity, row, is_present(cell_at(rows, row, which)));
    }
}

/// Writes the booleans, and false for a null.
fn write_booleans(rows: &[Vec<Scalar>], which: usize, values: &mut [u8])
    requires column { HaveColumn rows.now which }
    requires bits { bitmap_length (length rows.now) ≤ length values.old }
    ensures { AreBits truth_in (map content (raws_in rows.now which)) values.new }
{
    clear(values);
    for row in 0..rows.len() {
        put_bit(values, row, truth_or_false(cell_at(rows, row, which)));
    }
}

/// Writes the integers of the kind, and 0 for a null.
fn write_integers(rows: &[Vec<Scalar>], which: usize, kind: IntegerKind, values: &mut [u8])
    requires column { HaveColumn rows.now which }
    requires typed { All (Valid (integer_type (ptype_of_kind kind) Nullable)) (raws_in rows.now which) }
    requires buffer { length rows.now * width_of kind ≤ length values.old }
    ensures { AreIntegers kind (map content (raws_in rows.now which)) values.new }
{
    let ptype = ptype_of(kind);
    for row in 0..rows.len() {
        let cell = cell_at(rows, row, which);
        put_number(values, row, number_or_zero(cell, ptype));
    }
}

/// Writes the items of the format, and that of 0 for a null.
fn write_values(rows: &[Vec<Scalar>], which: usize, format: Format, values: &mut [u8])
    requires column { HaveColumn rows.now which }
    requires stored { AreStored (Logical format) (map content (raws_in rows.now which)) (length rows.now) }
    requires buffer { length rows.now * width_of_item (items_of format) ≤ length values.old }
    ensures { AreNumbers format (map content (raws_in rows.now which)) values.new }
{
    for row in 0..rows.len() {
        let number = stored_or_zero(cell_at(rows, row, which), format);
        put_item(values, row, item_of_number(format, number));
    }
}

/// Writes the strings, or bytes, one after the other, and where each begins and ends. That of a null
/// is empty.
fn write_strings(rows: &[Vec<Scalar>], which: usize, values: &mut [u8], offsets: &mut [u64])
    requires column { HaveColumn rows.now which }
    requires values { length values.old ≡ bytes_length (map content (raws_in rows.now which)) }
    requires offsets { length offsets.old ≡ length rows.now + 1 }
    ensures { AreStrings (map content (raws_in rows.now which)) values.new offsets.new }
{
    offsets[0] = 0;
    let mut start = 0;
    for row in 0..rows.len() {
        let bytes = bytes_or_none(cell_at(rows, row, which));
        let end = start + bytes.len();
        values[start..end].copy_from_slice(bytes);
        offsets[row + 1] = end as u64;
        start = end;
    }
}
