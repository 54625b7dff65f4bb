//! How long buffers the columns of rows take.

ghost use Rattle.std.specs.Prelude.{◌≡◌, ◌<◌, MatchBool, length, map};
ghost use Rattle.column_keys.specs.Read.{AreCountedIn, HasSpace, HaveColumns, HaveSpace, LackSpace};
ghost use Rattle.column_keys.specs.Words.{AreKinds, HaveColumn, bytes_length, capped, content, offsets_length};
ghost use Rattle.column_keys.specs.Words.{raws_in, values_length};

use crate::buffers::ColumnBuffers;
use crate::cells::{bytes_or_none, cell_at};
use crate::types::known_kind;
use arrow_columns::{Kind, bitmap_length};
use vortex_value::Scalar;

/// How many offsets a column of so many rows has.
pub(crate) fn offsets_length(kind: Kind, count: usize) -> usize
    requires { count < usize.MAX }
    ensures { result ≡ offsets_length kind count }
{
    match kind {
        Kind::Utf8 | Kind::LargeUtf8 | Kind::Binary | Kind::LargeBinary => count + 1,
        Kind::Integer(_) | Kind::Boolean | Kind::Null | Kind::Logical(_) => 0,
    }
}

/// How many bytes the strings, or bytes, of a column have. It is the greatest `usize` if they have
/// more.
fn strings_length(rows: &[Vec<Scalar>], which: usize) -> usize
    requires { HaveColumn rows.now which }
    ensures { result ≡ capped (bytes_length (map content (raws_in rows.now which))) }
{
    let mut total = 0usize;
    for row in 0..rows.len() {
        total = total.saturating_add(bytes_or_none(cell_at(rows, row, which)).len());
    }
    total
}

/// How many bytes the values of a column have. It is the greatest `usize` if they have more.
fn values_length(rows: &[Vec<Scalar>], which: usize, kind: Kind) -> usize
    requires { HaveColumn rows.now which }
    ensures { result ≡ capped (values_length kind (map content (raws_in rows.now which))) }
{
    match kind {
        Kind::Integer(kind) => rows.len().saturating_mul(kind.width()),
        Kind::Boolean => bitmap_length(rows.len()),
        Kind::Utf8 | Kind::LargeUtf8 | Kind::Binary | Kind::LargeBinary => {
            strings_length(rows, which)
        }
        Kind::Null => 0,
        Kind::Logical(format) => rows.len().saturating_mul(format.items().width()),
    }
}

/// Whether the buffers are long enough for a column of so many rows, whose values have as many bytes
/// as they say.
fn has_space(kind: Kind, rows: usize, column: &ColumnBuffers) -> bool
    requires { rows < usize.MAX }
    ensures { MatchBool result (HasSpace kind rows column.now) (¬ (HasSpace kind rows column.now)) }
{
    column.validity.len() >= bitmap_length(rows)
        && column.values.len() >= column.count
        && column.count < usize::MAX
        && column.offsets.len() >= offsets_length(kind, rows)
}

/// Says how many bytes the values of a column have. Answers whether its buffers suffice.
pub fn count_column(
    rows: &[Vec<Scalar>],
    which: usize,
    kind: Kind,
    column: &mut ColumnBuffers,
) -> bool
    requires few { length rows.now < usize.MAX }
    requires cells { HaveColumn rows.now which }
    ensures counted { column.new ≡ record column.old
        { count = capped (values_length kind (map content (raws_in rows.now which))) } }
    ensures space { MatchBool result (HasSpace kind (length rows.now) column.new)
        (¬ (HasSpace kind (length rows.now) column.new)) }
{
    column.count = values_length(rows, which, kind);
    has_space(kind, rows.len(), column)
}

/// Says of each column how many bytes its values have. Answers whether all buffers suffice.
pub(crate) fn count_columns(
    kinds: &[Option<Kind>],
    rows: &[Vec<Scalar>],
    columns: &mut [ColumnBuffers],
) -> bool
    requires few { length rows.now < usize.MAX }
    requires kinds { AreKinds kinds.now (length kinds.now) }
    requires counts { length columns.old ≡ length kinds.now }
    requires cells { HaveColumns rows.now (length kinds.now) }
    ensures counted { AreCountedIn kinds.now rows.now (length kinds.now) columns.old columns.new }
    ensures space { MatchBool result (HaveSpace kinds.now rows.now (length kinds.now) columns.new)
        (LackSpace kinds.now rows.now (length kinds.now) columns.new) }
{
    let mut suffices = true;
    for which in 0..kinds.len() {
        let kind = known_kind(kinds[which]);
        let column = &mut columns[which];
        suffices &= count_column(rows, which, kind, column);
    }
    suffices
}
