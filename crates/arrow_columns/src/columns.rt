//! A column as it comes.

ghost use Rattle.std.specs.Prelude.{◌≡◌};
ghost use Rattle.arrow_columns.specs.Columns.{rows_in};

/// A column as the Arrow C data interface lays it out: its buffers, and which rows of them it has.
/// What it says of itself is tested by `Column::check`.
#[derive(Clone, Copy)]
#[repr(C)]
pub struct Column<'a> {
    /// The code of its kind: see `Kind::with_code`.
    pub kind: u8,
    /// Of decimals: how many digits a number has at most. Else it is not read.
    pub precision: u8,
    /// Of decimals: how many of them stand behind the point. Else it is not read.
    pub scale: u8,
    /// A bit for each row, 0 where it is null. Empty if no row is.
    pub validity: &'a [u8],
    /// The values: integers, bits, or the bytes of all rows one after another.
    pub values: &'a [u8],
    /// Of strings and bytes: where row i begins in `values`, and at i + 1 where it ends.
    pub offsets: &'a [u8],
    /// How many rows of the buffers come before its first.
    pub offset: usize,
    /// How many rows it has.
    pub length: usize,
}

/// How many rows columns have: as many as the first one says.
pub fn row_count_of(columns: &[Column]) -> usize
    ensures { result ≡ rows_in columns.now }
{
    match columns {
        [first, ..] => first.length,
        [] => 0,
    }
}
