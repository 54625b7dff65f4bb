//! Casts of columns of integers.

ghost use Rattle.std.specs.Prelude.{[], ◌≡◌, ℕ, ◌+◌, ◌-◌, ◌*◌, ◌<◌, ◌≤◌, IfErr, IsTrue, MatchOption, OnErr, OnOk};
ghost use Rattle.std.specs.Prelude.{drop, if◌then◌else◌, length, pos, slice_index_or, take, unwrap_or};
ghost use Rattle.std.specs.Bool.{OnTrue};
ghost use Rattle.std.specs.Option.{IfNone, IfSome};
ghost use Rattle.arrow_columns.specs.Words.{AllFit, AreCastItems, AreCastTo, AreWritten, HasBits, HasRows};
ghost use Rattle.arrow_columns.specs.Words.{IsFirstUnfit, IsFirstWithout, IsOfKind, cell_of_item, cells_of_width};
ghost use Rattle.arrow_columns.specs.Words.{end_of, integer_cells, integer_of, is_valid, item_at, number_of, width_of};
ghost use Rattle.arrow_columns.specs.declared.casts.Extent.TheVariants.{Front, Nothing};

use crate::bitmaps::is_row_valid;
use crate::columns::Column;
use crate::extremes::without_nulls;
use crate::integers::Integer;
use crate::items::Item;
use crate::kinds::IntegerKind;
use crate::tested_rows::IntegerRows;

/// Why a column was not cast: the integer of this row, the first such one, is none of the kind.
#[derive(Clone, Copy, Debug, PartialEq, Eq)]
pub struct CastError {
    pub row: usize,
}

/// Rows of integers of N bytes: those from a first one on, before an end.
#[derive(Clone, Copy)]
struct Span<'a, const N: usize> {
    /// A bit for each row, 0 where it is null. Empty if no row is.
    validity: &'a [u8],
    /// The integers, each by its bytes.
    items: &'a [[u8; N]],
    /// The first row.
    from: usize,
    /// The row after the last one.
    end: usize,
}

/// How many rows are tested together before they are written.
const BLOCK: usize = 16;

/// Which rows are written if the kind lacks an integer.
#[derive(Clone, Copy)]
enum Extent {
    /// Those before the first such one.
    Front,
    /// None.
    Nothing,
}

/// Whether the kind of U has the integers of all rows, null or not: their least and their greatest.
fn all_fit<const N: usize, T: Item<N>, const M: usize, U: Integer<M>>(span: Span<N>) -> bool
    requires narrow { N ≤ 8 }
    requires range { span.from < span.end }
    requires items { span.end ≤ length span.items.now }
    ensures { OnTrue result ((k : ℕ) → k < span.entry.end → span.entry.from ≤ k
        → IsOfKind U.kind (number_of T.kind (slice_index_or span.entry.items.now k []))) }
{
    let gathered = without_nulls::<N, T>(&[], span.items, span.from, span.end);
    let low = U::fits(gathered.least.whole());
    let high = U::fits(gathered.greatest.whole());
    low & high
}

/// The first row that is no null and has an integer that the kind of U does not have.
fn first_without<const N: usize, T: Item<N>, const M: usize, U: Integer<M>>(
    span: Span<N>,
) -> Option<usize>
    requires narrow { N ≤ 8 }
    requires range { span.from ≤ span.end }
    requires items { span.end ≤ length span.items.now }
    requires bits { HasBits span.validity.now span.end }
    ensures { let cell = cell_of_item T.kind span.entry.validity.now span.entry.items.now in
        MatchOption result (AllFit U.kind cell span.entry.from span.entry.end)
        (IsFirstUnfit U.kind cell span.entry.from span.entry.end) }
{
    if span.from == span.end || all_fit::<N, T, M, U>(span) {
        return None;
    }
    find_without::<N, T, M, U>(span)
}

/// The same, row by row.
fn find_without<const N: usize, T: Item<N>, const M: usize, U: Integer<M>>(
    span: Span<N>,
) -> Option<usize>
    requires narrow { N ≤ 8 }
    requires range { span.from ≤ span.end }
    requires items { span.end ≤ length span.items.now }
    requires bits { HasBits span.validity.now span.end }
    ensures { let cell = cell_of_item T.kind span.entry.validity.now span.entry.items.now in
        MatchOption result (AllFit U.kind cell span.entry.from span.entry.end)
        (IsFirstUnfit U.kind cell span.entry.from span.entry.end) }
{
    let items = span.items;
    for i in span.from..span.end {
        if is_row_valid(span.validity, i, span.end) && !U::fits(T::of_bytes(items[i]).whole()) {
            return Some(i);
        }
    }
    None
}

/// The bytes of this number, or of 0.
fn bytes_or_zero<const M: usize, U: Integer<M>>(is_valid: bool, whole: i128) -> [u8; M]
    requires { IsTrue is_valid → IsOfKind U.kind whole }
    ensures { integer_of U.kind result ≡ (if is_valid then whole else pos 0) }
{
    let number = if is_valid {
        U::of_whole(whole)
    } else {
        U::zero()
    };
    number.to_bytes()
}

/// Writes item k.
fn put<const M: usize>(buffer: &mut [u8], k: usize, bytes: [u8; M])
    requires { (k + 1) * M ≤ length buffer.old }
    ensures here { item_at M buffer.new k ≡ bytes.entry }
    ensures before { (j : ℕ) → j < k → item_at M buffer.new j ≡ item_at M buffer.old j }
    ensures after { drop ((k + 1) * M) buffer.new ≡ drop ((k + 1) * M) buffer.old }
{
    let start = k * M;
    buffer[start..start + M].copy_from_slice(&bytes);
}

/// Writes the integer of row i, or 0 if it is null.
#[inline(always)]
fn write_row<const N: usize, T: Item<N>, const M: usize, U: Integer<M>>(
    span: Span<N>,
    i: usize,
    buffer: &mut [u8],
)
    requires narrow { M ≤ 8 }
    requires from { span.from ≤ i }
    requires below { i < span.end }
    requires items { span.end ≤ length span.items.now }
    requires bits { HasBits span.validity.now span.end }
    requires buffer { (span.end - span.from) * M ≤ length buffer.old }
    requires fit { IfSome (cell_of_item T.kind span.validity.now span.items.now i) (IsOfKind U.kind) }
    requires written { AreWritten U.kind M
        (cell_of_item T.kind span.validity.now span.items.now) span.from i buffer.old }
    ensures written { AreWritten U.kind M
        (cell_of_item T.kind span.entry.validity.now span.entry.items.now) span.entry.from (i + 1) buffer.new }
    ensures rest { drop ((span.entry.end - span.entry.from) * M) buffer.new
        ≡ drop ((span.entry.end - span.entry.from) * M) buffer.old }
{
    let items = span.items;
    let whole = T::of_bytes(items[i]).whole();
    let bytes = bytes_or_zero::<M, U>(is_row_valid(span.validity, i, span.end), whole);
    put::<M>(buffer, i - span.from, bytes);
}

/// Writes the integers of the rows from a start on, and 0 for a null, row by row.
fn write_by_rows<const N: usize, T: Item<N>, const M: usize, U: Integer<M>>(
    span: Span<N>,
    start: usize,
    buffer: &mut [u8],
)
    requires narrow { N ≤ 8 }
    requires narrow_to { M ≤ 8 }
    requires from { span.from ≤ start }
    requires range { start ≤ span.end }
    requires items { span.end ≤ length span.items.now }
    requires bits { HasBits span.validity.now span.end }
    requires buffer { (span.end - span.from) * M ≤ length buffer.old }
    requires fit { AllFit U.kind (cell_of_item T.kind span.validity.now span.items.now) span.from span.end }
    requires written { AreWritten U.kind M
        (cell_of_item T.kind span.validity.now span.items.now) span.from start buffer.old }
    ensures written { AreWritten U.kind M
        (cell_of_item T.kind span.entry.validity.now span.entry.items.now) span.entry.from span.entry.end buffer.new }
    ensures rest { drop ((span.entry.end - span.entry.from) * M) buffer.new
        ≡ drop ((span.entry.end - span.entry.from) * M) buffer.old }
{
    for i in start..span.end {
        write_row::<N, T, M, U>(span, i, buffer);
    }
}

/// The same, with the rows of whole bytes of the bitmap.
fn write_by_bytes<const N: usize, T: Item<N>, const M: usize, U: Integer<M>>(
    span: Span<N>,
    first_byte: usize,
    end_byte: usize,
    buffer: &mut [u8],
)
    requires narrow { N ≤ 8 }
    requires narrow_to { M ≤ 8 }
    requires from { span.from ≤ 8 * first_byte }
    requires range { first_byte ≤ end_byte }
    requires items { 8 * end_byte ≤ length span.items.now }
    requires bits { end_byte ≤ length span.validity.now }
    requires buffer { (8 * end_byte - span.from) * M ≤ length buffer.old }
    requires fit { AllFit U.kind (cell_of_item T.kind span.validity.now span.items.now) span.from (8 * end_byte) }
    requires written { AreWritten U.kind M (cell_of_item T.kind span.validity.now span.items.now) span.from
        (8 * first_byte) buffer.old }
    ensures written { AreWritten U.kind M
        (cell_of_item T.kind span.entry.validity.now span.entry.items.now) span.entry.from
        (8 * end_byte) buffer.new }
    ensures rest { drop ((8 * end_byte - span.entry.from) * M) buffer.new
        ≡ drop ((8 * end_byte - span.entry.from) * M) buffer.old }
{
    let end = 8 * end_byte;
    for b in first_byte..end_byte {
        for j in 0..8 {
            write_row::<N, T, M, U>(Span { end, ..span }, 8 * b + j, buffer);
        }
    }
}

/// Writes the integers of all rows, and 0 for a null. Where there is a bitmap, most go by its whole
/// bytes.
fn write_rows<const N: usize, T: Item<N>, const M: usize, U: Integer<M>>(
    span: Span<N>,
    buffer: &mut [u8],
)
    requires narrow { N ≤ 8 }
    requires narrow_to { M ≤ 8 }
    requires range { span.from ≤ span.end }
    requires items { span.end ≤ length span.items.now }
    requires bits { HasBits span.validity.now span.end }
    requires buffer { (span.end - span.from) * M ≤ length buffer.old }
    requires fit { AllFit U.kind (cell_of_item T.kind span.validity.now span.items.now) span.from span.end }
    ensures written { AreWritten U.kind M
        (cell_of_item T.kind span.entry.validity.now span.entry.items.now) span.entry.from span.entry.end buffer.new }
    ensures rest { drop ((span.entry.end - span.entry.from) * M) buffer.new
        ≡ drop ((span.entry.end - span.entry.from) * M) buffer.old }
{
    let first_byte = span.from / 8 + 1;
    let end_byte = span.end / 8;
    if span.validity.is_empty() || end_byte <= first_byte {
        return write_by_rows::<N, T, M, U>(span, span.from, buffer);
    }
    let end = 8 * first_byte;
    write_by_rows::<N, T, M, U>(Span { end, ..span }, span.from, buffer);
    write_by_bytes::<N, T, M, U>(span, first_byte, end_byte, buffer);
    write_by_rows::<N, T, M, U>(span, 8 * end_byte, buffer);
}

/// Whether the kind of U has the integers of a block of rows.
fn block_fits<const N: usize, T: Item<N>, const M: usize, U: Integer<M>>(
    span: Span<N>,
    start: usize,
) -> bool
    requires narrow { N ≤ 8 }
    requires items { start + BLOCK ≤ length span.items.now }
    ensures { OnTrue result ((j : ℕ) → j < BLOCK
        → IsOfKind U.kind (number_of T.kind (slice_index_or span.entry.items.now (start + j) []))) }
{
    let items = span.items;
    let mut fits = true;
    for j in 0..BLOCK {
        fits = fits & U::fits(T::of_bytes(items[start + j]).whole());
    }
    fits
}

/// Writes the integers of a block of rows. All are read before the first is written, so that
/// several are written at once.
fn write_block<const N: usize, T: Item<N>, const M: usize, U: Integer<M>>(
    span: Span<N>,
    start: usize,
    buffer: &mut [u8],
)
    requires narrow { N ≤ 8 }
    requires narrow_to { M ≤ 8 }
    requires from { span.from ≤ start }
    requires items { start + BLOCK ≤ length span.items.now }
    requires buffer { (start + BLOCK - span.from) * M ≤ length buffer.old }
    requires fit { (j : ℕ) → j < BLOCK
        → IsOfKind U.kind (number_of T.kind (slice_index_or span.items.now (start + j) [])) }
    requires written { AreWritten U.kind M (cell_of_item T.kind [] span.items.now) span.from start buffer.old }
    ensures written { AreWritten U.kind M (cell_of_item T.kind [] span.entry.items.now) span.entry.from
        (start + BLOCK) buffer.new }
    ensures rest { drop ((start + BLOCK - span.entry.from) * M) buffer.new
        ≡ drop ((start + BLOCK - span.entry.from) * M) buffer.old }
{
    let items = span.items;
    let mut block = [[0; M]; BLOCK];
    for j in 0..BLOCK {
        block[j] = U::of_whole(T::of_bytes(items[start + j]).whole()).to_bytes();
    }
    for k in 0..BLOCK {
        put::<M>(buffer, start - span.from + k, block[k]);
    }
}

/// Writes the integers of the rows of a column without nulls block by block, as long as the kind of
/// U has those of each block. Tells the first row that is not written.
fn write_blocks<const N: usize, T: Item<N>, const M: usize, U: Integer<M>>(
    span: Span<N>,
    buffer: &mut [u8],
) -> usize
    requires narrow { N ≤ 8 }
    requires narrow_to { M ≤ 8 }
    requires range { span.from ≤ span.end }
    requires items { span.end ≤ length span.items.now }
    requires buffer { (span.end - span.from) * M ≤ length buffer.old }
    ensures from { span.entry.from ≤ result }
    ensures end { result ≤ span.entry.end }
    ensures fit { AllFit U.kind (cell_of_item T.kind [] span.entry.items.now) span.entry.from result }
    ensures written { AreWritten U.kind M
        (cell_of_item T.kind [] span.entry.items.now) span.entry.from result buffer.new }
    ensures rest { drop ((result - span.entry.from) * M) buffer.new
        ≡ drop ((result - span.entry.from) * M) buffer.old }
{
    let blocks = (span.end - span.from) / BLOCK;
    for b in 0..blocks {
        let start = span.from + BLOCK * b;
        if !block_fits::<N, T, M, U>(span, start) {
            return start;
        }
        write_block::<N, T, M, U>(span, start, buffer);
    }
    span.from + BLOCK * blocks
}

/// Writes the integers of the rows of a column without nulls before the first whose integer the
/// kind of U lacks, in one pass. Tells which row that is.
fn write_front_by_blocks<const N: usize, T: Item<N>, const M: usize, U: Integer<M>>(
    span: Span<N>,
    buffer: &mut [u8],
) -> Option<usize>
    requires narrow { N ≤ 8 }
    requires narrow_to { M ≤ 8 }
    requires range { span.from ≤ span.end }
    requires items { span.end ≤ length span.items.now }
    requires buffer { (span.end - span.from) * M ≤ length buffer.old }
    ensures found { let cell = cell_of_item T.kind [] span.entry.items.now in
        MatchOption result (AllFit U.kind cell span.entry.from span.entry.end)
        (IsFirstUnfit U.kind cell span.entry.from span.entry.end) }
    ensures written { AreWritten U.kind M (cell_of_item T.kind [] span.entry.items.now) span.entry.from
        (unwrap_or result span.entry.end) buffer.new }
    ensures rest { drop ((unwrap_or result span.entry.end - span.entry.from) * M) buffer.new
        ≡ drop ((unwrap_or result span.entry.end - span.entry.from) * M) buffer.old }
{
    let start = write_blocks::<N, T, M, U>(span, buffer);
    let all = Span {
        validity: &[],
        ..span
    };
    let found = find_without::<N, T, M, U>(Span { from: start, ..all });
    let end = found.unwrap_or(span.end);
    write_by_rows::<N, T, M, U>(Span { end, ..all }, start, buffer);
    found
}

/// Writes the integers of the rows before the first whose integer the kind of U lacks, and 0 for a
/// null. Tells which row that is. Where there is a bitmap, all rows are tested first.
fn write_front<const N: usize, T: Item<N>, const M: usize, U: Integer<M>>(
    span: Span<N>,
    buffer: &mut [u8],
) -> Option<usize>
    requires narrow { N ≤ 8 }
    requires narrow_to { M ≤ 8 }
    requires range { span.from ≤ span.end }
    requires items { span.end ≤ length span.items.now }
    requires bits { HasBits span.validity.now span.end }
    requires buffer { (span.end - span.from) * M ≤ length buffer.old }
    ensures found { let cell = cell_of_item T.kind span.entry.validity.now span.entry.items.now in
        MatchOption result (AllFit U.kind cell span.entry.from span.entry.end)
        (IsFirstUnfit U.kind cell span.entry.from span.entry.end) }
    ensures written { AreWritten U.kind M
        (cell_of_item T.kind span.entry.validity.now span.entry.items.now) span.entry.from
        (unwrap_or result span.entry.end) buffer.new }
    ensures rest { drop ((unwrap_or result span.entry.end - span.entry.from) * M) buffer.new
        ≡ drop ((unwrap_or result span.entry.end - span.entry.from) * M) buffer.old }
{
    if span.validity.is_empty() {
        return write_front_by_blocks::<N, T, M, U>(span, buffer);
    }
    let found = first_without::<N, T, M, U>(span);
    let end = found.unwrap_or(span.end);
    write_rows::<N, T, M, U>(Span { end, ..span }, buffer);
    found
}

/// Writes the integers of the rows, and 0 for a null. Tells the first row whose integer the kind of
/// U lacks: if there is one, less is written.
fn write_by<const N: usize, T: Item<N>, const M: usize, U: Integer<M>>(
    extent: Extent,
    span: Span<N>,
    buffer: &mut [u8],
) -> Option<usize>
    requires narrow { N ≤ 8 }
    requires narrow_to { M ≤ 8 }
    requires range { span.from ≤ span.end }
    requires items { span.end ≤ length span.items.now }
    requires bits { HasBits span.validity.now span.end }
    requires buffer { (span.end - span.from) * M ≤ length buffer.old }
    ensures found { let cell = cell_of_item T.kind span.entry.validity.now span.entry.items.now in
        MatchOption result (AllFit U.kind cell span.entry.from span.entry.end)
        (IsFirstUnfit U.kind cell span.entry.from span.entry.end) }
    ensures written { IfNone result (AreWritten U.kind M
        (cell_of_item T.kind span.entry.validity.now span.entry.items.now) span.entry.from span.entry.end buffer.new) }
    ensures rest { IfNone result (drop ((span.entry.end - span.entry.from) * M) buffer.new
        ≡ drop ((span.entry.end - span.entry.from) * M) buffer.old) }
    ensures front { extent ≡ Front → IfSome result (λ i. AreWritten U.kind M
        (cell_of_item T.kind span.entry.validity.now span.entry.items.now) span.entry.from i buffer.new) }
    ensures past { extent ≡ Front → IfSome result
        (λ i. drop ((i - span.entry.from) * M) buffer.new ≡ drop ((i - span.entry.from) * M) buffer.old) }
    ensures kept { extent ≡ Nothing → IfSome result (λ i. buffer.new ≡ buffer.old) }
{
    match extent {
        Extent::Front => write_front::<N, T, M, U>(span, buffer),
        Extent::Nothing => match first_without::<N, T, M, U>(span) {
            Some(i) => Some(i),
            None => {
                write_rows::<N, T, M, U>(span, buffer);
                None
            }
        },
    }
}

/// Casts a column from integers of N bytes to those of M bytes.
fn cast_between<const N: usize, T: Item<N>, const M: usize, U: Integer<M>>(
    column: Column,
    extent: Extent,
    buffer: &mut [u8],
) -> Result<(), CastError>
    requires some { 0 < N }
    requires narrow { N ≤ 8 }
    requires narrow_to { M ≤ 8 }
    requires rows { HasRows column }
    requires values { end_of column * N ≤ length column.values.now }
    requires buffer { column.length * M ≤ length buffer.old }
    ensures cast { let cells = cells_of_width N T.kind column.entry in
        OnOk result (AreCastItems U.kind M cells buffer.new) }
    ensures rest { OnOk result
        (drop (column.entry.length * M) buffer.new ≡ drop (column.entry.length * M) buffer.old) }
    ensures fault { let cells = cells_of_width N T.kind column.entry in
        IfErr result (λ fault. IsFirstWithout U.kind cells fault.row) }
    ensures front { let cells = cells_of_width N T.kind column.entry in extent ≡ Front
        → IfErr result (λ fault. AreCastItems U.kind M (take fault.row cells) buffer.new) }
    ensures past { extent ≡ Front
        → IfErr result (λ fault. drop (fault.row * M) buffer.new ≡ drop (fault.row * M) buffer.old) }
    ensures kept { extent ≡ Nothing → OnErr result (buffer.new ≡ buffer.old) }
{
    let (items, _) = column.values.as_chunks::<N>();
    let span = Span {
        validity: column.validity,
        items,
        from: column.offset,
        end: column.offset + column.length,
    };
    match write_by::<N, T, M, U>(extent, span, buffer) {
        Some(i) => Err(CastError {
            row: i - column.offset,
        }),
        None => Ok(()),
    }
}

/// Casts a column from integers of N bytes.
fn cast_from<const N: usize, T: Item<N>>(
    column: Column,
    to: IntegerKind,
    extent: Extent,
    buffer: &mut [u8],
) -> Result<(), CastError>
    requires some { 0 < N }
    requires narrow { N ≤ 8 }
    requires rows { HasRows column }
    requires values { end_of column * N ≤ length column.values.now }
    requires buffer { column.length * width_of to ≤ length buffer.old }
    ensures cast { OnOk result (AreCastTo to (cells_of_width N T.kind column.entry) buffer.new) }
    ensures rest { OnOk result (drop (column.entry.length * width_of to) buffer.new
        ≡ drop (column.entry.length * width_of to) buffer.old) }
    ensures fault { IfErr result (λ fault. IsFirstWithout to (cells_of_width N T.kind column.entry) fault.row) }
    ensures front { extent ≡ Front → IfErr result
        (λ fault. AreCastTo to (take fault.row (cells_of_width N T.kind column.entry)) buffer.new) }
    ensures past { extent ≡ Front → IfErr result
        (λ fault. drop (fault.row * width_of to) buffer.new ≡ drop (fault.row * width_of to) buffer.old) }
    ensures kept { extent ≡ Nothing → OnErr result (buffer.new ≡ buffer.old) }
{
    match to {
        IntegerKind::U8 => cast_between::<N, T, 1, u8>(column, extent, buffer),
        IntegerKind::U16 => cast_between::<N, T, 2, u16>(column, extent, buffer),
        IntegerKind::U32 => cast_between::<N, T, 4, u32>(column, extent, buffer),
        IntegerKind::U64 => cast_between::<N, T, 8, u64>(column, extent, buffer),
        IntegerKind::I8 => cast_between::<N, T, 1, i8>(column, extent, buffer),
        IntegerKind::I16 => cast_between::<N, T, 2, i16>(column, extent, buffer),
        IntegerKind::I32 => cast_between::<N, T, 4, i32>(column, extent, buffer),
        IntegerKind::I64 => cast_between::<N, T, 8, i64>(column, extent, buffer),
    }
}

impl IntegerRows<'_> {
    /// Casts the column to another kind: writes the integer of each row to the buffer, and 0 for a
    /// null. If the kind lacks one, tells the row of the first, and writes nothing.
    pub fn cast(&self, to: IntegerKind, buffer: &mut [u8]) -> Result<(), CastError>
        requires { self.now.column.length * width_of to ≤ length buffer.old }
        ensures cast { OnOk result (AreCastTo to (integer_cells self.now.kind self.now.column) buffer.new) }
        ensures rest { OnOk result (drop (self.now.column.length * width_of to) buffer.new
            ≡ drop (self.now.column.length * width_of to) buffer.old) }
        ensures fault { IfErr result
            (λ fault. IsFirstWithout to (integer_cells self.now.kind self.now.column) fault.row) }
        ensures kept { OnErr result (buffer.new ≡ buffer.old) }
    {
        self.cast_by(to, Extent::Nothing, buffer)
    }

    /// The same, in one pass if there is no bitmap. If the kind lacks an integer, the rows before
    /// the first such one are written, and the buffer past them stays.
    pub fn cast_front(&self, to: IntegerKind, buffer: &mut [u8]) -> Result<(), CastError>
        requires { self.now.column.length * width_of to ≤ length buffer.old }
        ensures cast { OnOk result (AreCastTo to (integer_cells self.now.kind self.now.column) buffer.new) }
        ensures rest { OnOk result (drop (self.now.column.length * width_of to) buffer.new
            ≡ drop (self.now.column.length * width_of to) buffer.old) }
        ensures fault { IfErr result
            (λ fault. IsFirstWithout to (integer_cells self.now.kind self.now.column) fault.row) }
        ensures front { IfErr result
            (λ fault. AreCastTo to (take fault.row (integer_cells self.now.kind self.now.column)) buffer.new) }
        ensures past { IfErr result
            (λ fault. drop (fault.row * width_of to) buffer.new ≡ drop (fault.row * width_of to) buffer.old) }
    {
        self.cast_by(to, Extent::Front, buffer)
    }

    /// Casts the column, so far as it is to be written.
    fn cast_by(&self, to: IntegerKind, extent: Extent, buffer: &mut [u8]) -> Result<(), CastError>
        requires { self.now.column.length * width_of to ≤ length buffer.old }
        ensures cast { OnOk result (AreCastTo to (integer_cells self.now.kind self.now.column) buffer.new) }
        ensures rest { OnOk result (drop (self.now.column.length * width_of to) buffer.new
            ≡ drop (self.now.column.length * width_of to) buffer.old) }
        ensures fault { IfErr result
            (λ fault. IsFirstWithout to (integer_cells self.now.kind self.now.column) fault.row) }
        ensures front { extent ≡ Front → IfErr result
            (λ fault. AreCastTo to (take fault.row (integer_cells self.now.kind self.now.column)) buffer.new) }
        ensures past { extent ≡ Front → IfErr result
            (λ fault. drop (fault.row * width_of to) buffer.new ≡ drop (fault.row * width_of to) buffer.old) }
        ensures kept { extent ≡ Nothing → OnErr result (buffer.new ≡ buffer.old) }
    {
        match self.kind {
            IntegerKind::U8 => cast_from::<1, u8>(self.column, to, extent, buffer),
            IntegerKind::U16 => cast_from::<2, u16>(self.column, to, extent, buffer),
            IntegerKind::U32 => cast_from::<4, u32>(self.column, to, extent, buffer),
            IntegerKind::U64 => cast_from::<8, u64>(self.column, to, extent, buffer),
            IntegerKind::I8 => cast_from::<1, i8>(self.column, to, extent, buffer),
            IntegerKind::I16 => cast_from::<2, i16>(self.column, to, extent, buffer),
            IntegerKind::I32 => cast_from::<4, i32>(self.column, to, extent, buffer),
            IntegerKind::I64 => cast_from::<8, i64>(self.column, to, extent, buffer),
        }
    }
}
