//! What is read of the rows of a column: statistics, and each cell by its row.

ghost use Rattle.std.specs.Prelude.{◌≡◌, ◌+◌, ◌-◌, ◌*◌, ◌<◌, ◌≤◌, IfSome, IsSomeAnd, MatchBool, MatchOption, Some};
ghost use Rattle.std.specs.Prelude.{length, slice_get};
ghost use Rattle.std.specs.Option.{option_copied};
ghost use Rattle.arrow_columns.specs.Words.{AreBooleanStatisticsOf, AreByteStatisticsOf, AreStatisticsOf};
ghost use Rattle.arrow_columns.specs.Words.{AreWithinBefore, HasRows, IsByteColumn, IsFirstOutside, IsWithin};
ghost use Rattle.arrow_columns.specs.Words.{boolean_cells, byte_cells, bytes_between};
ghost use Rattle.arrow_columns.specs.Words.{bytes_of_offset, cells_from, end_of, integer_cells, integer_of};
ghost use Rattle.arrow_columns.specs.Words.{item_at, item_cells, items_of, number_of};
ghost use Rattle.arrow_columns.specs.Words.{offset_in, width_of, width_of_item};

use crate::bitmaps::{is_row_valid, is_set};
use crate::booleans::statistics_of_bits;
use crate::byte_extremes::statistics_of_byte_rows;
use crate::byte_items::row;
use crate::columns::Column;
use crate::extremes::statistics_of_rows;
use crate::items::{Item, Rank32, Rank64, Storage32, Storage64};
use crate::kinds::{IntegerKind, ItemKind};
use crate::offset_width::OffsetWidth;
use crate::offsets::Offset;
use crate::statistics::{BooleanStatistics, ByteStatistics, IntegerStatistics};
use crate::tested_rows::{BooleanRows, ByteRows, IntegerRows, ItemRows, LogicalRows};

/// The statistics of a column of integers of N bytes.
fn statistics_of_integers<const N: usize, T: Item<N>>(column: Column) -> IntegerStatistics
    requires some { 0 < N }
    requires narrow { N ≤ 16 }
    requires rows { HasRows column }
    requires values { end_of column * N ≤ length column.values.now }
    ensures { AreStatisticsOf (cells_from column.entry.validity.now (λ i. number_of T.kind
        (item_at N column.entry.values.now i)) column.entry.offset column.entry.length) result }
{
    let (items, _) = column.values.as_chunks::<N>();
    let end = column.offset + column.length;
    statistics_of_rows::<N, T>(column.validity, items, column.offset, end)
}

/// Integer i of some values.
fn integer<const N: usize, T: Item<N>>(values: &[u8], i: usize) -> i128
    requires some { 0 < N }
    requires narrow { N ≤ 16 }
    requires values { (i + 1) * N ≤ length values.now }
    ensures { result ≡ number_of T.kind (item_at N values.now i) }
{
    let (items, _) = values.as_chunks::<N>();
    T::of_bytes(items[i]).whole()
}

/// Integer i of some values of this kind.
fn integer_of_kind(kind: IntegerKind, values: &[u8], i: usize) -> i128
    requires { (i + 1) * width_of kind ≤ length values.now }
    ensures { result ≡ integer_of kind (item_at (width_of kind) values.now i) }
{
    match kind {
        IntegerKind::U8 => integer::<1, u8>(values, i),
        IntegerKind::U16 => integer::<2, u16>(values, i),
        IntegerKind::U32 => integer::<4, u32>(values, i),
        IntegerKind::U64 => integer::<8, u64>(values, i),
        IntegerKind::I8 => integer::<1, i8>(values, i),
        IntegerKind::I16 => integer::<2, i16>(values, i),
        IntegerKind::I32 => integer::<4, i32>(values, i),
        IntegerKind::I64 => integer::<8, i64>(values, i),
    }
}

/// The number of item i of some values of this kind.
fn number_of_kind(kind: ItemKind, values: &[u8], i: usize) -> i128
    requires { (i + 1) * width_of_item kind ≤ length values.now }
    ensures { result ≡ number_of kind (item_at (width_of_item kind) values.now i) }
{
    match kind {
        ItemKind::Integer(kind) => integer_of_kind(kind, values, i),
        ItemKind::F32 => integer::<4, Storage32>(values, i),
        ItemKind::F64 => integer::<8, Storage64>(values, i),
        ItemKind::I128 => integer::<16, i128>(values, i),
    }
}

/// The statistics of a column of strings or bytes with offsets of N bytes.
fn statistics_of_bytes<const N: usize, T: Offset<N>>(column: Column) -> ByteStatistics
    requires narrow { N ≤ 8 }
    requires width { N ≡ bytes_of_offset T.width }
    requires some { 0 < N }
    requires column { IsByteColumn T.width column }
    ensures { AreByteStatisticsOf (byte_cells T.width column.entry) result }
{
    if column.length == 0 {
        return ByteStatistics {
            null_count: 0,
            extremes: None,
        };
    }
    let (offsets, _) = column.offsets.as_chunks::<N>();
    let end = column.offset + column.length;
    statistics_of_byte_rows::<N, T>(column.validity, column.values, offsets, column.offset, end)
}

/// The bytes of a row with offsets of N bytes.
fn bytes<'a, const N: usize, T: Offset<N>>(column: Column<'a>, i: usize) -> &'a [u8]
    requires narrow { N ≤ 8 }
    requires width { N ≡ bytes_of_offset T.width }
    requires some { 0 < N }
    requires column { IsByteColumn T.width column }
    requires from { column.offset ≤ i }
    requires end { i < end_of column }
    ensures { result.now ≡ bytes_between column.entry.values.now (offset_in T.width column.entry) i }
{
    let (offsets, _) = column.offsets.as_chunks::<N>();
    row::<N, T>(column.values, offsets, i)
}

impl IntegerRows<'_> {
    /// The statistics of the column.
    pub fn statistics(&self) -> IntegerStatistics
        ensures { AreStatisticsOf (integer_cells self.now.kind self.now.column) result }
    {
        match self.kind {
            IntegerKind::U8 => statistics_of_integers::<1, u8>(self.column),
            IntegerKind::U16 => statistics_of_integers::<2, u16>(self.column),
            IntegerKind::U32 => statistics_of_integers::<4, u32>(self.column),
            IntegerKind::U64 => statistics_of_integers::<8, u64>(self.column),
            IntegerKind::I8 => statistics_of_integers::<1, i8>(self.column),
            IntegerKind::I16 => statistics_of_integers::<2, i16>(self.column),
            IntegerKind::I32 => statistics_of_integers::<4, i32>(self.column),
            IntegerKind::I64 => statistics_of_integers::<8, i64>(self.column),
        }
    }

    /// The integer of a row, or `None` where it is null.
    pub fn integer_at(&self, row: usize) -> Option<i128>
        requires { row < self.now.column.length }
        ensures { slice_get (integer_cells self.now.kind self.now.column) row ≡ Some result }
    {
        let column = self.column;
        let i = column.offset + row;
        if is_row_valid(column.validity, i, column.offset + column.length) {
            Some(integer_of_kind(self.kind, column.values, i))
        } else {
            None
        }
    }
}

impl ItemRows<'_> {
    /// The statistics of the column.
    pub fn statistics(&self) -> IntegerStatistics
        ensures { AreStatisticsOf (item_cells self.now.kind self.now.column) result }
    {
        let column = self.column;
        match self.kind {
            ItemKind::Integer(kind) => IntegerRows { kind, column }.statistics(),
            ItemKind::F32 => statistics_of_integers::<4, Rank32>(column),
            ItemKind::F64 => statistics_of_integers::<8, Rank64>(column),
            ItemKind::I128 => statistics_of_integers::<16, i128>(column),
        }
    }

    /// The number of a row, or `None` where it is null.
    pub fn number_at(&self, row: usize) -> Option<i128>
        requires { row < self.now.column.length }
        ensures { slice_get (item_cells self.now.kind self.now.column) row ≡ Some result }
    {
        let column = self.column;
        let i = column.offset + row;
        if is_row_valid(column.validity, i, column.offset + column.length) {
            Some(number_of_kind(self.kind, column.values, i))
        } else {
            None
        }
    }

    /// The first row whose number is outside of a range. The extremes say whether there is one.
    pub fn first_outside(&self, least: i128, greatest: i128) -> Option<usize>
        ensures { let cells = item_cells self.now.kind self.now.column in
            MatchOption result (AreWithinBefore least greatest cells self.now.column.length)
            (IsFirstOutside least greatest cells) }
    {
        let statistics = self.statistics();
        let Some(extremes) = statistics.extremes else {
            return None;
        };
        if least <= extremes.least && extremes.greatest <= greatest {
            return None;
        }
        self.find_outside(least, greatest)
    }

    /// The same, row by row.
    fn find_outside(&self, least: i128, greatest: i128) -> Option<usize>
        ensures { let cells = item_cells self.now.kind self.now.column in
            MatchOption result (AreWithinBefore least greatest cells self.now.column.length)
            (IsFirstOutside least greatest cells) }
    {
        for row in 0..self.column.length {
            if is_outside(self.number_at(row), least, greatest) {
                return Some(row);
            }
        }
        None
    }
}

/// Whether there is a number, and it is outside of a range.
fn is_outside(cell: Option<i128>, least: i128, greatest: i128) -> bool
    ensures { MatchBool result (IsSomeAnd cell (λ z. ¬ (IsWithin least greatest z)))
        (IfSome cell (IsWithin least greatest)) }
{
    match cell {
        Some(number) => number < least || greatest < number,
        None => false,
    }
}

impl<'a> LogicalRows<'a> {
    /// The same rows, as numbers: the storages of their values.
    pub fn numbers(&self) -> ItemRows<'a>
        ensures kind { result.kind ≡ items_of self.now.format }
        ensures column { result.column ≡ self.now.column }
    {
        ItemRows {
            kind: self.format.items(),
            column: self.column,
        }
    }
}

impl BooleanRows<'_> {
    /// The statistics of the column.
    pub fn statistics(&self) -> BooleanStatistics
        ensures { AreBooleanStatisticsOf (boolean_cells self.now.column) result }
    {
        let column = self.column;
        let end = column.offset + column.length;
        statistics_of_bits(column.validity, column.values, column.offset, end)
    }

    /// The boolean of a row, or `None` where it is null.
    pub fn bool_at(&self, row: usize) -> Option<bool>
        requires { row < self.now.column.length }
        ensures { slice_get (boolean_cells self.now.column) row ≡ Some result }
    {
        let column = self.column;
        let i = column.offset + row;
        if is_row_valid(column.validity, i, column.offset + column.length) {
            Some(is_set(column.values, i))
        } else {
            None
        }
    }
}

impl<'a> ByteRows<'a> {
    /// The statistics of the column.
    pub fn statistics(&self) -> ByteStatistics
        ensures { AreByteStatisticsOf (byte_cells self.now.width self.now.column) result }
    {
        match self.width {
            OffsetWidth::Bits32 => statistics_of_bytes::<4, u32>(self.column),
            OffsetWidth::Bits64 => statistics_of_bytes::<8, u64>(self.column),
        }
    }

    /// The bytes of a row that is below the end, null or not.
    fn bytes_of(&self, i: usize) -> &'a [u8]
        requires from { self.now.column.offset ≤ i }
        requires end { i < end_of self.now.column }
        ensures { result.now ≡ bytes_between self.now.column.values.now
            (offset_in self.now.width self.now.column) i }
    {
        match self.width {
            OffsetWidth::Bits32 => bytes::<4, u32>(self.column, i),
            OffsetWidth::Bits64 => bytes::<8, u64>(self.column, i),
        }
    }

    /// The bytes of a row, or `None` where it is null.
    pub fn bytes_at(&self, row: usize) -> Option<&'a [u8]>
        requires { row < self.now.column.length }
        ensures { slice_get (byte_cells self.now.width self.now.column) row ≡ Some (option_copied result) }
    {
        let column = self.column;
        let i = column.offset + row;
        if is_row_valid(column.validity, i, column.offset + column.length) {
            Some(self.bytes_of(i))
        } else {
            None
        }
    }
}
