//! Numbers that are compared with a literal.

ghost use Rattle.std.specs.Prelude.{◌≡◌, ◌+◌, ◌*◌, ◌<◌, ◌≤◌, [], IfSome, Some, length, nat_eq, slice_index_or, ℤ};
ghost use Rattle.arrow_columns.specs.declared.kinds.ItemKind.{ItemKind};
ghost use Rattle.column_kernels.specs.Words.{AreTruths, HasRows, Integer, compared, decimal_bytes, end_of, holds};
ghost use Rattle.column_kernels.specs.Words.{if_value, int_cmp, nat_cmp, number_cell, number_of, slice_cmp};
ghost use Rattle.column_kernels.specs.Words.{starts_with, tested, width_of, width_of_item};

use crate::floats::Number64;
use crate::validity::mark_null_rows;
use arrow_columns::{Column, IntegerKind, Item, ItemKind, ItemRows, Storage32, Storage64};
use logical_types::bytes_of_decimal;
use truth_bitmaps::{TruthWord, write_rows};
use vortex_filter::CompareOperator;

/// A literal, as items of N bytes are compared with it.
pub(crate) trait Comparand<const N: usize>: Copy + Drop {
    ghost kind: { ItemKind };

    ghost number: { Self → ℤ };

    /// Whether an item with these bytes stands so to it.
    fn holds(self, operator: CompareOperator, bytes: [u8; N]) -> bool
        ensures { result ≡ holds operator (int_cmp (number_of kind bytes.entry) (number self)) };
}

/// A literal that is an item too.
#[derive(Clone, Copy)]
struct ItemLiteral<T> {
    item: T,
}

impl<const N: usize, T: Item<N>> Comparand<N> for ItemLiteral<T> {
    ghost kind = { T.kind };

    ghost number = { λ literal. T.number literal.item };

    #[inline(always)]
    fn holds(self, operator: CompareOperator, bytes: [u8; N]) -> bool
        ensures { result ≡ holds operator (int_cmp (number_of T.kind bytes.entry) (T.number self.item)) }
    {
        operator.holds(T::of_bytes(bytes).compare(self.item))
    }
}

/// Compares so many numbers of a column, from a row on, with a literal.
pub(crate) fn compare_numbers(
    rows: &ItemRows,
    from: usize,
    count: usize,
    operator: CompareOperator,
    literal: i128,
    words: &mut [TruthWord],
)
    requires range { from + count ≤ rows.now.column.length }
    requires words { count ≤ 64 * length words.old }
    ensures truth { AreTruths (λ row. compared operator (λ z. int_cmp z literal)
        (number_cell (width_of_item rows.now.kind) rows.now.kind rows.now.column (from + row))) count words.new }
    ensures size { length words.new ≡ length words.old }
{
    let column = rows.column;
    match rows.kind {
        ItemKind::Integer(kind) => {
            compare_integers(kind, column, from, count, operator, literal, words);
        }
        ItemKind::F32 => {
            let item = i32::try_from(literal)
                .ok()
                .map(|storage| Storage32 { storage });
            compare_items::<4, Storage32>(column, from, count, operator, literal, item, words);
        }
        ItemKind::F64 => match Number64::of(literal) {
            Some(number) => {
                compare_with::<8, Number64>(column, from, count, operator, number, words);
            }
            None => {
                compare_outside::<8, Storage64>(column, from, count, operator, literal, words);
            }
        },
        ItemKind::I128 => {
            let item = Some(literal);
            compare_items::<16, i128>(column, from, count, operator, literal, item, words);
        }
    }
}

/// The same of integers of a kind.
fn compare_integers(
    kind: IntegerKind,
    column: Column,
    from: usize,
    count: usize,
    operator: CompareOperator,
    literal: i128,
    words: &mut [TruthWord],
)
    requires rows { HasRows column }
    requires values { end_of column * width_of kind ≤ length column.values.now }
    requires range { from + count ≤ column.length }
    requires words { count ≤ 64 * length words.old }
    ensures truth { AreTruths (λ row. compared operator (λ z. int_cmp z literal)
        (number_cell (width_of kind) (Integer kind) column.entry (from + row))) count words.new }
    ensures size { length words.new ≡ length words.old }
{
    match kind {
        IntegerKind::U8 => {
            let item = u8::try_from(literal).ok();
            compare_items::<1, u8>(column, from, count, operator, literal, item, words);
        }
        IntegerKind::U16 => {
            let item = u16::try_from(literal).ok();
            compare_items::<2, u16>(column, from, count, operator, literal, item, words);
        }
        IntegerKind::U32 => {
            let item = u32::try_from(literal).ok();
            compare_items::<4, u32>(column, from, count, operator, literal, item, words);
        }
        IntegerKind::U64 => {
            let item = u64::try_from(literal).ok();
            compare_items::<8, u64>(column, from, count, operator, literal, item, words);
        }
        IntegerKind::I8 => {
            let item = i8::try_from(literal).ok();
            compare_items::<1, i8>(column, from, count, operator, literal, item, words);
        }
        IntegerKind::I16 => {
            let item = i16::try_from(literal).ok();
            compare_items::<2, i16>(column, from, count, operator, literal, item, words);
        }
        IntegerKind::I32 => {
            let item = i32::try_from(literal).ok();
            compare_items::<4, i32>(column, from, count, operator, literal, item, words);
        }
        IntegerKind::I64 => {
            let item = i64::try_from(literal).ok();
            compare_items::<8, i64>(column, from, count, operator, literal, item, words);
        }
    }
}

/// Compares so many items of N bytes with a literal: as an item, if it is one.
fn compare_items<const N: usize, T: Item<N>>(
    column: Column,
    from: usize,
    count: usize,
    operator: CompareOperator,
    literal: i128,
    item: Option<T>,
    words: &mut [TruthWord],
)
    requires some { 0 < N }
    requires narrow { N ≤ 16 }
    requires rows { HasRows column }
    requires values { end_of column * N ≤ length column.values.now }
    requires literal { IfSome item (λ x. T.number x ≡ literal) }
    requires range { from + count ≤ column.length }
    requires words { count ≤ 64 * length words.old }
    ensures truth { AreTruths (λ row. compared operator (λ z. int_cmp z literal)
        (number_cell N T.kind column.entry (from + row))) count words.new }
    ensures size { length words.new ≡ length words.old }
{
    match item {
        Some(item) => {
            compare_with::<N, ItemLiteral<T>>(
                column,
                from,
                count,
                operator,
                ItemLiteral { item },
                words,
            );
        }
        None => compare_outside::<N, T>(column, from, count, operator, literal, words),
    }
}

/// Compares so many items of N bytes with one that they are made to be compared with.
fn compare_with<const N: usize, C: Comparand<N>>(
    column: Column,
    from: usize,
    count: usize,
    operator: CompareOperator,
    literal: C,
    words: &mut [TruthWord],
)
    requires some { 0 < N }
    requires narrow { N ≤ 16 }
    requires rows { HasRows column }
    requires values { end_of column * N ≤ length column.values.now }
    requires range { from + count ≤ column.length }
    requires words { count ≤ 64 * length words.old }
    ensures truth { AreTruths (λ row. compared operator (λ z. int_cmp z (C.number literal))
        (number_cell N C.kind column.entry (from + row))) count words.new }
    ensures size { length words.new ≡ length words.old }
{
    let (items, _) = column.values.as_chunks::<N>();
    let start = column.offset + from;
    write_compared::<N, C>(items, start, count, operator, literal, words);
    mark_null_rows(column, from, count, words);
}

/// Compares so many items of N bytes with a number that none has.
fn compare_outside<const N: usize, T: Item<N>>(
    column: Column,
    from: usize,
    count: usize,
    operator: CompareOperator,
    literal: i128,
    words: &mut [TruthWord],
)
    requires some { 0 < N }
    requires narrow { N ≤ 16 }
    requires rows { HasRows column }
    requires values { end_of column * N ≤ length column.values.now }
    requires range { from + count ≤ column.length }
    requires words { count ≤ 64 * length words.old }
    ensures truth { AreTruths (λ row. compared operator (λ z. int_cmp z literal)
        (number_cell N T.kind column.entry (from + row))) count words.new }
    ensures size { length words.new ≡ length words.old }
{
    let (items, _) = column.values.as_chunks::<N>();
    let start = column.offset + from;
    write_outside::<N, T>(items, start, count, operator, literal, words);
    mark_null_rows(column, from, count, words);
}

/// Writes how so many items stand to one. Each arm is a loop of its own, with one operator.
fn write_compared<const N: usize, C: Comparand<N>>(
    items: &[[u8; N]],
    start: usize,
    count: usize,
    operator: CompareOperator,
    literal: C,
    words: &mut [TruthWord],
)
    requires narrow { N ≤ 16 }
    requires items { start + count ≤ length items.now }
    requires words { count ≤ 64 * length words.old }
    ensures truth { AreTruths (λ row. Some (holds operator (int_cmp
        (number_of C.kind (slice_index_or items.now (start + row) [])) (C.number literal)))) count words.new }
    ensures size { length words.new ≡ length words.old }
{
    match operator {
        CompareOperator::Eq => {
            write_each::<N, C>(items, start, count, CompareOperator::Eq, literal, words);
        }
        CompareOperator::NotEq => {
            write_each::<N, C>(items, start, count, CompareOperator::NotEq, literal, words);
        }
        CompareOperator::Gt => {
            write_each::<N, C>(items, start, count, CompareOperator::Gt, literal, words);
        }
        CompareOperator::Gte => {
            write_each::<N, C>(items, start, count, CompareOperator::Gte, literal, words);
        }
        CompareOperator::Lt => {
            write_each::<N, C>(items, start, count, CompareOperator::Lt, literal, words);
        }
        CompareOperator::Lte => {
            write_each::<N, C>(items, start, count, CompareOperator::Lte, literal, words);
        }
    }
}

/// The same, inlined where the operator is known.
#[inline(always)]
fn write_each<const N: usize, C: Comparand<N>>(
    items: &[[u8; N]],
    start: usize,
    count: usize,
    operator: CompareOperator,
    literal: C,
    words: &mut [TruthWord],
)
    requires narrow { N ≤ 16 }
    requires items { start + count ≤ length items.now }
    requires words { count ≤ 64 * length words.old }
    ensures truth { AreTruths (λ row. Some (holds operator (int_cmp
        (number_of C.kind (slice_index_or items.now (start + row) [])) (C.number literal)))) count words.new }
    ensures size { length words.new ≡ length words.old }
{
    write_rows(
        words,
        count,
        |row: usize| -> bool
            requires { start + row < length items.now }
            ensures { result ≡ holds operator (int_cmp
                (number_of C.kind (slice_index_or items.entry.now (start + row) [])) (C.number literal)) }
        { literal.holds(operator, items[start + row]) },
    );
}

/// Writes how so many items stand to a number that no item has.
fn write_outside<const N: usize, T: Item<N>>(
    items: &[[u8; N]],
    start: usize,
    count: usize,
    operator: CompareOperator,
    literal: i128,
    words: &mut [TruthWord],
)
    requires narrow { N ≤ 16 }
    requires items { start + count ≤ length items.now }
    requires words { count ≤ 64 * length words.old }
    ensures truth { AreTruths (λ row. Some (holds operator (int_cmp
        (number_of T.kind (slice_index_or items.now (start + row) [])) literal))) count words.new }
    ensures size { length words.new ≡ length words.old }
{
    write_rows(
        words,
        count,
        |row: usize| -> bool
            requires { start + row < length items.now }
            ensures { result ≡ holds operator (int_cmp
                (number_of T.kind (slice_index_or items.entry.now (start + row) [])) literal) }
        { operator.holds(T::of_bytes(items[start + row]).whole().cmp(&literal)) },
    );
}

/// Compares so many decimals of a column, from a row on, with the bytes of a literal: by their own bytes, which
/// sort as they do.
pub(crate) fn compare_decimals(
    rows: &ItemRows,
    from: usize,
    count: usize,
    operator: CompareOperator,
    literal: &[u8],
    words: &mut [TruthWord],
)
    requires range { from + count ≤ rows.now.column.length }
    requires words { count ≤ 64 * length words.old }
    ensures truth { AreTruths (λ row. compared operator (λ z. slice_cmp nat_cmp (decimal_bytes z) literal.now)
        (number_cell (width_of_item rows.now.kind) rows.now.kind rows.now.column (from + row))) count words.new }
    ensures size { length words.new ≡ length words.old }
{
    write_rows(
        words,
        count,
        |row: usize| -> bool
            requires { from + row < rows.now.column.length }
            ensures { result ≡ if_value (λ z. holds operator (slice_cmp nat_cmp (decimal_bytes z) literal.entry.now))
                (number_cell (width_of_item rows.entry.now.kind) rows.entry.now.kind rows.entry.now.column
                (from + row)) }
        {
            match rows.number_at(from + row) {
                Some(number) => operator.holds(bytes_of_decimal(number).as_slice().cmp(literal)),
                None => false,
            }
        },
    );
    mark_null_rows(rows.column, from, count, words);
}

/// Writes which of so many decimals of a column, from a row on, have bytes that begin with a prefix.
pub(crate) fn test_prefix_of_decimals(
    rows: &ItemRows,
    from: usize,
    count: usize,
    prefix: &[u8],
    words: &mut [TruthWord],
)
    requires range { from + count ≤ rows.now.column.length }
    requires words { count ≤ 64 * length words.old }
    ensures truth { AreTruths (λ row. tested (λ z. starts_with nat_eq (decimal_bytes z) prefix.now)
        (number_cell (width_of_item rows.now.kind) rows.now.kind rows.now.column (from + row))) count words.new }
    ensures size { length words.new ≡ length words.old }
{
    write_rows(
        words,
        count,
        |row: usize| -> bool
            requires { from + row < rows.now.column.length }
            ensures { result ≡ if_value (λ z. starts_with nat_eq (decimal_bytes z) prefix.entry.now)
                (number_cell (width_of_item rows.entry.now.kind) rows.entry.now.kind rows.entry.now.column
                (from + row)) }
        {
            match rows.number_at(from + row) {
                Some(number) => bytes_of_decimal(number).as_slice().starts_with(prefix),
                None => false,
            }
        },
    );
    mark_null_rows(rows.column, from, count, words);
}
