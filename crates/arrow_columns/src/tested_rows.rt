//! The rows of columns that were tested.

ghost use Rattle.arrow_columns.specs.Columns.{IsBooleanColumn, IsByteColumn, IsIntegerColumn, IsItemColumn};
ghost use Rattle.arrow_columns.specs.Formats.{items_of};

use crate::columns::Column;
use crate::formats::Format;
use crate::kinds::{IntegerKind, ItemKind};
use crate::offset_width::OffsetWidth;

/// A column of integers, whose buffers are long enough.
#[derive(Clone, Copy)]
pub struct IntegerRows<'a> {
    pub kind: IntegerKind,
    pub column: Column<'a>,
    pub ghost is_column: { IsIntegerColumn kind column },
}

/// A column of items of any kind, whose buffers are long enough.
#[derive(Clone, Copy)]
pub struct ItemRows<'a> {
    pub kind: ItemKind,
    pub column: Column<'a>,
    pub ghost is_column: { IsItemColumn kind column },
}

/// A column of a logical type, whose buffers are long enough.
#[derive(Clone, Copy)]
pub struct LogicalRows<'a> {
    pub format: Format,
    pub column: Column<'a>,
    pub ghost is_column: { IsItemColumn (items_of format) column },
}

/// A column of booleans, whose bitmaps are long enough.
#[derive(Clone, Copy)]
pub struct BooleanRows<'a> {
    pub column: Column<'a>,
    pub ghost is_column: { IsBooleanColumn column },
}

/// A column of strings or bytes, whose buffers are long enough, and whose offsets go up and not
/// past the end.
#[derive(Clone, Copy)]
pub struct ByteRows<'a> {
    pub width: OffsetWidth,
    pub column: Column<'a>,
    pub ghost is_column: { IsByteColumn width column },
}

/// A column that can be read.
#[derive(Clone, Copy)]
pub enum Rows<'a> {
    Integers(IntegerRows<'a>),
    Booleans(BooleanRows<'a>),
    /// Bytes of which each value is UTF-8.
    Strings(ByteRows<'a>),
    Bytes(ByteRows<'a>),
    /// So many nulls.
    Nulls(usize),
    /// Values of a logical type: each row is null or one.
    Values(LogicalRows<'a>),
}
