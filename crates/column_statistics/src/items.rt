//! The values of columns as bytes.

ghost use Rattle.std.specs.Prelude.{◌≡◌, ℤ, MatchOption};
ghost use Rattle.column_statistics.specs.Words.{HasContentOf, InRange, Integer, IsCellOf, IsItemOf, Logical};
ghost use Rattle.column_statistics.specs.Words.{StoresNumber, bytes_of_item, cell_of, content, null, ptype_of_kind};
ghost use Rattle.column_statistics.specs.Words.{scalar_content, type_of_kind, value_tree, whole};

use arrow_columns::{Format, IntegerKind, Kind};
use column_items::{StoredItem, item_of_number, stored_number};
use vortex_value::{Scalar, ScalarValue};

/// A value of a column as bytes: an integer as a buffer of its kind has it, the low byte first, and
/// strings and bytes as they are. A boolean is one byte, 0 or 1. A value of a logical type is an item of
/// its format, as a buffer has it. The float 0 has no sign there, and all NaNs are one.
#[derive(Clone, Copy)]
pub enum Item<'a> {
    /// A boolean, or an integer of 8 bits.
    One([u8; 1]),
    /// An integer of 16 bits.
    Two([u8; 2]),
    /// An integer, or a float, of 32 bits.
    Four([u8; 4]),
    /// An integer, or a float, of 64 bits.
    Eight([u8; 8]),
    /// A decimal of 128 bits.
    Sixteen([u8; 16]),
    /// A string, or bytes.
    All(&'a [u8]),
}

impl Item<'_> {
    /// The bytes.
    pub fn as_slice(&self) -> &[u8]
        ensures { result.now ≡ bytes_of_item self.now }
    {
        match self {
            Item::One(bytes) => bytes,
            Item::Two(bytes) => bytes,
            Item::Four(bytes) => bytes,
            Item::Eight(bytes) => bytes,
            Item::Sixteen(bytes) => bytes,
            Item::All(bytes) => bytes,
        }
    }
}

/// A value of a column of this kind as bytes. `None` for a null.
#[tactic(auto, using(crate::proofs::ItemLaws::shown))]
pub fn item_of(kind: Kind, value: &Scalar) -> Option<Item<'_>>
    requires cell { IsCellOf (type_of_kind kind) (cell_of value.now) }
    requires value { HasContentOf kind (scalar_content value.now) }
    ensures { MatchOption result
        (scalar_content value.now ≡ null)
        (λ item. IsItemOf kind (scalar_content value.now) (bytes_of_item item)) }
{
    let Some(value) = value.value() else {
        return None;
    };
    match kind {
        Kind::Integer(kind) => Some(integer_item(kind, value.as_primitive().whole())),
        Kind::Boolean => Some(Item::One([u8::from(value.as_bool())])),
        Kind::Utf8 | Kind::LargeUtf8 => Some(Item::All(value.as_utf8().as_str().as_bytes())),
        Kind::Binary | Kind::LargeBinary => Some(Item::All(value.as_binary().as_slice())),
        Kind::Null => unreachable!(),
        Kind::Logical(format) => Some(value_item(format, value)),
    }
}

/// A value of a format, as an item of it.
fn value_item(format: Format, value: &ScalarValue) -> Item<'static>
    requires { (z : ℤ) × StoresNumber format (content (value_tree value.now)) z }
    ensures { IsItemOf (Logical format) (content (value_tree value.now)) (bytes_of_item result) }
{
    let Some(number) = stored_number(format, value) else {
        unreachable!()
    };
    match item_of_number(format, number) {
        StoredItem::Four(bytes) => Item::Four(bytes),
        StoredItem::Eight(bytes) => Item::Eight(bytes),
        StoredItem::Sixteen(bytes) => Item::Sixteen(bytes),
    }
}

/// An integer of this kind.
fn integer_item(kind: IntegerKind, number: i128) -> Item<'static>
    requires { InRange (ptype_of_kind kind) number }
    ensures { IsItemOf (Integer kind) (whole number) (bytes_of_item result) }
{
    match kind {
        IntegerKind::U8 => Item::One((number as u8).to_le_bytes()),
        IntegerKind::U16 => Item::Two((number as u16).to_le_bytes()),
        IntegerKind::U32 => Item::Four((number as u32).to_le_bytes()),
        IntegerKind::U64 => Item::Eight((number as u64).to_le_bytes()),
        IntegerKind::I8 => Item::One((number as i8).to_le_bytes()),
        IntegerKind::I16 => Item::Two((number as i16).to_le_bytes()),
        IntegerKind::I32 => Item::Four((number as i32).to_le_bytes()),
        IntegerKind::I64 => Item::Eight((number as i64).to_le_bytes()),
    }
}
