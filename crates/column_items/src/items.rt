// SPDX-License-Identifier: Apache-2.0
//! The item of a number in a buffer.

ghost use Rattle.std.specs.Prelude.{◌≡◌, length};
ghost use Rattle.std.specs.Float.{binary32, binary64};
ghost use Rattle.std.specs.Int.{cast_signed, cast_unsigned, from_le_bytes, to_le_bytes, w128, w32, w64};
ghost use Rattle.column_items.specs.Words.{FitsItem, IsStorage, IsValueOf, bits_of_storage};
ghost use Rattle.column_items.specs.Words.{bytes_of_number, bytes_of_stored, items_of, number_of, storage_of_bits};
ghost use Rattle.column_items.specs.Words.{width_of_item};

use arrow_columns::{DecimalWidth, Format};
use float_storage::laws::{f32_storage_comes_back, f64_storage_comes_back};
use float_storage::{f32_bits_of_storage, f64_bits_of_storage};
use logical_types::TimeUnit;

/// An item of a buffer, the low byte first.
#[derive(Clone, Copy)]
pub enum StoredItem {
    /// Of 32 bits.
    Four([u8; 4]),
    /// Of 64 bits.
    Eight([u8; 8]),
    /// Of 128 bits.
    Sixteen([u8; 16]),
}

impl StoredItem {
    /// The bytes.
    pub fn as_slice(&self) -> &[u8]
        ensures { result.now ≡ bytes_of_stored self.now }
    {
        match self {
            StoredItem::Four(bytes) => bytes,
            StoredItem::Eight(bytes) => bytes,
            StoredItem::Sixteen(bytes) => bytes,
        }
    }
}

/// The item of a buffer of the format that stands for a number, the same one each time. Of floats that
/// of 0 has no sign, and that of NaN has the bits next above those of infinity.
pub fn item_of_number(format: Format, number: i128) -> StoredItem
    requires value { IsValueOf format number }
    requires fits { FitsItem (items_of format) number }
    ensures width { length (bytes_of_stored result) ≡ width_of_item (items_of format) }
    ensures number { number_of (items_of format) (bytes_of_stored result) ≡ number }
    ensures item { bytes_of_stored result ≡ bytes_of_number (items_of format) number }
{
    match format {
        Format::Float32 => StoredItem::Four(f32_bytes(number as i32)),
        Format::Float64 => StoredItem::Eight(f64_bytes(number as i64)),
        Format::Date32 | Format::Time(TimeUnit::Seconds | TimeUnit::Milliseconds) => {
            StoredItem::Four(i32_bytes(number as i32))
        }
        Format::Time(TimeUnit::Microseconds | TimeUnit::Nanoseconds) => {
            StoredItem::Eight(i64_bytes(number as i64))
        }
        Format::Timestamp { .. } => StoredItem::Eight(i64_bytes(number as i64)),
        Format::Decimal { width, .. } => match width {
            DecimalWidth::Bits32 => StoredItem::Four(i32_bytes(number as i32)),
            DecimalWidth::Bits64 => StoredItem::Eight(i64_bytes(number as i64)),
            DecimalWidth::Bits128 => StoredItem::Sixteen(i128_bytes(number)),
        },
    }
}

/// The bytes of an integer of 32 bits.
fn i32_bytes(number: i32) -> [u8; 4]
    ensures number { cast_signed w32 (from_le_bytes w32 result) ≡ number }
    ensures bytes { result ≡ to_le_bytes w32 (cast_unsigned w32 number) }
{
    number.to_le_bytes()
}

/// The bytes of an integer of 64 bits.
fn i64_bytes(number: i64) -> [u8; 8]
    ensures number { cast_signed w64 (from_le_bytes w64 result) ≡ number }
    ensures bytes { result ≡ to_le_bytes w64 (cast_unsigned w64 number) }
{
    number.to_le_bytes()
}

/// The bytes of an integer of 128 bits.
fn i128_bytes(number: i128) -> [u8; 16]
    ensures number { cast_signed w128 (from_le_bytes w128 result) ≡ number }
    ensures bytes { result ≡ to_le_bytes w128 (cast_unsigned w128 number) }
{
    number.to_le_bytes()
}

/// The bytes of a float of 32 bits, by its storage.
fn f32_bytes(storage: i32) -> [u8; 4]
    requires { IsStorage binary32 storage }
    ensures number { storage_of_bits binary32 (from_le_bytes w32 result) ≡ storage }
    ensures bytes { result ≡ to_le_bytes w32 (bits_of_storage binary32 storage) }
{
    f32_storage_comes_back(storage);
    f32_bits_of_storage(storage).to_le_bytes()
}

/// The bytes of a float of 64 bits, by its storage.
fn f64_bytes(storage: i64) -> [u8; 8]
    requires { IsStorage binary64 storage }
    ensures number { storage_of_bits binary64 (from_le_bytes w64 result) ≡ storage }
    ensures bytes { result ≡ to_le_bytes w64 (bits_of_storage binary64 storage) }
{
    f64_storage_comes_back(storage);
    f64_bits_of_storage(storage).to_le_bytes()
}
