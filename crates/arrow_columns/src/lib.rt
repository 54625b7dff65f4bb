// SPDX-License-Identifier: Apache-2.0
// SPDX-FileCopyrightText: Copyright the Vortex contributors; ported to Rattle and changed
//! Columns as the Arrow C data interface lays them out, read where they lie: integers, booleans,
//! strings and bytes, with nulls or without.
#![tactic(auto)]

mod bitmaps;
mod booleans;
mod byte_extremes;
mod byte_items;
mod byte_spans;
mod casts;
mod checking;
mod columns;
mod errors;
mod extremes;
mod formats;
mod integers;
mod items;
mod kinds;
mod offset_width;
mod offsets;
mod ranks;
mod reading;
mod statistics;
mod tested_rows;

pub use bitmaps::{bitmap_length, put_bit};
pub use byte_items::read_offset;
pub use byte_spans::{ByteSpan, items_are_bytes, word_between};
pub use casts::CastError;
pub use columns::{Column, row_count_of};
pub use errors::{Buffer, ColumnError};
pub use formats::{DecimalWidth, Format};
pub use items::{Item, Storage32, Storage64};
pub use kinds::{IntegerKind, ItemKind, Kind};
pub use offset_width::OffsetWidth;
pub use offsets::Offset;
pub use statistics::{
    BooleanStatistics, ByteExtremes, ByteStatistics, IntegerExtremes, IntegerStatistics,
};
pub use tested_rows::{BooleanRows, ByteRows, IntegerRows, ItemRows, LogicalRows, Rows};
