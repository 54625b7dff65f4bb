// SPDX-License-Identifier: Apache-2.0
// SPDX-FileCopyrightText: Copyright the Vortex contributors; ported to Rattle and changed
//! Statistics of columns in Arrow's layout: the counts, and the least and the greatest value, cut
//! to a length; also as bytes, which are merged and read.
#![tactic(auto)]

mod encodings;
mod errors;
mod extremes;
mod items;
pub mod laws;
mod statistics;

pub use encodings::{column_encoding, merged_encoding, read_encoding};
pub use errors::{ColumnStatisticsError, MergeError, ReadError};
pub use items::{Item, item_of};
pub use statistics::statistics_of;
