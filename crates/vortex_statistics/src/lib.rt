// SPDX-License-Identifier: Apache-2.0
// SPDX-FileCopyrightText: Copyright the Vortex contributors; ported to Rattle and changed
//! Statistics of a column: how many rows and nulls it has, and bounds of its values. They are made
//! value by value, merged in any grouping, and cut to a length.
#![tactic(auto)]

mod column_statistics;
mod error;
mod gathering;
pub mod laws;
mod merging;
mod observing;
mod truncating;

pub use column_statistics::{Bound, ColumnStatistics};
pub use error::StatisticsError;
