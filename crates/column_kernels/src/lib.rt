// SPDX-License-Identifier: Apache-2.0
//! Filters over columns in Arrow's layout, many rows at a time: what a filter, or one test of a column, says of
//! each row, as words of two bitmaps.
#![tactic(auto)]

mod beginning;
mod booleans;
mod bytes;
mod comparing;
mod evaluation;
mod floats;
mod items;
mod listed;
mod literals;
mod masks;
mod members;
mod needles;
mod nulls;
mod patterns;
mod spans;
mod validity;

pub use beginning::test_prefix_of_rows;
pub use comparing::compare_rows;
pub use masks::write_mask;
pub use nulls::test_nulls;
pub use patterns::match_rows;
