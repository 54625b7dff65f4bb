// SPDX-License-Identifier: Apache-2.0
//! Statistics of a column as bytes that name its logical type, and back from them.
#![tactic(auto)]

mod heads;
pub mod laws;
mod reading;
mod writing;

pub use heads::head_of;
pub use reading::{decode_named_piece_into, decode_named_statistics, decode_piece_by_head_into};
pub use writing::append_named_statistics;
