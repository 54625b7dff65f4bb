// SPDX-License-Identifier: Apache-2.0
// SPDX-FileCopyrightText: Copyright the Vortex contributors; ported to Rattle and changed
//! Statistics of a column as bytes that do not change from version to version, and back from them.
#![tactic(auto)]

mod flags;
pub mod laws;
mod pieces;
mod reading;
mod writing;

pub use pieces::{decode_piece_into, nothing_known};
pub use reading::{decode_statistics, decode_statistics_into};
pub use writing::append_statistics;
