// SPDX-License-Identifier: Apache-2.0
// SPDX-FileCopyrightText: Copyright the Vortex contributors; ported to Rattle and changed
//! A filter over many rows at once: which rows of columns in Arrow's layout match, and what it can
//! be on the rows of many zones, by statistics in bytes.
#![tactic(auto)]

mod errors;
pub mod laws;
mod masks;
mod naming;
mod tables;
mod zones;

pub use errors::{MaskError, ZoneError};
pub use masks::mask_of_columns;
pub use tables::read_columns;
pub use zones::outcomes_of_zones;
