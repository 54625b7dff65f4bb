// SPDX-License-Identifier: Apache-2.0
// SPDX-FileCopyrightText: Copyright the Vortex contributors; ported to Rattle and changed
//! The encoding of a prepared filter in bytes: the types of its columns, and the filter. It is
//! written once, and read as often as the filter is used.
#![tactic(auto)]

mod error;
mod extensions;
mod heads;
pub mod laws;
mod literals;
mod patterns;
mod places;
mod prepared;
mod reader;
mod reading;
mod types;
mod values;
mod versions;
mod writing;

pub use error::FilterEncodingError;
pub use prepared::PreparedFilter;
pub use reading::read_filter;
pub use writing::append_filter;
