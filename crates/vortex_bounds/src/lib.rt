// SPDX-License-Identifier: Apache-2.0
// SPDX-FileCopyrightText: Copyright the Vortex contributors; ported to Rattle and changed
//! Truncation of strings and bytes to bounds of a length: the best one that is not above a value,
//! and the best one that is above it.
#![tactic(auto)]

mod increment_bytes;
pub mod laws;
mod string_like;
mod truncation;

pub use string_like::{IncrementError, StringLike};
pub use truncation::{ScalarTruncation, lower_bound, upper_bound};
