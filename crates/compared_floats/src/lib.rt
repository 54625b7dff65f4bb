// SPDX-License-Identifier: Apache-2.0
//! What a filter leaves out of columns of floats in Arrow's layout, by the bits in their buffers.
//!
//! Columns are left out by their statistics. Then no float that is sought lies in the buffer: none is lost for a
//! NaN, or for a zero's sign.
#![tactic(auto)]

mod columns;
pub mod laws;

pub use columns::can_skip;
