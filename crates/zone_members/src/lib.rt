// SPDX-License-Identifier: Apache-2.0
//! The members of columns in an index of zones: the Bloom filters of a zone as pieces of its statistics.
//!
//! A piece is one block of a filter, and a block of an index has the same piece of each zone. So a value is
//! looked up in all zones by one block of the index.
#![tactic(auto)]

pub mod laws;
mod pieces;

pub use pieces::{may_contain_in, piece_of, push_blocks};
