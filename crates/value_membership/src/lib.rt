// SPDX-License-Identifier: Apache-2.0
//! Values as members of Bloom filters, by the hashes of their keys.
//!
//! The members of a column are a filter that each value of the column was inserted into.
#![tactic(auto)]

pub mod laws;
mod values;

pub use values::{hash_value, insert_value};
