// SPDX-License-Identifier: Apache-2.0
//! What a search of a file of records leaves out, by the words in the file's bytes.
//!
//! A zone is left out by its statistics. Then no word of it reads as a value that is sought: none is lost for a
//! NaN, for a zero's sign or for a digit that was cut.
#![tactic(auto)]

pub mod laws;
mod zones;

pub use zones::can_skip;
