// SPDX-License-Identifier: Apache-2.0
//! SQL's `like`: which strings a pattern matches, in which `%` stands for any string and `_` for one
//! character, a Unicode scalar value.
//!
//! A pattern is read once, and then compared with any number of strings without taking memory. What
//! stands between two `%` is sought at its first place behind what was found before, by
//! `memchr::memmem`. So a comparison takes time linear in the string, unless what is sought has an `_`
//! or the case of letters does not count: then it takes at the worst as many steps as the string has
//! bytes, times the bytes that are sought.
#![tactic(auto)]

mod case;
mod characters;
mod error;
pub mod laws;
mod matching;
mod pattern;
mod pieces;
mod reading;
mod searching;
mod text;

pub use case::Case;
pub use error::PatternError;
pub use pattern::Pattern;
