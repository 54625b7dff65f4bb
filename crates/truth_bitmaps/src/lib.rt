// SPDX-License-Identifier: Apache-2.0
//! SQL's truth values of many rows, as two bitmaps: the rows of which a filter is True, and those of
//! which it is Unknown. Each word of a bitmap has 64 rows, from the least significant bit on.
#![tactic(auto)]

mod bitmaps;
mod blocks;
mod masks;
mod rows;
mod words;

pub use bitmaps::{mark_nulls, write_bits};
pub use blocks::{
    and_words, are_all_false, are_all_true, false_words, fill_words, not_words, or_words,
    word_count,
};
pub use masks::write_matches;
pub use rows::write_rows;
pub use words::TruthWord;
