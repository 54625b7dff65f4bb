// SPDX-License-Identifier: Apache-2.0
// SPDX-FileCopyrightText: Copyright the Vortex contributors; ported to Rattle and changed
//! Filters as SQL text: read over columns by name and type, and printed.
#![tactic(auto)]

mod column;
mod error;
pub mod laws;
mod lex;
mod literal_words;
mod own_names;
mod parsing;
mod print;
mod token;

pub use column::Column;
pub use error::{Expected, ParseError};
pub use own_names::{filter_of_words, word_in};
pub use parsing::{MAX_DEPTH, parse, parse_within};
pub use print::Sql;
