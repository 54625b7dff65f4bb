// SPDX-License-Identifier: Apache-2.0
// SPDX-FileCopyrightText: Copyright the Vortex contributors; ported to Rattle and changed
//! The columns of CSV text: named by a header, and of the kinds that are said or that fit the words of its
//! first records. And how such a text is read, as a text of its own that is read back.
#![tactic(auto)]

mod column_words;
mod guessing;
mod kinds;
mod names;
mod setup;

pub use column_words::{NamedColumn, column_of, push_kind};
pub use guessing::{Guessed, guess_columns, names_others};
pub use names::{is_line, is_name};
pub use setup::{NO_DELIMITER, Numbers, Setup, reading_of};
