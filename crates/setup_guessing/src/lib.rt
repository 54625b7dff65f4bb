// SPDX-License-Identifier: Apache-2.0
// SPDX-FileCopyrightText: Copyright the Vortex contributors; ported to Rattle and changed
//! How a file of records is read that has no index: what is not given is guessed from its first records.
//! Nothing is opened here.
#![tactic(auto)]

mod columns;
mod records;
mod setups;

pub use columns::{guess_others, needs_guesses};
pub use setups::{GUESSED_FROM, GuessedSetup, GuessedText, guess_setup, guess_setup_text};
