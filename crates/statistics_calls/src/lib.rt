// SPDX-License-Identifier: Apache-2.0
// SPDX-FileCopyrightText: Copyright the Vortex contributors; ported to Rattle and changed
//! Calls of keys and of statistics, which worked cases name: each file has a family of them, their names
//! and what each answers.
#![tactic(auto)]

mod answers;
mod key_inputs;
mod keys;
mod pieces;
mod plain_values;
mod read;
mod same;
mod statistics;
mod statistics_inputs;

use case_lines::Line;
pub use read::{read_statistics, read_typed_statistics};
pub use same::same_statistics;

/// Answers the line if it names one of these calls.
pub fn answer(line: &mut Line<'_>) {
    keys::answer(line);
    statistics::answer(line);
    pieces::answer(line);
}
