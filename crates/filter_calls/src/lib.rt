// SPDX-License-Identifier: Apache-2.0
// SPDX-FileCopyrightText: Copyright the Vortex contributors; ported to Rattle and changed
//! Calls of filters, which worked cases name: their names and what each answers.
#![tactic(auto)]

mod answers;
mod filter_inputs;
mod filters;
mod prepared;
mod same;

use case_lines::Line;

/// Answers the line if it names one of these calls.
pub fn answer(line: &mut Line<'_>) {
    filters::answer(line);
}
