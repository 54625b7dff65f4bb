// SPDX-License-Identifier: Apache-2.0
// SPDX-FileCopyrightText: Copyright the Vortex contributors; ported to Rattle and changed
//! Calls of types, scalars and views, of conversions to Rust values, and of bounds and zones, which
//! worked cases name. Each file has a family of them: their names, what a line gives each, and what each
//! answers.
#![tactic(auto)]

mod bounds;
mod buffers;
mod makers;
mod makers_of_types;
mod numbers;
mod recorder;
mod rust_values;
mod scalars;
mod types;
mod valid_scalars;
mod view_parts;
mod whole_views;

use case_lines::Line;

/// Answers the line if it names one of these calls.
pub fn answer(line: &mut Line<'_>) {
    types::answer(line);
    makers_of_types::answer(line);
    buffers::answer(line);
    scalars::answer(line);
    valid_scalars::answer(line);
    makers::answer(line);
    view_parts::answer(line);
    whole_views::answer(line);
    numbers::answer(line);
    rust_values::answer(line);
    bounds::answer(line);
}
