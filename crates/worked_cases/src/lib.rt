// SPDX-License-Identifier: Apache-2.0
// SPDX-FileCopyrightText: Copyright the Vortex contributors; ported to Rattle and changed
//! The program `scalar_cases` without its `main`. It reads worked cases, one a line, answers each by
//! the call that it names, and compares the answer with the one that stands in the line.
#![tactic(auto)]

mod cases;
mod lines;

pub use case_lines::Run;
pub use cases::call;
pub use lines::{Report, run_lines};
