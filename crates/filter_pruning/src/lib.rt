// SPDX-License-Identifier: Apache-2.0
// SPDX-FileCopyrightText: Copyright the Vortex contributors; ported to Rattle and changed
//! What filters can be on the rows of a zone of which statistics are known, and what is left of them.
#![tactic(auto)]

pub mod laws;
mod orders;
mod outcomes;
mod pattern_pruning;
mod prefix_pruning;
mod pruning;
mod residual;

pub use outcomes::Outcomes;
pub use pruning::{may_match, must_match, outcomes_of};
pub use residual::simplify;
