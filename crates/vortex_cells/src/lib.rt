// SPDX-License-Identifier: Apache-2.0
// SPDX-FileCopyrightText: Copyright the Vortex contributors; ported to Rattle and changed
//! Cells of a column, as filters and statistics see them: what a scalar is as a cell, how two
//! compare, and whether the values of a type have an order at all.
#![tactic(auto)]

mod comparing;
mod variants;

pub use comparing::{compare_refs, compare_scalars};
pub use variants::{has_variant, have_variant};
