// SPDX-License-Identifier: Apache-2.0
// SPDX-FileCopyrightText: Copyright the Vortex contributors; ported to Rattle and changed
//! The search of a file of records by its index, for callers who read both themselves: what to read for a
//! filter, and which records match in the bytes that came. Nothing is opened here.
#![tactic(auto)]

mod index_bytes;
pub mod laws;
mod planning;
mod sought;

pub use index_bytes::{PlanError, blocks_to_read, plan_by_bytes, read_index_root};
pub use planning::{Plan, find_rows_in, find_rows_until_fault, plan_search};
pub use sought::{Sought, SoughtError};
