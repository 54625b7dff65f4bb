// SPDX-License-Identifier: Apache-2.0
// SPDX-FileCopyrightText: Copyright the Vortex contributors; ported to Rattle and changed
//! Records of comma-separated text: where one ends and the next begins, and the fields of one. What
//! a row is goes by the states of the kit's `csv`.
#![tactic(auto)]

mod delimiter;
mod ends;
mod fields;
pub mod laws;
mod records;
mod states;

pub use delimiter::Delimiter;
pub use fields::{CutField, Follows, cut_field, row_start};
pub use records::{cut_record, plain_end};
pub use states::{RecordState, state_after_line};
