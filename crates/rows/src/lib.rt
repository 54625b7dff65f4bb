// SPDX-License-Identifier: Apache-2.0
// SPDX-FileCopyrightText: Copyright the Vortex contributors; ported to Rattle and changed
//! The program `scalar_rows` without its `main`: reads lines such as `cast i32 1000 i16`, and writes
//! what each gives, such as `1000i16`.
#![tactic(auto)]

mod answers;
mod commands;
mod faults;
mod hexadecimal;
mod input;
mod numbers;
mod output;
mod print;
mod program;
mod words;

pub use answers::number_in_ptype;
pub use faults::{RowsError, fault_line};
pub use input::read_all;
pub use numbers::ptype_named;
pub use output::write_out;
pub use program::run;
pub use words::first_line;
