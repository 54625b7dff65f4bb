// SPDX-License-Identifier: Apache-2.0
//! The columns of the rows that a filter matches, in Arrow's layout: each record of a text is read once, and the
//! columns that are wanted are written where the caller wants them.
#![tactic(auto)]

mod buffers;
mod codes;
mod columns;
mod errors;
mod kinds;
mod rows;

pub use codes::code_of_column;
pub use columns::columns_of_records;
pub use errors::ColumnsError;
pub use kinds::kind_of_column;
