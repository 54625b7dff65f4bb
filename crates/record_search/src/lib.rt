// SPDX-License-Identifier: Apache-2.0
// SPDX-FileCopyrightText: Copyright the Vortex contributors; ported to Rattle and changed
//! A search for the rows of a file of records that a filter matches. By an index with statistics of
//! the columns, it reads only the zones in which some row may match.
#![tactic(auto)]

mod describing;
mod filtering;
pub mod laws;
mod naming;
mod reading;
mod schema;
mod searching;

pub use describing::RowDescriber;
pub use filtering::{RowFilter, RowScratch};
pub use naming::named_columns;
pub use reading::read_statistics;
pub use record_rows::dtype_of;
pub use schema::{Schema, row_of_record};
pub use searching::{count_rows, find_rows, index_rows};
