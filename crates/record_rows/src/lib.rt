// SPDX-License-Identifier: Apache-2.0
// SPDX-FileCopyrightText: Copyright the Vortex contributors; ported to Rattle and changed
//! The row of a record under a schema: each field is a cell of its column, or is refused, and the
//! statistics of the columns observe it. And texts of many records: their records and rows, and
//! where one may be cut.
#![tactic(auto)]

mod ascii;
mod cells;
mod days;
mod errors;
mod fields;
mod in_place;
mod numbers;
mod observing;
mod rows;
mod schema;
mod taking;
mod texts;
mod wanted;
mod words;

pub use errors::{ObserveError, RowReadError};
pub use logical_types::{DecimalType, LogicalType, TimeUnit};
pub use observing::{RowNotes, observe_record};
pub use rows::{read_cells, read_row};
pub use schema::{ColumnType, FieldReading, Kind, Schema, dtype_of};
pub use texts::{csv_rows, is_whole_record, may_cut, split_records};
pub use wanted::read_wanted;
