// SPDX-License-Identifier: Apache-2.0
// SPDX-FileCopyrightText: Copyright the Vortex contributors; ported to Rattle and changed
//! The keys of the rows of columns in Arrow's layout, written where the caller wants them, and the
//! columns that keys of rows give back.
#![tactic(auto)]

mod buffers;
mod cells;
mod counting;
mod decoding;
mod errors;
mod items;
mod key_columns;
mod keys;
pub mod laws;
mod lengths;
mod rows;
mod stored;
mod table;
mod types;
mod values;
mod writing;

pub use buffers::ColumnBuffers;
pub use counting::count_column;
pub use decoding::{columns_of_keys, columns_of_typed_keys};
pub use errors::{KeysError, TableError};
pub use key_columns::{KeyColumn, options_of_byte, read_columns};
pub use table::{row_keys_length, write_row_keys};
pub use writing::write_column;
