// SPDX-License-Identifier: Apache-2.0
// SPDX-FileCopyrightText: Copyright the Vortex contributors; ported to Rattle and changed
//! Columns in Arrow's layout as columns of scalars: the type of each kind, and the scalar of a row.
#![tactic(auto)]

mod cells;
pub mod laws;
mod rows;
mod scalars;
mod types;
mod values;

pub use cells::{null_of_rows, row_count, scalar_at, value_at};
pub use rows::rows_of;
pub use scalars::{bool_scalar, byte_scalar, integer_scalar, text_scalar, value_scalar};
pub use types::{dtype_of, dtype_of_format, dtype_of_rows, is_type_of_rows, ptype_of};
